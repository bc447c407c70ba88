ghost use Rattle.std.specs.Prelude.{◌≡◌, Some};
ghost use Rattle.channel.specs.Line.{Code, Lawful};

use crate::state::State;

/// A line code: bytes as channel words, numbers from 0 to 1,023, with a state from word to word.
pub trait LineCode {
    /// The words of bytes, and the bytes of words.
    ghost line: { Self → Code };

    /// The word and the next state of a byte.
    fn encode(&self, state: State, byte: u8) -> (u16, State)
        ensures { result ≡ (line self.now).encode state byte };

    /// The byte of a word, or none.
    fn decode(&self, word: u16) -> Option<u8>
        ensures { result ≡ (line self.now).decode word };

    /// The word of any state and byte has ten bits and gives that byte back, and what a word gives is a byte.
    ghost lawful: { (c : Self) → Lawful (line c) };
}

/// The byte that comes back when the word of a byte is decoded: always that byte.
pub fn round_trip<C: LineCode>(code: &C, state: State, byte: u8) -> Option<u8>
    ensures { result ≡ Some byte }
{
    let (word, _next) = code.encode(state, byte);
    code.decode(word)
}
