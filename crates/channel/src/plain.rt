ghost use Rattle.channel.specs.Codes.{plain_line};
ghost use Rattle.std.proofs.Common.{rules};

use crate::line::LineCode;
use crate::state::State;

/// The plain code: the word is the byte.
#[derive(Clone, Copy, PartialEq, Eq, Debug)]
pub struct Plain;

impl LineCode for Plain {
    ghost line = { λ _. plain_line };

    ghost lawful = { λ _. record { words = Prim.search rules; bytes = Prim.search rules; law = Prim.search rules } };

    /// The byte itself, and state 1.
    fn encode(&self, state: State, byte: u8) -> (u16, State) {
        (byte as u16, State::One)
    }

    /// The word itself, or none above 255.
    fn decode(&self, word: u16) -> Option<u8> {
        if word < 256 { Some(word as u8) } else { None }
    }
}
