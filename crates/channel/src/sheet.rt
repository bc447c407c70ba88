ghost use Rattle.std.specs.Prelude.{◌≡◌, length};
ghost use Rattle.channel.specs.Codes.{Narrow, Apart, Inverse, sheet_line};
ghost use Rattle.channel.specs.Laws.{sheet-lawful};

use crate::line::LineCode;
use crate::state::State;

mod checking;

pub use checking::{check, sheets_stand};

/// How many numbers a sheet has: two for each byte.
pub const NUMBERS: usize = 512;

/// How many channel words there are.
pub const WORDS: usize = 1024;

/// A sheet as it is handed in: numbers of whatever size and count. It is no line code.
#[derive(Clone, Copy)]
pub struct RawSheet<'a> {
    pub numbers: &'a [u32],
}

/// A sheet that was checked: a good one, so it serves as a line code. It holds its numbers, number 2b + s for byte b
/// and state s, and for each word the byte that the numbers give.
#[derive(Drop)]
pub struct CheckedSheet {
    numbers: [u16; NUMBERS],
    bytes: [Option<u8>; WORDS],
    ghost size: { length numbers ≡ 512 },
    ghost narrow: { Narrow numbers },
    ghost apart: { Apart numbers },
    ghost inverse: { Inverse bytes numbers },
}

impl LineCode for CheckedSheet {
    ghost line = { λ c. sheet_line c.numbers };

    ghost lawful = { λ c. sheet-lawful c.numbers c.size c.apart };

    /// The word and the next state that the sheet has for the byte.
    fn encode(&self, state: State, byte: u8) -> (u16, State) {
        let number = self.numbers[2 * byte as usize + state.number() as usize];
        let next = if number < 1024 {
            State::Zero
        } else {
            State::One
        };
        (number % 1024, next)
    }

    /// The byte whose word this is, or none.
    fn decode(&self, word: u16) -> Option<u8> {
        if (word as usize) < WORDS {
            self.bytes[word as usize]
        } else {
            None
        }
    }
}
