ghost use Rattle.std.specs.Prelude.{◌≡◌, ◌<◌, ◌≤◌, length, ◌↔◌, IsTrue, IsOk, OnOk, OnErr};
ghost use Rattle.reed_solomon.specs.Interleaves.{interleaved, Refilled, Unfilled, Reaches};
ghost use Rattle.reed_solomon.specs.Words.{Checks, Places, CodeFills};

use crate::fault::{FillFault, Unfillable};
use crate::interleaved::Interleaving;
use crate::{filling, syndromes};

/// Words up to this length, all those of the three codes, are gathered in less memory.
const SHORT: usize = 48;

/// A Reed-Solomon code: how many bytes its words have, and how many of them are check bytes.
#[derive(Clone, Copy, PartialEq, Eq, Debug)]
pub struct Code {
    pub length: usize,
    pub check_bytes: usize,
}

/// The inner code, along the blocks of a track.
pub const C1: Code = Code {
    length: 32,
    check_bytes: 4,
};

/// The outer code, across the blocks of a track.
pub const C2: Code = Code {
    length: 32,
    check_bytes: 6,
};

/// The code across the tracks of a group.
pub const C3: Code = Code {
    length: 46,
    check_bytes: 2,
};

impl Code {
    /// Whether this is a word of the code.
    pub fn holds(&self, word: &[u8]) -> bool
        ensures { IsTrue result ↔ ((length word.now ≡ self.now.length) × Checks self.now.check_bytes word.now) }
    {
        word.len() == self.length && syndromes::checks(word, self.check_bytes)
    }

    /// Gives the lost bytes the values that make this a word of the code. Where there are none,
    /// or the call cannot be taken, the word is left as it is.
    pub fn fill(&self, word: &mut [u8], lost: &[usize]) -> Result<(), FillFault>
        ensures { CodeFills self.now.length self.now.check_bytes lost.now word.old word.new result }
    {
        if word.len() != self.length {
            return Err(FillFault::WordLength);
        }
        filling::fill(word, lost, self.check_bytes)
    }

    /// Whether the word that lies interleaved in memory is one of the code.
    pub fn holds_interleaved(&self, memory: &[u8], at: Interleaving) -> bool
        requires reaches { Reaches (length memory.now) at.start at.stride self.now.length }
        requires length_bound { self.now.length ≤ 255 }
        ensures { IsTrue result ↔ Checks self.now.check_bytes (interleaved memory.now at.start at.stride self.now.length) }
    {
        if self.length <= SHORT {
            self.holds_gathered::<SHORT>(memory, at)
        } else {
            self.holds_gathered::<255>(memory, at)
        }
    }

    // That N is at most 255 is asked in each function over N: a const parameter has no invariant.

    /// Takes a word of up to `N` bytes out of the memory, and says whether it is one of the code.
    fn holds_gathered<const N: usize>(&self, memory: &[u8], at: Interleaving) -> bool
        requires reaches { Reaches (length memory.now) at.start at.stride self.now.length }
        requires length_bound { self.now.length ≤ N }
        requires memory { N ≤ 255 }
        ensures { IsTrue result ↔ Checks self.now.check_bytes (interleaved memory.now at.start at.stride self.now.length) }
    {
        let mut room = [0u8; N];
        let gathered = &mut room[..self.length];
        at.gather(memory, gathered);
        syndromes::checks(gathered, self.check_bytes)
    }

    /// Gives the lost bytes of the word that lies interleaved in memory the values that make it one
    /// of the code, or leaves the memory as it is where there are none. For as many lost bytes as
    /// check bytes there always are.
    pub fn fill_interleaved(
        &self,
        memory: &mut [u8],
        at: Interleaving,
        lost: &[usize],
    ) -> Result<(), Unfillable>
        requires reaches { Reaches (length memory.old) at.start at.stride self.now.length }
        requires stride_nonzero { 0 < at.stride }
        requires length_bound { self.now.length < 256 }
        requires places { Places self.now.length lost.now }
        requires lost_len_bound { length lost.now ≤ self.now.check_bytes }
        ensures ok { OnOk result (Refilled self.now.check_bytes lost.now memory.old memory.new at.start at.stride self.now.length) }
        ensures err { OnErr result (Unfilled self.now.check_bytes lost.now memory.old memory.new at.start at.stride self.now.length) }
        ensures always { length lost.now ≡ self.now.check_bytes → IsOk result }
    {
        if self.length <= SHORT {
            self.fill_gathered::<SHORT>(memory, at, lost)
        } else {
            self.fill_gathered::<255>(memory, at, lost)
        }
    }

    /// Takes a word of up to `N` bytes out of the memory, fills it, and puts it back.
    fn fill_gathered<const N: usize>(
        &self,
        memory: &mut [u8],
        at: Interleaving,
        lost: &[usize],
    ) -> Result<(), Unfillable>
        requires reaches { Reaches (length memory.old) at.start at.stride self.now.length }
        requires stride_nonzero { 0 < at.stride }
        requires length_bound { self.now.length ≤ N }
        requires memory { N ≤ 255 }
        requires places { Places self.now.length lost.now }
        requires lost_len_bound { length lost.now ≤ self.now.check_bytes }
        ensures ok { OnOk result (Refilled self.now.check_bytes lost.now memory.old memory.new at.start at.stride self.now.length) }
        ensures err { OnErr result (Unfilled self.now.check_bytes lost.now memory.old memory.new at.start at.stride self.now.length) }
        ensures always { length lost.now ≡ self.now.check_bytes → IsOk result }
    {
        let mut room = [0u8; N];
        let gathered = &mut room[..self.length];
        at.gather(memory, gathered);
        filling::fill_places(gathered, lost, self.check_bytes)?;
        at.scatter(memory, gathered);
        Ok(())
    }
}
