use std::alloc::{AllocError, Global};
use std::fmt;

/// What lent memory holds after a call.
#[derive(Clone, Copy)]
pub(crate) enum Memory {
    /// Zeros.
    Zero,
    /// What it was filled with before the call.
    Kept,
    /// Something else.
    Changed,
}

/// What a bench or a group buffer is filled with before a call.
pub(crate) const BYTE: u8 = 165;

/// What a track buffer is filled with before a call.
const WORD: u16 = 677;

impl Memory {
    /// What elements hold that were filled with this one.
    fn of<T: Copy + PartialEq + Default>(elements: &[T], filler: T) -> Memory {
        let zero = T::default();
        if elements.iter().all(|element| *element == zero) {
            Memory::Zero
        } else if elements.iter().all(|element| *element == filler) {
            Memory::Kept
        } else {
            Memory::Changed
        }
    }

    /// What a group buffer holds.
    pub(crate) fn of_group(group: &[u8]) -> Memory {
        Memory::of(group, BYTE)
    }
}

impl fmt::Display for Memory {
    fn fmt<W: fmt::Write>(&self, f: &mut fmt::Formatter<W>) -> fmt::Result {
        f.write_str(match self {
            Memory::Zero => "zero",
            Memory::Kept => "kept",
            Memory::Changed => "CHANGED",
        })
    }
}

/// The memory beside the group buffer that calls are lent.
#[derive(Drop)]
pub(crate) struct Workspace {
    pub(crate) bench: Vec<u8>,
    pub(crate) track: Vec<u16>,
}

impl Workspace {
    /// A bench of so many bytes and a track buffer of so many words, both filled.
    pub(crate) fn new(heap: Global, bench: usize, track: usize) -> Result<Workspace, AllocError> {
        Ok(Workspace {
            bench: vec![in heap; BYTE; bench]?,
            track: vec![in heap; WORD; track]?,
        })
    }

    /// Fills both again.
    pub(crate) fn fill(&mut self) {
        self.bench.as_mut_slice().fill(BYTE);
        self.track.as_mut_slice().fill(WORD);
    }

    /// What the bench holds.
    pub(crate) fn bench_holds(&self) -> Memory {
        Memory::of(self.bench.as_slice(), BYTE)
    }

    /// What the track buffer holds.
    pub(crate) fn track_holds(&self) -> Memory {
        Memory::of(self.track.as_slice(), WORD)
    }
}
