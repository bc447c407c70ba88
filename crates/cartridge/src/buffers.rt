use layout::sizes::{BENCH, GROUP};
use std::alloc::{AllocError, Global};
use tape::traits::WORDS;

/// The memory that the calls are lent: for a group, for a bench, and for a track.
/// Programs share no crate, so each has its own.
#[derive(Drop)]
pub(crate) struct Buffers {
    pub(crate) group: Vec<u8>,
    pub(crate) bench: Vec<u8>,
    pub(crate) track: Vec<u16>,
}

impl Buffers {
    /// Zeros, as many as a call needs of each.
    pub(crate) fn new(heap: Global) -> Result<Buffers, AllocError> {
        Ok(Buffers {
            group: vec![in heap; 0u8; GROUP]?,
            bench: vec![in heap; 0u8; BENCH]?,
            track: vec![in heap; 0u16; WORDS]?,
        })
    }
}
