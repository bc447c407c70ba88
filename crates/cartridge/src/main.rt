//! One group on a tape image: it is written, worn, read back, and then given a track of another group.
#![tactic(auto)]

mod buffers;
mod group;
mod sheets;
mod show;
mod wear;

use crate::buffers::Buffers;
use channel::sheet::CheckedSheet;
use images::packed_image::{PackedImage, STRIDE};
use std::io;

fn run(rt: &HostRuntime) -> io::Result<()> {
    let heap = rt.alloc();
    let mut sheet = CheckedSheet::new();
    sheets::check_them(rt, &mut sheet)?;
    let mut memory = vec![in heap; 0u8; 92 * STRIDE]?;
    let mut buffers = Buffers::new(heap)?;
    let mut tape = PackedImage {
        memory: memory.as_mut_slice(),
    };
    group::tell(rt, &mut tape, &sheet, &mut buffers)
}

fn main(rt: HostRuntime) -> io::Result<()> {
    run(&rt)
}
