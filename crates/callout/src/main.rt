//! Records a callout: one order a line on standard input, on a tape image in memory.
#![tactic(auto)]

mod buffers;
mod callout;
mod contents;
mod recording;

use crate::callout::Callout;
use channel::plain::Plain;
use images::packed_image::{PackedImage, STRIDE};
use layout::settings::Settings;
use std::alloc::Global;
use std::io;

/// The settings of the recording.
const SETTINGS: Settings = Settings {
    tap: 3,
    start: 12345,
};

/// The callout on standard input.
fn read_callout(rt: &(impl Input + AllocGlobal), heap: Global) -> io::Result<Callout> {
    let mut callout = Callout::new(heap);
    for (passed, line) in rt.lines(heap).enumerate() {
        callout.add(passed.saturating_add(1), line?.as_str())?;
    }
    Ok(callout)
}

fn run(rt: &HostRuntime) -> io::Result<()> {
    let heap = rt.alloc();
    let callout = read_callout(rt, heap)?;
    let mut memory = vec![in heap; 0u8; 92 * STRIDE]?;
    let mut tape = PackedImage {
        memory: memory.as_mut_slice(),
    };
    recording::record(rt, heap, &mut tape, &Plain, SETTINGS, &callout)
}

fn main(rt: HostRuntime) -> io::Result<()> {
    run(&rt)
}
