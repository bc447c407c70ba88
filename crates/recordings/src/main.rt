//! A table of recordings. Each line of the standard input with a colon is one: a title, then words on its making (`tracks`,
//! `group`, `tap`, `start`), on what is lent from then on (`lent` tracks, `bench`, `buffer`), and its calls (`record`, `mark`,
//! `warn`). Below it stand the answers, the closed recording, and the outline of each group read back from the tape. `apart`
//! asks for single calls, as words on lending do, and `hex` for the last 40 bytes of each group.
#![tactic(auto)]

mod carrying;
mod memory;
mod outline;
mod pattern;
mod plan;
mod show;

use crate::memory::{BYTE, Workspace};
use crate::plan::Plan;
use images::word_image::{STRIDE, WordImage};
use layout::sizes::BENCH;
use std::alloc::Global;
use std::io;
use tape::traits::WORDS;
use tape::window::Window;

/// The most tracks of a tape here.
const MOST_TRACKS: usize = 10_000;

/// Makes the recording of a plan on a new tape with new memory.
fn run_plan(rt: &impl Print, heap: Global, bytes: &[u8], plan: &mut Plan) -> io::Result<()> {
    let mut memory = vec![in heap; 0u16; plan.tracks.min(MOST_TRACKS) * STRIDE]?;
    let mut group = vec![in heap; BYTE; plan.group]?;
    let mut workspace = Workspace::new(heap, BENCH, WORDS)?;
    let mut tape = Window {
        below: WordImage {
            memory: memory.as_mut_slice(),
        },
        first: 0,
        count: plan.tracks,
    };
    carrying::run(
        rt,
        heap,
        &mut tape,
        bytes,
        plan,
        group.as_mut_slice(),
        &mut workspace,
    )
}

/// Prints a line; where it is a recording, makes it and prints what came of it.
fn run_line(rt: &impl Print, heap: Global, bytes: &[u8], line: &str) -> io::Result<()> {
    println!(rt; "{line}")?;
    if let Some((_, words)) = line.split_once(": ") {
        let mut plan = Plan::read(heap, words)?;
        return run_plan(rt, heap, bytes, &mut plan);
    }
    Ok(())
}

/// Goes through the lines of the standard input.
fn run_lines(
    rt: &(impl Input + Print + AllocGlobal),
    heap: Global,
    bytes: &[u8],
) -> io::Result<()> {
    for line in rt.lines(heap) {
        run_line(rt, heap, bytes, line?.as_str())?;
    }
    Ok(())
}

fn main(rt: HostRuntime) -> io::Result<()> {
    let heap = rt.alloc();
    let mut bytes = vec![in heap; 0u8; pattern::LENGTH]?;
    pattern::fill(bytes.as_mut_slice());
    run_lines(&rt, heap, bytes.as_slice())
}
