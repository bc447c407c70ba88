//! Published vectors, and tables of cases that are run and compared.
#![tactic(auto)]

mod groups;
mod lines;
mod noise;
mod tapes;
mod words;

use std::io;

fn main(rt: HostRuntime) -> io::Result<()> {
    words::run(&rt, rt.alloc())?;
    lines::run(&rt)?;
    tapes::run(&rt)?;
    groups::run(&rt)
}
