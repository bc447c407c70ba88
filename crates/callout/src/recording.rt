use crate::buffers::Buffers;
use crate::callout::{Callout, Order};
use crate::contents;
use calls::fault::Decline;
use channel::line::LineCode;
use layout::settings::Settings;
use recorder::closed::ClosedRecording;
use recorder::list::whole::record_all;
use recorder::list::{Asked, Call};
use std::alloc::{AllocError, Global};
use std::io;
use tape::traits::Recordable;

/// The calls of a callout.
fn calls_of(heap: Global, callout: &Callout) -> Result<Vec<Asked<'_>>, AllocError> {
    let mut calls = Vec::with_capacity(heap, callout.orders.len())?;
    let mut rest = callout.bytes.as_slice();
    for order in callout.orders.iter() {
        let call = match *order {
            Order::Record(count) => {
                let (bytes, after) = rest.split_at(count.min(rest.len()));
                rest = after;
                Call::Record(bytes)
            }
            Order::Mark(kind) => Call::Mark(kind),
            Order::Warn => Call::Warn,
        };
        calls.push(Asked {
            call,
            answer: Ok(()),
        })?;
    }
    Ok(calls)
}

/// Prints, behind what was asked, whether it was declined.
fn print_answer(rt: &impl Print, decline: Option<Decline>) -> io::Result<()> {
    match decline {
        None => println!(rt; ": carried out"),
        Some(decline) => {
            let number = decline.number();
            println!(rt; ": declined with {number}, {decline:?}")
        }
    }
}

/// Prints a call and its answer.
fn print_asked(rt: &impl Print, asked: &Asked) -> io::Result<()> {
    match asked.call {
        Call::Record(bytes) => {
            let size = bytes.len();
            print!(rt; "  record of {size} bytes")?;
        }
        Call::Mark(kind) => print!(rt; "  mark of kind {kind}")?,
        Call::Warn => print!(rt; "  warning")?,
    }
    print_answer(rt, asked.answer.err())
}

/// Prints which lines were not understood.
fn print_unclear(rt: &impl Print, lines: &[usize]) -> io::Result<()> {
    for line in lines.iter() {
        println!(rt; "  line {line}: not understood, left out")?;
    }
    Ok(())
}

/// Prints the counts of a closed recording.
fn print_closed(rt: &impl Print, closed: ClosedRecording) -> io::Result<()> {
    let groups = closed.groups;
    let items = closed.items;
    print!(rt; "  closing, with {groups} groups stored and {items} items")?;
    print_answer(rt, closed.decline)
}

/// Records a callout on a tape, and prints the answers, the counts, and the index of each group.
pub(crate) fn record<T: Recordable, C: LineCode>(
    rt: &impl Print,
    heap: Global,
    tape: &mut T,
    code: &C,
    settings: Settings,
    callout: &Callout,
) -> io::Result<()> {
    let mut buffers = Buffers::new(heap)?;
    let mut calls = calls_of(heap, callout)?;
    let closed = record_all(
        tape,
        code,
        settings,
        calls.as_mut_slice(),
        buffers.group.as_mut_slice(),
        buffers.bench.as_mut_slice(),
        buffers.track.as_mut_slice(),
    );
    println!(rt; "Recording")?;
    print_unclear(rt, callout.unclear.as_slice())?;
    for asked in calls.iter() {
        print_asked(rt, asked)?;
    }
    print_closed(rt, closed)?;
    contents::print_groups(rt, tape, code, settings, closed.groups, &mut buffers)
}
