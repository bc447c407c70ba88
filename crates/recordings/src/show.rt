use crate::memory::{Memory, Workspace};
use crate::plan::Step;
use calls::fault::Decline;
use recorder::closed::ClosedRecording;
use recorder::list::Asked;
use std::io;

/// The number of an answer, 0 where the call was carried out.
pub(crate) fn number_of(decline: Option<Decline>) -> u8 {
    decline.map_or(0, |decline| decline.number())
}

/// Prints the answer of the check for making where it is declined, or that words were not understood.
pub(crate) fn print_check(
    rt: &impl Print,
    checked: Result<(), Decline>,
    unclear: usize,
) -> io::Result<()> {
    if unclear != 0 {
        return println!(rt; "  {unclear} words NOT UNDERSTOOD");
    }
    match checked {
        Ok(()) => Ok(()),
        Err(decline) => {
            let number = decline.number();
            println!(rt; "  check for making {number}")
        }
    }
}

/// Prints the answers of a list of calls.
pub(crate) fn print_list(rt: &impl Print, list: &[Asked]) -> io::Result<()> {
    print!(rt; "  answers")?;
    for asked in list {
        let answer = number_of(asked.answer.err());
        print!(rt; " {answer}")?;
    }
    println!(rt; "")
}

/// Prints what came of single calls.
pub(crate) fn print_steps(rt: &impl Print, steps: &[Step]) -> io::Result<()> {
    for step in steps {
        match step.seen {
            Some(seen) => println!(rt; "  {seen}")?,
            None => println!(rt; "  NOT CARRIED OUT")?,
        }
    }
    Ok(())
}

/// Prints what came of closing.
pub(crate) fn print_closed(rt: &impl Print, closed: ClosedRecording) -> io::Result<()> {
    let groups = closed.groups;
    let items = closed.items;
    let decline = number_of(closed.decline);
    print!(rt; "  closed {decline}, {groups} groups, {items} items")
}

/// Prints what the memory holds after closing.
pub(crate) fn print_memory(rt: &impl Print, workspace: &Workspace, group: &[u8]) -> io::Result<()> {
    let bench = workspace.bench_holds();
    let track = workspace.track_holds();
    let group = Memory::of_group(group);
    println!(rt; "; bench {bench}, track buffer {track}, group buffer {group}")
}
