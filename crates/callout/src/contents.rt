use crate::buffers::Buffers;
use channel::line::LineCode;
use index::entry::{Content, IndexEntry, Part};
use index::reader::IndexReader;
use layout::settings::Settings;
use losses::fault::ReadFault;
use losses::sheet::LossSheet;
use reading::group::read_group;
use std::io;
use tape::traits::Playable;

/// What a part of a record says, as far as it is short and a text.
fn print_part(rt: &impl Print, part: Part) -> io::Result<()> {
    let place = part.place;
    print!(rt; " at place {place}")?;
    if part.bytes.len() > 60 {
        return Ok(());
    }
    match std::str::from_utf8(part.bytes) {
        Ok(text) => print!(rt; ": {text}"),
        Err(_) => Ok(()),
    }
}

/// The name of an entry's kind.
fn name_of(content: Content) -> &'static str {
    match content {
        Content::Total => "total",
        Content::Mark => "mark",
        Content::Middle(_) => "middle part",
        Content::Start(_) => "start part",
        Content::Last(_) => "last part",
        Content::Entire(_) => "entire record",
        Content::Skip => "skip",
        Content::Unknown => "unknown",
    }
}

/// Prints an entry of an index.
fn print_entry(rt: &impl Print, number: usize, entry: IndexEntry) -> io::Result<()> {
    let name = name_of(entry.content);
    let count = entry.count;
    let warned = if entry.warned == 1 { ", warned" } else { "" };
    print!(rt; "    {number}: {name}, count {count}{warned}")?;
    if let Some(part) = entry.content.part() {
        print_part(rt, part)?;
    }
    println!(rt; "")
}

/// Prints the index of a group.
fn print_index(rt: &impl Print, group: &[u8]) -> io::Result<()> {
    if let Some(reader) = IndexReader::new(group) {
        for (passed, entry) in reader.enumerate() {
            print_entry(rt, passed.saturating_add(1), entry)?;
        }
    }
    Ok(())
}

/// Prints what was read of a group.
fn print_group(
    rt: &impl Print,
    number: u16,
    answer: Result<(), ReadFault>,
    group: &[u8],
) -> io::Result<()> {
    match answer {
        Ok(()) => {
            println!(rt; "  group {number}")?;
            print_index(rt, group)
        }
        Err(fault) => {
            let decline = fault.number();
            println!(rt; "  group {number}: declined with {decline}")
        }
    }
}

/// Reads the groups of a recording, and prints the index of each.
pub(crate) fn print_groups<T: Playable, C: LineCode>(
    rt: &impl Print,
    tape: &T,
    code: &C,
    settings: Settings,
    groups: u16,
    buffers: &mut Buffers,
) -> io::Result<()> {
    println!(rt; "Index")?;
    for number in 1..=groups {
        let mut sheet = LossSheet::new();
        let answer = read_group(
            tape,
            code,
            settings,
            number,
            buffers.bench.as_mut_slice(),
            buffers.track.as_mut_slice(),
            buffers.group.as_mut_slice(),
            &mut sheet,
        );
        print_group(rt, number, answer, buffers.group.as_slice())?;
    }
    Ok(())
}
