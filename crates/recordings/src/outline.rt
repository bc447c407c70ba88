use crate::memory::Workspace;
use crate::pattern::{byte_after, goes_on};
use crate::plan::Plan;
use channel::plain::Plain;
use index::entry::{Content, IndexEntry};
use index::reader::{IndexReader, TABLE};
use losses::fault::ReadFault;
use losses::sheet::LossSheet;
use reading::group::read_group;
use std::io;
use tape::traits::Playable;

/// The groups of a recording whose outlines are all printed; of a longer one, the first and the last two.
const FEW: u16 = 6;

/// What is known of the records from group to group.
#[derive(Clone, Copy)]
pub(crate) struct Trail {
    /// The first byte of the record that is being read.
    first: u8,
    /// The byte that its next part has to begin with.
    next: u8,
    /// Whether every byte was the pattern's.
    sound: bool,
}

impl Trail {
    /// What is known before the first group.
    fn new() -> Trail {
        Trail {
            first: 0,
            next: 0,
            sound: true,
        }
    }

    /// Goes on with a part of a record.
    fn pass(&mut self, bytes: &[u8]) {
        if !goes_on(bytes, self.next) {
            self.sound = false;
        }
        self.next = byte_after(self.next, bytes.len());
    }

    /// Begins a record of which the first byte is known.
    fn begin(&mut self, first: u8) {
        self.first = first;
        self.next = first;
    }

    /// Goes on with an entry. A record begins with the low byte of its length.
    fn follow(&mut self, entry: IndexEntry) {
        let low = (entry.count % 256) as u8;
        match entry.content {
            Content::Entire(part) => {
                self.begin(low);
                self.pass(part.bytes);
            }
            Content::Start(part) => {
                self.begin(part.bytes.first().copied().unwrap_or(0));
                self.pass(part.bytes);
            }
            Content::Middle(part) | Content::Last(part) => self.pass(part.bytes),
            Content::Total => {
                if low != self.first {
                    self.sound = false;
                }
            }
            _ => {}
        }
    }
}

/// The letter of an entry's kind.
fn letter_of(content: Content) -> &'static str {
    match content {
        Content::Total => "T",
        Content::Mark => "K",
        Content::Middle(_) => "M",
        Content::Start(_) => "F",
        Content::Last(_) => "L",
        Content::Entire(_) => "E",
        Content::Skip => "S",
        Content::Unknown => "?",
    }
}

/// Prints an entry of an index.
fn print_entry(rt: &impl Print, entry: IndexEntry) -> io::Result<()> {
    let letter = letter_of(entry.content);
    let count = entry.count;
    let warned = if entry.warned == 1 { "!" } else { "" };
    print!(rt; " {letter}{count}{warned}")
}

/// Prints the entries of an index, and goes on with each.
fn print_index(rt: &impl Print, trail: &mut Trail, reader: IndexReader) -> io::Result<()> {
    for entry in reader {
        trail.follow(entry);
        print_entry(rt, entry)?;
    }
    Ok(())
}

/// Goes on with the entries of a group's index.
fn pass_index(trail: &mut Trail, reader: IndexReader) {
    for entry in reader {
        trail.follow(entry);
    }
}

/// The number that bytes are, the highest first.
fn number_in(bytes: &[u8]) -> u64 {
    bytes.iter().fold(0u64, |number, byte| {
        number.wrapping_mul(256).wrapping_add(*byte as u64)
    })
}

/// Prints the numbers of a table: group and entries, the totals, and the last byte.
fn print_table(rt: &impl Print, table: &[u8]) -> io::Result<()> {
    if table.len() < 32 {
        return println!(rt; "");
    }
    let number = number_in(&table[0..2]);
    let entries = number_in(&table[2..4]);
    let items = number_in(&table[4..8]);
    let ones = number_in(&table[8..12]);
    let twos = number_in(&table[12..16]);
    let last = table[16];
    println!(rt;
        "; group {number}, entries {entries}, items {items}, marks {ones} and {twos}, last {last}"
    )
}

/// Prints bytes in hex.
fn print_hex(rt: &impl Print, bytes: &[u8]) -> io::Result<()> {
    print!(rt; "   ")?;
    for byte in bytes {
        print!(rt; " {byte:02X}")?;
    }
    println!(rt; "")
}

/// Prints the outline of a group.
fn print_outline(
    rt: &impl Print,
    number: u16,
    trail: &mut Trail,
    hex: bool,
    group: &[u8],
) -> io::Result<()> {
    print!(rt; "  {number}:")?;
    if let Some(reader) = IndexReader::new(group) {
        print_index(rt, trail, reader)?;
    }
    if let Some(table) = group.get(TABLE..) {
        print_table(rt, table)?;
    }
    match group.get(TABLE - 8..) {
        Some(end) if hex => print_hex(rt, end),
        _ => Ok(()),
    }
}

/// Prints the outline of a group where it was read and is not left out.
fn print_group(
    rt: &impl Print,
    number: u16,
    groups: u16,
    answer: Result<(), ReadFault>,
    trail: &mut Trail,
    hex: bool,
    group: &[u8],
) -> io::Result<()> {
    if let Err(fault) = answer {
        let decline = fault.number();
        return println!(rt; "  {number}: NOT READ, {decline}");
    }
    if groups > FEW && number > 1 && number < groups - 1 {
        if let Some(reader) = IndexReader::new(group) {
            pass_index(trail, reader);
        }
        return Ok(());
    }
    print_outline(rt, number, trail, hex, group)
}

/// Reads the groups of a recording, prints the outline of each, and then what is said of the whole tape.
pub(crate) fn print_groups<T: Playable>(
    rt: &impl Print,
    tape: &T,
    plan: &Plan,
    groups: u16,
    group: &mut [u8],
    workspace: &mut Workspace,
) -> io::Result<()> {
    let mut trail = Trail::new();
    for number in 1..=groups {
        let mut sheet = LossSheet::new();
        let answer = read_group(
            tape,
            &Plain,
            plan.settings,
            number,
            workspace.bench.as_mut_slice(),
            workspace.track.as_mut_slice(),
            group,
            &mut sheet,
        );
        print_group(rt, number, groups, answer, &mut trail, plan.hex, group)?;
    }
    let written = count_written(tape, workspace.track.as_mut_slice());
    print_tape(rt, written, trail.sound)
}

/// How many tracks of a tape are written.
fn count_written<T: Playable>(tape: &T, buffer: &mut [u16]) -> usize {
    (0..tape.length())
        .filter(|track| tape.fetch(*track, buffer).is_ok())
        .count()
}

/// Prints how many tracks are written, and whether the bytes are those of the records.
fn print_tape(rt: &impl Print, written: usize, sound: bool) -> io::Result<()> {
    let bytes = if sound { "ok" } else { "WRONG" };
    println!(rt; "  {written} tracks written, bytes {bytes}")
}
