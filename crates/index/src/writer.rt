ghost use Rattle.std.specs.Prelude.{◌≡◌, ℕ, ◌+◌, ◌-◌, ◌*◌, ◌<◌, ◌≤◌, List, [], ◌∷◌, ◌++◌, length, if◌then◌else◌, is_ok, OnOk, nat_le};
ghost use Rattle.index.specs.Entries.{Entry};
ghost use Rattle.index.specs.Bytes.{zeros, two, four, entry_bytes, group_of};
ghost use Rattle.index.specs.Writing.{replaced, Filled, laying, entry_laid, completed, table_of, group_with, open_group};

use crate::fault::LayFault;
use crate::kind::Kind;
use crate::reader::{GROUP_BYTES, TABLE};
use crate::table::Table;
use crate::tally::Counts;

/// How full an open group is: its entries and its user bytes.
// It stands beside the group and not with it in a vector: the memory of a group is lent, of one size, and nothing is allocated.
#[derive(Clone, Copy)]
pub struct Fill {
    pub entries: u16,
    pub used: usize,
}

/// Copies bytes into a group from a place on.
fn put_bytes(group: &mut [u8], at: usize, bytes: &[u8])
    requires { at + length bytes.now ≤ length group.old }
    ensures { group.new ≡ replaced group.old at bytes.now }
{
    group[at..at + bytes.len()].copy_from_slice(bytes);
}

/// Writes a number of two bytes, the higher first.
fn put_u16(group: &mut [u8], at: usize, number: u16)
    requires { at + 2 ≤ length group.old }
    ensures { group.new ≡ replaced group.old at (two number) }
{
    put_bytes(group, at, &number.to_be_bytes());
}

/// Writes a number of four bytes, the highest first.
fn put_u32(group: &mut [u8], at: usize, number: u32)
    requires { at + 4 ≤ length group.old }
    ensures { group.new ≡ replaced group.old at (four number) }
{
    put_bytes(group, at, &number.to_be_bytes());
}

/// Writes the four bytes of an entry.
fn put_entry(group: &mut [u8], at: usize, kind: Kind, warned: u8, count: u32)
    requires { (at + 4 ≤ length group.old) × (warned < 2) }
    ensures { group.new ≡ replaced group.old at (entry_bytes (record { kind = kind; count = count; warned = warned; bytes = [] })) }
{
    let [_, high, middle, low] = count.to_be_bytes();
    put_bytes(group, at, &[kind.flag() + 8 * warned, high, middle, low]);
}

/// Writes 15 zeros at the end of a group.
fn put_zeros(group: &mut [u8])
    requires { length group.old ≡ 126632 }
    ensures { group.new ≡ replaced group.old 126617 (zeros 15) }
{
    put_bytes(group, 126617, &[0; 15]);
}

/// Writes a group's table.
fn put_table(group: &mut [u8], table: Table)
    requires { length group.old ≡ 126632 }
    ensures { group.new ≡ replaced group.old 126600 (table_of table) }
{
    put_u16(group, 126600, table.number);
    put_u16(group, 126602, table.entries);
    put_u32(group, 126604, table.counts.items);
    put_u32(group, 126608, table.counts.ones);
    put_u32(group, 126612, table.counts.twos);
    put_bytes(group, 126616, &[table.last]);
    put_zeros(group);
}

/// Whether an entry with so many user bytes fits into an open group, with room for its own four bytes.
fn has_room(fill: Fill, bytes: usize) -> bool
    ensures { result ≡ nat_le (fill.used + bytes + 4 * (fill.entries + 1)) 126600 }
{
    if fill.used > TABLE || bytes > TABLE {
        return false;
    }
    fill.used + bytes + 4 * (fill.entries as usize + 1) <= TABLE
}

/// Tests whether an entry with so many user bytes can be laid into an open group.
fn check_room(group: &[u8], fill: Fill, bytes: usize, warned: u8) -> Result<(), LayFault>
    ensures { result ≡ laying group.now fill bytes warned }
{
    if group.len() != GROUP_BYTES {
        return Err(LayFault::GroupLength);
    }
    if warned > 1 {
        return Err(LayFault::Warning);
    }
    if !has_room(fill, bytes) {
        return Err(LayFault::NoRoom);
    }
    Ok(())
}

/// Lays an entry with its user bytes into an open group, or leaves the group as it was.
pub fn lay_entry(
    group: &mut [u8],
    fill: Fill,
    kind: Kind,
    warned: u8,
    count: u32,
    bytes: &[u8],
) -> Result<(), LayFault>
    ensures answer { result ≡ laying group.old fill (length bytes.now) warned }
    ensures held { group.new ≡ (if is_ok result then entry_laid group.old fill (record { kind = kind; count = count; warned = warned; bytes = bytes.now }) else group.old) }
    ensures laid { (ps : List Entry) → Filled group.old fill ps → OnOk result (group.new ≡ open_group (ps ++ (record { kind = kind; count = count; warned = warned; bytes = bytes.now } ∷ []))) }
{
    check_room(group, fill, bytes.len(), warned)?;
    put_bytes(group, fill.used, bytes);
    put_entry(
        group,
        TABLE - 4 * (fill.entries as usize + 1),
        kind,
        warned,
        count,
    );
    Ok(())
}

/// Completes an open group with its skip and its table, or leaves the group as it was.
pub fn complete_group(
    group: &mut [u8],
    fill: Fill,
    warned: u8,
    number: u16,
    counts: Counts,
    last: u8,
) -> Result<(), LayFault>
    ensures answer { result ≡ laying group.old fill 0 warned }
    ensures held { group.new ≡ (if is_ok result then completed group.old fill warned number counts last else group.old) }
    ensures laid { (ps : List Entry) → Filled group.old fill ps → OnOk result (group.new ≡ group_of (group_with ps warned number counts last)) }
{
    check_room(group, fill, 0, warned)?;
    let count = (GROUP_BYTES - fill.used) as u32;
    lay_entry(group, fill, Kind::Skip, warned, count, &[])?;
    let entries = fill.entries + 1;
    put_table(
        group,
        Table {
            number,
            entries,
            counts,
            last,
            zeros: true,
        },
    );
    Ok(())
}
