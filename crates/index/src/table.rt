ghost use Rattle.std.specs.Prelude.{◌≡◌, ℕ, ◌+◌, ◌<◌, ◌≤◌, ◌↔◌, length, IsTrue, EachIndex, slice_index};
ghost use Rattle.index.specs.Bytes.{number};
ghost use Rattle.index.specs.Counted.{table_in, table_checked, totals_checked};

use crate::fault::IndexFault;
use crate::tally::{Counts, Tally};

/// The table of a group.
#[derive(Clone, Copy)]
pub struct Table {
    /// The group's number.
    pub number: u16,
    /// The number of entries, the skip included.
    pub entries: u16,
    /// The numbers of items and marks since group 1.
    pub counts: Counts,
    /// 1 in the last group of a recording, else 0.
    // A number: any byte may stand here, and one above 1 is a fault.
    pub last: u8,
    /// Whether the table ends in 15 zeros.
    pub zeros: bool,
}

/// The number of two bytes, the higher first.
pub fn u16_at(group: &[u8], at: usize) -> u16
    requires { at + 1 < length group.now }
    ensures { result ≡ number 2 at group.now }
{
    u16::from_be_bytes([group[at], group[at + 1]])
}

/// The number of four bytes, the highest first.
fn u32_at(group: &[u8], at: usize) -> u32
    requires { at + 3 < length group.now }
    ensures { result ≡ number 4 at group.now }
{
    u32::from_be_bytes([group[at], group[at + 1], group[at + 2], group[at + 3]])
}

/// Whether all bytes are 0.
fn are_zeros(bytes: &[u8]) -> bool
    ensures { IsTrue result ↔ EachIndex bytes.now (λ k. slice_index bytes.now k ≡ 0) }
{
    bytes.iter().all(|byte| *byte == 0)
}

impl Table {
    /// The table of a group.
    pub fn read(group: &[u8]) -> Table
        requires { length group.now ≡ 126632 }
        ensures { result ≡ table_in group.now }
    {
        let counts = Counts {
            items: u32_at(group, 126604),
            ones: u32_at(group, 126608),
            twos: u32_at(group, 126612),
        };
        Table {
            number: u16_at(group, 126600),
            entries: u16_at(group, 126602),
            counts,
            last: group[126616],
            zeros: are_zeros(&group[126617..126632]),
        }
    }

    /// The table's own faults, in their order.
    pub fn check(self, number: u32) -> Result<(), IndexFault>
        ensures { result ≡ table_checked number self }
    {
        if self.number as u32 != number {
            return Err(IndexFault::GroupNumber);
        }
        if self.entries == 0 || self.entries > 31650 {
            return Err(IndexFault::EntryCount);
        }
        if self.last > 1 {
            return Err(IndexFault::LastByte);
        }
        if self.zeros {
            Ok(())
        } else {
            Err(IndexFault::TableZeros)
        }
    }

    /// The table's totals against those of the entries, and then an open record.
    pub fn settle(self, tally: Tally) -> Result<Tally, IndexFault>
        ensures { result ≡ totals_checked self tally }
    {
        if self.counts != tally.counts {
            return Err(IndexFault::Totals);
        }
        if self.last == 1 && !tally.state.is_idle() {
            return Err(IndexFault::OpenRecord);
        }
        Ok(tally)
    }
}
