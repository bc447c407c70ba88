ghost use Rattle.std.specs.Prelude.{◌≡◌, ℕ, length, slice_index};
ghost use Rattle.index.specs.Cursors.{cursor_of, remaining, Sound};
ghost use Rattle.index.specs.Counted.{tallied, group_tallied, opened, numbers_of, Starts};
ghost use Rattle.index.specs.Bytes.{read_group};
ghost use Rattle.index.specs.Walk.{Between, walk_group};
ghost use Rattle.index.specs.Answers.{standing, state_counts, answered, standing_after, Gave};
ghost use Rattle.index.specs.declared.succession.State.TheVariants.{Idle};

use crate::fault::{GroupFault, IndexFault};
use crate::reader::{GROUP_BYTES, IndexReader, TABLE};
use crate::succession::State;
use crate::table::Table;
use crate::tally::{Counts, Tally};
use crate::walk::{Ending, Walk};

/// The place of the table's last byte.
const LAST_BYTE: usize = 126616;

/// Walks the entries that a reader has left, from a group's opening on.
// The reader's soundness is no part of its type, as a reader may be made over any bytes. No `for`: each turn asks the reader
// what is left.
fn walk_entries(
    mut reader: IndexReader,
    limit: usize,
    mut tally: Tally,
) -> Result<Tally, IndexFault>
    requires sound { Sound (cursor_of reader) }
    requires starts { Starts tally reader.place }
    ensures { result ≡ tallied limit 1 tally (remaining (cursor_of reader.entry)) }
{
    let mut number: u16 = 1;
    while let Some(entry) = reader.next() {
        if reader.left() == 0 {
            tally.close(limit, number, entry)?;
            return Ok(tally);
        }
        tally.step(limit, number, entry)?;
        number += 1;
    }
    Err(IndexFault::EntryCount)
}

/// Walks a group of 126,632 bytes that should have this number, from the state and the numbers before it.
fn walk_group(
    group: &[u8; GROUP_BYTES],
    number: u32,
    state: State,
    counts: Counts,
) -> Result<Tally, IndexFault>
    requires { Starts (opened state counts) 0 }
    ensures { result ≡ group_tallied number state counts group.now }
{
    let table = Table::read(group);
    table.check(number)?;
    let reader = IndexReader::over(group, table.entries);
    let limit = TABLE - 4 * table.entries as usize;
    let tally = walk_entries(
        reader,
        limit,
        Tally {
            state,
            used: 0,
            counts,
        },
    )?;
    table.settle(tally)
}

impl Walk {
    /// A walk before group 1.
    pub fn new() -> Walk
        ensures { standing result ≡ (1, Idle, record { items = 0; ones = 0; twos = 0 }) }
    {
        Walk {
            number: 1,
            state: State::Idle,
            counts: Counts {
                items: 0,
                ones: 0,
                twos: 0,
            },
        }
    }

    /// The number of the next group.
    pub fn number(&self) -> u32
        ensures { result ≡ (standing self.now).0 }
    {
        self.number
    }

    /// The position in the succession of entries.
    pub fn state(&self) -> State
        ensures { result ≡ (standing self.now).1 }
    {
        self.state
    }

    /// The numbers of items and marks so far.
    pub fn counts(&self) -> Counts
        ensures { result ≡ (standing self.now).2 }
    {
        self.counts
    }

    /// Walks the next group, and says whether it was the last. A fault leaves the walk as it was.
    pub fn group(&mut self, group: &[u8]) -> Result<Ending, GroupFault>
        ensures answer { result ≡ answered self.old group.now }
        ensures after { standing self.new ≡ standing_after self.old group.now }
        ensures walked { (b : Between) → numbers_of b ≡ state_counts (standing self.old) → length group.now ≡ 126632 → Gave (slice_index group.now 126616) result (state_counts (standing self.new)) (walk_group (standing self.old).0 b (read_group group.now)) }
    {
        if group.len() != GROUP_BYTES {
            return Err(GroupFault::WrongLength);
        }
        let group = group.as_array().unwrap();
        let tally = walk_group(group, self.number, self.state, self.counts)?;
        let last = group[LAST_BYTE];
        *self = Walk {
            number: self.number + 1,
            state: tally.state,
            counts: tally.counts,
        };
        Ok(if last == 1 {
            Ending::Last
        } else {
            Ending::GoesOn
        })
    }
}
