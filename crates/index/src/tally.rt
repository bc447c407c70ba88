ghost use Rattle.std.specs.Prelude.{◌≡◌, ◌≤◌, length};
ghost use Rattle.index.specs.Succession.{count_fits};
ghost use Rattle.index.specs.Contents.{meant, bytes_in};
ghost use Rattle.index.specs.Counted.{counted, capped, stepped, closed, outcome, Small};

use crate::entry::IndexEntry;
use crate::fault::IndexFault;
use crate::kind::Kind;
use crate::reader::GROUP_BYTES;
use crate::succession::State;

/// The numbers of items, of marks of kind 1 and of marks of kind 2 since group 1.
#[derive(Clone, Copy, PartialEq, Eq)]
pub struct Counts {
    pub items: u32,
    pub ones: u32,
    pub twos: u32,
}

/// A walk within a group: the position in the succession, the user bytes passed, and the numbers so far.
#[derive(Clone, Copy)]
pub struct Tally {
    pub state: State,
    pub used: usize,
    pub counts: Counts,
}

impl Counts {
    /// The numbers after an entry; a number that has reached the end of its type stays there.
    pub fn after(self, kind: Kind, count: u32) -> Counts
        ensures { result ≡ capped (counted self kind count) }
    {
        let Counts { items, ones, twos } = self;
        match (kind, count) {
            (Kind::Total | Kind::Entire, _) => Counts {
                items: items.saturating_add(1),
                ..self
            },
            (Kind::Mark, 0) => Counts {
                items: items.saturating_add(1),
                ones: ones.saturating_add(1),
                ..self
            },
            (Kind::Mark, 1) => Counts {
                items: items.saturating_add(1),
                twos: twos.saturating_add(1),
                ..self
            },
            (Kind::Mark, _) => Counts {
                items: items.saturating_add(1),
                ..self
            },
            _ => self,
        }
    }
}

/// Whether a count is right, with `used` user bytes before the entry, an index that begins at `limit`, and an open
/// record whose parts have this sum.
fn count_fits(kind: Kind, count: u32, limit: usize, used: usize, sum: u64) -> bool
    requires { used ≤ 126632 }
    ensures { result ≡ count_fits limit used sum count kind }
{
    match kind {
        Kind::Total => count as u64 == sum,
        Kind::Mark => count < 2,
        Kind::Middle | Kind::Start | Kind::Last | Kind::Entire => {
            count > 0 && used + count as usize <= limit
        }
        Kind::Skip => count as usize == GROUP_BYTES - used,
        Kind::Unknown => false,
    }
}

impl Tally {
    /// An entry before the group's last: its flag, its succession, its count.
    pub fn step(&mut self, limit: usize, number: u16, entry: IndexEntry) -> Result<(), IndexFault>
        requires small { Small self.old }
        requires part { length (bytes_in entry.content) ≤ 126632 }
        ensures { outcome result self.new ≡ stepped limit number self.old (meant entry.entry) }
    {
        let kind = entry.content.kind();
        if !kind.is_known() {
            return Err(IndexFault::Flag { entry: number });
        }
        let sum = self.state.parts_sum();
        let part = entry.content.length();
        let moved = self.state.follow(kind, part as u64, entry.warned);
        moved.ok_or(IndexFault::Succession { entry: number })?;
        if !count_fits(kind, entry.count, limit, self.used, sum) {
            return Err(IndexFault::Count { entry: number });
        }
        self.used += part;
        self.counts = self.counts.after(kind, entry.count);
        Ok(())
    }

    /// The group's last entry: its flag, its succession, its count.
    pub fn close(&mut self, limit: usize, number: u16, entry: IndexEntry) -> Result<(), IndexFault>
        requires { Small self.old }
        ensures { outcome result self.new ≡ closed limit number self.old (meant entry.entry) }
    {
        let kind = entry.content.kind();
        if !kind.is_known() {
            return Err(IndexFault::Flag { entry: number });
        }
        let sum = self.state.parts_sum();
        let ended = self.state.end(kind);
        ended.ok_or(IndexFault::Succession { entry: number })?;
        if !count_fits(kind, entry.count, limit, self.used, sum) {
            return Err(IndexFault::Count { entry: number });
        }
        Ok(())
    }
}
