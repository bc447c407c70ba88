ghost use Rattle.std.specs.Prelude.{◌≡◌, ℕ, ◌+◌, ◌-◌, ◌*◌, ◌/◌, ◌<◌, ◌≤◌};
ghost use Rattle.calls.specs.Held.{free, entered, turned, alerted, roomed, record_ends, mark_ends};
ghost use Rattle.recorder.specs.Views.{book_of};

use crate::ledger::Ledger;
use index::kind::Kind;
use index::tally::Counts;
use index::writer::Fill;
use layout::settings::Settings;

/// What a group has free for entries and their bytes before the first.
const ROOM: usize = 126596;

/// The user bytes of a part that fills a group.
const FULL_PART: usize = 126592;

impl Ledger {
    /// The ledger of a new recording.
    pub(crate) fn new(settings: Settings, limit: u16) -> Ledger
        ensures { book_of result ≡ record { settings = settings; limit = limit; number = 1; fill = record { entries = 0; used = 0 }; counts = record { items = 0; ones = 0; twos = 0 }; warned = 0 } }
    {
        Ledger {
            settings,
            limit,
            number: 1,
            fill: Fill {
                entries: 0,
                used: 0,
            },
            counts: Counts {
                items: 0,
                ones: 0,
                twos: 0,
            },
            warned: 0,
        }
    }

    /// What is free in the open group.
    pub(crate) fn free(&self) -> usize
        ensures { result ≡ free (book_of self.now) }
    {
        ROOM - self.fill.used - 4 * self.fill.entries as usize
    }

    /// The ledger with an entry of this kind and count that names so many bytes.
    pub(crate) fn entered(mut self, kind: Kind, count: u32, size: usize) -> Ledger
        requires { self.fill.used + size + 4 * (self.fill.entries + 1) ≤ 126596 }
        ensures { book_of result ≡ entered kind count size (book_of self) }
    {
        self.fill.entries += 1;
        self.fill.used += size;
        self.counts = self.counts.after(kind, count);
        self
    }

    /// The number of the open group and what is free, where an item that needs so much begins.
    fn begins(&self, need: usize) -> (u32, usize)
        ensures number { result.0 ≡ (roomed need (book_of self.now)).number }
        ensures few { result.0 ≤ 65536 }
        ensures free { result.1 ≡ free (roomed need (book_of self.now)) }
    {
        if need <= self.free() {
            (self.number as u32, self.free())
        } else {
            (self.number as u32 + 1, ROOM)
        }
    }

    /// The group in which the last entry of a record of so many bytes would stand.
    pub(crate) fn record_ends(&self, bytes: usize) -> u32
        requires { bytes ≤ 16777215 }
        ensures { result ≡ record_ends bytes (book_of self.now) }
    {
        let (number, free) = self.begins(5);
        if bytes + 4 <= free {
            return number;
        }
        let rest = bytes - (free - 4);
        number + 1 + ((rest + 3) / FULL_PART) as u32
    }

    /// The group in which a mark would stand.
    pub(crate) fn mark_ends(&self) -> u32
        ensures { result ≡ mark_ends (book_of self.now) }
    {
        let (number, _) = self.begins(4);
        number
    }

    /// The ledger at the next group.
    pub(crate) fn turned(mut self) -> Ledger
        requires { self.number < self.limit }
        ensures { book_of result ≡ turned (book_of self) }
    {
        self.number += 1;
        self.fill = Fill {
            entries: 0,
            used: 0,
        };
        self
    }

    /// The ledger after a warning.
    pub(crate) fn alerted(mut self) -> Ledger
        ensures { book_of result ≡ alerted (book_of self) }
    {
        self.warned = 1;
        self
    }
}
