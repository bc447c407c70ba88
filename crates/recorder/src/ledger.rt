ghost use Rattle.std.specs.Prelude.{◌≡◌, ℕ, suc, ◌+◌, ◌-◌, ◌*◌, ◌<◌, ◌≤◌};

use index::tally::Counts;
use index::writer::Fill;
use layout::settings::Settings;

mod steps;
mod storing;
pub(crate) mod tests;

/// The numbers of an open recording.
#[derive(Clone, Copy)]
pub struct Ledger {
    pub(crate) settings: Settings,
    /// G, the most groups that the recording may have.
    pub(crate) limit: u16,
    /// The number of the open group.
    pub(crate) number: u16,
    pub(crate) fill: Fill,
    /// The totals since group 1.
    pub(crate) counts: Counts,
    /// 1 after a warning, else 0: a number, as in the entries that it goes into.
    pub(crate) warned: u8,
    ghost first: { 1 ≤ number },
    ghost within: { number ≤ suc (limit - 1) },
    ghost fits: { fill.used + 4 * fill.entries ≤ 126596 },
    ghost warning: { warned < 2 },
    ghost items: { counts.items ≤ 31649 * (number - 1) + fill.entries },
    ghost ones: { counts.ones ≤ 31649 * (number - 1) + fill.entries },
    ghost twos: { counts.twos ≤ 31649 * (number - 1) + fill.entries },
}
