ghost use Rattle.std.specs.Prelude.{◌≡◌, ℕ, ◌*◌, ◌≤◌};
ghost use Rattle.index.specs.Succession.{parts_sum};

use crate::succession::State;
use crate::tally::Counts;

pub mod groups;

/// A walk over the groups of a recording, between two groups: the number of the next group, the position in the
/// succession of entries, and the numbers of items and marks so far.
#[derive(Clone, Copy)]
pub struct Walk {
    number: u32,
    state: State,
    counts: Counts,
    ghost counted: { number ≤ 65536 },
    ghost sum: { parts_sum state ≤ 126632 * number },
    ghost items: { counts.items ≤ 31650 * number },
    ghost ones: { counts.ones ≤ 31650 * number },
    ghost twos: { counts.twos ≤ 31650 * number },
}

/// Whether groups follow.
#[derive(Clone, Copy, PartialEq, Eq, Debug)]
pub enum Ending {
    /// Another group follows.
    GoesOn,
    /// It was the last group.
    Last,
}
