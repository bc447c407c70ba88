ghost use Rattle.std.specs.Prelude.{◌≡◌, ℕ, ◌+◌, ◌*◌, ◌<◌, length, slice_index};
ghost use Rattle.layout.specs.Placing.{block_at, serial_at};

use layout::row::place_of;
use layout::sizes::ROW;

/// For each number of a row the place of its byte in the array.
#[derive(Drop)]
pub(crate) struct Places {
    pub(crate) of: [u16; ROW],
    ghost at: { (q : ℕ) → q < 2912 → slice_index of q ≡ 32 * block_at q + serial_at q },
}

/// Writes the place of each number.
fn find_places(places: &mut [u16; ROW])
    ensures { (q : ℕ) → q < 2912 → slice_index places.new q ≡ 32 * block_at q + serial_at q }
{
    for (q, place) in places.iter_mut().enumerate() {
        *place = place_of(q) as u16;
    }
}

impl Places {
    /// The places, worked out once for all the rows of a group.
    pub(crate) fn new() -> Places {
        let mut of = [0u16; ROW];
        find_places(&mut of);
        Places { of }
    }
}
