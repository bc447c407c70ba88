ghost use Rattle.std.specs.Prelude.{◌≡◌, ℕ, ◌<◌, length, slice_index};
ghost use Rattle.layout.specs.Writing.{laid, array_of};
ghost use Rattle.writing.specs.Arrays.{array_in, c2_filled, c1_filled};

use crate::places::Places;
pub use layout::sizes::{ARRAY, ROW};
use reed_solomon::codes::{C1, C2};
use reed_solomon::interleaved::Interleaving;

/// The places of the check bytes in a C2 word, and in a C1 word.
const C2_CHECKS: [usize; 6] = [18, 17, 16, 15, 14, 13];

const C1_CHECKS: [usize; 4] = [31, 30, 29, 28];

/// Gives every C2 word of the array its check bytes.
fn put_c2(array: &mut [u8; ARRAY])
    ensures { (p : ℕ) → p < 4096 → slice_index array.new p ≡ c2_filled array.old p }
{
    // As a slice, of which the check knows all through the loop that its numbers are bytes.
    let bytes: &mut [u8] = array;
    for c in 0..128 {
        let at = Interleaving {
            start: c,
            stride: 128,
        };
        let _ = C2.fill_interleaved(bytes, at, &C2_CHECKS);
    }
}

/// Gives every C1 word of the array its check bytes.
fn put_c1(array: &mut [u8; ARRAY])
    ensures { (p : ℕ) → p < 4096 → slice_index array.new p ≡ c1_filled array.old p }
{
    let bytes: &mut [u8] = array;
    for w in 0..128 {
        let at = Interleaving {
            start: 64 * (w / 2) + w % 2,
            stride: 2,
        };
        let _ = C1.fill_interleaved(bytes, at, &C1_CHECKS);
    }
}

/// Lays the bytes of a row at their places, and 0 at the others.
fn lay(places: &Places, row: &[u8; ROW], array: &mut [u8; ARRAY])
    ensures { (b s : ℕ) → b < 128 → s < 32 → array_in array.new b s ≡ laid row.now b s }
{
    array.fill(0);
    for (byte, place) in row.iter().zip(&places.of) {
        array[*place as usize] = *byte;
    }
}

/// Makes the array of a row: its bytes at their places, then the check bytes of C2, then those of C1.
pub(crate) fn make_array(places: &Places, row: &[u8; ROW], array: &mut [u8; ARRAY])
    ensures { (b s : ℕ) → b < 128 → s < 32 → array_in array.new b s ≡ array_of row.now b s }
{
    lay(places, row, array);
    put_c2(array);
    put_c1(array);
}
