ghost use Rattle.std.specs.Prelude.{◌≡◌, ℕ, ◌+◌, ◌*◌, ◌/◌, ◌%◌, ◌<◌, false, not, ◌||◌, length, slice_index_or};
ghost use Rattle.layout.specs.Reading.{checks};
ghost use Rattle.reed_solomon.specs.Interleaves.{interleaved};

use crate::lost_words::LostWords;
use layout::sizes::ARRAY;
use reed_solomon::codes::C1;
use reed_solomon::interleaved::Interleaving;

/// How far the bytes of a C1 word lie apart in the array.
const STRIDE: usize = 2;

/// Whether C1 word `k` is lost: it is marked so already, or it does not check.
// A word that is marked is not tested again. Of a track that is none of this group all words are.
fn is_lost(array: &[u8; ARRAY], marked: bool, k: usize) -> bool
    requires { k < 128 }
    ensures { result ≡ (marked || not (checks 4 (interleaved array.now (64 * (k / 2) + k % 2) 2 32))) }
{
    if marked {
        return true;
    }
    let at = Interleaving {
        start: 64 * (k / 2) + k % 2,
        stride: STRIDE,
    };
    !C1.holds_interleaved(array, at)
}

/// Marks the C1 words that do not check.
pub(crate) fn mark_unchecked(array: &[u8; ARRAY], lost: &mut LostWords)
    ensures { (k : ℕ) → k < 128 → slice_index_or lost.new.marks k false ≡ (slice_index_or lost.old.marks k false || not (checks 4 (interleaved array.now (64 * (k / 2) + k % 2) 2 32))) }
{
    for (k, mark) in lost.marks.iter_mut().enumerate() {
        *mark = is_lost(array, *mark, k);
    }
}
