ghost use Rattle.std.specs.Prelude.{◌≡◌, ℕ, ◌+◌, ◌*◌, ◌<◌, ◌≤◌, length};
ghost use Rattle.layout.specs.Counts.{which};
ghost use Rattle.layout.specs.Words.{wide};
ghost use Rattle.reading.specs.Arrays.{array_in, erased_in, Corrected, Found};
ghost use Rattle.losses.specs.Losses.{cause_number};

use crate::lost_words::LostWords;
use crate::passing::passing;
use crate::recovery::recover;
use arrayvec::ArrayVec;
use layout::sizes::ARRAY;
use losses::sheet::{Cause, LossRow, NO_LOSS};
use reed_solomon::codes::C2;
use reed_solomon::interleaved::Interleaving;

/// The bytes of a C2 word.
const BYTES: usize = C2.length;

/// How far the bytes of a C2 word lie apart in the array.
const STRIDE: usize = 128;

/// The lost places of C2 word (m, n), the greatest first.
fn erasures(lost: &LostWords, m: usize, n: usize) -> ArrayVec<usize, BYTES>
    requires { m < 4 }
    ensures { result.items ≡ which (λ j. erased_in lost.now.marks (m + 4 * j) n) 32 }
{
    passing(|j| lost.has(m + 4 * j, n))
}

/// Fills C2 word (m, n) in the array; the cause if it cannot be filled.
fn fill_word(array: &mut [u8; ARRAY], lost: &LostWords, m: usize, n: usize) -> Option<Cause>
    requires m_bound { m < 4 }
    requires n_bound { n < 32 }
    ensures { Corrected lost.now.marks array.old array.new m n (cause_number result) }
{
    let places = erasures(lost, m, n);
    if places.len() > C2.check_bytes {
        return Some(Cause::TooManyLost);
    }
    let at = Interleaving {
        start: 32 * m + n,
        stride: STRIDE,
    };
    match recover(C2, array, at, places.as_slice()) {
        Ok(()) => None,
        Err(_) => Some(Cause::NoFilling),
    }
}

/// The number of C2 words of `m`.
fn width(m: usize) -> usize
    ensures is { result ≡ wide m }
    ensures small { result ≤ 32 }
{
    if m % 2 == 0 { 32 } else { 24 }
}

/// Fills the C2 words in order of m, then n; the first that cannot be filled, with its cause.
pub(crate) fn correct(array: &mut [u8; ARRAY], lost: &LostWords) -> LossRow
    ensures { Found (erased_in lost.now.marks) (array_in array.old) array.new (cause_number result.cause, result.m, result.n) }
{
    let mut found = NO_LOSS;
    // Two loops, left by a label at the first word that fails: a rule of the project.
    'words: for m in 0..4 {
        for n in 0..width(m) {
            let cause = fill_word(array, lost, m, n);
            if cause.is_some() {
                found = LossRow {
                    cause,
                    m: m as u8,
                    n: n as u8,
                };
                break 'words;
            }
        }
    }
    found
}
