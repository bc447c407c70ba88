ghost use Rattle.std.specs.Prelude.{◌≡◌, ◌<◌, ◌≤◌, length, is_ok};
ghost use Rattle.layout.specs.Counts.{which};
ghost use Rattle.reed_solomon.specs.Words.{Places};
ghost use Rattle.reading.specs.Groups.{gone_in, third_in, Column, Filled};

use crate::passing::passing;
use crate::recovery::recover;
use arrayvec::ArrayVec;
use layout::row::data_number_at;
use layout::sizes::{ARRAY, ROW, ROWS, TRACKS};
use losses::sheet::LossSheet;
use reed_solomon::codes::C3;
use reed_solomon::fault::Unfillable;
use reed_solomon::interleaved::Interleaving;

/// The third lost track, if three are lost.
pub(crate) fn third_lost(sheet: &LossSheet) -> Option<usize>
    ensures { result ≡ third_in sheet.now.rows }
{
    let mut count = 0usize;
    for t in 0..TRACKS {
        if sheet.is_lost(t) {
            if count == C3.check_bytes {
                return Some(t);
            }
            count += 1;
        }
    }
    None
}

/// The lost tracks, the greatest first.
pub(crate) fn lost_tracks(sheet: &LossSheet) -> ArrayVec<usize, TRACKS>
    ensures { result.items ≡ which (gone_in sheet.now.rows) 46 }
{
    passing(|t| sheet.is_lost(t))
}

/// Fills the C3 word of place `p`, if D bytes stand there.
fn fill_place(rows: &mut [u8; ROWS], lost: &[usize], p: usize) -> Result<(), Unfillable>
    requires places { Places 46 lost.now }
    requires few { length lost.now ≤ 2 }
    requires place { p < 4096 }
    ensures { Column lost.now rows.old rows.new p (is_ok result) }
{
    match data_number_at(p) {
        Some(start) => {
            let at = Interleaving { start, stride: ROW };
            recover(C3, rows, at, lost)
        },
        None => Ok(()),
    }
}

/// Fills the C3 words in the order of their blocks and serials; the first place whose word has no filling.
pub(crate) fn fill_words(rows: &mut [u8; ROWS], lost: &[usize]) -> Option<usize>
    requires places { Places 46 lost.now }
    requires few { length lost.now ≤ 2 }
    ensures { Filled lost.now rows.old rows.new result }
{
    for p in 0..ARRAY {
        if fill_place(rows, lost, p).is_err() {
            return Some(p);
        }
    }
    None
}
