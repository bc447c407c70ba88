ghost use Rattle.std.specs.Prelude.{◌≡◌, ℕ, ◌+◌, ◌/◌, ◌<◌, ◌&&◌, length, replicate, ◌==◌, slice_index};
ghost use Rattle.layout.specs.Group.{address};
ghost use Rattle.layout.specs.Reading.{reading};
ghost use Rattle.layout.specs.Words.{row as row_of, frame_byte};
ghost use Rattle.reading.specs.Arrays.{at, array_in};
ghost use Rattle.losses.specs.Faults.{answered, unless, track_decline};
ghost use Rattle.losses.specs.Losses.{loss_row, row_after};
ghost use Rattle.reading.specs.Outcomes.{Judged};

use crate::lost_words::LostWords;
use crate::{c1, c2, decoding};
use channel::line::LineCode;
use layout::address::Address;
use layout::row::place_of;
pub use layout::sizes::{ARRAY, ROW};
use layout::sizes::{TRACK_WORDS, TRACKS};
use losses::fault::TrackFault;
use losses::sheet::{Cause, LossRow, NO_LOSS};
use tape::traits::WORDS;

/// Takes the bytes at the occupied places.
fn take_row(array: &[u8; ARRAY], out: &mut [u8; ROW])
    ensures { out.new ≡ row_of (array_in array.now) }
{
    for (q, byte) in out.iter_mut().enumerate() {
        *byte = array[place_of(q)];
    }
}

/// Whether the two header bytes are those of the track's frame.
fn is_headed(array: &[u8; ARRAY], position: Address) -> bool
    ensures { result ≡ (slice_index array.now 0 == frame_byte (position.track / 2 + 1) && slice_index array.now 2 == 0) }
{
    array[0] == position.frame_byte() && array[2] == 0
}

/// Judges a track, and leaves its corrected bytes in the array if it was read.
fn judge<C: LineCode>(
    code: &C,
    words: &[u16; TRACK_WORDS],
    position: Address,
    array: &mut [u8; ARRAY],
) -> LossRow
    ensures { Judged (reading (C.line code.now) (address position.group position.track) (at words.now)) array.new result }
{
    let mut lost = LostWords::new();
    decoding::take_bytes(code, words, position, array, &mut lost);
    c1::mark_unchecked(array, &mut lost);
    let found = c2::correct(array, &lost);
    if found.cause.is_some() {
        return found;
    }
    if !is_headed(array, position) {
        return LossRow::from(Cause::WrongHeader);
    }
    NO_LOSS
}

/// Reads a track into the row; the array is left with anything.
pub(crate) fn read_words<C: LineCode>(
    code: &C,
    words: &[u16; TRACK_WORDS],
    position: Address,
    array: &mut [u8; ARRAY],
    row: &mut [u8; ROW],
) -> LossRow
    ensures finding { result ≡ loss_row (reading (C.line code.now) (address position.group position.track) (at words.now)) }
    ensures bytes { row.new ≡ row_after (reading (C.line code.now) (address position.group position.track) (at words.now)) row.old }
{
    let finding = judge(code, words, position, array);
    if finding.cause.is_some() {
        return finding;
    }
    take_row(array, row);
    finding
}

/// Reads track `t` of a group from its words into the row, by way of the array, and gives the finding. The row is left
/// as it was if the track is lost, and the array zero.
pub fn read_track<C: LineCode>(
    code: &C,
    words: &[u16],
    group: u16,
    t: usize,
    array: &mut [u8],
    row: &mut [u8],
) -> Result<LossRow, TrackFault>
    ensures answer { result ≡ answered (track_decline (length words.now) (length row.old) (length array.old) t) (loss_row (reading (C.line code.now) (address group t) (at words.now))) }
    ensures bytes { row.new ≡ unless (track_decline (length words.now) (length row.old) (length array.old) t) (row_after (reading (C.line code.now) (address group t) (at words.now)) row.old) row.old }
    ensures zeroed { array.new ≡ unless (track_decline (length words.now) (length row.old) (length array.old) t) (replicate (length array.old) 0) array.old }
{
    if words.len() != WORDS {
        return Err(TrackFault::Words);
    }
    if row.len() != ROW || array.len() != ARRAY {
        return Err(TrackFault::Memory);
    }
    if t >= TRACKS {
        return Err(TrackFault::NoTrack);
    }
    let position = Address { group, track: t };
    let words = words.as_array().unwrap();
    let array = array.as_mut_array().unwrap();
    let row = row.as_mut_array().unwrap();
    let finding = read_words(code, words, position, array, row);
    array.fill(0);
    Ok(finding)
}
