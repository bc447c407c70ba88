ghost use Rattle.std.specs.Prelude.{◌≡◌, ℕ, ◌+◌, ◌-◌, ◌*◌, ◌<◌, ◌≤◌, None, length, replicate, slice_index};
ghost use Rattle.losses.specs.Faults.{unless, declined_or, size_decline, group_decline};
ghost use Rattle.reading.specs.Groups.{findings, outcomes, found, Holds, found_in, answer_of, group_after};
ghost use Rattle.losses.specs.Losses.{loss_row, row_after};

use crate::c3::{fill_words, lost_tracks, third_lost};
use crate::randomizer::take_group;
use crate::track::read_words;
use channel::line::LineCode;
use layout::address::{Address, has_group};
use layout::lent::check_lent;
use layout::register::Register;
use layout::settings::Settings;
use layout::sizes::{ARRAY, BLOCK_BYTES, ROW, ROWS, TRACK_WORDS, TRACKS};
pub use layout::sizes::{BENCH, GROUP};
use losses::fault::ReadFault;
use losses::sheet::{Cause, LossRow, LossSheet};
use tape::traits::Playable;

// That the tape has the group is asked of each caller: it is a fact of a number and of a tape together, which no value here has.
// Tape, code, bench and track buffer stay apart: a struct that borrows them has to say of each borrow, at each method, that it is
// still the same one.

/// Fetches a track, and reads it into its row; a blank one is lost.
// The row is kept as a slice: the check does not see that what is written through an array of a part of the rows comes
// back to them.
fn read_one<T: Playable, C: LineCode>(
    tape: &T,
    code: &C,
    position: Address,
    buffer: &mut [u16; TRACK_WORDS],
    array: &mut [u8; ARRAY],
    row: &mut [u8],
) -> LossRow
    requires group { 0 < position.group }
    requires tape { 46 * position.group ≤ length (T.Playable.tracks tape.now) }
    requires row { length row.old ≡ 2912 }
    ensures finding { result ≡ loss_row (outcomes (C.line code.now) position.group (T.Playable.tracks tape.now) position.track) }
    ensures bytes { row.new ≡ row_after (outcomes (C.line code.now) position.group (T.Playable.tracks tape.now) position.track) row.old }
{
    let first = TRACKS * (position.group as usize - 1);
    match tape.fetch(first + position.track, buffer) {
        Ok(()) => read_words(code, buffer, position, array, row.as_mut_array().unwrap()),
        Err(_) => LossRow::from(Cause::Blank),
    }
}

/// Reads the 46 tracks of a group, each into its row, and its finding into the loss sheet.
fn read_tracks<T: Playable, C: LineCode>(
    tape: &T,
    code: &C,
    number: u16,
    buffer: &mut [u16; TRACK_WORDS],
    array: &mut [u8; ARRAY],
    rows: &mut [u8; ROWS],
    sheet: &mut LossSheet,
)
    requires group { 0 < number }
    requires tape { 46 * number ≤ length (T.Playable.tracks tape.now) }
    requires zero { (p : ℕ) → slice_index rows.old p ≡ 0 }
    ensures { Holds (outcomes (C.line code.now) number (T.Playable.tracks tape.now)) rows.new sheet.new.rows 46 }
{
    *sheet = LossSheet::new();
    for track in 0..TRACKS {
        let position = Address {
            group: number,
            track,
        };
        let row = &mut rows[ROW * track..ROW * track + ROW];
        let finding = read_one(tape, code, position, buffer, array, row);
        sheet.put(track, finding);
    }
}

/// Judges a group by its loss sheet and its rows: fills the lost ones, and takes the bytes of the group.
fn judge_group(
    register: Register,
    sheet: &LossSheet,
    rows: &mut [u8; ROWS],
    group: &mut [u8; GROUP],
) -> Result<(), ReadFault>
    ensures answer { result ≡ answer_of sheet.now.rows (found_in register.tap register.bits sheet.now.rows rows.old) }
    ensures bytes { group.new ≡ group_after (found_in register.tap register.bits sheet.now.rows rows.old) group.old }
{
    if let Some(t) = third_lost(sheet) {
        return Err(ReadFault::ThirdLoss {
            track: t as u8,
            row: sheet.finding(t),
        });
    }
    let lost = lost_tracks(sheet);
    if let Some(p) = fill_words(rows, lost.as_slice()) {
        return Err(ReadFault::Unchecked {
            block: (p / BLOCK_BYTES) as u8,
            serial: (p % BLOCK_BYTES) as u8,
        });
    }
    take_group(rows, register, group);
    Ok(())
}

/// Reads a group that is on the tape; bench and track buffer are left with anything.
fn read_present<T: Playable, C: LineCode>(
    tape: &T,
    code: &C,
    register: Register,
    number: u16,
    bench: &mut [u8; BENCH],
    buffer: &mut [u16; TRACK_WORDS],
    group: &mut [u8; GROUP],
    sheet: &mut LossSheet,
) -> Result<(), ReadFault>
    requires present { 0 < number }
    requires tape { 46 * number ≤ length (T.Playable.tracks tape.now) }
    ensures answer { result ≡ answer_of (findings (C.line code.now) number (T.Playable.tracks tape.now)) (found (C.line code.now) register.tap register.bits number (T.Playable.tracks tape.now)) }
    ensures bytes { group.new ≡ group_after (found (C.line code.now) register.tap register.bits number (T.Playable.tracks tape.now)) group.old }
    ensures findings { sheet.new.rows ≡ findings (C.line code.now) number (T.Playable.tracks tape.now) }
{
    let (rows, rest) = bench.split_first_chunk_mut().unwrap();
    let array = rest.as_mut_array().unwrap();
    rows.fill(0);
    read_tracks(tape, code, number, buffer, array, rows, sheet);
    judge_group(register, sheet, rows, group)
}

/// Reads a group if the tape has it; bench and track buffer are left with anything.
fn read_if_present<T: Playable, C: LineCode>(
    tape: &T,
    code: &C,
    register: Register,
    number: u16,
    bench: &mut [u8; BENCH],
    buffer: &mut [u16; TRACK_WORDS],
    group: &mut [u8; GROUP],
    sheet: &mut LossSheet,
) -> Result<(), ReadFault>
    ensures answer { result ≡ declined_or (group_decline None number (length (T.Playable.tracks tape.now))) (answer_of (findings (C.line code.now) number (T.Playable.tracks tape.now)) (found (C.line code.now) register.tap register.bits number (T.Playable.tracks tape.now))) }
    ensures bytes { group.new ≡ unless (group_decline None number (length (T.Playable.tracks tape.now))) (group_after (found (C.line code.now) register.tap register.bits number (T.Playable.tracks tape.now)) group.old) group.old }
    ensures findings { sheet.new.rows ≡ unless (group_decline None number (length (T.Playable.tracks tape.now))) (findings (C.line code.now) number (T.Playable.tracks tape.now)) sheet.old.rows }
{
    if !has_group(tape.length(), number) {
        return Err(ReadFault::NoGroup);
    }
    read_present(tape, code, register, number, bench, buffer, group, sheet)
}

/// Reads a group into the group buffer, by way of bench and track buffer, and the findings on its 46 tracks into the
/// loss sheet. The group buffer is left as it was where the call is declined, the sheet where nothing was fetched. Bench
/// and track buffer are left zero once their sizes, the settings and the group buffer's size are right.
pub fn read_group<T: Playable, C: LineCode>(
    tape: &T,
    code: &C,
    settings: Settings,
    number: u16,
    bench: &mut [u8],
    buffer: &mut [u16],
    group: &mut [u8],
    sheet: &mut LossSheet,
) -> Result<(), ReadFault>
    ensures answer { result ≡ declined_or (group_decline (size_decline (length buffer.old) settings.tap settings.start (length group.old) (length bench.old)) number (length (T.Playable.tracks tape.now))) (answer_of (findings (C.line code.now) number (T.Playable.tracks tape.now)) (found (C.line code.now) settings.tap settings.start number (T.Playable.tracks tape.now))) }
    ensures bytes { group.new ≡ unless (group_decline (size_decline (length buffer.old) settings.tap settings.start (length group.old) (length bench.old)) number (length (T.Playable.tracks tape.now))) (group_after (found (C.line code.now) settings.tap settings.start number (T.Playable.tracks tape.now)) group.old) group.old }
    ensures findings { sheet.new.rows ≡ unless (group_decline (size_decline (length buffer.old) settings.tap settings.start (length group.old) (length bench.old)) number (length (T.Playable.tracks tape.now))) (findings (C.line code.now) number (T.Playable.tracks tape.now)) sheet.old.rows }
    ensures bench_zero { bench.new ≡ unless (size_decline (length buffer.old) settings.tap settings.start (length group.old) (length bench.old)) (replicate (length bench.old) 0) bench.old }
    ensures buffer_zero { buffer.new ≡ unless (size_decline (length buffer.old) settings.tap settings.start (length group.old) (length bench.old)) (replicate (length buffer.old) 0) buffer.old }
{
    let register = check_lent(buffer.len(), settings, group.len(), bench.len())?;
    let group = group.as_mut_array().unwrap();
    let bench = bench.as_mut_array().unwrap();
    let buffer = buffer.as_mut_array().unwrap();
    let answer = read_if_present(tape, code, register, number, bench, buffer, group, sheet);
    bench.fill(0);
    buffer.fill(0);
    answer
}
