ghost use Rattle.std.specs.Prelude.{◌≡◌, ℕ, ◌+◌, ◌-◌, ◌*◌, ◌<◌, ◌≤◌, ◌&&◌, length, replicate, Some, slice_index, slice_set};
ghost use Rattle.layout.specs.Group.{address};
ghost use Rattle.layout.specs.Line.{track};
ghost use Rattle.layout.specs.Writing.{array_of};
ghost use Rattle.writing.specs.Groups.{lent, reached, and_then, outcome, with_tracks, with_group};
ghost use Rattle.writing.specs.Rows.{row_in};

use crate::fault::WriteFault;
use crate::places::Places;
use crate::{array, rows, words};
use channel::line::LineCode;
use layout::address::{Address, has_group};
use layout::lent::check_lent;
use layout::register::Register;
use layout::settings::Settings;
use layout::sizes::{ARRAY, BENCH, GROUP, ROW, ROWS, TRACK_WORDS, TRACKS};
use tape::traits::Recordable;

// That the tape has the group is asked of each caller: it is a fact of a number and of a tape together, and each store
// changes the tape. Tape, code, bench and track buffer stay apart: a struct that borrows them has to say of each borrow, at each
// method, that it is still the same one.

/// Stores the track of one row.
fn store_track<T: Recordable, C: LineCode>(
    tape: &mut T,
    code: &C,
    position: Address,
    row: &[u8; ROW],
    places: &Places,
    array: &mut [u8; ARRAY],
    buffer: &mut [u16; TRACK_WORDS],
)
    requires number_nonzero { 0 < position.group }
    requires number_in_bounds { 46 * position.group ≤ length (T.Playable.tracks tape.old) }
    ensures kept { T.Recordable.rest tape.new ≡ T.Recordable.rest tape.old }
    ensures tape { T.Playable.tracks tape.new ≡ slice_set (T.Playable.tracks tape.old) (46 * (position.group - 1) + position.track) (Some (track (C.line code.now) (address position.group position.track) (array_of row.now))) }
{
    array::make_array(places, row, array);
    words::send_track(code, position, array, buffer);
    let first = TRACKS * (position.group as usize - 1);
    let _ = tape.store(first + position.track, buffer);
}

/// Stores the tracks of all rows.
fn store_rows<T: Recordable, C: LineCode>(
    tape: &mut T,
    code: &C,
    number: u16,
    rows: &[u8; ROWS],
    places: &Places,
    array: &mut [u8; ARRAY],
    buffer: &mut [u16; TRACK_WORDS],
)
    requires number_nonzero { 0 < number }
    requires number_in_bounds { 46 * number ≤ length (T.Playable.tracks tape.old) }
    ensures kept { T.Recordable.rest tape.new ≡ T.Recordable.rest tape.old }
    ensures tape { T.Playable.tracks tape.new ≡ with_tracks (λ t. track (C.line code.now) (address number t) (array_of (row_in rows.now t))) number (T.Playable.tracks tape.old) }
{
    for track in 0..TRACKS {
        let position = Address {
            group: number,
            track,
        };
        let row = rows[ROW * track..].first_chunk().unwrap();
        store_track(tape, code, position, row, places, array, buffer);
    }
}

/// Makes the rows of a group on the bench, and stores their tracks.
fn store_group<T: Recordable, C: LineCode>(
    tape: &mut T,
    code: &C,
    register: Register,
    number: u16,
    group: &[u8; GROUP],
    bench: &mut [u8; BENCH],
    buffer: &mut [u16; TRACK_WORDS],
)
    requires number_nonzero { 0 < number }
    requires number_in_bounds { 46 * number ≤ length (T.Playable.tracks tape.old) }
    ensures kept { T.Recordable.rest tape.new ≡ T.Recordable.rest tape.old }
    ensures tape { T.Playable.tracks tape.new ≡ with_group (C.line code.now) register.tap register.bits number group.now (T.Playable.tracks tape.old) }
{
    let (rows, rest) = bench.split_first_chunk_mut().unwrap();
    let array = rest.as_mut_array().unwrap();
    rows::make_rows(register, number, group, rows);
    store_rows(tape, code, number, rows, &Places::new(), array, buffer);
}

/// Writes a group where the tape has it.
fn put_group<T: Recordable, C: LineCode>(
    tape: &mut T,
    code: &C,
    register: Register,
    number: u16,
    group: &[u8; GROUP],
    bench: &mut [u8; BENCH],
    buffer: &mut [u16; TRACK_WORDS],
) -> Result<(), WriteFault>
    ensures answer { result ≡ reached number (length (T.Playable.tracks tape.old)) }
    ensures kept { T.Recordable.rest tape.new ≡ T.Recordable.rest tape.old }
    ensures tape { T.Playable.tracks tape.new ≡ outcome (reached number (length (T.Playable.tracks tape.old))) (with_group (C.line code.now) register.tap register.bits number group.now (T.Playable.tracks tape.old)) (T.Playable.tracks tape.old) }
{
    if !has_group(tape.length(), number) {
        return Err(WriteFault::NoGroup);
    }
    store_group(tape, code, register, number, group, bench, buffer);
    Ok(())
}

/// Writes a group on its 46 tracks, and leaves bench and track buffer zero. A call that is declined for the lent memory
/// or the settings leaves everything as it was.
pub fn write_group<T: Recordable, C: LineCode>(
    tape: &mut T,
    code: &C,
    settings: Settings,
    number: u16,
    group: &[u8],
    bench: &mut [u8],
    buffer: &mut [u16],
) -> Result<(), WriteFault>
    ensures answer { result ≡ and_then (lent (length buffer.old) settings.tap settings.start (length group.now) (length bench.old)) (reached number (length (T.Playable.tracks tape.old))) }
    ensures kept { T.Recordable.rest tape.new ≡ T.Recordable.rest tape.old }
    ensures tape { T.Playable.tracks tape.new ≡ outcome result (with_group (C.line code.now) settings.tap settings.start number group.now (T.Playable.tracks tape.old)) (T.Playable.tracks tape.old) }
    ensures bench { bench.new ≡ outcome (lent (length buffer.old) settings.tap settings.start (length group.now) (length bench.old)) (replicate (length bench.old) 0) bench.old }
    ensures buffer { buffer.new ≡ outcome (lent (length buffer.old) settings.tap settings.start (length group.now) (length bench.old)) (replicate (length buffer.old) 0) buffer.old }
{
    let register = check_lent(buffer.len(), settings, group.len(), bench.len())?;
    let group = group.as_array().unwrap();
    let bench = bench.as_mut_array().unwrap();
    let buffer = buffer.as_mut_array().unwrap();
    let answer = put_group(tape, code, register, number, group, bench, buffer);
    bench.fill(0);
    buffer.fill(0);
    answer
}
