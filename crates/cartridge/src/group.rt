use crate::buffers::Buffers;
use crate::{show, wear};
use channel::line::LineCode;
use layout::settings::Settings;
use losses::sheet::LossSheet;
use reading::group::read_group;
use std::io;
use tape::traits::Recordable;
use tape::window::Window;
use writing::group::write_group;

const SETTINGS: Settings = Settings {
    tap: 3,
    start: 12345,
};

/// What the group begins with.
const TEXT: &str = "Sector 7 searched, all clear";

/// What an older group begins with.
const OLD: &str = "Sector 9: this was last year";

/// A group that begins with a text, and goes on with zeros.
fn compose(text: &str, group: &mut [u8]) {
    group.fill(0);
    if let Some(head) = group.get_mut(0..text.len()) {
        head.copy_from_slice(text.as_bytes());
    }
}

/// Writes a group, and says what came of it.
fn write<T: Recordable, C: LineCode>(
    rt: &impl Print,
    tape: &mut T,
    code: &C,
    number: u16,
    buffers: &mut Buffers,
) -> io::Result<()> {
    let answer = write_group(
        tape,
        code,
        SETTINGS,
        number,
        buffers.group.as_slice(),
        buffers.bench.as_mut_slice(),
        buffers.track.as_mut_slice(),
    );
    show::print_written(rt, number, answer)
}

/// Reads group 1, and shows the loss sheet and what came back.
fn read<T: Recordable, C: LineCode>(
    rt: &impl Print,
    what: &str,
    tape: &T,
    code: &C,
    buffers: &mut Buffers,
) -> io::Result<()> {
    let mut sheet = LossSheet::new();
    buffers.group.as_mut_slice().fill(0);
    let answer = read_group(
        tape,
        code,
        SETTINGS,
        1,
        buffers.bench.as_mut_slice(),
        buffers.track.as_mut_slice(),
        buffers.group.as_mut_slice(),
        &mut sheet,
    );
    println!(rt; "  {what}")?;
    show::print_sheet(rt, &sheet)?;
    match buffers.group.get(0..TEXT.len()) {
        Some(text) => show::print_answer(rt, answer, text),
        None => Ok(()),
    }
}

/// Writes a group as group 1 of an older recording, which lies on the 46 tracks behind.
fn write_old<T: Recordable, C: LineCode>(
    rt: &impl Print,
    tape: &mut T,
    code: &C,
    buffers: &mut Buffers,
) -> io::Result<()> {
    let mut older = Window {
        below: tape,
        first: 46,
        count: 46,
    };
    println!(rt; "An older recording")?;
    write(rt, &mut older, code, 1, buffers)
}

/// Writes groups 2 and 3 with one text, then group 1 with another.
fn write_three<T: Recordable, C: LineCode>(
    rt: &impl Print,
    tape: &mut T,
    code: &C,
    buffers: &mut Buffers,
) -> io::Result<()> {
    println!(rt; "Writing")?;
    compose(OLD, buffers.group.as_mut_slice());
    write(rt, tape, code, 2, buffers)?;
    write(rt, tape, code, 3, buffers)?;
    compose(TEXT, buffers.group.as_mut_slice());
    write(rt, tape, code, 1, buffers)
}

/// Reads group 1 as it was written, and then worn.
fn read_worn<T: Recordable, C: LineCode>(
    rt: &impl Print,
    tape: &mut T,
    code: &C,
    buffers: &mut Buffers,
) -> io::Result<()> {
    println!(rt; "Reading group 1")?;
    read(rt, "as it was written", tape, code, buffers)?;
    wear::wear_group(tape, [1, 40], buffers.track.as_mut_slice());
    read(
        rt,
        "worn: every track scratched, tracks 1 and 40 blank",
        tape,
        code,
        buffers,
    )
}

/// Reads group 1 with a track that belongs elsewhere: the second one of the 46 tracks behind.
fn read_with_another<T: Recordable, C: LineCode>(
    rt: &impl Print,
    what: &str,
    tape: &mut T,
    code: &C,
    buffers: &mut Buffers,
) -> io::Result<()> {
    wear::copy_track(tape, 46 + 1, 1, buffers.track.as_mut_slice());
    read(rt, what, tape, code, buffers)
}

/// Puts an older recording behind group 1, and reads group 1 with a track of it.
fn read_with_older<T: Recordable, C: LineCode>(
    rt: &impl Print,
    tape: &mut T,
    code: &C,
    buffers: &mut Buffers,
) -> io::Result<()> {
    compose(OLD, buffers.group.as_mut_slice());
    write_old(rt, tape, code, buffers)?;
    println!(rt; "Reading group 1")?;
    read_with_another(
        rt,
        "track 1 of the older recording in the place of track 1",
        tape,
        code,
        buffers,
    )
}

/// Writes two groups, wears the first, and reads it again and again.
pub(crate) fn tell<T: Recordable, C: LineCode>(
    rt: &impl Print,
    tape: &mut T,
    code: &C,
    buffers: &mut Buffers,
) -> io::Result<()> {
    write_three(rt, tape, code, buffers)?;
    read_worn(rt, tape, code, buffers)?;
    read_with_another(
        rt,
        "track 1 of group 2 in the place of track 1",
        tape,
        code,
        buffers,
    )?;
    read_with_older(rt, tape, code, buffers)
}
