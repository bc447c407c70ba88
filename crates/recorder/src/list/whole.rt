ghost use Rattle.std.specs.Prelude.{◌≡◌, length, replicate, None, Ok};
ghost use Rattle.laying.specs.Calls.{nothing};
ghost use Rattle.runs.specs.Run.{Finished};
ghost use Rattle.calls.specs.Calls.{checked, cleared, admits, close_answer, closed_on, groups_stored};
ghost use Rattle.calls.specs.Lists.{desk_made, answers_to, done_all, list_of};
ghost use Rattle.recorder.specs.Views.{decline_of};
ghost use Rattle.recorder.specs.Asking.{calls_of, answers_of};

use crate::closed::ClosedRecording;
use crate::list::Asked;
use crate::open::OpenRecording;
use channel::line::LineCode;
use layout::settings::Settings;
use tape::traits::Recordable;

/// Makes a recording on a tape, carries out or declines the calls of a list, puts each answer beside its call, and closes.
/// Where the check for making gives no number and closing is not declined, this is a run whose list follows from the calls
/// carried out.
pub fn record_all<T: Recordable, C: LineCode>(
    tape: &mut T,
    code: &C,
    settings: Settings,
    list: &mut [Asked],
    group: &mut [u8],
    bench: &mut [u8],
    buffer: &mut [u16],
) -> ClosedRecording
    ensures calls { calls_of list.new ≡ calls_of list.old }
    ensures answers { answers_of list.new ≡ answers_to (C.line code.now) (record { track = length buffer.old; bench = length bench.old }) (calls_of list.old) (desk_made settings group.old (T.Playable.tracks tape.old)) }
    ensures decline { result.decline ≡ decline_of (close_answer (record { track = length buffer.old; bench = length bench.old }) (done_all (C.line code.now) (record { track = length buffer.old; bench = length bench.old }) (calls_of list.old) (desk_made settings group.old (T.Playable.tracks tape.old)))) }
    ensures groups { result.groups ≡ groups_stored (record { track = length buffer.old; bench = length bench.old }) (done_all (C.line code.now) (record { track = length buffer.old; bench = length bench.old }) (calls_of list.old) (desk_made settings group.old (T.Playable.tracks tape.old))) }
    ensures items { result.items ≡ (done_all (C.line code.now) (record { track = length buffer.old; bench = length bench.old }) (calls_of list.old) (desk_made settings group.old (T.Playable.tracks tape.old))).held.book.counts.items }
    ensures tape { T.Playable.tracks tape.new ≡ closed_on (C.line code.now) (record { track = length buffer.old; bench = length bench.old }) (done_all (C.line code.now) (record { track = length buffer.old; bench = length bench.old }) (calls_of list.old) (desk_made settings group.old (T.Playable.tracks tape.old))) }
    ensures kept { T.Recordable.rest tape.new ≡ T.Recordable.rest tape.old }
    ensures group { group.new ≡ replicate (length group.old) 0 }
    ensures bench { bench.new ≡ cleared (admits (record { track = length buffer.old; bench = length bench.old }) (desk_made settings group.old (T.Playable.tracks tape.old))) bench.old }
    ensures buffer { buffer.new ≡ cleared (admits (record { track = length buffer.old; bench = length bench.old }) (desk_made settings group.old (T.Playable.tracks tape.old))) buffer.old }
    ensures run { checked settings (length group.old) (length (T.Playable.tracks tape.old)) ≡ Ok tt → result.decline ≡ None → Finished (C.line code.now) settings (T.Playable.tracks tape.old) (T.Playable.tracks tape.new) result.groups (list_of nothing (calls_of list.new) (answers_of list.new)).items }
{
    let mut open = OpenRecording::make(tape, settings, group);
    open.call_all(tape, code, list, bench, buffer);
    open.close(tape, code, bench, buffer)
}
