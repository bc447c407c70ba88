ghost use Rattle.std.specs.Prelude.{◌≡◌, length};
ghost use Rattle.calls.specs.Laying.{desk};
ghost use Rattle.calls.specs.Lists.{answer_to, done_to, answers_to, done_all};
ghost use Rattle.std.specs.List.{AllByRecursion};
ghost use Rattle.index.specs.Bytes.{Small};
ghost use Rattle.laying.specs.Calls.{Sends};
ghost use Rattle.recorder.specs.Views.{held_in};
ghost use Rattle.recorder.specs.Asking.{call_of, spent, spent_all, calls_of, answers_of};

use crate::list::{Asked, Call};
use crate::open::OpenRecording;
use calls::fault::Decline;
use channel::line::LineCode;
use tape::traits::Recordable;

/// The elements of a slice of bytes are below 256.
fn are_bytes(bytes: &[u8])
    ensures { Small bytes.now }
{
    let _ = bytes.first();
}

impl<'a> OpenRecording<'a> {
    /// Carries out a call, or declines it.
    pub fn call<T: Recordable, C: LineCode>(
        &mut self,
        tape: &mut T,
        code: &C,
        call: Call,
        bench: &mut [u8],
        buffer: &mut [u16],
    ) -> Result<(), Decline>
        ensures answer { result ≡ answer_to (record { track = length buffer.old; bench = length bench.old }) (call_of call.entry) (desk (held_in self.old) (T.Playable.tracks tape.old)) }
        ensures desk { desk (held_in self.new) (T.Playable.tracks tape.new) ≡ done_to (C.line code.now) (record { track = length buffer.old; bench = length bench.old }) (call_of call.entry) (desk (held_in self.old) (T.Playable.tracks tape.old)) }
        ensures kept { T.Recordable.rest tape.new ≡ T.Recordable.rest tape.old }
        ensures bench { bench.new ≡ spent (record { track = length buffer.old; bench = length bench.old }) (call_of call.entry) (desk (held_in self.old) (T.Playable.tracks tape.old)) bench.old }
        ensures buffer { buffer.new ≡ spent (record { track = length buffer.old; bench = length bench.old }) (call_of call.entry) (desk (held_in self.old) (T.Playable.tracks tape.old)) buffer.old }
        ensures same { self.new.group.ghost_name ≡ self.old.group.ghost_name }
        ensures sends { Sends (call_of call.entry) }
    {
        match call {
            Call::Record(bytes) => {
                are_bytes(bytes);
                self.record(tape, code, bytes, bench, buffer)
            }
            Call::Mark(kind) => self.mark(tape, code, kind, bench, buffer),
            Call::Warn => self.warn(),
        }
    }

    /// Carries out or declines the calls of a list, and puts each answer beside its call.
    pub(crate) fn call_all<T: Recordable, C: LineCode>(
        &mut self,
        tape: &mut T,
        code: &C,
        list: &mut [Asked],
        bench: &mut [u8],
        buffer: &mut [u16],
    )
        ensures desk { desk (held_in self.new) (T.Playable.tracks tape.new) ≡ done_all (C.line code.now) (record { track = length buffer.old; bench = length bench.old }) (calls_of list.old) (desk (held_in self.old) (T.Playable.tracks tape.old)) }
        ensures calls { calls_of list.new ≡ calls_of list.old }
        ensures answers { answers_of list.new ≡ answers_to (C.line code.now) (record { track = length buffer.old; bench = length bench.old }) (calls_of list.old) (desk (held_in self.old) (T.Playable.tracks tape.old)) }
        ensures kept { T.Recordable.rest tape.new ≡ T.Recordable.rest tape.old }
        ensures bench { bench.new ≡ spent_all (C.line code.now) (record { track = length buffer.old; bench = length bench.old }) (calls_of list.old) (desk (held_in self.old) (T.Playable.tracks tape.old)) bench.old }
        ensures buffer { buffer.new ≡ spent_all (C.line code.now) (record { track = length buffer.old; bench = length bench.old }) (calls_of list.old) (desk (held_in self.old) (T.Playable.tracks tape.old)) buffer.old }
        ensures same { self.new.group.ghost_name ≡ self.old.group.ghost_name }
        ensures sends { AllByRecursion Sends (calls_of list.old) }
    {
        for asked in list.iter_mut() {
            asked.answer = self.call(tape, code, asked.call, bench, buffer);
        }
    }
}
