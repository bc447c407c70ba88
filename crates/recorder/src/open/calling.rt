ghost use Rattle.std.specs.Prelude.{◌≡◌, ℕ, ◌<◌, length, replicate};
ghost use Rattle.calls.specs.Declines.{and_then, outcome, reaches, recordable, markable};
ghost use Rattle.calls.specs.Laying.{desk, lay_record, lay_mark};
ghost use Rattle.calls.specs.Calls.{cleared, admits, record_answer, recorded, mark_answer, marked, warn_answer, warned, close_answer, closed_on, groups_stored};
ghost use Rattle.recorder.specs.Views.{book_of, held_in, decline_of, Admitted};

use crate::closed::ClosedRecording;
use crate::open::OpenRecording;
use calls::fault::Decline;
use channel::line::LineCode;
use layout::sizes::{BENCH, TRACK_WORDS};
use tape::traits::Recordable;

// Record and mark have each their own body: what they test and lay differs, and a trait over both would need a law for either.
impl<'a> OpenRecording<'a> {
    /// Gives every further entry the warning.
    pub fn warn(&mut self) -> Result<(), Decline>
        ensures answer { result ≡ warn_answer (held_in self.old) }
        ensures held { held_in self.new ≡ warned (held_in self.old) }
        ensures same { self.new.group.ghost_name ≡ self.old.group.ghost_name }
    {
        let group = self.group.len();
        self.ledger.test_made(group)?;
        self.ledger = self.ledger.alerted();
        Ok(())
    }

    /// Lays a record behind the tests of the lent memory.
    fn place_record<T: Recordable, C: LineCode>(
        &mut self,
        tape: &mut T,
        code: &C,
        bytes: &[u8],
        bench: &mut [u8; BENCH],
        buffer: &mut [u16; TRACK_WORDS],
    ) -> Result<(), Decline>
        requires { Admitted (held_in self.old) }
        ensures answer { result ≡ and_then (reaches (length (T.Playable.tracks tape.old)) (book_of self.old.ledger)) (recordable (length bytes.now) (book_of self.old.ledger)) }
        ensures desk { desk (held_in self.new) (T.Playable.tracks tape.new) ≡ outcome result (lay_record (C.line code.now) bytes.now (desk (held_in self.old) (T.Playable.tracks tape.old))) (desk (held_in self.old) (T.Playable.tracks tape.old)) }
        ensures kept { T.Recordable.rest tape.new ≡ T.Recordable.rest tape.old }
        ensures same { self.new.group.ghost_name ≡ self.old.group.ghost_name }
    {
        self.ledger.admit_record(tape.length(), bytes.len())?;
        self.lay_record(tape, code, bytes, bench, buffer);
        Ok(())
    }

    /// Records a record of 1 to 16,777,215 bytes.
    pub fn record<T: Recordable, C: LineCode>(
        &mut self,
        tape: &mut T,
        code: &C,
        bytes: &[u8],
        bench: &mut [u8],
        buffer: &mut [u16],
    ) -> Result<(), Decline>
        ensures answer { result ≡ record_answer (record { track = length buffer.old; bench = length bench.old }) bytes.now (desk (held_in self.old) (T.Playable.tracks tape.old)) }
        ensures desk { desk (held_in self.new) (T.Playable.tracks tape.new) ≡ recorded (C.line code.now) (record { track = length buffer.old; bench = length bench.old }) bytes.now (desk (held_in self.old) (T.Playable.tracks tape.old)) }
        ensures kept { T.Recordable.rest tape.new ≡ T.Recordable.rest tape.old }
        ensures bench { bench.new ≡ cleared (admits (record { track = length buffer.old; bench = length bench.old }) (desk (held_in self.old) (T.Playable.tracks tape.old))) bench.old }
        ensures buffer { buffer.new ≡ cleared (admits (record { track = length buffer.old; bench = length bench.old }) (desk (held_in self.old) (T.Playable.tracks tape.old))) buffer.old }
        ensures same { self.new.group.ghost_name ≡ self.old.group.ghost_name }
    {
        let group = self.group.len();
        self.ledger.test_lent(group, buffer.len(), bench.len())?;
        let bench = bench.as_mut_array().unwrap();
        let buffer = buffer.as_mut_array().unwrap();
        let answer = self.place_record(tape, code, bytes, bench, buffer);
        bench.fill(0);
        buffer.fill(0);
        answer
    }

    /// Lays a mark behind the tests of the lent memory.
    fn place_mark<T: Recordable, C: LineCode>(
        &mut self,
        tape: &mut T,
        code: &C,
        kind: u8,
        bench: &mut [u8; BENCH],
        buffer: &mut [u16; TRACK_WORDS],
    ) -> Result<(), Decline>
        requires { Admitted (held_in self.old) }
        ensures answer { result ≡ and_then (reaches (length (T.Playable.tracks tape.old)) (book_of self.old.ledger)) (markable kind (book_of self.old.ledger)) }
        ensures desk { desk (held_in self.new) (T.Playable.tracks tape.new) ≡ outcome result (lay_mark (C.line code.now) kind (desk (held_in self.old) (T.Playable.tracks tape.old))) (desk (held_in self.old) (T.Playable.tracks tape.old)) }
        ensures kept { T.Recordable.rest tape.new ≡ T.Recordable.rest tape.old }
        ensures same { self.new.group.ghost_name ≡ self.old.group.ghost_name }
    {
        self.ledger.admit_mark(tape.length(), kind)?;
        self.lay_mark(tape, code, kind, bench, buffer);
        Ok(())
    }

    /// Records a separator mark of kind 1 or 2.
    pub fn mark<T: Recordable, C: LineCode>(
        &mut self,
        tape: &mut T,
        code: &C,
        kind: u8,
        bench: &mut [u8],
        buffer: &mut [u16],
    ) -> Result<(), Decline>
        ensures answer { result ≡ mark_answer (record { track = length buffer.old; bench = length bench.old }) kind (desk (held_in self.old) (T.Playable.tracks tape.old)) }
        ensures desk { desk (held_in self.new) (T.Playable.tracks tape.new) ≡ marked (C.line code.now) (record { track = length buffer.old; bench = length bench.old }) kind (desk (held_in self.old) (T.Playable.tracks tape.old)) }
        ensures kept { T.Recordable.rest tape.new ≡ T.Recordable.rest tape.old }
        ensures bench { bench.new ≡ cleared (admits (record { track = length buffer.old; bench = length bench.old }) (desk (held_in self.old) (T.Playable.tracks tape.old))) bench.old }
        ensures buffer { buffer.new ≡ cleared (admits (record { track = length buffer.old; bench = length bench.old }) (desk (held_in self.old) (T.Playable.tracks tape.old))) buffer.old }
        ensures same { self.new.group.ghost_name ≡ self.old.group.ghost_name }
    {
        let group = self.group.len();
        self.ledger.test_lent(group, buffer.len(), bench.len())?;
        let bench = bench.as_mut_array().unwrap();
        let buffer = buffer.as_mut_array().unwrap();
        let answer = self.place_mark(tape, code, kind, bench, buffer);
        bench.fill(0);
        buffer.fill(0);
        answer
    }

    /// Closes the recording for good: completes its last group and stores it. Its group buffer is zero then, also where
    /// closing is declined.
    pub fn close<T: Recordable, C: LineCode>(
        self,
        tape: &mut T,
        code: &C,
        bench: &mut [u8],
        buffer: &mut [u16],
    ) -> ClosedRecording
        ensures answer { result.decline ≡ decline_of (close_answer (record { track = length buffer.old; bench = length bench.old }) (desk (held_in self.entry) (T.Playable.tracks tape.old))) }
        ensures groups { result.groups ≡ groups_stored (record { track = length buffer.old; bench = length bench.old }) (desk (held_in self.entry) (T.Playable.tracks tape.old)) }
        ensures items { result.items ≡ (held_in self.entry).book.counts.items }
        ensures tape { T.Playable.tracks tape.new ≡ closed_on (C.line code.now) (record { track = length buffer.old; bench = length bench.old }) (desk (held_in self.entry) (T.Playable.tracks tape.old)) }
        ensures group { self.exit.0.now ≡ replicate (length self.entry.group.now) 0 }
        ensures kept { T.Recordable.rest tape.new ≡ T.Recordable.rest tape.old }
        ensures bench { bench.new ≡ cleared (admits (record { track = length buffer.old; bench = length bench.old }) (desk (held_in self.entry) (T.Playable.tracks tape.old))) bench.old }
        ensures buffer { buffer.new ≡ cleared (admits (record { track = length buffer.old; bench = length bench.old }) (desk (held_in self.entry) (T.Playable.tracks tape.old))) buffer.old }
    {
        let OpenRecording { group, ledger } = self;
        let answer = ledger.finish(group, tape, code, bench, buffer);
        group.fill(0);
        let groups = match answer {
            Ok(()) => ledger.number,
            Err(_) => ledger.number - 1,
        };
        ClosedRecording {
            groups,
            items: ledger.counts.items,
            decline: answer.err(),
        }
    }
}
