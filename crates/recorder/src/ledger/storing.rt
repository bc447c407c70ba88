ghost use Rattle.std.specs.Prelude.{◌≡◌, ℕ, ◌*◌, ◌<◌, ◌≤◌, length, replicate};
ghost use Rattle.calls.specs.Laying.{desk, taped};
ghost use Rattle.calls.specs.Declines.{outcome, reaches};
ghost use Rattle.calls.specs.Calls.{cleared, admits, close_answer, closed_on};
ghost use Rattle.recorder.specs.Views.{book_of, Admitted, Ready};

use crate::ledger::Ledger;
use calls::fault::Decline;
use channel::line::LineCode;
use index::writer::complete_group;
use layout::sizes::{BENCH, TRACK_WORDS};
use tape::traits::Recordable;
use writing::group::write_group;

/// The last byte of a recording's last group.
const LAST: u8 = 1;

impl Ledger {
    /// Completes the open group with this last byte, stores it, and leaves its buffer zero.
    pub(crate) fn store<T: Recordable, C: LineCode>(
        &self,
        group: &mut [u8],
        tape: &mut T,
        code: &C,
        last: u8,
        bench: &mut [u8; BENCH],
        buffer: &mut [u16; TRACK_WORDS],
    )
        requires { Ready (desk (record { book = book_of self.now; group = group.old }) (T.Playable.tracks tape.old)) }
        ensures group { group.new ≡ replicate (length group.old) 0 }
        ensures tape { T.Playable.tracks tape.new ≡ taped (C.line code.now) last (desk (record { book = book_of self.now; group = group.old }) (T.Playable.tracks tape.old)) }
        ensures kept { T.Recordable.rest tape.new ≡ T.Recordable.rest tape.old }
    {
        let _ = complete_group(
            group,
            self.fill,
            self.warned,
            self.number,
            self.counts,
            last,
        );
        let _ = write_group(tape, code, self.settings, self.number, group, bench, buffer);
        group.fill(0);
    }

    /// Stores the last group behind the tests of the lent memory, if the tape still has it.
    fn store_last<T: Recordable, C: LineCode>(
        &self,
        group: &mut [u8],
        tape: &mut T,
        code: &C,
        bench: &mut [u8; BENCH],
        buffer: &mut [u16; TRACK_WORDS],
    ) -> Result<(), Decline>
        requires { Admitted (record { book = book_of self.now; group = group.old }) }
        ensures answer { result ≡ reaches (length (T.Playable.tracks tape.old)) (book_of self.now) }
        ensures tape { T.Playable.tracks tape.new ≡ outcome result (taped (C.line code.now) 1 (desk (record { book = book_of self.now; group = group.old }) (T.Playable.tracks tape.old))) (T.Playable.tracks tape.old) }
        ensures kept { T.Recordable.rest tape.new ≡ T.Recordable.rest tape.old }
    {
        self.test_tape(tape.length())?;
        self.store(group, tape, code, LAST, bench, buffer);
        Ok(())
    }

    /// Stores the last group, if it can be, and leaves the group buffer and the lent memory as closing does.
    pub(crate) fn finish<T: Recordable, C: LineCode>(
        &self,
        group: &mut [u8],
        tape: &mut T,
        code: &C,
        bench: &mut [u8],
        buffer: &mut [u16],
    ) -> Result<(), Decline>
        ensures answer { result ≡ close_answer (record { track = length buffer.old; bench = length bench.old }) (desk (record { book = book_of self.now; group = group.old }) (T.Playable.tracks tape.old)) }
        ensures tape { T.Playable.tracks tape.new ≡ closed_on (C.line code.now) (record { track = length buffer.old; bench = length bench.old }) (desk (record { book = book_of self.now; group = group.old }) (T.Playable.tracks tape.old)) }
        ensures kept { T.Recordable.rest tape.new ≡ T.Recordable.rest tape.old }
        ensures group { length group.new ≡ length group.old }
        ensures bench { bench.new ≡ cleared (admits (record { track = length buffer.old; bench = length bench.old }) (desk (record { book = book_of self.now; group = group.old }) (T.Playable.tracks tape.old))) bench.old }
        ensures buffer { buffer.new ≡ cleared (admits (record { track = length buffer.old; bench = length bench.old }) (desk (record { book = book_of self.now; group = group.old }) (T.Playable.tracks tape.old))) buffer.old }
    {
        self.test_lent(group.len(), buffer.len(), bench.len())?;
        let bench = bench.as_mut_array().unwrap();
        let buffer = buffer.as_mut_array().unwrap();
        let answer = self.store_last(group, tape, code, bench, buffer);
        bench.fill(0);
        buffer.fill(0);
        answer
    }
}
