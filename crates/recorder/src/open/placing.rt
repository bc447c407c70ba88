ghost use Rattle.std.specs.Prelude.{◌≡◌, ℕ, ◌+◌, ◌-◌, ◌*◌, ◌<◌, ◌≤◌, length};
ghost use Rattle.calls.specs.Held.{free, roomed, rest_ends, record_ends, mark_ends};
ghost use Rattle.recorder.specs.Views.{book_of, held_in, Ready};
ghost use Rattle.calls.specs.Laying.{desk, laid, stored_on, put_part, room, lay_mark, lay_rest, lay_record};

use crate::open::OpenRecording;
use channel::line::LineCode;
use index::kind::Kind;
use index::writer::lay_entry;
use layout::sizes::{BENCH, TRACK_WORDS};
use tape::traits::Recordable;

/// The last byte of a group that others follow.
const GOES_ON: u8 = 0;

// Tape, code, bench and track buffer stay apart. A struct that borrows them was tried: each method then has to say of each of
// its borrows that it is still the same one, five clauses in place of four parameters.
impl<'a> OpenRecording<'a> {
    /// Lays an entry with its bytes into the open group.
    fn put(&mut self, kind: Kind, count: u32, bytes: &[u8])
        requires size { length self.old.group.now ≡ 126632 }
        requires room { self.old.ledger.fill.used + length bytes.now + 4 * (self.old.ledger.fill.entries + 1) ≤ 126596 }
        ensures held { held_in self.new ≡ laid kind count bytes.now (held_in self.old) }
        ensures size { length self.new.group.now ≡ 126632 }
        ensures same { self.new.group.ghost_name ≡ self.old.group.ghost_name }
    {
        let fill = self.ledger.fill;
        let warned = self.ledger.warned;
        let _ = lay_entry(self.group, fill, kind, warned, count, bytes);
        self.ledger = self.ledger.entered(kind, count, bytes.len());
    }

    /// Stores the open group and opens the next one.
    fn go_on<T: Recordable, C: LineCode>(
        &mut self,
        tape: &mut T,
        code: &C,
        bench: &mut [u8; BENCH],
        buffer: &mut [u16; TRACK_WORDS],
    )
        requires ready { Ready (desk (held_in self.old) (T.Playable.tracks tape.old)) }
        requires next { self.old.ledger.number < self.old.ledger.limit }
        ensures desk { desk (held_in self.new) (T.Playable.tracks tape.new) ≡ stored_on (C.line code.now) (desk (held_in self.old) (T.Playable.tracks tape.old)) }
        ensures ready { Ready (desk (held_in self.new) (T.Playable.tracks tape.new)) }
        ensures kept { T.Recordable.rest tape.new ≡ T.Recordable.rest tape.old }
        ensures same { self.new.group.ghost_name ≡ self.old.group.ghost_name }
    {
        let ledger = self.ledger;
        ledger.store(self.group, tape, code, GOES_ON, bench, buffer);
        self.ledger = self.ledger.turned();
    }

    /// Where an item needs more than is free, stores the open group and opens the next one.
    fn make_room<T: Recordable, C: LineCode>(
        &mut self,
        tape: &mut T,
        code: &C,
        need: usize,
        bench: &mut [u8; BENCH],
        buffer: &mut [u16; TRACK_WORDS],
    )
        requires ready { Ready (desk (held_in self.old) (T.Playable.tracks tape.old)) }
        requires next { (roomed need (book_of self.old.ledger)).number ≤ self.old.ledger.limit }
        ensures desk { desk (held_in self.new) (T.Playable.tracks tape.new) ≡ room (C.line code.now) need (desk (held_in self.old) (T.Playable.tracks tape.old)) }
        ensures ready { Ready (desk (held_in self.new) (T.Playable.tracks tape.new)) }
        ensures kept { T.Recordable.rest tape.new ≡ T.Recordable.rest tape.old }
        ensures same { self.new.group.ghost_name ≡ self.old.group.ghost_name }
    {
        if need > self.ledger.free() {
            self.go_on(tape, code, bench, buffer);
        }
    }

    /// Lays a part of a record that others follow, stores the open group and opens the next one.
    fn store_part<T: Recordable, C: LineCode>(
        &mut self,
        tape: &mut T,
        code: &C,
        kind: Kind,
        part: &[u8],
        bench: &mut [u8; BENCH],
        buffer: &mut [u16; TRACK_WORDS],
    )
        requires ready { Ready (desk (held_in self.old) (T.Playable.tracks tape.old)) }
        requires room { self.old.ledger.fill.used + length part.now + 4 * (self.old.ledger.fill.entries + 1) ≤ 126596 }
        requires next { self.old.ledger.number < self.old.ledger.limit }
        ensures desk { desk (held_in self.new) (T.Playable.tracks tape.new) ≡ stored_on (C.line code.now) (put_part kind part.now (desk (held_in self.old) (T.Playable.tracks tape.old))) }
        ensures ready { Ready (desk (held_in self.new) (T.Playable.tracks tape.new)) }
        ensures kept { T.Recordable.rest tape.new ≡ T.Recordable.rest tape.old }
        ensures same { self.new.group.ghost_name ≡ self.old.group.ghost_name }
    {
        self.put(kind, part.len() as u32, part);
        self.go_on(tape, code, bench, buffer);
    }

    /// Lays a mark.
    pub(crate) fn lay_mark<T: Recordable, C: LineCode>(
        &mut self,
        tape: &mut T,
        code: &C,
        kind: u8,
        bench: &mut [u8; BENCH],
        buffer: &mut [u16; TRACK_WORDS],
    )
        requires ready { Ready (desk (held_in self.old) (T.Playable.tracks tape.old)) }
        requires kind { 1 ≤ kind }
        requires next { mark_ends (book_of self.old.ledger) ≤ self.old.ledger.limit }
        ensures desk { desk (held_in self.new) (T.Playable.tracks tape.new) ≡ lay_mark (C.line code.now) kind (desk (held_in self.old) (T.Playable.tracks tape.old)) }
        ensures ready { Ready (desk (held_in self.new) (T.Playable.tracks tape.new)) }
        ensures kept { T.Recordable.rest tape.new ≡ T.Recordable.rest tape.old }
        ensures same { self.new.group.ghost_name ≡ self.old.group.ghost_name }
    {
        self.make_room(tape, code, 4, bench, buffer);
        self.put(Kind::Mark, kind as u32 - 1, &[]);
    }

    /// Lays the rest of a record of `total` bytes, from the opening of a group on.
    fn lay_rest<T: Recordable, C: LineCode>(
        &mut self,
        tape: &mut T,
        code: &C,
        total: u32,
        rest: &[u8],
        bench: &mut [u8; BENCH],
        buffer: &mut [u16; TRACK_WORDS],
    )
        requires ready { Ready (desk (held_in self.old) (T.Playable.tracks tape.old)) }
        requires opening { free (book_of self.old.ledger) ≡ 126596 }
        requires some { 1 ≤ length rest.now }
        requires few { length rest.now ≤ 16777215 }
        requires next { rest_ends self.old.ledger.number (length rest.now) ≤ self.old.ledger.limit }
        ensures desk { desk (held_in self.new) (T.Playable.tracks tape.new) ≡ lay_rest (C.line code.now) (length rest.now) total rest.now (desk (held_in self.old) (T.Playable.tracks tape.old)) }
        ensures ready { Ready (desk (held_in self.new) (T.Playable.tracks tape.new)) }
        ensures kept { T.Recordable.rest tape.new ≡ T.Recordable.rest tape.old }
        ensures same { self.new.group.ghost_name ≡ self.old.group.ghost_name }
    {
        let mut rest = rest;
        while rest.len() + 4 > self.ledger.free() {
            let part = self.ledger.free() - 4;
            self.store_part(tape, code, Kind::Middle, &rest[0..part], bench, buffer);
            rest = &rest[part..];
        }
        self.put(Kind::Last, rest.len() as u32, rest);
        self.make_room(tape, code, 4, bench, buffer);
        self.put(Kind::Total, total, &[]);
    }

    /// Lays a record.
    pub(crate) fn lay_record<T: Recordable, C: LineCode>(
        &mut self,
        tape: &mut T,
        code: &C,
        bytes: &[u8],
        bench: &mut [u8; BENCH],
        buffer: &mut [u16; TRACK_WORDS],
    )
        requires ready { Ready (desk (held_in self.old) (T.Playable.tracks tape.old)) }
        requires some { 1 ≤ length bytes.now }
        requires few { length bytes.now ≤ 16777215 }
        requires next { record_ends (length bytes.now) (book_of self.old.ledger) ≤ self.old.ledger.limit }
        ensures desk { desk (held_in self.new) (T.Playable.tracks tape.new) ≡ lay_record (C.line code.now) bytes.now (desk (held_in self.old) (T.Playable.tracks tape.old)) }
        ensures ready { Ready (desk (held_in self.new) (T.Playable.tracks tape.new)) }
        ensures kept { T.Recordable.rest tape.new ≡ T.Recordable.rest tape.old }
        ensures same { self.new.group.ghost_name ≡ self.old.group.ghost_name }
    {
        self.make_room(tape, code, 5, bench, buffer);
        let size = bytes.len();
        let free = self.ledger.free();
        if size + 4 <= free {
            self.put(Kind::Entire, size as u32, bytes);
        } else {
            let part = free - 4;
            self.store_part(tape, code, Kind::Start, &bytes[0..part], bench, buffer);
            self.lay_rest(tape, code, size as u32, &bytes[part..], bench, buffer);
        }
    }
}
