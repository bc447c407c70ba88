ghost use Rattle.std.specs.Prelude.{◌≡◌, ℕ, ◌+◌, ◌^◌, ◌<◌, is_some, if◌then◌else◌};
ghost use Rattle.index.specs.Succession.{permits, moved, ends, ended, parts_sum, is_idle};

use crate::kind::Kind;

/// The position in the succession of entries. Inside a record: the sum of its parts so far, and the warning of its
/// first entry, 0 or 1.
// Each open position has its own length and warning, so that one match names position and kind; the warning is a number, as in
// entries.
#[derive(Clone, Copy)]
pub enum State {
    /// Outside any record.
    Idle,
    /// Behind a start or middle part: the group's skip has to follow.
    Begun { length: u64, warned: u8 },
    /// A group opens inside a record: a middle or last part has to follow.
    Inside { length: u64, warned: u8 },
    /// Behind a last part: the total or the group's skip has to follow.
    Owing { length: u64, warned: u8 },
    /// A group opens behind a last part: the total has to follow.
    Owed { length: u64, warned: u8 },
}

// The steps change the position in place and match it together with the kind: a rule of the project.
impl State {
    /// The sum of the open record's parts.
    pub fn parts_sum(self) -> u64
        ensures { result ≡ parts_sum self }
    {
        match self {
            State::Idle => 0,
            State::Begun { length, .. }
            | State::Inside { length, .. }
            | State::Owing { length, .. }
            | State::Owed { length, .. } => length,
        }
    }

    /// Moves on by an entry before the group's last that names `part` bytes. Where it may not stand here, it gives none
    /// and changes nothing.
    pub(crate) fn follow(&mut self, kind: Kind, part: u64, warning: u8) -> Option<()>
        requires { parts_sum self.old + part < 2 ^ 64 }
        ensures answer { is_some result ≡ permits self.old kind }
        ensures state { self.new ≡ (if permits self.old kind then moved self.old kind part warning else self.old) }
    {
        *self = match (*self, kind) {
            (State::Inside { length, warned }, Kind::Middle) => State::Begun {
                length: length + part,
                warned,
            },
            (State::Inside { length, warned }, Kind::Last) => State::Owing {
                length: length + part,
                warned,
            },
            (State::Idle, Kind::Start) => State::Begun {
                length: part,
                warned: warning,
            },
            (State::Owing { .. } | State::Owed { .. }, Kind::Total) => State::Idle,
            (State::Idle, Kind::Mark | Kind::Entire) => State::Idle,
            _ => return None,
        };
        Some(())
    }

    /// Moves on by the group's last entry. Where the group may not end by it, it gives none and changes nothing.
    pub(crate) fn end(&mut self, kind: Kind) -> Option<()>
        ensures answer { is_some result ≡ ends self.old kind }
        ensures state { self.new ≡ (if ends self.old kind then ended self.old else self.old) }
    {
        *self = match (*self, kind) {
            (State::Begun { length, warned }, Kind::Skip) => State::Inside { length, warned },
            (State::Owing { length, warned }, Kind::Skip) => State::Owed { length, warned },
            (State::Idle, Kind::Skip) => State::Idle,
            _ => return None,
        };
        Some(())
    }

    /// Whether no record is open.
    pub fn is_idle(self) -> bool
        ensures { result ≡ is_idle self }
    {
        matches!(self, State::Idle)
    }
}
