ghost use Rattle.std.specs.Prelude.{◌≡◌};
ghost use Rattle.tape.specs.Faults.{number};

/// Why a tape declines a call.
#[derive(Clone, Copy, PartialEq, Eq, Debug)]
pub enum TapeFault {
    /// The tape has no such track.
    NoTrack = 4,
    /// The track is blank.
    Blank = 5,
    /// The track buffer does not have 4,608 numbers.
    WrongBuffer = 6,
    /// A word is above 1,023.
    WideWord = 7,
}

impl TapeFault {
    /// The number that a fault is reported by.
    pub fn number(self) -> u8
        ensures { result ≡ number self }
    {
        self as u8
    }
}
