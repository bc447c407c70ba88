ghost use Rattle.std.specs.Prelude.{◌≡◌};
ghost use Rattle.writing.specs.Faults.{number, write_fault};

use layout::lent::LentFault;

/// Why a group is not written.
#[derive(Clone, Copy, PartialEq, Eq, Debug)]
pub enum WriteFault {
    /// The track buffer does not have 4,608 numbers.
    TrackBuffer = 6,
    /// A setting is above 32,767.
    Setting = 8,
    /// The group does not have 126,632 bytes.
    GroupBuffer = 9,
    /// The bench does not have 138,048 bytes.
    Bench = 15,
    /// The tape has no such group.
    NoGroup = 19,
}

impl WriteFault {
    /// The number that a fault is reported by.
    pub fn number(self) -> u8
        ensures { result ≡ number self }
    {
        self as u8
    }
}

impl From<LentFault> for WriteFault {
    ghost from_gives = { λ e r. r ≡ write_fault e };

    fn from(e: LentFault) -> WriteFault {
        match e {
            LentFault::TrackBuffer => WriteFault::TrackBuffer,
            LentFault::Setting => WriteFault::Setting,
            LentFault::GroupBuffer => WriteFault::GroupBuffer,
            LentFault::Bench => WriteFault::Bench,
        }
    }
}
