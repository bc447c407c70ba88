ghost use Rattle.std.specs.Prelude.{◌≡◌};
ghost use Rattle.losses.specs.Faults.{track_number, fault_report, read_fault};

use crate::sheet::LossRow;
use layout::lent::LentFault;

/// Why reading a track is declined.
#[derive(Clone, Copy, PartialEq, Eq, Debug)]
pub enum TrackFault {
    /// The group has no such track.
    NoTrack = 4,
    /// There are not 4,608 words.
    Words = 6,
    /// The row does not have 2,912 bytes, or the array not 4,096.
    Memory = 15,
}

impl TrackFault {
    /// The number that a fault is reported by.
    pub fn number(self) -> u8
        ensures { result ≡ track_number self }
    {
        self as u8
    }
}

/// Why reading a group is declined.
#[derive(Clone, Copy, PartialEq, Eq, Debug)]
pub enum ReadFault {
    /// The track buffer does not have 4,608 numbers.
    TrackBuffer,
    /// A setting is above 32,767.
    Setting,
    /// The group buffer does not have 126,632 bytes.
    GroupBuffer,
    /// The bench does not have 138,048 bytes.
    Bench,
    /// The tape has no such group.
    NoGroup,
    /// More than two tracks are lost: the third of them, by its number in the group, with its row.
    ThirdLoss { track: u8, row: LossRow },
    /// A C3 word has no filling: the lowest place of one, by block and then serial.
    Unchecked { block: u8, serial: u8 },
}

impl ReadFault {
    /// The number that a fault is reported by.
    pub fn number(self) -> u8
        ensures { result ≡ (fault_report self).0 }
    {
        // Written out, as a variant with fields has no number of its own.
        match self {
            ReadFault::TrackBuffer => 6,
            ReadFault::Setting => 8,
            ReadFault::GroupBuffer => 9,
            ReadFault::Bench => 15,
            ReadFault::NoGroup => 19,
            ReadFault::ThirdLoss { .. } => 16,
            ReadFault::Unchecked { .. } => 17,
        }
    }
}

impl From<LentFault> for ReadFault {
    ghost from_gives = { λ e r. r ≡ read_fault e };

    fn from(e: LentFault) -> ReadFault {
        match e {
            LentFault::TrackBuffer => ReadFault::TrackBuffer,
            LentFault::Setting => ReadFault::Setting,
            LentFault::GroupBuffer => ReadFault::GroupBuffer,
            LentFault::Bench => ReadFault::Bench,
        }
    }
}
