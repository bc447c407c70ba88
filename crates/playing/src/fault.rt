ghost use Rattle.std.specs.Prelude.{◌≡◌};
ghost use Rattle.playing.specs.Faults.{play_report, cause_of, play_fault};

use index::fault::{GroupFault, IndexFault};
use layout::lent::LentFault;
use losses::fault::ReadFault;

/// Why a group is not played; the fault of the layer below is kept whole.
#[derive(Clone, Copy, PartialEq, Eq, Debug)]
pub enum GroupCause {
    /// The tape has no such group, or its number is above 65,535.
    Absent,
    /// Its tracks are not read.
    Tracks(ReadFault),
    /// Its index has a fault.
    Index(IndexFault),
    /// Its bytes do not fit into the output.
    Output,
    /// Its items do not fit into the rows.
    Rows,
}

/// Why playing is declined.
#[derive(Clone, Copy, PartialEq, Eq, Debug)]
pub enum PlayFault {
    /// The track buffer does not have 4,608 numbers.
    TrackBuffer,
    /// A setting is above 32,767.
    Setting,
    /// The group buffer does not have 126,632 bytes.
    GroupBuffer,
    /// The bench does not have 138,048 bytes.
    Bench,
    /// A group is not played.
    Group { number: u32, cause: GroupCause },
}

impl PlayFault {
    /// The number that the fault is reported by.
    pub fn number(self) -> u8
        ensures { result ≡ (play_report self).0 }
    {
        // Written out, as a variant with fields has no number of its own.
        match self {
            PlayFault::TrackBuffer => 6,
            PlayFault::Setting => 8,
            PlayFault::GroupBuffer => 9,
            PlayFault::Bench => 15,
            PlayFault::Group { cause, .. } => match cause {
                GroupCause::Absent => 19,
                GroupCause::Tracks(fault) => fault.number(),
                GroupCause::Index(_) => 18,
                GroupCause::Output => 20,
                GroupCause::Rows => 21,
            },
        }
    }
}

impl From<GroupFault> for GroupCause {
    ghost from_gives = { λ e r. r ≡ cause_of e };

    fn from(e: GroupFault) -> GroupCause {
        match e {
            GroupFault::Index(fault) => GroupCause::Index(fault),
            GroupFault::WrongLength => GroupCause::Absent,
        }
    }
}

impl From<LentFault> for PlayFault {
    ghost from_gives = { λ e r. r ≡ play_fault e };

    fn from(e: LentFault) -> PlayFault {
        match e {
            LentFault::TrackBuffer => PlayFault::TrackBuffer,
            LentFault::Setting => PlayFault::Setting,
            LentFault::GroupBuffer => PlayFault::GroupBuffer,
            LentFault::Bench => PlayFault::Bench,
        }
    }
}
