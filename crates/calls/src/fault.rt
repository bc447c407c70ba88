ghost use Rattle.std.specs.Prelude.{◌≡◌};
ghost use Rattle.calls.specs.Declines.{number};

/// Why a call is declined.
#[derive(Clone, Copy, PartialEq, Eq, Debug)]
pub enum Decline {
    /// The track buffer does not have 4,608 numbers.
    TrackBuffer = 6,
    /// A setting is above 32,767.
    Setting = 8,
    /// The group buffer does not have 126,632 bytes.
    GroupBuffer = 9,
    /// The tape had fewer than 46 tracks when the recording was made.
    ShortTape = 10,
    /// A record has no bytes, or more than 16,777,215.
    Length = 11,
    /// The item's last entry would stand above group G.
    Full = 12,
    /// The kind of a mark is neither 1 nor 2.
    MarkKind = 13,
    /// The tape has fewer tracks than G groups.
    LostTracks = 14,
    /// The bench does not have 138,048 bytes.
    Bench = 15,
}

impl Decline {
    /// The number that the decline is reported by.
    pub fn number(self) -> u8
        ensures { result ≡ number self }
    {
        self as u8
    }
}
