ghost use Rattle.std.specs.Prelude.{◌≡◌, ◌+◌, ◌*◌, ◌/◌, ◌<◌, ◌&&◌, nat_lt, nat_le};
ghost use Rattle.layout.specs.Group.{address};
ghost use Rattle.layout.specs.Line.{label};
ghost use Rattle.layout.specs.Words.{frame_byte};

use crate::sizes::TRACKS;

/// The frame of the C3 check bytes.
const CHECK_FRAME: usize = 23;

/// Its frame byte.
const CHECK_FRAME_BYTE: u8 = 215;

/// A track of a group: the group's number, and the track's own in it, from 0 to 45.
#[derive(Clone, Copy, PartialEq, Eq, Debug)]
pub struct Address {
    pub group: u16,
    pub track: usize,
    ghost below: { track < 46 },
}

impl Address {
    /// The first label of block `b`: the group's number in even blocks, frame and sign in odd ones.
    pub fn label(self, b: usize) -> u8
        ensures { result ≡ label (address self.group self.track) b }
    {
        if b % 2 == 0 {
            (self.group % 256) as u8
        } else {
            (self.track / 2 + 1 + 128 * (self.track % 2)) as u8
        }
    }

    /// The byte that tells the frame.
    pub fn frame_byte(self) -> u8
        ensures { result ≡ frame_byte (self.track / 2 + 1) }
    {
        let frame = self.track / 2 + 1;
        if frame == CHECK_FRAME {
            CHECK_FRAME_BYTE
        } else {
            frame as u8
        }
    }
}

/// Whether a tape of so many tracks has the whole group; there is no group 0.
pub fn has_group(tracks: usize, group: u16) -> bool
    ensures { result ≡ (nat_lt 0 group && nat_le (46 * group) tracks) }
{
    group > 0 && TRACKS * group as usize <= tracks
}
