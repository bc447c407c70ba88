ghost use Rattle.std.specs.Borrow.{GName};

use crate::fault::TapeFault;
use crate::traits::{Playable, Recordable};

/// A tape that is lent to be changed is a tape.
impl<T: Playable> Playable for &mut T {
    ghost tracks = { λ s. T.Playable.tracks s.now };

    fn length(&self) -> usize {
        (**self).length()
    }

    fn fetch(&self, track: usize, buffer: &mut [u16]) -> Result<(), TapeFault> {
        (**self).fetch(track, buffer)
    }
}

/// What is stored on a tape that is lent is stored on the lender's.
impl<T: Recordable> Recordable for &mut T {
    ghost Rest = { GName × T.Recordable.Rest };

    ghost rest = { λ s. (s.ghost_name, T.Recordable.rest s.now) };

    fn store(&mut self, track: usize, buffer: &[u16]) -> Result<(), TapeFault> {
        (**self).store(track, buffer)
    }

    fn blank(&mut self, track: usize) -> Result<(), TapeFault> {
        (**self).blank(track)
    }
}
