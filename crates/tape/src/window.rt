ghost use Rattle.std.specs.Prelude.{◌≡◌, ℕ, ◌+◌, ◌^◌, ◌<◌, length};
ghost use Rattle.tape.specs.Tape.{Sound, storing, stored, blanking, blanked};
ghost use Rattle.tape.specs.Windows.{shown, stored_below, blanked_below, WindowRest, rest_of};

use crate::checks::{reach, within};
use crate::fault::TapeFault;
use crate::traits::{Playable, Recordable};

/// Neighbouring tracks of a tape, as a tape: `count` of them from `first` on, as far as the tape below has them.
#[derive(Drop)]
pub struct Window<T> {
    pub below: T,
    pub first: usize,
    pub count: usize,
}

impl<T: Playable> Playable for Window<T> {
    ghost tracks = { shown T.Playable.tracks };

    fn length(&self) -> usize
        ensures answer { result ≡ length (shown T.Playable.tracks self.now) }
        ensures sound { Sound (shown T.Playable.tracks self.now) }
        ensures place { (k : ℕ) → k < result → self.now.first + k < 2 ^ 64 }
    {
        self.below
            .length()
            .saturating_sub(self.first)
            .min(self.count)
    }

    fn fetch(&self, track: usize, buffer: &mut [u16]) -> Result<(), TapeFault> {
        reach(self.length(), track, buffer.len())?;
        self.below.fetch(self.first + track, buffer)
    }
}

impl<T: Recordable> Recordable for Window<T> {
    ghost Rest = { WindowRest T.Recordable.Rest };

    ghost rest = { rest_of T.Recordable.rest T.Playable.tracks };

    fn store(&mut self, track: usize, buffer: &[u16]) -> Result<(), TapeFault>
        ensures answer { result ≡ storing (length (shown T.Playable.tracks self.old)) track buffer.now }
        ensures kept { rest_of T.Recordable.rest T.Playable.tracks self.new ≡ rest_of T.Recordable.rest T.Playable.tracks self.old }
        ensures tape { shown T.Playable.tracks self.new ≡ stored (shown T.Playable.tracks self.old) track buffer.now }
        ensures below { T.Playable.tracks self.new.below ≡ stored_below T.Playable.tracks self.old track buffer.now }
    {
        reach((*self).length(), track, buffer.len())?;
        self.below.store(self.first + track, buffer)
    }

    fn blank(&mut self, track: usize) -> Result<(), TapeFault>
        ensures answer { result ≡ blanking (length (shown T.Playable.tracks self.old)) track }
        ensures kept { rest_of T.Recordable.rest T.Playable.tracks self.new ≡ rest_of T.Recordable.rest T.Playable.tracks self.old }
        ensures tape { shown T.Playable.tracks self.new ≡ blanked (shown T.Playable.tracks self.old) track }
        ensures below { T.Playable.tracks self.new.below ≡ blanked_below T.Playable.tracks self.old track }
    {
        within((*self).length(), track)?;
        self.below.blank(self.first + track)
    }
}
