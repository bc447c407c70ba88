use crate::fault::TapeFault;
use crate::traits::Playable;

// Not one impl for every `Deref`: its contract relates a value to what it shows, and `tracks` has to be a function of the value.
/// A tape that is lent to be played is a tape.
impl<T: Playable> Playable for &T {
    ghost tracks = { λ s. T.Playable.tracks s.now };

    fn length(&self) -> usize {
        (**self).length()
    }

    fn fetch(&self, track: usize, buffer: &mut [u16]) -> Result<(), TapeFault> {
        (**self).fetch(track, buffer)
    }
}
