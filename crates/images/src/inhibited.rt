ghost use Rattle.images.specs.Images.{word_tracks};

use crate::image::{fetch, tracks};
use tape::fault::TapeFault;
use tape::traits::Playable;

/// A word image that can only be played.
#[derive(Drop)]
pub struct InhibitedImage<'a> {
    pub memory: &'a [u16],
}

impl Playable for InhibitedImage<'_> {
    ghost tracks = { λ s. word_tracks s.memory.now };

    fn length(&self) -> usize {
        tracks(self.memory)
    }

    fn fetch(&self, track: usize, buffer: &mut [u16]) -> Result<(), TapeFault> {
        fetch(self.memory, track, buffer)
    }
}
