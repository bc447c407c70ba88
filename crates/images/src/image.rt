ghost use Rattle.std.specs.Prelude.{◌≡◌, ◌/◌, length};
ghost use Rattle.std.specs.Borrow.{GName};
ghost use Rattle.tape.specs.Tape.{Sound, fetched, delivered, storing, stored, blanking, blanked};
ghost use Rattle.images.specs.Images.{image_tracks, image_stored, image_blanked};

use crate::number::Number;
use tape::checks::{reach, storable, within};
use tape::fault::TapeFault;
use tape::traits::{Playable, Recordable};

/// A tape in memory. Numbers after the last whole track stay as they are.
#[derive(Drop)]
pub struct Image<'a, N> {
    pub memory: &'a mut [N],
}

/// The number of tracks in an image's memory: a part of one at the end is none.
pub(crate) fn tracks<N: Number>(memory: &[N]) -> usize
    ensures answer { result ≡ length (image_tracks N.format memory.now) }
    ensures sound { Sound (image_tracks N.format memory.now) }
    ensures whole { result ≡ length memory.now / N.STRIDE }
{
    memory.len() / N::STRIDE
}

/// Copies the words of a track of an image.
pub(crate) fn fetch<N: Number>(
    memory: &[N],
    track: usize,
    buffer: &mut [u16],
) -> Result<(), TapeFault>
    ensures answer { result ≡ fetched (image_tracks N.format memory.now) track (length buffer.old) }
    ensures words { buffer.new ≡ delivered (image_tracks N.format memory.now) track buffer.old }
    ensures sound { Sound (image_tracks N.format memory.now) }
{
    reach(tracks(memory), track, buffer.len())?;
    let start = track * N::STRIDE;
    if memory[start] != N::WRITTEN {
        return Err(TapeFault::Blank);
    }
    N::read(&memory[start + 1..start + N::STRIDE], buffer);
    Ok(())
}

/// Writes the flag and the words of a track.
fn store<N: Number>(memory: &mut [N], track: usize, buffer: &[u16]) -> Result<(), TapeFault>
    ensures answer { result ≡ storing (length (image_tracks N.format memory.old)) track buffer.now }
    ensures memory { memory.new ≡ image_stored N.format memory.old track buffer.now }
{
    storable(tracks(memory), track, buffer)?;
    let start = track * N::STRIDE;
    memory[start] = N::WRITTEN;
    N::write(buffer, &mut memory[start + 1..start + N::STRIDE]);
    Ok(())
}

/// Takes the flag of a track away, and leaves its words.
fn blank<N: Number>(memory: &mut [N], track: usize) -> Result<(), TapeFault>
    ensures answer { result ≡ blanking (length (image_tracks N.format memory.old)) track }
    ensures memory { memory.new ≡ image_blanked N.format memory.old track }
{
    within(tracks(memory), track)?;
    let start = track * N::STRIDE;
    memory[start] = N::BLANK;
    Ok(())
}

impl<N: Number> Playable for Image<'_, N> {
    ghost tracks = { λ s. image_tracks N.format s.memory.now };

    fn length(&self) -> usize {
        tracks(self.memory)
    }

    fn fetch(&self, track: usize, buffer: &mut [u16]) -> Result<(), TapeFault> {
        fetch(self.memory, track, buffer)
    }
}

impl<N: Number> Recordable for Image<'_, N> {
    ghost Rest = { GName };

    ghost rest = { λ s. s.memory.ghost_name };

    fn store(&mut self, track: usize, buffer: &[u16]) -> Result<(), TapeFault>
        ensures answer { result ≡ storing (length (image_tracks N.format self.old.memory.now)) track buffer.now }
        ensures kept { self.new.memory.ghost_name ≡ self.old.memory.ghost_name }
        ensures tape { image_tracks N.format self.new.memory.now ≡ stored (image_tracks N.format self.old.memory.now) track buffer.now }
        ensures memory { self.new.memory.now ≡ image_stored N.format self.old.memory.now track buffer.now }
    {
        store(self.memory, track, buffer)
    }

    fn blank(&mut self, track: usize) -> Result<(), TapeFault>
        ensures answer { result ≡ blanking (length (image_tracks N.format self.old.memory.now)) track }
        ensures kept { self.new.memory.ghost_name ≡ self.old.memory.ghost_name }
        ensures tape { image_tracks N.format self.new.memory.now ≡ blanked (image_tracks N.format self.old.memory.now) track }
        ensures memory { self.new.memory.now ≡ image_blanked N.format self.old.memory.now track }
    {
        blank(self.memory, track)
    }
}
