ghost use Rattle.std.specs.Prelude.{◌≡◌, List, length};
ghost use Rattle.tape.specs.Tape.{Track, Sound, fetched, delivered, storing, stored, blanking, blanked};

use crate::fault::TapeFault;

/// How many channel words a track has, and so how many numbers a track buffer.
pub const WORDS: usize = 4608;

/// Every channel word is below this number.
pub const WORD_LIMIT: u16 = 1024;

/// A tape that can be played: a fixed number of tracks, each blank or 4,608 words below 1,024.
pub trait Playable {
    ghost tracks: { Self → List Track };

    /// The number of tracks.
    fn length(&self) -> usize
        ensures answer { result ≡ length (tracks self.now) }
        ensures sound { Sound (tracks self.now) };

    /// Copies the words of a track into the buffer.
    ///
    /// Declines, in this order, a buffer that does not have 4,608 numbers, a track that the tape does not have, and a
    /// blank track. A declined call leaves the buffer as it was.
    fn fetch(&self, track: usize, buffer: &mut [u16]) -> Result<(), TapeFault>
        ensures answer { result ≡ fetched (tracks self.now) track (length buffer.old) }
        ensures words { buffer.new ≡ delivered (tracks self.now) track buffer.old }
        ensures sound { Sound (tracks self.now) };
}

/// A tape that can be recorded on too.
pub trait Recordable: Playable {
    // what a store and a blank leave as it was besides the other tracks, so that a lender knows what it gets back
    ghost Rest: { Type 0 };

    ghost rest: { Self → Rest };

    /// Makes the buffer's words the words of a track.
    ///
    /// Declines, in this order, a buffer that does not have 4,608 numbers, a track that the tape does not have, and a
    /// word above 1,023. A declined call leaves the tape as it was.
    fn store(&mut self, track: usize, buffer: &[u16]) -> Result<(), TapeFault>
        ensures answer { result ≡ storing (length (Self.Playable.tracks self.old)) track buffer.now }
        ensures kept { rest self.new ≡ rest self.old }
        ensures tape { Self.Playable.tracks self.new ≡ stored (Self.Playable.tracks self.old) track buffer.now };

    /// Makes a track blank. Declines a track that the tape does not have.
    fn blank(&mut self, track: usize) -> Result<(), TapeFault>
        ensures answer { result ≡ blanking (length (Self.Playable.tracks self.old)) track }
        ensures kept { rest self.new ≡ rest self.old }
        ensures tape { Self.Playable.tracks self.new ≡ blanked (Self.Playable.tracks self.old) track };
}
