ghost use Rattle.std.specs.Prelude.{◌≡◌, ◌<◌, length, OnOk};
ghost use Rattle.tape.specs.Tape.{narrow, reached, storing, blanking};

use crate::fault::TapeFault;
use crate::traits::{WORD_LIMIT, WORDS};

/// Tests that there is such a track among `tracks`.
pub fn within(tracks: usize, track: usize) -> Result<(), TapeFault>
    ensures answer { result ≡ blanking tracks track }
    ensures within { OnOk result (track < tracks) }
{
    if track < tracks {
        Ok(())
    } else {
        Err(TapeFault::NoTrack)
    }
}

/// Tests the track buffer's size, then that there is such a track among `tracks`.
pub fn reach(tracks: usize, track: usize, size: usize) -> Result<(), TapeFault>
    ensures answer { result ≡ reached tracks track size }
    ensures within { OnOk result ((size ≡ 4608) × (track < tracks)) }
{
    if size != WORDS {
        return Err(TapeFault::WrongBuffer);
    }
    within(tracks, track)
}

/// Whether every word is below 1,024.
fn all_narrow(words: &[u16]) -> bool
    ensures { result ≡ narrow words.now }
{
    // A loop and no `all`, with which writing a group takes 5 percent longer.
    for word in words {
        if *word >= WORD_LIMIT {
            return false;
        }
    }
    true
}

/// Tests whether the buffer may be stored: its size, the track, then its words.
pub fn storable(tracks: usize, track: usize, buffer: &[u16]) -> Result<(), TapeFault>
    ensures answer { result ≡ storing tracks track buffer.now }
    ensures within { OnOk result ((length buffer.now ≡ 4608) × (track < tracks)) }
{
    reach(tracks, track, buffer.len())?;
    if all_narrow(buffer) {
        Ok(())
    } else {
        Err(TapeFault::WideWord)
    }
}
