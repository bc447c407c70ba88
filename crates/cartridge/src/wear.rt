use tape::traits::{Playable, Recordable};

/// A word that the example sheet has for no byte.
const NO_BYTE: u16 = 1000;

/// Changes some words of a track: a run of byte words of block `b`, so that two C1 words are lost.
fn scratch(words: &mut [u16], b: usize) {
    let start = 36 * (b % 128) + 4;
    if let Some(run) = words.get_mut(start..start + 5) {
        run.fill(NO_BYTE);
    }
}

/// Scratches each track of group 1.
fn scratch_tracks<T: Recordable>(tape: &mut T, buffer: &mut [u16]) {
    for t in 0..46 {
        if tape.fetch(t, buffer).is_ok() {
            scratch(buffer, 3 * t);
            let _ = tape.store(t, buffer);
        }
    }
}

/// Scratches each track of group 1, and blanks these two.
pub(crate) fn wear_group<T: Recordable>(tape: &mut T, blank: [usize; 2], buffer: &mut [u16]) {
    scratch_tracks(tape, buffer);
    for t in blank {
        let _ = tape.blank(t);
    }
}

/// Copies a track over another.
pub(crate) fn copy_track<T: Recordable>(tape: &mut T, from: usize, to: usize, buffer: &mut [u16]) {
    if tape.fetch(from, buffer).is_ok() {
        let _ = tape.store(to, buffer);
    }
}
