ghost use Rattle.std.specs.Prelude.{◌≡◌, ℕ, ◌+◌, ◌*◌, ◌<◌, ◌&&◌, ◌||◌, length, ◌==◌};
ghost use Rattle.layout.specs.Group.{address};
ghost use Rattle.layout.specs.Reading.{is_byte, block_lost};
ghost use Rattle.reading.specs.Arrays.{at, Taken};

use crate::lost_words::LostWords;
use channel::line::LineCode;
use layout::address::Address;
use layout::sizes::{ARRAY, BLOCK_BYTES, BLOCK_WORDS, BLOCKS, TRACK_WORDS};
use layout::sync::is_sync;

/// Whether a word gave this byte.
fn gives(byte: Option<u8>, x: u8) -> bool
    ensures { result ≡ is_byte x byte }
{
    byte == Some(x)
}

// The number of a block is a plain number below 128: it is the loop's own, and two of its uses are a place and a label.

/// Whether block `b` is lost: its sync word or a label is not the expected one.
fn block_lost<C: LineCode>(
    code: &C,
    words: &[u16; TRACK_WORDS],
    position: Address,
    b: usize,
) -> bool
    requires b_bound { b < 128 }
    ensures { result ≡ block_lost (C.line code.now) (address position.group position.track) (at words.now) b }
{
    let start = BLOCK_WORDS * b;
    let w1 = position.label(b);
    let w2 = b as u8;
    let sync = is_sync(words[start]);
    let one = gives(code.decode(words[start + 1]), w1);
    let two = gives(code.decode(words[start + 2]), w2);
    let three = gives(code.decode(words[start + 3]), w1 ^ w2);
    !(sync & one & two & three)
}

/// Takes the bytes of block `b` into the array, and marks the C1 words of those that are lost: all of them if the block
/// is.
fn take_block<C: LineCode>(
    code: &C,
    words: &[u16; TRACK_WORDS],
    position: Address,
    b: usize,
    array: &mut [u8; ARRAY],
    lost: &mut LostWords,
)
    requires block { b < 128 }
    requires so_far { Taken (C.line code.now) (address position.group position.track) (at words.now) array.old lost.old.marks (32 * b) }
    ensures { Taken (C.line code.now) (address position.group position.track) (at words.now) array.new lost.new.marks (32 * (b + 1)) }
{
    let all = block_lost(code, words, position, b);
    let start = BLOCK_WORDS * b + (BLOCK_WORDS - BLOCK_BYTES);
    // The array by its index: of what is written through a zip nothing would be known after the loop.
    for (s, word) in words[start..start + BLOCK_BYTES].iter().enumerate() {
        let byte = code.decode(*word);
        array[BLOCK_BYTES * b + s] = byte.unwrap_or(0);
        lost.add(b, s, all | byte.is_none());
    }
}

/// Takes the bytes of a track into the array, and marks the C1 words that have a lost byte.
pub(crate) fn take_bytes<C: LineCode>(
    code: &C,
    words: &[u16; TRACK_WORDS],
    position: Address,
    array: &mut [u8; ARRAY],
    lost: &mut LostWords,
)
    requires so_far { Taken (C.line code.now) (address position.group position.track) (at words.now) array.old lost.old.marks 0 }
    ensures { Taken (C.line code.now) (address position.group position.track) (at words.now) array.new lost.new.marks 4096 }
{
    for b in 0..BLOCKS {
        take_block(code, words, position, b, array, lost);
    }
}
