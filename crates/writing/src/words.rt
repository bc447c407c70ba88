ghost use Rattle.std.specs.Prelude.{◌≡◌, ◌+◌, ◌*◌, ◌<◌, length, slice_set};
ghost use Rattle.layout.specs.Group.{address};
ghost use Rattle.layout.specs.Line.{track};
ghost use Rattle.writing.specs.Arrays.{array_in};
ghost use Rattle.writing.specs.Sending.{Sent};

use channel::line::LineCode;
use channel::state::State;
use layout::address::Address;
use layout::sizes::{ARRAY, BLOCK_BYTES, BLOCK_WORDS, BLOCKS, TRACK_WORDS};
use layout::sync::sync_after;

/// Puts the word of a byte at place `i`, and gives the next state.
fn send<C: LineCode>(
    code: &C,
    state: State,
    byte: u8,
    words: &mut [u16; TRACK_WORDS],
    i: usize,
) -> State
    requires { i < 4608 }
    ensures next { result ≡ ((C.line code.now).encode state byte).1 }
    ensures words { words.new ≡ slice_set words.old i ((C.line code.now).encode state byte).0 }
{
    let (word, next) = code.encode(state, byte);
    words[i] = word;
    next
}

// The number of a block is a plain number below 128: it is the loop's own, and part of what each block holds.

/// Puts the words of block `b`, and gives the state after them.
fn send_block<C: LineCode>(
    code: &C,
    position: Address,
    array: &[u8; ARRAY],
    b: usize,
    before: State,
    words: &mut [u16; TRACK_WORDS],
) -> State
    requires b_bound { b < 128 }
    requires sent { Sent (C.line code.now) (address position.group position.track) (array_in array.now) words.old before (36 * b) }
    ensures { Sent (C.line code.now) (address position.group position.track) (array_in array.now) words.new result (36 * b + 36) }
{
    let w1 = position.label(b);
    let w2 = b as u8;
    let start = BLOCK_WORDS * b;
    words[start] = sync_after(before);
    let after_one = send(code, State::One, w1, words, start + 1);
    let after_two = send(code, after_one, w2, words, start + 2);
    let mut state = send(code, after_two, w1 ^ w2, words, start + 3);
    let bytes = &array[BLOCK_BYTES * b..BLOCK_BYTES * b + BLOCK_BYTES];
    // The words by their index: of what is written through a zip nothing would be known after the loop.
    for (s, byte) in bytes.iter().enumerate() {
        state = send(code, state, *byte, words, start + 4 + s);
    }
    state
}

/// Puts the words of the track of an array.
pub(crate) fn send_track<C: LineCode>(
    code: &C,
    position: Address,
    array: &[u8; ARRAY],
    words: &mut [u16; TRACK_WORDS],
)
    ensures { words.new ≡ track (C.line code.now) (address position.group position.track) (array_in array.now) }
{
    let mut state = State::Zero;
    for b in 0..BLOCKS {
        state = send_block(code, position, array, b, state, words);
    }
}
