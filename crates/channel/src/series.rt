ghost use Rattle.std.specs.Prelude.{◌≡◌, ◌&&◌, length, is_some, if◌then◌else◌, Some, None, ◌==◌, nat_eq};
ghost use Rattle.channel.specs.Stand.{SeriesComeBack, SeriesFit, SeriesJoin};
ghost use Rattle.channel.specs.Listed.{encode_all, state_after, decode_all, lost_of};

use crate::line::LineCode;
use crate::state::State;

/// Encodes bytes in their order into as many words, each in the state that the word before it left, and gives the
/// state after the last. Where there are not as many words as bytes, it gives none and writes nothing.
pub fn encode_all<C: LineCode>(
    code: &C,
    state: State,
    bytes: &[u8],
    words: &mut [u16],
) -> Option<State>
    ensures answer { result ≡ (if nat_eq (length bytes.now) (length words.old) then Some (state_after (C.line code.now).encode state bytes.now) else None) }
    ensures held { words.new ≡ (if nat_eq (length bytes.now) (length words.old) then encode_all (C.line code.now).encode state bytes.now else words.old) }
{
    if bytes.len() != words.len() {
        return None;
    }
    let mut current = state;
    // The words by their index: of what is written through a zip nothing would be known after the loop.
    for (i, byte) in bytes.iter().enumerate() {
        let (word, next) = code.encode(current, *byte);
        words[i] = word;
        current = next;
    }
    Some(current)
}

/// Decodes words into as many bytes, and marks as lost those that give none, with byte 0. Where there are not as many
/// bytes or marks as words, it gives none and writes nothing.
pub fn decode_all<C: LineCode>(
    code: &C,
    words: &[u16],
    bytes: &mut [u8],
    lost: &mut [bool],
) -> Option<()>
    ensures answer { is_some result ≡ (length bytes.old == length words.now && length lost.old == length words.now) }
    ensures held { bytes.new ≡ (if is_some result then decode_all (C.line code.now).decode words.now else bytes.old) }
    ensures marked { lost.new ≡ (if is_some result then lost_of (C.line code.now).decode words.now else lost.old) }
{
    if bytes.len() != words.len() || lost.len() != words.len() {
        return None;
    }
    // Bytes and marks by their index, for the same reason.
    for (i, word) in words.iter().enumerate() {
        let byte = code.decode(*word);
        bytes[i] = byte.unwrap_or(0);
        lost[i] = byte.is_none();
    }
    Some(())
}

/// What holds of every series: encoded and decoded it is the same again with nothing lost, its words are as many as its
/// bytes and have ten bits, and it may be encoded in parts.
pub fn series_stand()
    ensures back { SeriesComeBack }
    ensures fit { SeriesFit }
    ensures join { SeriesJoin }
{}
