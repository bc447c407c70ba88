ghost use Rattle.std.specs.Prelude.{◌≡◌, [], ◌∷◌, length, refl};
ghost use Rattle.images.specs.Images.{from_bytes, from_words, five_bytes, four_words, packed_format};
ghost use Rattle.images.specs.Laws.{packed_laws};

use crate::image::Image;
use crate::number::Number;
use tape::traits::WORDS;

/// How many quads a track has: a quad is four words, which are the forty bits of five bytes.
const QUADS: usize = WORDS / 4;

/// How many bytes a track takes: the flag, and five for each quad.
pub const STRIDE: usize = 1 + 5 * QUADS;

/// A tape in memory, ten bits to a word, highest bit first. Bytes after the last whole track stay as they are.
pub type PackedImage<'a> = Image<'a, u8>;

/// Five bytes as one number of forty bits.
fn join_bytes(bytes: &[u8; 5]) -> u64
    ensures { result ≡ from_bytes bytes.now }
{
    let [a, b, c, d, e] = *bytes;
    u64::from_be_bytes([0, 0, 0, a, b, c, d, e])
}

/// Four words as one number of forty bits.
fn join_words(words: &[u16; 4]) -> u64
    ensures { result ≡ from_words words.now }
{
    let [a, b, c, d] = words.map(u64::from);
    ((a * 1024 + b) * 1024 + c) * 1024 + d
}

/// Writes a number of forty bits as five bytes.
fn split_bytes(forty: u64, bytes: &mut [u8])
    requires { length bytes.old ≡ 5 }
    ensures { bytes.new ≡ five_bytes forty }
{
    // Not an array as the result, as `split_words` has: that was tried, and writing a group took 8 percent longer.
    bytes.copy_from_slice(&forty.to_be_bytes()[3..]);
}

/// A number of forty bits as four words.
fn split_words(forty: u64) -> [u16; 4]
    ensures { result ≡ four_words forty }
{
    [
        (forty / 1_073_741_824 % 1024) as u16,
        (forty / 1_048_576 % 1024) as u16,
        (forty / 1024 % 1024) as u16,
        (forty % 1024) as u16,
    ]
}

impl Number for u8 {
    const STRIDE: usize = STRIDE;

    const WRITTEN: u8 = 1;

    const BLANK: u8 = 0;

    ghost STRIDE = { 5761 };

    ghost WRITTEN = { 1 };

    ghost BLANK = { 0 };

    ghost format = { packed_format };

    ghost stride = { refl };

    ghost written = { refl };

    ghost blank = { refl };

    ghost marks = { λ n. refl };

    ghost lawful = { packed_laws };

    /// The words of each quad from its five bytes.
    fn read(bytes: &[u8], words: &mut [u16]) {
        // The words by index: what is written through `chunks_exact_mut` or `as_chunks_mut` is not known after the loop.
        for (q, five) in bytes.as_chunks::<5>().0.iter().enumerate() {
            words[q * 4..q * 4 + 4].copy_from_slice(&split_words(join_bytes(five)));
        }
    }

    /// The five bytes of each quad from its words.
    fn write(words: &[u16], bytes: &mut [u8]) {
        // The bytes by index, for the same reason.
        for (q, four) in words.as_chunks::<4>().0.iter().enumerate() {
            split_bytes(join_words(four), &mut bytes[q * 5..q * 5 + 5]);
        }
    }
}
