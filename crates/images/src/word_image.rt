ghost use Rattle.std.specs.Prelude.{◌≡◌, map, refl};
ghost use Rattle.images.specs.Images.{capped, word_format};
ghost use Rattle.images.specs.Laws.{word_laws};

use crate::image::Image;
use crate::number::Number;
use tape::traits::{WORD_LIMIT, WORDS};

/// How many numbers a track takes: the flag and the words.
pub const STRIDE: usize = 1 + WORDS;

/// A tape in memory, a 16-bit number to a word. Numbers after the last whole track stay as they are.
pub type WordImage<'a> = Image<'a, u16>;

/// A stored number above 1,023 counts as 0.
fn cap(word: u16) -> u16
    ensures { result ≡ capped word }
{
    if word < WORD_LIMIT { word } else { 0 }
}

impl Number for u16 {
    const STRIDE: usize = STRIDE;

    const WRITTEN: u16 = 1;

    const BLANK: u16 = 0;

    ghost STRIDE = { 4609 };

    ghost WRITTEN = { 1 };

    ghost BLANK = { 0 };

    ghost format = { word_format };

    ghost stride = { refl };

    ghost written = { refl };

    ghost blank = { refl };

    ghost marks = { λ n. refl };

    ghost lawful = { word_laws };

    /// A number to a word: each counts as `cap` says.
    fn read(numbers: &[u16], words: &mut [u16]) {
        // Not a zip: what is written through a zip of `iter_mut` is not known after the loop.
        for (i, word) in words.iter_mut().enumerate() {
            *word = cap(numbers[i]);
        }
    }

    fn write(words: &[u16], numbers: &mut [u16]) {
        numbers.copy_from_slice(words);
    }
}
