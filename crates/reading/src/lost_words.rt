ghost use Rattle.std.specs.Prelude.{◌≡◌, ◌<◌, false, ◌||◌, if◌then◌else◌, length, replicate, slice_index_or, slice_set, ◌/◌, ◌%◌, ◌*◌, ◌+◌};
ghost use Rattle.reading.specs.Arrays.{erased_in};

/// The C1 words of a track: number 2h + l is word (2h, l).
pub(crate) const C1_WORDS: usize = 128;

/// Which C1 words of a track are lost.
#[derive(Drop)]
pub(crate) struct LostWords {
    pub(crate) marks: [bool; C1_WORDS],
    ghost size: { length marks ≡ 128 },
}

impl LostWords {
    /// None of them.
    pub(crate) fn new() -> LostWords
        ensures { result.marks ≡ replicate 128 false }
    {
        LostWords {
            marks: [false; C1_WORDS],
        }
    }

    // A block's number is a plain number below 128, as in decoding.

    /// Whether the byte of block `b` and serial `s` is in a lost word.
    pub(crate) fn has(&self, b: usize, s: usize) -> bool
        requires { b < 128 }
        ensures { result ≡ erased_in self.now.marks b s }
    {
        self.marks[2 * (b / 2) + s % 2]
    }

    /// Marks the word of that byte, if it is lost.
    pub(crate) fn add(&mut self, b: usize, s: usize, lost: bool)
        requires { b < 128 }
        ensures { self.new.marks ≡ slice_set self.old.marks (2 * (b / 2) + s % 2) (erased_in self.old.marks b s || lost) }
    {
        let k = 2 * (b / 2) + s % 2;
        self.marks[k] = self.marks[k] | lost;
    }
}
