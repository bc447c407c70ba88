ghost use Rattle.std.specs.Prelude.{◌≡◌, ◌<◌, length};
ghost use Rattle.reed_solomon.specs.Interleaves.{interleaved, Scattered, Reaches};

/// Where the bytes of a word lie in memory: byte j at `start + stride * j`.
#[derive(Clone, Copy, PartialEq, Eq, Debug)]
pub struct Interleaving {
    pub start: usize,
    pub stride: usize,
}

impl Interleaving {
    /// Takes a word from where it lies.
    pub fn gather(self, memory: &[u8], word: &mut [u8])
        requires { Reaches (length memory.now) self.start self.stride (length word.old) }
        ensures { word.new ≡ interleaved memory.now self.start self.stride (length word.old) }
    {
        for (j, byte) in word.iter_mut().enumerate() {
            *byte = memory[self.start + self.stride * j];
        }
    }

    /// Puts a word back where it lies.
    // The stride is asked for where a word is written, and is not part of the type: a word with stride 0 can be read.
    pub fn scatter(self, memory: &mut [u8], word: &[u8])
        requires reaches { Reaches (length memory.old) self.start self.stride (length word.now) }
        requires stride_nonzero { 0 < self.stride }
        ensures { Scattered memory.old memory.new self.start self.stride (length word.now) word.now }
    {
        for (j, byte) in word.iter().enumerate() {
            memory[self.start + self.stride * j] = *byte;
        }
    }
}
