ghost use Rattle.std.specs.Prelude.{◌≡◌, ℕ, ◌+◌, Bool, length};
ghost use Rattle.images.specs.Images.{Format, Lawful};

/// A number of an image's memory, and how a track stands in such numbers: its flag, and behind it those that hold its words.
pub trait Number: Copy + PartialEq {
    /// How many numbers a track takes.
    const STRIDE: usize;

    /// The flag of a written track. Every other number means that the track is blank.
    const WRITTEN: Self;

    /// The flag that a blank leaves.
    const BLANK: Self;

    ghost STRIDE: { ℕ };

    ghost WRITTEN: { Self };

    ghost BLANK: { Self };

    ghost format: { Format Self };

    /// Reads the words of a track from the numbers behind its flag.
    fn read(numbers: &[Self], words: &mut [u16])
        requires numbers { length numbers.now + 1 ≡ STRIDE }
        requires words { length words.old ≡ 4608 }
        ensures { words.new ≡ format.words numbers.now };

    /// Writes the words of a track as the numbers behind its flag.
    fn write(words: &[u16], numbers: &mut [Self])
        requires words { length words.now ≡ 4608 }
        requires numbers { length numbers.old + 1 ≡ STRIDE }
        ensures { numbers.new ≡ format.numbers words.now };

    ghost stride: { STRIDE ≡ format.stride };

    ghost written: { WRITTEN ≡ format.written };

    ghost blank: { BLANK ≡ format.blank };

    ghost marks: { (n : Self) → Self.PartialEq.eq n WRITTEN ≡ format.marks n };

    ghost lawful: { Lawful format };
}
