ghost use Rattle.std.specs.Prelude.{◌≡◌, ◌<◌};
ghost use Rattle.layout.specs.Placed.{channel_number, half_number};

/// The sign of an array, and of its track's azimuth.
#[derive(Clone, Copy, PartialEq, Eq, Debug)]
pub enum Sign {
    Plus,
    Minus,
}

/// The channel of a byte in its G3 word.
#[derive(Clone, Copy, PartialEq, Eq, Debug)]
pub enum Channel {
    A = 0,
    B = 1,
}

/// The half of a channel that a byte is.
#[derive(Clone, Copy, PartialEq, Eq, Debug)]
pub enum Half {
    Upper = 0,
    Lower = 1,
}

impl Channel {
    /// 0 for A, 1 for B.
    pub fn number(self) -> usize
        ensures is { result ≡ channel_number self }
        ensures below { result < 2 }
    {
        self as usize // as A and B are numbered
    }
}

impl Half {
    /// 0 for upper, 1 for lower.
    pub fn number(self) -> usize
        ensures is { result ≡ half_number self }
        ensures below { result < 2 }
    {
        self as usize // as the halves are numbered
    }
}
