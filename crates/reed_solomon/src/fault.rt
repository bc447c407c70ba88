ghost use Rattle.std.specs.Prelude.{◌≡◌};
ghost use Rattle.reed_solomon.specs.declared.fault.FillFault.TheVariants.{NoFilling};

/// Why a word was not filled.
#[derive(Clone, Copy, PartialEq, Eq, Debug, Drop)]
pub enum FillFault {
    /// The word has more than 255 bytes, or not as many as the code's words have.
    WordLength,
    /// A lost place is not a place of the word.
    NotAPlace,
    /// A lost place is named twice.
    PlaceTwice,
    /// More bytes are lost than the code has check bytes.
    TooManyLost,
    /// No values of the lost bytes make the word check.
    NoFilling,
}

/// No values of the lost bytes make the word check: the one fault of a call that can be taken.
#[derive(Clone, Copy, PartialEq, Eq, Debug)]
pub struct Unfillable;

impl From<Unfillable> for FillFault {
    ghost from_gives = { λ _ fault. fault ≡ NoFilling };

    fn from(_: Unfillable) -> FillFault {
        FillFault::NoFilling
    }
}
