ghost use Rattle.std.specs.Prelude.{◌≡◌};
ghost use Rattle.index.specs.Bytes.{kind_of, flag_of};
ghost use Rattle.index.specs.Succession.{known};

/// What an entry of an index is, by its flag.
#[derive(Clone, Copy, PartialEq, Eq, Debug)]
pub enum Kind {
    /// The bytes of a whole record whose last part stands before.
    Total = 0x01,
    /// A mark.
    Mark = 0x07,
    /// A part of a record that neither begins nor ends it.
    Middle = 0x40,
    /// The first part of a record.
    Start = 0x42,
    /// The last part of a record.
    Last = 0x60,
    /// A record that stands whole in its group.
    Entire = 0x63,
    /// The end of the index.
    Skip = 0x80,
    /// A flag without a meaning.
    // No Option around the others: an entry with such a flag is read like any other, and declined at its place in the order.
    Unknown = 0,
}

impl Kind {
    /// The flag without a warning; 0, which has no meaning, where there is none.
    pub fn flag(self) -> u8
        ensures { result ≡ flag_of self }
    {
        self as u8
    }

    /// Whether the flag has a meaning.
    pub fn is_known(self) -> bool
        ensures { result ≡ known self }
    {
        !matches!(self, Kind::Unknown)
    }
}

impl From<u8> for Kind {
    ghost from_gives = { λ flag kind. kind ≡ kind_of flag };

    /// The kind of a flag without a warning.
    fn from(flag: u8) -> Kind {
        match flag {
            0x01 => Kind::Total,
            0x07 => Kind::Mark,
            0x40 => Kind::Middle,
            0x42 => Kind::Start,
            0x60 => Kind::Last,
            0x63 => Kind::Entire,
            0x80 => Kind::Skip,
            _ => Kind::Unknown,
        }
    }
}
