ghost use Rattle.std.specs.Prelude.{◌≡◌};
ghost use Rattle.index.specs.Faults.{declined, group_decline};
ghost use Rattle.index.specs.declared.fault.GroupFault.TheVariants.{Index as IndexOf};

/// A fault of a group's index, in the order in which they are looked for. Entries count from 1.
#[derive(Clone, Copy, PartialEq, Eq, Debug)]
pub enum IndexFault {
    /// The table has another group number.
    GroupNumber,
    /// The table's number of entries is 0 or above 31,650.
    EntryCount,
    /// The table's last byte is above 1.
    LastByte,
    /// The table does not end in zeros.
    TableZeros,
    /// An entry's flag has no meaning.
    Flag { entry: u16 },
    /// An entry may not stand where it stands.
    Succession { entry: u16 },
    /// An entry's count is wrong.
    Count { entry: u16 },
    /// The table's numbers of items and marks are not those of the entries.
    Totals,
    /// The last group ends inside a record, or with its total owed.
    OpenRecord,
}

impl IndexFault {
    /// The number of the decline, the entry counted from 1 or 0 for the table, and the cause by its place in the
    /// order in which faults are looked for, from 1 on.
    pub fn values(self) -> (u8, u16, u8)
        ensures { result ≡ declined self }
    {
        // Written out, as a variant with fields has no number of its own.
        match self {
            IndexFault::GroupNumber => (18, 0, 1),
            IndexFault::EntryCount => (18, 0, 2),
            IndexFault::LastByte => (18, 0, 3),
            IndexFault::TableZeros => (18, 0, 4),
            IndexFault::Flag { entry } => (18, entry, 5),
            IndexFault::Succession { entry } => (18, entry, 6),
            IndexFault::Count { entry } => (18, entry, 7),
            IndexFault::Totals => (18, 0, 8),
            IndexFault::OpenRecord => (18, 0, 9),
        }
    }
}

/// Why an entry is not laid into an open group.
#[derive(Clone, Copy, PartialEq, Eq, Debug)]
pub enum LayFault {
    /// The group does not have 126,632 bytes.
    GroupLength,
    /// The warning is neither 0 nor 1.
    Warning,
    /// The group has no room for the entry and its bytes.
    NoRoom,
}

/// Why a group is not walked to its end.
#[derive(Clone, Copy, PartialEq, Eq, Debug)]
pub enum GroupFault {
    /// The group does not have 126,632 bytes.
    WrongLength,
    /// Its index has a fault.
    Index(IndexFault),
}

impl GroupFault {
    /// The number of the decline.
    pub fn number(self) -> u8
        ensures { result ≡ group_decline self }
    {
        // Written out, as a variant with fields has no number of its own.
        match self {
            GroupFault::WrongLength => 9,
            GroupFault::Index(_) => 18,
        }
    }
}

impl From<IndexFault> for GroupFault {
    ghost from_gives = { λ e r. r ≡ IndexOf e };

    fn from(e: IndexFault) -> GroupFault {
        GroupFault::Index(e)
    }
}
