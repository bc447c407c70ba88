ghost use Rattle.std.specs.Prelude.{◌≡◌, ◌<◌, true, false, [], length, if◌then◌else◌, MatchOption};
ghost use Rattle.index.specs.Bytes.{named, EntryTaken};
ghost use Rattle.index.specs.Contents.{kind_in, bytes_in, place_in};

use crate::kind::Kind;

/// Bytes of a record in a group, and the place of the first.
#[derive(Clone, Copy)]
pub struct Part<'a> {
    pub place: usize,
    pub bytes: &'a [u8],
}

/// What an entry is; the parts of a record borrow the group's bytes.
#[derive(Clone, Copy)]
pub enum Content<'a> {
    Total,
    Mark,
    Middle(Part<'a>),
    Start(Part<'a>),
    Last(Part<'a>),
    Entire(Part<'a>),
    Skip,
    Unknown,
}

/// An entry: 1 after a warning and else 0, the count, and what it is.
// The warning is a number throughout: the flag of an entry adds 8 times it, and a call tests the one that it is given.
#[derive(Clone, Copy)]
pub struct IndexEntry<'a> {
    pub warned: u8,
    pub count: u32,
    pub content: Content<'a>,
}

impl<'a> Content<'a> {
    /// The content of an entry of a kind that names this part, if its kind names one.
    pub fn new(kind: Kind, part: Part<'a>) -> Content<'a>
        ensures kind { kind_in result ≡ kind }
        ensures bytes { bytes_in result ≡ (if named kind then part.entry.bytes.now else []) }
        ensures place { place_in result ≡ (if named kind then part.entry.place else 0) }
    {
        match kind {
            Kind::Total => Content::Total,
            Kind::Mark => Content::Mark,
            Kind::Middle => Content::Middle(part),
            Kind::Start => Content::Start(part),
            Kind::Last => Content::Last(part),
            Kind::Entire => Content::Entire(part),
            Kind::Skip => Content::Skip,
            Kind::Unknown => Content::Unknown,
        }
    }

    /// The kind of the entry.
    pub fn kind(self) -> Kind
        ensures { result ≡ kind_in self.entry }
    {
        match self {
            Content::Total => Kind::Total,
            Content::Mark => Kind::Mark,
            Content::Middle(_) => Kind::Middle,
            Content::Start(_) => Kind::Start,
            Content::Last(_) => Kind::Last,
            Content::Entire(_) => Kind::Entire,
            Content::Skip => Kind::Skip,
            Content::Unknown => Kind::Unknown,
        }
    }

    /// The part that the entry names, if it names one.
    pub fn part(self) -> Option<Part<'a>>
        ensures { MatchOption result (named (kind_in self.entry) ≡ false) (λ p. (named (kind_in self.entry) ≡ true) × (p.bytes.now ≡ bytes_in self.entry) × (p.place ≡ place_in self.entry)) }
    {
        match self {
            Content::Middle(part)
            | Content::Start(part)
            | Content::Last(part)
            | Content::Entire(part) => Some(part),
            _ => None,
        }
    }

    /// How many user bytes the entry names.
    pub fn length(self) -> usize
        ensures { result ≡ length (bytes_in self.entry) }
    {
        match self.part() {
            Some(part) => part.bytes.len(),
            None => 0,
        }
    }
}

/// The flag and the count of the last four bytes of an index, and the rest of it; none where it has fewer.
pub fn take_entry(index: &[u8]) -> Option<(u8, u32, &[u8])>
    ensures { MatchOption result (length index.now < 4) (λ x. EntryTaken index.now x.0 x.1 x.2.now) }
{
    let [rest @ .., flag, high, middle, low] = index else {
        return None;
    };
    let count = u32::from_be_bytes([0, *high, *middle, *low]);
    Some((*flag, count, rest))
}
