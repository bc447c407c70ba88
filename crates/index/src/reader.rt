ghost use Rattle.std.specs.Prelude.{◌≡◌, true, false, length, take, drop, if◌then◌else◌, MatchOption, ◌≢◌};
ghost use Rattle.std.specs.Iterator.{at_most};
ghost use Rattle.index.specs.Cursors.{cursor_of, started, started_with, ReadsNext};

use crate::entry::{Content, IndexEntry, Part, take_entry};
use crate::kind::Kind;
use crate::table::u16_at;

/// The bytes of a group.
pub const GROUP_BYTES: usize = 126632;

/// The place of a group's table.
pub const TABLE: usize = 126600;

/// The place of the number of entries in a group's table.
const ENTRY_COUNT: usize = 126602;

/// Goes through the entries of a group's index from the first on.
#[derive(Clone, Copy)]
pub struct IndexReader<'a> {
    group: &'a [u8],
    index: &'a [u8],
    left: u16,
    place: usize,
}

/// The next bytes of a group from a place on, as many as are wanted and there.
fn part_at<'a>(group: &'a [u8], place: usize, count: u32) -> &'a [u8]
    ensures { result.now ≡ take count (drop place group.now) }
{
    if place >= group.len() {
        return &[];
    }
    let rest = &group[place..];
    let count = count as usize;
    if count < rest.len() {
        &rest[0..count]
    } else {
        rest
    }
}

impl<'a> IndexReader<'a> {
    /// A reader at the first entry; none where the group does not have 126,632 bytes.
    pub fn new(group: &'a [u8]) -> Option<IndexReader<'a>>
        ensures { MatchOption result (length group.now ≢ 126632) (λ x. (length group.now ≡ 126632) × (cursor_of x ≡ started group.now)) }
    {
        let group = group.as_array()?;
        Some(IndexReader::over(group, u16_at(group, ENTRY_COUNT)))
    }

    /// A reader at the first of so many entries.
    pub(crate) fn over(group: &'a [u8; GROUP_BYTES], left: u16) -> IndexReader<'a>
        ensures { cursor_of result ≡ started_with left group.now }
    {
        IndexReader {
            group,
            index: &group[0..TABLE],
            left,
            place: 0,
        }
    }

    /// How many entries are left.
    pub fn left(&self) -> u16
        ensures { result ≡ self.now.left }
    {
        self.left
    }
}

impl<'a> Iterator for IndexReader<'a> {
    type Item = IndexEntry<'a>;

    ghost next_gives = { ReadsNext };

    ghost remaining = { λ reader. at_most reader.left };

    /// The next entry with the part that it names, or none behind the last.
    fn next(&mut self) -> Option<IndexEntry<'a>> {
        if self.left == 0 {
            return None;
        }
        let (flag, count, rest) = take_entry(self.index)?;
        let warned = flag / 8 % 2;
        let kind = Kind::from(flag - 8 * warned);
        let bytes = part_at(self.group, self.place, count);
        let content = Content::new(
            kind,
            Part {
                place: self.place,
                bytes,
            },
        );
        self.index = rest;
        self.left -= 1;
        self.place += content.length();
        Some(IndexEntry {
            warned,
            count,
            content,
        })
    }
}
