ghost use Rattle.std.specs.Prelude.{◌≡◌, [], if◌then◌else◌};
ghost use Rattle.index.specs.Entries.{finishes};
ghost use Rattle.index.specs.Bytes.{named};
ghost use Rattle.index.specs.Contents.{kind_in, bytes_in};
ghost use Rattle.index.specs.Cursors.{cursor_of, remaining, Sound};
ghost use Rattle.player.specs.Shelves.{size_in, finished_in};

use index::entry::Content;
use index::reader::IndexReader;

/// The bytes that an entry names.
pub(crate) fn part_of<'a>(content: Content<'a>) -> &'a [u8]
    ensures { result.now ≡ (if named (kind_in content.entry) then bytes_in content.entry else []) }
{
    match content.part() {
        Some(part) => part.bytes,
        None => &[],
    }
}

/// 1 for an entry that finishes an item, else 0.
fn finished(content: Content) -> usize
    ensures { result ≡ finishes (kind_in content.entry) }
{
    match content {
        Content::Total | Content::Mark | Content::Entire(_) => 1,
        _ => 0,
    }
}

/// How many bytes the entries name that a reader has left, and how many items they finish.
// The reader's soundness is asked of callers: a reader may be made over any bytes.
pub(crate) fn measure(reader: IndexReader) -> (usize, usize)
    requires { Sound (cursor_of reader) }
    ensures bytes { result.0 ≡ size_in (remaining (cursor_of reader.entry)) }
    ensures rows { result.1 ≡ finished_in (remaining (cursor_of reader.entry)) }
{
    let mut bytes: usize = 0;
    let mut rows: usize = 0;
    for entry in reader {
        bytes += part_of(entry.content).len();
        rows += finished(entry.content);
    }
    (bytes, rows)
}
