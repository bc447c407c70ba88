ghost use Rattle.std.specs.Prelude.{◌≡◌, ◌+◌, ◌≤◌, length};
ghost use Rattle.index.specs.Entries.{finishes};
ghost use Rattle.index.specs.Contents.{kind_in, meant};
ghost use Rattle.index.specs.Cursors.{cursor_of, remaining, Sound};
ghost use Rattle.index.specs.Writing.{replaced};
ghost use Rattle.player.specs.Shelves.{shelf, turned, tabled, laid, laid_all, FitsOne, Fits};

use crate::giving::Giving;
use crate::measuring::part_of;
use index::entry::{Content, IndexEntry};
use index::reader::IndexReader;
use playing::rows::Row;

/// Copies bytes into the output from a place on.
// `index` has the same line, privately: a public function would ask its callers for room.
fn put_bytes(output: &mut [u8], at: usize, bytes: &[u8])
    requires { at + length bytes.now ≤ length output.old }
    ensures { output.new ≡ replaced output.old at bytes.now }
{
    output[at..at + bytes.len()].copy_from_slice(bytes);
}

impl Giving {
    /// The numbers after an entry that names so many bytes.
    fn turned(self, content: Content, warned: u8, size: usize) -> Giving
        requires bytes { self.bytes + size ≤ 9223372036854775807 }
        requires rows { self.rows + finishes (kind_in content) ≤ 9223372036854775807 }
        requires open { self.length ≤ self.bytes }
        ensures { result ≡ turned self (kind_in content.entry) size warned }
    {
        let bytes = self.bytes + size;
        match content {
            Content::Total | Content::Mark | Content::Entire(_) => Giving {
                bytes,
                rows: self.rows + 1,
                ..self
            },
            Content::Start(_) => Giving {
                bytes,
                length: size,
                warned,
                ..self
            },
            Content::Middle(_) | Content::Last(_) => Giving {
                bytes,
                length: self.length + size,
                ..self
            },
            Content::Skip | Content::Unknown => Giving { bytes, ..self },
        }
    }

    /// Puts the row of what an entry finishes, if it finishes something.
    fn table(self, entry: IndexEntry, size: usize, rows: &mut [Row])
        requires rows { self.rows + finishes (kind_in entry.content) ≤ length rows.old }
        requires open { self.length ≤ self.bytes }
        ensures { rows.new ≡ tabled self (kind_in entry.entry.content) entry.entry.count size entry.entry.warned rows.old }
    {
        match entry.content {
            Content::Total => {
                rows[self.rows] = Row {
                    kind: 0,
                    place: self.bytes - self.length,
                    length: self.length,
                    warned: self.warned,
                };
            }
            Content::Mark => {
                rows[self.rows] = Row {
                    kind: if entry.count == 0 { 1 } else { 2 },
                    place: self.bytes,
                    length: 0,
                    warned: entry.warned,
                };
            }
            Content::Entire(_) => {
                rows[self.rows] = Row {
                    kind: 0,
                    place: self.bytes,
                    length: size,
                    warned: entry.warned,
                };
            }
            _ => {}
        }
    }

    /// Gives what an entry adds.
    fn take(&mut self, entry: IndexEntry, output: &mut [u8], rows: &mut [Row])
        requires { FitsOne (shelf self.old output.old rows.old) (meant entry) }
        ensures { shelf self.new output.new rows.new ≡ laid (shelf self.old output.old rows.old) (meant entry.entry) }
    {
        let bytes = part_of(entry.content);
        put_bytes(output, self.bytes, bytes);
        self.table(entry, bytes.len(), rows);
        *self = self.turned(entry.content, entry.warned, bytes.len());
    }

    /// Gives what the entries add that a reader has left.
    pub(crate) fn take_all(&mut self, reader: IndexReader, output: &mut [u8], rows: &mut [Row])
        requires sound { Sound (cursor_of reader) }
        requires fits { Fits (shelf self.old output.old rows.old) (remaining (cursor_of reader)) }
        ensures { shelf self.new output.new rows.new ≡ laid_all (shelf self.old output.old rows.old) (remaining (cursor_of reader.entry)) }
    {
        for entry in reader {
            self.take(entry, output, rows);
        }
    }
}
