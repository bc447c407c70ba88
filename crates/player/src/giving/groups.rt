ghost use Rattle.std.specs.Prelude.{◌≡◌, ℕ, ◌≤◌, List, length, slice_index};
ghost use Rattle.index.specs.Bytes.{number, read_group};
ghost use Rattle.index.specs.Answers.{standing};
ghost use Rattle.index.specs.Walk.{Between, walk_group};
ghost use Rattle.playing.specs.declared.rows.Row.{Row as RowIn};
ghost use Rattle.player.specs.Standing.{Stands, Somewhere, Went};
ghost use Rattle.player.specs.Shelves.{shelf, Roomy, room_for, after_all};

use crate::giving::Giving;
use crate::measuring::measure;
use index::reader::IndexReader;
use index::walk::{Ending, Walk};
use layout::sizes::GROUP;
use playing::fault::GroupCause;
use playing::rows::Row;

impl Giving {
    /// Gives a group that was walked without a fault, if there is room for it.
    pub(crate) fn give(
        &mut self,
        group: &[u8; GROUP],
        output: &mut [u8],
        rows: &mut [Row],
    ) -> Result<(), GroupCause>
        requires few { number 2 126602 group.now ≤ 31650 }
        requires roomy { Roomy (shelf self.old output.old rows.old) (read_group group.now).entries }
        ensures answer { result ≡ room_for (shelf self.old output.old rows.old) (read_group group.now).entries }
        ensures given { shelf self.new output.new rows.new ≡ after_all (shelf self.old output.old rows.old) (read_group group.now).entries }
    {
        let Some(reader) = IndexReader::new(group) else {
            return Err(GroupCause::Output);
        };
        let (bytes, items) = measure(reader);
        if bytes > output.len() - self.bytes {
            return Err(GroupCause::Output);
        }
        if items > rows.len() - self.rows {
            return Err(GroupCause::Rows);
        }
        self.take_all(reader, output, rows);
        Ok(())
    }

    /// Walks the next group, and gives it if there is room for it.
    pub(crate) fn next(
        &mut self,
        walk: &mut Walk,
        group: &[u8; GROUP],
        output: &mut [u8],
        rows: &mut [Row],
    ) -> Result<Ending, GroupCause>
        requires { Somewhere walk.old (shelf self.old output.old rows.old) }
        ensures { (out : List ℕ) (old : List RowIn) (b : Between) → Stands out old b walk.old (shelf self.old output.old rows.old) → Went out old b (standing walk.old).0 (slice_index group.now 126616) walk.new (shelf self.new output.new rows.new) result (walk_group (standing walk.old).0 b (read_group group.now)) }
    {
        let ending = walk.group(group)?;
        self.give(group, output, rows)?;
        Ok(ending)
    }
}
