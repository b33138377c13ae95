// The entries of one map in their table.
ghost use Rattle.std.specs.Prelude.{◌+◌, ◌*◌, ◌≤◌, ◌<◌, length};
ghost use Rattle.format.specs.ClipRecord.{entry_size};
ghost use Rattle.entry_rows.specs.Reads.{EntryIs, WordsAre};

use crate::{EntryRow, SIZE, Words};

// The entries of one map: so many rows, which all stand in the bytes of a table, from the byte of the first on. Not `table_rows::rows::Rows`: reading and rewriting stand on this crate and ask no questions, and an entry is read as a struct.
#[derive(Clone, Copy)]
pub struct MapEntries<'a> {
    pub bytes: &'a [u8],
    pub first: usize,
    pub count: usize,
    pub ghost inside: { first + entry_size * count ≤ length bytes.now },
}

impl<'a> MapEntries<'a> {
    // Entry k of the map.
    pub fn entry(self, k: usize) -> EntryRow
        requires { k < self.count }
        ensures { EntryIs self.entry.bytes.now (self.entry.first + entry_size * k) result }
    {
        EntryRow::at(self.bytes, self.first + SIZE * k)
    }

    // Its words.
    pub fn words(self, k: usize) -> Words
        requires { k < self.count }
        ensures { WordsAre self.entry.bytes.now (self.entry.first + entry_size * k) result }
    {
        Words::at(self.bytes, self.first + SIZE * k)
    }
}
