// The entries of one map: where they begin in the table of entries, and how many there are.
ghost use Rattle.std.specs.Prelude.{◌≡◌};
ghost use Rattle.format.specs.Tables.{stated};
ghost use Rattle.table_rows.specs.OwnRows.{owned_of};
ghost use Rattle.ep_map_queries.specs.InMap.{owned_entries};
ghost use Rattle.ep_map_queries.specs.Rows.{rows_read, own_entries};

use entry_rows::entries::MapEntries;
use entry_rows::{CELLS, SIZE};
use refusals::Refusal;
use table_rows::Table;
use table_rows::own::{OwnRows, own_rows};

// The entries of a map, by the first and their number; refused where rows are not there, counts don't add up, or there is no such map.
pub fn entries_of_map(maps: Table, entries: Table, map: u32) -> Result<OwnRows, Refusal>
    ensures { owned_of result ≡ owned_entries (stated maps.entry.bytes.now maps.entry.rows) (stated entries.entry.bytes.now entries.entry.rows) map }
{
    own_rows(maps, entries, map, 2, CELLS)
}

// Those entries; refused as above.
pub fn map_entries<'a>(maps: Table, entries: Table<'a>, map: u32) -> Result<MapEntries<'a>, Refusal>
    ensures { rows_read result ≡ own_entries (stated maps.entry.bytes.now maps.entry.rows) (stated entries.entry.bytes.now entries.entry.rows) map }
{
    let own = entries_of_map(maps, entries, map)?;
    Ok(MapEntries {
        bytes: entries.bytes,
        first: SIZE * (own.first as usize),
        count: own.count as usize,
    })
}
