// Entry points by their times, one scan each, for maps in any order: of table rows here, of records in `ep_entry_steps`, both by `nearest::nearest_row`.
ghost use Rattle.std.specs.Prelude.{◌≡◌, Ok};
ghost use Rattle.format.specs.Questions.{ask, entry_point_at_or_before, entry_point_after, seek_spn, next_seek_spn};
ghost use Rattle.format.specs.Tables.{stated};
ghost use Rattle.queries.specs.Answers.{found_of};
ghost use Rattle.queries.specs.Asked.{maps_and_entries};
ghost use Rattle.ticks.specs.Times.{as_pts};
ghost use Rattle.entry_rows.specs.Entries.{rows_in};
ghost use Rattle.nearest.specs.Nearest.{find_in, seek_in};
ghost use Rattle.ep_map_queries.specs.InMap.{find_question, seek_question};

use crate::own::map_entries;
use entry_rows::entries::MapEntries;
use nearest::{Side, nearest_row};
use queries::Found;
use table_rows::Table;
use ticks::Pts90;

// The entry after a time, or at or before it, of a map's own.
fn find_in(entries: MapEntries, side: Side, at: u64) -> Option<u64>
    ensures { found_of (Ok result) ≡ find_in side (rows_in entries.entry) at }
{
    nearest_row(entries.count, side, at, |k| entries.entry(k).time)
}

// The packet of that entry.
fn seek_in(entries: MapEntries, side: Side, at: u64) -> Option<u64>
    ensures { found_of (Ok result) ≡ seek_in side (rows_in entries.entry) at }
{
    let row = find_in(entries, side, at)?;
    Some(u64::from(entries.entry(row as usize).packet))
}

// The entry of a map after a time, or at or before it.
fn find(maps: Table, entries: Table, map: u32, side: Side, at: Pts90) -> Found
    ensures { found_of result ≡ ask (find_question side map at.0) (maps_and_entries (stated maps.entry.bytes.now maps.entry.rows) (stated entries.entry.bytes.now entries.entry.rows)) }
{
    let own = map_entries(maps, entries, map)?;
    Ok(find_in(own, side, u64::from(at.0)))
}

// The packet of that entry.
pub fn seek(maps: Table, entries: Table, map: u32, side: Side, at: Pts90) -> Found
    ensures { found_of result ≡ ask (seek_question side map at.0) (maps_and_entries (stated maps.entry.bytes.now maps.entry.rows) (stated entries.entry.bytes.now entries.entry.rows)) }
{
    let own = map_entries(maps, entries, map)?;
    Ok(seek_in(own, side, u64::from(at.0)))
}

// The entry with the greatest time not above the one given, the earliest among equals; row 0 if all are later; nothing in an empty map.
pub fn entry_point_at_or_before(maps: Table, entries: Table, map: u32, at: Pts90) -> Found
    ensures { found_of result ≡ ask (entry_point_at_or_before map (as_pts at)) (maps_and_entries (stated maps.entry.bytes.now maps.entry.rows) (stated entries.entry.bytes.now entries.entry.rows)) }
{
    find(maps, entries, map, Side::AtOrBefore, at)
}

// The entry with the least time above the one given, the earliest among equals, or nothing.
pub fn entry_point_after(maps: Table, entries: Table, map: u32, at: Pts90) -> Found
    ensures { found_of result ≡ ask (entry_point_after map (as_pts at)) (maps_and_entries (stated maps.entry.bytes.now maps.entry.rows) (stated entries.entry.bytes.now entries.entry.rows)) }
{
    find(maps, entries, map, Side::After, at)
}

// The packet to read from for a time: that of the entry at or before it; nothing in an empty map.
pub fn seek_spn(maps: Table, entries: Table, map: u32, at: Pts90) -> Found
    ensures { found_of result ≡ ask (seek_spn map (as_pts at)) (maps_and_entries (stated maps.entry.bytes.now maps.entry.rows) (stated entries.entry.bytes.now entries.entry.rows)) }
{
    seek(maps, entries, map, Side::AtOrBefore, at)
}

// The packet of the entry after a time, or nothing.
pub fn next_seek_spn(maps: Table, entries: Table, map: u32, at: Pts90) -> Found
    ensures { found_of result ≡ ask (next_seek_spn map (as_pts at)) (maps_and_entries (stated maps.entry.bytes.now maps.entry.rows) (stated entries.entry.bytes.now entries.entry.rows)) }
{
    seek(maps, entries, map, Side::After, at)
}
