// Questions about the maps and their entries.
ghost use Rattle.std.specs.Prelude.{◌≡◌};
ghost use Rattle.format.specs.Questions.{answer_numbers, ask, entry_point_at_or_before, entry_point_after, indexed_span_90k, primary_video_ep_map, seek_spn, next_seek_spn, primary_seek_spn, primary_next_seek_spn, first_pts, last_pts, ep_map_by_kind, next_video_ep_map};
ghost use Rattle.format.specs.ClipRecord.{entry_cells};
ghost use Rattle.format.specs.Tables.{stated};
ghost use Rattle.queries.specs.Asked.{only_maps, maps_and_entries};
ghost use Rattle.table_rows.specs.OwnRows.{owned_rows, owned_numbers};
ghost use Rattle.clpi_answers.specs.Numbers.{found_numbers, rows_numbers};

use crate::table;
use clpi_answers::{ClpiAnswer, ClpiRows, answer_of, answer_of_90, rows_of};
use cpi_queries::{
    ep_map_by_kind, next_video_ep_map, primary_next_seek_spn, primary_seek_spn,
    primary_video_ep_map,
};
use ep_map_queries::entries::{
    entry_point_after, entry_point_at_or_before, next_seek_spn, seek_spn,
};
use ep_map_queries::own::entries_of_map;
use ep_map_times::{first_pts, indexed_span_90k, last_pts};
use ticks::Pts90;

// The entry of a map with the greatest time not above the one given.
pub fn clpi_entry_point_at_or_before(
    maps: &[u8],
    map_rows: u32,
    entries: &[u8],
    entry_rows: u32,
    map: u32,
    at_90k: u32,
) -> ClpiAnswer
    ensures { found_numbers result ≡ answer_numbers (ask (entry_point_at_or_before map (record { ticks = at_90k })) (maps_and_entries (stated maps.now map_rows) (stated entries.now entry_rows))) }
{
    let maps = table(maps, map_rows);
    let entries = table(entries, entry_rows);
    answer_of(entry_point_at_or_before(maps, entries, map, Pts90(at_90k)))
}

// The entry of a map with the least time above the one given.
pub fn clpi_entry_point_after(
    maps: &[u8],
    map_rows: u32,
    entries: &[u8],
    entry_rows: u32,
    map: u32,
    at_90k: u32,
) -> ClpiAnswer
    ensures { found_numbers result ≡ answer_numbers (ask (entry_point_after map (record { ticks = at_90k })) (maps_and_entries (stated maps.now map_rows) (stated entries.now entry_rows))) }
{
    let maps = table(maps, map_rows);
    let entries = table(entries, entry_rows);
    answer_of(entry_point_after(maps, entries, map, Pts90(at_90k)))
}

// The packet to read from for a time: that of the entry at or before it.
pub fn clpi_seek_spn(
    maps: &[u8],
    map_rows: u32,
    entries: &[u8],
    entry_rows: u32,
    map: u32,
    at_90k: u32,
) -> ClpiAnswer
    ensures { found_numbers result ≡ answer_numbers (ask (seek_spn map (record { ticks = at_90k })) (maps_and_entries (stated maps.now map_rows) (stated entries.now entry_rows))) }
{
    let maps = table(maps, map_rows);
    let entries = table(entries, entry_rows);
    answer_of(seek_spn(maps, entries, map, Pts90(at_90k)))
}

// The packet of the entry after a time.
pub fn clpi_next_seek_spn(
    maps: &[u8],
    map_rows: u32,
    entries: &[u8],
    entry_rows: u32,
    map: u32,
    at_90k: u32,
) -> ClpiAnswer
    ensures { found_numbers result ≡ answer_numbers (ask (next_seek_spn map (record { ticks = at_90k })) (maps_and_entries (stated maps.now map_rows) (stated entries.now entry_rows))) }
{
    let maps = table(maps, map_rows);
    let entries = table(entries, entry_rows);
    answer_of(next_seek_spn(maps, entries, map, Pts90(at_90k)))
}

// The time of the first entry of a map.
pub fn clpi_first_pts(
    maps: &[u8],
    map_rows: u32,
    entries: &[u8],
    entry_rows: u32,
    map: u32,
) -> ClpiAnswer
    ensures { found_numbers result ≡ answer_numbers (ask (first_pts map) (maps_and_entries (stated maps.now map_rows) (stated entries.now entry_rows))) }
{
    let maps = table(maps, map_rows);
    let entries = table(entries, entry_rows);
    answer_of_90(first_pts(maps, entries, map))
}

// The time of the last entry of a map.
pub fn clpi_last_pts(
    maps: &[u8],
    map_rows: u32,
    entries: &[u8],
    entry_rows: u32,
    map: u32,
) -> ClpiAnswer
    ensures { found_numbers result ≡ answer_numbers (ask (last_pts map) (maps_and_entries (stated maps.now map_rows) (stated entries.now entry_rows))) }
{
    let maps = table(maps, map_rows);
    let entries = table(entries, entry_rows);
    answer_of_90(last_pts(maps, entries, map))
}

// The last time of a map less its first.
pub fn clpi_indexed_span_90k(
    maps: &[u8],
    map_rows: u32,
    entries: &[u8],
    entry_rows: u32,
    map: u32,
) -> ClpiAnswer
    ensures { found_numbers result ≡ answer_numbers (ask (indexed_span_90k map) (maps_and_entries (stated maps.now map_rows) (stated entries.now entry_rows))) }
{
    let maps = table(maps, map_rows);
    let entries = table(entries, entry_rows);
    answer_of_90(indexed_span_90k(maps, entries, map))
}

// The entries of a map: the first and how many.
pub fn clpi_entries_of_map(
    maps: &[u8],
    map_rows: u32,
    entries: &[u8],
    entry_rows: u32,
    map: u32,
) -> ClpiRows
    ensures { rows_numbers result ≡ owned_numbers (owned_rows 2 entry_cells (stated maps.now map_rows) (stated entries.now entry_rows) map) }
{
    let maps = table(maps, map_rows);
    let entries = table(entries, entry_rows);
    rows_of(entries_of_map(maps, entries, map))
}

// The row of the primary map.
pub fn clpi_primary_video_ep_map(maps: &[u8], rows: u32) -> ClpiAnswer
    ensures { found_numbers result ≡ answer_numbers (ask primary_video_ep_map (only_maps (stated maps.now rows))) }
{
    let maps = table(maps, rows);
    answer_of(primary_video_ep_map(maps))
}

// The packet to read from for a time, by the primary map.
pub fn clpi_primary_seek_spn(
    maps: &[u8],
    map_rows: u32,
    entries: &[u8],
    entry_rows: u32,
    at_90k: u32,
) -> ClpiAnswer
    ensures { found_numbers result ≡ answer_numbers (ask (primary_seek_spn (record { ticks = at_90k })) (maps_and_entries (stated maps.now map_rows) (stated entries.now entry_rows))) }
{
    let maps = table(maps, map_rows);
    let entries = table(entries, entry_rows);
    answer_of(primary_seek_spn(maps, entries, Pts90(at_90k)))
}

// The packet of the entry after a time, by the primary map.
pub fn clpi_primary_next_seek_spn(
    maps: &[u8],
    map_rows: u32,
    entries: &[u8],
    entry_rows: u32,
    at_90k: u32,
) -> ClpiAnswer
    ensures { found_numbers result ≡ answer_numbers (ask (primary_next_seek_spn (record { ticks = at_90k })) (maps_and_entries (stated maps.now map_rows) (stated entries.now entry_rows))) }
{
    let maps = table(maps, map_rows);
    let entries = table(entries, entry_rows);
    answer_of(primary_next_seek_spn(maps, entries, Pts90(at_90k)))
}

// The row of the first map of a type.
pub fn clpi_ep_map_by_kind(maps: &[u8], rows: u32, kind: u8) -> ClpiAnswer
    ensures { found_numbers result ≡ answer_numbers (ask (ep_map_by_kind kind) (only_maps (stated maps.now rows))) }
{
    let maps = table(maps, rows);
    answer_of(ep_map_by_kind(maps, kind))
}

// The row of the first video map from a row on, by the low four bits of the type.
pub fn clpi_next_video_ep_map(maps: &[u8], rows: u32, from: u32) -> ClpiAnswer
    ensures { found_numbers result ≡ answer_numbers (ask (next_video_ep_map «from») (only_maps (stated maps.now rows))) }
{
    let maps = table(maps, rows);
    answer_of(next_video_ep_map(maps, from))
}
