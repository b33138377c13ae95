// The maps by their types, and the primary map: by its type, else by its PID.
#![tactic(auto)]

ghost use Rattle.std.specs.Prelude.{◌≡◌, Ok, map};
ghost use Rattle.format.specs.ClipRecord.{map_pid};
ghost use Rattle.format.specs.Questions.{ask, better, primary_video_ep_map, ep_map_by_kind, next_video_ep_map, primary_seek_spn, primary_next_seek_spn};
ghost use Rattle.format.specs.Tables.{stated};
ghost use Rattle.queries.specs.Answers.{found_of};
ghost use Rattle.queries.specs.Asked.{only_maps, maps_and_entries};
ghost use Rattle.ticks.specs.Times.{as_pts};
ghost use Rattle.table_rows.specs.AllRows.{rows_in};
ghost use Rattle.ep_map_queries.specs.InMap.{primary_seek_question};
ghost use Rattle.cpi_queries.specs.PrimaryMap.{less_pid, as_best, least_pid, video_or_least};

use ep_map_queries::entries::seek;
use nearest::Side;
use queries::Found;
use refusals::Refusal;
use row_search::{first_row, has_kind, has_video_kind};
use table_rows::Table;
use table_rows::rows::Rows;
use ticks::Pts90;

// The cells of a map's row: PID, type, entry count.
const MAP: usize = 3;

// Those that have the PID and the type.
const PID: usize = 0;

const TYPE: usize = 1;

// The first map of a type, by its low four bits.
pub fn ep_map_by_kind(maps: Table, kind: u8) -> Found
    ensures { found_of result ≡ ask (ep_map_by_kind kind) (only_maps (stated maps.entry.bytes.now maps.entry.rows)) }
{
    let maps = maps.all_rows::<MAP>()?;
    let kind = u32::from(kind % 16);
    Ok(first_row(maps, 0, |row| has_kind(maps.cell(row, TYPE), kind)))
}

// The first video map from a row on, by the low four bits of the type.
pub fn next_video_ep_map(maps: Table, from: u32) -> Found
    ensures { found_of result ≡ ask (next_video_ep_map «from») (only_maps (stated maps.entry.bytes.now maps.entry.rows)) }
{
    let maps = maps.all_rows::<MAP>()?;
    Ok(first_row(maps, from, |row| has_video_kind(maps.cell(row, TYPE))))
}

// The row of a map, and its PID.
#[derive(Clone, Copy)]
struct PidRow {
    row: u32,
    pid: u32,
}

// The row with the least PID so far, or this row where its PID is less; the earlier among equals: one step of the definition's `better`, so no order of `PidRow`.
fn lesser(so_far: Option<PidRow>, row: u32, pid: u32) -> Option<PidRow>
    ensures { as_best result ≡ better less_pid row pid (as_best so_far) }
{
    match so_far {
        Some(least) if least.pid <= pid => so_far,
        _ => Some(PidRow { row, pid }),
    }
}

// The map with the least PID, the earliest among equals; none without maps. A `for`, which goes row by row as the definition does: `min_by_key` over the rows' numbers tells what it picks by a fold over the keys that it saw, from which the check doesn't find what this ensures.
fn least_pid(maps: Rows<MAP>) -> Option<u64>
    ensures { found_of (Ok result) ≡ least_pid (map map_pid (rows_in maps.entry)) }
{
    let mut least = None;
    for row in 0..maps.count {
        least = lesser(least, row, maps.cell(row, PID));
    }
    let least = least?;
    Some(u64::from(least.row))
}

// The first video map, else the one with the least PID.
fn video_or_least(maps: Table) -> Found
    ensures { found_of result ≡ video_or_least (stated maps.entry.bytes.now maps.entry.rows) }
{
    match next_video_ep_map(maps, 0)? {
        Some(row) => Ok(Some(row)),
        None => Ok(least_pid(maps.all_rows::<MAP>()?)),
    }
}

// The primary map: the first of type 8, else the first video map, else the one with the least PID.
pub fn primary_video_ep_map(maps: Table) -> Found
    ensures { found_of result ≡ ask primary_video_ep_map (only_maps (stated maps.entry.bytes.now maps.entry.rows)) }
{
    match ep_map_by_kind(maps, 8)? {
        Some(row) => Ok(Some(row)),
        None => video_or_least(maps),
    }
}

// The packet of the primary map's entry after a time, or at or before it; nothing without maps.
fn primary_seek(maps: Table, entries: Table, side: Side, at: Pts90) -> Found
    ensures { found_of result ≡ ask (primary_seek_question side at.0) (maps_and_entries (stated maps.entry.bytes.now maps.entry.rows) (stated entries.entry.bytes.now entries.entry.rows)) }
{
    match primary_video_ep_map(maps)? {
        Some(row) => seek(maps, entries, row as u32, side, at),
        None if entries.rows != 0 => Err(Refusal::Rows),
        None => Ok(None),
    }
}

// The packet to read from for a time, by the primary map.
pub fn primary_seek_spn(maps: Table, entries: Table, at: Pts90) -> Found
    ensures { found_of result ≡ ask (primary_seek_spn (as_pts at)) (maps_and_entries (stated maps.entry.bytes.now maps.entry.rows) (stated entries.entry.bytes.now entries.entry.rows)) }
{
    primary_seek(maps, entries, Side::AtOrBefore, at)
}

// The packet of the entry after a time, by the primary map.
pub fn primary_next_seek_spn(maps: Table, entries: Table, at: Pts90) -> Found
    ensures { found_of result ≡ ask (primary_next_seek_spn (as_pts at)) (maps_and_entries (stated maps.entry.bytes.now maps.entry.rows) (stated entries.entry.bytes.now entries.entry.rows)) }
{
    primary_seek(maps, entries, Side::After, at)
}
