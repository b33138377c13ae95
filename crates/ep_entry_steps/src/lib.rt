// What is looked for in a lent row of `EpEntry` records: the nearest to a time, its packet, and the span. Lookups take records here and table rows in `ep_map_queries`: each form reads rows of its own, and both share the scan (`nearest::nearest_row`). A caller that goes through records itself has a step for one record, and what is answered at the end.
#![tactic(auto)]

ghost use Rattle.std.specs.Prelude.{◌≡◌, Ok};
ghost use Rattle.format.specs.ClipRecord.{time};
ghost use Rattle.format.specs.Questions.{answer_numbers, span_of};
ghost use Rattle.queries.specs.Answers.{found_of};
ghost use Rattle.ticks.specs.Times.{as90};
ghost use Rattle.clpi_answers.specs.Numbers.{found_numbers};
ghost use Rattle.nearest.specs.Nearest.{find_in, seek_in, closer_of, row_found};
ghost use Rattle.ep_entry_steps.specs.Records.{as_row, as_rows, no_entry};
ghost use Rattle.ep_entry_steps.specs.Lookups.{ends_of, last_row, span_between, row_or_packet};

use clpi_answers::{ClpiAnswer, answer_of};
use nearest::{Nearest, Side, found_row, look_at_time, nearest_row};
use ticks::Ticks90;

// An entry of a map.
#[repr(C)]
#[derive(Clone, Copy)]
pub struct EpEntry {
    pub is_angle_change_point: bool,
    pub i_end_position_offset: u8,
    pub pts_ep_start: u32,
    pub spn_ep_start: u32,
    pub ep_stream_type: u8,
}

// The entry after a time, or at or before it: its row.
pub fn find(rows: &[EpEntry], side: Side, at: u32) -> Option<u64>
    ensures { found_of (Ok result) ≡ find_in side (as_rows rows.now) at }
{
    nearest_row(
        rows.len(),
        side,
        u64::from(at),
        |k| u64::from(rows[k].pts_ep_start),
    )
}

// The packet of that entry.
pub fn seek(rows: &[EpEntry], side: Side, at: u32) -> Option<u64>
    ensures { found_of (Ok result) ≡ seek_in side (as_rows rows.now) at }
{
    let row = find(rows, side, at)?;
    let entry = rows.get(row as usize)?;
    Some(u64::from(entry.spn_ep_start))
}

// The first entry and the last; none without any.
fn ends(rows: &[EpEntry]) -> Option<(EpEntry, EpEntry)>
    ensures { result ≡ ends_of rows.now }
{
    let first = rows.first()?;
    let last = rows.last()?;
    Some((*first, *last))
}

// The last time less the first, not below 0.
pub fn between(first: EpEntry, last: EpEntry) -> Ticks90
    ensures { as90 result ≡ span_between (as_row first) (as_row last) }
{
    let start = Ticks90(u64::from(first.pts_ep_start));
    let end = Ticks90(u64::from(last.pts_ep_start));
    end.less(start)
}

// The span of the entries: the last time less the first, not below 0; 0 without entries.
pub fn span(rows: &[EpEntry]) -> Ticks90
    ensures { as90 result ≡ span_of (as_rows rows.now) }
{
    match ends(rows) {
        Some((first, last)) => between(first, last),
        None => Ticks90(0),
    }
}

// The nearest so far, or entry k where its time is nearer.
pub fn look_at(so_far: Nearest, k: usize, entry: EpEntry, side: Side, at: u32) -> Nearest
    ensures { result ≡ closer_of side at so_far k (time (as_row entry)) }
{
    let time = u64::from(entry.pts_ep_start);
    look_at_time(so_far, k, side, u64::from(at), time)
}

// The row that was found, or the packet of its entry.
fn row_or_packet(found: Option<u64>, entry: EpEntry, is_packet: bool) -> Option<u64>
    ensures { found_of (Ok result) ≡ row_or_packet is_packet (as_row entry) (found_of (Ok found)) }
{
    match found {
        Some(_) if is_packet => Some(u64::from(entry.spn_ep_start)),
        _ => found,
    }
}

// What is answered once all are looked at, with the entry that is nearest.
pub fn answer(
    nearest: Nearest,
    rows: usize,
    entry: EpEntry,
    side: Side,
    is_packet: bool,
) -> ClpiAnswer
    ensures { found_numbers result ≡ answer_numbers (row_or_packet is_packet (as_row entry) (row_found side rows nearest)) }
{
    let found = found_row(nearest, rows, side);
    answer_of(Ok(row_or_packet(found, entry, is_packet)))
}

// What stands past the end of a row.
pub fn no_entry() -> EpEntry
    ensures { result ≡ no_entry }
{
    EpEntry {
        is_angle_change_point: false,
        i_end_position_offset: 0,
        pts_ep_start: 0,
        spn_ep_start: 0,
        ep_stream_type: 0,
    }
}

// The last row of so many; 0 without any.
pub fn last_row(rows: usize) -> usize
    ensures { result ≡ last_row rows }
{
    if rows == 0 { 0 } else { rows - 1 }
}
