// Questions about the times of a map's entries: the first, the last, and the span.
#![tactic(auto)]

ghost use Rattle.std.specs.Prelude.{◌≡◌, ◌<◌, Ok, [], get_or};
ghost use Rattle.format.specs.ClipRecord.{entry_time};
ghost use Rattle.format.specs.Questions.{ask, indexed_span_90k, span_of, first_pts, last_pts, first_time, last_time};
ghost use Rattle.format.specs.Tables.{stated};
ghost use Rattle.ticks.specs.Times.{as90};
ghost use Rattle.queries.specs.Answers.{time90_of};
ghost use Rattle.queries.specs.Asked.{maps_and_entries};
ghost use Rattle.entry_rows.specs.Entries.{rows_in};

use entry_rows::entries::MapEntries;
use ep_map_queries::own::map_entries;
use queries::Time90;
use table_rows::Table;
use ticks::Ticks90;

// The time of entry k of a map.
fn time_of(entries: MapEntries, k: usize) -> Ticks90
    requires { k < entries.count }
    ensures { as90 result ≡ entry_time (get_or (rows_in entries.entry) k []) }
{
    Ticks90(entries.entry(k).time)
}

// The time of the first entry; nothing without any.
fn first_time(entries: MapEntries) -> Option<Ticks90>
    ensures { time90_of (Ok result) ≡ first_time (rows_in entries.entry) }
{
    if entries.count == 0 {
        return None;
    }
    Some(time_of(entries, 0))
}

// The time of the last entry; nothing without any.
fn last_time(entries: MapEntries) -> Option<Ticks90>
    ensures { time90_of (Ok result) ≡ last_time (rows_in entries.entry) }
{
    let last = entries.count.checked_sub(1)?;
    Some(time_of(entries, last))
}

// The last time of some entries less the first, not below 0; 0 without any.
fn span(entries: MapEntries) -> Ticks90
    ensures { as90 result ≡ span_of (rows_in entries.entry) }
{
    match last_time(entries) {
        Some(last) => last.less(time_of(entries, 0)),
        None => Ticks90(0),
    }
}

// The span of a map: its last time less its first.
pub fn indexed_span_90k(maps: Table, entries: Table, map: u32) -> Time90
    ensures { time90_of result ≡ ask (indexed_span_90k map) (maps_and_entries (stated maps.entry.bytes.now maps.entry.rows) (stated entries.entry.bytes.now entries.entry.rows)) }
{
    let own = map_entries(maps, entries, map)?;
    Ok(Some(span(own)))
}

// The time of a map's first entry; nothing in an empty map.
pub fn first_pts(maps: Table, entries: Table, map: u32) -> Time90
    ensures { time90_of result ≡ ask (first_pts map) (maps_and_entries (stated maps.entry.bytes.now maps.entry.rows) (stated entries.entry.bytes.now entries.entry.rows)) }
{
    let own = map_entries(maps, entries, map)?;
    Ok(first_time(own))
}

// The time of a map's last entry; nothing in an empty map.
pub fn last_pts(maps: Table, entries: Table, map: u32) -> Time90
    ensures { time90_of result ≡ ask (last_pts map) (maps_and_entries (stated maps.entry.bytes.now maps.entry.rows) (stated entries.entry.bytes.now entries.entry.rows)) }
{
    let own = map_entries(maps, entries, map)?;
    Ok(last_time(own))
}
