// The listing's text, into an output that the caller lends: the lines of a record, and of a refusal.
#![tactic(auto)]

ghost use Rattle.std.specs.Prelude.{[], ◌∷◌, ◌+◌, ◌*◌, ◌^◌, ◌≤◌, ◌<◌, length};
ghost use Rattle.format.specs.Bytes.{flat, total};
ghost use Rattle.format.specs.ClipRecord.{entry_count, time, entry_cells, entry_size};
ghost use Rattle.format.specs.Tables.{table_rows_of, cells_at, map_cells};
ghost use Rattle.format.specs.Listing.{line, refused_word, ep_line, map_line, map_lines};
ghost use Rattle.text_lines.specs.Stored.{PutsIn};
ghost use Rattle.listing.specs.Text.{Shows, Listable, maps_from, entries_from, TimesFit, record_text, refusal_room};

use cells::cell_at;
use entry_rows::{CELLS, EntryRow, SIZE};
use table_rows::Table;
use table_rows::rows::Rows;
use text_lines::Text;

// The cells of a map's row, and its bytes.
const MAP: usize = 3;

const MAP_SIZE: usize = 12;

// The numbers of a record that its text shows beside its maps and entries.
#[derive(Clone, Copy)]
pub struct Numbers {
    pub stream_type: u32,
    pub application_type: u32,
    pub rate: u32,
    pub packets: u32,
    pub atcs: u32,
    pub stcs: u32,
    pub programs: u32,
    pub streams: u32,
    pub marks: u32,
}

// Adds the line of the entry whose row stands at `row`.
fn put_entry(text: &mut Text, entries: &[u8], row: usize)
    requires { (row + entry_size ≤ length entries.now) × (time (cells_at entries.now entry_cells row) < 2 ^ 32) × (text.old.len + 25 ≤ length text.old.out.now) }
    ensures { PutsIn 25 text.old (ep_line (cells_at entries.now entry_cells row)) text.new }
{
    let entry = EntryRow::at(entries, row);
    let time = entry.time as u32;
    text.put_line(b"ep", &[time, entry.packet]);
}

// Adds the lines of `count` entries from the row at `row`.
fn put_entries(text: &mut Text, entries: &[u8], row: usize, count: u32)
    requires { (row + entry_size * count ≤ length entries.now) × (text.old.len + 25 * count ≤ length text.old.out.now) × TimesFit entries.now row count }
    ensures { PutsIn (25 * count) text.old (flat ep_line (entries_from entries.now row count)) text.new }
{
    for k in 0..count {
        put_entry(text, entries, row + SIZE * k as usize);
    }
}

// Adds the line of the map whose row stands at `row`.
fn put_map(text: &mut Text, maps: &[u8], row: usize)
    requires { (row + 12 ≤ length maps.now) × (text.old.len + 37 ≤ length text.old.out.now) }
    ensures { PutsIn 37 text.old (map_line (cells_at maps.now map_cells row)) text.new }
{
    let pid = cell_at(maps, row);
    let kind = cell_at(maps, row + 4);
    let count = cell_at(maps, row + 8);
    text.put_line(b"map", &[pid, kind, count]);
}

// Adds each map's line with those of its own entries behind it.
fn put_maps(text: &mut Text, maps: Rows<MAP>, entries: Rows<CELLS>)
    requires { (total entry_count (maps_from maps.bytes.now 0 maps.count) ≤ entries.count) × (text.old.len + (37 * maps.count + 25 * entries.count) ≤ length text.old.out.now) × TimesFit entries.bytes.now 0 entries.count }
    ensures { PutsIn (37 * maps.entry.count + 25 * entries.entry.count) text.old (map_lines (maps_from maps.entry.bytes.now 0 maps.entry.count) (entries_from entries.entry.bytes.now 0 entries.entry.count)) text.new }
{
    let mut k = 0;
    for i in 0..maps.count {
        let row = MAP_SIZE * i as usize;
        let count = cell_at(maps.bytes, row + 8);
        put_map(text, maps.bytes, row);
        put_entries(text, entries.bytes, SIZE * k, count);
        k += count as usize;
    }
}

// Stores the text of a record with these numbers, maps and entries from the front, and answers its length.
pub fn put_record(numbers: Numbers, maps: Table, entries: Table, out: &mut [u8]) -> usize
    requires { Listable maps.bytes.now maps.rows entries.bytes.now entries.rows out.old }
    ensures { Shows out.old (record_text numbers (table_rows_of map_cells maps.entry.bytes.now maps.entry.rows) (table_rows_of entry_cells entries.entry.bytes.now entries.entry.rows)) result out.new }
{
    let mut text = Text { out, len: 0 };
    let Numbers {
        stream_type,
        application_type,
        rate,
        packets,
        ..
    } = numbers;
    text.put_line(b"clip", &[stream_type, application_type, rate, packets]);
    text.put_line(b"seq", &[numbers.atcs, numbers.stcs]);
    text.put_line(b"prog", &[numbers.programs, numbers.streams]);
    let maps = Rows {
        bytes: maps.bytes,
        count: maps.rows,
    };
    let entries = Rows {
        bytes: entries.bytes,
        count: entries.rows,
    };
    put_maps(&mut text, maps, entries);
    text.put_line(b"mark", &[numbers.marks]);
    text.len
}

// Stores the line of a refusal from the front, and answers its length. A number: it is only printed.
pub fn put_refusal(number: u32, out: &mut [u8]) -> usize
    requires { refusal_room ≤ length out.old }
    ensures { Shows out.old (line refused_word (number ∷ [])) result out.new }
{
    let mut text = Text { out, len: 0 };
    text.put_line(b"refused", &[number]);
    text.len
}

// Stores the line of 21 with the table that is too short, by the number that is printed, from the front, and answers its length.
pub fn put_too_short(table: u32, out: &mut [u8]) -> usize
    requires { refusal_room ≤ length out.old }
    ensures { Shows out.old (line refused_word (21 ∷ table ∷ [])) result out.new }
{
    let mut text = Text { out, len: 0 };
    text.put_line(b"refused", &[21, table]);
    text.len
}
