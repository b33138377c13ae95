// The entry index put into tables: a row for each map, and the rows of all their entries.
#![tactic(auto)]

ghost use Rattle.std.specs.Prelude.{◌≡◌, ◌+◌, ◌≤◌, length};
ghost use Rattle.std.proofs.lemmas.List.Edits.{sets};
ghost use Rattle.format.specs.EntryPoints.{map_at, entries_of, fine_count_at, maps_from, entries_from};
ghost use Rattle.format.specs.Tables.{row_bytes_of, table_bytes, overwritten};
ghost use Rattle.cpi_fill.specs.Fill.{OneMap, Fill};

use cells::put_row;
use entry_rows::SIZE;
use ep_entries::body::map_body;
use ep_entries::entries::{TableForm, put_entries};
use ep_rows::map_header;
use numbers::{be_at, u32_at};

// One map's row: PID, type, entry count.
fn put_map(file: &[u8], q: usize, table: &mut [u8], at: usize)
    requires { (q + 12 ≤ length file.now) × (at + 12 ≤ length table.old) }
    ensures { table.new ≡ sets table.old at (row_bytes_of (map_at file.now q)) }
{
    let header = map_header(be_at::<6>(file, q + 2));
    let pid = u32_at::<2>(file, q);
    put_row(table, at, [pid, header.ep_stream_type, header.num_fine]);
}

// One map's entries; the answer is how many.
fn put_map_entries(file: &[u8], start: usize, q: usize, table: &mut [u8], at: usize) -> usize
    requires { OneMap file.now start q (length table.old) at }
    ensures value { result ≡ fine_count_at file.now q }
    ensures table_after { table.new ≡ sets table.old at (table_bytes (entries_of file.now start q)) }
{
    let m = map_body(file, start, q);
    put_entries::<TableForm>(file, m, table, at);
    m.num_fine
}

// Puts the rows of the `count` maps and of all their entries into both tables.
pub fn fill(file: &[u8], start: usize, count: usize, maps: &mut [u8], entries: &mut [u8])
    requires { Fill file.now start count maps.old entries.old }
    ensures maps_after { maps.new ≡ overwritten (table_bytes (maps_from file.now start)) maps.old }
    ensures entries_after { entries.new ≡ overwritten (table_bytes (entries_from file.now start)) entries.old }
{
    let mut at: usize = 0;
    for k in 0..count {
        let q = start + 8 + 12 * k;
        put_map(file, q, maps, 12 * k);
        let n = put_map_entries(file, start, q, entries, at);
        at += SIZE * n;
    }
}
