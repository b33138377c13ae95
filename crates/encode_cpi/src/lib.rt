// The CPI section, made of tables 5 and 6: how long it is, and its bytes.
#![tactic(auto)]

ghost use Rattle.std.specs.Prelude.{◌≡◌, [], ◌∷◌, ◌++◌, ◌+◌, ◌*◌, ◌≤◌, length};
ghost use Rattle.std.proofs.lemmas.List.Edits.{sets};
ghost use Rattle.format.specs.Bytes.{field_bytes};
ghost use Rattle.format.specs.Rewriting.{headers, bodies, cpi_bytes_by};
ghost use Rattle.encode_cpi.specs.Cpi.{BothThere, Counted, map_rows_of, entry_rows_of, tested_of, MapsRoom, CpiRoom};

use cells::cell_at;
use encode_map::put_map;
use entry_rows::SIZE;
use entry_rows::entries::MapEntries;
use entry_runs::count_runs;
use map_rows::MAP;
use numbers::put_u32;
use refusals::Refusal;
use table_rows::Table;

// The most coarse rows that a map can count.
pub const MOST_RUNS: usize = 65535;

// The length of the section of these maps and entries, in the walk that tests whether every entry fits. An entry that does not is refused also behind a map with more runs than it can count, so such a map is only remembered.
pub fn cpi_length(maps: Table, entries: Table) -> Result<usize, Refusal>
    requires { BothThere maps.bytes.now maps.rows entries.bytes.now entries.rows × Counted (map_rows_of maps.bytes.now maps.rows) (entry_rows_of entries.bytes.now entries.rows) }
    ensures { result ≡ tested_of (map_rows_of maps.entry.bytes.now maps.entry.rows) (entry_rows_of entries.entry.bytes.now entries.entry.rows) }
{
    if maps.rows == 0 {
        return Ok(4);
    }
    let mut len = 8 + MAP * (maps.rows as usize);
    let mut few = true;
    let mut row: usize = 0;
    for k in 0..maps.rows as usize {
        let map_type = cell_at(maps.bytes, MAP * k + 4);
        let count = cell_at(maps.bytes, MAP * k + 8) as usize;
        let own = MapEntries {
            bytes: entries.bytes,
            first: SIZE * row,
            count,
        };
        let runs = count_runs(own, map_type).ok_or(Refusal::Cells)?;
        few &= runs <= MOST_RUNS;
        len += 4 + 8 * runs + 4 * count;
        row += count;
    }
    if few { Ok(len) } else { Err(Refusal::Runs) }
}

// The headers of the maps, and behind them the bodies, in the section that starts at `at` and ends at `end`: the last map first, since a body's end is known before its start.
fn put_maps(maps: Table, entries: Table, out: &mut [u8], at: usize, end: usize)
    requires { MapsRoom maps.bytes.now maps.rows entries.bytes.now entries.rows (length out.old) at end }
    ensures { out.new ≡ sets out.old (at + 8) (headers (map_rows_of maps.entry.bytes.now maps.entry.rows) (entry_rows_of entries.entry.bytes.now entries.entry.rows) (2 + 12 * maps.entry.rows) ++ bodies (map_rows_of maps.entry.bytes.now maps.entry.rows) (entry_rows_of entries.entry.bytes.now entries.entry.rows)) }
{
    let mut body = end;
    let mut row = entries.rows as usize;
    for k in (0..maps.rows as usize).rev() {
        let count = cell_at(maps.bytes, MAP * k + 8) as usize;
        row -= count;
        let own = MapEntries {
            bytes: entries.bytes,
            first: SIZE * row,
            count,
        };
        body = put_map(maps.bytes, k, own, out, at, body);
    }
}

// The section's first eight bytes from `at`: the length of what is behind the first four, type 1, a spare byte, the number of maps.
pub fn put_top(behind: u32, n: u32, out: &mut [u8], at: usize)
    requires { at + 8 ≤ length out.old }
    ensures { out.new ≡ sets out.old at (field_bytes (4 ∷ 2 ∷ 1 ∷ 1 ∷ []) (behind ∷ 1 ∷ 0 ∷ n ∷ [])) }
{
    put_u32::<4>(out, at, behind);
    put_u32::<2>(out, at + 4, 1);
    put_u32::<1>(out, at + 6, 0);
    put_u32::<1>(out, at + 7, n);
}

// The section of these maps and entries, which has `len` bytes, from `at`: without maps a length of 0 alone. Answers the place behind it.
pub fn put_cpi(maps: Table, entries: Table, len: usize, out: &mut [u8], at: usize) -> usize
    requires { CpiRoom maps.bytes.now maps.rows entries.bytes.now entries.rows len (length out.old) at }
    ensures value { result ≡ at + len }
    ensures out_after { out.new ≡ sets out.old at (cpi_bytes_by (map_rows_of maps.entry.bytes.now maps.entry.rows) (entry_rows_of entries.entry.bytes.now entries.entry.rows)) }
{
    if maps.rows == 0 {
        put_u32::<4>(out, at, 0);
        return at + 4;
    }
    put_top((len - 4) as u32, maps.rows, out, at);
    put_maps(maps, entries, out, at, at + len);
    at + len
}
