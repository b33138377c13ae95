// One map whose entries stand in a table, as bytes: its body of fine address, coarse rows and fine rows, and its header.
#![tactic(auto)]

ghost use Rattle.std.specs.Prelude.{◌≡◌, ◌++◌, ◌+◌, ◌*◌, ◌-◌, length};
ghost use Rattle.std.proofs.lemmas.List.Edits.{sets};
ghost use Rattle.format.specs.Bytes.{flat};
ghost use Rattle.format.specs.Rewriting.{coarse_rows, runs, coarse_bytes, fine_bytes, body_bytes, header_bytes};
ghost use Rattle.format.specs.Tables.{cells_at, map_cells};
ghost use Rattle.entry_rows.specs.Entries.{rows_in};
ghost use Rattle.encode_map.specs.Bodies.{own_by, CoarseRoom, RowsRoom, BodyRoom, MapRoom};

use cells::cell_at;
use entry_rows::EntryRow;
use entry_rows::entries::MapEntries;
use ep_rows::MapHeader;
use map_rows::{MAP, put_coarse_row, put_fine_row, put_header};
use numbers::put_u32;
use runs::same_run;

// The coarse row of entry k right below `to`; none where the entry is in the run of the entry before it. Answers the place of the row, or `to`.
fn put_coarse(k: usize, before: EntryRow, entry: EntryRow, out: &mut [u8], to: usize) -> usize
    requires { CoarseRoom k before entry (length out.old) to }
    ensures value { result + 8 * length (own_by k before entry) ≡ to }
    ensures out_after { out.new ≡ sets out.old result (flat coarse_bytes (own_by k before entry)) }
{
    if same_run(before, entry) {
        return to;
    }
    put_coarse_row(k as u32, entry, out, to - 8);
    to - 8
}

// The coarse and the fine rows of a map's entries, the fine rows from `fine` and the coarse rows below them. One walk from the last entry to the first: how many coarse rows there are is known at its end. Answers where the coarse rows start.
fn put_rows(entries: MapEntries, out: &mut [u8], fine: usize) -> usize
    requires { RowsRoom entries.bytes.now entries.first entries.count (length out.old) fine }
    ensures n_value { result + 8 * runs (rows_in entries.entry) ≡ fine }
    ensures out_after { out.new ≡ sets out.old result (flat coarse_bytes (coarse_rows (rows_in entries.entry)) ++ flat fine_bytes (rows_in entries.entry)) }
{
    let n = entries.count;
    if n == 0 {
        return fine;
    }
    let mut to = fine;
    let mut entry = entries.entry(n - 1);
    for k in (1..n).rev() {
        let before = entries.entry(k - 1);
        put_fine_row(entry, out, fine + 4 * k);
        to = put_coarse(k, before, entry, out, to);
        entry = before;
    }
    put_fine_row(entry, out, fine);
    put_coarse_row(0, entry, out, to - 8);
    to - 8
}

// The body of a map's entries, which ends at `end`. Answers where it starts.
fn put_body(entries: MapEntries, out: &mut [u8], end: usize) -> usize
    requires { BodyRoom entries.bytes.now entries.first entries.count (length out.old) end }
    ensures n_value { result + length (body_bytes (rows_in entries.entry)) ≡ end }
    ensures out_after { out.new ≡ sets out.old result (body_bytes (rows_in entries.entry)) }
{
    let fine = end - 4 * entries.count;
    let coarse = put_rows(entries, out, fine);
    put_u32::<4>(out, coarse - 4, (fine - coarse + 4) as u32);
    coarse - 4
}

// The map of row k of its table, with its entries: its body, which ends at `end`, and its header in the section that starts at `at`. Addresses count from six bytes behind that start. Answers where the body starts.
pub fn put_map(
    maps: &[u8],
    k: usize,
    entries: MapEntries,
    out: &mut [u8],
    at: usize,
    end: usize,
) -> usize
    requires { MapRoom maps.now k entries.bytes.now entries.first entries.count (length out.old) at end }
    ensures n_value { result + length (body_bytes (rows_in entries.entry)) ≡ end }
    ensures out_after { out.new ≡ sets (sets out.old result (body_bytes (rows_in entries.entry))) (at + 8 + 12 * k) (header_bytes (cells_at maps.now map_cells (12 * k)) (rows_in entries.entry) (result - (at + 6))) }
{
    let row = MAP * k;
    let pid = cell_at(maps, row);
    let kind = cell_at(maps, row + 4);
    let body = put_body(entries, out, end);
    let address = (body - (at + 6)) as u32;
    let runs = (end - 4 * entries.count - body - 4) / 8;
    let header = MapHeader {
        ep_stream_type: kind,
        num_coarse: runs as u32,
        num_fine: entries.count as u32,
    };
    put_header(pid, header, address, out, at + 8 + row);
    body
}
