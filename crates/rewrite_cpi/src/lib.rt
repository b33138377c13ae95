// The CPI section of a file made anew, map by map, straight from the file: how long it is, and its bytes.
#![tactic(auto)]

ghost use Rattle.std.specs.Prelude.{◌≡◌, ◌++◌, ◌+◌, ◌*◌, ◌-◌, length};
ghost use Rattle.std.proofs.lemmas.List.Edits.{sets};
ghost use Rattle.format.specs.EntryPoints.{map_at, entries_of, maps_from, entries_from};
ghost use Rattle.format.specs.Rewriting.{body_bytes, bodies, header_bytes, headers, cpi_bytes_by};
ghost use Rattle.encode_cpi.specs.Cpi.{cpi_length_of};
ghost use Rattle.ep_entries.specs.Body.{CpiSection};
ghost use Rattle.rewrite_cpi.specs.Cpi.{MapRoom, MapsRoom, CpiRoom};

use encode_cpi::{MOST_RUNS, put_top};
use ep_entries::body::map_body;
use ep_rows::MapHeader;
use map_rows::{MAP, put_header};
use map_runs::body::put_body;
use map_runs::walked::count_runs;
use numbers::{put_u32, u32_at};
use refusals::Refusal;
use rewrite_program::Places;

// The length of the new section of a file whose section starts at `start` and has `count` maps.
pub fn cpi_length(file: &[u8], start: usize, count: usize) -> Result<usize, Refusal>
    requires { CpiSection file.now start count }
    ensures { result ≡ cpi_length_of (maps_from file.now start) (entries_from file.now start) }
{
    if count == 0 {
        return Ok(4);
    }
    let mut len = 8 + MAP * count;
    for k in 0..count {
        let m = map_body(file, start, start + 8 + MAP * k);
        let runs = count_runs(file, m);
        if runs > MOST_RUNS {
            return Err(Refusal::Runs);
        }
        len += 4 + 8 * runs + 4 * m.num_fine;
    }
    Ok(len)
}

// Map k of the section: its body from `body`, and its header in the new section. Addresses count from six bytes behind that section's start. Answers the place behind the body.
fn put_map(file: &[u8], k: usize, from: Places, out: &mut [u8], body: usize) -> usize
    requires { MapRoom file.now from.file k (length out.old) from.out body }
    ensures value { result ≡ body + length (body_bytes (entries_of file.now from.file (from.file + 8 + 12 * k))) }
    ensures out_after { out.new ≡ sets (sets out.old body (body_bytes (entries_of file.now from.file (from.file + 8 + 12 * k)))) (from.out + 8 + 12 * k) (header_bytes (map_at file.now (from.file + 8 + 12 * k)) (entries_of file.now from.file (from.file + 8 + 12 * k)) (body - (from.out + 6))) }
{
    let q = from.file + 8 + MAP * k;
    let m = map_body(file, from.file, q);
    let pid = u32_at::<2>(file, q);
    let address = (body - (from.out + 6)) as u32;
    let runs = put_body(file, m, out, body);
    let header = MapHeader {
        ep_stream_type: m.kind,
        num_coarse: runs as u32,
        num_fine: m.num_fine as u32,
    };
    put_header(pid, header, address, out, from.out + 8 + MAP * k);
    body + 4 + 8 * runs + 4 * m.num_fine
}

// The headers of the section's maps, and behind them the bodies, in the new section. Answers the place behind them.
fn put_maps(file: &[u8], count: usize, from: Places, out: &mut [u8]) -> usize
    requires { MapsRoom file.now from.file count (length out.old) from.out }
    ensures value { result ≡ from.out + 8 + 12 * count + length (bodies (maps_from file.now from.file) (entries_from file.now from.file)) }
    ensures out_after { out.new ≡ sets out.old (from.out + 8) (headers (maps_from file.now from.file) (entries_from file.now from.file) (2 + 12 * count) ++ bodies (maps_from file.now from.file) (entries_from file.now from.file)) }
{
    let mut body = from.out + 8 + MAP * count;
    for k in 0..count {
        body = put_map(file, k, from, out, body);
    }
    body
}

// The new section of the one with `count` maps, `len` bytes long, at its place: without maps a length of 0 alone. Answers the place behind the section.
pub fn put_cpi(file: &[u8], from: Places, count: usize, len: usize, out: &mut [u8]) -> usize
    requires { CpiRoom file.now from.file count len (length out.old) from.out }
    ensures value { result ≡ from.out + len }
    ensures out_after { out.new ≡ sets out.old from.out (cpi_bytes_by (maps_from file.now from.file) (entries_from file.now from.file)) }
{
    if count == 0 {
        put_u32::<4>(out, from.out, 0);
        return from.out + 4;
    }
    put_top((len - 4) as u32, count as u32, out, from.out);
    put_maps(file, count, from, out)
}
