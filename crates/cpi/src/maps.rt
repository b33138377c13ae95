// The maps of the entry index measured: the section's head, and each map's bounds.
ghost use Rattle.std.specs.Prelude.{◌≡◌, ◌≤◌, length};
ghost use Rattle.refusals.specs.Numbers.{numbered};
ghost use Rattle.cpi.specs.Maps.{cpi_head, map_rows_of, maps_measured, cpi_measured, HeaderIn, HeadersIn};

use common::reader::Reader;
use ep_rows::map_header;
use numbers::{be_at, u32_at};
use refusals::Refusal;

// The headers of a section's maps, all of them in the file, and where the section ends.
#[derive(Clone, Copy)]
struct Headers {
    count: usize,
    end: usize,
}

// The rows of both tables.
#[derive(Clone, Copy)]
pub struct CpiCounts {
    pub maps: usize,
    pub entries: usize,
}

// Reads the head of the section: its length, its type, its map count. None where the section has no maps.
fn read_head(file: &[u8], start: usize) -> Result<Option<Headers>, Refusal>
    requires { length file.now ≤ 536870912 }
    ensures { result ≡ cpi_head file.now start }
{
    if start == 0 {
        return Ok(None);
    }
    if file.len() <= start {
        return Ok(None);
    }
    let (len, body) = Reader { pos: start }.read::<4>(file).ok_or(Refusal::Cpi)?;
    let last = body.skip(file, len as usize).ok_or(Refusal::Cpi)?;
    if len < 2 {
        return Ok(None);
    }
    if u32_at::<2>(file, start + 4) % 16 != 1 {
        return Ok(None);
    }
    if len < 4 {
        return Ok(None);
    }
    let count = u32_at::<1>(file, start + 7) as usize;
    Reader { pos: start + 8 }
        .skip(file, 12 * count)
        .ok_or(Refusal::Cpi)?;
    Ok(Some(Headers {
        count,
        end: last.pos,
    }))
}

// The entries of the map whose header is at q: its address, coarse rows, fine address and fine rows are tested, in this order.
fn map_rows(file: &[u8], start: usize, end: usize, q: usize) -> Result<usize, Refusal>
    requires { HeaderIn file.now start end q }
    ensures { numbered result ≡ map_rows_of file.now start q }
{
    let header = map_header(be_at::<6>(file, q + 2));
    let body = start + 6 + u32_at::<4>(file, q + 8) as usize;
    if end <= body {
        return Err(Refusal::MapAddress);
    }
    if file.len() < body + 4 + 8 * (header.num_coarse as usize) {
        return Err(Refusal::MapBody);
    }
    let fine = body + u32_at::<4>(file, body) as usize;
    if end < fine {
        return Err(Refusal::FineAddress);
    }
    if file.len() < fine + 4 * (header.num_fine as usize) {
        return Err(Refusal::MapBody);
    }
    Ok(header.num_fine as usize)
}

// All maps, and all their entries; the first map that is refused ends it.
fn measure_maps(file: &[u8], start: usize, maps: Headers) -> Result<CpiCounts, Refusal>
    requires { HeadersIn file.now start maps.count maps.end }
    ensures { numbered result ≡ maps_measured file.now start }
{
    let mut entries: usize = 0;
    for k in 0..maps.count {
        entries += map_rows(file, start, maps.end, start + 8 + 12 * k)?;
    }
    Ok(CpiCounts {
        maps: maps.count,
        entries,
    })
}

// The rows that the section needs of both tables, or the refusal: its own, or that of the first map that has one. A file is lent as a slice everywhere: no type keeps the bound on its length, which two crates' passes alone need.
pub fn measure(file: &[u8], start: usize) -> Result<CpiCounts, Refusal>
    requires { length file.now ≤ 536870912 }
    ensures { numbered result ≡ cpi_measured file.now start }
{
    match read_head(file, start)? {
        Some(maps) => measure_maps(file, start, maps),
        None => Ok(CpiCounts {
            maps: 0,
            entries: 0,
        }),
    }
}
