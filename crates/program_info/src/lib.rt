// Programs with their streams behind them: passed over, and put into tables.
#![tactic(auto)]

ghost use Rattle.std.specs.Prelude.{◌≡◌, ◌+◌, ◌*◌, ◌≤◌, length};
ghost use Rattle.std.proofs.lemmas.List.Edits.{sets};
ghost use Rattle.format.specs.Bytes.{rows_at, end_of};
ghost use Rattle.format.specs.Programs.{stream_at, next_stream, program_at, next_program};
ghost use Rattle.format.specs.Tables.{row_bytes_of, table_bytes};
ghost use Rattle.common.specs.Reader.{moved_to};

use cells::put_row;
use common::reader::{Reader, read_count};
use numbers::u32_at;
use stream_coding_info::put_stream;

// Past the stream at the reader and its body.
fn skip_stream(file: &[u8], r: Reader) -> Option<Reader>
    ensures { result ≡ moved_to file.now (next_stream file.now r.pos) }
{
    let (size, body) = read_count(file, r, 2)?;
    body.skip(file, size as usize)
}

// Past the n streams at the reader.
fn skip_streams(file: &[u8], r: Reader, n: usize) -> Option<Reader>
    requires { r.pos ≤ length file.now }
    ensures { result ≡ moved_to file.now (end_of (next_stream file.now) r.pos n) }
{
    let mut next = r;
    for _ in 0..n {
        next = skip_stream(file, next)?;
    }
    Some(next)
}

// Past the program at the reader and its streams.
pub fn skip_program(file: &[u8], r: Reader) -> Option<Reader>
    ensures { result ≡ moved_to file.now (next_program file.now r.pos) }
{
    let (num_streams, spare) = read_count(file, r, 6)?;
    let first = spare.skip(file, 1)?;
    skip_streams(file, first, num_streams as usize)
}

// The row of the program at p, from byte `at` of the table.
pub fn put_program(file: &[u8], p: usize, table: &mut [u8], at: usize)
    requires { (p + 8 ≤ length file.now) × (at + 12 ≤ length table.old) }
    ensures { table.new ≡ sets table.old at (row_bytes_of (program_at file.now p)) }
{
    put_row(
        table,
        at,
        [
            u32_at::<4>(file, p),
            u32_at::<2>(file, p + 4),
            u32_at::<1>(file, p + 6),
        ],
    );
}

// The rows of the n streams at p, from byte `at` of the table; answers where the streams end.
pub fn put_streams(file: &[u8], p: usize, n: usize, table: &mut [u8], at: usize) -> usize
    requires { (end_of (next_stream file.now) p n ≤ length file.now) × (at + 20 * n ≤ length table.old) }
    ensures value { result ≡ end_of (next_stream file.now) p n }
    ensures table_after { table.new ≡ sets table.old at (table_bytes (rows_at (stream_at file.now) (next_stream file.now) p n)) }
{
    let mut q = p;
    for k in 0..n {
        put_stream(file, q, table, at + 20 * k);
        q = q + 3 + u32_at::<1>(file, q + 2) as usize;
    }
    q
}
