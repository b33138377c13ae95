// ATCs with their STCs behind them: passed over, and put into tables.
#![tactic(auto)]

ghost use Rattle.std.specs.Prelude.{◌≡◌, ◌+◌, ◌*◌, ◌≤◌, length};
ghost use Rattle.std.proofs.lemmas.List.Edits.{sets};
ghost use Rattle.format.specs.Bytes.{rows_at, end_of};
ghost use Rattle.format.specs.ClipRecord.{atc_at, stc_at, next_stc, next_atc};
ghost use Rattle.format.specs.Tables.{row_bytes_of, table_bytes};
ghost use Rattle.common.specs.Reader.{moved_to};

use cells::put_row;
use common::reader::{Reader, read_count};
use numbers::u32_at;

// Past the ATC at the reader and its STCs.
pub fn skip_atc(file: &[u8], r: Reader) -> Option<Reader>
    ensures { result ≡ moved_to file.now (next_atc file.now r.pos) }
{
    let (num_stc, behind) = read_count(file, r, 4)?;
    behind.skip(file, 1 + 14 * (num_stc as usize))
}

// The row of the ATC at p, from byte `at` of the table.
pub fn put_atc(file: &[u8], p: usize, table: &mut [u8], at: usize)
    requires { (p + 6 ≤ length file.now) × (at + 12 ≤ length table.old) }
    ensures { table.new ≡ sets table.old at (row_bytes_of (atc_at file.now p)) }
{
    put_row(
        table,
        at,
        [
            u32_at::<4>(file, p),
            u32_at::<1>(file, p + 4),
            u32_at::<1>(file, p + 5),
        ],
    );
}

// The row of the STC at p, from byte `at` of the table.
fn put_stc(file: &[u8], p: usize, table: &mut [u8], at: usize)
    requires { (p + 14 ≤ length file.now) × (at + 16 ≤ length table.old) }
    ensures { table.new ≡ sets table.old at (row_bytes_of (stc_at file.now p)) }
{
    put_row(
        table,
        at,
        [
            u32_at::<2>(file, p),
            u32_at::<4>(file, p + 2),
            u32_at::<4>(file, p + 6),
            u32_at::<4>(file, p + 10),
        ],
    );
}

// The rows of the n STCs at p, from byte `at` of the table; answers where the STCs end.
pub fn put_stcs(file: &[u8], p: usize, n: usize, table: &mut [u8], at: usize) -> usize
    requires { (end_of next_stc p n ≤ length file.now) × (at + 16 * n ≤ length table.old) }
    ensures value { result ≡ end_of next_stc p n }
    ensures table_after { table.new ≡ sets table.old at (table_bytes (rows_at (stc_at file.now) next_stc p n)) }
{
    for k in 0..n {
        put_stc(file, p + 14 * k, table, at + 16 * k);
    }
    p + 14 * n
}
