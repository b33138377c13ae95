// Rows of a table, of any kind, one behind the other: how many bytes they have in a file, and the bytes.
#![tactic(auto)]

ghost use Rattle.std.specs.Prelude.{◌≡◌, ◌+◌, ◌*◌, ◌≤◌, length};
ghost use Rattle.std.proofs.lemmas.List.Edits.{sets};
ghost use Rattle.format.specs.Bytes.{flat, end_of};
ghost use Rattle.format.specs.Tables.{table_rows_of, row_room};
ghost use Rattle.row_values.specs.Kinds.{cells_of, bytes_by};
ghost use Rattle.encode_rows.specs.Rows.{step_of, rows_bytes};

use row_bytes::put_row;
use row_values::{RowKind, cells_of, row_length, table_row};
use table_rows::Table;

// The bytes that a table's rows have in a file, at most 14 for each. That the rows are there is a clause, and no `limits::rows::KindRows`: that is of kinds whose rows have no bytes of their own, too.
pub fn rows_length(kind: RowKind, table: Table) -> usize
    requires { table.rows ≤ row_room (cells_of kind) table.bytes.now }
    ensures value { result ≡ length (flat (bytes_by kind) (table_rows_of (cells_of kind) table.entry.bytes.now table.entry.rows)) }
    ensures upper_bound { result ≤ 14 * table.entry.rows }
{
    let step = 4 * cells_of(kind);
    let mut sum: usize = 0;
    for k in 0..table.rows as usize {
        sum += row_length(kind, table_row(kind, table.bytes, step * k));
    }
    sum
}

// Stores n rows of a table, from byte p of it on; answers the place behind them. Not a `Table`: the rows of a group begin in the middle of theirs.
pub fn put_rows(kind: RowKind, t: &[u8], p: usize, n: u32, out: &mut [u8], at: usize) -> usize
    requires { (end_of (step_of kind) p n ≤ length t.now) × (at + length (rows_bytes kind t.now p n) ≤ length out.old) }
    ensures value { result ≡ at + length (rows_bytes kind t.now p n) }
    ensures out_after { out.new ≡ sets out.old at (rows_bytes kind t.now p n) }
{
    let step = 4 * cells_of(kind);
    let mut to = at;
    for k in 0..n as usize {
        to = put_row(kind, table_row(kind, t, p + step * k), out, to);
    }
    to
}
