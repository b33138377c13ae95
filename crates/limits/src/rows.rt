// Whether the cells of rows one behind the other fit.
ghost use Rattle.std.specs.Prelude.{◌≡◌, ◌+◌, ◌*◌, ◌≤◌, length};
ghost use Rattle.format.specs.Bytes.{every, rows_at};
ghost use Rattle.format.specs.Tables.{cells_at, row_room};
ghost use Rattle.row_limits.specs.Kinds.{table_cells, fits_by};

use row_limits::{TableKind, row_bytes, row_fits};
use table_rows::Table;

// Whether n rows of one kind fit, the first at p.
pub fn rows_fit(t: &[u8], p: usize, n: usize, kind: TableKind) -> bool
    requires { p + n * (4 * table_cells kind) ≤ length t.now }
    ensures { result ≡ every (fits_by kind) (rows_at (cells_at t.now (table_cells kind)) (λ q. q + 4 * table_cells kind) p n) }
{
    let size = row_bytes(kind);
    for k in 0..n {
        if !row_fits(t, p + size * k, kind) {
            return false;
        }
    }
    true
}

// A table whose rows, all of one kind, are there. Not `table_rows::rows::Rows`: a kind's cells are a value, and `Rows` has a constant.
#[derive(Clone, Copy)]
pub struct KindRows<'a> {
    pub kind: TableKind,
    pub table: Table<'a>,
    pub ghost there: { table.rows ≤ row_room (table_cells kind) table.bytes.now },
}

impl<'a> KindRows<'a> {
    ghost use Rattle.limits.specs.Rows.{rows_of_kind};

    // Whether every row fits.
    pub fn fit(self) -> bool
        ensures { result ≡ every (fits_by self.entry.kind) (rows_of_kind self.entry) }
    {
        rows_fit(self.table.bytes, 0, self.table.rows as usize, self.kind)
    }
}
