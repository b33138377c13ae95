// Rows that belong to a row of another table: where they begin, and how many there are.
ghost use Rattle.std.specs.Prelude.{◌≡◌, ◌<◌, Ok, Err};
ghost use Rattle.format.specs.Bytes.{pick, total};
ghost use Rattle.format.specs.Tables.{stated};
ghost use Rattle.table_rows.specs.AllRows.{rows_in, all_told};
ghost use Rattle.table_rows.specs.OwnRows.{head_cells, HasCells, cell_in, is_counted, owned_of, owned_rows};

use crate::Table;
use crate::rows::Rows;
use refusals::Refusal;

// The cells of a row with a count: of an ATC, a program or a map.
const HEAD: usize = 3;

// The rows of one header row, by the first and their number.
#[derive(Clone, Copy)]
pub struct OwnRows {
    pub first: u64,
    pub count: u32,
}

// The counts of header rows, added up. No sum of 32-bit counts passes 64 bits.
fn count_rows(heads: Rows<HEAD>, cell: usize) -> u64
    requires { cell < head_cells }
    ensures { result ≡ total (cell_in «cell») (rows_in heads.entry) }
{
    let mut sum: u64 = 0;
    for k in 0..heads.count {
        sum += u64::from(heads.cell(k, cell));
    }
    sum
}

// The header rows, where the rows of both tables are there and the counts in one cell of the header rows add up to the other rows, each of so many cells; else refused.
pub fn counted<'a>(
    heads: Table<'a>,
    rows: Table,
    cell: usize,
    cells: usize,
) -> Result<Rows<'a, HEAD>, Refusal>
    requires { HasCells cell cells }
    ensures { all_told result ≡ pick (is_counted «cell» «cells» (stated heads.entry.bytes.now heads.entry.rows) (stated rows.entry.bytes.now rows.entry.rows)) (Ok (stated heads.entry.bytes.now heads.entry.rows)) (Err Refusal.Rows) }
{
    let heads = heads.all_rows::<HEAD>()?;
    if !rows.is_stated(cells) {
        return Err(Refusal::Rows);
    }
    if count_rows(heads, cell) != u64::from(rows.rows) {
        return Err(Refusal::Rows);
    }
    Ok(heads)
}

// Whether the rows are there and the counts of the header rows add up to them.
pub fn adds_up(heads: Table, rows: Table, cell: usize, cells: usize) -> bool
    requires { HasCells cell cells }
    ensures { result ≡ is_counted «cell» «cells» (stated heads.entry.bytes.now heads.entry.rows) (stated rows.entry.bytes.now rows.entry.rows) }
{
    counted(heads, rows, cell, cells).is_ok()
}

// The rows, each of so many cells, of a header row whose count stands in the cell that is given; refused where rows are not there, counts don't add up, or there is no such header row.
pub fn own_rows(
    heads: Table,
    rows: Table,
    head: u32,
    cell: usize,
    cells: usize,
) -> Result<OwnRows, Refusal>
    requires { HasCells cell cells }
    ensures { owned_of result ≡ owned_rows «cell» «cells» (stated heads.entry.bytes.now heads.entry.rows) (stated rows.entry.bytes.now rows.entry.rows) head }
{
    let heads = counted(heads, rows, cell, cells)?;
    if head >= heads.count {
        return Err(Refusal::Rows);
    }
    Ok(OwnRows {
        first: count_rows(heads.front(head), cell),
        count: heads.cell(head, cell),
    })
}
