// The first row of a table whose cells pass a test.
#![tactic(auto)]

ghost use Rattle.std.specs.Prelude.{◌≡◌, ℕ, Bool, List, ◌<◌, ◌≤◌, ◌+◌, ◌*◌, ◌%◌, eqb, length, drop, Ok};
ghost use Rattle.format.specs.ClipRecord.{Row};
ghost use Rattle.format.specs.Questions.{is_video_map};
ghost use Rattle.format.specs.Tables.{stated, cell_at};
ghost use Rattle.queries.specs.Answers.{found_of};
ghost use Rattle.table_rows.specs.AllRows.{rows_in};
ghost use Rattle.table_rows.specs.OwnRows.{cell_in};
ghost use Rattle.row_search.specs.FirstRow.{Computes, Decides, first_passing, ask_row};

use cells::cell_at;
use queries::Found;
use refusals::Refusal;
use stream_coding::is_video_map;
use table_rows::Table;
use table_rows::rows::Rows;

// Whether the low four bits of a map's type are the ones given.
pub fn has_kind(map_type: u32, kind: u32) -> bool
    ensures { result ≡ eqb (map_type % 16) kind }
{
    map_type % 16 == kind
}

// Whether the low four bits of a map's type are those of a video map.
pub fn has_video_kind(map_type: u32) -> bool
    ensures { result ≡ is_video_map (map_type % 16) }
{
    is_video_map(map_type % 16)
}

// The first row from one on that passes: by each test of a row's cells that the closure, told the row's number, computes.
pub fn first_row<const CELLS: usize, F: Fn(u32) -> bool>(
    rows: Rows<CELLS>,
    from: u32,
    passes: F,
) -> Option<u64>
    requires { (row : ℕ) → row < rows.count → F.pre passes row }
    ensures { (test : Row → Bool) → Computes (F.post passes) test (rows_in rows.entry) → found_of (Ok result) ≡ first_passing test «from» (drop «from» (rows_in rows.entry)) }
{
    first_of(rows.count, from, passes)
}

// The same of any rows, of which there are so many.
fn first_of<F: Fn(u32) -> bool>(count: u32, from: u32, passes: F) -> Option<u64>
    requires { (row : ℕ) → row < count → F.pre passes row }
    ensures { (test : Row → Bool) (rows : List Row) → length rows ≡ count → Computes (F.post passes) test rows → found_of (Ok result) ≡ first_passing test «from» (drop «from» rows) }
{
    for row in from..count {
        if passes(row) {
            return Some(u64::from(row));
        }
    }
    None
}

// The first row from one on, of a table's rows of so many cells, of which one cell passes: by each test of a number that the closure computes; refused where rows that are stated are not there.
pub fn first_row_by_cell<F: Fn(u32) -> bool>(
    table: Table,
    cells: usize,
    cell: usize,
    from: u32,
    passes: F,
) -> Found
    requires width { (cell < cells) × (cells ≤ 5) }
    requires calls { F.IsAlwaysCallable passes }
    ensures { (test : ℕ → Bool) → Decides (F.post passes) test → found_of result ≡ ask_row «cells» «from» (λ r. test (cell_in «cell» r)) (stated table.entry.bytes.now table.entry.rows) }
{
    if !table.is_stated(cells) {
        return Err(Refusal::Rows);
    }
    let bytes = table.bytes;
    let is_found = |row: u32|
        requires { (4 * (cells * row + cell) + 4 ≤ length bytes.now) × F.IsAlwaysCallable passes }
        ensures { F.post passes (cell_at bytes.entry.now (4 * (cells * row + cell))) result }
    { passes(cell_at(bytes, 4 * (cells * row as usize + cell))) };
    Ok(first_of(table.rows, from, is_found))
}
