// What the questions share: lent tables with the rows stated to be in them, those rows where all are there, and the rows of a header row.
#![tactic(auto)]

pub mod own;
pub mod rows;

ghost use Rattle.std.specs.Prelude.{◌≡◌, ◌≤◌, ◌<◌};
ghost use Rattle.format.specs.ClipRecord.{entry_cells};
ghost use Rattle.format.specs.Tables.{is_stated, stated};

use refusals::Refusal;
use rows::Rows;

// A lent table and the rows stated to be in it: its bytes may reach beyond them, or end before.
#[derive(Clone, Copy)]
pub struct Table<'a> {
    pub bytes: &'a [u8],
    pub rows: u32,
}

impl<'a> Table<'a> {
    ghost use Rattle.table_rows.specs.AllRows.{all_told, all_stated};

    // Whether there is room for the rows that are stated, each of so many cells.
    pub fn is_stated(self, cells: usize) -> bool
        requires { (0 < cells) × (cells ≤ entry_cells) }
        ensures { result ≡ is_stated «cells» (stated self.entry.bytes.now self.entry.rows) }
    {
        (self.rows as usize) <= self.bytes.len() / (4 * cells)
    }

    // Its rows, each of so many cells, where all that are stated are there; refused where there is no room for them.
    pub fn all_rows<const CELLS: usize>(self) -> Result<Rows<'a, CELLS>, Refusal>
        requires { (0 < CELLS) × (CELLS ≤ entry_cells) }
        ensures { all_told result ≡ all_stated CELLS (stated self.entry.bytes.now self.entry.rows) }
    {
        if self.is_stated(CELLS) {
            Ok(Rows {
                bytes: self.bytes,
                count: self.rows,
            })
        } else {
            Err(Refusal::Rows)
        }
    }
}
