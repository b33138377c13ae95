// Rows that all stand in the bytes of a table.
ghost use Rattle.std.specs.Prelude.{◌≡◌, ◌≤◌, ◌<◌, [], get_or, take};
ghost use Rattle.format.specs.Tables.{row_room};

use cells::cell_at;

// So many rows of so many cells: the bytes have room for them, and may reach beyond.
#[derive(Clone, Copy)]
pub struct Rows<'a, const CELLS: usize> {
    pub bytes: &'a [u8],
    pub count: u32,
    pub ghost inside: { count ≤ row_room CELLS bytes.now },
}

impl<'a, const CELLS: usize> Rows<'a, CELLS> {
    ghost use Rattle.table_rows.specs.AllRows.{rows_in};

    // One cell of a row.
    pub fn cell(self, row: u32, cell: usize) -> u32
        requires { (row < self.count) × (cell < CELLS) }
        ensures { result ≡ get_or (get_or (rows_in self.entry) row []) cell 0 }
    {
        cell_at(self.bytes, 4 * (CELLS * row as usize + cell))
    }

    // All cells of a row.
    pub fn row(self, row: u32) -> [u32; CELLS]
        requires { row < self.count }
        ensures { result ≡ get_or (rows_in self.entry) row [] }
    {
        let mut cells = [0; CELLS];
        for (k, cell) in cells.iter_mut().enumerate() {
            *cell = self.cell(row, k);
        }
        cells
    }

    // The first of them.
    pub fn front(self, count: u32) -> Rows<'a, CELLS>
        requires { count ≤ self.count }
        ensures { rows_in result ≡ take count (rows_in self.entry) }
    {
        Rows {
            bytes: self.bytes,
            count,
        }
    }
}
