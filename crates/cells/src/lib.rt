// Table cells: 32-bit numbers, lowest byte first.
#![tactic(auto)]

ghost use Rattle.std.specs.Prelude.{◌≡◌, ◌+◌, ◌*◌, ◌≤◌, length};
ghost use Rattle.std.proofs.lemmas.List.Edits.{sets};
ghost use Rattle.format.specs.Tables.{cell_bytes, row_bytes_of};
ghost use Rattle.cells.specs.Reads.{CellIs};

// The cell at `at`: one load.
pub fn cell_at(t: &[u8], at: usize) -> u32
    requires { at + 4 ≤ length t.now }
    ensures { CellIs t.now at result }
{
    u32::from_le_bytes([t[at], t[at + 1], t[at + 2], t[at + 3]])
}

// Stores the cell at `at`: one store.
pub fn put_cell(t: &mut [u8], at: usize, v: u32)
    requires { at + 4 ≤ length t.old }
    ensures { t.new ≡ sets t.old at (cell_bytes v) }
{
    t[at..at + 4].copy_from_slice(&v.to_le_bytes());
}

// Stores a row of cells from `at`.
pub fn put_row<const N: usize>(t: &mut [u8], at: usize, cells: [u32; N])
    requires { at + 4 * N ≤ length t.old }
    ensures { t.new ≡ sets t.old at (row_bytes_of cells.entry) }
{
    for (k, v) in cells.iter().enumerate() {
        put_cell(t, at + 4 * k, *v);
    }
}
