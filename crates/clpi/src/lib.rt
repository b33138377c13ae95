// The calls of the C interface, on numbers and byte slices; `clpi_c` exports them, and include/clpi.h declares them.
#![tactic(auto)]

pub mod clips;
pub mod extension_data;
pub mod maps;
pub mod programs;
pub mod read;
pub mod sequences;
pub mod version;
pub mod writing;

ghost use Rattle.std.specs.Prelude.{◌≡◌};

use table_rows::Table;

// A lent table with the rows that are stated to be in it.
fn table(bytes: &[u8], rows: u32) -> Table<'_>
    ensures bytes_are { result.bytes.now ≡ bytes.now }
    ensures rows_are { result.rows ≡ rows }
{
    Table { bytes, rows }
}
