// The extension with two ids.
#![tactic(auto)]

ghost use Rattle.std.specs.Prelude.{◌≡◌};
ghost use Rattle.format.specs.Tables.{stated};
ghost use Rattle.queries.specs.Answers.{found_of};
ghost use Rattle.extension_queries.specs.ById.{ask_entry};

use queries::Found;
use row_search::first_row;
use table_rows::Table;

// The cells of a row: two ids, where the data begins, and its length.
const EXTENSION: usize = 4;

// The row of the first extension with these ids.
pub fn entry(extensions: Table, id1: u16, id2: u16) -> Found
    ensures { found_of result ≡ ask_entry (stated extensions.entry.bytes.now extensions.entry.rows) id1 id2 }
{
    let extensions = extensions.all_rows::<EXTENSION>()?;
    let ids = (u32::from(id1), u32::from(id2));
    Ok(first_row(
        extensions,
        0,
        |row| (extensions.cell(row, 0), extensions.cell(row, 1)) == ids,
    ))
}
