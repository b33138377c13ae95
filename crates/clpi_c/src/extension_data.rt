// The extension with two ids, and an extension's data as a place in the file.
ghost use Rattle.std.specs.Prelude.{◌≡◌};
ghost use Rattle.format.specs.Questions.{answer_numbers};
ghost use Rattle.format.specs.Refusals.{data_numbers};
ghost use Rattle.format.specs.Tables.{stated};
ghost use Rattle.extension_queries.specs.ById.{ask_entry};
ghost use Rattle.clpi_answers.specs.Numbers.{found_numbers, part_numbers};

use clpi_answers::ClpiAnswer;
use clpi_answers::part::ClpiPart;

// The place of the data of a row of table 7, for any rows stated to be in it and any row number.
#[unsafe(no_mangle)]
pub extern "C" fn clpi_extension_data(
    file: &[u8],
    extensions: &[u8],
    rows: u32,
    row: u32,
) -> ClpiPart
    ensures { part_numbers result ≡ data_numbers file.now (stated extensions.now rows) row }
{
    clpi::extension_data::clpi_extension_data(file, extensions, rows, row)
}

// The row of the first extension with two ids.
#[unsafe(no_mangle)]
pub extern "C" fn clpi_extension_entry(
    extensions: &[u8],
    rows: u32,
    id1: u16,
    id2: u16,
) -> ClpiAnswer
    ensures { found_numbers result ≡ answer_numbers (ask_entry (stated extensions.now rows) id1 id2) }
{
    clpi::extension_data::clpi_extension_entry(extensions, rows, id1, id2)
}
