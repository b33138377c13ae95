// The extension with two ids, and an extension's data as a place in the file.
ghost use Rattle.std.specs.Prelude.{◌≡◌};
ghost use Rattle.format.specs.Questions.{answer_numbers};
ghost use Rattle.format.specs.Refusals.{data_numbers};
ghost use Rattle.format.specs.Tables.{stated};
ghost use Rattle.extension_queries.specs.ById.{ask_entry};
ghost use Rattle.clpi_answers.specs.Numbers.{found_numbers, part_numbers};

use crate::table;
use clpi_answers::part::{ClpiPart, part_of};
use clpi_answers::{ClpiAnswer, answer_of};
use extension_entry::data_place;
use extension_queries::entry;

// The place of the data of a row of table 7, for any rows stated to be in it and any row number.
pub fn clpi_extension_data(file: &[u8], extensions: &[u8], rows: u32, row: u32) -> ClpiPart
    ensures { part_numbers result ≡ data_numbers file.now (stated extensions.now rows) row }
{
    let extensions = table(extensions, rows);
    part_of(data_place(file, extensions, row))
}

// The row of the first extension with two ids.
pub fn clpi_extension_entry(extensions: &[u8], rows: u32, id1: u16, id2: u16) -> ClpiAnswer
    ensures { found_numbers result ≡ answer_numbers (ask_entry (stated extensions.now rows) id1 id2) }
{
    let extensions = table(extensions, rows);
    answer_of(entry(extensions, id1, id2))
}
