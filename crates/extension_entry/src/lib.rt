// The data of an extension: a row of a lent table 7 says where it stands in the lent file.
#![tactic(auto)]

ghost use Rattle.std.specs.Prelude.{◌≡◌};
ghost use Rattle.format.specs.Refusals.{data_refusal, data_asked};
ghost use Rattle.format.specs.Tables.{stated};
ghost use Rattle.extension_entry.specs.Part.{PartIs};

use refusals::Refusal;
use table_rows::Table;

// The cells of a row of table 7: two ids, where the data begins, its length.
const EXTENSION: usize = 4;

// Where the data of a row stands in the file.
#[derive(Clone, Copy)]
pub struct Part {
    pub start: usize,
    pub len: usize,
}

// Where the data of a row stands in the lent file, for a lent table 7, any rows stated to be in it and any row number.
pub fn data_place(file: &[u8], extensions: Table, row: u32) -> Result<Part, Refusal>
    ensures { PartIs file.now (stated extensions.entry.bytes.now extensions.entry.rows) row result }
{
    let extensions = extensions.all_rows::<EXTENSION>()?;
    if row >= extensions.count {
        return Err(Refusal::Rows);
    }
    let [_, _, start, len] = extensions.row(row);
    let (start, len) = (start as usize, len as usize);
    if start + len > file.len() {
        return Err(Refusal::Rows);
    }
    Ok(Part { start, len })
}

// The number of the refusal where the data of a row is refused, 22, else 0: a number, as the definition of this name is.
pub fn data_refusal(file: &[u8], extensions: Table, row: u32) -> u32
    ensures { result ≡ data_refusal file.now (stated extensions.entry.bytes.now extensions.entry.rows) row }
{
    match data_place(file, extensions, row) {
        Ok(_) => 0,
        Err(refusal) => refusal.number(),
    }
}

// The data of a row, a part of the lent file itself, as document 01 wants it; the empty part where it is refused, which `data_refusal` tells apart.
pub fn data<'a>(file: &'a [u8], extensions: Table, row: u32) -> &'a [u8]
    ensures { result.now ≡ data_asked file.now (stated extensions.entry.bytes.now extensions.entry.rows) row }
{
    let Ok(part) = data_place(file, extensions, row) else {
        return &file[0..0];
    };
    &file[part.start..part.start + part.len]
}
