// The nine lent tables: how many rows each needs, and the lowest that is too short.
#![tactic(auto)]

ghost use Rattle.std.specs.Prelude.{◌≡◌, ◌<◌};
ghost use Rattle.nine_tables.specs.Room.{room_in, room_of};

use entry_rows::SIZE;

// A number for each of tables 1 to 9.
#[derive(Clone, Copy)]
pub struct Rows {
    pub atcs: usize,
    pub stcs: usize,
    pub programs: usize,
    pub streams: usize,
    pub maps: usize,
    pub entries: usize,
    pub extensions: usize,
    pub list_programs: usize,
    pub list_streams: usize,
}

// A table that is too short, by its number in document 01, which C is told, and the rows it needs.
#[derive(Clone, Copy, Debug, PartialEq, Eq)]
pub struct TableShort {
    pub table: u32,
    pub rows: usize,
}

// One table: so many rows of `size` bytes have room in its bytes, or it is too short.
fn room(table: u32, size: usize, rows: usize, bytes: usize) -> Result<(), TableShort>
    requires { 0 < size }
    ensures { result ≡ room_in table size rows bytes }
{
    if bytes / size < rows {
        Err(TableShort { table, rows })
    } else {
        Ok(())
    }
}

// The rows needed of each table beside the bytes lent, lowest table first.
pub fn table_room(rows: Rows, bytes: Rows) -> Result<(), TableShort>
    ensures { result ≡ room_of rows bytes }
{
    room(1, 12, rows.atcs, bytes.atcs)?;
    room(2, 16, rows.stcs, bytes.stcs)?;
    room(3, 12, rows.programs, bytes.programs)?;
    room(4, 20, rows.streams, bytes.streams)?;
    room(5, 12, rows.maps, bytes.maps)?;
    room(6, SIZE, rows.entries, bytes.entries)?;
    room(7, 16, rows.extensions, bytes.extensions)?;
    room(8, 12, rows.list_programs, bytes.list_programs)?;
    room(9, 20, rows.list_streams, bytes.list_streams)
}
