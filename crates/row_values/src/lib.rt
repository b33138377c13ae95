// Rows of the sequences and programs by value: read from a table, and how many bytes each has in a file.
#![tactic(auto)]

ghost use Rattle.std.specs.Prelude.{◌≡◌, ◌+◌, ◌*◌, ◌≤◌, length};
ghost use Rattle.format.specs.Rewriting.{stream_bytes};
ghost use Rattle.format.specs.Tables.{cells_at};
ghost use Rattle.row_values.specs.Kinds.{cells_of, row_of, bytes_by, row5};

use cells::cell_at;
use stream_coding::is_video;

// Which table a row is of. A value and no type: one walk takes rows of any kind, and with a trait each walk above would be generic and say no less.
#[derive(Clone, Copy, Debug, PartialEq, Eq)]
pub enum RowKind {
    Atc,
    Stc,
    Program,
    Stream,
}

// The cells of a row; those that its kind has not are 0.
pub type Row = [u32; 5];

// How many cells a row has.
pub fn cells_of(kind: RowKind) -> usize
    ensures { result ≡ cells_of kind }
{
    match kind {
        RowKind::Atc => 3,
        RowKind::Stc => 4,
        RowKind::Program => 3,
        RowKind::Stream => 5,
    }
}

// The row of a table at byte p.
pub fn table_row(kind: RowKind, t: &[u8], p: usize) -> Row
    requires { p + 4 * cells_of kind ≤ length t.now }
    ensures { row_of kind result ≡ cells_at t.now (cells_of kind) p }
{
    let mut row = [0; 5];
    for k in 0..cells_of(kind) {
        row[k] = cell_at(t, p + 4 * k);
    }
    row
}

// The bytes of a stream: 3 and its body, of 3 bytes for video, of 2 with no language, else of 5.
fn stream_length(row: Row) -> usize
    ensures { result ≡ length (stream_bytes (row5 row)) }
{
    if is_video(row[1]) {
        6
    } else if row[4] == 0 {
        5
    } else {
        8
    }
}

// How many bytes a row has in a file.
pub fn row_length(kind: RowKind, row: Row) -> usize
    ensures { result ≡ length (bytes_by kind (row_of kind row)) }
{
    match kind {
        RowKind::Atc => 6,
        RowKind::Stc => 14,
        RowKind::Program => 8,
        RowKind::Stream => stream_length(row),
    }
}
