// Rows of the sequences and programs, given by value, stored as their bytes in a file.
#![tactic(auto)]

ghost use Rattle.std.specs.Prelude.{◌≡◌, [], ◌∷◌, ◌+◌, ◌≤◌, length, get_or};
ghost use Rattle.std.proofs.lemmas.List.Edits.{sets};
ghost use Rattle.format.specs.Bytes.{field_bytes};
ghost use Rattle.format.specs.Rewriting.{atc_bytes, stc_bytes, program_bytes, stream_bytes};
ghost use Rattle.row_values.specs.Kinds.{row_of, bytes_by, row3, row4, row5};

use numbers::put_u32;
use row_values::{Row, RowKind};
use stream_coding::is_video;

// Stores an ATC: packet, STC count, offset id.
fn put_atc(row: Row, out: &mut [u8], at: usize) -> usize
    requires { at + 6 ≤ length out.old }
    ensures value { result ≡ at + 6 }
    ensures out_after { out.new ≡ sets out.old at (atc_bytes (row3 row)) }
{
    put_u32::<4>(out, at, row[0]);
    put_u32::<1>(out, at + 4, row[1]);
    put_u32::<1>(out, at + 5, row[2]);
    at + 6
}

// Stores an STC: PID, packet, start, end.
fn put_stc(row: Row, out: &mut [u8], at: usize) -> usize
    requires { at + 14 ≤ length out.old }
    ensures value { result ≡ at + 14 }
    ensures out_after { out.new ≡ sets out.old at (stc_bytes (row4 row)) }
{
    put_u32::<2>(out, at, row[0]);
    put_u32::<4>(out, at + 2, row[1]);
    put_u32::<4>(out, at + 6, row[2]);
    put_u32::<4>(out, at + 10, row[3]);
    at + 14
}

// Stores a program: packet, PID, stream count, a spare byte.
fn put_program(row: Row, out: &mut [u8], at: usize) -> usize
    requires { at + 8 ≤ length out.old }
    ensures value { result ≡ at + 8 }
    ensures out_after { out.new ≡ sets out.old at (program_bytes (row3 row)) }
{
    put_u32::<4>(out, at, row[0]);
    put_u32::<2>(out, at + 4, row[1]);
    put_u32::<1>(out, at + 6, row[2]);
    put_u32::<1>(out, at + 7, 0);
    at + 8
}

// Stores what every stream begins with: PID, the body's length, coding type, format.
fn put_stream_head(row: Row, size: u32, out: &mut [u8], at: usize)
    requires { at + 5 ≤ length out.old }
    ensures { out.new ≡ sets out.old at (field_bytes (2 ∷ 1 ∷ 1 ∷ 1 ∷ []) (get_or row 0 0 ∷ size ∷ get_or row 1 0 ∷ get_or row 2 0 ∷ [])) }
{
    put_u32::<2>(out, at, row[0]);
    put_u32::<1>(out, at + 2, size);
    put_u32::<1>(out, at + 3, row[1]);
    put_u32::<1>(out, at + 4, row[2]);
}

// Stores a stream: video with its aspect in the high four bits, anything else with its language, if it has one.
fn put_stream(row: Row, out: &mut [u8], at: usize) -> usize
    requires { at + length (stream_bytes (row5 row)) ≤ length out.old }
    ensures value { result ≡ at + length (stream_bytes (row5 row)) }
    ensures out_after { out.new ≡ sets out.old at (stream_bytes (row5 row)) }
{
    if is_video(row[1]) {
        put_stream_head(row, 3, out, at);
        put_u32::<1>(out, at + 5, row[3] % 16 * 16);
        at + 6
    } else if row[4] == 0 {
        put_stream_head(row, 2, out, at);
        at + 5
    } else {
        put_stream_head(row, 5, out, at);
        put_u32::<1>(out, at + 5, row[4] / 65536);
        put_u32::<2>(out, at + 6, row[4]);
        at + 8
    }
}

// Stores a row from `at` on; answers the place behind it.
pub fn put_row(kind: RowKind, row: Row, out: &mut [u8], at: usize) -> usize
    requires { at + length (bytes_by kind (row_of kind row)) ≤ length out.old }
    ensures value { result ≡ at + length (bytes_by kind (row_of kind row)) }
    ensures out_after { out.new ≡ sets out.old at (bytes_by kind (row_of kind row)) }
{
    match kind {
        RowKind::Atc => put_atc(row, out, at),
        RowKind::Stc => put_stc(row, out, at),
        RowKind::Program => put_program(row, out, at),
        RowKind::Stream => put_stream(row, out, at),
    }
}
