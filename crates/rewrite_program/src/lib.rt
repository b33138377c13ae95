// A program of the new file with its streams, straight from the old one: where it ends, and its bytes.
#![tactic(auto)]

ghost use Rattle.std.specs.Prelude.{◌≡◌, ◌+◌, ◌^◌, ◌<◌, ◌≤◌, length};
ghost use Rattle.std.proofs.lemmas.List.Edits.{sets};
ghost use Rattle.format.specs.Bytes.{end_of};
ghost use Rattle.format.specs.Programs.{stream_at, next_stream, program_at, next_program};
ghost use Rattle.row_values.specs.Kinds.{row3, row5};
ghost use Rattle.rewrite_program.specs.Programs.{new_streams, streams_behind, new_program, program_behind};

use numbers::u32_at;
use row_bytes::put_row;
use row_values::{Row, RowKind, row_length};
use stream_coding_info::stream_at;

// A place in the old file and the place in the new one of the same thing: a walk goes on in both. `encode_measure::Places` has places in the new file alone.
#[derive(Clone, Copy)]
pub struct Places {
    pub file: usize,
    pub out: usize,
}

// The stream at p as a row by value.
fn stream_row(file: &[u8], p: usize) -> Row
    requires { next_stream file.now p ≤ length file.now }
    ensures { row5 result ≡ stream_at file.now p }
{
    let s = stream_at(file, p);
    [
        s.pid,
        s.stream_coding_type,
        s.format_info_byte,
        s.aspect_ratio_nibble,
        s.language_code,
    ]
}

// Where the stream behind the one at p stands.
fn next_stream(file: &[u8], p: usize) -> usize
    requires { next_stream file.now p ≤ length file.now }
    ensures { result ≡ next_stream file.now p }
{
    p + 3 + u32_at::<1>(file, p + 2) as usize
}

// Where the n streams end that begin at these places: in the file, and in an output that has their new bytes.
// A loop of its own beside that of `put_streams`: one walk for both would take a trait of sinks and its laws for these two lines.
fn measure_streams(file: &[u8], n: usize, from: Places) -> Places
    requires { (end_of (next_stream file.now) from.file n ≤ length file.now) × (from.out + length (new_streams file.now from.file n) < 2 ^ 32) }
    ensures { result ≡ streams_behind file.now from.file n from.out }
{
    let mut to = from;
    for _ in 0..n {
        to.out += row_length(RowKind::Stream, stream_row(file, to.file));
        to.file = next_stream(file, to.file);
    }
    to
}

// Where the program ends with its streams that begins at these places, in the same way.
pub fn measure_program(file: &[u8], from: Places) -> Places
    requires { (next_program file.now from.file ≤ length file.now) × (from.out + length (new_program file.now from.file) < 2 ^ 32) }
    ensures { result ≡ program_behind file.now from.file from.out }
{
    let num_streams = u32_at::<1>(file, from.file + 6) as usize;
    let streams = Places {
        file: from.file + 8,
        out: from.out + 8,
    };
    measure_streams(file, num_streams, streams)
}

// The program at p as a row by value.
fn program_row(file: &[u8], p: usize) -> Row
    requires { p + 8 ≤ length file.now }
    ensures { row3 result ≡ program_at file.now p }
{
    [
        u32_at::<4>(file, p),
        u32_at::<2>(file, p + 4),
        u32_at::<1>(file, p + 6),
        0,
        0,
    ]
}

// Stores the new bytes of the n streams that begin at these places; answers the places behind them.
fn put_streams(file: &[u8], n: usize, from: Places, out: &mut [u8]) -> Places
    requires { (end_of (next_stream file.now) from.file n ≤ length file.now) × (from.out + length (new_streams file.now from.file n) ≤ length out.old) }
    ensures value { result ≡ streams_behind file.now from.file n from.out }
    ensures out_after { out.new ≡ sets out.old from.out (new_streams file.now from.file n) }
{
    let mut to = from;
    for _ in 0..n {
        to.out = put_row(RowKind::Stream, stream_row(file, to.file), out, to.out);
        to.file = next_stream(file, to.file);
    }
    to
}

// Stores the new bytes of the program that begins at these places, and of its streams; answers the places behind them.
pub fn put_program(file: &[u8], from: Places, out: &mut [u8]) -> Places
    requires { (next_program file.now from.file ≤ length file.now) × (from.out + length (new_program file.now from.file) ≤ length out.old) }
    ensures value { result ≡ program_behind file.now from.file from.out }
    ensures out_after { out.new ≡ sets out.old from.out (new_program file.now from.file) }
{
    let row = program_row(file, from.file);
    let behind = put_row(RowKind::Program, row, out, from.out);
    let num_streams = u32_at::<1>(file, from.file + 6) as usize;
    let streams = Places {
        file: from.file + 8,
        out: behind,
    };
    put_streams(file, num_streams, streams, out)
}
