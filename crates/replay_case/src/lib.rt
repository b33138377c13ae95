// One case of the sample: a file, and what the Rust answered for it.
#![tactic(auto)]

ghost use Rattle.std.specs.Prelude.{◌≡◌, ◌<◌, ◌≤◌, Some};
ghost use Rattle.format.specs.Extensions.{extension_of};
ghost use Rattle.format.specs.Refusals.{extension_row};
ghost use Rattle.format.specs.ClipRecord.{entry_cells};
ghost use Rattle.format.specs.Tables.{row_bytes_of, rows_of, extension_cells, stated};
ghost use Rattle.clpi_reading.specs.Numbers.{reading_numbers};
ghost use Rattle.replay_bytes.specs.Parts.{same_bytes, behind};
ghost use Rattle.replay_case.specs.Expected.{extension_bytes, expected};
ghost use Rattle.replay_case.specs.Places.{behind_rows, behind_streams, behind_lists, behind_file, extensions_bytes, DataInside};

use clpi::read::clpi_read;
use clpi_reading::ClpiReading;
use entry_rows::SIZE;
use replay_bytes::{pass, pass_numbers};
use table_rows::Table;

// The nine tables that a file was read into.
#[derive(Clone, Copy)]
struct Tables<'a> {
    atcs: &'a [u8],
    stcs: &'a [u8],
    programs: &'a [u8],
    streams: &'a [u8],
    maps: &'a [u8],
    entries: &'a [u8],
    extensions: &'a [u8],
    programs2: &'a [u8],
    streams2: &'a [u8],
}

// The place behind the answer's 22 numbers.
fn pass_reading(answer: &[u8], r: ClpiReading) -> Option<usize>
    ensures { result ≡ behind answer.now (Some 0) (row_bytes_of (reading_numbers r)) }
{
    let numbers = [
        r.refusal,
        r.table,
        r.rows_needed,
        r.letters,
        r.version,
        r.clip_stream_type,
        r.application_type,
        r.ts_recording_rate,
        r.number_of_source_packets,
        r.validity_flags,
        r.format_id,
        r.marks,
        r.atcs,
        r.stcs,
        r.programs,
        r.streams,
        r.maps,
        r.entries,
        r.extensions,
        r.list_programs,
        r.list_streams,
        r.has_list,
    ];
    pass_numbers(answer, &numbers)
}

// The place behind one extension: its ids, its length and its data. The table comes as a slice of its own: of one within a
// struct the proof doesn't learn that its items are bytes.
fn pass_extension(
    answer: &[u8],
    at: usize,
    file: &[u8],
    table: &[u8],
    rows: u32,
    row: u32,
) -> Option<usize>
    requires { (DataInside file.now (stated table.now rows)) × (row < rows) }
    ensures { result ≡ behind answer.now (Some at) (extension_bytes (extension_of file.now (extension_row (stated table.now rows) row))) }
{
    let from = 16 * row as usize;
    let ids = pass(answer, at, table, from, 8)?;
    let length = pass(answer, ids, table, from + 12, 4)?;
    let extensions = Table { bytes: table, rows };
    let data = extension_entry::data(file, extensions, row);
    pass(answer, length, data, 0, data.len())
}

// The place behind all extensions.
fn pass_extensions(answer: &[u8], at: usize, file: &[u8], table: &[u8], rows: u32) -> Option<usize>
    requires { DataInside file.now (stated table.now rows) }
    ensures { result ≡ behind answer.now (Some at) (extensions_bytes file.now (rows_of extension_cells (stated table.now rows))) }
{
    if at > answer.len() {
        return None;
    }
    let mut p = at;
    for row in 0..rows {
        p = pass_extension(answer, p, file, table, rows, row)?;
    }
    Some(p)
}

// The place behind so many rows, each of so many cells.
fn pass_rows(answer: &[u8], at: usize, cells: usize, table: &[u8], rows: u32) -> Option<usize>
    requires { «cells» ≤ entry_cells }
    ensures { result ≡ behind_rows answer.now (Some at) «cells» table.now rows }
{
    pass(answer, at, table, 0, 4 * cells * rows as usize)
}

// The place behind the numbers and tables 1 to 4.
fn pass_streams(answer: &[u8], r: ClpiReading, t: Tables) -> Option<usize>
    ensures { result ≡ behind_streams answer.now r t.entry.atcs.now t.entry.stcs.now t.entry.programs.now t.entry.streams.now }
{
    let p = pass_reading(answer, r)?;
    let p = pass_rows(answer, p, 3, t.atcs, r.atcs)?;
    let p = pass_rows(answer, p, 4, t.stcs, r.stcs)?;
    let p = pass_rows(answer, p, 3, t.programs, r.programs)?;
    pass_rows(answer, p, 5, t.streams, r.streams)
}

// The place behind tables 5, 6, 8 and 9.
fn pass_lists(answer: &[u8], at: usize, r: ClpiReading, t: Tables) -> Option<usize>
    ensures { result ≡ behind_lists answer.now (Some at) r t.entry.maps.now t.entry.entries.now t.entry.programs2.now t.entry.streams2.now }
{
    let p = pass_rows(answer, at, 3, t.maps, r.maps)?;
    let p = pass_rows(answer, p, SIZE / 4, t.entries, r.entries)?;
    let p = pass_rows(answer, p, 3, t.programs2, r.list_programs)?;
    pass_rows(answer, p, 5, t.streams2, r.list_streams)
}

// The place behind all that reading gave.
fn pass_file(answer: &[u8], file: &[u8], r: ClpiReading, t: Tables) -> Option<usize>
    requires { DataInside file.now (stated t.extensions.now r.extensions) }
    ensures { result ≡ behind_file answer.now file.now r t.entry.atcs.now t.entry.stcs.now t.entry.programs.now t.entry.streams.now t.entry.maps.now t.entry.entries.now t.entry.extensions.now t.entry.programs2.now t.entry.streams2.now }
{
    let p = pass_streams(answer, r, t)?;
    let p = pass_lists(answer, p, r, t)?;
    pass_extensions(answer, p, file, t.extensions, r.extensions)
}

// Whether the file is read as the Rust read it: refused where the answer is the number 1 alone, else accepted with these numbers, rows and data.
pub fn is_same(file: &[u8], answer: &[u8]) -> bool
    ensures { result ≡ same_bytes (expected file.now) answer.now }
{
    // Tables of a fixed size: there is no heap.
    let mut atcs = [0; 3072];
    let mut stcs = [0; 4096];
    let mut programs = [0; 3072];
    let mut streams = [0; 5120];
    let mut maps = [0; 3072];
    let mut entries = [0; 256 * SIZE];
    let mut extensions = [0; 4096];
    let mut programs2 = [0; 3072];
    let mut streams2 = [0; 5120];
    let r = clpi_read(
        file,
        &mut atcs,
        &mut stcs,
        &mut programs,
        &mut streams,
        &mut maps,
        &mut entries,
        &mut extensions,
        &mut programs2,
        &mut streams2,
    );
    if r.refusal != 0 {
        return pass_numbers(answer, &[1]) == Some(answer.len());
    }
    let tables = Tables {
        atcs: &atcs,
        stcs: &stcs,
        programs: &programs,
        streams: &streams,
        maps: &maps,
        entries: &entries,
        extensions: &extensions,
        programs2: &programs2,
        streams2: &streams2,
    };
    pass_file(answer, file, r, tables) == Some(answer.len())
}
