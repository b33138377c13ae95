// Whether the cells of one row fit their fields. A field of 32 bits holds any cell, so its cell isn't tested.
#![tactic(auto)]

ghost use Rattle.std.specs.Prelude.{◌≡◌, ◌+◌, ◌*◌, ◌/◌, ◌%◌, ◌≤◌, [], ◌∷◌, length, ltb, eqb};
ghost use Rattle.format.specs.Bytes.{both};
ghost use Rattle.format.specs.ClipRecord.{entry_cells, entry_size};
ghost use Rattle.format.specs.Refusals.{atc_fits, stc_fits, program_fits, stream_fits, map_fits, entry_fits};
ghost use Rattle.format.specs.Tables.{cells_at, atc_cells, stc_cells, program_cells, stream_cells, map_cells};
ghost use Rattle.entry_rows.specs.Reads.{row_of};
ghost use Rattle.row_limits.specs.Kinds.{table_cells, fits_by};

use cells::cell_at;
use entry_rows::{EntryRow, SIZE};
use row_values::{RowKind, cells_of};
use stream_coding::is_video;

// Which table a row is of: one of the sequences and programs, whose rows are also taken by value, that of the maps, or that of the entries; an entry with the type of its map. A value and no type: one walk tests rows of any kind.
#[derive(Clone, Copy, Debug, PartialEq, Eq)]
pub enum TableKind {
    Info(RowKind),
    Map,
    Entry(u32),
}

// The bytes of a row.
pub fn row_bytes(kind: TableKind) -> usize
    ensures { result ≡ 4 * table_cells kind }
{
    match kind {
        TableKind::Info(kind) => 4 * cells_of(kind),
        TableKind::Map => 12,
        TableKind::Entry(_) => SIZE,
    }
}

// An angle of 1 bit and an I-end of 3, side by side in one number: one load and one mask where the two cells are neighbours.
fn angle_fits(angle: u32, i_end: u32) -> bool
    ensures { result ≡ both (ltb angle 2) (ltb i_end 8) }
{
    ((i_end as u64) * 4294967296 + angle as u64) & 0xfffffff8fffffffe == 0
}

// A time of 32 bits that is a multiple of 512: one mask for both.
fn time_fits(time: u64) -> bool
    ensures { result ≡ both (ltb (time / 4294967296) 1) (eqb (time % 512) 0) }
{
    time & 0xffffffff000001ff == 0
}

// An angle of 1 bit, an I-end of 3, a time of 32 that is a multiple of 512, a type of 4 bits that is its map's. The map's type is tested for its 4 bits: it is the same at every row.
pub fn entry_fits(map_type: u32, entry: EntryRow) -> bool
    ensures { result ≡ entry_fits map_type (row_of entry) }
{
    map_type < 16
        && angle_fits(entry.angle, entry.i_end)
        && time_fits(entry.time)
        && entry.entry_type == map_type
}

// An ATC: at most 255 STCs, an offset id of 8 bits.
fn atc_fits(t: &[u8], p: usize) -> bool
    requires { p + 12 ≤ length t.now }
    ensures { result ≡ atc_fits (cells_at t.now atc_cells p) }
{
    cell_at(t, p + 4) < 256 && cell_at(t, p + 8) < 256
}

// An STC: a PID of 16 bits.
fn stc_fits(t: &[u8], p: usize) -> bool
    requires { p + 16 ≤ length t.now }
    ensures { result ≡ stc_fits (cells_at t.now stc_cells p) }
{
    cell_at(t, p) < 65536
}

// A program: a PID of 16 bits, at most 255 streams.
fn program_fits(t: &[u8], p: usize) -> bool
    requires { p + 12 ≤ length t.now }
    ensures { result ≡ program_fits (cells_at t.now program_cells p) }
{
    cell_at(t, p + 4) < 65536 && cell_at(t, p + 8) < 256
}

// A map: a PID of 16 bits, a type of 4, at most 262,143 entries.
fn map_fits(t: &[u8], p: usize) -> bool
    requires { p + 12 ≤ length t.now }
    ensures { result ≡ map_fits (cells_at t.now map_cells p) }
{
    cell_at(t, p) < 65536 && cell_at(t, p + 4) < 16 && cell_at(t, p + 8) < 262144
}

// A stream: a PID of 16 bits, coding type and format of 8, an aspect of 4, a language of 24; no language on video, no aspect on anything else.
fn stream_fits(t: &[u8], p: usize) -> bool
    requires { p + 20 ≤ length t.now }
    ensures { result ≡ stream_fits (cells_at t.now stream_cells p) }
{
    let coding_type = cell_at(t, p + 4);
    let aspect = cell_at(t, p + 12);
    let language = cell_at(t, p + 16);
    cell_at(t, p) < 65536
        && coding_type < 256
        && cell_at(t, p + 8) < 256
        && aspect < 16
        && language < 16777216
        && if is_video(coding_type) {
            language == 0
        } else {
            aspect == 0
        }
}

// Whether the row at a place fits.
pub fn row_fits(t: &[u8], p: usize, kind: TableKind) -> bool
    requires { p + 4 * table_cells kind ≤ length t.now }
    ensures { result ≡ fits_by kind (cells_at t.now (table_cells kind) p) }
{
    match kind {
        TableKind::Info(RowKind::Atc) => atc_fits(t, p),
        TableKind::Info(RowKind::Stc) => stc_fits(t, p),
        TableKind::Info(RowKind::Program) => program_fits(t, p),
        TableKind::Info(RowKind::Stream) => stream_fits(t, p),
        TableKind::Map => map_fits(t, p),
        TableKind::Entry(map_type) => entry_fits(map_type, EntryRow::at(t, p)),
    }
}
