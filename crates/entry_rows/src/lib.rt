// The row of an entry in its table: its size, where each of its numbers stands, and a row stored. Nothing else knows these places.
#![tactic(auto)]

pub mod entries;

ghost use Rattle.std.specs.Prelude.{◌≡◌, ◌+◌, ◌*◌, ◌%◌, ◌≤◌, length};
ghost use Rattle.std.proofs.lemmas.List.Edits.{sets};
ghost use Rattle.format.specs.ClipRecord.{entry_size};
ghost use Rattle.format.specs.Tables.{row_bytes_of};
ghost use Rattle.entry_rows.specs.Reads.{EntryIs, WordsAre, row_of};

use cells::{cell_at, put_row};

// The cells of a row; a time has two.
pub const CELLS: usize = 6;

// The bytes of a row.
pub const SIZE: usize = 24;

// Two numbers as the halves of one.
fn halves(low: u32, high: u32) -> u64
    ensures { result ≡ high * 4294967296 + low }
{
    u64::from(high) * 4294967296 + u64::from(low)
}

// The numbers of an entry: whether the angle may change at it, where its I picture ends, its time, its packet, its type.
#[derive(Clone, Copy)]
pub struct EntryRow {
    pub angle: u32,
    pub i_end: u32,
    pub time: u64,
    pub packet: u32,
    pub entry_type: u32,
}

impl EntryRow {
    // Those of the row at byte q. Of what the caller leaves alone nothing is loaded; the time is one load of eight bytes.
    pub fn at(t: &[u8], q: usize) -> EntryRow
        requires { q + entry_size ≤ length t.now }
        ensures { EntryIs t.now q result }
    {
        EntryRow {
            angle: cell_at(t, q),
            i_end: cell_at(t, q + 4),
            time: halves(cell_at(t, q + 8), cell_at(t, q + 12)),
            packet: cell_at(t, q + 16),
            entry_type: cell_at(t, q + 20),
        }
    }

    // Stores the row from `at`; the time is one store of eight bytes.
    pub fn put(self, t: &mut [u8], at: usize)
        requires { at + entry_size ≤ length t.old }
        ensures { t.new ≡ sets t.old at (row_bytes_of (row_of self)) }
    {
        put_row(
            t,
            at,
            [
                self.angle,
                self.i_end,
                (self.time % 4294967296) as u32,
                (self.time / 4294967296) as u32,
                self.packet,
                self.entry_type,
            ],
        );
    }
}

// A row as three words of eight bytes: angle and I-end, the time, packet and type. Of two numbers the first is the lower half.
#[derive(Clone, Copy)]
pub struct Words {
    pub front: u64,
    pub time: u64,
    pub back: u64,
}

impl Words {
    // The words of the row at byte q: one load each.
    pub fn at(t: &[u8], q: usize) -> Words
        requires { q + entry_size ≤ length t.now }
        ensures { WordsAre t.now q result }
    {
        let row = EntryRow::at(t, q);
        Words {
            front: halves(row.angle, row.i_end),
            time: row.time,
            back: halves(row.packet, row.entry_type),
        }
    }

    // The packet of the row.
    pub fn packet(self) -> u32
        ensures { result ≡ self.back % 4294967296 }
    {
        (self.back % 4294967296) as u32
    }
}
