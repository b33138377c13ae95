// The entries of one map: each fine row joined with the coarse row that it uses, and stored in one form or another.
ghost use Rattle.std.specs.Prelude.{◌≡◌, ℕ, List, ◌+◌, ◌*◌, ◌≤◌, length};
ghost use Rattle.std.proofs.lemmas.List.Edits.{sets};
ghost use Rattle.format.specs.Bytes.{flat, unpacked};
ghost use Rattle.format.specs.ClipRecord.{Row, entry_size};
ghost use Rattle.format.specs.EntryPoints.{fine_widths};
ghost use Rattle.format.specs.Tables.{row_bytes_of};
ghost use Rattle.format.proofs.Sweep.{row_bytes_lem};
ghost use Rattle.std.proofs.Math.Nat.{le_refl};
ghost use Rattle.ep_entries.specs.Body.{entries_in};
ghost use Rattle.ep_entries.specs.Entries.{joined, entry_by, stretch_bytes, Stretch, Fill};

use crate::body::MapBody;
use crate::walk::Walk;
use entry_rows::EntryRow;
use ep_rows::{entry_packet, entry_time, fine_row};
use numbers::u32_at;

// The entry of a fine row under the walk's coarse row, in a map of this type.
pub fn join(word: u32, w: Walk, kind: u32) -> EntryRow
    ensures { result ≡ joined kind w.time w.packet (unpacked fine_widths word) }
{
    let fine = fine_row(word);
    let time = entry_time(w.time, fine.time);
    let packet = entry_packet(w.packet, fine.packet);
    EntryRow {
        angle: fine.angle,
        i_end: fine.i_end,
        time,
        packet,
        entry_type: kind,
    }
}

// A form in which a map's entries are stored, each in as many bytes.
pub trait EntryForm {
    // The bytes of an entry.
    const SIZE: usize;

    ghost SIZE: { ℕ };

    // What stands there for an entry.
    ghost bytes: { Row → List ℕ };

    // Stores the entry of a fine row under the walk's coarse row, in a map of this type.
    fn put(word: u32, w: Walk, kind: u32, out: &mut [u8], at: usize)
        requires { at + SIZE ≤ length out.old }
        ensures { out.new ≡ sets out.old at (bytes (entry_by kind w.time w.packet (unpacked fine_widths word))) };

    // Every entry has as many bytes, and no form has more than a table's row.
    ghost long: { (kind time packet : ℕ) (fine : Row) → length (bytes (entry_by kind time packet fine)) ≡ SIZE };

    ghost small: { SIZE ≤ entry_size };
}

// Entries as the rows of their table.
pub struct TableForm;

impl EntryForm for TableForm {
    const SIZE: usize = entry_rows::SIZE;

    ghost SIZE = { entry_size };

    ghost bytes = { row_bytes_of };

    fn put(word: u32, w: Walk, kind: u32, out: &mut [u8], at: usize) {
        join(word, w, kind).put(out, at);
    }

    ghost long = { λ kind time packet fine. row_bytes_lem (entry_by kind time packet fine) };

    ghost small = { le_refl 24 };
}

// The entries of the fine rows from number `from` up to `end`, all under the walk's coarse row; that of fine row 0 goes to `at`.
fn put_stretch<F: EntryForm>(
    file: &[u8],
    m: MapBody,
    from: usize,
    end: usize,
    w: Walk,
    out: &mut [u8],
    at: usize,
)
    requires { Stretch (length file.now) m.fine from end F.SIZE (length out.old) at }
    ensures { out.new ≡ sets out.old (at + F.SIZE * from) (stretch_bytes F.bytes file.now m.kind w.time w.packet m.fine from end) }
{
    for k in from..end {
        F::put(
            u32_at::<4>(file, m.fine + 4 * k),
            w,
            m.kind,
            out,
            at + F::SIZE * k,
        );
    }
}

// The entries of a map's fine rows, under its coarse rows, from `at`: the rows before the next coarse row's first, and at the end those that are left.
pub fn put_entries<F: EntryForm>(file: &[u8], m: MapBody, out: &mut [u8], at: usize)
    requires { Fill file.now m F.SIZE (length out.old) at }
    ensures { out.new ≡ sets out.old at (flat F.bytes (entries_in file.now m)) }
{
    let mut w = Walk::start(file, m);
    let mut k: usize = 0;
    // a `while`: a turn for each coarse row, not for each fine row
    while w.end < m.num_fine {
        if k < w.end {
            put_stretch::<F>(file, m, k, w.end, w, out, at);
            k = w.end;
        }
        w = w.step(file, m);
    }
    put_stretch::<F>(file, m, k, m.num_fine, w, out, at);
}
