// The rows of a map by their numbers, wherever these come from: header, coarse row, fine row.
#![tactic(auto)]

ghost use Rattle.std.specs.Prelude.{◌≡◌, [], ◌∷◌, ◌+◌, ◌^◌, ◌≤◌, ◌<◌, length};
ghost use Rattle.std.proofs.lemmas.List.Edits.{sets};
ghost use Rattle.format.specs.Bytes.{bytes_of, field_bytes, packed};
ghost use Rattle.format.specs.EntryPoints.{header_widths, fine_widths};
ghost use Rattle.format.specs.Rewriting.{coarse_bytes, coarse_by, fine_by};

use entry_rows::EntryRow;
use ep_rows::{
    CoarseRow, FineRow, MapHeader, coarse_row_word, coarse_time_of, fine_packet_of, fine_row_word,
    fine_time_of, map_header_word,
};
use numbers::{put_be, put_u32};

// The bytes of a map's header; its row in the table of maps has as many.
pub const MAP: usize = 12;

// A map's header from `at`: PID, the packed type and counts, the body's address.
pub fn put_header(pid: u32, header: MapHeader, address: u32, out: &mut [u8], at: usize)
    requires { (header.ep_stream_type < 2 ^ 4) × (header.num_coarse < 2 ^ 16) × (header.num_fine < 2 ^ 18) × (at + 12 ≤ length out.old) }
    ensures { out.new ≡ sets out.old at (field_bytes (2 ∷ 6 ∷ 4 ∷ []) (pid ∷ packed header_widths (0 ∷ header.ep_stream_type ∷ header.num_coarse ∷ header.num_fine ∷ []) ∷ address ∷ [])) }
{
    put_u32::<2>(out, at, pid);
    put_be::<6>(out, at + 2, map_header_word(header));
    put_u32::<4>(out, at + 8, address);
}

// The coarse row of a run from `at`: the number of its first row, and that entry's time and full packet.
pub fn put_coarse_row(first_fine: u32, entry: EntryRow, out: &mut [u8], at: usize)
    requires { (first_fine < 2 ^ 18) × (entry.time < 2 ^ 33) × (at + 8 ≤ length out.old) }
    ensures { out.new ≡ sets out.old at (coarse_bytes (coarse_by first_fine entry.time entry.packet)) }
{
    let word = coarse_row_word(CoarseRow {
        first_fine,
        time: coarse_time_of(entry.time),
        packet: entry.packet,
    });
    put_be::<8>(out, at, word);
}

// The fine row of an entry from `at`.
pub fn put_fine_row(entry: EntryRow, out: &mut [u8], at: usize)
    requires { (entry.angle < 2 ^ 1) × (entry.i_end < 2 ^ 3) × (at + 4 ≤ length out.old) }
    ensures { out.new ≡ sets out.old at (bytes_of 4 (packed fine_widths (fine_by entry.angle entry.i_end entry.time entry.packet))) }
{
    let word = fine_row_word(FineRow {
        angle: entry.angle,
        i_end: entry.i_end,
        time: fine_time_of(entry.time),
        packet: fine_packet_of(entry.packet),
    });
    put_u32::<4>(out, at, word);
}
