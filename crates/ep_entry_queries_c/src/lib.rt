// The lookups of `ep_entry_queries` under their own names for C, each with the clauses that it has there. A crate of its own, since a crate is built as a library or as a static library, and not as both.
#![tactic(auto)]

ghost use Rattle.std.specs.Prelude.{◌≡◌, map};
ghost use Rattle.format.specs.ClipRecord.{time};
ghost use Rattle.format.specs.Questions.{answer_numbers, ticks90, at_or_before, after, seek, next_seek, span_of};
ghost use Rattle.clpi_answers.specs.Numbers.{found_numbers};
ghost use Rattle.ep_entry_steps.specs.Records.{as_rows};

use clpi_answers::ClpiAnswer;
use ep_entry_steps::EpEntry;

// The entry with the greatest time not above the one given, the earliest among equals; row 0 if all are later; nothing without entries.
#[unsafe(no_mangle)]
pub extern "C" fn entry_point_at_or_before(rows: &[EpEntry], at: u32) -> ClpiAnswer
    ensures { found_numbers result ≡ answer_numbers (at_or_before (map time (as_rows rows.now)) at) }
{
    ep_entry_queries::entry_point_at_or_before(rows, at)
}

// The entry with the least time above the one given, the earliest among equals, or nothing.
#[unsafe(no_mangle)]
pub extern "C" fn entry_point_after(rows: &[EpEntry], at: u32) -> ClpiAnswer
    ensures { found_numbers result ≡ answer_numbers (after (map time (as_rows rows.now)) at) }
{
    ep_entry_queries::entry_point_after(rows, at)
}

// The packet to read from for a time: that of the entry at or before it; nothing without entries.
#[unsafe(no_mangle)]
pub extern "C" fn seek_spn(rows: &[EpEntry], at: u32) -> ClpiAnswer
    ensures { found_numbers result ≡ answer_numbers (seek (as_rows rows.now) at) }
{
    ep_entry_queries::seek_spn(rows, at)
}

// The packet of the entry after a time, or nothing.
#[unsafe(no_mangle)]
pub extern "C" fn next_seek_spn(rows: &[EpEntry], at: u32) -> ClpiAnswer
    ensures { found_numbers result ≡ answer_numbers (next_seek (as_rows rows.now) at) }
{
    ep_entry_queries::next_seek_spn(rows, at)
}

// The span of the entries: the last time less the first, not below 0; 0 without entries.
#[unsafe(no_mangle)]
pub extern "C" fn indexed_span_90k(rows: &[EpEntry]) -> ClpiAnswer
    ensures { found_numbers result ≡ answer_numbers (ticks90 (span_of (as_rows rows.now))) }
{
    ep_entry_queries::indexed_span_90k(rows)
}
