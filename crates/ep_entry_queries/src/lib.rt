// Entry points by their times in a lent row of `EpEntry` records. Each function is thin: what is looked for is in `ep_entry_steps`.
#![tactic(auto)]

ghost use Rattle.std.specs.Prelude.{◌≡◌, map};
ghost use Rattle.format.specs.ClipRecord.{time};
ghost use Rattle.format.specs.Questions.{answer_numbers, ticks90, at_or_before, after, seek, next_seek, span_of};
ghost use Rattle.clpi_answers.specs.Numbers.{found_numbers};
ghost use Rattle.ep_entry_steps.specs.Records.{as_rows};

use clpi_answers::{ClpiAnswer, answer_of, answer_of_90};
use ep_entry_steps::{EpEntry, find, seek, span};
use nearest::Side;

// The entry with the greatest time not above the one given, the earliest among equals; row 0 if all are later; nothing without entries.
pub fn entry_point_at_or_before(rows: &[EpEntry], at: u32) -> ClpiAnswer
    ensures { found_numbers result ≡ answer_numbers (at_or_before (map time (as_rows rows.now)) at) }
{
    answer_of(Ok(find(rows, Side::AtOrBefore, at)))
}

// The entry with the least time above the one given, the earliest among equals, or nothing.
pub fn entry_point_after(rows: &[EpEntry], at: u32) -> ClpiAnswer
    ensures { found_numbers result ≡ answer_numbers (after (map time (as_rows rows.now)) at) }
{
    answer_of(Ok(find(rows, Side::After, at)))
}

// The packet to read from for a time: that of the entry at or before it; nothing without entries.
pub fn seek_spn(rows: &[EpEntry], at: u32) -> ClpiAnswer
    ensures { found_numbers result ≡ answer_numbers (seek (as_rows rows.now) at) }
{
    answer_of(Ok(seek(rows, Side::AtOrBefore, at)))
}

// The packet of the entry after a time, or nothing.
pub fn next_seek_spn(rows: &[EpEntry], at: u32) -> ClpiAnswer
    ensures { found_numbers result ≡ answer_numbers (next_seek (as_rows rows.now) at) }
{
    answer_of(Ok(seek(rows, Side::After, at)))
}

// The span of the entries: the last time less the first, not below 0; 0 without entries.
pub fn indexed_span_90k(rows: &[EpEntry]) -> ClpiAnswer
    ensures { found_numbers result ≡ answer_numbers (ticks90 (span_of (as_rows rows.now))) }
{
    answer_of_90(Ok(Some(span(rows))))
}
