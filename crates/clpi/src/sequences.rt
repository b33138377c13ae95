// Questions about the ATC and STC sequences.
ghost use Rattle.std.specs.Prelude.{◌≡◌};
ghost use Rattle.format.specs.Questions.{answer_numbers, ask, minutes_remaining, presentation_span_90k, duration45k, duration90k, stc_sequence_by_id, stc_sequence_for_spn, first_stc_sequence};
ghost use Rattle.format.specs.Tables.{stc_cells, stated};
ghost use Rattle.queries.specs.Asked.{only_stcs, atcs_and_stcs};
ghost use Rattle.table_rows.specs.OwnRows.{owned_rows, owned_numbers};
ghost use Rattle.clpi_answers.specs.Numbers.{found_numbers, rows_numbers};

use crate::table;
use atc_queries::{stc_sequence_by_id, stc_sequence_for_spn, stcs_of_atc};
use clpi_answers::{ClpiAnswer, ClpiRows, answer_of, answer_of_45, answer_of_90, rows_of};
use sequence_queries::{
    duration_45k, duration_90k, first_stc_sequence, minutes_remaining, presentation_span_90k,
};
use ticks::Ticks90;

// Minutes remaining at a 90 kHz time of an STC, with all later STCs.
pub fn clpi_minutes_remaining(stcs: &[u8], rows: u32, stc: u32, at_90k: u64) -> ClpiAnswer
    ensures { found_numbers result ≡ answer_numbers (ask (minutes_remaining stc (record { ticks = at_90k })) (only_stcs (stated stcs.now rows))) }
{
    let stcs = table(stcs, rows);
    answer_of(minutes_remaining(stcs, stc, Ticks90(at_90k)))
}

// The presentation span in 90 kHz ticks.
pub fn clpi_presentation_span_90k(stcs: &[u8], rows: u32) -> ClpiAnswer
    ensures { found_numbers result ≡ answer_numbers (ask presentation_span_90k (only_stcs (stated stcs.now rows))) }
{
    let stcs = table(stcs, rows);
    answer_of_90(presentation_span_90k(stcs))
}

// How long an STC is, in 45 kHz ticks.
pub fn clpi_duration_45k(stcs: &[u8], rows: u32, stc: u32) -> ClpiAnswer
    ensures { found_numbers result ≡ answer_numbers (ask (duration45k stc) (only_stcs (stated stcs.now rows))) }
{
    let stcs = table(stcs, rows);
    answer_of_45(duration_45k(stcs, stc))
}

// How long an STC is, in 90 kHz ticks.
pub fn clpi_duration_90k(stcs: &[u8], rows: u32, stc: u32) -> ClpiAnswer
    ensures { found_numbers result ≡ answer_numbers (ask (duration90k stc) (only_stcs (stated stcs.now rows))) }
{
    let stcs = table(stcs, rows);
    answer_of_90(duration_90k(stcs, stc))
}

// The row of the first STC.
pub fn clpi_first_stc_sequence(stcs: &[u8], rows: u32) -> ClpiAnswer
    ensures { found_numbers result ≡ answer_numbers (ask first_stc_sequence (only_stcs (stated stcs.now rows))) }
{
    let stcs = table(stcs, rows);
    answer_of(first_stc_sequence(stcs))
}

// The STCs of an ATC: the first and how many.
pub fn clpi_stcs_of_atc(
    atcs: &[u8],
    atc_rows: u32,
    stcs: &[u8],
    stc_rows: u32,
    atc: u32,
) -> ClpiRows
    ensures { rows_numbers result ≡ owned_numbers (owned_rows 1 stc_cells (stated atcs.now atc_rows) (stated stcs.now stc_rows) atc) }
{
    let atcs = table(atcs, atc_rows);
    let stcs = table(stcs, stc_rows);
    rows_of(stcs_of_atc(atcs, stcs, atc))
}

// The row of the STC with an id, through all ATCs.
pub fn clpi_stc_sequence_by_id(
    atcs: &[u8],
    atc_rows: u32,
    stcs: &[u8],
    stc_rows: u32,
    id: u8,
) -> ClpiAnswer
    ensures { found_numbers result ≡ answer_numbers (ask (stc_sequence_by_id id) (atcs_and_stcs (stated atcs.now atc_rows) (stated stcs.now stc_rows))) }
{
    let atcs = table(atcs, atc_rows);
    let stcs = table(stcs, stc_rows);
    answer_of(stc_sequence_by_id(atcs, stcs, id))
}

// The row of the STC of a packet in one ATC, through all ATCs.
pub fn clpi_stc_sequence_for_spn(
    atcs: &[u8],
    atc_rows: u32,
    stcs: &[u8],
    stc_rows: u32,
    atc: u32,
    spn: u32,
) -> ClpiAnswer
    ensures { found_numbers result ≡ answer_numbers (ask (stc_sequence_for_spn atc spn) (atcs_and_stcs (stated atcs.now atc_rows) (stated stcs.now stc_rows))) }
{
    let atcs = table(atcs, atc_rows);
    let stcs = table(stcs, stc_rows);
    answer_of(stc_sequence_for_spn(atcs, stcs, atc, spn))
}
