// Questions about the STC sequences through their ATC sequences: those of one ATC, by id, and by packet in one ATC.
#![tactic(auto)]

ghost use Rattle.std.specs.Prelude.{◌≡◌, ◌+◌, ◌*◌, ◌-◌, ◌≤◌, length, leb, ltb, Ok};
ghost use Rattle.format.specs.Bytes.{both};
ghost use Rattle.format.specs.Questions.{ask, stc_sequence_by_id, stc_sequence_for_spn, stc_by_id, stc_by_spn};
ghost use Rattle.format.specs.Tables.{stc_cells, stated};
ghost use Rattle.queries.specs.Answers.{found_of};
ghost use Rattle.queries.specs.Asked.{atcs_and_stcs};
ghost use Rattle.table_rows.specs.AllRows.{rows_in};
ghost use Rattle.table_rows.specs.OwnRows.{owned_of, owned_rows, rows_from};

use cells::cell_at;
use queries::Found;
use refusals::Refusal;
use table_rows::Table;
use table_rows::own::{OwnRows, counted, own_rows};
use table_rows::rows::Rows;

// The cells of an ATC's row (packet, STC count, offset id), and the one that has the count.
const ATC: usize = 3;

const COUNT: usize = 1;

// The cells of an STC's row.
const STC: usize = 4;

// The STCs of an ATC, by the first and their number.
pub fn stcs_of_atc(atcs: Table, stcs: Table, atc: u32) -> Result<OwnRows, Refusal>
    ensures { owned_of result ≡ owned_rows 1 stc_cells (stated atcs.entry.bytes.now atcs.entry.rows) (stated stcs.entry.bytes.now stcs.entry.rows) atc }
{
    own_rows(atcs, stcs, atc, COUNT, STC)
}

// Whether an id, less the offset id, is not negative and below the count.
fn has_id(id: u32, offset: u32, count: u32) -> bool
    ensures { result ≡ both (leb offset id) (ltb (id - offset) count) }
{
    offset <= id && id - offset < count
}

// The STC with an id: of the first ATC that has it.
fn find_id(atcs: Rows<ATC>, id: u32) -> Option<u64>
    ensures { found_of (Ok result) ≡ stc_by_id (rows_in atcs.entry) id 0 }
{
    let mut first: u64 = 0;
    for k in 0..atcs.count {
        let [_, count, offset] = atcs.row(k);
        if has_id(id, offset, count) {
            return Some(first + u64::from(id - offset));
        }
        first += u64::from(count);
    }
    None
}

// The STC with an id, as its row through all ATCs: of the first ATC in which the id less the offset id is one of its rows.
pub fn stc_sequence_by_id(atcs: Table, stcs: Table, id: u8) -> Found
    ensures { found_of result ≡ ask (stc_sequence_by_id id) (atcs_and_stcs (stated atcs.entry.bytes.now atcs.entry.rows) (stated stcs.entry.bytes.now stcs.entry.rows)) }
{
    let atcs = counted(atcs, stcs, COUNT, STC)?;
    Ok(find_id(atcs, u32::from(id)))
}

// Of an ATC's STCs the last whose packet is at most the one given.
fn find_spn(stcs: &[u8], own: OwnRows, spn: u32) -> Option<u64>
    requires { 16 * (own.first + own.count) ≤ length stcs.now }
    ensures { found_of (Ok result) ≡ stc_by_spn (rows_from stc_cells stcs.now own.first own.count) spn own.first }
{
    let mut found = None;
    for k in 0..own.count {
        let row = own.first + u64::from(k);
        if cell_at(stcs, 16 * (row as usize) + 4) <= spn {
            found = Some(row);
        }
    }
    found
}

// The STC of a packet in one ATC, as its row through all ATCs: the last whose packet is at most the one given.
pub fn stc_sequence_for_spn(atcs: Table, stcs: Table, atc: u32, spn: u32) -> Found
    ensures { found_of result ≡ ask (stc_sequence_for_spn atc spn) (atcs_and_stcs (stated atcs.entry.bytes.now atcs.entry.rows) (stated stcs.entry.bytes.now stcs.entry.rows)) }
{
    let own = stcs_of_atc(atcs, stcs, atc)?;
    Ok(find_spn(stcs.bytes, own, spn))
}
