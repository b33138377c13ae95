// What writing tests before it stores a byte: the refusal, or where the sections of the new file stand.
#![tactic(auto)]

ghost use Rattle.std.specs.Prelude.{◌≡◌};
ghost use Rattle.format.specs.Bytes.{both};
ghost use Rattle.format.specs.Refusals.{scalars_fit};
ghost use Rattle.refusals.specs.Numbers.{numbered};
ghost use Rattle.clip_information.specs.Read.{scalars_by};
ghost use Rattle.queries.specs.Asked.{no_scalars};
ghost use Rattle.limits.specs.Clips.{tables_fit};
ghost use Rattle.limits.specs.Stated.{stated_tables, TablesThere};
ghost use Rattle.encode_measure.specs.Places.{pairs_counted, measured_in};

use clip_sections::info::ClipInfo;
use common::header::is_clip;
use encode_cpi::cpi_length;
use encode_sections::section_length;
use entry_rows::CELLS;
use limits::tables::{ClipTables, cells_fit};
use refusals::Refusal;
use section_heads::Section;
use table_rows::own::adds_up;

// The places of the programs, of the CPI and of the marks; the sequences are at 220.
#[derive(Clone, Copy)]
pub struct Places {
    pub programs: usize,
    pub cpi: usize,
    pub marks: usize,
}

// Whether the rows are there and the counts add up, else 22.
#[tactic(auto, unfolding(crate::specs::Places::pairs_counted))]
fn counts_add(tables: ClipTables) -> bool
    ensures { result ≡ pairs_counted (stated_tables no_scalars tables.entry) }
{
    adds_up(tables.atcs, tables.stcs, 1, 4)
        && adds_up(tables.programs, tables.streams, 2, 5)
        && adds_up(tables.maps, tables.entries, 2, CELLS)
}

// Whether the scalars fit their fields, else 30. A field of 32 bits holds any number.
fn scalars_fit(info: ClipInfo) -> bool
    ensures { result ≡ scalars_fit (scalars_by info) }
{
    info.clip_stream_type < 256 && info.application_type < 256 && info.validity_flags < 256
}

// Whether the scalars fit, and the rows of every table but that of the entries, else 30.
#[tactic(auto, unfolding(limits::specs::Clips::tables_fit))]
fn fields_fit(info: ClipInfo, tables: ClipTables) -> bool
    requires { TablesThere tables }
    ensures { result ≡ both (scalars_fit (scalars_by info)) (tables_fit (stated_tables (scalars_by info) tables.entry)) }
{
    scalars_fit(info) && cells_fit(tables)
}

// The refusal of a record that is handed over, or the places of its sections.
pub fn measure(info: ClipInfo, tables: ClipTables) -> Result<Places, Refusal>
    ensures { numbered result ≡ measured_in (stated_tables (scalars_by info) tables.entry) }
{
    if !counts_add(tables) {
        return Err(Refusal::Rows);
    }
    if !is_clip(info.letters) {
        return Err(Refusal::RecordLetters);
    }
    if !fields_fit(info, tables) {
        return Err(Refusal::Cells);
    }
    let len = cpi_length(tables.maps, tables.entries)?;
    let programs = 220 + section_length(Section::Sequences, tables.atcs, tables.stcs);
    let cpi = programs + section_length(Section::Programs, tables.programs, tables.streams);
    let marks = cpi + len;
    Ok(Places {
        programs,
        cpi,
        marks,
    })
}
