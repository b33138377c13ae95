// A record written into a lent output.
ghost use Rattle.std.specs.Prelude.{◌≡◌, length};
ghost use Rattle.std.proofs.lemmas.List.Edits.{sets};
ghost use Rattle.format.specs.Refusals.{write_answer, output_by};
ghost use Rattle.format.specs.Rewriting.{encode};
ghost use Rattle.format.specs.Tables.{clip_in};
ghost use Rattle.clip_information.specs.Read.{scalars_by};
ghost use Rattle.limits.specs.Stated.{stated_tables};
ghost use Rattle.encode_measure.specs.Places.{Ready};
ghost use Rattle.encode.specs.Writing.{write_answer_of};
ghost use Rattle.encode.specs.declared.write.WriteError.{WriteError};

use clip_sections::info::ClipInfo;
use encode_cpi::put_cpi;
use encode_head::put_head;
use encode_measure::{Places, measure};
use encode_sections::put_section;
use limits::tables::ClipTables;
use refusals::Refusal;
use section_heads::{Section, put_marks};

// Why nothing was written: a refusal, or an output that is too short, with how many bytes it needs.
#[derive(Clone, Copy, Debug, PartialEq, Eq)]
pub enum WriteError {
    Refused(Refusal),
    OutputShort(usize),
}

impl From<Refusal> for WriteError {
    ghost from_gives = { λ refusal error. error ≡ WriteError.Refused refusal };

    fn from(refusal: Refusal) -> WriteError {
        WriteError::Refused(refusal)
    }
}

// Stores the new file, section by section.
fn put_sections(info: ClipInfo, tables: ClipTables, places: Places, out: &mut [u8])
    requires { Ready (stated_tables (scalars_by info) tables) places (length out.old) }
    ensures { out.new ≡ sets out.old 0 (encode (clip_in (stated_tables (scalars_by info) tables.entry))) }
{
    put_head(
        info,
        places.programs as u32,
        places.cpi as u32,
        places.marks as u32,
        out,
    );
    put_section(
        Section::Sequences,
        tables.atcs,
        tables.stcs,
        places.programs - 220,
        out,
        220,
    );
    put_section(
        Section::Programs,
        tables.programs,
        tables.streams,
        places.cpi - places.programs,
        out,
        places.programs,
    );
    put_cpi(
        tables.maps,
        tables.entries,
        places.marks - places.cpi,
        out,
        places.cpi,
    );
    put_marks(out, places.marks);
}

// Writes the record that the six tables hold, and answers how many bytes it has; an error leaves the output as it was.
pub fn write(info: ClipInfo, tables: ClipTables, out: &mut [u8]) -> Result<usize, WriteError>
    ensures result_value { write_answer_of result ≡ write_answer (stated_tables (scalars_by info) tables.entry) out.old }
    ensures out_after { out.new ≡ output_by (write_answer_of result) (encode (clip_in (stated_tables (scalars_by info) tables.entry))) out.old }
{
    let places = measure(info, tables)?;
    let len = places.marks + 6;
    if out.len() < len {
        return Err(WriteError::OutputShort(len));
    }
    put_sections(info, tables, places, out);
    Ok(len)
}
