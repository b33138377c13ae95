// Writing a record that tables hold, and rewriting a file.
ghost use Rattle.std.specs.Prelude.{◌≡◌};
ghost use Rattle.format.specs.Reading.{clip_of};
ghost use Rattle.format.specs.Refusals.{write_answer, write_numbers, output_by, output_after};
ghost use Rattle.format.specs.Rewriting.{encode};
ghost use Rattle.format.specs.Tables.{stated};
ghost use Rattle.clip_information.specs.Read.{scalars_by};
ghost use Rattle.queries.specs.Asked.{tables_with};
ghost use Rattle.rewrite.specs.Rewrite.{rewrite_answer, length_answer, length_numbers};
ghost use Rattle.clpi_writing.specs.Numbers.{writing_numbers, new_length_numbers};

use crate::table;
use clip_sections::info::ClipInfo;
use clpi_writing::{ClpiLength, ClpiWriting, length_of, writing_of};
use encode::write::write;
use limits::tables::ClipTables;
use rewrite::rewrite::{rewrite, rewritten_length};

// Writes the record of six tables with their stated rows into the output; a refusal leaves it as it was.
pub fn clpi_write(
    info: ClipInfo,
    atcs: &[u8],
    atc_rows: u32,
    stcs: &[u8],
    stc_rows: u32,
    programs: &[u8],
    program_rows: u32,
    streams: &[u8],
    stream_rows: u32,
    maps: &[u8],
    map_rows: u32,
    entries: &[u8],
    entry_rows: u32,
    output: &mut [u8],
) -> ClpiWriting
    ensures result_value { writing_numbers result ≡ write_numbers (write_answer (tables_with (scalars_by info) (stated atcs.now atc_rows) (stated stcs.now stc_rows) (stated programs.now program_rows) (stated streams.now stream_rows) (stated maps.now map_rows) (stated entries.now entry_rows)) output.old) }
    ensures output_after { output.new ≡ output_after (tables_with (scalars_by info) (stated atcs.now atc_rows) (stated stcs.now stc_rows) (stated programs.now program_rows) (stated streams.now stream_rows) (stated maps.now map_rows) (stated entries.now entry_rows)) output.old }
{
    let atcs = table(atcs, atc_rows);
    let stcs = table(stcs, stc_rows);
    let programs = table(programs, program_rows);
    let streams = table(streams, stream_rows);
    let maps = table(maps, map_rows);
    let entries = table(entries, entry_rows);
    let tables = ClipTables {
        atcs,
        stcs,
        programs,
        streams,
        maps,
        entries,
    };
    writing_of(write(info, tables, output))
}

// Rewrites a file into the output; a refusal leaves it as it was.
pub fn clpi_rewrite(file: &[u8], output: &mut [u8]) -> ClpiWriting
    ensures result_value { writing_numbers result ≡ write_numbers (rewrite_answer file.now output.old) }
    ensures output_after { output.new ≡ output_by (rewrite_answer file.now output.old) (encode (clip_of file.now)) output.old }
{
    writing_of(rewrite(file, output))
}

// How long the new file of a file is.
pub fn clpi_rewritten_length(file: &[u8]) -> ClpiLength
    ensures { new_length_numbers result ≡ length_numbers (length_answer file.now) }
{
    length_of(rewritten_length(file))
}
