// The lent tables filled, once every test has passed.
ghost use Rattle.std.specs.Prelude.{◌≡◌};
ghost use Rattle.format.specs.ClipRecord.{marks_from};
ghost use Rattle.format.specs.Reading.{clip_of, record_of};
ghost use Rattle.format.specs.Tables.{table_bytes, overwritten};
ghost use Rattle.clip_information.specs.Fill.{SectionsFit, ListFits, MarksThere};

use common::header::Starts;
use extension::ListData;
use numbers::u32_at;
use section_heads::Section;

// Tables 1 to 6; the maps are counted already.
pub(crate) fn fill_sections(
    file: &[u8],
    count: usize,
    atcs: &mut [u8],
    stcs: &mut [u8],
    programs: &mut [u8],
    streams: &mut [u8],
    maps: &mut [u8],
    entries: &mut [u8],
)
    requires { SectionsFit file.now count atcs.old stcs.old programs.old streams.old maps.old entries.old }
    ensures atcs_after { atcs.new ≡ overwritten (table_bytes (clip_of file.now).atcs) atcs.old }
    ensures stcs_after { stcs.new ≡ overwritten (table_bytes (clip_of file.now).stcs) stcs.old }
    ensures programs_after { programs.new ≡ overwritten (table_bytes (clip_of file.now).programs) programs.old }
    ensures streams_after { streams.new ≡ overwritten (table_bytes (clip_of file.now).streams) streams.old }
    ensures maps_after { maps.new ≡ overwritten (table_bytes (clip_of file.now).maps) maps.old }
    ensures entries_after { entries.new ≡ overwritten (table_bytes (clip_of file.now).entries) entries.old }
{
    let starts = Starts::read(file);
    info_sections::fill(Section::Sequences, file, starts.sequences, atcs, stcs);
    info_sections::fill(Section::Programs, file, starts.programs, programs, streams);
    cpi_fill::fill(file, starts.cpi, count, maps, entries);
}

// Tables 8 and 9; without a list they are left as they are.
pub(crate) fn fill_list(
    file: &[u8],
    list: Option<ListData>,
    programs: &mut [u8],
    streams: &mut [u8],
)
    requires { ListFits file.now list programs.old streams.old }
    ensures programs_after { programs.new ≡ overwritten (table_bytes (record_of file.now).list_programs) programs.old }
    ensures streams_after { streams.new ≡ overwritten (table_bytes (record_of file.now).list_streams) streams.old }
{
    if let Some(data) = list {
        let end = data.start + data.len;
        info_sections::fill(
            Section::Programs,
            &file[data.start..end],
            0,
            programs,
            streams,
        );
    }
}

// The number of marks; 0 where there is no section of marks, as document 01 tells it.
pub(crate) fn mark_count(file: &[u8], start: usize) -> u32
    requires { MarksThere file.now start }
    ensures { result ≡ marks_from file.now start }
{
    if start == 0 {
        return 0;
    }
    if file.len() <= start {
        return 0;
    }
    u32_at::<2>(file, start + 4)
}
