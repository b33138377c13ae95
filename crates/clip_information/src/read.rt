// A clip file read into nine lent tables.
ghost use Rattle.std.specs.Prelude.{◌≡◌, is_some};
ghost use Rattle.format.specs.Refusals.{refusal_of, read_answer, tables_of, table_by};
ghost use Rattle.clip_information.specs.Read.{read_answer_of, nine_tables_of, accepted_of};

use crate::fill::{fill_list, fill_sections, mark_count};
use clip_prepare::{Prepared, ReadError, prepare};
use clip_sections::info::{ClipInfo, clip_info};
use common::header::Starts;
use nine_tables::Rows;

// What is stated of an accepted file beside its rows: the scalars, the number of marks, the rows of each table, and whether it has a (2, 5) list, which may be without rows. A flag, as the definition of what is stated has one: the list's rows stand in `rows` with the other seven.
#[derive(Clone, Copy)]
pub struct Accepted {
    pub info: ClipInfo,
    pub marks: u32,
    pub rows: Rows,
    pub has_list: bool,
}

impl Accepted {
    // Of a file whose header and marks are there.
    fn of(file: &[u8], ready: Prepared) -> Accepted
        requires { refusal_of file.now ≡ 0 }
        ensures { result ≡ accepted_of file.now ready.rows (is_some ready.list) }
    {
        Accepted {
            info: clip_info(file),
            marks: mark_count(file, Starts::read(file).marks),
            rows: ready.rows,
            has_list: ready.list.is_some(),
        }
    }
}

// Reads a file; a refusal leaves every table as it was. Nine slices and no struct of them: each clause names its table, and C lends them so.
pub fn read(
    file: &[u8],
    atcs: &mut [u8],
    stcs: &mut [u8],
    programs: &mut [u8],
    streams: &mut [u8],
    maps: &mut [u8],
    entries: &mut [u8],
    extensions: &mut [u8],
    programs2: &mut [u8],
    streams2: &mut [u8],
) -> Result<Accepted, ReadError>
    ensures result_value { read_answer_of result ≡ read_answer file.now (nine_tables_of atcs.old stcs.old programs.old streams.old maps.old entries.old extensions.old programs2.old streams2.old) }
    ensures atcs_after { atcs.new ≡ table_by (read_answer_of result) (tables_of file.now).atcs atcs.old }
    ensures stcs_after { stcs.new ≡ table_by (read_answer_of result) (tables_of file.now).stcs stcs.old }
    ensures programs_after { programs.new ≡ table_by (read_answer_of result) (tables_of file.now).programs programs.old }
    ensures streams_after { streams.new ≡ table_by (read_answer_of result) (tables_of file.now).streams streams.old }
    ensures maps_after { maps.new ≡ table_by (read_answer_of result) (tables_of file.now).maps maps.old }
    ensures entries_after { entries.new ≡ table_by (read_answer_of result) (tables_of file.now).entries entries.old }
    ensures extensions_after { extensions.new ≡ table_by (read_answer_of result) (tables_of file.now).extensions extensions.old }
    ensures programs2_after { programs2.new ≡ table_by (read_answer_of result) (tables_of file.now).list_programs programs2.old }
    ensures streams2_after { streams2.new ≡ table_by (read_answer_of result) (tables_of file.now).list_streams streams2.old }
{
    let bytes = Rows {
        atcs: atcs.len(),
        stcs: stcs.len(),
        programs: programs.len(),
        streams: streams.len(),
        maps: maps.len(),
        entries: entries.len(),
        extensions: extensions.len(),
        list_programs: programs2.len(),
        list_streams: streams2.len(),
    };
    let ready = prepare(file, bytes)?;
    let count = ready.rows.maps;
    fill_sections(file, count, atcs, stcs, programs, streams, maps, entries);
    extension::fill(file, Starts::read(file).extensions, extensions);
    fill_list(file, ready.list, programs2, streams2);
    Ok(Accepted::of(file, ready))
}
