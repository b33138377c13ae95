// The answer of reading as numbers for C.
#![tactic(auto)]

ghost use Rattle.std.specs.Prelude.{◌≡◌};
ghost use Rattle.format.specs.Refusals.{read_numbers};
ghost use Rattle.clip_information.specs.Read.{read_answer_of};
ghost use Rattle.clpi_reading.specs.Numbers.{reading_numbers, refused_numbers, CountsFit};

use clip_information::read::Accepted;
use clip_prepare::ReadError;

// What reading answers; every number beside a refusal is 0, but for the table and the rows that 21 tells.
#[repr(C)]
#[derive(Clone, Copy, Default)]
pub struct ClpiReading {
    pub refusal: u32,
    pub table: u32,
    pub rows_needed: u32,
    pub letters: u32,
    pub version: u32,
    pub clip_stream_type: u32,
    pub application_type: u32,
    pub ts_recording_rate: u32,
    pub number_of_source_packets: u32,
    pub validity_flags: u32,
    pub format_id: u32,
    pub marks: u32,
    pub atcs: u32,
    pub stcs: u32,
    pub programs: u32,
    pub streams: u32,
    pub maps: u32,
    pub entries: u32,
    pub extensions: u32,
    pub list_programs: u32,
    pub list_streams: u32,
    pub has_list: u32,
}

// The numbers of a refusal, by its own, with the table and the rows it needs where it is 21.
pub fn refused(refusal: u32, table: u32, rows_needed: u32) -> ClpiReading
    ensures { reading_numbers result ≡ refused_numbers refusal table rows_needed }
{
    ClpiReading {
        refusal,
        table,
        rows_needed,
        ..ClpiReading::default()
    }
}

// The numbers of an answer. No `From`, since it asks that the counts fit.
pub fn reading_of(answer: Result<Accepted, ReadError>) -> ClpiReading
    requires { CountsFit answer }
    ensures { reading_numbers result ≡ read_numbers (read_answer_of answer) }
{
    match answer {
        Ok(read) => {
            let info = read.info;
            let rows = read.rows;
            ClpiReading {
                refusal: 0,
                table: 0,
                rows_needed: 0,
                letters: info.letters,
                version: info.version,
                clip_stream_type: info.clip_stream_type,
                application_type: info.application_type,
                ts_recording_rate: info.ts_recording_rate,
                number_of_source_packets: info.number_of_source_packets,
                validity_flags: info.validity_flags,
                format_id: info.format_id,
                marks: read.marks,
                atcs: rows.atcs as u32,
                stcs: rows.stcs as u32,
                programs: rows.programs as u32,
                streams: rows.streams as u32,
                maps: rows.maps as u32,
                entries: rows.entries as u32,
                extensions: rows.extensions as u32,
                list_programs: rows.list_programs as u32,
                list_streams: rows.list_streams as u32,
                has_list: read.has_list as u32,
            }
        }
        Err(ReadError::Refused(refusal)) => refused(refusal.number(), 0, 0),
        Err(ReadError::TableShort(short)) => refused(21, short.table, short.rows as u32),
    }
}
