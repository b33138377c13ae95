// Questions about the programs and their streams.
ghost use Rattle.std.specs.Prelude.{◌≡◌};
ghost use Rattle.format.specs.Questions.{answer_numbers, ask, stream_by_pid, primary_video_pid, program_by_pmt_pid, next_video_stream, next_audio_stream};
ghost use Rattle.format.specs.Tables.{stream_cells, stated};
ghost use Rattle.queries.specs.Asked.{only_programs, only_streams};
ghost use Rattle.table_rows.specs.OwnRows.{owned_rows, owned_numbers};
ghost use Rattle.clpi_answers.specs.Numbers.{found_numbers, rows_numbers};

use crate::table;
use clpi_answers::{ClpiAnswer, ClpiRows, answer_of, rows_of};
use program_queries::{
    next_audio_stream, next_video_stream, primary_video_pid, program_by_pmt_pid, stream_by_pid,
    streams_of_program,
};

// The row of the first stream with this PID.
pub fn clpi_stream_by_pid(streams: &[u8], rows: u32, pid: u16) -> ClpiAnswer
    ensures { found_numbers result ≡ answer_numbers (ask (stream_by_pid pid) (only_streams (stated streams.now rows))) }
{
    let streams = table(streams, rows);
    answer_of(stream_by_pid(streams, pid))
}

// The PID of the first stream that is video.
pub fn clpi_primary_video_pid(streams: &[u8], rows: u32) -> ClpiAnswer
    ensures { found_numbers result ≡ answer_numbers (ask primary_video_pid (only_streams (stated streams.now rows))) }
{
    let streams = table(streams, rows);
    answer_of(primary_video_pid(streams))
}

// The row of the first program whose map table has this PID.
pub fn clpi_program_by_pmt_pid(programs: &[u8], rows: u32, pid: u16) -> ClpiAnswer
    ensures { found_numbers result ≡ answer_numbers (ask (program_by_pmt_pid pid) (only_programs (stated programs.now rows))) }
{
    let programs = table(programs, rows);
    answer_of(program_by_pmt_pid(programs, pid))
}

// The streams of a program: the first and how many.
pub fn clpi_streams_of_program(
    programs: &[u8],
    program_rows: u32,
    streams: &[u8],
    stream_rows: u32,
    program: u32,
) -> ClpiRows
    ensures { rows_numbers result ≡ owned_numbers (owned_rows 2 stream_cells (stated programs.now program_rows) (stated streams.now stream_rows) program) }
{
    let programs = table(programs, program_rows);
    let streams = table(streams, stream_rows);
    rows_of(streams_of_program(programs, streams, program))
}

// The row of the first video stream from a row on.
pub fn clpi_next_video_stream(streams: &[u8], rows: u32, from: u32) -> ClpiAnswer
    ensures { found_numbers result ≡ answer_numbers (ask (next_video_stream «from») (only_streams (stated streams.now rows))) }
{
    let streams = table(streams, rows);
    answer_of(next_video_stream(streams, from))
}

// The row of the first audio stream from a row on.
pub fn clpi_next_audio_stream(streams: &[u8], rows: u32, from: u32) -> ClpiAnswer
    ensures { found_numbers result ≡ answer_numbers (ask (next_audio_stream «from») (only_streams (stated streams.now rows))) }
{
    let streams = table(streams, rows);
    answer_of(next_audio_stream(streams, from))
}
