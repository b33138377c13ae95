// Questions about the programs and their streams.
ghost use Rattle.std.specs.Prelude.{◌≡◌};
ghost use Rattle.format.specs.Questions.{answer_numbers, ask, stream_by_pid, primary_video_pid, program_by_pmt_pid, next_video_stream, next_audio_stream};
ghost use Rattle.format.specs.Tables.{stream_cells, stated};
ghost use Rattle.queries.specs.Asked.{only_programs, only_streams};
ghost use Rattle.table_rows.specs.OwnRows.{owned_rows, owned_numbers};
ghost use Rattle.clpi_answers.specs.Numbers.{found_numbers, rows_numbers};

use clpi_answers::{ClpiAnswer, ClpiRows};

// The row of the first stream with this PID.
#[unsafe(no_mangle)]
pub extern "C" fn clpi_stream_by_pid(streams: &[u8], rows: u32, pid: u16) -> ClpiAnswer
    ensures { found_numbers result ≡ answer_numbers (ask (stream_by_pid pid) (only_streams (stated streams.now rows))) }
{
    clpi::programs::clpi_stream_by_pid(streams, rows, pid)
}

// The PID of the first stream that is video.
#[unsafe(no_mangle)]
pub extern "C" fn clpi_primary_video_pid(streams: &[u8], rows: u32) -> ClpiAnswer
    ensures { found_numbers result ≡ answer_numbers (ask primary_video_pid (only_streams (stated streams.now rows))) }
{
    clpi::programs::clpi_primary_video_pid(streams, rows)
}

// The row of the first program whose map table has this PID.
#[unsafe(no_mangle)]
pub extern "C" fn clpi_program_by_pmt_pid(programs: &[u8], rows: u32, pid: u16) -> ClpiAnswer
    ensures { found_numbers result ≡ answer_numbers (ask (program_by_pmt_pid pid) (only_programs (stated programs.now rows))) }
{
    clpi::programs::clpi_program_by_pmt_pid(programs, rows, pid)
}

// The streams of a program: the first and how many.
#[unsafe(no_mangle)]
pub extern "C" fn clpi_streams_of_program(
    programs: &[u8],
    program_rows: u32,
    streams: &[u8],
    stream_rows: u32,
    program: u32,
) -> ClpiRows
    ensures { rows_numbers result ≡ owned_numbers (owned_rows 2 stream_cells (stated programs.now program_rows) (stated streams.now stream_rows) program) }
{
    clpi::programs::clpi_streams_of_program(programs, program_rows, streams, stream_rows, program)
}

// The row of the first video stream from a row on.
#[unsafe(no_mangle)]
pub extern "C" fn clpi_next_video_stream(streams: &[u8], rows: u32, from: u32) -> ClpiAnswer
    ensures { found_numbers result ≡ answer_numbers (ask (next_video_stream «from») (only_streams (stated streams.now rows))) }
{
    clpi::programs::clpi_next_video_stream(streams, rows, from)
}

// The row of the first audio stream from a row on.
#[unsafe(no_mangle)]
pub extern "C" fn clpi_next_audio_stream(streams: &[u8], rows: u32, from: u32) -> ClpiAnswer
    ensures { found_numbers result ≡ answer_numbers (ask (next_audio_stream «from») (only_streams (stated streams.now rows))) }
{
    clpi::programs::clpi_next_audio_stream(streams, rows, from)
}
