// Questions about the programs and their streams: the first in file order, and the next.
#![tactic(auto)]

ghost use Rattle.std.specs.Prelude.{◌≡◌};
ghost use Rattle.format.specs.Questions.{ask, stream_by_pid, primary_video_pid, program_by_pmt_pid, next_video_stream, next_audio_stream};
ghost use Rattle.format.specs.Tables.{stream_cells, stated};
ghost use Rattle.queries.specs.Answers.{found_of};
ghost use Rattle.queries.specs.Asked.{only_programs, only_streams};
ghost use Rattle.table_rows.specs.OwnRows.{owned_of, owned_rows};

use cells::cell_at;
use queries::Found;
use refusals::Refusal;
use row_search::first_row;
use stream_coding::{is_audio, is_video};
use table_rows::Table;
use table_rows::own::{OwnRows, own_rows};

// The cells of a program's row (packet, PID, stream count), and of a stream's (PID, coding type, format, aspect, language).
const PROGRAM: usize = 3;

const STREAM: usize = 5;

// The cells of a program's row that have the PID and the count.
const PMT_PID: usize = 1;

const COUNT: usize = 2;

// The cells of a stream's row that have the PID and the coding type.
const PID: usize = 0;

const CODING: usize = 1;

// The streams of a program, by the first and their number.
pub fn streams_of_program(programs: Table, streams: Table, program: u32) -> Result<OwnRows, Refusal>
    ensures { owned_of result ≡ owned_rows 2 stream_cells (stated programs.entry.bytes.now programs.entry.rows) (stated streams.entry.bytes.now streams.entry.rows) program }
{
    own_rows(programs, streams, program, COUNT, STREAM)
}

// The row of the first program whose map table has this PID.
pub fn program_by_pmt_pid(programs: Table, pid: u16) -> Found
    ensures { found_of result ≡ ask (program_by_pmt_pid pid) (only_programs (stated programs.entry.bytes.now programs.entry.rows)) }
{
    let programs = programs.all_rows::<PROGRAM>()?;
    Ok(first_row(
        programs,
        0,
        |row| programs.cell(row, PMT_PID) == u32::from(pid),
    ))
}

// The row of the first stream with this PID.
pub fn stream_by_pid(streams: Table, pid: u16) -> Found
    ensures { found_of result ≡ ask (stream_by_pid pid) (only_streams (stated streams.entry.bytes.now streams.entry.rows)) }
{
    let streams = streams.all_rows::<STREAM>()?;
    Ok(first_row(streams, 0, |row| streams.cell(row, PID) == u32::from(pid)))
}

// The first video stream from a row on.
pub fn next_video_stream(streams: Table, from: u32) -> Found
    ensures { found_of result ≡ ask (next_video_stream «from») (only_streams (stated streams.entry.bytes.now streams.entry.rows)) }
{
    let streams = streams.all_rows::<STREAM>()?;
    Ok(first_row(streams, from, |row| is_video(streams.cell(row, CODING))))
}

// The first audio stream from a row on.
pub fn next_audio_stream(streams: Table, from: u32) -> Found
    ensures { found_of result ≡ ask (next_audio_stream «from») (only_streams (stated streams.entry.bytes.now streams.entry.rows)) }
{
    let streams = streams.all_rows::<STREAM>()?;
    Ok(first_row(streams, from, |row| is_audio(streams.cell(row, CODING))))
}

// The PID of the first stream that is video.
pub fn primary_video_pid(streams: Table) -> Found
    ensures { found_of result ≡ ask primary_video_pid (only_streams (stated streams.entry.bytes.now streams.entry.rows)) }
{
    let row = next_video_stream(streams, 0)?;
    Ok(row.map(|row| u64::from(cell_at(streams.bytes, 20 * (row as usize)))))
}
