// The row of a stream: its PID and what its body says, with the aspect of video and the language of all else.
#![tactic(auto)]

ghost use Rattle.std.specs.Prelude.{◌≡◌, ◌+◌, ◌≤◌, length, get_or};
ghost use Rattle.std.proofs.lemmas.List.Edits.{sets};
ghost use Rattle.format.specs.Programs.{aspect_at, language_at, stream_at, next_stream};
ghost use Rattle.format.specs.Tables.{row_bytes_of};
ghost use Rattle.stream_coding_info.specs.Bodies.{info_row};

use cells::put_row;
use numbers::u32_at;
use stream_coding::is_video;

// A stream's PID and what its body says: an aspect of video alone, and a language of all else, 0 for none, as the cells of its row have them. Which of the two is a `bool`, told once by the coding type.
#[derive(Clone, Copy)]
pub struct StreamCodingInfo {
    pub pid: u32,
    pub stream_coding_type: u32,
    pub format_info_byte: u32,
    pub aspect_ratio_nibble: u32,
    pub language_code: u32,
}

// Byte i of a body, 0 where it is absent.
fn body_byte(body: &[u8], i: usize) -> u32
    ensures { result ≡ get_or body.now i 0 }
{
    u32::from(*body.get(i).unwrap_or(&0))
}

// The aspect of a body: the high four bits of a video body's byte 2.
#[tactic(auto, unfolding(format::specs::Bytes::be_at))]
fn aspect(body: &[u8], video: bool) -> u32
    ensures { result ≡ aspect_at video body.now 0 (length body.now) }
{
    if video { body_byte(body, 2) / 16 } else { 0 }
}

// The language of a body: bytes 2 to 4 of one that is not video, with letters in lower case.
#[tactic(auto, unfolding(format::specs::Bytes::be_at, format::specs::Programs::lower, format::specs::Programs::lowered))]
fn language(body: &[u8], video: bool) -> u32
    ensures { result ≡ language_at video body.now 0 (length body.now) }
{
    if video || body.len() < 5 {
        return 0;
    }
    u32::from_be_bytes([
        0,
        body[2].to_ascii_lowercase(),
        body[3].to_ascii_lowercase(),
        body[4].to_ascii_lowercase(),
    ])
}

// The stream at p. Nothing is read past the body's end.
pub fn stream_at(file: &[u8], p: usize) -> StreamCodingInfo
    requires { next_stream file.now p ≤ length file.now }
    ensures { info_row result ≡ stream_at file.now p }
{
    let size = u32_at::<1>(file, p + 2) as usize;
    let body = &file[p + 3..p + 3 + size];
    let coding = body_byte(body, 0);
    let video = is_video(coding);
    StreamCodingInfo {
        pid: u32_at::<2>(file, p),
        stream_coding_type: coding,
        format_info_byte: body_byte(body, 1),
        aspect_ratio_nibble: aspect(body, video),
        language_code: language(body, video),
    }
}

// The row of the stream at p, from byte `at` of the table.
pub fn put_stream(file: &[u8], p: usize, table: &mut [u8], at: usize)
    requires { (next_stream file.now p ≤ length file.now) × (at + 20 ≤ length table.old) }
    ensures { table.new ≡ sets table.old at (row_bytes_of (stream_at file.now p)) }
{
    let s = stream_at(file, p);
    put_row(
        table,
        at,
        [
            s.pid,
            s.stream_coding_type,
            s.format_info_byte,
            s.aspect_ratio_nibble,
            s.language_code,
        ],
    );
}
