// The listing program's reading and writing: the listing of a reader's bytes, written to a writer. The text is
// `clip_listing::list`'s.
#![tactic(auto)]

ghost use Rattle.std.specs.Prelude.{◌≤◌, ◌<◌, length, take, IfOk};
ghost use Rattle.std.specs.Io.KnownBytes.{Appends, Consumes, IsAtEnd};
ghost use Rattle.format.specs.Listing.{listing};
ghost use Rattle.clip_listing.specs.Told.{listing_room};
ghost use Rattle.listing_io.specs.ShownInput.{ShowsInput};

use clip_listing::list;
use input::read_input;
use std::io;
use std::io::{Read, Write};
use thiserror::Error;

// The bytes that an input is read into: one over the listing's limit, which tells that there are more.
pub const INPUT: usize = 65537;

// The bytes that every listing has room in.
pub const TEXT: usize = 262144;

// How many bytes were read, and the length of their listing.
#[derive(Clone, Copy, Debug)]
pub struct ListedInput {
    pub read: usize,
    pub len: usize,
}

// The read that failed, or the write, with what stands in the buffers all the same.
#[derive(Debug, Drop, Error)]
pub enum ListError {
    #[error("reading: {0}")]
    Read(io::Error),
    #[error("writing: {1}")]
    Write(ListedInput, io::Error),
}

// Reads to the end, or until the input's buffer is full, and writes the listing of what was read. Both stand in the buffers afterwards. Where a read fails nothing is listed.
pub fn list_input<R: Read, W: Write>(
    reader: &mut R,
    writer: &mut W,
    input: &mut [u8],
    out: &mut [u8],
) -> Result<ListedInput, ListError>
    requires { listing_room ≤ length out.old }
    ensures shown { ShowsInput input.new out.old out.new result }
    ensures bytes { IfOk result (λ l. Consumes (R.remaining reader.old) (R.remaining reader.new) (take l.read input.new)) }
    ensures end { IfOk result (λ l. l.read < length input.new → IsAtEnd (R.remaining reader.new)) }
    ensures written { IfOk result (λ l. Appends (W.contents writer.old) (W.contents writer.new)
        (listing (take l.read input.new))) }
{
    let read = read_input(reader, input).map_err(ListError::Read)?;
    let len = list(&input[..read], out);
    let listed = ListedInput { read, len };
    writer
        .write_all(&out[..len])
        .map_err(|e| ListError::Write(listed, e))?;
    Ok(listed)
}
