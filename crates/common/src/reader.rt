// The reader: a position by value beside the lent buffer, as document 01 has it. Each method answers for every position and every number of bytes.
ghost use Rattle.std.specs.Prelude.{◌≡◌, ◌+◌, ◌-◌, ◌≤◌, length, leb};
ghost use Rattle.common.specs.Reader.{start, moved_to, part_at, NumberIs};

use numbers::be_at;

// A place in a buffer; it may lie past the end.
#[derive(Clone, Copy)]
pub struct Reader {
    pub pos: usize,
}

// Whether n bytes from pos end within len bytes; no sum that could wrap.
fn within(len: usize, pos: usize, n: usize) -> bool
    ensures { result ≡ leb (pos + n) len }
{
    pos <= len && n <= len - pos
}

impl Reader {
    // A reader at the front.
    pub fn new() -> Reader
        ensures { result ≡ start }
    {
        Reader { pos: 0 }
    }

    // How many bytes are left; none where the position lies past the end.
    pub fn remaining(self, buf: &[u8]) -> usize
        ensures { result ≡ length buf.now - self.pos }
    {
        buf.len().saturating_sub(self.pos)
    }

    // To a place that lies within the buffer or at its end.
    pub fn seek(self, buf: &[u8], pos: usize) -> Option<Reader>
        ensures { result ≡ moved_to buf.now pos }
    {
        if pos > buf.len() {
            return None;
        }
        Some(Reader { pos })
    }

    // Past n bytes.
    pub fn skip(self, buf: &[u8], n: usize) -> Option<Reader>
        ensures { result ≡ moved_to buf.now (self.pos + n) }
    {
        let pos = self.pos;
        if within(buf.len(), pos, n) {
            Some(Reader { pos: pos + n })
        } else {
            None
        }
    }

    // The next n bytes, a part of the buffer itself; the empty part where they pass the end, which `skip` tells apart.
    pub fn slice(self, buf: &[u8], n: usize) -> &[u8]
        ensures { result.now ≡ part_at buf.now self.pos n }
    {
        let pos = self.pos;
        if within(buf.len(), pos, n) {
            let end = pos + n;
            &buf[pos..end]
        } else {
            &buf[0..0]
        }
    }

    // The next N bytes as a number, and the reader behind them.
    pub fn read<const N: usize>(self, buf: &[u8]) -> Option<(u64, Reader)>
        requires { N ≤ 8 }
        ensures { NumberIs buf.now self.pos N result }
    {
        let next = self.skip(buf, N)?;
        Some((be_at::<N>(buf, self.pos), next))
    }
}

// The count of one byte that stands n bytes behind the reader.
pub fn read_count(file: &[u8], r: Reader, n: usize) -> Option<(u64, Reader)>
    ensures { NumberIs file.now (r.pos + n) 1 result }
{
    r.skip(file, n)?.read::<1>(file)
}
