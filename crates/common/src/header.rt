// The front of a file: four letters, HDMV or CLPI, a version of four bytes, and the starts of the sections behind it. No other file reads them.
ghost use Rattle.std.specs.Prelude.{◌≡◌, ◌≤◌, length};
ghost use Rattle.format.specs.ClipRecord.{are_letters};
ghost use Rattle.common.specs.Header.{HeaderIs, parsed_of, StartsAre};

use numbers::u32_at;
use refusals::Refusal;

// The letters and the version, a number each with its first byte highest, whatever they say.
#[derive(Clone, Copy)]
pub struct BdmvHeader {
    pub type_indicator: u32,
    pub version_number: u32,
}

// Where the sections start, counted from the file's first byte: 0 where there is none, as the file has it; a start may lie past the end.
#[derive(Clone, Copy)]
pub struct Starts {
    pub sequences: usize,
    pub programs: usize,
    pub cpi: usize,
    pub marks: usize,
    pub extensions: usize,
}

// The letters and the version, in bytes.
const SIZE: usize = 8;

// The letters HDMV as one number.
const HDMV: u32 = 0x48444D56;

// The letters CLPI as one number.
const CLPI: u32 = 0x434C5049;

// Whether four letters as one number are those of a clip file.
pub fn is_clip(letters: u32) -> bool
    ensures { result ≡ are_letters letters }
{
    letters == HDMV || letters == CLPI
}

impl BdmvHeader {
    // The letters and the version of a file that has both.
    pub fn read(file: &[u8]) -> BdmvHeader
        requires { 8 ≤ length file.now }
        ensures { HeaderIs file.now result }
    {
        BdmvHeader {
            type_indicator: u32_at::<4>(file, 0),
            version_number: u32_at::<4>(file, 4),
        }
    }

    // The letters and the version of any file, the letters tested.
    pub fn parse(buf: &[u8]) -> Result<BdmvHeader, Refusal>
        ensures { result ≡ parsed_of buf.now }
    {
        if buf.len() < SIZE {
            return Err(Refusal::HeaderShort);
        }
        let header = BdmvHeader::read(buf);
        if is_clip(header.type_indicator) {
            Ok(header)
        } else {
            Err(Refusal::Letters)
        }
    }
}

impl Starts {
    // The five starts of a file that has a header.
    pub fn read(file: &[u8]) -> Starts
        requires { 28 ≤ length file.now }
        ensures { StartsAre file.now result }
    {
        Starts {
            sequences: u32_at::<4>(file, 8) as usize,
            programs: u32_at::<4>(file, 12) as usize,
            cpi: u32_at::<4>(file, 16) as usize,
            marks: u32_at::<4>(file, 20) as usize,
            extensions: u32_at::<4>(file, 24) as usize,
        }
    }
}
