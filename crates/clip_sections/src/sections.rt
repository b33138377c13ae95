// The sections measured in the order of their refusals.
ghost use Rattle.std.specs.Prelude.{◌≡◌};
ghost use Rattle.refusals.specs.Numbers.{numbered, refusal_in};
ghost use Rattle.clip_sections.specs.Clips.{front_of, sections_of};
ghost use Rattle.format.specs.ClipRecord.{marks_in};

use common::header::{BdmvHeader, Starts};
use numbers::u32_at;
use refusals::Refusal;
use section_heads::Section;

// The rows of tables 1 to 6.
#[derive(Clone, Copy)]
pub struct Sections {
    pub atcs: usize,
    pub stcs: usize,
    pub programs: usize,
    pub streams: usize,
    pub maps: usize,
    pub entries: usize,
}

// The greatest file that is read.
const MOST: usize = 536870912;

// Whether the marks, where there are any, are in the file.
fn marks_in(file: &[u8], start: usize) -> bool
    ensures { result ≡ marks_in file.now start }
{
    let len = file.len();
    if start == 0 || len <= start {
        return true;
    }
    6 <= len - start
}

// The header and ClipInfo, tested.
fn front(file: &[u8]) -> Result<(), Refusal>
    ensures { refusal_in result ≡ front_of file.now }
{
    let len = file.len();
    if MOST < len {
        return Err(Refusal::FileTooLong);
    }
    BdmvHeader::parse(file)?;
    if len < 40 {
        return Err(Refusal::HeaderShort);
    }
    if len < 194 {
        return Err(Refusal::ClipInfo);
    }
    if len - 44 < u32_at::<4>(file, 40) as usize {
        return Err(Refusal::ClipInfo);
    }
    Ok(())
}

// Every section in its turn: its rows, or the first refusal.
pub fn measure(file: &[u8]) -> Result<Sections, Refusal>
    ensures { numbered result ≡ sections_of file.now }
{
    front(file)?;
    let starts = Starts::read(file);
    let sequences = info_sections::measure(Section::Sequences, file, starts.sequences).ok_or(
        Refusal::Sequences,
    )?;
    let programs = info_sections::measure(Section::Programs, file, starts.programs).ok_or(
        Refusal::Programs,
    )?;
    let index = cpi::maps::measure(file, starts.cpi)?;
    if !marks_in(file, starts.marks) {
        return Err(Refusal::Marks);
    }
    Ok(Sections {
        atcs: sequences.heads,
        stcs: sequences.rows,
        programs: programs.heads,
        streams: programs.rows,
        maps: index.maps,
        entries: index.entries,
    })
}
