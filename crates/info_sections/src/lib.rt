// The sequences and the programs section, read: a length that is ignored, a spare byte, a count of header rows, and each header row with its own rows behind it.
#![tactic(auto)]

ghost use Rattle.std.specs.Prelude.{◌≡◌, ◌+◌, ◌*◌, ◌≤◌, length};
ghost use Rattle.std.proofs.lemmas.List.Edits.{sets};
ghost use Rattle.format.specs.Tables.{row_bytes_of, table_bytes, overwritten};
ghost use Rattle.numbers.specs.Reads.{ReadIs};
ghost use Rattle.common.specs.Reader.{moved_to};
ghost use Rattle.info_sections.specs.Sections.{head_at, count_place, group_rows, own_cells, next_head, heads_from, section_rows, section_measured, GroupThere, Fillable};

use common::reader::{Reader, read_count};
use numbers::u32_at;
use program_info::{put_program, put_streams, skip_program};
use section_heads::Section;
use sequence_info::{put_atc, put_stcs, skip_atc};

// How many header rows a section has and how many rows behind them.
#[derive(Clone, Copy)]
pub struct SectionCounts {
    pub heads: usize,
    pub rows: usize,
}

// Past the header row at the reader and its own rows. The kind of section is a value: the contracts tell both kinds apart by it, and so do the crates that write sections.
fn skip_group(section: Section, file: &[u8], r: Reader) -> Option<Reader>
    ensures { result ≡ moved_to file.now (next_head section file.now r.pos) }
{
    match section {
        Section::Sequences => skip_atc(file, r),
        Section::Programs => skip_program(file, r),
    }
}

// How many rows the header row at p says.
fn own_count(section: Section, file: &[u8], p: usize) -> u32
    requires { count_place section p + 1 ≤ length file.now }
    ensures { ReadIs file.now (count_place section p) 1 result }
{
    match section {
        Section::Sequences => u32_at::<1>(file, p + 4),
        Section::Programs => u32_at::<1>(file, p + 6),
    }
}

// The bytes of a row behind a header row, in its table.
fn row_size(section: Section) -> usize
    ensures { result ≡ 4 * own_cells section }
{
    match section {
        Section::Sequences => 16,
        Section::Programs => 20,
    }
}

// Pass 1: the section's counts, for every file and every start; none where the section passes the file's end.
pub fn measure(section: Section, file: &[u8], start: usize) -> Option<SectionCounts>
    ensures { result ≡ section_measured section file.now start }
{
    let (count, first) = read_count(file, Reader { pos: start }, 5)?;
    let heads = count as usize;
    let mut head = first;
    let mut rows: usize = 0;
    for _ in 0..heads {
        let next = skip_group(section, file, head)?;
        rows += own_count(section, file, head.pos) as usize;
        head = next;
    }
    Some(SectionCounts { heads, rows })
}

// The header row at p, from byte `at` of its table, and the n rows behind it, from byte `to` of theirs; answers where these end.
fn put_group(
    section: Section,
    file: &[u8],
    p: usize,
    n: usize,
    heads: &mut [u8],
    at: usize,
    rows: &mut [u8],
    to: usize,
) -> usize
    requires { GroupThere section file.now p n heads.old at rows.old to }
    ensures value { result ≡ next_head section file.now p }
    ensures heads_after { heads.new ≡ sets heads.old at (row_bytes_of (head_at section file.now p)) }
    ensures rows_after { rows.new ≡ sets rows.old to (table_bytes (group_rows section file.now p)) }
{
    match section {
        Section::Sequences => {
            put_atc(file, p, heads, at);
            put_stcs(file, p + 6, n, rows, to)
        }
        Section::Programs => {
            put_program(file, p, heads, at);
            put_streams(file, p + 8, n, rows, to)
        }
    }
}

// Pass 2: the rows of the section that starts at `start`, which ends within the file, at the front of both tables.
pub fn fill(section: Section, file: &[u8], start: usize, heads: &mut [u8], rows: &mut [u8])
    requires { Fillable section file.now start heads.old rows.old }
    ensures heads_after { heads.new ≡ overwritten (table_bytes (heads_from section file.now start)) heads.old }
    ensures rows_after { rows.new ≡ overwritten (table_bytes (section_rows section file.now start)) rows.old }
{
    let count = u32_at::<1>(file, start + 5) as usize;
    let step = row_size(section);
    let mut p = start + 6;
    let mut to: usize = 0;
    for k in 0..count {
        let n = own_count(section, file, p) as usize;
        p = put_group(section, file, p, n, heads, 12 * k, rows, to);
        to += step * n;
    }
}
