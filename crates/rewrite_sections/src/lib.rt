// The sequences and the programs of the new file, straight from the old one: no table stands between.
#![tactic(auto)]

ghost use Rattle.std.specs.Prelude.{◌≡◌, ◌+◌, ◌*◌, ◌^◌, ◌<◌, ◌≤◌, length};
ghost use Rattle.std.proofs.lemmas.List.Edits.{sets};
ghost use Rattle.format.specs.Bytes.{end_of};
ghost use Rattle.format.specs.Programs.{next_program, programs_end};
ghost use Rattle.rewrite_sections.specs.Sections.{new_sequences, SequencesRoom, new_items, new_programs, ProgramsRoom};

use numbers::{copy, u32_at};
use rewrite_program::{Places, measure_program, put_program};
use section_heads::put_head;

// Stores the new sequences at their place, behind their head the very bytes of the old ones; answers the place behind.
pub fn put_sequences(file: &[u8], from: Places, atcs: usize, stcs: usize, out: &mut [u8]) -> usize
    requires { SequencesRoom file.now from.file atcs stcs out.old from.out }
    ensures value { result ≡ from.out + (6 + 6 * atcs + 14 * stcs) }
    ensures out_after { out.new ≡ sets out.old from.out (new_sequences file.now from.file) }
{
    let items = 6 * atcs + 14 * stcs;
    put_head((2 + items) as u32, atcs as u32, out, from.out);
    copy(file, from.file + 6, items, out, from.out + 6);
    from.out + 6 + items
}

// Where the new bytes of the n programs end that begin at these places. Beside `put_items` for the reason that `measure_streams` has beside `put_streams`.
fn measure_items(file: &[u8], n: usize, from: Places) -> usize
    requires { (end_of (next_program file.now) from.file n ≤ length file.now) × (from.out + length (new_items file.now from.file n) < 2 ^ 32) }
    ensures { result ≡ from.out + length (new_items file.now from.file n) }
{
    let mut to = from;
    for _ in 0..n {
        to = measure_program(file, to);
    }
    to.out
}

// How long the new programs are.
pub fn programs_length(file: &[u8], start: usize) -> usize
    requires { programs_end file.now start ≤ length file.now }
    ensures { result ≡ length (new_programs file.now start) }
{
    let num_programs = u32_at::<1>(file, start + 5) as usize;
    let items = Places {
        file: start + 6,
        out: 6,
    };
    measure_items(file, num_programs, items)
}

// Stores the new bytes of the n programs that begin at these places; answers the place behind them.
fn put_items(file: &[u8], n: usize, from: Places, out: &mut [u8]) -> usize
    requires { (end_of (next_program file.now) from.file n ≤ length file.now) × (from.out + length (new_items file.now from.file n) ≤ length out.old) }
    ensures value { result ≡ from.out + length (new_items file.now from.file n) }
    ensures out_after { out.new ≡ sets out.old from.out (new_items file.now from.file n) }
{
    let mut to = from;
    for _ in 0..n {
        to = put_program(file, to, out);
    }
    to.out
}

// Stores the new programs, which are `size` bytes long, at their place; answers the place behind.
pub fn put_programs(file: &[u8], from: Places, size: usize, out: &mut [u8]) -> usize
    requires { ProgramsRoom file.now from.file size out.old from.out }
    ensures value { result ≡ from.out + size }
    ensures out_after { out.new ≡ sets out.old from.out (new_programs file.now from.file) }
{
    let num_programs = u32_at::<1>(file, from.file + 5);
    put_head((size - 4) as u32, num_programs, out, from.out);
    let items = Places {
        file: from.file + 6,
        out: from.out + 6,
    };
    put_items(file, num_programs as usize, items, out)
}
