// The sections of header rows, what one of a written file begins with, and the empty marks at the file's end.
#![tactic(auto)]

ghost use Rattle.std.specs.Prelude.{◌≡◌, [], ◌∷◌, ◌+◌, ◌≤◌, length};
ghost use Rattle.std.proofs.lemmas.List.Edits.{sets};
ghost use Rattle.format.specs.Bytes.{field_bytes};
ghost use Rattle.format.specs.Rewriting.{marks_bytes};

use numbers::put_u32;

// The two sections of header rows with their own rows behind them. A value and no type: definitions and contracts tell the two apart by it.
#[derive(Clone, Copy)]
pub enum Section {
    Sequences,
    Programs,
}

// Stores what a section begins with: the length of what follows it, a spare byte, and the count of its header rows.
pub fn put_head(size: u32, n: u32, out: &mut [u8], at: usize)
    requires { at + 6 ≤ length out.old }
    ensures { out.new ≡ sets out.old at (field_bytes (4 ∷ 1 ∷ 1 ∷ []) (size ∷ 0 ∷ n ∷ [])) }
{
    put_u32::<4>(out, at, size);
    put_u32::<1>(out, at + 4, 0);
    put_u32::<1>(out, at + 5, n);
}

// Empty marks: length 2, count 0.
pub fn put_marks(out: &mut [u8], at: usize)
    requires { at + 6 ≤ length out.old }
    ensures { out.new ≡ sets out.old at marks_bytes }
{
    put_u32::<4>(out, at, 2);
    put_u32::<2>(out, at + 4, 0);
}
