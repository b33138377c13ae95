// Big-endian numbers of up to eight bytes, read and stored where they are known to lie inside the slice, and bytes copied.
// Up to four bytes are a u32, as a table's cell is: `u32_at` and `put_u32`; of more there is `be_at` and `put_be`. With one form for all, each of some hundred callers would narrow 64 bits and prove that they fit.
// Every byte of a new file is stored by `put_be`, `put_zeros` and `copy`, and nowhere else. The place goes beside the output: a map's header is stored behind its body, so an output does not only grow at its end.
#![tactic(auto)]

ghost use Rattle.std.specs.Prelude.{◌≡◌, ◌+◌, ◌≤◌, length};
ghost use Rattle.std.proofs.lemmas.List.Edits.{sets};
ghost use Rattle.format.specs.Bytes.{bytes_of, part};
ghost use Rattle.numbers.specs.Reads.{ReadIs};

// The N bytes from `at` as one number: the form for more than four.
pub fn be_at<const N: usize>(s: &[u8], at: usize) -> u64
    requires { (at + N ≤ length s.now) × (N ≤ 8) }
    ensures { ReadIs s.now at N result }
{
    let mut bytes = [0; 8];
    bytes[8 - N..8].copy_from_slice(&s[at..at + N]);
    u64::from_be_bytes(bytes)
}

// The N bytes from `at` as one number that is a table's cell. Of four it is one load, and its bytes in the other order.
pub fn u32_at<const N: usize>(s: &[u8], at: usize) -> u32
    requires { (at + N ≤ length s.now) × (N ≤ 4) }
    ensures { ReadIs s.now at N result }
{
    be_at::<N>(s, at) as u32
}

// Stores the N lowest bytes of v from `at`.
pub fn put_be<const N: usize>(out: &mut [u8], at: usize, v: u64)
    requires { (at + N ≤ length out.old) × (N ≤ 8) }
    ensures { out.new ≡ sets out.old at (bytes_of N v) }
{
    out[at..at + N].copy_from_slice(&v.to_be_bytes()[8 - N..]);
}

// Stores the N lowest bytes of v, a table's cell, from `at`.
pub fn put_u32<const N: usize>(out: &mut [u8], at: usize, v: u32)
    requires { (at + N ≤ length out.old) × (N ≤ 4) }
    ensures { out.new ≡ sets out.old at (bytes_of N v) }
{
    put_be::<N>(out, at, u64::from(v));
}

// Stores N zero bytes from `at`.
pub fn put_zeros<const N: usize>(out: &mut [u8], at: usize)
    requires { at + N ≤ length out.old }
    ensures { out.new ≡ sets out.old at (bytes_of N 0) }
{
    out[at..at + N].fill(0);
}

// Copies n bytes, from `from` on, to the output from `at` on. A loop: of a length that is not known, `copy_from_slice` is a call of memmove, and the library calls nothing outside it.
pub fn copy(s: &[u8], from: usize, n: usize, out: &mut [u8], at: usize)
    requires { (from + n ≤ length s.now) × (at + n ≤ length out.old) }
    ensures { out.new ≡ sets out.old at (part s.now from n) }
{
    for k in 0..n {
        out[at + k] = s[from + k];
    }
}
