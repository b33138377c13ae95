// Bytes held against the stored answer, from front to back.
#![tactic(auto)]

ghost use Rattle.std.specs.Prelude.{◌≡◌, Some};
ghost use Rattle.format.specs.Tables.{row_bytes_of};
ghost use Rattle.replay_bytes.specs.Parts.{behind, behind_part};

use cells::cell_at;

// The place behind n bytes of the answer from `at`, where they are the n bytes of the other from `from`. These come as a
// place and a length, since the other may end before them: then there is no place either.
pub fn pass(answer: &[u8], at: usize, other: &[u8], from: usize, n: usize) -> Option<usize>
    ensures { result ≡ behind_part answer.now (Some at) other.now from n }
{
    let part = other.get(from..)?.get(..n)?;
    if answer.get(at..)?.starts_with(part) {
        Some(at + n)
    } else {
        None
    }
}

// The place behind the numbers, each a cell of the answer from its front.
pub fn pass_numbers(answer: &[u8], numbers: &[u32]) -> Option<usize>
    ensures { result ≡ behind answer.now (Some 0) (row_bytes_of numbers.now) }
{
    if answer.len() / 4 < numbers.len() {
        return None;
    }
    for (k, n) in numbers.iter().enumerate() {
        if cell_at(answer, 4 * k) != *n {
            return None;
        }
    }
    Some(4 * numbers.len())
}
