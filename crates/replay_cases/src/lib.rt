// A stored sample of the Rust's answers: how many cases it has, and how many of them are read as the Rust read them.
#![tactic(auto)]

ghost use Rattle.std.specs.Prelude.{◌≡◌, ◌+◌, ◌≤◌, length};
ghost use Rattle.replay_cases.specs.Sample.{case_same, cases_of, tally_of};

use cells::cell_at;
use replay_case::is_same;

// How many cases a class has, and how many of them are read as the Rust read them.
#[derive(Clone, Copy)]
pub struct Tally {
    pub cases: usize,
    pub same: usize,
}

// Whether the file of n bytes behind the two cells of a case is read as the answer of m bytes behind it says.
fn is_case_same(case: &[u8], n: usize, m: usize) -> bool
    requires { 8 + n + m ≤ length case.now }
    ensures { result ≡ case_same case.now 8 n m }
{
    let middle = 8 + n;
    let end = middle + m;
    is_same(&case[8..middle], &case[middle..end])
}

// Goes through the cases: two cells with the lengths of file and answer, then both.
pub fn replay(sample: &[u8]) -> Tally
    ensures { result ≡ tally_of (cases_of sample.now) }
{
    let mut cases = 0;
    let mut same = 0;
    let mut rest = sample;
    while rest.len() >= 8 {
        let n = cell_at(rest, 0) as usize;
        let m = cell_at(rest, 4) as usize;
        if n + m > rest.len() - 8 {
            break;
        }
        same += usize::from(is_case_same(rest, n, m));
        cases += 1;
        rest = &rest[8 + n + m..];
    }
    Tally { cases, same }
}
