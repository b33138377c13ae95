// The walk over coarse rows: which one each fine row uses, in one pass.
ghost use Rattle.std.specs.Prelude.{◌≡◌, ◌+◌, ◌*◌, ◌≤◌, ◌<◌, length};
ghost use Rattle.ep_entries.specs.Body.{coarse_in};
ghost use Rattle.ep_entries.specs.Walks.{next_first, walk_at, Steps, IsWalk, Reached};

use crate::body::MapBody;
use ep_rows::coarse_row;
use numbers::be_at;

// The coarse row in use: its time and packet; the fine row that it is used up to; where the row behind it stands, and how many rows are left there. It is used up to the first fine row of the row behind it, and with none left up to the map's end: so the loops need one test, not two.
#[derive(Clone, Copy)]
pub struct Walk {
    pub time: u32,
    pub packet: u32,
    pub end: usize,
    pub behind: usize,
    pub left: usize,
}

// The first fine row of the first of the n coarse rows at p; with none, `last`.
fn next_first(file: &[u8], p: usize, n: usize, last: usize) -> usize
    requires { p + 8 * n ≤ length file.now }
    ensures { result ≡ next_first file.now p n last }
{
    if n == 0 {
        return last;
    }
    coarse_row(be_at::<8>(file, p)).first_fine as usize
}

// The walk at the first of the n coarse rows at p, in a map that ends at fine row `last`.
fn at_row(file: &[u8], p: usize, n: usize, last: usize) -> Walk
    requires { (p + 8 * n ≤ length file.now) × (0 < n) }
    ensures { result ≡ walk_at file.now p n last }
{
    let row = coarse_row(be_at::<8>(file, p));
    let end = next_first(file, p + 8, n - 1, last);
    Walk {
        time: row.time,
        packet: row.packet,
        end,
        behind: p + 8,
        left: n - 1,
    }
}

impl Walk {
    // The walk for the map's fine row 0; with no coarse rows, zeros.
    pub fn start(file: &[u8], m: MapBody) -> Walk
        requires { m.coarse + 8 * m.num_coarse ≤ length file.now }
        ensures { IsWalk file.now m.num_fine (coarse_in file.now m) 0 result }
    {
        if m.num_coarse == 0 {
            return Walk {
                time: 0,
                packet: 0,
                end: m.num_fine,
                behind: m.coarse,
                left: 0,
            };
        }
        at_row(file, m.coarse, m.num_coarse, m.num_fine)
    }

    // The walk at the next coarse row.
    pub(crate) fn step(self, file: &[u8], m: MapBody) -> Walk
        requires { (self.behind + 8 * self.left ≤ length file.now) × (0 < self.left) }
        ensures { result ≡ walk_at file.now self.behind self.left m.num_fine }
    {
        at_row(file, self.behind, self.left, m.num_fine)
    }

    // The walk for fine row k: steps on while the next coarse row's first fine row is at most k.
    pub fn reach(self, file: &[u8], m: MapBody, k: usize) -> Walk
        requires { Steps file.now m.num_fine self × (k < m.num_fine) }
        ensures { Reached file.now m.num_fine k self result }
    {
        let mut w = self;
        while w.end <= k {
            w = w.step(file, m);
        }
        w
    }
}
