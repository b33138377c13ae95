// The nearest of some times to the one asked for, before it or after it: one scan, for times in any order; and a step for one row, for a caller that goes through rows itself, with what is found at the end.
#![tactic(auto)]

ghost use Rattle.std.specs.Prelude.{◌≡◌, ◌<◌, ℕ, List, Ok};
ghost use Rattle.queries.specs.Answers.{found_of};
ghost use Rattle.nearest.specs.Nearest.{on_side, distance_to, row_in, Tells, distance_on, none_yet, closer_at, closer_of, row_found};

// The times that are asked for: those at or before one, or those after it. An enum and no closures: which times are asked for, how far each is and what stands for none go by it, and a caller would hand over all three.
#[derive(Clone, Copy)]
pub enum Side {
    AtOrBefore,
    After,
}

impl Side {
    // Whether a time is on this side of the one asked for.
    fn has(self, at: u64, time: u64) -> bool
        ensures { result ≡ on_side self at time }
    {
        match self {
            Side::AtOrBefore => time <= at,
            Side::After => at < time,
        }
    }

    // How far a time is from the one asked for, counted round 2^64, so that each time on this side is nearer than all on the other.
    fn distance(self, at: u64, time: u64) -> u64
        ensures { result ≡ distance_to self at time }
    {
        match self {
            Side::AtOrBefore => at.wrapping_sub(time),
            Side::After => time.wrapping_sub(at).wrapping_sub(1),
        }
    }

    // How far a time on this side is from the one asked for; the very next after it is at 0. A time on the other side is far.
    fn distance_on(self, at: u64, time: u64) -> u64
        ensures { result ≡ distance_on self at time }
    {
        match self {
            Side::AtOrBefore if time <= at => at - time,
            Side::After if at < time => time - (at + 1),
            _ => FAR,
        }
    }
}

// The row of the nearest time on one side, the earliest among equals, of so many that the closure tells; none without rows; row 0 where all are later and one at or before is asked for.
// The loop keeps a distance and no `Option`: whether its time is on the side is asked once, behind it.
pub fn nearest_row<F: Fn(usize) -> u64>(rows: usize, side: Side, at: u64, time_of: F) -> Option<u64>
    requires { (k : ℕ) → k < rows → F.pre time_of k }
    ensures { (times : List ℕ) → Tells (F.post time_of) rows times → found_of (Ok result) ≡ row_in side times at }
{
    if rows == 0 {
        return None;
    }
    let mut nearest = 0;
    let mut least = side.distance(at, time_of(0));
    for k in 1..rows {
        let distance = side.distance(at, time_of(k));
        if distance < least {
            nearest = k;
            least = distance;
        }
    }
    if side.has(at, time_of(nearest)) {
        return Some(nearest as u64);
    }
    match side {
        Side::AtOrBefore => Some(0),
        Side::After => None,
    }
}

// Farther than any time of 64 bits is from one that is asked for. A time after that one counts from 0, so that the distance of no time is this number.
const FAR: u64 = 18446744073709551615;

// The row of the nearest time, the earliest among equals, and how far it is; row 0 and far where all stand on the other side.
#[derive(Clone, Copy)]
pub struct Nearest {
    pub row: usize,
    pub distance: u64,
}

// Before any row is looked at.
pub fn none_yet() -> Nearest
    ensures { result ≡ none_yet }
{
    Nearest {
        row: 0,
        distance: FAR,
    }
}

// The nearest so far, or row k at distance d where that is nearer.
fn closer(so_far: Nearest, k: usize, d: u64) -> Nearest
    ensures { result ≡ closer_at so_far k d }
{
    if d < so_far.distance {
        Nearest {
            row: k,
            distance: d,
        }
    } else {
        so_far
    }
}

// The nearest so far, or row k with this time where that is nearer.
pub fn look_at_time(so_far: Nearest, k: usize, side: Side, at: u64, time: u64) -> Nearest
    ensures { result ≡ closer_of side at so_far k time }
{
    closer(so_far, k, side.distance_on(at, time))
}

// The row that is found once all are looked at: none without rows; row 0 where all are later and one at or before is asked for.
pub fn found_row(nearest: Nearest, rows: usize, side: Side) -> Option<u64>
    ensures { found_of (Ok result) ≡ row_found side rows nearest }
{
    match side {
        _ if rows == 0 => None,
        Side::After if nearest.distance == FAR => None,
        _ => Some(nearest.row as u64),
    }
}
