// The entries of one map, met one by one in the file: where a run ends, and how many runs there are.
ghost use Rattle.std.specs.Prelude.{◌≡◌, ◌<◌, ◌≤◌, ◌+◌, ◌*◌, length};
ghost use Rattle.format.specs.Rewriting.{runs, same_keys};
ghost use Rattle.ep_entries.specs.Body.{entries_in, RowsIn};
ghost use Rattle.map_runs.specs.Entries.{AtRow, IsMet, IsEnd, Under, OutsideIs, under};

use entry_rows::EntryRow;
use ep_entries::body::MapBody;
use ep_entries::entries::join;
use ep_entries::walk::Walk;
use numbers::u32_at;
use runs::same_key;

// A fine row's entry, and the walk that reached its coarse row.
#[derive(Clone, Copy)]
pub struct Met {
    pub walk: Walk,
    pub entry: EntryRow,
}

// The row behind a run, and a walk that is right for it.
#[derive(Clone, Copy)]
pub struct RunEnd {
    pub row: usize,
    pub walk: Walk,
}

// The entry of fine row k, reached with a walk that is right for it.
pub fn meet(file: &[u8], m: MapBody, k: usize, from: Walk) -> Met
    requires { AtRow file.now m k from }
    ensures { IsMet file.now m k result }
{
    let walk = from.reach(file, m, k);
    let entry = join(u32_at::<4>(file, m.fine + 4 * k), walk, m.kind);
    Met { walk, entry }
}

// Whether the entry of fine row k, under the walk's coarse row, is in the run of the entry `first`.
fn in_run(file: &[u8], m: MapBody, k: usize, w: Walk, first: Met) -> bool
    requires { m.fine + 4 * k + 4 ≤ length file.now }
    ensures { result ≡ same_keys first.entry.time first.entry.packet (under file.now m k w).time (under file.now m k w).packet }
{
    let entry = join(u32_at::<4>(file, m.fine + 4 * k), w, m.kind);
    same_key(first.entry, entry)
}

// Of the fine rows from number `from` up to `end`, one at least and all under the walk's coarse row, the first that is not in the run of the entry `first`. Here nothing looks at the next coarse row. A run mostly ends with a coarse row, so the first fine row is looked at before the loop, which has to be made ready.
fn first_outside(
    file: &[u8],
    m: MapBody,
    from: usize,
    end: usize,
    w: Walk,
    first: Met,
) -> Option<usize>
    requires { Under file.now m from end w }
    ensures { OutsideIs file.now m from end w first result }
{
    if !in_run(file, m, from, w, first) {
        return Some(from);
    }
    for k in from + 1..end {
        if !in_run(file, m, k, w, first) {
            return Some(k);
        }
    }
    None
}

// The end of the run that begins at row `from`, of which the entry is `first`. Each next entry is compared with the run's first, coarse row by coarse row.
pub fn run_end(file: &[u8], m: MapBody, from: usize, first: Met) -> RunEnd
    requires { RowsIn file.now m × (from < m.num_fine) × IsMet file.now m from first }
    ensures { IsEnd file.now m from result }
{
    let mut walk = first.walk;
    let mut k = from + 1;
    // a `while`: each turn goes on by the fine rows of a coarse row
    while k < m.num_fine {
        walk = walk.reach(file, m, k);
        let end = walk.end.min(m.num_fine);
        if let Some(row) = first_outside(file, m, k, end, walk, first) {
            return RunEnd { row, walk };
        }
        k = end;
    }
    RunEnd {
        row: m.num_fine,
        walk,
    }
}

// How many runs the map's entries have. Beside `entry_runs::count_runs`: in a file an entry is met only forward, with the walk that reached its coarse row, and a table's is read at any number.
pub fn count_runs(file: &[u8], m: MapBody) -> usize
    requires { RowsIn file.now m }
    ensures { result ≡ runs (entries_in file.now m) }
{
    let mut walk = Walk::start(file, m);
    let mut count: usize = 0;
    let mut k: usize = 0;
    // a `while`: each turn goes on by a whole run
    while k < m.num_fine {
        let first = meet(file, m, k, walk);
        let end = run_end(file, m, k, first);
        walk = end.walk;
        count += 1;
        k = end.row;
    }
    count
}
