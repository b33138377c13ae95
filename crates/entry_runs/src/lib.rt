// The runs of one map's entries, in the walk that tests whether each entry fits.
#![tactic(auto)]

ghost use Rattle.std.specs.Prelude.{◌≡◌, ◌+◌, ◌*◌, ◌<◌, true, Some, None};
ghost use Rattle.format.specs.Bytes.{pick};
ghost use Rattle.format.specs.Refusals.{entry_fits};
ghost use Rattle.format.specs.ClipRecord.{entry_cells, entry_size};
ghost use Rattle.format.specs.Rewriting.{same_run};
ghost use Rattle.format.specs.Tables.{cells_at};
ghost use Rattle.entry_rows.specs.Entries.{rows_in};
ghost use Rattle.runs.specs.Runs.{entries_from};
ghost use Rattle.entry_rows.specs.Reads.{words_row, words_type};
ghost use Rattle.entry_runs.specs.Fitting.{end_fit, count_fit, goes_on};

use entry_rows::Words;
use entry_rows::entries::MapEntries;
use row_limits::entry_fits;
use runs::same_run;

// Whether an entry is in the run of another one that fits, and fits too. Three words tell it: what is the same in a run and what must be 0 are compared at once, and the bits that are free in a run are masked.
fn goes_on(first: Words, words: Words) -> bool
    requires { entry_fits (words_type first) (words_row first) ≡ true }
    ensures { result ≡ goes_on first words }
{
    words.time & 0xfffffffffff801ff == first.time & 0xfffffffffff801ff
        && words.back & 0xfffffffffffe0000 == first.back & 0xfffffffffffe0000
        && words.front & 0xfffffff8fffffffe == 0
}

// Where the run that begins at row `from` ends if it does not go on at row k: at that row, or none if the row is of the run and so does not fit.
fn stopped(entries: MapEntries, from: usize, k: usize) -> Option<usize>
    requires { (from < entries.count) × (k < entries.count) }
    ensures { result ≡ pick (same_run (cells_at entries.entry.bytes.now entry_cells (entries.entry.first + entry_size * from)) (cells_at entries.entry.bytes.now entry_cells (entries.entry.first + entry_size * k))) None (Some k) }
{
    let first = entries.entry(from);
    let entry = entries.entry(k);
    if same_run(first, entry) {
        None
    } else {
        Some(k)
    }
}

// The end of the run that begins at row `from` of a map of this type; none if an entry of it does not fit. Its first entry is tested, and each one behind it compared with that.
pub fn run_end(entries: MapEntries, from: usize, map_type: u32) -> Option<usize>
    requires { from < entries.count }
    ensures { result ≡ end_fit map_type from (entries_from entries.entry.bytes.now entries.entry.first entries.entry.count from) }
{
    if !entry_fits(map_type, entries.entry(from)) {
        return None;
    }
    let first = entries.words(from);
    for k in from + 1..entries.count {
        if !goes_on(first, entries.words(k)) {
            return stopped(entries, from, k);
        }
    }
    Some(entries.count)
}

// How many runs a map of this type has; none is told if an entry does not fit. A `while`: it goes from run to run, and counts no index.
pub fn count_runs(entries: MapEntries, map_type: u32) -> Option<usize>
    ensures { result ≡ count_fit map_type (rows_in entries.entry) }
{
    let mut count: usize = 0;
    let mut k: usize = 0;
    while k < entries.count {
        k = run_end(entries, k, map_type)?;
        count += 1;
    }
    Some(count)
}
