// Questions about the STC sequences: the first, how long they are, and how many minutes remain.
#![tactic(auto)]

ghost use Rattle.std.specs.Prelude.{◌≡◌, [], get_or, drop, suc, ◌≤◌, ◌<◌};
ghost use Rattle.format.specs.ClipRecord.{stc_start, stc_end};
ghost use Rattle.format.specs.Questions.{ask, first_stc_sequence, duration45k, duration90k, presentation_span_90k, minutes_remaining, latest_end, least_start, duration_of, left_of, minutes_left};
ghost use Rattle.format.specs.Tables.{stc_cells, stated};
ghost use Rattle.table_rows.specs.AllRows.{all_stated};
ghost use Rattle.ticks.specs.Times.{as45, as90};
ghost use Rattle.queries.specs.Answers.{found_of, time45_of, time90_of};
ghost use Rattle.queries.specs.Asked.{only_stcs};

use queries::{Found, Time45, Time90};
use refusals::Refusal;
use table_rows::Table;
use table_rows::rows::Rows;
use ticks::{Minutes, Ticks45, Ticks90};

// The cells of a row: PID, packet, start, end.
const STC: usize = 4;

// Those that have the start and the end.
const START: usize = 2;

const END: usize = 3;

// The STCs of a table that all are there: a struct of this crate, for its methods.
#[derive(Clone, Copy)]
struct Stcs<'a> {
    rows: Rows<'a, STC>,
}

impl<'a> Stcs<'a> {
    ghost use Rattle.sequence_queries.specs.Rows.{stcs_in, stcs_told};

    // Those stated to be in a table; refused where there is no room for them.
    fn of(stcs: Table<'a>) -> Result<Stcs<'a>, Refusal>
        ensures { stcs_told result ≡ all_stated stc_cells (stated stcs.entry.bytes.now stcs.entry.rows) }
    {
        Ok(Stcs {
            rows: stcs.all_rows::<STC>()?,
        })
    }

    // The start of an STC.
    fn start(self, stc: u32) -> Ticks45
        requires { stc < self.rows.count }
        ensures { as45 result ≡ stc_start (get_or (stcs_in self.entry) stc []) }
    {
        Ticks45(self.rows.cell(stc, START))
    }

    // Its end.
    fn end(self, stc: u32) -> Ticks45
        requires { stc < self.rows.count }
        ensures { as45 result ≡ stc_end (get_or (stcs_in self.entry) stc []) }
    {
        Ticks45(self.rows.cell(stc, END))
    }

    // The latest end, 0 without any.
    fn latest_end(self) -> Ticks45
        ensures { as45 result ≡ latest_end (stcs_in self.entry) }
    {
        let mut latest = Ticks45(0);
        for k in 0..self.rows.count {
            latest = latest.max(self.end(k));
        }
        latest
    }

    // The least of a start and those of the STCs.
    fn least_start(self, first: Ticks45) -> Ticks45
        ensures { as45 result ≡ least_start (as45 first) (stcs_in self.entry) }
    {
        let mut least = first;
        for k in 0..self.rows.count {
            least = least.min(self.start(k));
        }
        least
    }

    // The end of an STC less its start, not below 0.
    fn duration(self, stc: u32) -> Ticks45
        requires { stc < self.rows.count }
        ensures { as45 result ≡ duration_of (get_or (stcs_in self.entry) stc []) }
    {
        self.end(stc).less(self.start(stc))
    }

    // What is left of an STC at a time: twice its end less the time, a time before twice its start taken as that, not below 0.
    fn left(self, stc: u32, at: Ticks90) -> Ticks90
        requires { stc < self.rows.count }
        ensures { as90 result ≡ left_of (get_or (stcs_in self.entry) stc []) (as90 at) }
    {
        let start = self.start(stc).doubled();
        self.end(stc).doubled().less(at.later(start))
    }

    // The minutes of what is left of an STC at a time and of all later ones: added up, then rounded down.
    fn minutes_from(self, stc: u32, at: Ticks90) -> u64
        requires { stc < self.rows.count }
        ensures { result ≡ minutes_left (get_or (stcs_in self.entry) stc []) (drop (suc stc) (stcs_in self.entry)) (as90 at) }
    {
        let mut left = Minutes::none().plus(self.left(stc, at));
        for k in stc + 1..self.rows.count {
            left = left.plus(self.duration(k).doubled());
        }
        left.whole
    }
}

// The presentation span: twice the latest end less twice the least start, not below 0; 0 without STCs.
pub fn presentation_span_90k(stcs: Table) -> Time90
    ensures { time90_of result ≡ ask presentation_span_90k (only_stcs (stated stcs.entry.bytes.now stcs.entry.rows)) }
{
    let stcs = Stcs::of(stcs)?;
    if stcs.rows.count == 0 {
        return Ok(Some(Ticks90(0)));
    }
    let latest = stcs.latest_end().doubled();
    let least = stcs.least_start(stcs.start(0)).doubled();
    Ok(Some(latest.less(least)))
}

// Minutes remaining at a time of an STC: what is left of it, and all later STCs.
pub fn minutes_remaining(stcs: Table, stc: u32, at: Ticks90) -> Found
    ensures { found_of result ≡ ask (minutes_remaining stc (as90 at)) (only_stcs (stated stcs.entry.bytes.now stcs.entry.rows)) }
{
    let stcs = Stcs::of(stcs)?;
    if stc < stcs.rows.count {
        return Ok(Some(stcs.minutes_from(stc, at)));
    }
    Err(Refusal::Rows)
}

// How long an STC is, by its own clock.
pub fn duration_45k(stcs: Table, stc: u32) -> Time45
    ensures { time45_of result ≡ ask (duration45k stc) (only_stcs (stated stcs.entry.bytes.now stcs.entry.rows)) }
{
    let stcs = Stcs::of(stcs)?;
    if stc >= stcs.rows.count {
        return Err(Refusal::Rows);
    }
    Ok(stcs.duration(stc))
}

// How long an STC is, in 90 kHz ticks.
pub fn duration_90k(stcs: Table, stc: u32) -> Time90
    ensures { time90_of result ≡ ask (duration90k stc) (only_stcs (stated stcs.entry.bytes.now stcs.entry.rows)) }
{
    Ok(Some(duration_45k(stcs, stc)?.doubled()))
}

// The first STC in file order, or nothing.
pub fn first_stc_sequence(stcs: Table) -> Found
    ensures { found_of result ≡ ask first_stc_sequence (only_stcs (stated stcs.entry.bytes.now stcs.entry.rows)) }
{
    let stcs = Stcs::of(stcs)?;
    if stcs.rows.count == 0 {
        return Ok(None);
    }
    Ok(Some(0))
}
