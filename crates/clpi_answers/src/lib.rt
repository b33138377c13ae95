// The answers of questions as numbers for C. Functions and no `From`: of the seven that make a struct for C three ask that a number fits 32 bits (`clpi_reading`, `clpi_writing`), which `From` can't, and all have one form.
#![tactic(auto)]

pub mod part;
pub mod seconds;

ghost use Rattle.std.specs.Prelude.{◌≡◌};
ghost use Rattle.format.specs.Questions.{refused, answer_numbers};
ghost use Rattle.queries.specs.Answers.{found_of, time45_of, time90_of};
ghost use Rattle.table_rows.specs.OwnRows.{owned_of, owned_numbers};
ghost use Rattle.clpi_answers.specs.Numbers.{found_numbers, rows_numbers};

use queries::{Found, Time45, Time90};
use refusals::Refusal;
use table_rows::own::OwnRows;

// A refusal; whether there is a value; the value. The other numbers are 0.
#[repr(C)]
#[derive(Clone, Copy)]
pub struct ClpiAnswer {
    pub refusal: u32,
    pub found: u32,
    pub value: u64,
}

// A refusal, or how many rows there are and the number of the first.
#[repr(C)]
#[derive(Clone, Copy)]
pub struct ClpiRows {
    pub refusal: u32,
    pub count: u32,
    pub first: u64,
}

// The numbers of a refusal, by its own.
pub fn refused(refusal: u32) -> ClpiAnswer
    ensures { found_numbers result ≡ answer_numbers (refused refusal) }
{
    ClpiAnswer {
        refusal,
        found: 0,
        value: 0,
    }
}

// The numbers of what was found.
pub fn answer_of(found: Found) -> ClpiAnswer
    ensures { found_numbers result ≡ answer_numbers (found_of found) }
{
    match found {
        Ok(Some(value)) => ClpiAnswer {
            refusal: 0,
            found: 1,
            value,
        },
        Ok(None) => ClpiAnswer {
            refusal: 0,
            found: 0,
            value: 0,
        },
        Err(refusal) => refused(refusal.number()),
    }
}

// The numbers of a time in 45 kHz ticks.
pub fn answer_of_45(time: Time45) -> ClpiAnswer
    ensures { found_numbers result ≡ answer_numbers (time45_of time) }
{
    answer_of(time.map(|t| Some(u64::from(t.0))))
}

// The numbers of a time in 90 kHz ticks.
pub fn answer_of_90(time: Time90) -> ClpiAnswer
    ensures { found_numbers result ≡ answer_numbers (time90_of time) }
{
    answer_of(time.map(|t| t.map(|t| t.0)))
}

// The numbers of the rows of a header row.
pub fn rows_of(own: Result<OwnRows, Refusal>) -> ClpiRows
    ensures { rows_numbers result ≡ owned_numbers (owned_of own) }
{
    match own {
        Ok(OwnRows { first, count }) => ClpiRows {
            refusal: 0,
            count,
            first,
        },
        Err(refused) => ClpiRows {
            refusal: refused.number(),
            count: 0,
            first: 0,
        },
    }
}
