// A clip file read whole: once it is measured and the lent tables have room, rows are put into them and the scalars are told.
#![tactic(auto)]

pub mod fill;
pub mod read;
