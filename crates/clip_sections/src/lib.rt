// A clip file measured: every section in the order of the refusals; and its scalars.
#![tactic(auto)]

pub mod info;
pub mod sections;
