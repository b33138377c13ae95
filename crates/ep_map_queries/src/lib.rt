// Questions about the entries of one map.
#![tactic(auto)]

pub mod entries;
pub mod own;
