// The entries of one map: where its rows stand, a walk over its coarse rows, each fine row joined with the one that it uses, and stored in one form or another.
#![tactic(auto)]

pub mod body;
pub mod entries;
pub mod walk;
