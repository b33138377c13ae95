// The coarse and fine rows of one map, made anew straight from the file: each fine row is joined with the coarse row that it uses, with no table between.
#![tactic(auto)]

pub mod body;
pub mod walked;
