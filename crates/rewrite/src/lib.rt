// Rewriting a file in one go, straight from its bytes: what reading into tables and writing from them would give, with no tables between.
#![tactic(auto)]

pub mod measure;
pub mod rewrite;
