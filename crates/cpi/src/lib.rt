// The entry index measured: its maps and all their entries.
#![tactic(auto)]

pub mod maps;
