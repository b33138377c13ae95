// Refusal 30 on tables: whether every row of a record that is handed over fits the file, but for its entries.
#![tactic(auto)]

pub mod rows;
pub mod tables;
