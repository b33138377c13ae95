// What every section is read with: the reader and the header.
#![tactic(auto)]

pub mod header;
pub mod reader;
