// The C interface: `clpi`'s calls under their names in include/clpi.h, each with the clauses that it has there. A crate of its own, since a crate is built as a library or as a static library, and not as both.
#![tactic(auto)]

pub mod clips;
pub mod extension_data;
pub mod maps;
pub mod programs;
pub mod read;
pub mod sequences;
pub mod version;
pub mod writing;
