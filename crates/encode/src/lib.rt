// Writing a record: every refusal is tested first, then the new file's bytes are stored.
#![tactic(auto)]

pub mod write;
