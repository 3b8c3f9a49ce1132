//! The ported hashes by their names. A program says what it does with a hasher, and the row of the table picks the hasher.
#![tactic(auto)]

pub mod reading;
pub mod table;
pub mod task;
