//! All hashes by their names: the ported ones, of `hash_names`, and the others.
#![tactic(auto)]

pub mod reading;
pub mod table;
pub mod wide;
