//! Lines that tell the hash of a file: the hashes that they can tell, how they are written, and how they are read again.
#![tactic(auto)]

pub mod escape;
pub mod forms;
mod keys;
pub mod laws;
pub mod line;
pub mod parse;
pub mod sums;
