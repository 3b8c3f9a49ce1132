//! Reading and writing as every program of this repository does it: what ends a run, reads and writes that are tried again where they
//! were interrupted, and numbers in hexadecimal digits. `rehearsal` is for tests alone.
#![tactic(auto)]

pub mod failure;
pub mod hex;
pub mod rehearsal;
pub mod tries;
