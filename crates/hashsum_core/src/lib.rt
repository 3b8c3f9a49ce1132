//! The hashes of files: the line of each, and whether files have the hashes that lines tell. The program `hashsum` is a `main` over it.
#![tactic(auto)]

pub mod check;
pub mod disk;
mod failure;
pub mod hints;
pub mod keys;
pub mod laws;
pub mod outcome;
pub mod reports;
pub mod sum;

pub use failure::Failure;
