//! Non-cryptographic hash functions, with inverses and laws: a port of the Rust crate hashers 1.0.1.
#![tactic(auto)]

mod counts;
pub mod fnv;
pub mod fx_hash;
pub mod jenkins;
pub mod laws;
pub mod promises;
mod windows;

pub use hash_bytes::{null as null, oz as oz, pigeon as pigeon};
pub use hash_laws::reading::{reader as engine, reader as reader};
pub use hash_laws::rules as rules;
pub use hash_laws::windows::window as window;
pub use hash_rounds as rounds;
pub use hash_writes::build as build;
