//! What hash functions promise, and what follows for all of them.
//!
//! [`traits`] has the promises, [`rules`] the hasher of a rule with a step per byte, `reading` the hash of what a reader gives, and
//! [`windows`] texts that differ within a window or a block.
#![tactic(auto)]

pub mod reading;
pub mod rules;
pub mod traits;
pub mod windows;
