//! How evenly hashes spread keys over buckets, and what chance would give: the numbers of the program `spread`.
#![tactic(auto)]

pub mod advice;
pub mod call;
pub mod chance;
pub mod counts;
pub mod failure;
pub mod keys;
pub mod named;
pub mod rows;
pub mod sizes;
