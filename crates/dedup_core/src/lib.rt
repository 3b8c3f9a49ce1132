//! Each line of some inputs once, where it came first, or after how often it came: what the program `dedup` writes.
#![tactic(auto)]

mod ahead;
mod failure;
pub mod laws;
mod lines;
pub mod once;
pub mod outcome;
mod run;
pub mod tally;
mod task;
mod unread;

pub use failure::{Failure, TooMany};
pub use run::Ended;
