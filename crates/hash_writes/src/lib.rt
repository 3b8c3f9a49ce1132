//! What the writes of std's `Hasher` feed: lists of writes, made and undone, and the keys of std's maps and sets.
#![tactic(auto)]

pub mod build;
pub mod writes;
