//! Tests that cross the crates, their readers, and a third party's hasher.
#![tactic(auto)]

#[cfg(test)]
mod tests;
pub mod times31;
