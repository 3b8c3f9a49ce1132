//! Keyed hashes of numbers and of lists of words by products and a sum, and by these one hasher for all keys of a map: at random keys
//! their collisions are few.
#![tactic(auto)]

pub mod hasher;
pub mod keys;
pub mod laws;
pub mod numbers;
pub mod word_laws;
mod words;
pub mod xxh3_pieces;
