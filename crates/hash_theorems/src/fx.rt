//! Laws of fx: where the split of a list of pieces does not matter, tests of two lists, and that each hash has one word.

mod differing;
pub mod pieces;
