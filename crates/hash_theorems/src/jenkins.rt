//! Laws of lookup3 and SpookyHash alone: tests of two texts, and preimages.

pub mod block;
pub mod stretch;
pub mod two_texts;
