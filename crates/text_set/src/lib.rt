//! A set of byte texts, each with its place: that of the first text is 0, that of the next 1, and so on. And the lines of
//! a text.
//!
//! The set is an index as well: the place of a text is where a caller's own list has what belongs to it, as a count.
//!
//! And, with no code, the finite maps from texts to numbers as which contracts see a bucket table or a ring of nodes.
#![tactic(auto)]

mod keyed;
pub mod laws;
pub mod lines;
mod slots;
mod store;
mod texts;

pub use keyed::{KeyedHasher, RandomKeys};
pub use texts::{Full, Guess, Iter, Seen, Texts};
