//! Laws of XXH3 alone: what it keeps and loses of texts, tests of two texts, and its mixes, undone.

pub mod laws;
pub mod unmix;

pub use laws::{apart_xxh3, apart_xxh128};
