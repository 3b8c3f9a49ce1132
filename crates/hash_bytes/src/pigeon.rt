//! Bricolage, the hash function of Steven Pigeon's page on hash functions: each byte's product by a large odd number, its
//! bits shuffled, is added, and then the halves of the state change places.
mod call;
mod hasher;
mod table;

pub use call::bricolage;
pub use hasher::{Bricolage, BricolageRule};
