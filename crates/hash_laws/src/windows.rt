//! Texts that differ within a few adjacent places, or within one block, only, and hashes that then differ.

pub mod changed_byte;
pub mod window;
