//! The hash of what a reader gives.

pub mod limited;
pub mod reader;
