//! A text cut into chunks where its content says so, so that an edit mostly changes only the chunks around it.
//!
//! Programs for backups and for the exchange of files keep each chunk once, by its hash. A cut is where the gear hash of the 64 bytes before
//! it is low, so it depends on these bytes alone, wherever they stand.
#![tactic(auto)]

mod cuts;
mod gear;
pub mod laws;
mod reader;

pub use cuts::{Chunks, Cuts};
pub use reader::{Sink, Unfinished, cut_reader, cut_reader_by};
