//! What ends a run of this program before its output is whole.
ghost use Rattle.spread_core.specs.Call.{words_of_fault};

use cli::outcome::Words;
use std::io::{Error, ErrorKind};
use streams::failure;

/// Why there is no table, or no picture, of the keys.
#[derive(Debug, Drop)]
pub enum NoTable {
    /// The picture could not be written.
    Undrawn(Error),
    /// There were 2^32 - 1 different keys, or 2^64 - 1 keys.
    TooManyKeys,
    /// There was no key.
    NoKeys,
    /// The input ended within a key that has a fixed width.
    ShortKey,
}

/// Why a run ended before its output was whole.
pub type Failure = failure::Failure<NoTable>;

impl Words for NoTable {
    ghost words = { words_of_fault };

    fn words(&self) -> &'static str {
        match self {
            NoTable::Undrawn(_) => "cannot write",
            NoTable::TooManyKeys => "too many different keys",
            NoTable::NoKeys => "there are no keys",
            NoTable::ShortKey => "input ends within a key",
        }
    }

    fn error(&self) -> Option<&Error> {
        match self {
            NoTable::Undrawn(error) => Some(error),
            _ => None,
        }
    }
}

/// What a failed read of the keys tells: the system's error, or no memory for a key.
pub fn failure_of_read(error: Error) -> Failure {
    match error.kind() {
        ErrorKind::OutOfMemory => Failure::NoMemory,
        _ => Failure::Unread(error),
    }
}
