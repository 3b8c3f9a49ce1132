//! What ends a run before its output is whole.
ghost use Rattle.cuts_core.specs.Program.{words_of_fault};

use cli::outcome::Words;
use streams::failure;

/// The chunks have more than 2^64 - 1 bytes.
#[derive(Debug, Drop)]
pub struct TooMany;

/// Why a run ended before its output was whole.
pub type Failure = failure::Failure<TooMany>;

impl Words for TooMany {
    ghost words = { words_of_fault };

    fn words(&self) -> &'static str {
        "too many bytes"
    }
}
