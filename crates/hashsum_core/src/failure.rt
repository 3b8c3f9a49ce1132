//! What ends a run before its output is whole.
use streams::failure;
use streams::failure::Nothing;

/// Why a run ended before its output was whole.
pub type Failure = failure::Failure<Nothing>;
