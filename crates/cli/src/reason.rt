//! Why a call of the system failed, in words.
ghost use Rattle.std.specs.Prelude.{codes};
ghost use Rattle.cli.specs.Reason.{IsInFront};

use std::alloc::{AllocError, Global};
use std::io::Error;

/// The words in front of the first ` (os error `, or all of them.
pub fn without_number(words: &str) -> &str
    ensures { IsInFront (codes " (os error ") words.now result.now }
{
    match words.split_once(" (os error ") {
        Some((front, _)) => front,
        None => words,
    }
}

/// What the error says of itself, without the number that the system gives it.
pub fn reason(alloc: Global, error: &Error) -> Result<String, AllocError> {
    let words = format!(in alloc; "{error}")?;
    String::from_str(alloc, without_number(words.as_str()))
}
