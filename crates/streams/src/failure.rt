//! What ends a run before its output is whole.
use std::alloc::AllocError;
use std::io::Error;

/// What a program has that has no faults, or no wrong calls, of its own: none of its outcomes has it.
#[derive(Debug, Drop)]
pub struct Nothing;

/// Why a run ended before its output was whole. What was written by then is a beginning of it. `Own` has the program's own reasons.
#[derive(Debug, Drop)]
pub enum Failure<Own> {
    /// A read failed.
    Unread(Error),
    /// A write or the flush failed with this error, or a write took nothing.
    Unwritten(Option<Error>),
    /// There was no memory.
    NoMemory,
    /// A reason of the program's own.
    Own(Own),
}

impl<Own: Drop> From<AllocError> for Failure<Own> {
    ghost use Rattle.std.specs.Prelude.{◌≡◌};
    ghost use Rattle.streams.specs.declared.failure.Failure.TheVariants.{NoMemory};

    ghost from_gives = { λ error fault. fault ≡ NoMemory };

    fn from(_error: AllocError) -> Failure<Own> {
        Failure::NoMemory
    }
}
