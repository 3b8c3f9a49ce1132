//! How a program ends: its status, and what it says of a failure.
ghost use Rattle.std.specs.Prelude.{◌≡◌, ℕ, List};
ghost use Rattle.cli.specs.Outcome.{behind_of, failure_of, misgiven_words, of_run, of_telling, status_of, write_status};

use crate::call::Misgiven;
use std::io::{Error, ErrorKind};
use streams::failure::{Failure, Nothing};

/// Something that failed, in words.
pub trait Words {
    /// The words.
    ghost words: { Self → List ℕ };

    /// The words.
    fn words(&self) -> &'static str
        ensures { result.now ≡ words self.now };

    /// The error of the system behind it, if there is one.
    fn error(&self) -> Option<&Error> {
        None
    }
}

impl Words for Nothing {
    ghost use Rattle.std.specs.Prelude.{[]};

    ghost words = { λ nothing. [] };

    fn words(&self) -> &'static str {
        ""
    }
}

/// What is wrong with a call. `Own` has what only this program finds wrong.
#[derive(Debug, Drop)]
pub enum Wrong<Own> {
    /// Something is wrong with an option.
    Option(Misgiven),
    /// It gives a name that no hash has.
    UnknownName,
    /// What only this program finds wrong.
    Own(Own),
}

/// What came of a call. `Misuse` has what only this program finds wrong with a call, and `Own` its own faults.
#[derive(Debug, Drop)]
pub enum Outcome<Misuse, Own> {
    /// All went well.
    Done,
    /// The call was wrong. Nothing was read or written.
    Usage(Wrong<Misuse>),
    /// Something failed, which the run was to tell when it did.
    Reported,
    /// The output is not whole: what was written is a beginning of it.
    Failed(Failure<Own>),
}

/// What came of writing a text.
pub fn of_telling<Misuse, Own>(told: Result<(), Failure<Own>>) -> Outcome<Misuse, Own>
    ensures { result ≡ of_telling told }
{
    match told {
        Ok(()) => Outcome::Done,
        Err(fault) => Outcome::Failed(fault),
    }
}

/// What came of a run over files, which went well unless one of them failed.
pub fn of_run<Misuse, Own>(well: Result<bool, Failure<Own>>) -> Outcome<Misuse, Own>
    ensures { result ≡ of_run well }
{
    match well {
        Ok(true) => Outcome::Done,
        Ok(false) => Outcome::Reported,
        Err(fault) => Outcome::Failed(fault),
    }
}

/// What is wrong with an option, in front of the word that gives it.
fn misgiven_words(misgiven: Misgiven) -> &'static str
    ensures { result.now ≡ misgiven_words misgiven }
{
    match misgiven {
        Misgiven::NoSuchName => "unrecognized option",
        Misgiven::NoSuchLetter => "invalid option --",
        Misgiven::NoValue | Misgiven::HasValue => "option",
    }
}

/// What is said of a failure behind the word that is wrong.
pub fn behind_of<Misuse, Own>(outcome: &Outcome<Misuse, Own>) -> &'static str
    ensures { result.now ≡ behind_of outcome.now }
{
    match outcome {
        Outcome::Usage(Wrong::Option(Misgiven::NoValue)) => " requires an argument",
        Outcome::Usage(Wrong::Option(Misgiven::HasValue)) => " doesn't allow an argument",
        _ => "",
    }
}

/// What failed, in words; nothing where all went well, or where the run was to tell it.
pub fn failure_of<Misuse: Words, Own: Words>(outcome: &Outcome<Misuse, Own>) -> &'static str
    ensures { result.now ≡ failure_of Misuse.words Own.words outcome.now }
{
    match outcome {
        Outcome::Done | Outcome::Reported => "",
        Outcome::Usage(Wrong::Option(misgiven)) => misgiven_words(*misgiven),
        Outcome::Usage(Wrong::UnknownName) => "unknown hash",
        Outcome::Usage(Wrong::Own(misuse)) => misuse.words(),
        Outcome::Failed(Failure::Unread(_)) => "-",
        Outcome::Failed(Failure::Unwritten(_)) => "write error",
        Outcome::Failed(Failure::NoMemory) => "out of memory",
        Outcome::Failed(Failure::Own(own)) => own.words(),
    }
}

/// The status of a failed write: 141 where nobody reads any more, as a shell tells of a program that such a write ended, and else 1.
fn write_status(kind: ErrorKind) -> u8
    ensures { result ≡ write_status kind }
{
    match kind {
        ErrorKind::BrokenPipe => 141,
        _ => 1,
    }
}

/// The status that the program ends with: 0 where all went well, 2 where the call was wrong, 141 where nobody reads its
/// output any more, and 1 where it failed otherwise.
pub fn status_of<Misuse, Own>(outcome: &Outcome<Misuse, Own>) -> u8
    ensures { result ≡ status_of outcome.now }
{
    match outcome {
        Outcome::Done => 0,
        Outcome::Usage(_) => 2,
        Outcome::Failed(Failure::Unwritten(Some(error))) => write_status(error.kind()),
        _ => 1,
    }
}
