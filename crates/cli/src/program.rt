//! The main of a program.
ghost use Rattle.std.specs.Prelude.{◌≡◌, ℕ, List, IfOk};
ghost use Rattle.std.specs.Process.{exit_status};
ghost use Rattle.cli.specs.Call.{Saying, sayings, texts};
ghost use Rattle.cli.specs.Program.{IsStatus};
ghost use Rattle.cli.specs.declared.outcome.Outcome.{Outcome};

use crate::arguments::arguments;
use crate::call::Call;
use crate::frame::ended;
use crate::outcome::{Outcome, Words};
use std::alloc::{AllocError, Global};
use std::io;
use std::process::ExitCode;
use streams::failure::Failure;

/// How many bytes a program writes at once.
pub const BUFFER: usize = 65536;

/// A program. The implementing type is a name for it, and no value of it is made.
pub trait Program {
    /// What only this program finds wrong with a call.
    type Misuse: Words + Drop;

    /// The faults that only this program has.
    type Own: Words + Drop;

    /// What words say.
    ghost says: { List (List ℕ) → List Saying };

    /// What may come of a call that says this.
    ghost came: { List Saying → Outcome Self.Misuse Self.Own → Type 0 };

    /// Its name.
    fn name() -> &'static str;

    /// What the words behind its name say.
    fn call_of<'a>(alloc: Global, words: &'a [Vec<u8>]) -> Result<Call<'a>, AllocError>
        ensures { IfOk result (λ call. sayings call.said.items ≡ says (texts words.now)) };

    /// Does what the call asks for. An error means out of memory.
    fn outcome_of<'a>(
        rt: &'a HostRuntime,
        call: &Call<'a>,
    ) -> io::Result<Outcome<Self::Misuse, Self::Own>>
        ensures { IfOk result (came (sayings call.now.said.items)) };

    /// The word that is wrong, or names the file that could not be written, if one is.
    fn word_of<'a>(
        alloc: Global,
        call: &Call<'a>,
        outcome: &Outcome<Self::Misuse, Self::Own>,
    ) -> Option<&'a [u8]>;
}

/// Says that there is no memory for a call, and returns the status.
fn without_memory<P: Program>(rt: &HostRuntime) -> u8
    ensures { (said : List Saying) → IsStatus (P.came said) result }
{
    ended(
        rt,
        P::name(),
        &Outcome::<P::Misuse, P::Own>::Failed(Failure::NoMemory),
        None,
    )
}

/// The status of the program that was called by these words.
fn status_of<P: Program>(rt: &HostRuntime, words: &[Vec<u8>]) -> u8
    ensures { IsStatus (P.came (P.says (texts words.now))) result }
{
    let Ok(call) = P::call_of(rt.alloc(), words) else {
        return without_memory::<P>(rt);
    };
    match P::outcome_of(rt, &call) {
        Ok(outcome) => ended(
            rt,
            P::name(),
            &outcome,
            P::word_of(rt.alloc(), &call, &outcome),
        ),
        Err(_) => without_memory::<P>(rt),
    }
}

/// Runs the program, and returns its status. What fails is said on standard error.
pub fn run<P: Program>(rt: &HostRuntime) -> ExitCode
    ensures { (words : List (List ℕ)) × IsStatus (P.came (P.says words)) (exit_status result) }
{
    match arguments(rt) {
        Ok(words) => ExitCode::from(status_of::<P>(rt, &words)),
        Err(_) => ExitCode::from(without_memory::<P>(rt)),
    }
}
