//! `hashof NAME` prints the hash of that name of its standard input, as a line.
#![tactic(auto)]

ghost use Rattle.std.specs.Process.{exit_status};
ghost use Rattle.hashof.specs.Program.{IsStatus};

mod line;
mod outcome;
mod run;
#[cfg(test)]
mod tests;

use outcome::{outcome_line, outcome_of, outcome_status};
use std::env;
use std::process::ExitCode;

/// Does what the program does, and returns its status.
fn run_program(rt: &HostRuntime) -> ExitCode
    ensures { IsStatus (exit_status result) }
{
    let outcome = outcome_of(env::args(rt), &mut rt.stdin(), &mut rt.stdout());
    let _ = rt.eprint(outcome_line(&outcome));
    ExitCode::from(outcome_status(&outcome))
}

fn main(rt: HostRuntime) -> ExitCode {
    run_program(&rt)
}
