//! `cuts` splits files into chunks where their content says so, and prints where each chunk begins, its length and its hash, or how much a
//! store would save that keeps each chunk once.
#![tactic(auto)]

use cli::call::Call;
use cli::folder::Disk;
use cli::frame::{About, wrong_word};
use cli::help::help_for;
use cli::program::{BUFFER, Program, run};
use cli::progress::{Cleared, Shown};
use cuts_core::failure::TooMany;
use cuts_core::listing::Lines;
use cuts_core::outcome::{Misuse, Outcome, Wrong, call_of, options, outcome_of, wrong_size};
use std::alloc::{AllocError, Global};
use std::io;
use std::io::BufWriter;
use std::process::ExitCode;

/// The program's name.
const NAME: &str = "cuts";

/// What stands in front of the options in the help.
const FRONT: &str = "usage: cuts [-a NAME] [-l BYTES] [--average BYTES] [-m BYTES] [--key-file FILE]
            [--stats] [--quiet] [FILE..]

Cut each file into chunks where its content says so, and print a line for each
chunk: where it begins, how many bytes it has, its hash, and the file. An edit
changes few chunks. With no FILE, or when FILE is -, read standard input.

";

/// What stands after them.
const BEHIND: &str = "
BYTES may end with K, M, G, T, P or E for powers of 1024, or with KB, MB and so
on for powers of 1000; all are at least 64. The hashes are those of hashsum that
take no keys. The exit status is 0, 1 if a file failed, 2 if the call is wrong.
";

/// Which version this is.
const VERSION: &str = "cuts of hashers 0.1.0
License: MIT
";

/// The program.
struct Cuts;

impl Program for Cuts {
    type Misuse = Misuse;

    type Own = TooMany;

    ghost use Rattle.cli.specs.Call.{call_of};
    ghost use Rattle.cli.specs.Frame.{request_of};
    ghost use Rattle.cli.specs.Program.{EndsAs};
    ghost use Rattle.cuts_core.specs.Program.{options};

    ghost says = { call_of options };

    ghost came = { λ said. EndsAs (request_of said) };

    fn name() -> &'static str {
        NAME
    }

    fn call_of<'a>(alloc: Global, words: &'a [Vec<u8>]) -> Result<Call<'a>, AllocError> {
        call_of(alloc, words)
    }

    fn outcome_of<'a>(rt: &'a HostRuntime, call: &Call<'a>) -> io::Result<Outcome> {
        let alloc = rt.alloc();
        let help = help_for(alloc, call, FRONT, &options(), BEHIND)?;
        let about = About {
            help: help.as_str(),
            version: VERSION,
            list: "",
        };
        let quiet = call.gives(b"quiet");
        let w = BufWriter::with_capacity(alloc, BUFFER, Cleared::new(rt, rt.stdout(), !quiet))?;
        Ok(outcome_of(
            alloc,
            &Shown::new(rt, Disk::new(rt, NAME), quiet),
            call,
            about,
            &mut Lines::new(alloc, w),
        ))
    }

    fn word_of<'a>(_alloc: Global, call: &Call<'a>, outcome: &Outcome) -> Option<&'a [u8]> {
        match outcome {
            Outcome::Usage(Wrong::UnknownName) => call.value(b"algorithm"),
            Outcome::Usage(Wrong::Own(misuse)) => wrong_size(call, *misuse),
            _ => wrong_word(call),
        }
    }
}

fn main(rt: HostRuntime) -> ExitCode {
    run::<Cuts>(&rt)
}
