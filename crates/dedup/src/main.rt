//! `dedup` writes each line of its inputs once, where it came first. `dedup -c` writes at the end each line after how
//! often it came, `dedup -d` those that came more than once, and `dedup -u` those that came once.
#![tactic(auto)]

use cli::call::Call;
use cli::folder::{Disk, files};
use cli::frame::{About, wrong_word};
use cli::help::help_for;
use cli::inputs::{Told, inputs};
use cli::program::{BUFFER, Program, run};
use dedup_core::TooMany;
use dedup_core::outcome::{Outcome, call_of, options, outcome_of};
use std::alloc::{AllocError, Global};
use std::io;
use std::io::BufWriter;
use std::process::ExitCode;
use streams::failure::Nothing;
use text_set::RandomKeys;

/// The program's name.
const NAME: &str = "dedup";

/// What stands in front of the options in the help.
const FRONT: &str = "usage: dedup [-cduz] [FILE..]

Write each line of the files once, where it came first. With no FILE, or when
FILE is -, read standard input. The lines need not be sorted.

";

/// What stands after them.
const BEHIND: &str = "
-c can be combined with -d or -u. The exit status is 0, 1 if something failed,
2 if the call is wrong, and 141 if the output pipe was closed.
";

/// Which version this is.
const VERSION: &str = "dedup of hashers 0.1.0
License: MIT
";

/// The program.
struct Dedup;

impl Program for Dedup {
    type Misuse = Nothing;

    type Own = TooMany;

    ghost use Rattle.cli.specs.Call.{call_of};
    ghost use Rattle.cli.specs.Frame.{request_of};
    ghost use Rattle.cli.specs.Program.{EndsAs};
    ghost use Rattle.dedup_core.specs.Program.{options};

    ghost says = { call_of options };

    ghost came = { λ said. EndsAs (request_of said) };

    fn name() -> &'static str {
        NAME
    }

    fn call_of<'a>(alloc: Global, words: &'a [Vec<u8>]) -> Result<Call<'a>, AllocError> {
        call_of(alloc, words)
    }

    fn outcome_of<'a>(rt: &'a HostRuntime, call: &Call<'a>) -> io::Result<Outcome> {
        let alloc = rt.alloc();
        let folder = Disk::new(rt, NAME);
        let names = files(alloc, call)?;
        let help = help_for(alloc, call, FRONT, &options(), BEHIND)?;
        let about = About {
            help: help.as_str(),
            version: VERSION,
            list: "",
        };
        Ok(outcome_of(
            alloc,
            RandomKeys::new(rt)?,
            call,
            about,
            &mut inputs(alloc, &folder, &names)?,
            &mut Told::new(&folder, &names),
            &mut BufWriter::with_capacity(alloc, BUFFER, rt.stdout())?,
        ))
    }

    fn word_of<'a>(_alloc: Global, call: &Call<'a>, _outcome: &Outcome) -> Option<&'a [u8]> {
        wrong_word(call)
    }
}

fn main(rt: HostRuntime) -> ExitCode {
    run::<Dedup>(&rt)
}
