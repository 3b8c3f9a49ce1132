//! `spread` shows how evenly each hasher spreads the keys that are the lines of standard input, beside chance, how fast it is, and which
//! one to take.
#![tactic(auto)]

ghost use Rattle.std.specs.Prelude.{◌≡◌, [], IfOk, MatchResult};
ghost use Rattle.std.specs.Io.Buffered.{writer_buffer};
ghost use Rattle.cli.specs.declared.outcome.Outcome.TheVariants.{Failed};
ghost use Rattle.cli.specs.Call.{sayings};
ghost use Rattle.cli.specs.Frame.{request_of};
ghost use Rattle.cli.specs.Outcome.{IsFlushed};
ghost use Rattle.cli.specs.Program.{EndsAs};
ghost use Rattle.spread_core.specs.declared.call.Misuse.{Misuse};

mod clock;
mod picture;
mod run;
pub mod table;

use cli::call::Call;
use cli::frame::{About, Request, request_of, text_of, wrong_word};
use cli::help::help_for;
use cli::outcome::of_telling;
use cli::program::{BUFFER, Program};
use hash_kinds::table::KINDS;
use run::tell_table;
use spread_core::call::{
    Misuse, Outcome, Wrong, call_of, kinds_of, no_number, options, settings_of, unknown_name,
};
use spread_core::failure::{Failure, NoTable};
use std::alloc::{AllocError, Global};
use std::io;
use std::io::{BufWriter, Stdout};
use std::process::ExitCode;
use streams::tries::write_out;

/// The program's name.
const NAME: &str = "spread";

/// What stands in front of the options in the help.
const FRONT: &str = "usage: spread [-b BUCKETS] [-w BYTES | -z] [--no-times] [--plot FILE.svg]
              [NAME..] < KEYS

Recommend a hash for your keys. Each line of standard input is a key, and each
different key counts once. For each NAME, or each hash that makes sense, print
how many pairs of keys have equal hashes, how many keys the fullest bucket has,
how many buckets are empty, the sum of the squares of the buckets' sizes, and
nanoseconds for a key; then what chance would give; and last, for 1000 keys and
more, the fastest hash that looks random and spreads them as chance does. There
are as many buckets as the power of two at or above the number of keys, and as
the next odd number above that.

";

/// Which version this is.
const VERSION: &str = "spread of hashers 0.1.0
License: MIT
";

/// How wide a line of the help is at most.
const WIDE: usize = 79;

/// What stands after the options in the help: the names of the hashes.
fn names(alloc: Global) -> Result<String, AllocError> {
    let mut names = String::from_str(alloc, "\nThe names:")?;
    let mut wide: usize = 10;
    for kind in KINDS {
        let name = kind.row().name;
        wide = wide.saturating_add(name.len()).saturating_add(1);
        if wide > WIDE {
            names.push('\n')?;
            wide = name.len();
        } else {
            names.push(' ')?;
        }
        names.push_str(name)?;
    }
    names.push('\n')?;
    Ok(names)
}

/// Which hashes there are, and how many bits each has.
fn list(alloc: Global) -> Result<String, AllocError> {
    let mut list = String::from_str(alloc, "NAME        BITS\n")?;
    for kind in KINDS {
        let row = kind.row();
        list.push_str(format!(in alloc; "{:<12} {:>3}\n", row.name, row.bits)?.as_str())?;
    }
    Ok(list)
}

/// Writes the table that the call asks for. Where all went well, nothing that it wrote is held back.
fn worked(rt: &HostRuntime, call: &Call<'_>, w: &mut BufWriter<Stdout>) -> Result<Outcome, Failure>
    ensures { IfOk result (λ outcome. writer_buffer w.old ≡ [] → IsFlushed (writer_buffer w.new) outcome) }
{
    let settings = match settings_of(call) {
        Ok(settings) => settings,
        Err(wrong) => return Ok(Outcome::Usage(wrong)),
    };
    if unknown_name(rt.alloc(), call)?.is_some() {
        return Ok(Outcome::Usage(Wrong::Own(Misuse::NoHash)));
    }
    let kinds = kinds_of(rt.alloc(), call)?;
    Ok(of_telling(tell_table(rt, &settings, &kinds, call.value(b"plot"), w)))
}

/// Writes a text that the call asks for, or the table. Where all went well, nothing that it wrote is held back.
fn told(rt: &HostRuntime, call: &Call<'_>, w: &mut BufWriter<Stdout>) -> Result<Outcome, Failure>
    ensures flushed { IfOk result (λ outcome. writer_buffer w.old ≡ [] → IsFlushed (writer_buffer w.new) outcome) }
    ensures ends { MatchResult result (EndsAs (request_of (sayings call.now.said.items)))
        (λ fault. EndsAs {Misuse = Misuse} (request_of (sayings call.now.said.items)) (Failed fault)) }
{
    let alloc = rt.alloc();
    match request_of(call) {
        Request::Misgiven(misgiven) => Ok(Outcome::Usage(Wrong::Option(misgiven))),
        Request::Text(text) => {
            let (names, list) = (names(alloc)?, list(alloc)?);
            let help = help_for(alloc, call, FRONT, &options(), names.as_str())?;
            let about = About {
                help: help.as_str(),
                version: VERSION,
                list: list.as_str(),
            };
            Ok(of_telling(write_out(w, text_of(&about, text))))
        }
        Request::Work => worked(rt, call, w),
    }
}

/// The program.
struct Spread;

impl Program for Spread {
    type Misuse = Misuse;

    type Own = NoTable;

    ghost use Rattle.cli.specs.Call.{call_of};
    ghost use Rattle.cli.specs.Frame.{request_of};
    ghost use Rattle.cli.specs.Program.{EndsAs};
    ghost use Rattle.spread_core.specs.Call.{options};

    ghost says = { call_of options };

    ghost came = { λ said. EndsAs (request_of said) };

    fn name() -> &'static str {
        NAME
    }

    fn call_of<'a>(alloc: Global, words: &'a [Vec<u8>]) -> Result<Call<'a>, AllocError> {
        call_of(alloc, words)
    }

    fn outcome_of<'a>(rt: &'a HostRuntime, call: &Call<'a>) -> io::Result<Outcome> {
        let mut w = BufWriter::with_capacity(rt.alloc(), BUFFER, rt.stdout())?;
        Ok(match told(rt, call, &mut w) {
            Ok(outcome) => outcome,
            Err(fault) => Outcome::Failed(fault),
        })
    }

    fn word_of<'a>(alloc: Global, call: &Call<'a>, outcome: &Outcome) -> Option<&'a [u8]> {
        match outcome {
            Outcome::Usage(Wrong::Own(Misuse::NoHash)) => unknown_name(alloc, call).unwrap_or(None),
            Outcome::Usage(Wrong::Own(Misuse::NoNumber)) => no_number(call),
            Outcome::Failed(Failure::Own(NoTable::Undrawn(_))) => call.value(b"plot"),
            _ => wrong_word(call),
        }
    }
}

fn main(rt: HostRuntime) -> ExitCode {
    cli::program::run::<Spread>(&rt)
}
