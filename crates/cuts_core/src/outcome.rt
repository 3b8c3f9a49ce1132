//! What the program `cuts` is asked for, and how it ends.
ghost use Rattle.std.specs.Prelude.{◌≡◌, ◌⊎◌, None, [], map, IfOk, OnOk};
ghost use Rattle.std.specs.Option.{option_map};
ghost use Rattle.std.specs.Io.Buffered.{writer_buffer, writer_contents};
ghost use Rattle.std.specs.Io.KnownBytes.{Keeps};
ghost use Rattle.streams.specs.declared.failure.Failure.TheVariants.{NoMemory};
ghost use Rattle.cli.specs.declared.outcome.Outcome.TheVariants.{Failed};
ghost use Rattle.cli.specs.Call.{call_of, choices, sayings, texts, value_of};
ghost use Rattle.cli.specs.Frame.{text_of};
ghost use Rattle.cli.specs.Outcome.{IsFlushed};
ghost use Rattle.cuts_core.specs.Program.{at_fault, cutting_of, options, task_of, words_of, EndsCall, EndsRun, EndsTask};
ghost use Rattle.cuts_core.specs.Sizes.{fallen, name_of};

use crate::failure::{Failure, TooMany};
use crate::listing::{Lines, list_files};
use crate::sizes::{Size, Sizes, fallen, given, no_size, sizes_of};
use crate::tally::tell_tally;
use cli::call::{Call, Opt, flag, taking};
use cli::folder::{Folder, files};
use cli::frame::{About, Request, request_of, text_of};
use cli::keys::keys_of;
use cli::outcome;
use cli::outcome::{Words, of_run, of_telling};
use hash_cuts::Cuts;
use hash_lines::sums::{Sum, kind_of, kinds};
use std::alloc::{AllocError, Global};
use std::io::{Read, Write};
use streams::tries::write_out;

/// The work that a call asks for.
#[derive(Clone, Copy)]
pub struct Task {
    /// The sizes of chunks.
    pub sizes: Sizes,
    /// The hash of a chunk.
    pub kind: Sum,
    /// Whether the numbers of all chunks are written, and not a line for each.
    pub stats: bool,
}

/// What else is wrong with a call.
#[derive(Clone, Copy, Debug, Drop)]
pub enum Misuse {
    /// It gives this size as what is no number of bytes.
    NoSize(Size),
    /// This size is below 64, or below the one before it.
    Fallen(Size),
}

impl Words for Misuse {
    ghost words = { words_of };

    fn words(&self) -> &'static str {
        match self {
            Misuse::NoSize(Size::Least) => "--least must be a number of bytes, not",
            Misuse::NoSize(Size::Average) => "--average must be a number of bytes, not",
            Misuse::NoSize(Size::Most) => "--most must be a number of bytes, not",
            Misuse::Fallen(Size::Least) => "--least must be 64 or more, not",
            Misuse::Fallen(Size::Average) =>
                "--average must be 64 or more, and no less than --least, not",
            Misuse::Fallen(Size::Most) =>
                "--most must be no less than --average (by default 64K or 4 times -l), not",
        }
    }
}

/// What is wrong with a call.
pub type Wrong = outcome::Wrong<Misuse>;

/// What the call gives as the size that is wrong.
pub fn wrong_size<'a>(call: &Call<'a>, misuse: Misuse) -> Option<&'a [u8]>
    ensures { option_map (λ word. word.now) result
        ≡ value_of (name_of (at_fault misuse)) (sayings call.now.said.items) }
{
    match misuse {
        Misuse::NoSize(size) => given(call, size),
        Misuse::Fallen(size) => given(call, size),
    }
}

/// What came of a call.
pub type Outcome = outcome::Outcome<Misuse, TooMany>;

/// The options, as the help shows them.
pub fn options() -> [Opt; 9]
    ensures { choices result ≡ options }
{
    [
        taking(
            Some(b'a'),
            "algorithm",
            "NAME",
            "the hash of a chunk, by default spooky128",
        ),
        taking(
            Some(b'l'),
            "least",
            "BYTES",
            "the fewest bytes of a chunk, but for a file's last; by\ndefault a quarter of the average",
        ),
        taking(
            None,
            "average",
            "BYTES",
            "chunks have 1.23 to 1.36 times as many in the mean, if\nthe bytes look random; by default 64K, or 4 times -l",
        ),
        taking(
            Some(b'm'),
            "most",
            "BYTES",
            "the most bytes of a chunk; by default four times the\naverage",
        ),
        taking(
            None,
            "key-file",
            "FILE",
            "16 secret bytes, which decide where the cuts are",
        ),
        flag(
            None,
            "stats",
            "print instead how many chunks and bytes all files have,\nand how many bytes are in chunks whose hash came before",
        ),
        flag(None, "quiet", "show no progress"),
        flag(None, "help", "print this help and exit"),
        flag(None, "version", "print the version and exit"),
    ]
}

/// What the words behind the program's own name say.
pub fn call_of<'a>(alloc: Global, words: &'a [Vec<u8>]) -> Result<Call<'a>, AllocError>
    ensures { IfOk result (λ call. sayings call.said.items ≡ call_of options (texts words.now)) }
{
    cli::call::call_of(alloc, &options(), words)
}

/// Which work a call asks for.
fn task_of(call: &Call<'_>) -> Result<Task, Wrong>
    ensures task { result ≡ task_of (sayings call.now.said.items) }
    ensures sizes { IfOk result (λ task. fallen task.sizes ≡ None) }
{
    let Some(sizes) = sizes_of(call) else {
        return Err(Wrong::Own(Misuse::NoSize(no_size(call))));
    };
    if let Some(size) = fallen(sizes) {
        return Err(Wrong::Own(Misuse::Fallen(size)));
    }
    match kind_of(kinds(false), call.value(b"algorithm")) {
        Some(kind) => Ok(Task {
            sizes,
            kind,
            stats: call.gives(b"stats"),
        }),
        None => Err(Wrong::UnknownName),
    }
}

/// Where the cuts are, by the keys in a key file, or by zeros.
fn cuts_of(sizes: Sizes, keys: Option<(u64, u64)>) -> Cuts
    requires { fallen sizes ≡ None }
    ensures { result ≡ cutting_of sizes keys }
{
    let (seed1, seed2) = keys.unwrap_or((0, 0));
    match Cuts::new(sizes.least, sizes.average, sizes.most, seed1, seed2) {
        Some(cuts) => cuts,
        None => unreachable!(),
    }
}

/// Does a task over the files of these names.
fn run<'a, R: Read + Drop, F: Folder<R>, W: Write + Drop>(
    alloc: Global,
    folder: &F,
    task: Task,
    cuts: &Cuts,
    files: &[&'a [u8]],
    lines: &mut Lines<'a, W>,
) -> Result<bool, Failure>
    ensures ended { EndsRun task.stats task.kind cuts.now (F.opens folder.now) (map (λ file. file.now) files.now)
        (writer_contents W.contents lines.old.w) (writer_contents W.contents lines.new.w) result }
    ensures flushed { OnOk result (writer_buffer lines.old.w ≡ [] → writer_buffer lines.new.w ≡ []) }
{
    if task.stats {
        tell_tally(alloc, cuts, folder, task.kind, files, &mut lines.w)
    } else {
        list_files(alloc, cuts, folder, task.kind, files, lines)
    }
}

/// Does a task over the files of these names, by the keys in a key file.
fn ended<'a, R: Read + Drop, F: Folder<R>, W: Write + Drop>(
    alloc: Global,
    folder: &F,
    task: Task,
    key_file: Option<&[u8]>,
    files: &[&'a [u8]],
    lines: &mut Lines<'a, W>,
) -> Outcome
    requires { fallen task.sizes ≡ None }
    ensures ended { EndsTask (F.opens folder.now) (option_map (λ name. name.now) key_file.entry)
        (map (λ file. file.now) files.now)
        (writer_contents W.contents lines.old.w) (writer_contents W.contents lines.new.w) (Ok task) result }
    ensures flushed { writer_buffer lines.old.w ≡ [] → IsFlushed (writer_buffer lines.new.w) result }
{
    let keys = match key_file {
        None => None,
        Some(name) => match keys_of(folder, name) {
            None => return Outcome::Reported,
            keys => keys,
        },
    };
    let cuts = cuts_of(task.sizes, keys);
    of_run(run(alloc, folder, task, &cuts, files, lines))
}

/// Does what the call asks for. If the call is wrong, or there is no memory for its files, nothing is written. Where all was done or told,
/// nothing that it wrote is held back.
pub fn outcome_of<'a, R: Read + Drop, F: Folder<R>, W: Write + Drop>(
    alloc: Global,
    folder: &F,
    call: &Call<'a>,
    about: About<'_>,
    lines: &mut Lines<'a, W>,
) -> Outcome
    ensures ended { EndsCall (F.opens folder.now) (sayings call.now.said.items)
        (text_of about.entry.help.now about.entry.version.now about.entry.list.now)
        (writer_contents W.contents lines.old.w) (writer_contents W.contents lines.new.w) result
        ⊎ ((result ≡ Failed NoMemory) × Keeps (writer_contents W.contents lines.old.w)
        (writer_contents W.contents lines.new.w)) }
    ensures flushed { writer_buffer lines.old.w ≡ [] → IsFlushed (writer_buffer lines.new.w) result }
{
    match request_of(call) {
        Request::Misgiven(misgiven) => Outcome::Usage(Wrong::Option(misgiven)),
        Request::Text(text) => of_telling(write_out(&mut lines.w, text_of(&about, text))),
        Request::Work => match (task_of(call), files(alloc, call)) {
            (Err(wrong), _) => Outcome::Usage(wrong),
            (Ok(task), Ok(files)) => {
                ended(alloc, folder, task, call.value(b"key-file"), &files, lines)
            }
            _ => Outcome::Failed(Failure::NoMemory),
        },
    }
}
