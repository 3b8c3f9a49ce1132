//! What the program `hashsum` is asked for, and how it ends.
ghost use Rattle.std.specs.Prelude.{◌≡◌, [], map, IfOk, IsSome, MatchOption, OnOk};
ghost use Rattle.std.specs.Option.{option_map};
ghost use Rattle.std.specs.Io.Buffered.{writer_buffer, writer_contents};
ghost use Rattle.cli.specs.Call.{call_of, choices, sayings, texts};
ghost use Rattle.cli.specs.Frame.{text_of};
ghost use Rattle.cli.specs.Outcome.{IsFlushed};
ghost use Rattle.hashsum_core.specs.Keys.{AreKeysFor};
ghost use Rattle.hashsum_core.specs.Lists.{EndsLists};
ghost use Rattle.hashsum_core.specs.Program.{asked, asks_for, asks_for_keyed, checking_of, gives_checking, gives_writing, key_file, key_rule, misuse_of, options, summing_of, taken, task_of, words_of, work_of, EndsCall, EndsTask, EndsWork};

use crate::check::{Checking, check_lists};
use crate::failure::Failure;
use crate::keys::{KeyRule, keys_for};
use crate::reports::Reports;
use crate::sum::{Summing, sum_files};
use cli::call::{Call, Opt, flag, taking};
use cli::folder::{Folder, files};
use cli::frame::{About, Request, request_of, text_of};
use cli::outcome;
use cli::outcome::{Words, of_run, of_telling};
use hash_lines::line::Form;
use hash_lines::sums::{Sum, is_named, kind_of, kinds};
use std::alloc::{AllocError, Global};
use std::io::{BufWriter, Read, Write};
use streams::failure::Nothing;
use streams::tries::write_out;

/// The work that a call asks for.
#[derive(Clone, Copy)]
pub enum Task {
    /// The line of each file.
    Sum(Summing),
    /// Whether files have the hashes that lines tell.
    Check(Checking),
}

/// What else is wrong with a call.
#[derive(Clone, Copy, Debug, Drop)]
pub enum Misuse {
    /// It gives, beside `-c`, an option on how lines are written.
    NotWithCheck,
    /// It gives, without `-c`, an option on how lines are checked.
    OnlyWithCheck,
    /// It asks for a hash under keys, and gives no key file.
    NeedsKeyFile,
    /// It gives a key file, and asks for a hash that takes no keys.
    UnusedKeyFile,
}

impl Words for Misuse {
    ghost words = { words_of };

    fn words(&self) -> &'static str {
        match self {
            Misuse::NotWithCheck => "-z, --tag and --untagged do not go with -c",
            Misuse::OnlyWithCheck => "--status, --strict, --ignore-missing and -w go with -c alone",
            Misuse::NeedsKeyFile => "poly61 and siphash24 need --key-file",
            Misuse::UnusedKeyFile => "--key-file goes with poly61 and siphash24 alone",
        }
    }
}

/// What is wrong with a call.
pub type Wrong = outcome::Wrong<Misuse>;

/// What came of a call.
pub type Outcome = outcome::Outcome<Misuse, Nothing>;

/// The options, as the help shows them.
pub fn options() -> [Opt; 16]
    ensures { choices result ≡ options }
{
    [
        taking(
            Some(b'a'),
            "algorithm",
            "NAME",
            "the hash, by default spooky128; --list prints all",
        ),
        taking(
            None,
            "key-file",
            "FILE",
            "16 secret bytes, for -a poly61 (implied) or siphash24",
        ),
        flag(
            Some(b'c'),
            "check",
            "check the lines, by NAME alone if one is given",
        ),
        flag(
            None,
            "tag",
            "print lines as: NAME (file) = hexadecimal; the default",
        ),
        flag(None, "untagged", "print lines as: hexadecimal  file"),
        flag(
            Some(b'z'),
            "zero",
            "end lines with a zero byte, and escape nothing",
        ),
        flag(None, "quiet", "print no OK, and show no progress"),
        flag(
            None,
            "status",
            "print nothing; the exit status shows success",
        ),
        flag(None, "strict", "fail for malformed lines too"),
        flag(None, "ignore-missing", "skip missing files"),
        flag(Some(b'w'), "warn", "warn about each malformed line"),
        flag(
            Some(b'b'),
            "binary",
            "ignored, for compatibility with sha256sum",
        ),
        flag(Some(b't'), "text", "ignored likewise"),
        flag(None, "list", "print the names of the hashes and exit"),
        flag(None, "help", "print this help and exit"),
        flag(None, "version", "print the version and exit"),
    ]
}

/// What the words behind the program's own name say.
pub fn call_of<'a>(alloc: Global, words: &'a [Vec<u8>]) -> Result<Call<'a>, AllocError>
    ensures { IfOk result (λ call. sayings call.said.items ≡ call_of options (texts words.now)) }
{
    cli::call::call_of(alloc, &options(), words)
}

/// The hash that a call asks for by its name, or by a key file alone, which asks for poly61.
fn asked<'a>(call: &Call<'a>) -> Option<&'a [u8]>
    ensures { option_map (λ name. name.now) result ≡ asked (sayings call.now.said.items) }
{
    match call.value(b"algorithm") {
        Some(name) => Some(name),
        None => if call.gives(b"key-file") {
            Some(b"poly61")
        } else {
            None
        },
    }
}

/// How lines are checked.
fn checking_of(call: &Call<'_>, keys: Option<(u64, u64)>, kind: Sum) -> Checking
    ensures { result ≡ checking_of (sayings call.now.said.items) keys kind }
{
    Checking {
        kind,
        keys,
        only: asked(call).is_some(),
        quiet: call.gives(b"quiet"),
        status: call.gives(b"status"),
        strict: call.gives(b"strict"),
        ignore_missing: call.gives(b"ignore-missing"),
        warn: call.gives(b"warn"),
    }
}

/// How files are summed.
fn summing_of(call: &Call<'_>, keys: Option<(u64, u64)>, kind: Sum) -> Summing
    ensures { result ≡ summing_of (sayings call.now.said.items) keys kind }
{
    Summing {
        kind,
        keys,
        form: if call.gives_last(b"untagged", b"tag") {
            Form::Untagged
        } else {
            Form::Tagged
        },
        zero: call.gives(b"zero"),
    }
}

/// Whether the words give an option on how lines are written.
fn gives_writing(call: &Call<'_>) -> bool
    ensures { result ≡ gives_writing (sayings call.now.said.items) }
{
    call.gives(b"zero") || call.gives(b"tag") || call.gives(b"untagged")
}

/// Whether the words give an option on how lines are checked.
fn gives_checking(call: &Call<'_>) -> bool
    ensures { result ≡ gives_checking (sayings call.now.said.items) }
{
    call.gives(b"status")
        || call.gives(b"strict")
        || call.gives(b"ignore-missing")
        || call.gives(b"warn")
}

/// Whether the words ask for the hash of that name.
fn asks_for(call: &Call<'_>, name: &[u8]) -> bool
    ensures { result ≡ asks_for name.now (sayings call.now.said.items) }
{
    match asked(call) {
        Some(word) => is_named(word, name),
        None => false,
    }
}

/// Which keys the key file may have: any for siphash24.
fn key_rule(call: &Call<'_>) -> KeyRule
    ensures { result ≡ key_rule (sayings call.now.said.items) }
{
    if asks_for(call, b"siphash24") {
        KeyRule::Any
    } else {
        KeyRule::Poly61
    }
}

/// Whether the words ask for a hash that takes keys.
fn asks_for_keyed(call: &Call<'_>) -> bool
    ensures { result ≡ asks_for_keyed (sayings call.now.said.items) }
{
    asks_for(call, b"poly61") || asks_for(call, b"siphash24")
}

/// What is wrong with a call, but for the name of a hash.
fn misuse_of(call: &Call<'_>) -> Option<Misuse>
    ensures { result ≡ misuse_of (sayings call.now.said.items) }
{
    let checks = call.gives(b"check");
    if checks && gives_writing(call) {
        return Some(Misuse::NotWithCheck);
    }
    if !checks && gives_checking(call) {
        return Some(Misuse::OnlyWithCheck);
    }
    let keyed = call.gives(b"key-file");
    let asks = asks_for_keyed(call);
    if asks && !keyed {
        return Some(Misuse::NeedsKeyFile);
    }
    if keyed && !asks {
        return Some(Misuse::UnusedKeyFile);
    }
    None
}

/// What is to be done by this hash.
fn work_of(call: &Call<'_>, keys: Option<(u64, u64)>, kind: Sum) -> Task
    ensures { result ≡ work_of (sayings call.now.said.items) keys kind }
{
    if call.gives(b"check") {
        Task::Check(checking_of(call, keys, kind))
    } else {
        Task::Sum(summing_of(call, keys, kind))
    }
}

/// Which work a call asks for, under the keys in its key file.
fn task_of(call: &Call<'_>, keys: Option<(u64, u64)>) -> Result<Task, Wrong>
    ensures { result ≡ task_of (sayings call.now.said.items) keys }
{
    match kind_of(kinds(true), asked(call)) {
        Some(kind) => Ok(work_of(call, keys, kind)),
        None => Err(Wrong::UnknownName),
    }
}

/// Checks the lines of these lists, by the hash that is asked for alone, or by all.
fn check_taken<R: Read + Drop, F: Folder<R> + Reports, W: Write + Drop>(
    alloc: Global,
    folder: &F,
    checking: Checking,
    lists: &[&[u8]],
    w: &mut BufWriter<W>,
) -> Result<bool, Failure>
    ensures told { EndsLists (taken checking) checking (F.opens folder.now)
        (map (λ list. list.now) lists.now)
        (writer_contents W.contents w.old) (writer_contents W.contents w.new) result }
    ensures flushed { OnOk result (writer_buffer w.old ≡ [] → writer_buffer w.new ≡ []) }
{
    if checking.only {
        return check_lists(alloc, folder, &[checking.kind], checking, lists, w);
    }
    check_lists(alloc, folder, kinds(true), checking, lists, w)
}

/// Does a task over these files.
fn ended<R: Read + Drop, F: Folder<R> + Reports, W: Write + Drop>(
    alloc: Global,
    folder: &F,
    files: &[&[u8]],
    task: Result<Task, Wrong>,
    w: &mut BufWriter<W>,
) -> Outcome
    ensures ended { EndsTask (F.opens folder.now) (map (λ file. file.now) files.now)
        (writer_contents W.contents w.old) (writer_contents W.contents w.new) task result }
    ensures flushed { writer_buffer w.old ≡ [] → IsFlushed (writer_buffer w.new) result }
{
    match task {
        Ok(Task::Sum(summing)) => of_run(sum_files(alloc, folder, summing, files, w)),
        Ok(Task::Check(checking)) => of_run(check_taken(alloc, folder, checking, files, w)),
        Err(wrong) => Outcome::Usage(wrong),
    }
}

/// The keys in the key file of a call, if it gives one. `None` if that has none such as the hash takes.
fn keys_of_call<R: Read + Drop, F: Folder<R>>(
    folder: &F,
    call: &Call<'_>,
) -> Option<Option<(u64, u64)>>
    ensures { let said = sayings call.now.said.items in
        MatchOption result (IsSome (key_file said))
        (AreKeysFor (key_rule said) (F.opens folder.now) (key_file said)) }
{
    keys_for(folder, call.value(b"key-file"), key_rule(call))
}

/// Does the work of a call, under the keys of its key file. If that has no such keys, or there is no memory for the files, nothing is
/// written.
fn worked<R: Read + Drop, F: Folder<R> + Reports, W: Write + Drop>(
    alloc: Global,
    folder: &F,
    call: &Call<'_>,
    w: &mut BufWriter<W>,
) -> Outcome
    ensures ended { EndsWork (F.opens folder.now) (sayings call.now.said.items)
        (writer_contents W.contents w.old) (writer_contents W.contents w.new) result }
    ensures flushed { writer_buffer w.old ≡ [] → IsFlushed (writer_buffer w.new) result }
{
    let Some(keys) = keys_of_call(folder, call) else {
        return Outcome::Reported;
    };
    match files(alloc, call) {
        Ok(files) => ended(alloc, folder, &files, task_of(call, keys), w),
        Err(_) => Outcome::Failed(Failure::NoMemory),
    }
}

/// Does what the call asks for, by the hashes that can be told, and by those that take keys under the keys of its key file. If the call
/// is wrong, there are no such keys or there is no memory for its files, nothing is written. Where all was done or told, nothing that it
/// wrote is held back.
pub fn outcome_of<R: Read + Drop, F: Folder<R> + Reports, W: Write + Drop>(
    alloc: Global,
    folder: &F,
    call: &Call<'_>,
    about: About<'_>,
    w: &mut BufWriter<W>,
) -> Outcome
    ensures ended { EndsCall (F.opens folder.now) (sayings call.now.said.items)
        (text_of about.entry.help.now about.entry.version.now about.entry.list.now)
        (writer_contents W.contents w.old) (writer_contents W.contents w.new) result }
    ensures flushed { writer_buffer w.old ≡ [] → IsFlushed (writer_buffer w.new) result }
{
    match request_of(call) {
        Request::Misgiven(misgiven) => Outcome::Usage(Wrong::Option(misgiven)),
        Request::Text(text) => of_telling(write_out(w, text_of(&about, text))),
        Request::Work => match misuse_of(call) {
            Some(misuse) => Outcome::Usage(Wrong::Own(misuse)),
            None => worked(alloc, folder, call, w),
        },
    }
}
