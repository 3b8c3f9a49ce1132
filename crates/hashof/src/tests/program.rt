//! The program's outcome, for arguments as the system gives them.
use super::{same, same_text};
use crate::outcome::{Outcome, outcome_limited, outcome_line, outcome_of, outcome_status};
use std::alloc::Global;
use std::env::Args;
use std::io;
use std::io::ErrorKind;
use std::process::Abort;
use streams::rehearsal::{Paper, Script, Trouble};

/// The program's own name and these words, as `env::args` gives them.
fn args(alloc: Global, words: &[&str]) -> io::Result<Args> {
    let mut all = Vec::new(alloc);
    for word in words {
        all.push(String::from_str(alloc, word)?)?;
    }
    Ok(all.into_iter())
}

/// The line on standard error, the status, what was written, and how many reads, writes and flushes were made.
#[derive(Clone, Copy)]
struct Exit(&'static str, u8, &'static [u8], [u64; 3]);

const USAGE: Exit = Exit("usage: hashof NAME\n", 2, b"", [0, 0, 0]);

const NO_MEMORY: Exit = Exit("hashof: out of memory\n", 1, b"", [0, 0, 0]);

const UNKNOWN: Exit = Exit("hashof: unknown name\n", 2, b"", [0, 0, 0]);

const TOLD: Exit = Exit("", 0, b"620445648566982762\n", [3, 1, 1]);

const UNREAD: Exit = Exit("hashof: read fault\n", 1, b"", [2, 0, 0]);

const UNWRITTEN: Exit = Exit("hashof: write fault\n", 1, b"620", [3, 4, 0]);

const TOO_LONG: Exit = Exit("hashof: input too long\n", 1, b"", [2, 0, 0]);

/// In one turn of a loop the program ended so.
fn ended(rt: &impl Abort, turn: usize, outcome: &Outcome, r: &Script, w: &Paper, exit: Exit) {
    let Exit(complaint, status, line, [reads, writes, flushes]) = exit;
    same_text(
        rt,
        turn,
        outcome_line(outcome).as_bytes(),
        complaint.as_bytes(),
    );
    same_text(rt, turn, w.text(), line);
    let got = [
        u64::from(outcome_status(outcome)),
        r.reads,
        w.writes,
        w.flushes,
    ];
    same(rt, turn, &got, &[u64::from(status), reads, writes, flushes]);
}

/// After how many bytes a read fails that does not.
const NEVER: usize = usize::MAX;

/// Arguments, after how many bytes a read fails, how many bytes are written at once, how writing fails, and the end.
const CALLS: [(&[&str], usize, usize, Trouble, Exit); 9] = [
    (&[], NEVER, 32, Trouble::None, USAGE),
    (&["hashof"], NEVER, 32, Trouble::None, USAGE),
    (
        &["hashof", "fnv1a64", "fnv1a64"],
        NEVER,
        32,
        Trouble::None,
        USAGE,
    ),
    (
        &["hashof", "md5", "x", "y"],
        NEVER,
        32,
        Trouble::None,
        USAGE,
    ),
    (&["hashof", "md5"], NEVER, 32, Trouble::None, UNKNOWN),
    (&["hashof", ""], NEVER, 32, Trouble::None, UNKNOWN),
    (&["hashof", "fnv1a64"], NEVER, 32, Trouble::None, TOLD),
    (&["hashof", "fnv1a64"], 1, 32, Trouble::None, UNREAD),
    (
        &["hashof", "fnv1a64"],
        NEVER,
        1,
        Trouble::WriteFails(3),
        UNWRITTEN,
    ),
];

#[test]
fn calls_end_by_the_table(rt: HostRuntime) {
    for (turn, (words, until_fault, most, trouble, exit)) in CALLS.iter().enumerate() {
        let mut reader = Script::failing(b"ab", 1, *until_fault);
        let mut paper = Paper::new(*most, *trouble, ErrorKind::BrokenPipe);
        let outcome = outcome_of(args(rt.alloc(), words), &mut reader, &mut paper);
        ended(&rt, turn, &outcome, &reader, &paper, *exit);
    }
}

/// Arguments that were not had.
#[test]
fn arguments_that_are_not_there(rt: HostRuntime) {
    let kinds = [
        (ErrorKind::InvalidData, USAGE),
        (ErrorKind::OutOfMemory, NO_MEMORY),
    ];
    for (turn, (kind, exit)) in kinds.iter().enumerate() {
        let mut reader = Script::new(b"ab", 1);
        let mut paper = Paper::sound(32);
        let outcome = outcome_of(Err(io::Error::from(*kind)), &mut reader, &mut paper);
        ended(&rt, turn, &outcome, &reader, &paper, *exit);
    }
}

#[test]
fn an_input_at_the_limit(rt: HostRuntime) {
    let named = args(rt.alloc(), &["hashof", "fnv1a64"]);
    let mut reader = Script::new(b"ab", 1);
    let mut paper = Paper::sound(32);
    let outcome = outcome_limited(named, 2, &mut reader, &mut paper);
    ended(&rt, 0, &outcome, &reader, &paper, TOO_LONG);
}
