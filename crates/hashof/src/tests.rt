//! Tests of the program, over readers and writers that misbehave.
mod program;

use crate::outcome::{Outcome, outcome_line, outcome_status};
use crate::run::{RunFault, run, run_limited};
use hash_bytes::fnv::FNV1aHasher64;
use hash_jenkins::Lookup3Hasher;
use hash_laws::reading::reader;
use hash_laws::reading::reader::hash_reader;
use std::hash::Hasher;
use std::io;
use std::io::ErrorKind;
use std::process::Abort;
use streams::rehearsal::{Paper, Script, Trouble};

/// What became of a run, without the error itself.
#[derive(Clone, Copy, PartialEq, Eq, Debug)]
enum End {
    Told,
    Unknown,
    Read(u64, ErrorKind),
    Long,
    Write(Option<ErrorKind>),
}

fn end_of(outcome: Result<(), RunFault>) -> End {
    match &outcome {
        Ok(()) => End::Told,
        Err(RunFault::UnknownName) => End::Unknown,
        Err(RunFault::ReadFault(fault)) => End::Read(fault.bytes, fault.error.kind()),
        Err(RunFault::TooLong) => End::Long,
        Err(RunFault::WriteFault(Some(error))) => End::Write(Some(error.kind())),
        Err(RunFault::WriteFault(None)) => End::Write(None),
    }
}

/// That numbers are as wanted, in one turn of a loop.
fn same(rt: &impl Abort, turn: usize, got: &[u64], want: &[u64]) {
    assert_eq!(rt; got, want, "at {turn}");
}

/// That a text is as wanted, in one turn of a loop.
fn same_text(rt: &impl Abort, turn: usize, got: &[u8], want: &[u8]) {
    assert_eq!(rt; got, want, "at {turn}");
}

/// In one turn of a loop a run ended so, this stands on its paper, and so many writes and flushes were made.
fn ended(
    rt: &impl Abort,
    turn: usize,
    outcome: Result<(), RunFault>,
    paper: &Paper,
    wanted: (End, &[u8], [u64; 2]),
) {
    let (end, line, calls) = wanted;
    assert_eq!(rt; end_of(outcome), end, "at {turn}");
    same_text(rt, turn, paper.text(), line);
    same(rt, turn, &[paper.writes, paper.flushes], &calls);
}

/// Runs over a text, read so many bytes at a time, and compares the line.
fn tells(rt: &impl Abort, turn: usize, name: &str, text: &[u8], most: usize, line: &[u8]) {
    let mut paper = Paper::sound(32);
    let outcome = run(name, &mut Script::new(text, most), &mut paper);
    ended(rt, turn, outcome, &paper, (End::Told, line, [1, 1]));
}

/// Of 4097 zeros, whatever the reads, the line tells the hash of two writes, of 4096 and of one.
#[test]
fn tells_lookup3_of_pieces(rt: HostRuntime) {
    let mut hasher = Lookup3Hasher::default();
    hasher.write(&[0; 4096]);
    hasher.write(&[0]);
    same(&rt, 0, &[hasher.finish()], &[952307450047595019]);
    tells(&rt, 0, "lookup3", &[0; 4097], 1000, b"952307450047595019\n");
}

/// What the original answers to so many bytes.
const AT_THE_ENDS: [(&str, usize, &str); 24] = [
    ("fnv1a64", 4095, "3811037686200682770\n"),
    ("fnv1a64", 4096, "9000293197543857445\n"),
    ("fnv1a64", 4097, "3795539694529513508\n"),
    ("fnv1a64", 8191, "6156934204668905250\n"),
    ("fnv1a64", 8192, "17181620337946081061\n"),
    ("fnv1a64", 8193, "1287639582017524052\n"),
    ("lookup3", 4095, "8077871715727144559\n"),
    ("lookup3", 4096, "13034767391109764602\n"),
    ("lookup3", 4097, "8063132460245924901\n"),
    ("lookup3", 8191, "16528104600836260794\n"),
    ("lookup3", 8192, "10480385044041270637\n"),
    ("lookup3", 8193, "16351905035178967481\n"),
    ("spooky_v1", 4095, "14764326417199162560\n"),
    ("spooky_v1", 4096, "10016349246941316779\n"),
    ("spooky_v1", 4097, "13492617575819180468\n"),
    ("spooky_v1", 8191, "15878751148285449880\n"),
    ("spooky_v1", 8192, "16414973006445263668\n"),
    ("spooky_v1", 8193, "3004010557080652910\n"),
    ("fxhash32", 4095, "9865538\n"),
    ("fxhash32", 4096, "1312422903\n"),
    ("fxhash32", 4097, "3219497088\n"),
    ("fxhash32", 8191, "2164153943\n"),
    ("fxhash32", 8192, "2699266469\n"),
    ("fxhash32", 8193, "942521681\n"),
];

#[test]
fn tells_texts_that_end_at_a_piece(rt: HostRuntime) {
    let mut text = [0u8; 8193];
    for (i, byte) in text.iter_mut().enumerate() {
        *byte = ((i % 256 * 131 + i / 256 % 256 * 17 + 89) % 256) as u8;
    }
    for (turn, (name, length, line)) in AT_THE_ENDS.iter().enumerate() {
        for most in [8193, 1000] {
            let beginning = &text[..(*length).min(8193)];
            tells(&rt, turn, name, beginning, most, line.as_bytes());
        }
    }
}

/// The number of the first digits, by `passthrough`, for one digit to all twenty.
#[test]
fn tells_numbers_of_each_length(rt: HostRuntime) {
    for digits in [
        b"12345678901234567890",
        b"10000000000000000000",
        b"18446744073709551615",
    ] {
        let mut number: u64 = 0;
        let mut line = [b'\n'; 21];
        for (i, digit) in digits.iter().enumerate() {
            number = number.wrapping_mul(10).wrapping_add((*digit & 15) as u64);
            line[i] = *digit;
            tells(
                &rt,
                i,
                "passthrough",
                &number.to_be_bytes(),
                32,
                &line[..i + 2],
            );
            line[i + 1] = b'\n';
        }
    }
}

/// Nothing is read, written or flushed.
#[test]
fn refuses_a_name_before_it_reads(rt: HostRuntime) {
    for (turn, name) in ["md5", "", "fnv1a6", "fnv1a64 ", "FNV1A64"]
        .iter()
        .enumerate()
    {
        let mut reader = Script::new(b"ab", 2);
        let mut paper = Paper::sound(32);
        let outcome = run(name, &mut reader, &mut paper);
        ended(&rt, turn, outcome, &paper, (End::Unknown, b"", [0, 0]));
        same(&rt, turn, &[reader.reads], &[0]);
    }
}

/// Over `ab` under a limit at most that many reads are made, each of some bytes.
#[test]
fn refuses_an_input_at_the_limit(rt: HostRuntime) {
    let wanted: [(u64, (End, &[u8], [u64; 2])); 3] = [
        (0, (End::Long, b"", [0, 0])),
        (2, (End::Long, b"", [0, 0])),
        (3, (End::Told, b"620445648566982762\n", [1, 1])),
    ];
    for (turn, (limit, wanted)) in wanted.iter().enumerate() {
        let mut reader = Script::new(b"ab", 1);
        let mut paper = Paper::sound(32);
        let outcome = run_limited("fnv1a64", *limit, &mut reader, &mut paper);
        ended(&rt, turn, outcome, &paper, *wanted);
        let fair = reader.reads <= *limit && !reader.asked_for_nothing;
        same(&rt, turn, &[u64::from(fair)], &[1]);
    }
}

/// Of `abc`: the most bytes of a read, how many come before the fault, and its kind.
const FAULTS: [(usize, u64, ErrorKind); 5] = [
    (2, 0, ErrorKind::BrokenPipe),
    (2, 1, ErrorKind::BrokenPipe),
    (2, 2, ErrorKind::BrokenPipe),
    (2, 3, ErrorKind::BrokenPipe),
    (1, 2, ErrorKind::Interrupted),
];

#[test]
fn writes_nothing_where_a_read_fails(rt: HostRuntime) {
    for (turn, (most, bytes, kind)) in FAULTS.iter().enumerate() {
        let mut reader = Script::failing(b"abc", *most, *bytes as usize);
        reader.kind = *kind;
        let mut paper = Paper::sound(32);
        let outcome = run("fnv1a64", &mut reader, &mut paper);
        let end = End::Read(*bytes, *kind);
        ended(&rt, turn, outcome, &paper, (end, b"", [0, 0]));
    }
}

/// Runs over `a` onto this paper.
fn writes(
    rt: &impl Abort,
    turn: usize,
    name: &str,
    mut paper: Paper,
    wanted: (End, &[u8], [u64; 2]),
) {
    let outcome = run(name, &mut Script::new(b"a", 1), &mut paper);
    ended(rt, turn, outcome, &paper, wanted);
}

/// The line of the hash of `a`.
const LINE: &[u8] = b"12638187200555641996\n";

#[test]
fn stops_at_the_first_failed_write(rt: HostRuntime) {
    let kind = ErrorKind::BrokenPipe;
    for told in 0..21usize {
        let call = told as u64 + 1;
        let paper = Paper::new(1, Trouble::WriteFails(told), kind);
        let wanted = (End::Write(Some(kind)), &LINE[..told], [call, 0]);
        writes(&rt, told, "fnv1a64", paper, wanted);
    }
}

const INTERRUPTED: End = End::Write(Some(ErrorKind::Interrupted));

const BROKEN: End = End::Write(Some(ErrorKind::BrokenPipe));

/// A name, how many bytes are written at once, how and with what writing fails, and what comes of it over `a`.
const WRITES: [(&str, usize, Trouble, ErrorKind, (End, &[u8], [u64; 2])); 7] = [
    (
        "fnv1a64",
        32,
        Trouble::WriteFails(0),
        ErrorKind::Interrupted,
        (INTERRUPTED, b"", [1, 0]),
    ),
    (
        "fnv1a64",
        32,
        Trouble::TakesNothing(0),
        ErrorKind::Interrupted,
        (End::Write(None), b"", [1, 0]),
    ),
    (
        "fnv1a64",
        32,
        Trouble::FlushFails(0),
        ErrorKind::Interrupted,
        (INTERRUPTED, LINE, [1, 1]),
    ),
    (
        "fnv1a64",
        1,
        Trouble::WriteFails(7),
        ErrorKind::Interrupted,
        (INTERRUPTED, b"1263818", [8, 0]),
    ),
    (
        "fnv1a64",
        1,
        Trouble::FlushFails(0),
        ErrorKind::Interrupted,
        (INTERRUPTED, LINE, [21, 1]),
    ),
    (
        "fnv1a64",
        1,
        Trouble::WriteFails(21),
        ErrorKind::BrokenPipe,
        (End::Told, LINE, [21, 1]),
    ),
    (
        "djb2",
        32,
        Trouble::WriteFails(0),
        ErrorKind::BrokenPipe,
        (BROKEN, b"", [1, 0]),
    ),
];

#[test]
fn tells_what_a_writer_answered(rt: HostRuntime) {
    for (turn, (name, most, trouble, kind, wanted)) in WRITES.iter().enumerate() {
        let paper = Paper::new(*most, *trouble, *kind);
        writes(&rt, turn, name, paper, *wanted);
    }
}

/// The line on standard error and the status.
const ENDS: [(&str, u8); 7] = [
    ("", 0),
    ("usage: hashof NAME\n", 2),
    ("hashof: out of memory\n", 1),
    ("hashof: unknown name\n", 2),
    ("hashof: read fault\n", 1),
    ("hashof: input too long\n", 1),
    ("hashof: write fault\n", 1),
];

#[test]
fn ends_by_the_table(rt: HostRuntime) {
    let fault = reader::Fault {
        bytes: 3,
        error: io::Error::from(ErrorKind::BrokenPipe),
    };
    let outcomes = [
        Outcome::Done,
        Outcome::Usage,
        Outcome::NoMemory,
        Outcome::Failed(RunFault::UnknownName),
        Outcome::Failed(RunFault::ReadFault(fault)),
        Outcome::Failed(RunFault::TooLong),
        Outcome::Failed(RunFault::WriteFault(None)),
    ];
    for (turn, (line, status)) in ENDS.iter().enumerate() {
        let outcome = &outcomes[turn];
        same_text(&rt, turn, outcome_line(outcome).as_bytes(), line.as_bytes());
        same(
            &rt,
            turn,
            &[u64::from(outcome_status(outcome))],
            &[u64::from(*status)],
        );
    }
}
