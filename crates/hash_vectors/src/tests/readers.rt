//! `hash_reader` over readers that misbehave.
use crate::tests::{all_hold_at, same_at};
use hashers::engine::hash_reader;
use hashers::fnv::FNV1aHasher64;
use hashers::laws::Piecewise;
use hashers::oz::LoseLoseHasher;
use std::io;
use std::io::{ErrorKind, Read};
use std::process::Abort;
use streams::rehearsal::Script;

/// The hashes of nothing, `a`, `ab`, `abc` and `abcd`.
const BEGINNINGS: [u64; 5] = [
    14695981039346656037,
    12638187200555641996,
    620445648566982762,
    16654208175385433931,
    18165163011005162717,
];

/// How a call ends: the bytes, whether the end was seen, and the kind of the error.
type End = (u64, bool, Option<ErrorKind>);

/// Reads on through an array of 2 under a limit, and compares how the call ends, the hash so far and how many reads there were.
fn reads_on(
    rt: &impl Abort,
    h: &mut FNV1aHasher64,
    r: &mut Script,
    limit: u64,
    want: (End, usize, u64),
) {
    let end = match hash_reader::<FNV1aHasher64, Script, 2>(h, r, limit) {
        Ok(taken) => (taken.bytes, taken.ended, None),
        Err(fault) => (fault.bytes, false, Some(fault.error.kind())),
    };
    let (wanted, hashed, reads) = want;
    let hash = BEGINNINGS.get(hashed).copied().unwrap_or(0);
    same_at(
        rt,
        hashed,
        &[end.0, h.answer(), r.reads],
        &[wanted.0, hash, reads],
    );
    all_hold_at(
        rt,
        hashed,
        &[end.1 == wanted.1, end.2 == wanted.2, !r.asked_for_nothing],
    );
}

/// `abcd` by a byte a read, failing once after k bytes and going on.
#[test]
fn faults_at_each_byte(rt: HostRuntime) {
    for k in 0..5usize {
        let mut h = FNV1aHasher64::fresh();
        let mut r = Script::failing(b"abcd", 1, k);
        let bytes = k as u64;
        let fault = (bytes, false, Some(ErrorKind::BrokenPipe));
        reads_on(&rt, &mut h, &mut r, 9, (fault, k, bytes + 1));
        reads_on(&rt, &mut h, &mut r, 9, ((4 - bytes, true, None), 4, 6));
    }
}

/// A read that is interrupted is a fault; under a limit of no bytes nothing is read, and under one that is met no end is looked for.
#[test]
fn interrupted_and_limited(rt: HostRuntime) {
    let mut h = FNV1aHasher64::fresh();
    let mut r = Script::failing(b"ab", 2, 0);
    r.kind = ErrorKind::Interrupted;
    let fault = (0, false, Some(ErrorKind::Interrupted));
    for (limit, end, hashed, reads) in [
        (0, (0, false, None), 0, 0),
        (9, fault, 0, 1),
        (2, (2, false, None), 2, 2),
        (1, (0, true, None), 2, 3),
    ] {
        reads_on(&rt, &mut h, &mut r, limit, (end, hashed, reads));
    }
}

/// Gives bytes of 1 and never ends, at most so many a read.
#[derive(Drop)]
struct Endless {
    most: usize,
    reads: u64,
}

impl Read for Endless {
    fn read(&mut self, buf: &mut [u8]) -> io::Result<usize> {
        self.reads = self.reads.saturating_add(1);
        let n = self.most.min(buf.len());
        buf[..n].fill(1);
        Ok(n)
    }
}

#[test]
fn an_endless_reader(rt: HostRuntime) {
    let mut h = LoseLoseHasher::fresh();
    let mut r = Endless { most: 7, reads: 0 };
    let outcome = hash_reader::<LoseLoseHasher, Endless, 4096>(&mut h, &mut r, 1000);
    same_at(&rt, 7, &[h.answer(), r.reads], &[1000, 143]);
    let is_met = matches!(outcome, Ok(taken) if taken.bytes == 1000 && !taken.ended);
    all_hold_at(&rt, 7, &[is_met]);
}
