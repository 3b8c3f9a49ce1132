//! Tests of all libraries: values from outside the proofs, and readers and memory that fail.
//! What ends a test where it fails stands here, so that it is proved once.
use std::process::Abort;

mod buckets;
mod calls;
mod cuts;
mod filter_files;
mod filters;
mod laws;
mod numbers;
mod original;
mod readers;
mod ring;
mod rounds;
mod sample;
mod two_texts;
mod vectors;
mod xxh3;

/// That each number is as wanted.
fn same(rt: &impl Abort, got: &[u64], want: &[u64]) {
    same_at(rt, 0, got, want);
}

/// That each number is as wanted, in one turn of a loop.
fn same_at(rt: &impl Abort, turn: usize, got: &[u64], want: &[u64]) {
    assert_eq!(rt; got, want, "at {turn}");
}

/// That all claims hold.
fn all_hold(rt: &impl Abort, claims: &[bool]) {
    all_hold_at(rt, 0, claims);
}

/// That all claims hold, in one turn of a loop.
fn all_hold_at(rt: &impl Abort, turn: usize, claims: &[bool]) {
    assert!(rt;
        !claims.contains(&false),
        "not all hold at {turn}: {claims:?}"
    );
}
