//! Tests of two texts, and two texts of one hash.
use crate::tests::{all_hold, all_hold_at, same};
use crate::times31::Times31;
use hashers::fnv::FNV1aHasher64;
use hashers::laws::{
    apart_by_one, apart_by_one_fx, apart_by_zeros, apart_djb2, apart_fnv32, apart_fnv64, apart_sdbm,
};
use hashers::oz::{djb2, sdbm};

/// A test of two texts: one byte under one of two hashes, a window, or zeros.
#[derive(Clone, Copy)]
enum Apart {
    Fnv,
    Times31,
    Djb2,
    Sdbm,
    Fnv64,
    Fnv32,
    Zeros,
}

/// Whether a test holds of two texts.
fn holds(test: Apart, x: &[u8], y: &[u8]) -> bool {
    match test {
        Apart::Fnv => apart_by_one::<FNV1aHasher64>(x, y),
        Apart::Times31 => apart_by_one::<Times31>(x, y),
        Apart::Djb2 => apart_djb2(x, y),
        Apart::Sdbm => apart_sdbm(x, y),
        Apart::Fnv64 => apart_fnv64(x, y),
        Apart::Fnv32 => apart_fnv32(x, y),
        Apart::Zeros => apart_by_zeros(x, y),
    }
}

/// A test, two texts, and whether it holds of them. Where it does not, most pairs are one place wider or one bit looser.
#[rattlefmt::skip]
const PAIRS: [(Apart, &[u8], &[u8], bool); 28] = [
    (Apart::Fnv, b"ab", b"cb", true),
    (Apart::Fnv, b"ab", b"ba", false),
    (Apart::Fnv, b"a", b"ab", false),
    (Apart::Fnv, b"a", b"a", false),
    (Apart::Times31, b"Aa", b"Ba", true),
    (Apart::Times31, b"Aa", b"BB", false),
    (Apart::Djb2, b"aaaaaa", b"zzzzzz", true),
    (Apart::Djb2, b"a1", b"b2", true),
    (Apart::Djb2, b"a", b"A", false),
    (Apart::Djb2, b"", b"", false),
    (Apart::Djb2, b"a", b"ab", false),
    (Apart::Djb2, b"\0!", b"\x01\0", false),
    (Apart::Djb2, b"aaaaaa", b"baaaab", true),
    (Apart::Djb2, b"aaaaaaa", b"baaaaab", false),
    (Apart::Djb2, b"bC", b"cb", false),
    (Apart::Djb2, b"bc", b"cb", true),
    (Apart::Sdbm, b"abc", b"cba", true),
    (Apart::Sdbm, b"abcd", b"dbca", false),
    (Apart::Fnv64, b"abc", b"cba", true),
    (Apart::Fnv64, b"abcd", b"dbca", false),
    (Apart::Fnv32, b"ab", b"ba", true),
    (Apart::Fnv32, b"abc", b"bac", true),
    (Apart::Fnv32, b"abc", b"cba", false),
    (Apart::Zeros, b"", b"\0", true),
    (Apart::Zeros, b"a", b"a\0\0", true),
    (Apart::Zeros, b"\0", b"", false),
    (Apart::Zeros, b"a", b"a", false),
    (Apart::Zeros, &[0; 191], &[0; 192], false),
];

#[test]
fn two_texts(rt: HostRuntime) {
    for (row, (test, x, y, wanted)) in PAIRS.iter().enumerate() {
        all_hold_at(&rt, row, &[holds(*test, x, y) == *wanted]);
    }
    all_hold(
        &rt,
        &[
            apart_by_one_fx(&[b"abcd", b"e"], &[b"abcd", b"f"]),
            !apart_by_one_fx(&[b"abcde"], &[b"abcd", b"e"]),
            !apart_by_one_fx(&[], &[]),
        ],
    );
}

/// Texts of one hash that differ in one place more than a window has. A search over random texts found them.
#[test]
fn one_place_wider(rt: HostRuntime) {
    same(
        &rt,
        &[djb2(b"ogwmava"), sdbm(b"N5<k")],
        &[djb2(b"vxbavgx"), sdbm(b"o6],")],
    );
}
