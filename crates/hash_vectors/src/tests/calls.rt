//! Calls of the hashers beside those of the vectors, each once, by values of other programs or by hand.
use crate::tests::{all_hold, same};
use hashers::fx_hash::{FxHasher32, FxHasher64, fxhash32, fxhash64};
use hashers::jenkins::Lookup3Hasher;
use hashers::jenkins::spooky_hash::SpookyHasher;
use hashers::laws::{Piecewise, bucket_of, run_pieces, run_words32, run_words64};
use hashers::oz::DJB2Hasher;
use std::hash::Hasher;

#[test]
fn worked_examples(rt: HostRuntime) {
    let mut h = DJB2Hasher::default();
    h.write(b"a");
    h.write(b"b");
    let hash = h.finish();
    let mut number = DJB2Hasher::default();
    number.write_u16(25185);
    let mut pieces = Lookup3Hasher::fresh();
    run_pieces(&mut pieces, &[b"a", b"", b"b"]);
    same(
        &rt,
        &[
            hash,
            number.finish(),
            pieces.finish(),
            bucket_of::<DJB2Hasher>(b"a", 1000),
        ],
        &[5860902, 5860902, 18104817335149544820, 604],
    );
}

/// The word 97 by fx, from numbers of each width; at 32 bits eight bytes are two words, the low one first.
#[test]
fn words_of_fx(rt: HostRuntime) {
    let (mut byte, mut pair) = (FxHasher64::default(), FxHasher64::default());
    byte.write_u8(97);
    pair.write_u16(97);
    let mut words = FxHasher64::default();
    run_words64(&mut words, &[b"abcdefgh", b"a"]);
    let (mut halves, mut narrow) = (FxHasher32::default(), FxHasher32::default());
    halves.write_u64(97 << 32);
    run_words32(&mut narrow, &[b"abcd", b"", b"ef"]);
    let hash = halves.finish();
    halves.unwrite_word(97);
    same(
        &rt,
        &[
            byte.finish(),
            pair.finish(),
            words.finish(),
            narrow.finish(),
            hash,
            halves.finish(),
        ],
        &[
            16160435425421689461,
            fxhash64(b"a\0"),
            fxhash64(b"abcdefgha"),
            fxhash32(b"abcdef"),
            3555066485,
            0,
        ],
    );
}

/// Zeros show in the four words of a short text; from 192 bytes on there are none, and both versions are one.
#[test]
fn words_of_spooky(rt: HostRuntime) {
    let mut hasher = SpookyHasher::default();
    let none = hasher.short_words();
    hasher.write(&[0]);
    let one = hasher.short_words();
    hasher.write(&[0; 190]);
    let most = hasher.short_words();
    hasher.write(&[0]);
    let (first, second) = hasher.finish128();
    let (first_v1, second_v1) = hasher.finish128_v1();
    all_hold(
        &rt,
        &[
            none != one && one != most && most != none,
            most.is_some() && hasher.short_words().is_none(),
            first == first_v1 && second == second_v1,
        ],
    );
}
