//! XXH3 of more than 240 bytes.
ghost use Rattle.std.specs.Prelude.{◌≡◌, ◌+◌, ◌-◌, ◌*◌, ◌/◌, ◌%◌, ◌≤◌, ◌<◌};
ghost use Rattle.hash_xxh3.specs.Common.{length, take, drop, IsLanes, secret_of, start_words, start_lanes, halves_product, lane, accumulate, scrambled, scramble, stripe_in, stripes_in, merge_pair, merge, last_words, end_words, end_long, long_under, of_long, kept_words};

use crate::middle::length_word;
use crate::secret::{default_secret, put_secret};
use crate::words::{avalanche, folded_product, word_at};
use hash_words::xorshift;

/// The bytes of a stripe.
pub(crate) const STRIPE: usize = 64;

/// The words, and the number of the next stripe in its block of sixteen.
#[derive(Clone, Copy)]
pub struct Lanes {
    /// The words.
    pub words: [u64; 8],
    /// The number of the next stripe in its block.
    pub stripe: usize,
}

/// Lanes of these words, at a stripe of a block.
#[inline(always)]
pub(crate) fn lanes_at(words: [u64; 8], stripe: u64) -> Lanes
    ensures words { result.words ≡ words }
    ensures stripe { result.stripe ≡ stripe % 16 }
    ensures in_range { IsLanes result }
{
    Lanes {
        words,
        stripe: (stripe % 16) as usize,
    }
}

/// The eight words before the first stripe.
pub(crate) const START: Lanes = Lanes {
    words: [
        0xc2b2ae3d,
        0x9e3779b185ebca87,
        0xc2b2ae3d27d4eb4f,
        0x165667b19e3779f9,
        0x85ebca77c2b2ae63,
        0x85ebca77,
        0x27d4eb2f165667c5,
        0x9e3779b1,
    ],
    stripe: 0,
};

// The product of a word's two halves.
#[inline(always)]
#[tactic(auto, unfolding(crate::specs::Long::halves_product))]
fn halves_product(x: u64) -> u64
    ensures { result ≡ halves_product x }
{
    (x % 4294967296) * (x / 4294967296)
}

#[inline(always)]
#[tactic(auto, unfolding(crate::specs::Long::lane))]
fn lane(
    words: &[u64; 8],
    stripe: &[u8; 64],
    secret: &[u8; 192],
    at: usize,
    i: usize,
    j: usize,
) -> u64
    requires secret { at ≤ 128 }
    requires own { i < 8 }
    requires neighbour { j < 8 }
    ensures { result ≡ lane words.now stripe.now secret.now at i j }
{
    let product = halves_product(word_at(stripe, 8 * i) ^ word_at(secret, at + 8 * i));
    words[i]
        .wrapping_add(word_at(stripe, 8 * j))
        .wrapping_add(product)
}

// The words after a stripe, under the 64 bytes of the secret from `at` on.
#[inline(always)]
#[tactic(auto, unfolding(crate::specs::Long::accumulate))]
fn accumulate(words: &[u64; 8], stripe: &[u8; 64], secret: &[u8; 192], at: usize) -> [u64; 8]
    requires { at ≤ 128 }
    ensures { result ≡ accumulate words.now stripe.now secret.now at }
{
    [
        lane(words, stripe, secret, at, 0, 1),
        lane(words, stripe, secret, at, 1, 0),
        lane(words, stripe, secret, at, 2, 3),
        lane(words, stripe, secret, at, 3, 2),
        lane(words, stripe, secret, at, 4, 5),
        lane(words, stripe, secret, at, 5, 4),
        lane(words, stripe, secret, at, 6, 7),
        lane(words, stripe, secret, at, 7, 6),
    ]
}

// A word at the end of a block.
#[inline(always)]
#[tactic(auto, unfolding(crate::specs::Long::scrambled))]
fn scrambled(key: u64, word: u64) -> u64
    ensures { result ≡ scrambled key word }
{
    (xorshift(word, 47) ^ key).wrapping_mul(0x9e3779b1)
}

#[inline(always)]
#[tactic(auto, unfolding(crate::specs::Long::scramble))]
fn scramble(words: &[u64; 8], secret: &[u8; 192]) -> [u64; 8]
    ensures { result ≡ scramble words.now secret.now }
{
    [
        scrambled(word_at(secret, 128), words[0]),
        scrambled(word_at(secret, 136), words[1]),
        scrambled(word_at(secret, 144), words[2]),
        scrambled(word_at(secret, 152), words[3]),
        scrambled(word_at(secret, 160), words[4]),
        scrambled(word_at(secret, 168), words[5]),
        scrambled(word_at(secret, 176), words[6]),
        scrambled(word_at(secret, 184), words[7]),
    ]
}

/// One stripe more.
#[inline(always)]
#[tactic(auto, unfolding(crate::specs::Long::stripe_in))]
pub(crate) fn stripe_in(secret: &[u8; 192], lanes: Lanes, stripe: &[u8; 64]) -> Lanes
    requires { lanes.stripe < 16 }
    ensures value { result ≡ stripe_in secret.now lanes stripe.now }
    ensures in_block { result.stripe < 16 }
{
    // it is below 16; the remainder says so to a compiler that would test the bounds
    let words = accumulate(&lanes.words, stripe, secret, 8 * (lanes.stripe % 16));
    if lanes.stripe < 15 {
        Lanes {
            words,
            stripe: lanes.stripe + 1,
        }
    } else {
        Lanes {
            words: scramble(&words, secret),
            stripe: 0,
        }
    }
}

/// All stripes of a text that is whole stripes.
#[inline(always)]
#[tactic(auto, unfolding(crate::specs::Long::stripes_in))]
pub(crate) fn stripes_in(secret: &[u8; 192], start: Lanes, text: &[u8]) -> Lanes
    requires { start.stripe < 16 }
    ensures value { result ≡ stripes_in secret.now start (length text.now / 64) text.now }
    ensures in_block { result.stripe < 16 }
{
    let (stripes, _) = text.as_chunks::<64>();
    let mut lanes = start;
    for stripe in stripes {
        lanes = stripe_in(secret, lanes, stripe);
    }
    lanes
}

// Two stripes more, of which the first is not the last of its block.
#[inline(always)]
fn two_in(secret: &[u8; 192], lanes: Lanes, first: &[u8; 64], second: &[u8; 64]) -> Lanes
    requires block { lanes.stripe < 16 }
    requires even { lanes.stripe % 2 ≡ 0 }
    ensures value { result ≡ stripe_in secret.now (stripe_in secret.now lanes first.now) second.now }
    ensures in_block { result.stripe < 16 }
    ensures even { result.stripe % 2 ≡ 0 }
{
    // it is below 16; the remainder says so to a compiler that would test the bounds
    let at = 8 * (lanes.stripe % 16);
    let middle = accumulate(&lanes.words, first, secret, at);
    let words = accumulate(&middle, second, secret, at + 8);
    if lanes.stripe < 14 {
        Lanes {
            words,
            stripe: lanes.stripe + 2,
        }
    } else {
        Lanes {
            words: scramble(&words, secret),
            stripe: 0,
        }
    }
}

// All stripes of a text that is whole stripes, from the start, two a turn.
#[inline(always)]
fn stripes_by_two(secret: &[u8; 192], text: &[u8]) -> Lanes
    ensures { result ≡ stripes_in secret.now start_lanes (length text.now / 64) text.now }
{
    let (pairs, last) = text.as_chunks::<128>();
    let mut lanes = START;
    for pair in pairs {
        let (stripes, _) = pair.as_chunks::<64>();
        lanes = two_in(secret, lanes, &stripes[0], &stripes[1]);
    }
    stripes_in(secret, lanes, last)
}

// Two words folded into one, under 16 bytes of the secret's 64 from `at` on.
#[inline(always)]
#[tactic(auto, unfolding(crate::specs::Long::merge_pair))]
fn merge_pair(words: &[u64; 8], secret: &[u8; 192], at: usize, i: usize) -> u64
    requires secret { at ≤ 128 }
    requires pair { i < 4 }
    ensures { result ≡ merge_pair words.now secret.now at i }
{
    folded_product(
        words[2 * i] ^ word_at(secret, at + 16 * i),
        words[2 * i + 1] ^ word_at(secret, at + 16 * i + 8),
    )
}

/// The eight words folded into one, under 64 bytes of the secret from `at` on.
#[inline(always)]
#[tactic(auto, unfolding(crate::specs::Long::merge))]
pub(crate) fn merge(words: &[u64; 8], secret: &[u8; 192], at: usize, start: u64) -> u64
    requires { at ≤ 128 }
    ensures { result ≡ merge words.now secret.now at start }
{
    avalanche(
        start
            .wrapping_add(merge_pair(words, secret, at, 0))
            .wrapping_add(merge_pair(words, secret, at, 1))
            .wrapping_add(merge_pair(words, secret, at, 2))
            .wrapping_add(merge_pair(words, secret, at, 3)),
    )
}

/// The words at the end of a text: its last 64 bytes are a stripe once more.
#[inline(always)]
pub(crate) fn last_words(secret: &[u8; 192], words: &[u64; 8], text: &[u8]) -> [u64; 8]
    requires { 64 ≤ length text.now }
    ensures { result ≡ last_words secret.now words.now text.now }
{
    accumulate(words, text.last_chunk::<64>().unwrap(), secret, 121)
}

/// The words that a text of more than 240 bytes ends in, under a secret. It is a function by itself, so that the words stay in vectors.
#[inline(never)]
pub(crate) fn end_words(secret: &[u8; 192], text: &[u8]) -> [u64; 8]
    requires { 241 ≤ length text.now }
    ensures { result ≡ end_words secret.now text.now }
{
    let lanes = stripes_by_two(secret, &text[..(text.len() - 1) / STRIPE * STRIPE]);
    last_words(secret, &lanes.words, text)
}

/// The hash of a text of so many bytes that ends in these words.
#[inline(always)]
#[tactic(auto, unfolding(crate::specs::Long::end_long))]
pub(crate) fn end_long(secret: &[u8; 192], words: &[u64; 8], len: u64) -> u64
    ensures { result ≡ end_long secret.now words.now len }
{
    merge(words, secret, 11, length_word(len))
}

/// The words that a text of more than 240 bytes ends in, from those after the first stripe of what is kept of it.
#[inline(always)]
pub(crate) fn kept_words(secret: &[u8; 192], lanes: &Lanes, kept: &[u8]) -> [u64; 8]
    requires block { lanes.now.stripe < 16 }
    requires some { 65 ≤ length kept.now }
    ensures { result ≡ kept_words secret.now lanes.now kept.now }
{
    let whole = (kept.len() - 65) / STRIPE * STRIPE;
    let (_, behind) = kept.split_at(STRIPE);
    let (stripes, _) = behind.split_at(whole);
    let next = stripes_in(secret, *lanes, stripes);
    let (_, end) = kept.split_at(whole);
    last_words(secret, &next.words, end)
}

/// The hash of so many bytes by the words after the first stripe of what is kept of the text.
#[inline(always)]
pub(crate) fn end_kept(secret: &[u8; 192], lanes: &Lanes, kept: &[u8], len: u64) -> u64
    requires block { lanes.now.stripe < 16 }
    requires some { 65 ≤ length kept.now }
    ensures { result ≡ end_long secret.now (kept_words secret.now lanes.now kept.now) len }
{
    end_long(secret, &kept_words(secret, lanes, kept), len)
}

// XXH3 of more than 240 bytes under a secret.
#[inline(always)]
#[tactic(auto, unfolding(crate::specs::Long::long_under))]
fn long_under(secret: &[u8; 192], text: &[u8]) -> u64
    requires { 241 ≤ length text.now }
    ensures { result ≡ long_under secret.now text.now }
{
    end_long(secret, &end_words(secret, text), text.len() as u64)
}

// The same under the secret of a seed.
#[inline(never)]
fn seeded(seed: u64, text: &[u8]) -> u64
    requires { 241 ≤ length text.now }
    ensures { result ≡ of_long seed text.now }
{
    let mut secret = [0; 192];
    put_secret(&mut secret, seed);
    long_under(&secret, text)
}

/// XXH3 of more than 240 bytes.
#[inline(never)]
#[tactic(auto, using(crate::proofs::SecretLemmas::secret_of_none))]
pub(crate) fn of_long(seed: u64, text: &[u8]) -> u64
    requires { 241 ≤ length text.now }
    ensures { result ≡ of_long seed text.now }
{
    if seed == 0 {
        long_under(default_secret(), text)
    } else {
        seeded(seed, text)
    }
}
