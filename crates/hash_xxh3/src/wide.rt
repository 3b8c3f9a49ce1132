//! XXH3 of 128 bits: a low word and a high one.
ghost use Rattle.std.specs.Prelude.{◌≡◌, ◌+◌, ◌-◌, ◌*◌, ◌/◌, ◌^◌, ◌≤◌, ◌<◌};
ghost use Rattle.hash_xxh3.specs.Common.{length, kept_words, wide_none, few_turned, few_flip_high, wide_few, eight_wide_number, eight_wide_flip, eight_product, eight_high, eight_low, wide_words, wide_eight, sixteen_product, sixteen_back, sixteen_high, sixteen_low, sixteen_end, wide_sixteen, wide_short, add_two, wide_end, add_pair, wide_128, first_pairs, other_pairs, wide_240, wide_end_long, wide_under, wide_long, wide_kept, xxh3_128_of};

use crate::long::{Lanes, end_words, kept_words, merge};
use crate::middle::{add_piece, length_word};
use crate::secret::{default_secret, put_secret, secret_half};
use crate::short::{eight_seed, few_number, of_few, secret_pair};
use crate::words::{avalanche, avalanche_64, half_at, whole_product, word_at};
use hash_words::{rotl32, xorshift};

#[inline(always)]
#[tactic(auto, unfolding(crate::specs::Wide::wide_none))]
fn wide_none(seed: u64) -> (u64, u64)
    ensures { result ≡ wide_none seed }
{
    (
        avalanche_64(seed ^ secret_pair(64)),
        avalanche_64(seed ^ secret_pair(80)),
    )
}

#[inline(always)]
#[tactic(auto, unfolding(crate::specs::Wide::few_turned))]
fn few_turned(number: u32) -> u32
    ensures { result ≡ few_turned number }
{
    rotl32(number.swap_bytes(), 13)
}

#[inline(always)]
#[tactic(auto, unfolding(crate::specs::Wide::few_flip_high))]
fn few_flip_high(seed: u64) -> u64
    ensures { result ≡ few_flip_high seed }
{
    u64::from(secret_half(8) ^ secret_half(12)).wrapping_sub(seed)
}

#[inline(always)]
fn wide_few(seed: u64, text: &[u8]) -> (u64, u64)
    requires some { 1 ≤ length text.now }
    requires few { length text.now < 4 }
    ensures { result ≡ wide_few seed text.now }
{
    let turned = few_turned(few_number(text) as u32);
    (
        of_few(seed, text),
        avalanche_64(u64::from(turned) ^ few_flip_high(seed)),
    )
}

// The last four bytes and the first four, as one number.
#[inline(always)]
#[tactic(auto, unfolding(crate::specs::Wide::eight_wide_number))]
fn eight_wide_number(text: &[u8]) -> u64
    requires { 4 ≤ length text.now }
    ensures { result ≡ eight_wide_number text.now }
{
    u64::from(half_at(text, 0)) + u64::from(half_at(text, text.len() - 4)) * 4294967296
}

#[inline(always)]
#[tactic(auto, unfolding(crate::specs::Wide::eight_wide_flip))]
fn eight_wide_flip(seed: u64) -> u64
    ensures { result ≡ eight_wide_flip seed }
{
    secret_pair(16).wrapping_add(eight_seed(seed))
}

#[inline(always)]
#[tactic(auto, unfolding(crate::specs::Wide::eight_product))]
fn eight_product(len: u64, word: u64) -> u128
    requires { len < 16 }
    ensures { result ≡ eight_product len word }
{
    whole_product(word, 0x9e3779b185ebca87 + 4 * len)
}

#[inline(always)]
#[tactic(auto, unfolding(crate::specs::Wide::eight_high))]
fn eight_high(product: u128) -> u64
    ensures { result ≡ eight_high product }
{
    let low = (product % 18446744073709551616) as u64;
    ((product / 18446744073709551616) as u64).wrapping_add(low.wrapping_mul(2))
}

#[inline(always)]
#[tactic(auto, unfolding(crate::specs::Wide::eight_low))]
fn eight_low(product: u128, high: u64) -> u64
    ensures { result ≡ eight_low product high }
{
    let low = (product % 18446744073709551616) as u64 ^ (high >> 3);
    xorshift(xorshift(low, 35).wrapping_mul(0x9fb21c651e98df25), 28)
}

#[inline(always)]
fn wide_eight(seed: u64, text: &[u8]) -> (u64, u64)
    requires some { 4 ≤ length text.now }
    requires few { length text.now < 9 }
    ensures { result ≡ wide_eight seed text.now }
{
    let word = eight_wide_number(text) ^ eight_wide_flip(seed);
    let product = eight_product(text.len() as u64, word);
    let high = eight_high(product);
    (eight_low(product, high), avalanche(high))
}

#[inline(always)]
#[tactic(auto, unfolding(crate::specs::Wide::sixteen_product))]
fn sixteen_product(seed: u64, text: &[u8]) -> u128
    requires { 8 ≤ length text.now }
    ensures { result ≡ sixteen_product seed text.now }
{
    let both = word_at(text, 0) ^ word_at(text, text.len() - 8);
    whole_product(
        both ^ secret_pair(32).wrapping_sub(seed),
        0x9e3779b185ebca87,
    )
}

#[inline(always)]
#[tactic(auto, unfolding(crate::specs::Wide::sixteen_back))]
fn sixteen_back(seed: u64, text: &[u8]) -> u64
    requires { 8 ≤ length text.now }
    ensures { result ≡ sixteen_back seed text.now }
{
    word_at(text, text.len() - 8) ^ secret_pair(48).wrapping_add(seed)
}

#[inline(always)]
#[tactic(auto, unfolding(crate::specs::Wide::sixteen_high))]
fn sixteen_high(product: u128, back: u64) -> u64
    ensures { result ≡ sixteen_high product back }
{
    let part = back.wrapping_add(back % 4294967296 * 0x85ebca76);
    ((product / 18446744073709551616) as u64).wrapping_add(part)
}

#[inline(always)]
#[tactic(auto, unfolding(crate::specs::Wide::sixteen_low))]
fn sixteen_low(len: u64, product: u128, high: u64) -> u64
    requires some { 1 ≤ len }
    requires few { len < 17 }
    ensures { result ≡ sixteen_low len product high }
{
    let low = (product % 18446744073709551616) as u64;
    low.wrapping_add((len - 1) * 18014398509481984) ^ high.swap_bytes()
}

#[inline(always)]
#[tactic(auto, unfolding(crate::specs::Wide::sixteen_end))]
fn sixteen_end(low: u64, high: u64) -> (u64, u64)
    ensures { result ≡ sixteen_end low high }
{
    let product = whole_product(low, 0xc2b2ae3d27d4eb4f);
    let above = (product / 18446744073709551616) as u64;
    (
        avalanche((product % 18446744073709551616) as u64),
        avalanche(above.wrapping_add(high.wrapping_mul(0xc2b2ae3d27d4eb4f))),
    )
}

#[inline(always)]
fn wide_sixteen(seed: u64, text: &[u8]) -> (u64, u64)
    requires some { 8 ≤ length text.now }
    requires few { length text.now < 17 }
    ensures { result ≡ wide_sixteen seed text.now }
{
    let product = sixteen_product(seed, text);
    let high = sixteen_high(product, sixteen_back(seed, text));
    sixteen_end(sixteen_low(text.len() as u64, product, high), high)
}

#[inline(always)]
fn wide_short(seed: u64, text: &[u8]) -> (u64, u64)
    requires { length text.now < 17 }
    ensures { result ≡ wide_short seed text.now }
{
    if text.len() >= 9 {
        wide_sixteen(seed, text)
    } else if text.len() >= 4 {
        wide_eight(seed, text)
    } else if !text.is_empty() {
        wide_few(seed, text)
    } else {
        wide_none(seed)
    }
}

#[inline(always)]
#[tactic(auto, unfolding(crate::specs::Wide::add_two))]
fn add_two(
    seed: u64,
    text: &[u8],
    sums: (u64, u64),
    first: usize,
    second: usize,
    key: usize,
) -> (u64, u64)
    requires first { first + 16 ≤ length text.now }
    requires second { second + 16 ≤ length text.now }
    requires secret { key + 32 ≤ 192 }
    ensures { result ≡ add_two seed text.now sums first second key }
{
    let low = add_piece(seed, text, sums.0, first, key);
    let high = add_piece(seed, text, sums.1, second, key + 16);
    (
        low ^ word_at(text, second).wrapping_add(word_at(text, second + 8)),
        high ^ word_at(text, first).wrapping_add(word_at(text, first + 8)),
    )
}

#[inline(always)]
#[tactic(auto, unfolding(crate::specs::Wide::wide_end))]
fn wide_end(seed: u64, len: u64, sums: (u64, u64)) -> (u64, u64)
    ensures { result ≡ wide_end seed len sums }
{
    let products = sums
        .0
        .wrapping_mul(0x9e3779b185ebca87)
        .wrapping_add(sums.1.wrapping_mul(0x85ebca77c2b2ae63));
    let last = len.wrapping_sub(seed).wrapping_mul(0xc2b2ae3d27d4eb4f);
    (
        avalanche(sums.0.wrapping_add(sums.1)),
        0u64.wrapping_sub(avalanche(products.wrapping_add(last))),
    )
}

// Pair i from the ends, where the text has so many.
#[inline(always)]
#[tactic(auto, unfolding(crate::specs::Wide::add_pair))]
fn add_pair(seed: u64, text: &[u8], sums: (u64, u64), i: usize) -> (u64, u64)
    requires some { 16 ≤ length text.now }
    requires pair { i < 4 }
    ensures { result ≡ add_pair seed text.now sums i }
{
    if text.len() <= 32 * i {
        return sums;
    }
    let back = text.len() - 16 * i - 16;
    add_two(seed, text, sums, 16 * i, back, 32 * i)
}

#[inline(never)]
#[tactic(auto, unfolding(crate::specs::Wide::wide_128))]
fn wide_128(text: &[u8], seed: u64) -> (u64, u64)
    requires some { 17 ≤ length text.now }
    requires few { length text.now < 129 }
    ensures { result ≡ wide_128 seed text.now }
{
    let inmost = add_pair(seed, text, (length_word(text.len() as u64), 0), 3);
    let third = add_pair(seed, text, inmost, 2);
    let second = add_pair(seed, text, third, 1);
    wide_end(seed, text.len() as u64, add_pair(seed, text, second, 0))
}

#[inline(always)]
#[tactic(auto, using(crate::proofs::RangeLemmas::fold_range_more))]
fn first_pairs(seed: u64, text: &[u8]) -> (u64, u64)
    requires { 128 ≤ length text.now }
    ensures { result ≡ first_pairs seed text.now }
{
    let mut sums = (length_word(text.len() as u64), 0);
    for i in 0..(text.len() / 32).min(4) {
        sums = add_two(seed, text, sums, 32 * i, 32 * i + 16, 32 * i);
    }
    sums
}

#[inline(always)]
#[tactic(auto, using(crate::proofs::RangeLemmas::fold_range_from))]
fn other_pairs(seed: u64, text: &[u8], start: (u64, u64)) -> (u64, u64)
    requires some { 128 ≤ length text.now }
    requires few { length text.now < 241 }
    ensures { result ≡ other_pairs seed text.now start }
{
    let mut sums = start;
    for i in 4..text.len() / 32 {
        sums = add_two(seed, text, sums, 32 * i, 32 * i + 16, 32 * i - 125);
    }
    sums
}

#[inline(never)]
#[tactic(auto, unfolding(crate::specs::Wide::wide_240))]
fn wide_240(text: &[u8], seed: u64) -> (u64, u64)
    requires some { 129 ≤ length text.now }
    requires few { length text.now < 241 }
    ensures { result ≡ wide_240 seed text.now }
{
    let first = first_pairs(seed, text);
    let others = other_pairs(seed, text, (avalanche(first.0), avalanche(first.1)));
    let len = text.len();
    let sums = add_two(
        0u64.wrapping_sub(seed),
        text,
        others,
        len - 16,
        len - 32,
        103,
    );
    wide_end(seed, len as u64, sums)
}

/// The hash of a text of so many bytes, of more than 240, that ends in these words.
#[inline(always)]
#[tactic(auto, unfolding(crate::specs::Wide::wide_end_long))]
pub(crate) fn wide_end_long(secret: &[u8; 192], words: &[u64; 8], len: u64) -> (u64, u64)
    ensures { result ≡ wide_end_long secret.now words.now len }
{
    let above = u64::MAX - len.wrapping_mul(0xc2b2ae3d27d4eb4f);
    (
        merge(words, secret, 11, length_word(len)),
        merge(words, secret, 117, above),
    )
}

/// The same by the words after the first stripe of what is kept of the text.
#[inline(always)]
pub(crate) fn wide_end_kept(secret: &[u8; 192], lanes: &Lanes, kept: &[u8], len: u64) -> (u64, u64)
    requires block { lanes.now.stripe < 16 }
    requires some { 65 ≤ length kept.now }
    ensures { result ≡ wide_end_long secret.now (kept_words secret.now lanes.now kept.now) len }
{
    wide_end_long(secret, &kept_words(secret, lanes, kept), len)
}

#[inline(never)]
#[tactic(auto, unfolding(crate::specs::Wide::wide_under))]
fn wide_under(secret: &[u8; 192], text: &[u8]) -> (u64, u64)
    requires { 241 ≤ length text.now }
    ensures { result ≡ wide_under secret.now text.now }
{
    wide_end_long(secret, &end_words(secret, text), text.len() as u64)
}

#[inline(never)]
fn seeded(seed: u64, text: &[u8]) -> (u64, u64)
    requires { 241 ≤ length text.now }
    ensures { result ≡ wide_long seed text.now }
{
    let mut secret = [0; 192];
    put_secret(&mut secret, seed);
    wide_under(&secret, text)
}

#[inline(never)]
#[tactic(auto, using(crate::proofs::SecretLemmas::secret_of_none))]
fn wide_long(seed: u64, text: &[u8]) -> (u64, u64)
    requires { 241 ≤ length text.now }
    ensures { result ≡ wide_long seed text.now }
{
    if seed == 0 {
        wide_under(default_secret(), text)
    } else {
        seeded(seed, text)
    }
}

/// XXH3 of 128 bits of at most 240 bytes.
#[inline(always)]
pub(crate) fn wide_kept(seed: u64, text: &[u8]) -> (u64, u64)
    requires { length text.now < 241 }
    ensures { result ≡ wide_kept seed text.now }
{
    if text.len() < 17 {
        wide_short(seed, text)
    } else if text.len() < 129 {
        wide_128(text, seed)
    } else {
        wide_240(text, seed)
    }
}

/// XXH3 of 128 bits of a text under a seed: the low word and the high one.
#[inline(always)]
#[tactic(auto, unfolding(crate::specs::Wide::xxh3_128_of))]
pub fn xxh3_128(seed: u64, text: &[u8]) -> (u64, u64)
    ensures { result ≡ xxh3_128_of seed text.now }
{
    if text.len() < 17 {
        wide_short(seed, text)
    } else if text.len() < 129 {
        wide_128(text, seed)
    } else if text.len() < 241 {
        wide_240(text, seed)
    } else {
        wide_long(seed, text)
    }
}
