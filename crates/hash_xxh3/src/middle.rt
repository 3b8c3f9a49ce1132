//! XXH3 of 17 to 240 bytes.
ghost use Rattle.std.specs.Prelude.{◌≡◌, ◌+◌, ◌*◌, ◌≤◌, ◌<◌};
ghost use Rattle.hash_xxh3.specs.Common.{length, bit_xor, default_secret, folded_product, word_at};
ghost use Rattle.hash_words.specs.Words.{add, sub};
ghost use Rattle.hash_xxh3.specs.Middle.{mix_piece, length_word, add_piece, add_ends, add_nth, first_pieces, other_pieces, of_128, of_240};

use crate::secret::secret_word;
use crate::words::{avalanche, folded_product, two_words_at, word_at};

// What the length counts in a hash.
const LENGTH: u64 = 0x9e3779b185ebca87;

// Two words of a text, mixed with 16 bytes of the secret from `key` on.
#[inline(always)]
fn mix_words(seed: u64, low: u64, high: u64, key: usize) -> u64
    requires { key + 16 ≤ 192 }
    ensures { result ≡ folded_product (bit_xor low (add 64 (word_at key default_secret) seed))
        (bit_xor high (sub 64 (word_at (key + 8) default_secret) seed)) }
{
    let low = low ^ secret_word(key).wrapping_add(seed);
    let high = high ^ secret_word(key + 8).wrapping_sub(seed);
    folded_product(low, high)
}

// The 16 bytes from `at` on, mixed with those of the secret from `key` on.
#[inline(always)]
#[tactic(auto, unfolding(crate::specs::Middle::mix_piece))]
fn mix_piece(seed: u64, text: &[u8], at: usize, key: usize) -> u64
    requires text { at + 16 ≤ length text.now }
    requires secret { key + 16 ≤ 192 }
    ensures { result ≡ mix_piece seed text.now at key }
{
    mix_words(seed, word_at(text, at), word_at(text, at + 8), key)
}

/// What a sum over so many bytes begins with.
#[inline(always)]
pub(crate) fn length_word(len: u64) -> u64
    ensures { result ≡ length_word len }
{
    len.wrapping_mul(LENGTH)
}

/// One more piece in a sum.
#[inline(always)]
pub(crate) fn add_piece(seed: u64, text: &[u8], sum: u64, at: usize, key: usize) -> u64
    requires text { at + 16 ≤ length text.now }
    requires secret { key + 16 ≤ 192 }
    ensures { result ≡ add_piece seed text.now sum at key }
{
    sum.wrapping_add(mix_piece(seed, text, at, key))
}

// Piece i from the front and piece i from the back, where the text has so many.
#[inline(always)]
#[tactic(auto, unfolding(crate::specs::Middle::add_ends))]
fn add_ends(seed: u64, text: &[u8], sum: u64, i: usize) -> u64
    requires some { 16 ≤ length text.now }
    requires pair { i < 4 }
    ensures { result ≡ add_ends seed text.now sum i }
{
    if text.len() <= 32 * i {
        return sum;
    }
    let front = add_piece(seed, text, sum, 16 * i, 32 * i);
    add_piece(seed, text, front, text.len() - 16 * i - 16, 32 * i + 16)
}

// XXH3 of 17 to 128 bytes.
#[inline(always)]
#[tactic(auto, unfolding(crate::specs::Middle::of_128))]
fn whole_128(seed: u64, text: &[u8]) -> u64
    requires some { 17 ≤ length text.now }
    requires few { length text.now < 129 }
    ensures { result ≡ of_128 seed text.now }
{
    let one = add_ends(seed, text, length_word(text.len() as u64), 0);
    let two = add_ends(seed, text, one, 1);
    let three = add_ends(seed, text, two, 2);
    avalanche(add_ends(seed, text, three, 3))
}

// The same under a seed that the compiler does not know, and under none.
#[inline(never)]
fn seeded_128(text: &[u8], seed: u64) -> u64
    requires some { 17 ≤ length text.now }
    requires few { length text.now < 129 }
    ensures { result ≡ of_128 seed text.now }
{
    whole_128(seed, text)
}

#[inline(never)]
fn unseeded_128(text: &[u8]) -> u64
    requires some { 17 ≤ length text.now }
    requires few { length text.now < 129 }
    ensures { result ≡ of_128 0 text.now }
{
    whole_128(0, text)
}

/// XXH3 of 17 to 128 bytes.
#[inline(always)]
pub(crate) fn of_128(seed: u64, text: &[u8]) -> u64
    requires some { 17 ≤ length text.now }
    requires few { length text.now < 129 }
    ensures { result ≡ of_128 seed text.now }
{
    if seed == 0 {
        unseeded_128(text)
    } else {
        seeded_128(text, seed)
    }
}

// Piece i, where the text has so many.
#[inline(always)]
#[tactic(auto, unfolding(crate::specs::Middle::add_nth, crate::specs::Middle::mix_piece))]
fn add_nth(seed: u64, text: &[u8], sum: u64, i: usize, key: usize) -> u64
    requires piece { i < 15 }
    requires secret { key + 16 ≤ 192 }
    ensures { result ≡ add_nth seed text.now sum i key }
{
    if text.len() < 16 * i + 16 {
        return sum;
    }
    let (low, high) = two_words_at(text, 16 * i);
    sum.wrapping_add(mix_words(seed, low, high, key))
}

#[inline(always)]
#[tactic(auto, using(crate::proofs::RangeLemmas::fold_range_more))]
fn first_pieces(seed: u64, text: &[u8]) -> u64
    ensures { result ≡ first_pieces seed text.now }
{
    let mut sum = length_word(text.len() as u64);
    for i in 0..8 {
        sum = add_nth(seed, text, sum, i, 16 * i);
    }
    sum
}

#[inline(always)]
#[tactic(auto, using(crate::proofs::RangeLemmas::fold_range_from))]
fn other_pieces(seed: u64, text: &[u8], start: u64) -> u64
    ensures { result ≡ other_pieces seed text.now start }
{
    let mut sum = start;
    for i in 8..15 {
        sum = add_nth(seed, text, sum, i, 16 * i - 125);
    }
    sum
}

// XXH3 of 129 to 240 bytes.
#[inline(always)]
#[tactic(auto, unfolding(crate::specs::Middle::of_240))]
fn whole_240(seed: u64, text: &[u8]) -> u64
    requires some { 129 ≤ length text.now }
    requires few { length text.now < 241 }
    ensures { result ≡ of_240 seed text.now }
{
    let last = mix_piece(seed, text, text.len() - 16, 119);
    let first = avalanche(first_pieces(seed, text));
    avalanche(other_pieces(seed, text, first.wrapping_add(last)))
}

// The same under a seed that the compiler does not know, and under none.
#[inline(never)]
fn seeded_240(text: &[u8], seed: u64) -> u64
    requires some { 129 ≤ length text.now }
    requires few { length text.now < 241 }
    ensures { result ≡ of_240 seed text.now }
{
    whole_240(seed, text)
}

#[inline(never)]
fn unseeded_240(text: &[u8]) -> u64
    requires some { 129 ≤ length text.now }
    requires few { length text.now < 241 }
    ensures { result ≡ of_240 0 text.now }
{
    whole_240(0, text)
}

/// XXH3 of 129 to 240 bytes.
#[inline(always)]
pub(crate) fn of_240(seed: u64, text: &[u8]) -> u64
    requires some { 129 ≤ length text.now }
    requires few { length text.now < 241 }
    ensures { result ≡ of_240 seed text.now }
{
    if seed == 0 {
        unseeded_240(text)
    } else {
        seeded_240(text, seed)
    }
}
