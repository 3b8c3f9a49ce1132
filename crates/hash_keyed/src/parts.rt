//! A text in parts: the state behind a first part of whole words, and the hash of it joined with a second.
ghost use Rattle.std.specs.Prelude.{◌≡◌, ◌≢◌, ◌+◌, ◌*◌, ◌/◌, ◌%◌, ◌^◌, ◌<◌, ◌++◌};
ghost use Rattle.hash_keyed.specs.Common.{ℕ, List, length, MatchOption, poly_state, prime61, as_word, joined_value, poly61};

use crate::modular::{folded, product, reduced, remainder, word_of};
use crate::words::full_words;

/// A power of a key, modulo the prime.
fn power(key: u64, exponent: u64) -> u64
    requires { key < prime61 }
    ensures same { result % prime61 ≡ key ^ exponent % prime61 }
    ensures small { result < 2 ^ 61 + 8 }
{
    let mut power = 1;
    let mut square = key;
    let mut left = exponent;
    while left > 0 {
        if left % 2 == 1 {
            power = folded(product(power, square));
        }
        square = folded(product(square, square));
        left /= 2;
    }
    power
}

/// The state behind a text of a multiple of seven bytes, at a key, a number below 2^61 - 1; `None` for another length.
/// [`poly61_combine`] takes it for the first of two texts.
pub fn poly61_state(key: u64, text: &[u8]) -> Option<u64>
    ensures { MatchOption result (length text.now % 7 ≢ 0)
        (λ state. (length text.now % 7 ≡ 0) × (state ≡ poly_state prime61 (key % prime61) text.now)) }
{
    let (state, rest) = full_words(remainder(key), 1, text);
    if rest.is_empty() {
        Some(reduced(state))
    } else {
        None
    }
}

/// The hash of two texts joined, at a key, from the state behind the first ([`poly61_state`]), the hash of the second
/// ([`poly61`](crate::poly61::poly61)) and its length in bytes, in a time that grows with the number of that length's digits.
pub fn poly61_combine(key: u64, state1: u64, hash2: u64, length2: u64) -> u64
    ensures value { result ≡ as_word (joined_value (key % prime61) state1 hash2 length2) }
    ensures joined { (x y : List ℕ) → length x % 7 ≡ 0 → length y ≡ length2
        → state1 ≡ poly_state prime61 (key % prime61) x → hash2 ≡ poly61 (key % prime61) y
        → result ≡ poly61 (key % prime61) (x ++ y) }
{
    let power = power(remainder(key), length2 / 7 + 2);
    let before = remainder(remainder(state1) + 2305843009213693950);
    let value = remainder(hash2 % 2305843009213693952);
    word_of(reduced(folded(product(before, power) + u128::from(value))))
}
