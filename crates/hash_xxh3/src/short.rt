//! XXH3 of at most 16 bytes.
ghost use Rattle.std.specs.Prelude.{◌≡◌, ◌+◌, ◌^◌, ◌≤◌, ◌<◌};
ghost use Rattle.hash_xxh3.specs.Common.{length, xxh3_short};
ghost use Rattle.hash_xxh3.specs.Short.{secret_pair, of_none, few_number, few_flip, of_few, eight_number, eight_seed, eight_flip, of_eight, of_sixteen};

use crate::secret::{secret_half, secret_word};
use crate::words::{avalanche, avalanche_64, folded_product, half_at, length_mix, word_at};

/// Two words of the secret, one folded onto the other.
#[inline(always)]
pub fn secret_pair(at: usize) -> u64
    requires { at + 16 ≤ 192 }
    ensures { result ≡ secret_pair at }
{
    secret_word(at) ^ secret_word(at + 8)
}

#[inline(always)]
#[tactic(auto, unfolding(crate::specs::Short::of_none))]
fn of_none(seed: u64) -> u64
    ensures { result ≡ of_none seed }
{
    avalanche_64(seed ^ secret_pair(56))
}

/// The first byte, the middle and the last, and the length, as four bytes of one number.
#[inline(always)]
#[tactic(auto, unfolding(crate::specs::Short::few_number))]
pub(crate) fn few_number(text: &[u8]) -> u64
    requires some { 1 ≤ length text.now }
    requires few { length text.now < 4 }
    ensures value { result ≡ few_number text.now }
    ensures small { result < 2 ^ 32 }
{
    let len = text.len();
    u64::from(text[len - 1])
        + len as u64 * 256
        + u64::from(text[0]) * 65536
        + u64::from(text[len / 2]) * 16777216
}

#[inline(always)]
#[tactic(auto, unfolding(crate::specs::Short::few_flip))]
fn few_flip(seed: u64) -> u64
    ensures { result ≡ few_flip seed }
{
    u64::from(secret_half(0) ^ secret_half(4)).wrapping_add(seed)
}

/// XXH3 of one to three bytes.
#[inline(always)]
pub(crate) fn of_few(seed: u64, text: &[u8]) -> u64
    requires some { 1 ≤ length text.now }
    requires few { length text.now < 4 }
    ensures { result ≡ of_few seed text.now }
{
    avalanche_64(few_number(text) ^ few_flip(seed))
}

// The first four bytes and the last four, as one number.
#[inline(always)]
#[tactic(auto, unfolding(crate::specs::Short::eight_number))]
fn eight_number(text: &[u8]) -> u64
    requires { 4 ≤ length text.now }
    ensures { result ≡ eight_number text.now }
{
    u64::from(half_at(text, text.len() - 4)) + u64::from(half_at(text, 0)) * 4294967296
}

/// A seed with its low half, bytes in the other order, folded onto the high one.
#[inline(always)]
#[tactic(auto, unfolding(crate::specs::Short::eight_seed))]
pub(crate) fn eight_seed(seed: u64) -> u64
    ensures { result ≡ eight_seed seed }
{
    let low = (seed % 4294967296) as u32;
    seed ^ (u64::from(low.swap_bytes()) * 4294967296)
}

/// What eight bytes are folded with.
#[inline(always)]
#[tactic(auto, unfolding(crate::specs::Short::eight_flip))]
pub fn eight_flip(seed: u64) -> u64
    ensures { result ≡ eight_flip seed }
{
    secret_pair(8).wrapping_sub(eight_seed(seed))
}

#[inline(always)]
fn of_eight(seed: u64, text: &[u8]) -> u64
    requires some { 4 ≤ length text.now }
    requires few { length text.now < 9 }
    ensures { result ≡ of_eight seed text.now }
{
    length_mix(text.len() as u64, eight_number(text) ^ eight_flip(seed))
}

#[inline(always)]
#[tactic(auto, unfolding(crate::specs::Short::of_sixteen))]
fn of_sixteen(seed: u64, text: &[u8]) -> u64
    requires some { 8 ≤ length text.now }
    requires few { length text.now < 17 }
    ensures { result ≡ of_sixteen seed text.now }
{
    let len = text.len();
    let low = word_at(text, 0) ^ secret_pair(24).wrapping_add(seed);
    let high = word_at(text, len - 8) ^ secret_pair(40).wrapping_sub(seed);
    let sum = (len as u64)
        .wrapping_add(low.swap_bytes())
        .wrapping_add(high);
    avalanche(sum.wrapping_add(folded_product(low, high)))
}

/// XXH3 of at most 16 bytes.
#[inline(always)]
pub(crate) fn of_short(seed: u64, text: &[u8]) -> u64
    requires { length text.now < 17 }
    ensures { result ≡ xxh3_short seed text.now }
{
    if text.len() >= 9 {
        of_sixteen(seed, text)
    } else if text.len() >= 4 {
        of_eight(seed, text)
    } else if !text.is_empty() {
        of_few(seed, text)
    } else {
        of_none(seed)
    }
}
