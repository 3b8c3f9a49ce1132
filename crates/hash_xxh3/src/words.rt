//! Words of a text, and the mixes of a word.
ghost use Rattle.std.specs.Prelude.{◌≡◌, ◌+◌, ◌*◌, ◌≤◌, ◌<◌};
ghost use Rattle.hash_xxh3.specs.Common.{length, word_at, half_at, folded_product, avalanche, avalanche_64, three_turns, length_in, length_mix};

use hash_words::{le_four, le_two, le64, rotl64, xorshift};

/// The eight bytes from a place on as a little-endian word.
#[inline(always)]
pub(crate) fn word_at(text: &[u8], at: usize) -> u64
    requires { at + 8 ≤ length text.now }
    ensures { result ≡ word_at at text.now }
{
    let (words, _) = text[at..at + 8].as_chunks::<8>();
    le64(&words[0])
}

/// The two words from a place on.
#[inline(always)]
pub(crate) fn two_words_at(text: &[u8], at: usize) -> (u64, u64)
    requires { at + 16 ≤ length text.now }
    ensures first { result.0 ≡ word_at at text.now }
    ensures second { result.1 ≡ word_at (at + 8) text.now }
{
    let (pieces, _) = text[at..at + 16].as_chunks::<16>();
    le_two(&pieces[0])
}

/// The four bytes from a place on.
#[inline(always)]
pub(crate) fn half_at(text: &[u8], at: usize) -> u32
    requires { at + 4 ≤ length text.now }
    ensures { result ≡ half_at at text.now }
{
    let (halves, _) = text[at..at + 4].as_chunks::<4>();
    le_four(&halves[0])
}

/// The whole product of two words.
#[inline(always)]
pub fn whole_product(x: u64, y: u64) -> u128
    ensures { result ≡ x * y }
{
    u128::from(x) * u128::from(y)
}

/// The two halves of the whole product, one folded onto the other.
#[inline(always)]
#[tactic(auto, unfolding(crate::specs::Words::folded_product))]
pub(crate) fn folded_product(x: u64, y: u64) -> u64
    ensures { result ≡ folded_product x y }
{
    let product = whole_product(x, y);
    (product % 18446744073709551616) as u64 ^ (product / 18446744073709551616) as u64
}

/// The last mix of a hash.
#[inline(always)]
#[tactic(auto, unfolding(crate::specs::Words::avalanche))]
pub(crate) fn avalanche(hash: u64) -> u64
    ensures { result ≡ avalanche hash }
{
    xorshift(xorshift(hash, 37).wrapping_mul(0x165667919e3779f9), 32)
}

/// That of XXH64, for texts below four bytes.
#[inline(always)]
#[tactic(auto, unfolding(crate::specs::Words::avalanche_64))]
pub(crate) fn avalanche_64(hash: u64) -> u64
    ensures { result ≡ avalanche_64 hash }
{
    let first = xorshift(hash, 33).wrapping_mul(0xc2b2ae3d27d4eb4f);
    xorshift(xorshift(first, 29).wrapping_mul(0x165667b19e3779f9), 32)
}

/// A word with two rotations of itself folded on.
#[inline(always)]
#[tactic(auto, unfolding(crate::specs::Words::three_turns))]
pub(crate) fn three_turns(hash: u64) -> u64
    ensures { result ≡ three_turns hash }
{
    hash ^ rotl64(hash, 49) ^ rotl64(hash, 24)
}

/// A word with what is left of it after 35 bits, and a length added to that, folded on.
#[inline(always)]
#[tactic(auto, unfolding(crate::specs::Words::length_in))]
pub fn length_in(len: u64, hash: u64) -> u64
    requires { len < 16 }
    ensures { result ≡ length_in len hash }
{
    hash ^ ((hash >> 35) + len)
}

/// The last mix of four to eight bytes.
#[inline(always)]
#[tactic(auto, unfolding(crate::specs::Words::length_mix))]
pub(crate) fn length_mix(len: u64, hash: u64) -> u64
    requires { len < 16 }
    ensures { result ≡ length_mix len hash }
{
    let turned = three_turns(hash).wrapping_mul(0x9fb21c651e98df25);
    xorshift(length_in(len, turned).wrapping_mul(0x9fb21c651e98df25), 28)
}
