//! The mixes of XXH3, undone: no mix of a word loses anything. So each hash has one text of eight bytes under a seed.
ghost use Rattle.std.specs.Prelude.{◌≡◌, ◌<◌, ◌*◌, ◌/◌, ◌%◌, ◌^◌, ◌++◌, ℕ, List, length};
ghost use Rattle.hash_laws.specs.Exactly.{ExactlyTexts};
ghost use Rattle.hash_laws.specs.Text.{IsText};
ghost use Rattle.std.specs.Int.{w32, w64, to_le_bytes};
ghost use Rattle.hash_xxh3.specs.Wide.{xxh3_128_of};
ghost use Rattle.hash_xxh3.specs.Words.{avalanche, turned, three_turns, length_mix};
ghost use Rattle.hash_xxh3.specs.Xxh3.{xxh3_64_of};

use hash_words::{rotl64, xorshift};
use hash_xxh3::short::{eight_flip, secret_pair};
use hash_xxh3::words::{length_in, whole_product};

/// The one word of which XXH3's last mix makes this hash.
#[tactic(auto, using(hash_words::proofs::UndoLemmas::found, hash_words::proofs::UndoLemmas::found_alone, crate::proofs::MixLemmas::of_avalanche))]
pub fn un_avalanche(hash: u64) -> u64
    ensures solves { avalanche result ≡ hash }
    ensures alone { (word : ℕ) → word < 2 ^ 64 → avalanche word ≡ hash → word ≡ result }
{
    let product = xorshift(hash, 32);
    xorshift(product.wrapping_mul(0x8da8ee41d6df849), 37)
}

// A word with two rotations of itself folded on.
fn turned(word: u64, k: u32, l: u32) -> u64
    requires k_some { 0 < k }
    requires k_within { k < 64 }
    requires l_some { 0 < l }
    requires l_within { l < 64 }
    ensures { result ≡ turned k l word }
{
    word ^ rotl64(word, k) ^ rotl64(word, l)
}

/// The one word that becomes this one with its rotations by 49 and by 24 bits folded on: what is folded on three times more, by
/// doubled turns, is one rotation by 8 in all.
#[tactic(auto, using(hash_words::proofs::UndoLemmas::found, hash_words::proofs::UndoLemmas::found_alone, crate::proofs::MixLemmas::of_three_turns))]
pub fn un_three_turns(word: u64) -> u64
    ensures solves { three_turns result ≡ word }
    ensures alone { (before : ℕ) → before < 2 ^ 64 → three_turns before ≡ word → before ≡ result }
{
    let twice = turned(word, 49, 24);
    let four_times = turned(twice, 34, 48);
    rotl64(turned(four_times, 4, 32), 56)
}

/// The one word of which the last mix of four to eight bytes makes this hash, for texts of so many bytes.
pub fn un_length_mix(len: u64, hash: u64) -> u64
    requires { len < 16 }
    ensures solves { length_mix len result ≡ hash }
    ensures alone { (word : ℕ) → word < 2 ^ 64 → length_mix len word ≡ hash → word ≡ result }
{
    let last = xorshift(xorshift(hash, 28), 56);
    let product = length_in(len, last.wrapping_mul(0x2ab9c720d1024ad));
    un_three_turns(product.wrapping_mul(0x2ab9c720d1024ad))
}

// A number's high four bytes, and then its low four.
fn halves(number: u64) -> [u8; 8]
    ensures { result ≡ to_le_bytes w32 (number / 2 ^ 32) ++ to_le_bytes w32 (number % 2 ^ 32) }
{
    let mut bytes = [0; 8];
    bytes[..4].copy_from_slice(&((number / 4294967296) as u32).to_le_bytes());
    bytes[4..].copy_from_slice(&((number % 4294967296) as u32).to_le_bytes());
    bytes
}

/// The one text of eight bytes that has this hash under a seed.
pub fn bytes_for(seed: u64, hash: u64) -> [u8; 8]
    ensures leads { xxh3_64_of seed result ≡ hash }
    ensures alone { (text : List ℕ) → IsText text → length text ≡ 8
        → xxh3_64_of seed text ≡ hash → text ≡ result }
    ensures even { ExactlyTexts 1 8 (λ text. xxh3_64_of seed text ≡ hash) }
{
    halves(un_length_mix(8, hash) ^ eight_flip(seed))
}

// Two words as sixteen bytes.
fn two_words(first: u64, last: u64) -> [u8; 16]
    ensures { result ≡ to_le_bytes w64 first ++ to_le_bytes w64 last }
{
    let mut bytes = [0; 16];
    bytes[..8].copy_from_slice(&first.to_le_bytes());
    bytes[8..].copy_from_slice(&last.to_le_bytes());
    bytes
}

// The high word of a product.
#[inline(always)]
fn above(word: u64, factor: u64) -> u64
    ensures { result ≡ word * factor / 2 ^ 64 }
{
    (whole_product(word, factor) / 18446744073709551616) as u64
}

/// The one text of sixteen bytes that has this hash of 128 bits under a seed: on sixteen bytes XXH3 of 128 bits is a
/// permutation.
pub fn bytes_for_wide(seed: u64, hash: (u64, u64)) -> [u8; 16]
    ensures leads { xxh3_128_of seed result ≡ hash }
    ensures alone { (text : List ℕ) → IsText text → length text ≡ 16
        → xxh3_128_of seed text ≡ hash → text ≡ result }
    ensures even { ExactlyTexts 1 16 (λ text. xxh3_128_of seed text ≡ hash) }
{
    let low = un_avalanche(hash.0).wrapping_mul(0xba79078168d4baf);
    let rest = un_avalanche(hash.1).wrapping_sub(above(low, 0xc2b2ae3d27d4eb4f));
    let high = rest.wrapping_mul(0xba79078168d4baf);
    let product = (low ^ high.swap_bytes()).wrapping_sub(270215977642229760);
    let word = product.wrapping_mul(0x887493432badb37);
    // The last eight bytes, from the high word: first their low half.
    let sum = high.wrapping_sub(above(word, 0x9e3779b185ebca87));
    let half = sum % 4294967296 * 0xb6c92f47 % 4294967296;
    let back = sum.wrapping_sub(half * 0x85ebca76);
    let last = back ^ secret_pair(48).wrapping_add(seed);
    let first = word ^ secret_pair(32).wrapping_sub(seed) ^ last;
    two_words(first, last)
}
