//! One-at-a-time, from Bob Jenkins' page on hash functions, here at 64 bits: a byte is added, and the state is mixed by a
//! product and a shift. Each write can be undone.
ghost use Rattle.std.specs.Prelude.{◌≡◌, ◌+◌, ◌*◌, ◌%◌, ◌^◌};
ghost use Rattle.std.proofs.Common.{lit<};
ghost use Rattle.hash_jenkins.specs.Oaat.{oaat_step, oaat_finish, oaat_state, oaat_of};
ghost use Rattle.hash_jenkins.specs.OaatLaws.{oaat_facts, oaat_finish_same};

use hash_laws::rules::{ByteHasher, Plain, PlainRule, PlainUndo, hash_by_plain};
use hash_rounds::{unxorshift, xorshift};

/// What undoes a product by 1025.
const UN_1025: u64 = 1151796703138937857;

/// What undoes a product by 9.
const UN_9: u64 = 10248191152060862009;

/// What undoes a product by 32769.
const UN_32769: u64 = 1152886321308467201;

/// Where the constants come from, a law with no code: the quoted hash multiplies by sums of shifts, and each number that
/// undoes a product is the inverse of its multiplier.
pub fn origin_of_constants()
    ensures multiplier_1025 { 1025 ≡ 2 ^ 10 + 1 }
    ensures multiplier_9 { 9 ≡ 2 ^ 3 + 1 }
    ensures multiplier_32769 { 32769 ≡ 2 ^ 15 + 1 }
    ensures inverse_1025 { 1025 * UN_1025 % 2 ^ 64 ≡ 1 }
    ensures inverse_9 { 9 * UN_9 % 2 ^ 64 ≡ 1 }
    ensures inverse_32769 { 32769 * UN_32769 % 2 ^ 64 ≡ 1 }
{}

/// The rule of one-at-a-time at 64 bits.
pub struct OaatRule;

impl PlainRule for OaatRule {
    type Word = u64;

    const ALONE: bool = true;

    ghost bound = { 2 ^ 64 };

    ghost start = { 0 };

    ghost step = { oaat_step };

    ghost answer = { oaat_finish };

    fn start() -> u64 {
        0
    }

    #[inline(always)]
    fn step(word: u64, byte: u8) -> u64 {
        xorshift(word.wrapping_add(u64::from(byte)).wrapping_mul(1025), 6)
    }

    #[inline(always)]
    fn answer(word: u64) -> u64 {
        xorshift(word.wrapping_mul(9), 11).wrapping_mul(32769)
    }

    ghost start_in_range = { lit< tt };

    ghost step_in_range = { oaat_facts.in_range };
}

impl PlainUndo for OaatRule {
    #[inline(always)]
    #[tactic(auto, using(crate::specs::OaatLaws::oaat_back))]
    fn unstep(word: u64, byte: u8) -> u64 {
        unxorshift(word, 6)
            .wrapping_mul(UN_1025)
            .wrapping_sub(u64::from(byte))
    }

    #[tactic(auto, using(crate::specs::OaatLaws::oaat_unfinish_back))]
    fn unanswer(hash: u64) -> Option<u64> {
        Some(unxorshift(hash.wrapping_mul(UN_32769), 11).wrapping_mul(UN_9))
    }

    ghost facts = { oaat_facts };

    ghost answer_injective = { oaat_finish_same };
}

/// Bob Jenkins' one-at-a-time at 64 bits ("Hash Functions for Hash Table Lookup", burtleburtle.net/bob/hash/evahash.html).
///
/// From 0, a byte `b` takes the state `h` to `h + b`, then to `1025 * h`, then to `h ^ (h >> 6)`. `finish` mixes a copy once
/// more: `9 * h`, `h ^ (h >> 11)`, `32769 * h`. All is modulo 2^64. The split does not matter, and each write can be undone.
///
/// Contracts see the hasher as its state, a number below 2^64: `write` gives `h.new ≡ oaat_state h.old bytes.now`, and `finish`
/// answers `oaat_finish h.now`. Of `a` the hash is 29161854018.
pub type OAATHasher = ByteHasher<Plain<OaatRule>>;

/// One-at-a-time at 64 bits of the bytes.
pub fn oaat(bytes: &[u8]) -> u64
    ensures { result ≡ oaat_of bytes.now }
{
    hash_by_plain::<OaatRule>(bytes)
}
