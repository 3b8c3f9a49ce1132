//! One-at-a-time, from Bob Jenkins' page on hash functions, at 32 bits as he published it.
ghost use Rattle.std.specs.Prelude.{◌≡◌, ◌*◌, ◌%◌, ◌^◌, ◌<◌};
ghost use Rattle.std.proofs.Common.{lit<};
ghost use Rattle.hash_words.specs.Words.{xorshift};
ghost use Rattle.hash_more.specs.Joaat.{joaat_step, joaat_from, joaat_answer};
ghost use Rattle.hash_more.specs.JoaatLaws.{joaat_facts, joaat_answer_same};

use hash_laws::rules::{ByteHasher, Plain, PlainRule, PlainUndo, hash_by_plain};
use hash_words::unxorshift;

/// What undoes a product by 1025.
const UN_1025: u32 = 3222273025;

/// What undoes a product by 9.
const UN_9: u32 = 954437177;

/// What undoes a product by 32769.
const UN_32769: u32 = 1073709057;

/// Where the constants come from, a law with no code: each number that undoes a product is the inverse of its multiplier.
pub fn origin_of_constants()
    ensures inverse_1025 { 1025 * UN_1025 % 2 ^ 32 ≡ 1 }
    ensures inverse_9 { 9 * UN_9 % 2 ^ 32 ≡ 1 }
    ensures inverse_32769 { 32769 * UN_32769 % 2 ^ 32 ≡ 1 }
{}

/// The word with itself, shifted to the right by so many bits, xored in. `bits` is from 1 to 31.
#[inline(always)]
fn shift(word: u32, bits: u32) -> u32
    requires { bits < 32 }
    ensures { result ≡ xorshift word bits }
{
    word ^ (word >> bits)
}

/// The word of which `shift` makes this one. `bits` is from 1 to 31.
#[tactic(auto, using(crate::proofs::JoaatLemmas::unshifted_below))]
fn unshift(word: u32, bits: u32) -> u32
    requires some { 0 < bits }
    requires within { bits < 32 }
    ensures { xorshift result bits ≡ word }
{
    unxorshift(u64::from(word), bits) as u32
}

/// The rule of one-at-a-time at 32 bits.
pub struct JoaatRule;

impl PlainRule for JoaatRule {
    type Word = u32;

    const ALONE: bool = true;

    ghost bound = { 2 ^ 32 };

    ghost start = { 0 };

    ghost step = { joaat_step };

    ghost answer = { joaat_answer };

    fn start() -> u32 {
        0
    }

    #[inline(always)]
    fn step(word: u32, byte: u8) -> u32 {
        shift(word.wrapping_add(u32::from(byte)).wrapping_mul(1025), 6)
    }

    #[inline(always)]
    fn answer(word: u32) -> u64 {
        u64::from(shift(word.wrapping_mul(9), 11).wrapping_mul(32769))
    }

    ghost start_in_range = { lit< tt };

    ghost step_in_range = { joaat_facts.in_range };
}

impl PlainUndo for JoaatRule {
    #[inline(always)]
    #[tactic(auto, using(crate::specs::JoaatLaws::joaat_back))]
    fn unstep(word: u32, byte: u8) -> u32 {
        unshift(word, 6)
            .wrapping_mul(UN_1025)
            .wrapping_sub(u32::from(byte))
    }

    #[tactic(auto, using(crate::specs::JoaatLaws::joaat_unanswer_back, crate::specs::JoaatLaws::joaat_answer_below))]
    fn unanswer(hash: u64) -> Option<u32> {
        let word = u32::try_from(hash).ok()?;
        Some(unshift(word.wrapping_mul(UN_32769), 11).wrapping_mul(UN_9))
    }

    ghost facts = { joaat_facts };

    ghost answer_injective = { joaat_answer_same };
}

/// Bob Jenkins' one-at-a-time at 32 bits ("Hash Functions for Hash Table Lookup", burtleburtle.net/bob/hash/evahash.html), which
/// PHP calls joaat.
///
/// From 0, a byte `b` takes the state `h` to `h + b`, then to `1025 * h`, then to `h ^ (h >> 6)`. `finish` mixes a copy once
/// more: `9 * h`, `h ^ (h >> 11)`, `32769 * h`, and widens it. All is modulo 2^32. The split does not matter, each write can be undone, and
/// texts that differ in one byte never collide.
///
/// Contracts see the hasher as its state, a number below 2^32: `write` gives `h.new ≡ joaat_from h.old bytes.now`, and
/// `finish` returns `joaat_answer h.now`. Of `a` the hash is 0xca2e9442.
pub type JoaatHasher = ByteHasher<Plain<JoaatRule>>;

/// One-at-a-time at 32 bits of the bytes.
pub fn joaat(bytes: &[u8]) -> u64
    ensures value { result ≡ joaat_answer (joaat_from 0 bytes.now) }
    ensures below { result < 2 ^ 32 }
{
    hash_by_plain::<JoaatRule>(bytes)
}
