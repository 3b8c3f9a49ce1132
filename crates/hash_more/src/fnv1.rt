//! The hash functions of Glenn Fowler, Landon Curt Noll and Kiem-Phong Vo in the variant 1: for each byte a product by a prime,
//! and then an exclusive or. The starts and the primes are those of the variant 1a.
ghost use Rattle.std.specs.Prelude.{◌≡◌, ◌^◌, ◌<◌};
ghost use Rattle.std.proofs.Common.{lit<};
ghost use Rattle.hash_laws.specs.FnvParts.{fnv1a32_basis, fnv1a64_basis};
ghost use Rattle.hash_more.specs.Fnv1.{fnv1_32_step, fnv1_64_step, fnv1_32_from, fnv1_64_from};
ghost use Rattle.hash_more.specs.Fnv1Laws.{fnv1_32_facts, fnv1_64_facts};

use hash_laws::rules::constants::{BASIS_32, BASIS_64, PRIME_32, PRIME_64, UNPRIME_32, UNPRIME_64};
use hash_laws::rules::{ByteHasher, Plain, PlainRule, PlainUndo, hash_by_plain};

/// The rule of FNV-1 at 32 bits.
pub struct Fnv1Rule32;

impl PlainRule for Fnv1Rule32 {
    type Word = u32;

    const ALONE: bool = true;

    ghost bound = { 2 ^ 32 };

    ghost start = { fnv1a32_basis };

    ghost step = { fnv1_32_step };

    ghost answer = { λ s. s };

    fn start() -> u32 {
        BASIS_32
    }

    #[inline(always)]
    fn step(word: u32, byte: u8) -> u32 {
        word.wrapping_mul(PRIME_32) ^ u32::from(byte)
    }

    #[inline(always)]
    fn answer(word: u32) -> u64 {
        u64::from(word)
    }

    ghost start_in_range = { lit< tt };

    ghost step_in_range = { fnv1_32_facts.in_range };
}

impl PlainUndo for Fnv1Rule32 {
    #[inline(always)]
    #[tactic(auto, using(crate::specs::Fnv1Laws::fnv1_32_back))]
    fn unstep(word: u32, byte: u8) -> u32 {
        (word ^ u32::from(byte)).wrapping_mul(UNPRIME_32)
    }

    fn unanswer(hash: u64) -> Option<u32> {
        u32::try_from(hash).ok()
    }

    ghost facts = { fnv1_32_facts };

    ghost answer_injective = { λ s t ks kt same. same };
}

/// FNV-1 at 32 bits (the FNV authors' page, www.isthe.com/chongo/tech/comp/fnv).
///
/// From 2166136261, a byte `b` takes the state `h` to `(h * 16777619) ^ b`, the product modulo 2^32; `finish` returns
/// `h`, widened. The split does not matter, and each write can be undone. Texts that differ in at most two adjacent bytes never collide.
///
/// Contracts see the hasher as its state, a number below 2^32: `write` gives `h.new ≡ fnv1_32_from h.old bytes.now`, and
/// `finish` returns `h.now`. Of `a` the hash is 0x050c5d7e.
pub type Fnv1Hasher32 = ByteHasher<Plain<Fnv1Rule32>>;

/// FNV-1 at 32 bits of the bytes.
pub fn fnv1_32(bytes: &[u8]) -> u64
    ensures value { result ≡ fnv1_32_from fnv1a32_basis bytes.now }
    ensures below { result < 2 ^ 32 }
{
    hash_by_plain::<Fnv1Rule32>(bytes)
}

/// The rule of FNV-1 at 64 bits.
pub struct Fnv1Rule64;

impl PlainRule for Fnv1Rule64 {
    type Word = u64;

    const ALONE: bool = true;

    ghost bound = { 2 ^ 64 };

    ghost start = { fnv1a64_basis };

    ghost step = { fnv1_64_step };

    ghost answer = { λ s. s };

    fn start() -> u64 {
        BASIS_64
    }

    #[inline(always)]
    #[tactic(auto, using(crate::specs::Fnv1Laws::fnv1_64_in_range))]
    fn step(word: u64, byte: u8) -> u64 {
        word.wrapping_mul(PRIME_64) ^ u64::from(byte)
    }

    #[inline(always)]
    fn answer(word: u64) -> u64 {
        word
    }

    ghost start_in_range = { lit< tt };

    ghost step_in_range = { fnv1_64_facts.in_range };
}

impl PlainUndo for Fnv1Rule64 {
    #[inline(always)]
    #[tactic(auto, using(crate::specs::Fnv1Laws::fnv1_64_back))]
    fn unstep(word: u64, byte: u8) -> u64 {
        (word ^ u64::from(byte)).wrapping_mul(UNPRIME_64)
    }

    fn unanswer(hash: u64) -> Option<u64> {
        Some(hash)
    }

    ghost facts = { fnv1_64_facts };

    ghost answer_injective = { λ s t ks kt same. same };
}

/// FNV-1 at 64 bits (the FNV authors' page, www.isthe.com/chongo/tech/comp/fnv).
///
/// From 14695981039346656037, a byte `b` takes the state `h` to `(h * 1099511628211) ^ b`, the product modulo 2^64; `finish` returns
/// `h`. The split does not matter, and each write can be undone. Texts that differ in at most three adjacent bytes never collide.
///
/// Contracts see the hasher as its state, a number below 2^64: `write` gives `h.new ≡ fnv1_64_from h.old bytes.now`, and
/// `finish` returns `h.now`. Of `a` the hash is 0xaf63bd4c8601b7be.
pub type Fnv1Hasher64 = ByteHasher<Plain<Fnv1Rule64>>;

/// FNV-1 at 64 bits of the bytes.
pub fn fnv1_64(bytes: &[u8]) -> u64
    ensures { result ≡ fnv1_64_from fnv1a64_basis bytes.now }
{
    hash_by_plain::<Fnv1Rule64>(bytes)
}
