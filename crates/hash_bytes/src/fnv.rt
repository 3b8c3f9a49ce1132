//! The hash functions of Glenn Fowler, Landon Curt Noll and Kiem-Phong Vo, in the variant 1a: for each byte an exclusive
//! or, and then a product by a prime. They were published on the authors' page, and are short and widely used.
ghost use Rattle.std.specs.Prelude.{◌≡◌, ◌^◌, ◌+◌, ◌*◌, ◌%◌, ◌<◌};
ghost use Rattle.std.proofs.Common.{lit<};
ghost use Rattle.hash_bytes.specs.Fnv.{fnv1a32_step, fnv1a64_step, fnv0, fnv1a32_basis, fnv1a32_from, fnv1a64_basis, fnv1a64_from, fnv1a32_of, fnv1a64_of};
ghost use Rattle.hash_bytes.specs.FnvLaws.{fnv1a32_facts, fnv1a64_facts};

pub use hash_laws::rules::constants::{
    BASIS_32, BASIS_64, PRIME_32, PRIME_64, UNPRIME_32, UNPRIME_64,
};
use hash_laws::rules::{ByteHasher, Plain, PlainRule, PlainUndo, hash_by_plain};

/// The 32 bytes of which the authors took the starts: a line of Noll's signature.
const SIGNATURE: [u8; 32] = *b"chongo <Landon Curt Noll> /\\../\\";

/// Where the constants come from, a law and no code: each start is the hash by the oldest variant, FNV-0, of the 32
/// bytes `chongo <Landon Curt Noll> /\../\`; the primes are a power of two, 2^8 and a byte; and each number that undoes a
/// product is the inverse of its prime.
pub fn origin_of_constants()
    ensures basis_32 { fnv1a32_basis ≡ fnv0 32 16777619 SIGNATURE }
    ensures basis_64 { fnv1a64_basis ≡ fnv0 64 1099511628211 SIGNATURE }
    ensures prime_32 { 16777619 ≡ 2 ^ 24 + 2 ^ 8 + 0x93 }
    ensures prime_64 { 1099511628211 ≡ 2 ^ 40 + 2 ^ 8 + 0xb3 }
    ensures inverse_32 { 16777619 * UNPRIME_32 % 2 ^ 32 ≡ 1 }
    ensures inverse_64 { 1099511628211 * UNPRIME_64 % 2 ^ 64 ≡ 1 }
{}

/// The rule of FNV-1a at 32 bits.
pub struct Fnv1aRule32;

impl PlainRule for Fnv1aRule32 {
    type Word = u32;

    const ALONE: bool = true;

    ghost bound = { 2 ^ 32 };

    ghost start = { fnv1a32_basis };

    ghost step = { fnv1a32_step };

    ghost answer = { λ s. s };

    fn start() -> u32 {
        BASIS_32
    }

    #[inline(always)]
    fn step(word: u32, byte: u8) -> u32 {
        (word ^ u32::from(byte)).wrapping_mul(PRIME_32)
    }

    #[inline(always)]
    fn answer(word: u32) -> u64 {
        u64::from(word)
    }

    ghost start_in_range = { lit< tt };

    ghost step_in_range = { fnv1a32_facts.in_range };
}

impl PlainUndo for Fnv1aRule32 {
    #[inline(always)]
    #[tactic(auto, using(crate::specs::FnvLaws::fnv1a32_back))]
    fn unstep(word: u32, byte: u8) -> u32 {
        word.wrapping_mul(UNPRIME_32) ^ u32::from(byte)
    }

    fn unanswer(hash: u64) -> Option<u32> {
        u32::try_from(hash).ok()
    }

    ghost facts = { fnv1a32_facts };

    ghost answer_injective = { λ s t ks kt same. same };
}

/// FNV-1a at 32 bits (the FNV authors' page, www.isthe.com/chongo/tech/comp/fnv).
///
/// From 2166136261, a byte `b` takes the state `h` to `(h ^ b) * 16777619`, modulo 2^32; `finish` returns `h`, widened. The
/// split does not matter, and each write can be undone. Texts that differ in at most two adjacent bytes never collide.
///
/// Contracts see the hasher as its state, a number below 2^32: `write` gives `h.new ≡ fnv1a32_from h.old bytes.now`, and
/// `finish` returns `h.now`. Of `a` the hash is 3826002220.
pub type FNV1aHasher32 = ByteHasher<Plain<Fnv1aRule32>>;

/// FNV-1a at 32 bits of the bytes.
pub fn fnv1a32(bytes: &[u8]) -> u64
    ensures value { result ≡ fnv1a32_of bytes.now }
    ensures below { result < 2 ^ 32 }
{
    hash_by_plain::<Fnv1aRule32>(bytes)
}

/// The rule of FNV-1a at 64 bits.
pub struct Fnv1aRule64;

impl PlainRule for Fnv1aRule64 {
    type Word = u64;

    const ALONE: bool = true;

    ghost bound = { 2 ^ 64 };

    ghost start = { fnv1a64_basis };

    ghost step = { fnv1a64_step };

    ghost answer = { λ s. s };

    fn start() -> u64 {
        BASIS_64
    }

    #[inline(always)]
    fn step(word: u64, byte: u8) -> u64 {
        (word ^ u64::from(byte)).wrapping_mul(PRIME_64)
    }

    #[inline(always)]
    fn answer(word: u64) -> u64 {
        word
    }

    ghost start_in_range = { lit< tt };

    ghost step_in_range = { fnv1a64_facts.in_range };
}

impl PlainUndo for Fnv1aRule64 {
    #[inline(always)]
    #[tactic(auto, using(crate::specs::FnvLaws::fnv1a64_back, hash_words::proofs::XorLemmas::xored_64))]
    fn unstep(word: u64, byte: u8) -> u64 {
        word.wrapping_mul(UNPRIME_64) ^ u64::from(byte)
    }

    fn unanswer(hash: u64) -> Option<u64> {
        Some(hash)
    }

    ghost facts = { fnv1a64_facts };

    ghost answer_injective = { λ s t ks kt same. same };
}

/// FNV-1a at 64 bits (the FNV authors' page, www.isthe.com/chongo/tech/comp/fnv).
///
/// From 14695981039346656037, a byte `b` takes the state `h` to `(h ^ b) * 1099511628211`, modulo 2^64; `finish` returns `h`.
/// The split does not matter, and each write can be undone. Texts that differ in at most three adjacent bytes never collide.
///
/// Contracts see the hasher as its state, a number below 2^64: `write` gives `h.new ≡ fnv1a64_from h.old bytes.now`, and
/// `finish` returns `h.now`. Of `a` the hash is 12638187200555641996.
pub type FNV1aHasher64 = ByteHasher<Plain<Fnv1aRule64>>;

/// FNV-1a at 64 bits of the bytes.
pub fn fnv1a64(bytes: &[u8]) -> u64
    ensures { result ≡ fnv1a64_of bytes.now }
{
    hash_by_plain::<Fnv1aRule64>(bytes)
}
