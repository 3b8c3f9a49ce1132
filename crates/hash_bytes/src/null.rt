//! Two hash functions that mix nothing: one that forgets every byte, and one that keeps the last eight.
ghost use Rattle.std.specs.Prelude.{◌≡◌, ◌<◌, ◌^◌, ◌-◌, ◌+◌, ◌*◌, ◌%◌, ℕ, List, [], ◌∷◌, ◌++◌, length, drop, slice_index, refl};
ghost use Rattle.std.proofs.Common.{lit<, sym};
ghost use Rattle.std.proofs.Math.Nat.{mod-lt};
ghost use Rattle.hash_rounds.specs.Sums.{digit_sum, passthrough_from, passthrough_step};
ghost use Rattle.hash_rounds.proofs.SumLemmas.{passthrough_sums};
ghost use Rattle.hash_laws.specs.Standing.{StandsAt};
ghost use Rattle.hash_laws.specs.ByteLaws as bytewise;

use hash_laws::rules::{ByteHasher, ByteRule, StepRule, hash_by_rule};
use hash_laws::traits::{Piecewise, Streamed, hash_of};
use std::hash::Hasher;

/// The hasher that answers 0 to every text (the crate hashers' own, the worst case for a table). The value written
/// `NullHasher` is its default. `write` gives `h.new ≡ h.old`, and `finish` returns 0.
pub struct NullHasher;

impl Drop for NullHasher {
    fn drop(self) {
        let Self = self;
    }
}

impl Default for NullHasher {
    /// The one value of the type.
    fn default() -> NullHasher {
        NullHasher
    }
}

impl Hasher for NullHasher {
    ghost write = { λ h bytes. h };

    ghost finish = { λ h. 0 };

    /// 0.
    #[inline(always)]
    fn finish(&self) -> u64
        ensures { result ≡ 0 }
    {
        0
    }

    /// Forgets the bytes.
    #[inline(always)]
    fn write(&mut self, _bytes: &[u8])
        ensures { self.new ≡ self.old }
    {}
}

impl Piecewise for NullHasher {
    ghost State = { Unit {0} };

    ghost state = { λ h. tt };

    ghost in_range = { λ s. Unit {0} };

    ghost fresh = { tt };

    ghost after = { λ s piece. s };

    ghost answer = { λ s. 0 };

    ghost hash_of = { λ text. 0 };

    ghost first = { record {} };

    #[inline(always)]
    fn state_in_range(&self) {}

    #[inline(always)]
    fn whole(_text: &[u8]) -> u64 {
        0
    }

    #[inline(always)]
    fn fork(&self) -> NullHasher {
        NullHasher
    }

    ghost default_is_first = { λ h same. refl };

    ghost first_is_fresh = { refl };

    ghost hash_of_is = { λ text. refl };

    ghost write_feeds = { λ h piece. refl };

    ghost finish_answers = { λ h. refl };

    ghost fresh_in_range = { tt };

    ghost after_in_range = { λ s piece known bytes. known };

    ghost after_nothing = { λ s known. refl };
}

impl Streamed for NullHasher {
    ghost start = { [] };

    ghost stands_at = { λ h from text. from ≡ [] };

    ghost hash_from = { λ from text. 0 };

    ghost stands_at_start = { λ h same. refl };

    ghost stands_after = { λ h k from text piece bytes step stood. stood };

    ghost after_joined = { λ s text more known one two. refl };

    ghost hash_from_start = { λ text bytes. refl };

    ghost stands_answers = { λ h from text stood. refl };
}

/// 0, whatever the bytes.
pub fn null(bytes: &[u8]) -> u64
    ensures { result ≡ 0 }
{
    hash_of::<NullHasher>(bytes)
}

/// One byte after the state, as a digit in base 256.
#[inline(always)]
fn append_byte(state: u64, byte: u8) -> u64
    ensures { result ≡ passthrough_step state byte }
{
    (state << 8) + u64::from(byte)
}

/// The bytes after the state, one by one.
#[inline(always)]
fn append_few(state: u64, bytes: &[u8]) -> u64
    ensures { result ≡ passthrough_from state bytes.now }
{
    let mut state = state;
    for byte in bytes {
        state = append_byte(state, *byte);
    }
    state
}

/// The hash after appending more bytes: what a [`PassThroughHasher`] of this state comes to. Only the last eight bytes are read.
#[inline(always)]
pub fn passthrough_from(state: u64, bytes: &[u8]) -> u64
    ensures { result ≡ passthrough_from state bytes.now }
{
    match bytes.last_chunk::<8>() {
        Some(last) => u64::from_be_bytes(*last),
        None => append_few(state, bytes),
    }
}

/// The rule that keeps the last eight bytes. It loses what it lets go, so nothing takes a byte back.
pub struct PassThroughRule;

impl StepRule for PassThroughRule {
    type State = u64;

    ghost number = { λ s. s };

    ghost bound = { 2 ^ 64 };

    ghost start = { 0 };

    ghost step = { passthrough_step };

    fn start() -> u64 {
        0
    }

    #[inline(always)]
    fn fork(state: &u64) -> u64 {
        *state
    }

    #[inline(always)]
    fn step(state: &mut u64, byte: u8) {
        *state = append_byte(*state, byte);
    }

    ghost start_in_range = { lit< tt };

    ghost step_in_range = { λ s b known below. mod-lt (256 * s + b) (lit< tt) };
}

impl ByteRule for PassThroughRule {
    ghost after = { passthrough_from };

    ghost write = { passthrough_from };

    ghost answer = { λ s. s };

    #[inline(always)]
    fn write(state: &mut u64, bytes: &[u8]) {
        *state = passthrough_from(*state, bytes);
    }

    #[inline(always)]
    fn answer(state: &u64) -> u64 {
        *state
    }

    ghost is_fold = { passthrough_sums.is_fold };

    ghost write_is_after = { λ s text. refl };
}

/// The hasher that keeps the last eight bytes (the crate hashers' own, for keys that are hashes already). From 0, a byte
/// `b` takes the state `h` to `256 * h + b`, modulo 2^64; `finish` returns `h`. The split does not matter.
///
/// Contracts see the hasher as its state, a number below 2^64: `write` gives `h.new ≡ passthrough_from h.old bytes.now`. Of `a`
/// the hash is 97.
pub type PassThroughHasher = ByteHasher<PassThroughRule>;

/// The big-endian value of the last eight bytes, or of all where there are fewer.
pub fn passthrough(bytes: &[u8]) -> u64
    ensures value { result ≡ passthrough_from 0 bytes.now }
    ensures last { result ≡ digit_sum 256 (drop (length bytes.now - 8) bytes.now) }
{
    hash_by_rule::<PassThroughRule>(bytes)
}

/// The law of passthrough of a joined text, with no code: the second part's bytes stand after the first part's, as digits in
/// base 256, of which eight are kept.
pub fn passthrough_of_joined_texts()
    ensures { (x y : List ℕ) → passthrough_from 0 (x ++ y)
        ≡ (passthrough_from 0 x * 256 ^ length y + passthrough_from 0 y) % 2 ^ 64 }
{}

/// passthrough of a joined text from the hashes of its two parts and the second one's length in bytes.
pub fn passthrough_combine(hash1: u64, hash2: u64, length2: u64) -> u64
    ensures value { result ≡ (hash1 * 256 ^ length2 + hash2) % 2 ^ 64 }
    ensures joined { (x y : List ℕ) → length y ≡ length2 → hash1 ≡ passthrough_from 0 x
        → hash2 ≡ passthrough_from 0 y → result ≡ passthrough_from 0 (x ++ y) }
{
    let first = if length2 < 8 {
        hash1 << (8 * length2)
    } else {
        0
    };
    first.wrapping_add(hash2)
}
