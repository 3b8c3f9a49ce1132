//! Three hash functions of Ozan Yigit's page of hash functions for strings: djb2, sdbm and lose lose.
ghost use Rattle.std.specs.Prelude.{◌≡◌, ◌^◌, ◌+◌, ◌-◌, ◌*◌, ◌/◌, ◌%◌, ℕ, List, ◌++◌, length, IsPermutation, refl, ◌<◌};
ghost use Rattle.std.proofs.Common.{lit<};
ghost use Rattle.hash_rounds.specs.Sums.{sdbm_from, loselose_from, sdbm_step, loselose_step};
ghost use Rattle.hash_bytes.specs.Oz.{djb2_step, djb2_from, djb2_of};
ghost use Rattle.hash_bytes.specs.OzLaws.{djb2_facts, loselose_facts, sdbm_facts};
ghost use Rattle.hash_rounds.proofs.SumLemmas.{sdbm_sums, loselose-fold};
ghost use Rattle.hash_bytes.specs.CountedSum.{sdbm_write, loselose_write};

pub use hash_laws::rules::constants::UNPRODUCT_33;
use hash_laws::rules::{
    ByteHasher, ByteRule, Plain, PlainRule, PlainUndo, StepRule, UndoRule, hash_by_plain,
    hash_by_rule,
};
use hash_rounds::{Turns, lose8, sdbm4};
use std::hash::Hasher;
use std::marker::Model;
use std::simd::prelude::*;

/// What undoes a product by 65599.
const UNPRODUCT_65599: u32 = 2390421439;

/// Where the constants come from, a law and no code: 65599 is 2^16 + 2^6 - 1, for which the code of sdbm shifts and
/// subtracts, and each number that undoes a product is the inverse of its multiplier.
pub fn origin_of_constants()
    ensures multiplier { 65599 ≡ 2 ^ 16 + 2 ^ 6 - 1 }
    ensures inverse_33 { 33 * UNPRODUCT_33 % 2 ^ 32 ≡ 1 }
    ensures inverse_65599 { 65599 * UNPRODUCT_65599 % 2 ^ 32 ≡ 1 }
{}

/// The law of sdbm of a joined text, with no code: it is made of the hashes of the parts and the second part's length.
pub fn sdbm_of_joined_texts()
    ensures { (x y : List ℕ)
        → sdbm_from 0 (x ++ y) ≡ (sdbm_from 0 x * 65599 ^ length y + sdbm_from 0 y) % 2 ^ 32 }
{}

/// The law of lose lose of a joined text, with no code: it is the sum of the hashes of the parts.
pub fn loselose_of_joined_texts()
    ensures { (x y : List ℕ) → loselose_from 0 (x ++ y) ≡ (loselose_from 0 x + loselose_from 0 y) % 2 ^ 64 }
{}

/// The law that lose lose ignores the order of the bytes, with no code.
pub fn loselose_ignores_order()
    ensures { (s : ℕ) (x y : List ℕ) → IsPermutation x y → loselose_from s x ≡ loselose_from s y }
{}

/// The rule of Dan Bernstein's hash in its form with an exclusive or.
pub struct Djb2Rule;

impl PlainRule for Djb2Rule {
    type Word = u32;

    const ALONE: bool = false;

    ghost bound = { 2 ^ 32 };

    ghost start = { 5381 };

    ghost step = { djb2_step };

    ghost answer = { λ s. s };

    fn start() -> u32 {
        5381
    }

    #[inline(always)]
    fn step(word: u32, byte: u8) -> u32 {
        (word << 5).wrapping_add(word) ^ u32::from(byte)
    }

    #[inline(always)]
    fn answer(word: u32) -> u64 {
        u64::from(word)
    }

    ghost start_in_range = { lit< tt };

    ghost step_in_range = { djb2_facts.in_range };
}

impl PlainUndo for Djb2Rule {
    #[inline(always)]
    #[tactic(auto, using(crate::specs::OzLaws::djb2_back))]
    fn unstep(word: u32, byte: u8) -> u32 {
        (word ^ u32::from(byte)).wrapping_mul(UNPRODUCT_33)
    }

    fn unanswer(hash: u64) -> Option<u32> {
        u32::try_from(hash).ok()
    }

    ghost facts = { djb2_facts };

    ghost answer_injective = { λ s t ks kt same. same };
}

/// djb2, Dan Bernstein's hash in its form with an exclusive or (Oz' page of hash functions, www.cse.yorku.ca/~oz/hash.html).
///
/// From 5381, a byte `b` takes the state `h` to `(33 * h) ^ b`, at 32 bits; `finish` returns `h`, widened. The split does not matter, and
/// each write can be undone. Texts that differ in the low five bits of at most six adjacent bytes never collide.
///
/// Contracts see the hasher as its state, a number below 2^32: `write` gives `h.new ≡ djb2_from h.old bytes.now`, and `finish`
/// answers `h.now`. Of `a` the hash is 177604.
pub type DJB2Hasher = ByteHasher<Plain<Djb2Rule>>;

/// djb2 of the bytes, from 5381.
pub fn djb2(bytes: &[u8]) -> u64
    ensures value { result ≡ djb2_of bytes.now }
    ensures below { result < 2 ^ 32 }
{
    hash_by_plain::<Djb2Rule>(bytes)
}

/// One byte of sdbm on.
#[inline(always)]
fn sdbm_step(state: u32, byte: u8) -> u32
    ensures { result ≡ (65599 * state + byte) % 2 ^ 32 }
{
    state.wrapping_mul(65599).wrapping_add(u32::from(byte))
}

/// One byte of sdbm back.
#[inline(always)]
#[tactic(auto, using(crate::specs::OzLaws::sdbm_back))]
fn sdbm_unstep(state: u32, byte: u8) -> u32
    ensures { (65599 * result + byte) % 2 ^ 32 ≡ state }
{
    state
        .wrapping_sub(u32::from(byte))
        .wrapping_mul(UNPRODUCT_65599)
}

/// What the hasher of sdbm keeps: its state, and the turns that its writes have taken, of which nothing is kept at run
/// time.
#[derive(Drop)]
pub struct SdbmState {
    state: u32,
    turns: Turns,
}

impl Model for SdbmState {
    ghost use Rattle.std.specs.Prelude.{◌<◌, ◌^◌};
    ghost use Rattle.hash_bytes.specs.CountedSum.{CountedSum};

    ghost Value = { CountedSum };

    ghost view = { λ h. record { state = h.state; turns = h.turns } };

    ghost invariant = { λ h. h.state < 2 ^ 32 };
}

/// The rule of sdbm.
pub struct SdbmRule;

impl StepRule for SdbmRule {
    type State = SdbmState;

    ghost number = { λ h. h.state };

    ghost bound = { 2 ^ 32 };

    ghost start = { record { state = 0; turns = 0 } };

    ghost step = { sdbm_step };

    fn start() -> SdbmState {
        SdbmState {
            state: 0,
            turns: Turns::new(),
        }
    }

    #[inline(always)]
    fn fork(state: &SdbmState) -> SdbmState {
        SdbmState {
            state: state.state,
            turns: state.turns.fork(),
        }
    }

    #[inline(always)]
    fn step(state: &mut SdbmState, byte: u8) {
        state.state = sdbm_step(state.state, byte);
    }

    ghost start_in_range = { lit< tt };

    ghost step_in_range = { sdbm_facts.in_range };
}

impl ByteRule for SdbmRule {
    ghost after = { sdbm_from };

    ghost write = { sdbm_write };

    ghost answer = { λ s. s };

    /// Takes the bytes in, four in each turn of `sdbm4` and the last up to three alone. A single byte has no loop.
    #[inline(always)]
    fn write(state: &mut SdbmState, bytes: &[u8])
        ensures value { state.new ≡ sdbm_write state.old bytes.now }
        ensures state { state.new.state ≡ sdbm_from state.old.state bytes.now }
        ensures turns { state.new.turns ≡ state.old.turns + length bytes.now / 4 }
    {
        if let [byte] = bytes {
            state.state = sdbm_step(state.state, *byte);
            return;
        }
        let (fours, rest) = bytes.as_chunks::<4>();
        for four in fours {
            state.state = sdbm4(state.state, four, &mut state.turns);
        }
        for byte in rest {
            state.state = sdbm_step(state.state, *byte);
        }
    }

    #[inline(always)]
    fn answer(state: &SdbmState) -> u64 {
        u64::from(state.state)
    }

    ghost is_fold = { sdbm_sums.is_fold };

    ghost write_is_after = { λ s text. refl };
}

impl UndoRule for SdbmRule {
    #[inline(always)]
    fn unstep(state: &mut SdbmState, byte: u8) {
        state.state = sdbm_unstep(state.state, byte);
    }

    fn unanswer(hash: u64) -> Option<SdbmState> {
        let state = u32::try_from(hash).ok()?;
        Some(SdbmState {
            state,
            turns: Turns::new(),
        })
    }

    ghost facts = { sdbm_facts };

    ghost answer_injective = { λ s t ks kt same. same };
}

/// The hash of the sdbm database library (Oz' page of hash functions, www.cse.yorku.ca/~oz/hash.html).
///
/// From 0, a byte `b` takes the state `h` to `65599 * h + b`, at 32 bits; `finish` returns `h`, widened. So the hash is the sum of
/// the bytes as digits in base 65599. The split does not matter, and each write can be undone. Texts that differ in at most three
/// adjacent bytes never collide.
///
/// Contracts see the hasher as its `state`, a number below 2^32, and the `turns` that its writes have taken, of which nothing
/// is kept at run time: `write` gives `h.new.state ≡ sdbm_from h.old.state bytes.now`, in a turn for each four bytes, and `finish`
/// answers `h.now.state`. Of `ab` the hash is 6363201.
pub type SDBMHasher = ByteHasher<SdbmRule>;

/// sdbm of the bytes: their sum as digits in base 65599, modulo 2^32.
pub fn sdbm(bytes: &[u8]) -> u64
    ensures value { result ≡ sdbm_from 0 bytes.now }
    ensures below { result < 2 ^ 32 }
{
    hash_by_rule::<SdbmRule>(bytes)
}

/// sdbm of a joined text from the hashes of its two parts and the second one's length in bytes, in a time that grows with
/// the number of that length's digits. Of each hash the low 32 bits count.
pub fn sdbm_combine(hash1: u64, hash2: u64, length2: u64) -> u64
    ensures value { result ≡ (hash1 * 65599 ^ length2 + hash2) % 2 ^ 32 }
    ensures joined { (x y : List ℕ) → length y ≡ length2 → hash1 ≡ sdbm_from 0 x → hash2 ≡ sdbm_from 0 y
        → result ≡ sdbm_from 0 (x ++ y) }
{
    // 65599 to the power 2^32 is 1 modulo 2^32, so of the exponent 32 bits are enough.
    let power = 65599u32.wrapping_pow((length2 % 4294967296) as u32);
    let first = (hash1 % 4294967296) as u32;
    let second = (hash2 % 4294967296) as u32;
    u64::from(first.wrapping_mul(power).wrapping_add(second))
}

/// One byte of lose lose on.
#[inline(always)]
fn loselose_step(state: u64, byte: u8) -> u64
    ensures { result ≡ (state + byte) % 2 ^ 64 }
{
    state.wrapping_add(u64::from(byte))
}

/// One byte of lose lose back.
#[inline(always)]
#[tactic(auto, using(crate::specs::OzLaws::loselose_back))]
fn loselose_unstep(state: u64, byte: u8) -> u64
    ensures { (result + byte) % 2 ^ 64 ≡ state }
{
    state.wrapping_sub(u64::from(byte))
}

/// The bytes of lose lose in, one step for each.
#[inline(always)]
fn loselose_bytes_in(state: u64, bytes: &[u8]) -> u64
    ensures { result ≡ loselose_from state bytes.now }
{
    let mut h = state;
    for byte in bytes {
        h = loselose_step(h, *byte);
    }
    h
}

/// The sum of eight bytes, in one turn of `lose8`. The lanes begin at 0 and are summed at once: the processor has one step
/// for both.
#[inline(always)]
fn sum_of_eight(eight: &[u8; 8], turns: &mut Turns) -> u64
    ensures value { result ≡ loselose_from 0 eight.now }
    ensures turn { turns.new ≡ turns.old + 1 }
{
    let mut lanes = u64x8::splat(0);
    lose8(&mut lanes, eight, turns);
    lanes.reduce_sum()
}

/// What the hasher of lose lose keeps: its state, and the turns that its writes have taken, of which nothing is kept at
/// run time.
#[derive(Drop)]
pub struct LoseLoseState {
    state: u64,
    turns: Turns,
}

impl Model for LoseLoseState {
    ghost use Rattle.std.specs.Prelude.{◌<◌, ◌^◌};
    ghost use Rattle.hash_bytes.specs.CountedSum.{CountedSum};

    ghost Value = { CountedSum };

    ghost view = { λ h. record { state = h.state; turns = h.turns } };

    ghost invariant = { λ h. h.state < 2 ^ 64 };
}

/// The rule of lose lose.
pub struct LoseLoseRule;

impl StepRule for LoseLoseRule {
    type State = LoseLoseState;

    ghost number = { λ h. h.state };

    ghost bound = { 2 ^ 64 };

    ghost start = { record { state = 0; turns = 0 } };

    ghost step = { loselose_step };

    fn start() -> LoseLoseState {
        LoseLoseState {
            state: 0,
            turns: Turns::new(),
        }
    }

    #[inline(always)]
    fn fork(state: &LoseLoseState) -> LoseLoseState {
        LoseLoseState {
            state: state.state,
            turns: state.turns.fork(),
        }
    }

    #[inline(always)]
    fn step(state: &mut LoseLoseState, byte: u8) {
        state.state = loselose_step(state.state, byte);
    }

    ghost start_in_range = { lit< tt };

    ghost step_in_range = { loselose_facts.in_range };
}

impl ByteRule for LoseLoseRule {
    ghost after = { loselose_from };

    ghost write = { loselose_write };

    ghost answer = { λ s. s };

    /// Adds eight bytes in each turn of `lose8`, and the up to seven last ones one by one. Fewer than eight have a way of
    /// their own, with nothing else on it.
    #[inline(always)]
    fn write(state: &mut LoseLoseState, bytes: &[u8])
        ensures value { state.new ≡ loselose_write state.old bytes.now }
        ensures state { state.new.state ≡ loselose_from state.old.state bytes.now }
        ensures turns { state.new.turns ≡ state.old.turns + length bytes.now / 8 }
    {
        if bytes.len() < 8 {
            state.state = loselose_bytes_in(state.state, bytes);
            return;
        }
        let (eights, few) = bytes.as_chunks::<8>();
        let mut sum = state.state;
        for eight in eights {
            sum = sum.wrapping_add(sum_of_eight(eight, &mut state.turns));
        }
        state.state = loselose_bytes_in(sum, few);
    }

    #[inline(always)]
    fn answer(state: &LoseLoseState) -> u64 {
        state.state
    }

    ghost is_fold = { loselose-fold };

    ghost write_is_after = { λ s text. refl };
}

impl UndoRule for LoseLoseRule {
    #[inline(always)]
    fn unstep(state: &mut LoseLoseState, byte: u8) {
        state.state = loselose_unstep(state.state, byte);
    }

    fn unanswer(hash: u64) -> Option<LoseLoseState> {
        Some(LoseLoseState {
            state: hash,
            turns: Turns::new(),
        })
    }

    ghost facts = { loselose_facts };

    ghost answer_injective = { λ s t ks kt same. same };
}

/// lose lose, the hash of the first edition of Kernighan and Ritchie's book, here at 64 bits (Oz' page of hash functions,
/// www.cse.yorku.ca/~oz/hash.html).
///
/// From 0, a byte `b` takes the state `h` to `h + b`, modulo 2^64; `finish` returns `h`. So the hash is the sum of the bytes, in
/// whatever order they come. The split does not matter, and each write can be undone.
///
/// Contracts see the hasher as its `state`, a number below 2^64, and the `turns` that its writes have taken, of which nothing
/// is kept at run time: `write` gives `h.new.state ≡ loselose_from h.old.state bytes.now`, in a turn for each eight bytes, and
/// `finish` returns `h.now.state`. Of `ab` the hash is 195.
pub type LoseLoseHasher = ByteHasher<LoseLoseRule>;

/// The sum of the bytes, modulo 2^64.
pub fn loselose(bytes: &[u8]) -> u64
    ensures { result ≡ loselose_from 0 bytes.now }
{
    hash_by_rule::<LoseLoseRule>(bytes)
}

/// lose lose of a joined text from the hashes of its two parts. The second one's length does not matter: the parameter
/// stands there so that all three calls of the kind are called alike.
pub fn loselose_combine(hash1: u64, hash2: u64, _length2: u64) -> u64
    ensures value { result ≡ (hash1 + hash2) % 2 ^ 64 }
    ensures joined { (x y : List ℕ) → hash1 ≡ loselose_from 0 x → hash2 ≡ loselose_from 0 y
        → result ≡ loselose_from 0 (x ++ y) }
{
    hash1.wrapping_add(hash2)
}
