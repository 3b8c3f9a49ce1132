//! CRCs of 32 bits: CRC-32, as zlib, gzip, PNG and Ethernet compute it (ISO-HDLC: RFC 1952, section 8; ITU-T V.42), and
//! CRC-32C, as iSCSI, ext4 and SCTP do (RFC 3720, section 12.1). They differ in the polynomial alone. Sixteen bytes are taken
//! at a time by tables ("slicing": M. Kounavis and F. Berry, "Novel Table Lookup-Based Algorithms for High-Performance CRC
//! Generation", 2008), and the few that come before by one table, a byte a step.
mod castagnoli_rows;
mod ieee_rows;

ghost use Rattle.std.specs.Prelude.{◌≡◌, ◌+◌, ◌*◌, ◌^◌, ◌<◌, ◌≤◌, ◌/◌, ◌%◌, ◌++◌, ℕ, List, length, bit_xor, refl};
ghost use Rattle.std.proofs.Common.{lit<};
ghost use Rattle.hash_laws.specs.Exactly.{ExactlyTexts};
ghost use Rattle.hash_laws.specs.Text.{IsText};
ghost use Rattle.hash_laws.specs.RecurrenceLaws.{recurrence_is_fold};
ghost use Rattle.hash_more.specs.Crc32.{ieee, castagnoli, all_ones, bits_out, bit_out, crc_step, crc_from, crc_answer, crc32_of, crc32c_of};
ghost use Rattle.hash_more.specs.Crc32Laws.{crc_facts, crc_answer_same};

use castagnoli_rows::CASTAGNOLI;
use hash_laws::rules::{ByteHasher, ByteRule, StepRule, UndoRule, hash_by_rule, in_eights};
use hash_words::le_four;
use ieee_rows::IEEE;
use std::hash::Hasher;
use std::marker::PhantomData;

/// A polynomial of degree 32 with the term 1, without its first term, and with its bits in reverse order. The implementing
/// type is a name for it, and no value of it is made.
pub trait Polynomial {
    /// The polynomial.
    ghost POLYNOMIAL: { ℕ };

    /// The polynomial.
    const POLYNOMIAL: u32;

    /// What is left of a byte when its eight bits have gone out, and those of so many bytes of zeros after it.
    fn byte_out(zeros: usize, byte: u8) -> u32
        requires { zeros < 16 }
        ensures { result ≡ bits_out POLYNOMIAL (8 * (zeros + 1)) byte };

    /// The term 1 is the highest bit.
    ghost highest: { POLYNOMIAL / 2 ^ 31 ≡ 1 };
}

/// The polynomial of IEEE 802.3, which CRC-32 takes.
pub struct Ieee;

impl Polynomial for Ieee {
    ghost POLYNOMIAL = { ieee };

    const POLYNOMIAL: u32 = 0xEDB88320;

    #[inline(always)]
    fn byte_out(zeros: usize, byte: u8) -> u32 {
        IEEE[zeros][usize::from(byte)]
    }

    ghost highest = { refl };
}

/// The polynomial of Castagnoli, Bräuer and Herrmann, which CRC-32C takes.
pub struct Castagnoli;

impl Polynomial for Castagnoli {
    ghost POLYNOMIAL = { castagnoli };

    const POLYNOMIAL: u32 = 0x82F63B78;

    #[inline(always)]
    fn byte_out(zeros: usize, byte: u8) -> u32 {
        CASTAGNOLI[zeros][usize::from(byte)]
    }

    ghost highest = { refl };
}

/// The word that one bit goes out of.
#[tactic(auto, using(crate::proofs::Crc32Lemmas::bit_in_set, crate::proofs::Crc32Lemmas::bit_in_unset))]
fn bit_in<P: Polynomial>(word: u32) -> u32
    ensures { bit_out P.POLYNOMIAL result ≡ word }
{
    if word >> 31 == 1 {
        ((word ^ P::POLYNOMIAL) << 1) + 1
    } else {
        word << 1
    }
}

/// The word that eight bits go out of.
fn byte_in<P: Polynomial>(word: u32) -> u32
    ensures { bits_out P.POLYNOMIAL 8 result ≡ word }
{
    let nibble = bit_in::<P>(bit_in::<P>(bit_in::<P>(bit_in::<P>(word))));
    bit_in::<P>(bit_in::<P>(bit_in::<P>(bit_in::<P>(nibble))))
}

/// What is left of a word when its bits have gone out, and those of so many bytes of zeros after it.
#[inline(always)]
fn word_out<P: Polynomial>(zeros: usize, word: u32) -> u32
    requires { zeros ≤ 12 }
    ensures { result ≡ bits_out P.POLYNOMIAL (8 * (zeros + 4)) word }
{
    P::byte_out(zeros + 3, (word % 256) as u8)
        ^ P::byte_out(zeros + 2, (word / 256 % 256) as u8)
        ^ P::byte_out(zeros + 1, (word / 65536 % 256) as u8)
        ^ P::byte_out(zeros, (word / 16777216) as u8)
}

/// Sixteen bytes in, by a look into the table for each: none waits for another.
#[inline(always)]
fn sixteen_in<P: Polynomial>(state: u32, bytes: &[u8; 16]) -> u32
    ensures { result ≡ crc_from P.POLYNOMIAL state bytes.now }
{
    let (fours, _) = bytes.as_chunks::<4>();
    word_out::<P>(12, state ^ le_four(&fours[0]))
        ^ word_out::<P>(8, le_four(&fours[1]))
        ^ word_out::<P>(4, le_four(&fours[2]))
        ^ word_out::<P>(0, le_four(&fours[3]))
}

/// The rule of a CRC by its polynomial.
pub struct CrcRule<P: Polynomial> {
    polynomial: PhantomData<P>,
}

impl<P: Polynomial> StepRule for CrcRule<P> {
    type State = u32;

    ghost number = { λ s. s };

    ghost bound = { 2 ^ 32 };

    ghost start = { all_ones };

    ghost step = { crc_step P.POLYNOMIAL };

    fn start() -> u32 {
        0xFFFFFFFF
    }

    #[inline(always)]
    fn fork(state: &u32) -> u32 {
        *state
    }

    #[inline(always)]
    #[tactic(auto, using(crate::proofs::Crc32Lemmas::by_table))]
    fn step(state: &mut u32, byte: u8) {
        let word = *state ^ u32::from(byte);
        *state = P::byte_out(0, (word % 256) as u8) ^ (word >> 8);
    }

    ghost start_in_range = { lit< tt };

    ghost step_in_range = { (crc_facts P.POLYNOMIAL P.highest).in_range };
}

impl<P: Polynomial> ByteRule for CrcRule<P> {
    ghost after = { crc_from P.POLYNOMIAL };

    ghost write = { crc_from P.POLYNOMIAL };

    ghost answer = { crc_answer };

    #[inline(always)]
    fn write(state: &mut u32, bytes: &[u8]) {
        let (few, sixteens) = bytes.as_rchunks::<16>();
        let mut word = *state;
        in_eights::<CrcRule<P>>(&mut word, few);
        for sixteen in sixteens {
            word = sixteen_in::<P>(word, sixteen);
        }
        *state = word;
    }

    #[inline(always)]
    fn answer(state: &u32) -> u64 {
        u64::from(*state ^ 0xFFFFFFFF)
    }

    // As the trait has it, but inlined: there it is a call for each row of a column.
    #[inline(always)]
    fn whole(text: &[u8]) -> u64 {
        let mut state = Self::start();
        Self::write(&mut state, text);
        Self::answer(&state)
    }

    ghost is_fold = { recurrence_is_fold (crc_step P.POLYNOMIAL) (2 ^ 32) };

    ghost write_is_after = { λ s text. refl };
}

impl<P: Polynomial> UndoRule for CrcRule<P> {
    #[inline(always)]
    #[tactic(auto, using(crate::specs::Crc32Laws::crc_back))]
    fn unstep(state: &mut u32, byte: u8) {
        *state = byte_in::<P>(*state) ^ u32::from(byte);
    }

    fn unanswer(hash: u64) -> Option<u32> {
        let word = u32::try_from(hash).ok()?;
        Some(word ^ 0xFFFFFFFF)
    }

    ghost facts = { crc_facts P.POLYNOMIAL P.highest };

    ghost answer_injective = { crc_answer_same };
}

/// CRC-32 (RFC 1952, section 8).
///
/// The state is 32 bits, all set at first. A byte is xored into its low bits, and then eight bits go out at the low end: where
/// a bit that goes out is set, 0xEDB88320 is xored in. `finish` returns the state with all bits inverted, widened. The split
/// does not matter, each write can be undone, and texts that differ in one byte never collide.
///
/// Contracts see the hasher as its state, a number below 2^32: `write` gives `h.new ≡ crc_from ieee h.old bytes.now`, and
/// `finish` returns `crc_answer h.now`. Of `123456789` the hash is 0xCBF43926.
pub type Crc32Hasher = ByteHasher<CrcRule<Ieee>>;

/// CRC-32C (RFC 3720, section 12.1): as [`Crc32Hasher`], with 0x82F63B78 in the place of 0xEDB88320.
///
/// Contracts see the hasher as its state, a number below 2^32: `write` gives `h.new ≡ crc_from castagnoli h.old bytes.now`, and
/// `finish` returns `crc_answer h.now`. Of `123456789` the hash is 0xE3069283.
pub type Crc32cHasher = ByteHasher<CrcRule<Castagnoli>>;

/// CRC-32 of the bytes.
pub fn crc32(bytes: &[u8]) -> u64
    ensures value { result ≡ crc32_of bytes.now }
    ensures below { result < 2 ^ 32 }
{
    hash_by_rule::<CrcRule<Ieee>>(bytes)
}

/// CRC-32C of the bytes.
pub fn crc32c(bytes: &[u8]) -> u64
    ensures value { result ≡ crc32c_of bytes.now }
    ensures below { result < 2 ^ 32 }
{
    hash_by_rule::<CrcRule<Castagnoli>>(bytes)
}

/// The word with one bit gone out.
#[inline(always)]
#[tactic(auto, using(crate::proofs::Crc32Lemmas::unset_out))]
fn one_out<P: Polynomial>(word: u32) -> u32
    ensures { result ≡ bit_out P.POLYNOMIAL word }
{
    if word % 2 == 1 {
        word / 2 ^ P::POLYNOMIAL
    } else {
        word / 2
    }
}

/// The product of two words as polynomials modulo the polynomial, where the word of 1 is the highest bit: where the first is
/// 1 with some bits gone out, as many go out of the second.
fn times<P: Polynomial>(left: u32, right: u32) -> u32
    ensures { (k : ℕ) → left ≡ bits_out P.POLYNOMIAL k (2 ^ 31) → result ≡ bits_out P.POLYNOMIAL k right }
{
    let mut product = 0;
    for place in 0u32..32 {
        let term = if (left >> place) % 2 == 1 { right } else { 0 };
        product = one_out::<P>(product) ^ term;
    }
    product
}

/// The word when the bits of so many bytes of zeros have gone out of it.
fn zeros_in<P: Polynomial>(word: u32, count: u64) -> u32
    ensures { result ≡ bits_out P.POLYNOMIAL (8 * count) word }
{
    let mut moved = word;
    let mut power = 0x800000; // 1 with the bits of a byte gone out
    let mut rest = count;
    while rest > 0 {
        if rest % 2 == 1 {
            moved = times::<P>(power, moved);
        }
        power = times::<P>(power, power);
        rest /= 2;
    }
    moved
}

/// The CRC of a joined text from those of its two parts.
fn combine<P: Polynomial>(hash1: u64, hash2: u64, length2: u64) -> u64
    ensures { result ≡ bit_xor (bits_out P.POLYNOMIAL (8 * length2) (hash1 % 2 ^ 32)) (hash2 % 2 ^ 32) }
{
    let first = (hash1 % 4294967296) as u32;
    let second = (hash2 % 4294967296) as u32;
    u64::from(zeros_in::<P>(first, length2) ^ second)
}

/// CRC-32 of a joined text from the hashes of its two parts and the second one's length in bytes, in a time that grows
/// with the number of that length's digits. Of each hash the low 32 bits count.
///
/// The hash is linear: the second part pushes the bits of the first one's hash out as zeros would. That is a product by a
/// power of the polynomial x, modulo the hash's polynomial, and squaring finds it, as zlib's function of this name does.
pub fn crc32_combine(hash1: u64, hash2: u64, length2: u64) -> u64
    ensures value { result ≡ bit_xor (bits_out ieee (8 * length2) (hash1 % 2 ^ 32)) (hash2 % 2 ^ 32) }
    ensures joined { (x y : List ℕ) → IsText x → IsText y → length y ≡ length2
        → hash1 ≡ crc32_of x → hash2 ≡ crc32_of y
        → result ≡ crc32_of (x ++ y) }
{
    combine::<Ieee>(hash1, hash2, length2)
}

/// CRC-32C of a joined text, as [`crc32_combine`] does it.
pub fn crc32c_combine(hash1: u64, hash2: u64, length2: u64) -> u64
    ensures value { result ≡ bit_xor (bits_out castagnoli (8 * length2) (hash1 % 2 ^ 32)) (hash2 % 2 ^ 32) }
    ensures joined { (x y : List ℕ) → IsText x → IsText y → length y ≡ length2
        → hash1 ≡ crc32c_of x → hash2 ≡ crc32c_of y
        → result ≡ crc32c_of (x ++ y) }
{
    combine::<Castagnoli>(hash1, hash2, length2)
}

/// The ending of four bytes that leads a text with one CRC to another.
#[tactic(auto, using(crate::proofs::Crc32Endings::four_bytes_out))]
fn ending<P: Polynomial>(hash: u64, answer: u64) -> [u8; 4]
    ensures { crc_from P.POLYNOMIAL (crc_answer (hash % 2 ^ 32)) result ≡ crc_answer (answer % 2 ^ 32) }
{
    let before = (hash % 4294967296) as u32 ^ 0xFFFFFFFF;
    let after = (answer % 4294967296) as u32 ^ 0xFFFFFFFF;
    let word = byte_in::<P>(byte_in::<P>(byte_in::<P>(byte_in::<P>(after))));
    (word ^ before).to_le_bytes()
}

/// The one ending of four bytes after a text with this CRC-32 that makes the CRC-32 of the whole the answer. Of both
/// numbers the low 32 bits count.
pub fn crc32_ending(hash: u64, answer: u64) -> [u8; 4]
    ensures leads { (text : List ℕ) → hash % 2 ^ 32 ≡ crc32_of text
        → crc32_of (text ++ result) ≡ answer % 2 ^ 32 }
    ensures alone { (text ending : List ℕ) → IsText text → IsText ending → length ending ≡ 4
        → hash % 2 ^ 32 ≡ crc32_of text → crc32_of (text ++ ending) ≡ answer % 2 ^ 32
        → ending ≡ result }
{
    ending::<Ieee>(hash, answer)
}

/// The one ending of four bytes for CRC-32C, as [`crc32_ending`] finds it.
pub fn crc32c_ending(hash: u64, answer: u64) -> [u8; 4]
    ensures leads { (text : List ℕ) → hash % 2 ^ 32 ≡ crc32c_of text
        → crc32c_of (text ++ result) ≡ answer % 2 ^ 32 }
    ensures alone { (text ending : List ℕ) → IsText text → IsText ending → length ending ≡ 4
        → hash % 2 ^ 32 ≡ crc32c_of text → crc32c_of (text ++ ending) ≡ answer % 2 ^ 32
        → ending ≡ result }
{
    ending::<Castagnoli>(hash, answer)
}

/// The CRCs favour no answer, a law with no code: after any text each answer has exactly one ending of four bytes,
/// which [`crc32_ending`] and [`crc32c_ending`] find.
pub fn crcs_are_even()
    ensures crc32 { (text : List ℕ) (answer : ℕ) → IsText text → answer < 2 ^ 32
        → ExactlyTexts 1 4 (λ ending. crc32_of (text ++ ending) ≡ answer) }
    ensures crc32c { (text : List ℕ) (answer : ℕ) → IsText text → answer < 2 ^ 32
        → ExactlyTexts 1 4 (λ ending. crc32c_of (text ++ ending) ≡ answer) }
{}
