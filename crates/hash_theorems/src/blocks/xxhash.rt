//! Laws of XXH32 and XXH64 alone.
ghost use Rattle.std.specs.Prelude.{◌≡◌, ◌≢◌, ◌↔◌, ◌+◌, ◌*◌, ◌/◌, ◌^◌, ◌<◌, ◌≤◌, ◌++◌};
ghost use Rattle.hash_theorems.specs.BlockCommon.{ℕ, List, IsTrue, length, fold, reverse, OnTrue, ExactlyTexts, IsText, le, blocks, tail, blocks_before, xxh32};
ghost use Rattle.hash_rounds.proofs.RoundLemmas.{AreFourWords};
ghost use Rattle.hash_theorems.specs.Xxh32Words.{DifferInOneWord};
ghost use Rattle.hash_blocks.specs.Xxh64.{after_block, eights_in, start, xxh64};
ghost use Rattle.hash_theorems.specs.Xxh64Back.{before_block, begun, byte_out, eight_between, eight_out, four_out, lane_out, last_unmix, rest_out, unround, unspun};
ghost use Rattle.hash_theorems.specs.Xxh64Words.{IsBehind, DifferInOneLastWord};

use hash_blocks::xxhash::at_64::{
    P1, P2, P3, P4, P5, after_block, converged, eight_in, round, start,
};
use hash_laws::windows::window::{differ_in_one_block, first_difference};
use hash_words::{le_four, le_words, le64, rotl64, xorshift};

// What undoes a product by a prime.
const UN_P1: u64 = 0x0887_4934_32ba_db37;

const UN_P2: u64 = 0x0ba7_9078_168d_4baf;

const UN_P3: u64 = 0xe9e9_f4c4_1d6d_f849;

// A rotation, a product and a sum taken back.
#[inline(always)]
#[tactic(auto, unfolding(crate::specs::Xxh64Back::unspun))]
fn unspun(turn: u32, inverse: u64, sum: u64, h: u64) -> u64
    requires some { 0 < turn }
    requires within { turn < 64 }
    ensures { result ≡ unspun turn inverse sum h }
{
    rotl64(h.wrapping_sub(sum).wrapping_mul(inverse), turn)
}

// The eight bytes that lead from one word to another.
#[tactic(auto, unfolding(crate::specs::Xxh64Back::unround))]
fn eight_between(from: u64, to: u64) -> [u8; 8]
    ensures { result ≡ eight_between from to }
{
    let x = from ^ unspun(37, UN_P1, P4, to);
    rotl64(x.wrapping_mul(UN_P1), 33)
        .wrapping_mul(UN_P2)
        .to_le_bytes()
}

// The word before some bytes, one at a time.
fn bytes_out(h: u64, bytes: &[u8]) -> u64
    ensures { result ≡ fold byte_out h (reverse bytes.now) }
{
    let mut before = h;
    for byte in bytes.iter().rev() {
        before = unspun(53, UN_P1, 0, before) ^ u64::from(*byte).wrapping_mul(P5);
    }
    before
}

// The word before the whole fours of a text.
#[tactic(auto, unfolding(crate::specs::BlockFacts::blocks_before, hash_words::specs::Pieces::pieces))]
fn fours_out(h: u64, text: &[u8]) -> u64
    ensures { result ≡ blocks_before 4 (λ h block. four_out h (le block)) h text.now }
{
    let (fours, _) = text.as_chunks::<4>();
    let mut before = h;
    for four in fours.iter().rev() {
        before = unspun(41, UN_P2, P3, before) ^ u64::from(le_four(four)).wrapping_mul(P1);
    }
    before
}

// The word before the whole eights of a text.
#[tactic(auto, unfolding(crate::specs::BlockFacts::blocks_before, hash_words::specs::Pieces::pieces))]
fn eights_out(h: u64, text: &[u8]) -> u64
    ensures { result ≡ blocks_before 8 (λ h block. eight_out h (le block)) h text.now }
{
    let (eights, _) = text.as_chunks::<8>();
    let mut before = h;
    for eight in eights.iter().rev() {
        before = unspun(37, UN_P1, P4, before) ^ round(0, le64(eight));
    }
    before
}

// The word before what is left behind the blocks.
#[tactic(auto, unfolding(hash_blocks::specs::Blocks::tail))]
fn rest_out(h: u64, left: &[u8]) -> u64
    ensures { result ≡ rest_out h left.now }
{
    let (_, behind) = left.as_chunks::<8>();
    let (_, bytes) = behind.as_chunks::<4>();
    eights_out(fours_out(bytes_out(h, bytes), behind), left)
}

// The word before the last mix.
#[tactic(auto, unfolding(crate::specs::Xxh64Back::last_unmix))]
fn last_unmix(h: u64) -> u64
    ensures { result ≡ last_unmix h }
{
    let second = xorshift(h, 32).wrapping_mul(UN_P3);
    let first = xorshift(xorshift(second, 29), 58).wrapping_mul(UN_P2);
    xorshift(first, 33)
}

// The lanes after the whole blocks of a text.
#[tactic(auto, unfolding(hash_blocks::specs::Blocks::blocks, hash_words::specs::Pieces::pieces))]
fn lanes_of(seed: u64, text: &[u8]) -> [u64; 4]
    ensures { result ≡ blocks 32 after_block (start seed) text.now }
{
    let (whole, _) = text.as_chunks::<32>();
    let mut lanes = start(seed);
    for block in whole {
        lanes = after_block(&lanes, block);
    }
    lanes
}

// The word after the whole eights of what is left of a text behind its blocks.
#[tactic(auto, unfolding(hash_blocks::specs::Blocks::blocks, hash_blocks::specs::Blocks::tail, hash_words::specs::Pieces::pieces))]
fn eights_in(h: u64, text: &[u8]) -> u64
    ensures { result ≡ eights_in h (tail 32 text.now) }
{
    let (_, left) = text.as_chunks::<32>();
    let (eights, _) = left.as_chunks::<8>();
    let mut mixed = h;
    for eight in eights {
        mixed = eight_in(mixed, le64(eight));
    }
    mixed
}

// The word before what is left behind the blocks, under a seed, from the length of a text and what its whole blocks are in.
fn begun(seed: u64, front: &[u8], total: u64) -> u64
    ensures { result ≡ begun seed front.now total }
{
    if total < 32 {
        seed.wrapping_add(P5)
    } else {
        converged(&lanes_of(seed, front))
    }
}

/// The one word of eight bytes between a front and a back that gives XXH64 a hash, under a seed. It is a word after the whole
/// blocks of 32 bytes: 8 divides the front's length, and what is left of the front, the word and the back are shorter than a block.
pub fn word_for_xxh64(seed: u64, front: &[u8], back: &[u8], hash: u64) -> [u8; 8]
    requires { IsBehind (length front.now) (length back.now) }
    ensures leads { xxh64 seed (front.now ++ (result ++ back.now)) ≡ hash }
    ensures alone { (word : List ℕ) → IsText word → length word ≡ 8
        → xxh64 seed (front.now ++ (word ++ back.now)) ≡ hash → word ≡ result }
{
    let total = front.len() as u64 + 8 + back.len() as u64;
    let from = eights_in(begun(seed, front, total).wrapping_add(total), front);
    eight_between(from, rest_out(last_unmix(hash), back))
}

/// XXH64 favours no hash after its whole blocks, a law with no code: between a front and a back, as `word_for_xxh64` takes them,
/// exactly one word of eight bytes gives each hash, under every seed.
pub fn xxh64_is_even()
    ensures { (seed hash : ℕ) (front back : List ℕ) → hash < 2 ^ 64 → IsText front → IsText back
        → IsBehind (length front) (length back)
        → ExactlyTexts 1 8 (λ word. xxh64 seed (front ++ (word ++ back)) ≡ hash) }
{}

/// One changed word shows in XXH64, a law with no code: two texts of one length that differ, but only within one word of eight
/// bytes after their whole blocks of 32, from a place that 8 divides, have different hashes under every seed. Below 32 bytes that
/// is any word of eight bytes. `apart_by_word_xxh64` says it of slices; the law also of what is longer than memory, such as a file.
pub fn one_changed_word_shows_in_xxh64()
    ensures { (seed : ℕ) (x y : List ℕ) → IsText x → IsText y → DifferInOneLastWord x y
        → xxh64 seed x ≢ xxh64 seed y }
{}

// Whether the place lies in a word of eight bytes behind the whole blocks of 32.
fn in_last_word(len: usize, place: usize) -> bool
    requires { place < len }
    ensures { IsTrue result ↔ ((len / 32 * 32 ≤ place / 8 * 8) × (place / 8 * 8 + 8 ≤ len)) }
{
    len / 32 * 32 <= place / 8 * 8 && len - place / 8 * 8 >= 8
}

/// Whether the texts have one length and differ, but only within one word of eight bytes after their whole blocks of 32, from a
/// place that 8 divides. If so, their hashes by XXH64 differ under every seed. Computes no hash.
pub fn apart_by_word_xxh64(x: &[u8], y: &[u8]) -> bool
    ensures exactly { IsTrue result ↔ DifferInOneLastWord x.now y.now }
    ensures differ { OnTrue result ((seed : ℕ) → xxh64 seed x.now ≢ xxh64 seed y.now) }
{
    if x.len() != y.len() {
        return false;
    }
    match first_difference(x, y) {
        None => false,
        Some(from) => in_last_word(x.len(), from) && differ_in_one_block::<8>(x, y),
    }
}

/// One changed word shows in XXH32, a law with no code: two texts of one length that differ, but only within one word of four
/// bytes from a place that 4 divides, wherever it lies, have different hashes under every seed. `apart_by_word_xxh32` says it of
/// slices; the law also of what is longer than memory, such as a file.
pub fn one_changed_word_shows_in_xxh32()
    ensures { (seed : ℕ) (x y : List ℕ) → seed < 2 ^ 32 → IsText x → IsText y → DifferInOneWord x y
        → xxh32 seed x ≢ xxh32 seed y }
{}

/// Whether the texts have one length and differ, but only within one word of four bytes from a place that 4 divides. If so, their
/// hashes by XXH32 differ under every seed. Computes no hash.
pub fn apart_by_word_xxh32(x: &[u8], y: &[u8]) -> bool
    ensures exactly { IsTrue result ↔ DifferInOneWord x.now y.now }
    ensures differ { OnTrue result ((seed : ℕ) → seed < 2 ^ 32 → xxh32 seed x.now ≢ xxh32 seed y.now) }
{
    if x.len() != y.len() {
        return false;
    }
    match first_difference(x, y) {
        None => false,
        Some(from) => x.len() - from / 4 * 4 >= 4 && differ_in_one_block::<4>(x, y),
    }
}

// A lane before one word.
#[inline(always)]
#[tactic(auto, unfolding(crate::specs::Xxh64Back::lane_out))]
fn lane_out(x: u64, word: u64) -> u64
    ensures { result ≡ lane_out x word }
{
    rotl64(x.wrapping_mul(UN_P1), 33).wrapping_sub(word.wrapping_mul(P2))
}

// The lanes before a block.
#[tactic(auto, unfolding(crate::specs::Xxh64Back::before_block))]
fn before_block(lanes: &[u64; 4], block: &[u8; 32]) -> [u64; 4]
    ensures { result ≡ before_block lanes.now block.now }
{
    let words: [u64; 4] = le_words(block);
    [
        lane_out(lanes[0], words[0]),
        lane_out(lanes[1], words[1]),
        lane_out(lanes[2], words[2]),
        lane_out(lanes[3], words[3]),
    ]
}

/// Takes a block of XXH64 out of its four lanes again, whether or not it was taken in: the inverse of that, both ways.
#[tactic(auto, using(crate::proofs::BlockBack::there_64, crate::proofs::BlockBack::back_again_64))]
pub fn xxh64_block_out(lanes: &[u64; 4], block: &[u8; 32]) -> [u64; 4]
    ensures back { after_block result block.now ≡ lanes.now }
    ensures undone { (s : List ℕ) → AreFourWords s → after_block s block.now ≡ lanes.now → result ≡ s }
{
    before_block(lanes, block)
}
