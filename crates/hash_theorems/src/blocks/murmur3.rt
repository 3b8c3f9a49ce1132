//! Laws of MurmurHash3 alone.
ghost use Rattle.std.specs.Prelude.{◌≡◌, ◌≢◌, ◌↔◌, ◌+◌, ◌%◌, ◌^◌, ◌<◌, ◌++◌};
ghost use Rattle.hash_theorems.specs.BlockCommon.{ℕ, List, IsTrue, length, OnTrue, ExactlyTexts, IsText, DifferInOneBlock};
ghost use Rattle.hash_blocks.specs.Murmur3.{murmur3_32};
ghost use Rattle.hash_blocks.specs.Murmur3x128.{murmur3_128};

use crate::blocks::by_rule::{apart_by_rule, block_for_by_rule};
use hash_blocks::murmur3::{Murmur3Rule32, Murmur3Rule128};

/// Whether the texts have one length and differ, but only within one word: four bytes from a place that 4 divides, or the up to
/// three bytes after the last such word. If so, their hashes by MurmurHash3_x86_32 differ under every seed. Computes no hash.
pub fn apart_by_word_murmur3_32(x: &[u8], y: &[u8]) -> bool
    ensures exactly { IsTrue result ↔ DifferInOneBlock 4 x.now y.now }
    ensures differ { OnTrue result ((seed : ℕ) → seed < 2 ^ 32
        → murmur3_32 seed x.now ≢ murmur3_32 seed y.now) }
{
    apart_by_rule::<Murmur3Rule32, 4>(x, y)
}

/// One changed word shows in MurmurHash3_x86_32, a law with no code: two texts of one length that differ, but only within four
/// bytes from a place that 4 divides, or within the up to three bytes after them, have different hashes under every seed.
/// `apart_by_word_murmur3_32` says it of slices; the law also of what is longer than memory, such as a file.
pub fn one_changed_word_shows_in_murmur3_32()
    ensures { (seed : ℕ) (x y : List ℕ) → seed < 2 ^ 32 → IsText x → IsText y → DifferInOneBlock 4 x y
        → murmur3_32 seed x ≢ murmur3_32 seed y }
{}

/// The one word between a front, whose length 4 divides, and a back that leads MurmurHash3_x86_32 to a hash, under a seed.
pub fn word_for_murmur3_32(seed: u32, front: &[u8], back: &[u8], hash: u32) -> [u8; 4]
    requires place { length front.now % 4 ≡ 0 }
    requires fits { length front.now + 4 + length back.now < 2 ^ 64 }
    ensures leads { murmur3_32 seed (front.now ++ (result ++ back.now)) ≡ hash }
    ensures alone { (word : List ℕ) → IsText word → length word ≡ 4
        → murmur3_32 seed (front.now ++ (word ++ back.now)) ≡ hash → word ≡ result }
{
    block_for_by_rule::<Murmur3Rule32, 4>(seed, front, back, hash)
}

/// MurmurHash3_x86_32 favours no hash, a law with no code: between a front, whose length 4 divides, and a back exactly one word
/// of four bytes gives each hash, under every seed.
pub fn murmur3_32_is_even()
    ensures { (seed hash : ℕ) (front back : List ℕ) → seed < 2 ^ 32 → hash < 2 ^ 32
        → IsText front → IsText back → length front % 4 ≡ 0
        → ExactlyTexts 1 4 (λ word. murmur3_32 seed (front ++ (word ++ back)) ≡ hash) }
{}

/// Whether the texts have one length and differ, but only within one block of sixteen bytes from a place that 16 divides, or
/// within the up to fifteen bytes after them. If so, their hashes of 128 bits by MurmurHash3_x64_128 differ under every seed.
/// Computes no hash.
pub fn apart_by_block_murmur3_128(x: &[u8], y: &[u8]) -> bool
    ensures exactly { IsTrue result ↔ DifferInOneBlock 16 x.now y.now }
    ensures differ { OnTrue result ((seed : ℕ) → seed < 2 ^ 64
        → murmur3_128 seed x.now ≢ murmur3_128 seed y.now) }
{
    apart_by_rule::<Murmur3Rule128, 16>(x, y)
}

/// One changed block shows in MurmurHash3_x64_128, a law with no code: two texts of one length that differ, but only within
/// sixteen bytes from a place that 16 divides, or within the up to fifteen bytes after them, have different hashes of 128 bits under
/// every seed. `apart_by_block_murmur3_128` says it of slices; the law also of what is longer than memory, such as a file.
pub fn one_changed_block_shows_in_murmur3_128()
    ensures { (seed : ℕ) (x y : List ℕ) → seed < 2 ^ 64 → IsText x → IsText y → DifferInOneBlock 16 x y
        → murmur3_128 seed x ≢ murmur3_128 seed y }
{}

/// The one block between a front, whose length 16 divides, and a back that leads MurmurHash3_x64_128 to a hash, under a seed.
pub fn block_for_murmur3_128(seed: u64, front: &[u8], back: &[u8], hash: (u64, u64)) -> [u8; 16]
    requires place { length front.now % 16 ≡ 0 }
    requires fits { length front.now + 16 + length back.now < 2 ^ 64 }
    ensures leads { murmur3_128 seed (front.now ++ (result ++ back.now)) ≡ hash }
    ensures alone { (block : List ℕ) → IsText block → length block ≡ 16
        → murmur3_128 seed (front.now ++ (block ++ back.now)) ≡ hash → block ≡ result }
{
    block_for_by_rule::<Murmur3Rule128, 16>(seed, front, back, hash)
}

/// MurmurHash3_x64_128 favours no hash, a law with no code: between a front, whose length 16 divides, and a back exactly one
/// block of sixteen bytes gives each hash of 128 bits, under every seed.
pub fn murmur3_128_is_even()
    ensures { (seed : ℕ) (hash : ℕ × ℕ) (front back : List ℕ) → seed < 2 ^ 64
        → hash.0 < 2 ^ 64 → hash.1 < 2 ^ 64 → IsText front → IsText back → length front % 16 ≡ 0
        → ExactlyTexts 1 16 (λ block. murmur3_128 seed (front ++ (block ++ back)) ≡ hash) }
{}
