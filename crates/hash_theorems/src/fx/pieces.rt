//! Laws of the fx hashes, and where one word tells two lists of pieces apart.
ghost use Rattle.std.specs.Prelude.{◌≡◌, ◌≢◌, ◌↔◌, ◌<◌, ◌≤◌, ◌^◌, ◌+◌, ◌*◌, ◌/◌, ◌%◌, ℕ, List, [], ◌∷◌, All, IsTrue, length, take, drop, slice_index};
ghost use Rattle.std.specs.List.{flat_map};
ghost use denote.Bor.{Bor};
ghost use Rattle.hash_words.specs.Words.{le};
ghost use Rattle.std.specs.Bool.{OnTrue};
ghost use Rattle.std.specs.Hash.{le_bytes};
ghost use Rattle.hash_fx.specs.Fx.{fx32_step, fx64_step, fx32, fx64, words32, words64};
ghost use Rattle.hash_laws.specs.Exactly.{ExactlyTexts};
ghost use Rattle.hash_laws.specs.Text.{IsText, texts};
ghost use Rattle.hash_fx.specs.Pieces.{DifferByOneByte, DifferByOneWord, fx32_pieces, fx64_pieces};

use crate::fx::differing::FxDiffering;
use hash_fx::pieces::same_cuts;
pub use hash_fx::pieces::{apart_by_one_fx, run_words, run_words32, run_words64};

/// Whether the two lists have as many pieces, of the same lengths one by one, and exactly one word of all differs.
fn apart_by_one_word<W: FxDiffering>(x: &[&[u8]], y: &[&[u8]]) -> bool
    ensures exactly { IsTrue result ↔ DifferByOneWord W.words x.now y.now }
    ensures first { OnTrue result (All IsText (texts x.now)) }
    ensures second { OnTrue result (All IsText (texts y.now)) }
{
    if !same_cuts(x, y) {
        return false;
    }
    let mut apart = 0;
    for i in 0..x.len() {
        let more = W::differing(x[i], y[i]);
        if more > 1 - apart {
            return false;
        }
        apart += more;
    }
    apart == 1
}

/// Whether the two lists have as many pieces, of the same lengths one by one, and exactly one word of 64 bits of all differs: up
/// to eight adjacent bytes, from a place in their piece that eight divides. If so, both types of 64 bits answer
/// differently to the two lists, from their defaults. Computes no hash.
pub fn apart_by_one_word_fx64(x: &[&[u8]], y: &[&[u8]]) -> bool
    ensures exactly { IsTrue result ↔ DifferByOneWord words64 x.now y.now }
    ensures differ { OnTrue result (fx64_pieces 0 (texts x.now) ≢ fx64_pieces 0 (texts y.now)) }
{
    apart_by_one_word::<u64>(x, y)
}

/// The same by words of 32 bits, up to four adjacent bytes: `FxHasher32` answers differently.
pub fn apart_by_one_word_fx32(x: &[&[u8]], y: &[&[u8]]) -> bool
    ensures exactly { IsTrue result ↔ DifferByOneWord words32 x.now y.now }
    ensures differ { OnTrue result (fx32_pieces 0 (texts x.now) ≢ fx32_pieces 0 (texts y.now)) }
{
    apart_by_one_word::<u32>(x, y)
}

/// At 64 bits a number of 8, 32 or 64 bits is one word, as `write_u8`, `write_u32`, `write_u64` and `write_usize` write
/// it, and one of 16 bits is two words of a byte, the low one first.
pub fn fixed_widths_are_words64()
    ensures one_byte { (v : ℕ) → words64 (v ∷ []) ≡ v ∷ [] }
    ensures one_of_four { (v : ℕ) → v < 2 ^ 32 → words64 (le_bytes 4 v) ≡ v ∷ [] }
    ensures one_of_eight { (v : ℕ) → v < 2 ^ 64 → words64 (le_bytes 8 v) ≡ v ∷ [] }
    ensures byte { (h v : ℕ) → v < 2 ^ 8 → fx64 h (words64 (v ∷ [])) ≡ fx64_step h v }
    ensures two_bytes { (h v : ℕ) → v < 2 ^ 16
        → fx64 h (words64 (le_bytes 2 v)) ≡ fx64_step (fx64_step h (v % 2 ^ 8)) (v / 2 ^ 8) }
    ensures four_bytes { (h v : ℕ) → v < 2 ^ 32 → fx64 h (words64 (le_bytes 4 v)) ≡ fx64_step h v }
    ensures eight_bytes { (h v : ℕ) → v < 2 ^ 64 → fx64 h (words64 (le_bytes 8 v)) ≡ fx64_step h v }
{}

/// At 32 bits a number of 8 or 32 bits is one word, one of 16 bits is two words of a byte, and one of 64 bits, as
/// `write_u64` and `write_usize` write it, is two words of 32 bits, the low ones first.
pub fn fixed_widths_are_words32()
    ensures one_byte { (v : ℕ) → words32 (v ∷ []) ≡ v ∷ [] }
    ensures one_of_four { (v : ℕ) → v < 2 ^ 32 → words32 (le_bytes 4 v) ≡ v ∷ [] }
    ensures byte { (h v : ℕ) → v < 2 ^ 8 → fx32 h (words32 (v ∷ [])) ≡ fx32_step h v }
    ensures two_bytes { (h v : ℕ) → v < 2 ^ 16
        → fx32 h (words32 (le_bytes 2 v)) ≡ fx32_step (fx32_step h (v % 2 ^ 8)) (v / 2 ^ 8) }
    ensures four_bytes { (h v : ℕ) → v < 2 ^ 32 → fx32 h (words32 (le_bytes 4 v)) ≡ fx32_step h v }
    ensures eight_bytes { (h v : ℕ) → v < 2 ^ 64
        → fx32 h (words32 (le_bytes 8 v)) ≡ fx32_step (fx32_step h (v % 2 ^ 32)) (v / 2 ^ 32) }
{}

/// A law with no code: fx depends on the split. `abcd` as one piece and as two has different hashes.
pub fn cuts_show_in_fx()
    ensures at_64 { fx64_pieces 0 ((97 ∷ 98 ∷ 99 ∷ 100 ∷ []) ∷ [])
        ≢ fx64_pieces 0 ((97 ∷ 98 ∷ []) ∷ (99 ∷ 100 ∷ []) ∷ []) }
    ensures at_32 { fx32_pieces 0 ((97 ∷ 98 ∷ 99 ∷ 100 ∷ []) ∷ [])
        ≢ fx32_pieces 0 ((97 ∷ 98 ∷ []) ∷ (99 ∷ 100 ∷ []) ∷ []) }
{}

/// The words of a piece by 64 bits, by place, a law with no code: first a little-endian word of each eight bytes, then one of
/// four bytes where at least four are left, and then each byte that is left.
pub fn words_by_place64()
    ensures eights { (t : List ℕ) (i : ℕ) → i < length t / 8
        → slice_index (words64 t) i ≡ le (take 8 (drop (i * 8) t)) }
    ensures four { (t : List ℕ) → 4 ≤ length t % 8
        → slice_index (words64 t) (length t / 8) ≡ le (take 4 (drop (length t / 8 * 8) t)) }
    ensures bytes { (t : List ℕ) (i : ℕ)
        → slice_index (words64 t) (length t / 8 + length t % 8 / 4 + i)
        ≡ slice_index t (length t / 4 * 4 + i) }
    ensures count { (t : List ℕ)
        → length (words64 t) ≡ length t / 8 + length t % 8 / 4 + length t % 4 }
{}

/// The words of a piece by 32 bits, by place, a law with no code: first a little-endian word of each four bytes, and then each
/// byte that is left.
pub fn words_by_place32()
    ensures fours { (t : List ℕ) (i : ℕ) → i < length t / 4
        → slice_index (words32 t) i ≡ le (take 4 (drop (i * 4) t)) }
    ensures bytes { (t : List ℕ) (i : ℕ)
        → slice_index (words32 t) (length t / 4 + i) ≡ slice_index t (length t / 4 * 4 + i) }
    ensures count { (t : List ℕ) → length (words32 t) ≡ length t / 4 + length t % 4 }
{}

/// The state after pieces is the recurrence over all words of all pieces, one after the other: a law with no code.
pub fn pieces_are_their_words()
    ensures at_64 { (s : ℕ) (pieces : List (List ℕ))
        → fx64_pieces s pieces ≡ fx64 s (flat_map words64 pieces) }
    ensures at_32 { (s : ℕ) (pieces : List (List ℕ))
        → fx32_pieces s pieces ≡ fx32 s (flat_map words32 pieces) }
{}

/// One changed byte shows, a law with no code: two lists of pieces of the same lengths one by one, of which exactly one byte
/// of all differs, have different hashes.
pub fn one_changed_byte_shows_fx()
    ensures at_64 { (x y : List (Bor (List ℕ))) → All IsText (texts x) → All IsText (texts y)
        → DifferByOneByte x y → fx64_pieces 0 (texts x) ≢ fx64_pieces 0 (texts y) }
    ensures at_32 { (x y : List (Bor (List ℕ))) → All IsText (texts x) → All IsText (texts y)
        → DifferByOneByte x y → fx32_pieces 0 (texts x) ≢ fx32_pieces 0 (texts y) }
{}

/// One changed word shows, a law with no code: two lists of pieces of the same lengths one by one, of which exactly one word of
/// all differs, have different hashes.
pub fn one_changed_word_shows_fx()
    ensures at_64 { (x y : List (Bor (List ℕ))) → All IsText (texts x) → All IsText (texts y)
        → DifferByOneWord words64 x y → fx64_pieces 0 (texts x) ≢ fx64_pieces 0 (texts y) }
    ensures at_32 { (x y : List (Bor (List ℕ))) → All IsText (texts x) → All IsText (texts y)
        → DifferByOneWord words32 x y → fx32_pieces 0 (texts x) ≢ fx32_pieces 0 (texts y) }
{}

/// What the low bits of a hash rest on, a law with no code: from one state, two words that are equal mod 2^k lead to
/// states that are equal mod 2^k. So keys that differ only in the upper part of their last word share a bucket of every
/// table of 2^k buckets.
pub fn low_bits_of_a_word()
    ensures at_64 { (k h v u : ℕ) → k ≤ 64 → v % 2 ^ k ≡ u % 2 ^ k
        → fx64_step h v % 2 ^ k ≡ fx64_step h u % 2 ^ k }
    ensures at_32 { (k h v u : ℕ) → k ≤ 32 → v % 2 ^ k ≡ u % 2 ^ k
        → fx32_step h v % 2 ^ k ≡ fx32_step h u % 2 ^ k }
{}

/// fx favours no answer, a law with no code: from any state each answer has exactly one word, of eight bytes at 64
/// bits and of four at 32, which `word_for` of `WordHasher` finds.
pub fn fx_is_even()
    ensures at_64 { (h answer : ℕ) → h < 2 ^ 64 → answer < 2 ^ 64
        → ExactlyTexts 1 8 (λ word. fx64 h (words64 word) ≡ answer) }
    ensures at_32 { (h answer : ℕ) → h < 2 ^ 32 → answer < 2 ^ 32
        → ExactlyTexts 1 4 (λ word. fx32 h (words32 word) ≡ answer) }
{}
