//! Laws of lookup3 and of SpookyHash alone.
ghost use Rattle.std.specs.Prelude.{◌≡◌, ◌≢◌, ◌↔◌, ◌<◌, ◌≤◌, ◌+◌, ◌*◌, ◌/◌, ◌%◌, ◌^◌, ℕ, List, [], ◌∷◌, ◌++◌, IsTrue, fold, length};
ghost use Rattle.std.specs.Bool.{OnTrue};
ghost use Rattle.hash_laws.specs.Exactly.{ExactlyTexts};
ghost use Rattle.hash_laws.specs.Text.{IsText, texts};
ghost use Rattle.hash_jenkins.specs.Lookup3.{lookup3_from, lookup3_answer, lookup3_of};
ghost use Rattle.hash_laws.specs.DifferWithin.{DifferInOneBlock};
ghost use Rattle.hash_theorems.specs.Mixing.{DifferInOneStretch, HaveOtherThree};
ghost use Rattle.hash_jenkins.specs.Spooky.{after, position, short_words, short_words_v1, spooky_v1};
ghost use Rattle.hash_jenkins.specs.Zeros.{AddsZeros, HaveOtherWords};

use hash_jenkins::Lookup3Hasher;
pub use hash_jenkins::apart_by_zeros;
use hash_jenkins::spooky_short::LONG;
use hash_laws::traits::Piecewise;
use hash_laws::windows::window;
use hash_laws::windows::window::{agree_from, first_difference};

/// A law with no code: by version 1 zeros at the end of a text below 192 bytes don't show.
pub fn zeros_do_not_show_in_version_1()
    ensures { (x y : List ℕ) → AddsZeros x y
        → (seed1 seed2 : ℕ) → spooky_v1 seed1 seed2 x ≡ spooky_v1 seed1 seed2 y }
{}

/// A law with no code: the position of two texts, one after the other, is that after the second from that of the first.
pub fn position_of_joined_texts()
    ensures { (seed1 seed2 : ℕ) (text more : List ℕ)
        → position seed1 seed2 (text ++ more) ≡ after (position seed1 seed2 text) more }
{}

/// A law with no code: lookup3 depends on the split. The answer to `a` and then `b` is not that to `ab`.
pub fn cuts_show_in_lookup3()
    ensures { lookup3_answer (lookup3_from (lookup3_from (0, 0) (97 ∷ [])) (98 ∷ []))
        ≢ lookup3_of (97 ∷ 98 ∷ []) }
{}

/// Feeds the pieces to both hashers, in order. Where their answers were equal before, they are equal afterwards: what
/// `finish` returns is the whole state.
pub fn same_answers_later(a: &mut Lookup3Hasher, b: &mut Lookup3Hasher, pieces: &[&[u8]])
    ensures first { a.new ≡ fold lookup3_from a.old (texts pieces.now) }
    ensures second { b.new ≡ fold lookup3_from b.old (texts pieces.now) }
    ensures alike { lookup3_answer a.old ≡ lookup3_answer b.old
        → lookup3_answer a.new ≡ lookup3_answer b.new }
{
    for piece in pieces {
        a.feed(piece);
        b.feed(piece);
    }
}

/// Whether the texts have one length and differ, but only within one of lookup3's blocks of twelve bytes. What then differs,
/// `one_changed_block_shows` says.
pub fn differ_in_one_block(x: &[u8], y: &[u8]) -> bool
    ensures { IsTrue result ↔ DifferInOneBlock 12 x.now y.now }
{
    window::differ_in_one_block::<12>(x, y)
}

/// Whether the texts have one length and differ, but only in what SpookyHash adds between two mixes below 192 bytes. What then
/// differs, `one_changed_stretch_shows` says.
pub fn differ_in_one_stretch(x: &[u8], y: &[u8]) -> bool
    ensures { IsTrue result ↔ DifferInOneStretch x.now y.now }
{
    if x.len() != y.len() {
        return false;
    }
    match first_difference(x, y) {
        None => false,
        Some(from) => agree_from(x, y, (from + 16) / 32 * 32 + 16),
    }
}

/// Whether the texts have one length and differ, but only within one of lookup3's blocks of twelve bytes. If so,
/// they lead from any two words to other words a, b and c. Computes no hash.
pub fn apart_by_block(x: &[u8], y: &[u8]) -> bool
    ensures exactly { IsTrue result ↔ DifferInOneBlock 12 x.now y.now }
    ensures differ { OnTrue result (HaveOtherThree x.now y.now) }
{
    differ_in_one_block(x, y)
}

/// Whether the texts are shorter than 192 bytes, have one length and differ, but only in what SpookyHash adds between
/// two mixes. If so, the four `short_words` of the two texts differ under all seeds. Computes no hash.
pub fn apart_by_stretch(x: &[u8], y: &[u8]) -> bool
    ensures exactly { IsTrue result ↔ ((length x.now < 192) × DifferInOneStretch x.now y.now) }
    ensures differ { OnTrue result (HaveOtherWords x.now y.now) }
{
    x.len() < LONG && differ_in_one_stretch(x, y)
}

/// A law with no code, for texts that a caller has in parts: a front, two different middles of one length, and a back differ
/// within one block, or one stretch, if the middle lies in one.
pub fn middles_in_one_group()
    ensures block { (front x y back : List ℕ) → length x ≡ length y → x ≢ y
        → length front % 12 + length x ≤ 12
        → DifferInOneBlock 12 (front ++ (x ++ back)) (front ++ (y ++ back)) }
    ensures stretch { (front x y back : List ℕ) → length x ≡ length y → x ≢ y
        → (length front + 16) % 32 + length x ≤ 32
        → DifferInOneStretch (front ++ (x ++ back)) (front ++ (y ++ back)) }
{}

/// A changed block shows in lookup3, a law with no code: two pieces of one length that differ, but only within one block of
/// twelve bytes, lead from any two words to different words a, b and c. Of the answer, which is b and c alone, nothing is said.
pub fn one_changed_block_shows()
    ensures { (x y : List ℕ) → IsText x → IsText y → DifferInOneBlock 12 x y → HaveOtherThree x y }
{}

/// A changed stretch shows in SpookyHash below 192 bytes, a law with no code: two texts of one length that differ, but only in
/// what is added between two mixes, have different words under all seeds. That is the first 16 bytes, and 32 bytes each from
/// byte 16, 48, 80 and so on. Of the hash, which is two of the four words, nothing is said.
pub fn one_changed_stretch_shows()
    ensures words { (seed1 seed2 : ℕ) (x y : List ℕ) → seed1 < 2 ^ 64 → seed2 < 2 ^ 64 → IsText x → IsText y
        → length x < 192 → DifferInOneStretch x y
        → short_words seed1 seed2 x ≢ short_words seed1 seed2 y }
    ensures words_v1 { (seed1 seed2 : ℕ) (x y : List ℕ) → seed1 < 2 ^ 64 → seed2 < 2 ^ 64 → IsText x
        → IsText y
        → length x < 192 → DifferInOneStretch x y
        → short_words_v1 seed1 seed2 x ≢ short_words_v1 seed1 seed2 y }
{}

/// lookup3 favours no answer, a law with no code: from any two words each answer has exactly 2^32 blocks of 12 bytes.
/// A block is found by [`block_for`](crate::jenkins::block::block_for).
pub fn lookup3_is_even()
    ensures { (pc pb answer : ℕ) → answer < 2 ^ 64
        → ExactlyTexts (2 ^ 32) 12 (λ block. lookup3_answer (lookup3_from (pc, pb) block) ≡ answer) }
{}
