//! At how many places the words of two pieces of one length differ.
ghost use Rattle.std.specs.Prelude.{◌≡◌, ◌≤◌, ◌↔◌, ℕ, IsTrue, length, map};
ghost use Rattle.hash_words.specs.Words.{le};
ghost use Rattle.hash_theorems.specs.Differences.{differences};
ghost use Rattle.hash_fx.specs.Fx.{words32};

use hash_fx::FxSplit;
use hash_words::{le_four, le64};

/// Bytes that are one word.
pub trait WordBytes {
    /// The word.
    ghost word: { Self → ℕ };

    /// Whether the words are equal.
    fn same(&self, other: &Self) -> bool
        ensures { IsTrue result ↔ (word self.now ≡ word other.now) };
}

impl WordBytes for [u8; 8] {
    ghost word = { le };

    #[inline(always)]
    fn same(&self, other: &[u8; 8]) -> bool {
        le64(self) == le64(other)
    }
}

impl WordBytes for [u8; 4] {
    ghost word = { le };

    #[inline(always)]
    fn same(&self, other: &[u8; 4]) -> bool {
        le_four(self) == le_four(other)
    }
}

impl WordBytes for u8 {
    ghost word = { λ byte. byte };

    #[inline(always)]
    fn same(&self, other: &u8) -> bool {
        *self == *other
    }
}

/// Of words that lie one after the other.
pub fn differing_words<B: WordBytes>(x: &[B], y: &[B]) -> usize
    requires { length x.now ≡ length y.now }
    ensures value { result ≡ differences (map B.word x.now) (map B.word y.now) }
    ensures few { result ≤ length x.now }
{
    let mut count = 0;
    for i in 0..x.len() {
        if !x[i].same(&y[i]) {
            count += 1;
        }
    }
    count
}

/// Of the words of a piece by 32 bits.
pub fn differing_fours_and_bytes(x: &[u8], y: &[u8]) -> usize
    requires { length x.now ≡ length y.now }
    ensures value { result ≡ differences (words32 x.now) (words32 y.now) }
    ensures few { result ≤ length x.now }
{
    let (x_fours, x_bytes) = x.as_chunks::<4>();
    let (y_fours, y_bytes) = y.as_chunks::<4>();
    differing_words(x_fours, y_fours) + differing_words(x_bytes, y_bytes)
}

/// A word of fx by which pieces are compared.
pub trait FxDiffering: FxSplit {
    /// At how many places the words of two pieces of one length differ.
    fn differing(x: &[u8], y: &[u8]) -> usize
        requires { length x.now ≡ length y.now }
        ensures { result ≡ differences (Self.words x.now) (Self.words y.now) };
}

impl FxDiffering for u32 {
    fn differing(x: &[u8], y: &[u8]) -> usize {
        differing_fours_and_bytes(x, y)
    }
}

impl FxDiffering for u64 {
    fn differing(x: &[u8], y: &[u8]) -> usize {
        let (x_eights, x_rest) = x.as_chunks::<8>();
        let (y_eights, y_rest) = y.as_chunks::<8>();
        differing_words(x_eights, y_eights) + differing_fours_and_bytes(x_rest, y_rest)
    }
}
