//! Block-based hashes of two words.
ghost use Rattle.std.specs.Prelude.{◌≡◌, ℕ, List};
ghost use Rattle.hash_blocks.specs.Standing.{BlockStandsAt};

use crate::block_hasher::BlockHasher;
use crate::block_rule::BlockRule;

/// The second part, of a rule whose answer is two words.
pub trait WideRule<const N: usize>: BlockRule<N> {
    /// The two words of an answer.
    ghost words: { Self.Hash → ℕ × ℕ };

    /// The two words of an answer.
    fn words(answer: Self::Hash) -> (u64, u64)
        ensures { result ≡ words answer };
}

impl<R: WideRule<N>, const N: usize> BlockHasher<R, N> {
    /// The 128 bits of the hash of the bytes so far, as two words. More bytes may be written afterwards.
    #[inline(always)]
    pub fn finish128(&self) -> (u64, u64)
        ensures here { result ≡ R.words (R.finish self.now.state self.now.left self.now.total) }
        ensures where_it_stands { (from text : List ℕ) → BlockStandsAt N R.start R.block self.now from text
            → result ≡ R.words (R.hash from text) }
    {
        R::words(self.hash())
    }
}
