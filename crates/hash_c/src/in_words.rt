//! What is kept of whole blocks as whole numbers alone.
ghost use Rattle.std.specs.Prelude.{◌≡◌, ◌≤◌, ◌%◌, ◌^◌};
ghost use Rattle.hash_c.specs.Common.{ℕ, List};
ghost use Rattle.std.proofs.Common.{lit≤};
ghost use Rattle.hash_c.specs.InWords.{of_murmur3, of_murmur3_32, of_siphash, of_xxh32, of_xxh64};

use hash_blocks::BlockRule;
use hash_blocks::murmur3::{Murmur3Rule32, Murmur3Rule128};
use hash_blocks::siphash::SipRule;
use hash_blocks::xxhash::{Lanes, Lanes32, Xxh32Rule, Xxh64Rule};

/// A rule of blocks of at most 32 bytes that keeps at most four words and a flag.
pub trait InWords<const N: usize>: BlockRule<N> {
    /// What is kept, from the words and the flag.
    ghost of_words: { List ℕ → ℕ → Self.State };

    /// What is kept, from the words and the flag.
    fn of_words(words: &[u64; 4], long: u64) -> Self::State
        ensures { result ≡ of_words words.now long };

    /// Sets the words of what is kept, and returns the flag.
    fn in_words(state: &Self::State, words: &mut [u64; 4]) -> u64
        ensures { of_words words.new result ≡ state.now };

    /// A block fits the buffer.
    ghost fits_buffer: { N ≤ 32 };
}

// The low half of a word.
#[inline(always)]
fn low(word: u64) -> u32
    ensures { result ≡ word % 2 ^ 32 }
{
    (word % 4294967296) as u32
}

impl InWords<16> for Xxh32Rule {
    ghost of_words = { of_xxh32 };

    #[inline(always)]
    fn of_words(words: &[u64; 4], long: u64) -> Lanes32 {
        let [a, b, c, d] = *words;
        Lanes32 {
            lanes: [low(a), low(b), low(c), low(d)],
            long: long != 0,
        }
    }

    #[inline(always)]
    fn in_words(state: &Lanes32, words: &mut [u64; 4]) -> u64 {
        let [a, b, c, d] = state.lanes;
        *words = [u64::from(a), u64::from(b), u64::from(c), u64::from(d)];
        u64::from(state.long)
    }

    ghost fits_buffer = { lit≤ tt };
}

impl InWords<32> for Xxh64Rule {
    ghost of_words = { of_xxh64 };

    #[inline(always)]
    fn of_words(words: &[u64; 4], long: u64) -> Lanes {
        Lanes {
            lanes: *words,
            long: long != 0,
        }
    }

    #[inline(always)]
    fn in_words(state: &Lanes, words: &mut [u64; 4]) -> u64 {
        *words = state.lanes;
        u64::from(state.long)
    }

    ghost fits_buffer = { lit≤ tt };
}

impl InWords<4> for Murmur3Rule32 {
    ghost of_words = { of_murmur3_32 };

    #[inline(always)]
    fn of_words(words: &[u64; 4], _long: u64) -> u32 {
        low(words[0])
    }

    #[inline(always)]
    fn in_words(state: &u32, words: &mut [u64; 4]) -> u64 {
        words[0] = u64::from(*state);
        0
    }

    ghost fits_buffer = { lit≤ tt };
}

impl InWords<16> for Murmur3Rule128 {
    ghost of_words = { of_murmur3 };

    #[inline(always)]
    fn of_words(words: &[u64; 4], _long: u64) -> (u64, u64) {
        (words[0], words[1])
    }

    #[inline(always)]
    fn in_words(state: &(u64, u64), words: &mut [u64; 4]) -> u64 {
        words[0] = state.0;
        words[1] = state.1;
        0
    }

    ghost fits_buffer = { lit≤ tt };
}

impl<const C: usize, const D: usize> InWords<8> for SipRule<C, D> {
    ghost of_words = { of_siphash };

    #[inline(always)]
    fn of_words(words: &[u64; 4], _long: u64) -> [u64; 4] {
        *words
    }

    #[inline(always)]
    fn in_words(state: &[u64; 4], words: &mut [u64; 4]) -> u64 {
        *words = *state;
        0
    }

    ghost fits_buffer = { lit≤ tt };
}
