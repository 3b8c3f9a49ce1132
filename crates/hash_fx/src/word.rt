//! A word of fx, and what depends on its width.
ghost use Rattle.std.specs.Prelude.{◌≡◌, ◌<◌, ◌^◌, ◌↔◌, ℕ, List, [], All, length, IsSome, IfSome};
ghost use Rattle.hash_words.specs.Words.{le};
ghost use Rattle.hash_laws.specs.StepFacts.{StepFacts};
ghost use Rattle.hash_laws.specs.Recurrence.{recurrence};
ghost use Rattle.hash_laws.specs.Text.{IsText};
ghost use Rattle.hash_fx.specs.Fx.{fx32_step, fx64_step, words32, words64};
ghost use Rattle.hash_fx.specs.FxLaws.{words32-fit, words32-length, words32-nil, words64-fit, words64-length, words64-nil};
ghost use Rattle.hash_fx.specs.FxStepLaws.{fx32_facts, fx64_facts};

use crate::words::{eights_in, eights_out, fours_and_bytes_in, fours_and_bytes_out};
use hash_laws::rules::Word;
use hash_words::{le_four, rotl32, rotl64};

/// A word of fx: a state, or what takes a state one step.
pub trait FxWord: Word {
    /// The numbers have so many bits.
    ghost bits: { ℕ };

    /// The number after one word.
    ghost step: { ℕ → ℕ → ℕ };

    /// The word itself, of which generic code learns here that it is in range.
    fn known(self) -> Self
        ensures same { result ≡ self }
        ensures in_range { Self.number self < 2 ^ bits };

    /// One word in: the state turned by five bits, the word xored in, times the key of the width.
    fn word_in(self, word: Self) -> Self
        ensures { Self.number result ≡ step (Self.number self) (Self.number word) };

    /// One word out again: times what undoes the key, the word xored out, turned back.
    fn word_out(self, word: Self) -> Self
        ensures back { step (Self.number result) (Self.number word) ≡ Self.number self }
        ensures in_range { Self.number result < 2 ^ bits };

    /// The one word that takes the state to another: times what undoes the key, and the turned state xored out.
    fn word_to(self, to: Self) -> Self
        ensures { step (Self.number self) (Self.number result) ≡ Self.number to };

    /// A byte as a word.
    fn byte(byte: u8) -> Self
        ensures { Self.number result ≡ byte };

    /// Four bytes as a word, the lowest first.
    fn four(bytes: &[u8; 4]) -> Self
        ensures { Self.number result ≡ le bytes.now };

    /// The word, widened.
    fn widened(self) -> u64
        ensures { result ≡ Self.number self };

    /// The word that is so when widened, or `None` exactly where there is none.
    fn narrowed(hash: u64) -> Option<Self>
        ensures exact { IsSome result ↔ (hash < 2 ^ bits) }
        ensures some { IfSome result (λ s. Self.number s ≡ hash) };

    /// The step stays in range and is injective, in the state and in the word.
    ghost facts: { StepFacts step (2 ^ bits) (2 ^ bits) };
}

/// How a piece is split into words of one width.
pub trait FxSplit: FxWord {
    /// The words of a piece.
    ghost words: { List ℕ → List ℕ };

    /// The words of a piece in.
    fn words_in(self, piece: &[u8]) -> Self
        ensures { Self.number result ≡ recurrence Self.step (Self.number self) (words piece.now) };

    /// The answer to a whole text.
    fn whole(text: &[u8]) -> u64
        ensures { result ≡ recurrence Self.step 0 (words text.now) };

    /// The words of a piece out again, from the last to the first.
    fn words_out(self, piece: &[u8]) -> Self
        ensures { recurrence Self.step (Self.number result) (words piece.now) ≡ Self.number self };

    /// Pieces of one length have as many words.
    ghost words_length: { (x y : List ℕ) → length x ≡ length y → length (words x) ≡ length (words y) };

    /// The words of a piece are in range.
    ghost words_in_range: { (piece : List ℕ) → IsText piece → All (λ v. v < 2 ^ Self.bits) (words piece) };

    /// No bytes are no words.
    ghost no_words: { words [] ≡ [] };
}

impl FxWord for u32 {
    ghost bits = { 32 };

    ghost step = { fx32_step };

    #[inline(always)]
    fn known(self) -> u32 {
        self
    }

    #[inline(always)]
    fn word_in(self, word: u32) -> u32 {
        (rotl32(self, 5) ^ word).wrapping_mul(0x27220a95)
    }

    #[inline(always)]
    fn word_out(self, word: u32) -> u32 {
        rotl32(self.wrapping_mul(0x780970bd) ^ word, 27)
    }

    #[inline(always)]
    fn word_to(self, to: u32) -> u32 {
        to.wrapping_mul(0x780970bd) ^ rotl32(self, 5)
    }

    #[inline(always)]
    fn byte(byte: u8) -> u32 {
        u32::from(byte)
    }

    #[inline(always)]
    fn four(bytes: &[u8; 4]) -> u32 {
        le_four(bytes)
    }

    #[inline(always)]
    fn widened(self) -> u64 {
        u64::from(self)
    }

    fn narrowed(hash: u64) -> Option<u32> {
        u32::try_from(hash).ok()
    }

    ghost facts = { fx32_facts };
}

impl FxWord for u64 {
    ghost bits = { 64 };

    ghost step = { fx64_step };

    #[inline(always)]
    fn known(self) -> u64 {
        self
    }

    #[inline(always)]
    fn word_in(self, word: u64) -> u64 {
        (rotl64(self, 5) ^ word).wrapping_mul(0x517cc1b727220a95)
    }

    #[inline(always)]
    fn word_out(self, word: u64) -> u64 {
        rotl64(self.wrapping_mul(0x2040003d780970bd) ^ word, 59)
    }

    #[inline(always)]
    fn word_to(self, to: u64) -> u64 {
        to.wrapping_mul(0x2040003d780970bd) ^ rotl64(self, 5)
    }

    #[inline(always)]
    fn byte(byte: u8) -> u64 {
        u64::from(byte)
    }

    #[inline(always)]
    fn four(bytes: &[u8; 4]) -> u64 {
        u64::from(le_four(bytes))
    }

    #[inline(always)]
    fn widened(self) -> u64 {
        self
    }

    fn narrowed(hash: u64) -> Option<u64> {
        Some(hash)
    }

    ghost facts = { fx64_facts };
}

impl FxSplit for u32 {
    ghost words = { words32 };

    #[inline(always)]
    fn words_in(self, piece: &[u8]) -> u32 {
        fours_and_bytes_in(self, piece)
    }

    #[inline(always)]
    fn whole(text: &[u8]) -> u64 {
        u64::from(fours_and_bytes_in(0u32, text))
    }

    #[inline(always)]
    fn words_out(self, piece: &[u8]) -> u32 {
        fours_and_bytes_out(self, piece)
    }

    ghost words_length = { words32-length };

    ghost words_in_range = { words32-fit };

    ghost no_words = { words32-nil };
}

impl FxSplit for u64 {
    ghost words = { words64 };

    #[inline(always)]
    fn words_in(self, piece: &[u8]) -> u64 {
        let (eights, rest) = piece.as_chunks::<8>();
        fours_and_bytes_in(eights_in(self, eights), rest)
    }

    /// Whole words alone have a way of their own, with nothing else on it.
    #[inline(always)]
    fn whole(text: &[u8]) -> u64 {
        let (eights, rest) = text.as_chunks::<8>();
        let state = eights_in(0, eights);
        if rest.is_empty() {
            state
        } else {
            fours_and_bytes_in(state, rest)
        }
    }

    #[inline(always)]
    fn words_out(self, piece: &[u8]) -> u64 {
        let (eights, rest) = piece.as_chunks::<8>();
        eights_out(fours_and_bytes_out(self, rest), eights)
    }

    ghost words_length = { words64-length };

    ghost words_in_range = { words64-fit };

    ghost no_words = { words64-nil };
}
