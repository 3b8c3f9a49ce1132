//! The hasher of fx, over words of either width.
ghost use Rattle.std.specs.Prelude.{◌≡◌, ◌^◌, ◌<◌, ℕ, List, refl};
ghost use Rattle.std.proofs.Common.{ap, subst, sym};
ghost use Rattle.std.proofs.lemmas.Nat.{pow_pos};
ghost use Rattle.hash_laws.proofs.ItemLemmas as itemwise;
ghost use Rattle.hash_laws.specs.RecurrenceLaws.{recurrence-fold};
ghost use Rattle.hash_laws.specs.Recurrence.{recurrence};

use crate::word::{FxSplit, FxWord};
use hash_laws::rules::Word;
use hash_laws::traits::{Piecewise, Undo};
use std::hash::Hasher;
use std::marker::{Model, PhantomData};

/// The hasher of fx over words of a width: each piece is split into words by itself, each word takes the state one step, and the
/// answer is the state. Contracts see the hasher as its state, a number below 2 to the power of the width. The second parameter
/// is a name alone: types of one width under different names are different types.
pub struct WordHasher<W: FxSplit, Name = W> {
    state: W,
    name: PhantomData<Name>,
}

impl<W: FxSplit, Name> Model for WordHasher<W, Name> {
    ghost use Rattle.std.specs.Prelude.{◌^◌, ◌<◌};

    ghost Value = { W };

    ghost view = { λ h. h.state };

    ghost invariant = { λ h. W.number h.state < 2 ^ W.bits };
}

impl<W: FxSplit, Name> Drop for WordHasher<W, Name> {
    fn drop(self) {
        let Self { state: _, name: _ } = self;
    }
}

impl<W: FxSplit, Name> Default for WordHasher<W, Name> {
    ghost is_default = { λ h. h ≡ W.word_of 0 };

    /// The hasher of no words.
    fn default() -> WordHasher<W, Name> {
        WordHasher {
            state: W::byte(0),
            name: PhantomData,
        }
    }
}

impl<W: FxSplit, Name> Hasher for WordHasher<W, Name> {
    ghost write = { λ h piece. W.word_of (recurrence W.step (W.number h) (W.words piece)) };

    ghost finish = { W.number };

    /// The state, widened.
    #[inline(always)]
    fn finish(&self) -> u64
        ensures value { result ≡ W.number self.now }
        ensures in_range { W.number self.now < 2 ^ W.bits }
    {
        self.state.widened()
    }

    /// Takes the words of the piece in. Each write is split by itself.
    #[inline(always)]
    fn write(&mut self, piece: &[u8])
        ensures value { self.new ≡ W.word_of (recurrence W.step (W.number self.old) (W.words piece.now)) }
        ensures state { W.number self.new ≡ recurrence W.step (W.number self.old) (W.words piece.now) }
        ensures in_range_before { W.number self.old < 2 ^ W.bits }
        ensures in_range_after { W.number self.new < 2 ^ W.bits }
    {
        self.state = self.state.words_in(piece).known();
    }
}

impl<W: FxSplit, Name> Piecewise for WordHasher<W, Name> {
    ghost State = { ℕ };

    ghost state = { W.number };

    ghost in_range = { λ s. s < 2 ^ W.bits };

    ghost fresh = { 0 };

    ghost after = { λ s piece. recurrence W.step s (W.words piece) };

    ghost answer = { λ s. s };

    ghost hash_of = { λ text. recurrence W.step 0 (W.words text) };

    ghost first = { W.word_of 0 };

    #[inline(always)]
    fn state_in_range(&self) {
        let _state = &self.state;
    }

    #[inline(always)]
    fn whole(text: &[u8]) -> u64 {
        W::whole(text)
    }

    #[inline(always)]
    fn fork(&self) -> WordHasher<W, Name> {
        WordHasher {
            state: self.state,
            name: PhantomData,
        }
    }

    ghost default_is_first = { λ h same. same };

    ghost first_is_fresh = { W.number_of_word 0 };

    ghost hash_of_is = { λ text. refl };

    ghost write_feeds = { λ h piece. W.number_of_word _ };

    ghost finish_answers = { λ h. refl };

    ghost fresh_in_range = { pow_pos W.bits };

    ghost after_in_range = { itemwise.piece_in_range W.step (2 ^ W.bits)
        (λ s piece. recurrence W.step s (W.words piece)) W.words
        (λ s piece. recurrence-fold W.step s (W.words piece)) W.facts.in_range W.words_in_range };

    ghost after_nothing = { itemwise.nothing W.step (2 ^ W.bits) (λ s piece. recurrence W.step s (W.words piece))
        W.words
        (λ s piece. recurrence-fold W.step s (W.words piece)) W.no_words };
}

impl<W: FxSplit, Name> Undo for WordHasher<W, Name> {
    ghost is_answer = { λ answer. answer < 2 ^ W.bits };

    /// Takes the words of the piece out, from the last to the first.
    #[inline(always)]
    fn unwrite(&mut self, piece: &[u8]) {
        self.state = self.state.words_out(piece).known();
    }

    fn unfinish(answer: u64) -> Option<WordHasher<W, Name>> {
        let state = W::narrowed(answer)?;
        Some(WordHasher {
            state,
            name: PhantomData,
        })
    }

    ghost after_injective = { itemwise.piece_injective W.step (2 ^ W.bits)
        (λ s piece. recurrence W.step s (W.words piece)) W.words
        (λ s piece. recurrence-fold W.step s (W.words piece))
        W.facts.in_range W.words_in_range W.facts.state_injective };

    ghost answer_injective = { λ s t ks kt same. same };
}

impl<W: FxSplit, Name> WordHasher<W, Name> {
    /// Takes one word out again: the inverse of the write of a number of the width, both ways, on every state.
    #[inline(always)]
    pub fn unwrite_word(&mut self, word: W)
        ensures back { W.step (W.number self.new) (W.number word) ≡ W.number self.old }
        ensures undone { (s : ℕ) → s < 2 ^ W.bits
            → W.step s (W.number word) ≡ W.number self.old → W.number self.new ≡ s }
        ensures in_range_before { W.number self.old < 2 ^ W.bits }
        ensures in_range_after { W.number self.new < 2 ^ W.bits }
    {
        self.state = self.state.word_out(word.known());
    }

    /// The one word whose write leads from here to the answer: the write of a number of the width.
    #[inline(always)]
    pub fn word_for(&self, answer: W) -> W
        ensures leads { W.step (W.number self.now) (W.number result) ≡ W.number answer }
        ensures alone { (word : ℕ) → word < 2 ^ W.bits
            → W.step (W.number self.now) word ≡ W.number answer → word ≡ W.number result }
        ensures in_range { W.number result < 2 ^ W.bits }
    {
        self.state.word_to(answer).known()
    }
}
