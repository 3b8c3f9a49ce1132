//! What a hash with a step per byte has to define whose state is one word.
ghost use Rattle.std.specs.Prelude.{◌≡◌, ◌≢◌, ◌<◌, ◌↔◌, ℕ, IsSome, IfSome, IfNone, refl};
ghost use Rattle.std.proofs.Common.{subst, sym};
ghost use Rattle.hash_laws.specs.StepFacts.{StepFacts};
ghost use Rattle.hash_laws.specs.Recurrence.{recurrence};
ghost use Rattle.hash_laws.specs.RecurrenceLaws.{recurrence_is_fold};

use crate::rules::byte_rule::{ByteRule, StepRule, UndoRule};
use crate::rules::texts::{alone_or_in_eights, in_eights, whole_text};
use std::marker::PhantomData;

/// A word that is kept.
pub trait Word: Copy + Drop {
    /// The number that a word is.
    ghost number: { Self → ℕ };

    /// The word that a number is.
    ghost word_of: { ℕ → Self };

    /// A word is that of its number.
    ghost word_of_number: { (word : Self) → word_of (number word) ≡ word };

    /// A number is that of its word.
    ghost number_of_word: { (n : ℕ) → number (word_of n) ≡ n };
}

impl Word for u32 {
    ghost number = { λ word. word };

    ghost word_of = { λ n. n };

    ghost word_of_number = { λ word. refl };

    ghost number_of_word = { λ n. refl };
}

impl Word for u64 {
    ghost number = { λ word. word };

    ghost word_of = { λ n. n };

    ghost word_of_number = { λ word. refl };

    ghost number_of_word = { λ n. refl };
}

/// A rule that keeps one word: its start, one byte on, and the answer. The implementing type is a name for the rule, and no
/// value of it is made.
pub trait PlainRule {
    /// What is kept.
    type Word: Word;

    /// Whether a `write` of a single byte has a way of its own. No result depends on it: where single bytes come often it saves
    /// the loop, and other lengths pay a test.
    const ALONE: bool;

    /// The numbers are below it.
    ghost bound: { ℕ };

    /// The number of no bytes.
    ghost start: { ℕ };

    /// The number after one byte.
    ghost step: { ℕ → ℕ → ℕ };

    /// What a number answers.
    ghost answer: { ℕ → ℕ };

    /// The word of no bytes.
    fn start() -> Self::Word
        ensures { Self.Word.number result ≡ start };

    /// One byte on.
    fn step(word: Self::Word, byte: u8) -> Self::Word
        ensures stepped { Self.Word.number result ≡ step (Self.Word.number word) byte }
        ensures in_range { Self.Word.number result < bound };

    /// The answer.
    fn answer(word: Self::Word) -> u64
        ensures { result ≡ answer (Self.Word.number word) };

    /// The start is in range.
    ghost start_in_range: { start < bound };

    /// The step stays in range.
    ghost step_in_range: { (h b : ℕ) → h < bound → b < 256 → step h b < bound };
}

/// The second part, of a rule whose steps lose nothing: one byte back, and the answer's inverse.
pub trait PlainUndo: PlainRule {
    /// One byte back.
    fn unstep(word: Self::Word, byte: u8) -> Self::Word
        ensures back { Self.step (Self.Word.number result) byte ≡ Self.Word.number word }
        ensures in_range { Self.Word.number result < Self.bound };

    /// The one word that answers so, or `None` exactly where the answer is not below the bound.
    fn unanswer(hash: u64) -> Option<Self::Word>
        ensures exact { IsSome result ↔ (hash < Self.bound) }
        ensures some { IfSome result (λ word. Self.answer (Self.Word.number word) ≡ hash) }
        ensures in_range { IfSome result (λ word. Self.Word.number word < Self.bound) }
        ensures none { IfNone result ((s : ℕ) → s < Self.bound → Self.answer s ≢ hash) };

    /// The step stays in range and is injective, in the number and in the byte.
    ghost facts: { StepFacts Self.step Self.bound 256 };

    /// Different numbers answer differently.
    ghost answer_injective: { (s t : ℕ) → s < Self.bound → t < Self.bound → Self.answer s ≡ Self.answer t → s ≡ t };
}

/// The rule with a step per byte that a plain rule is: the number after a text is the recurrence of the step.
pub struct Plain<R> {
    rule: PhantomData<R>,
}

impl<R: PlainRule> StepRule for Plain<R> {
    type State = R::Word;

    ghost number = { R.Word.number };

    ghost bound = { R.bound };

    ghost start = { R.Word.word_of R.start };

    ghost step = { R.step };

    #[inline(always)]
    fn start() -> R::Word {
        R::start()
    }

    #[inline(always)]
    fn fork(state: &R::Word) -> R::Word {
        *state
    }

    #[inline(always)]
    fn step(state: &mut R::Word, byte: u8) {
        *state = R::step(*state, byte);
    }

    ghost start_in_range = { subst (λ n. n < R.bound) (sym (R.Word.number_of_word R.start)) R.start_in_range };

    ghost step_in_range = { R.step_in_range };
}

impl<R: PlainRule> ByteRule for Plain<R> {
    ghost after = { recurrence R.step };

    ghost write = { λ s text. R.Word.word_of (recurrence R.step (R.Word.number s) text) };

    ghost answer = { R.answer };

    #[inline(always)]
    fn write(state: &mut R::Word, bytes: &[u8]) {
        if R::ALONE {
            alone_or_in_eights::<Plain<R>>(state, bytes);
        } else {
            in_eights::<Plain<R>>(state, bytes);
        }
    }

    #[inline(always)]
    fn answer(state: &R::Word) -> u64 {
        R::answer(*state)
    }

    #[inline(always)]
    fn whole(text: &[u8]) -> u64 {
        whole_text::<R>(text)
    }

    ghost is_fold = { recurrence_is_fold R.step R.bound };

    ghost write_is_after = { λ s text. R.Word.number_of_word (recurrence R.step (R.Word.number s) text) };
}

impl<R: PlainUndo> UndoRule for Plain<R> {
    #[inline(always)]
    fn unstep(state: &mut R::Word, byte: u8) {
        *state = R::unstep(*state, byte);
    }

    #[inline(always)]
    fn unanswer(hash: u64) -> Option<R::Word> {
        R::unanswer(hash)
    }

    ghost facts = { R.facts };

    ghost answer_injective = { R.answer_injective };
}
