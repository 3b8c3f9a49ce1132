//! The hasher of a rule with a step per byte.
ghost use Rattle.std.specs.Prelude.{◌≡◌, ◌<◌, ℕ, List, [], ◌∷◌, slice_index, refl};
ghost use Rattle.std.proofs.Common.{ap};
ghost use Rattle.hash_laws.specs.Standing.{StandsAt};
ghost use Rattle.hash_laws.specs.ByteLaws as bytewise;

use crate::rules::byte_rule::{ByteRule, UndoRule};
use crate::traits::{ByteStep, Piecewise, Streamed, Undo};
use std::hash::Hasher;
use std::marker::Model;

/// The hasher of a rule with a step per byte. Contracts see it as what it keeps: mostly its state, a number below the rule's bound.
pub struct ByteHasher<R: ByteRule> {
    state: R::State,
}

impl<R: ByteRule> Model for ByteHasher<R> {
    ghost use Rattle.std.specs.Prelude.{◌<◌};

    ghost Value = { R.State };

    ghost view = { λ h. h.state };

    ghost invariant = { λ h. R.number h.state < R.bound };
}

impl<R: ByteRule> Drop for ByteHasher<R> {
    fn drop(self) {
        let Self { state: _ } = self;
    }
}

impl<R: ByteRule> Default for ByteHasher<R> {
    ghost is_default = { λ h. h ≡ R.start };

    /// The hasher of no bytes.
    fn default() -> ByteHasher<R> {
        ByteHasher { state: R::start() }
    }
}

impl<R: ByteRule> Hasher for ByteHasher<R> {
    ghost write = { R.write };

    ghost finish = { λ h. R.answer (R.number h) };

    /// The rule's answer to the state, which stays as it is.
    #[inline(always)]
    fn finish(&self) -> u64
        ensures value { result ≡ R.answer (R.number self.now) }
        ensures in_range { R.number self.now < R.bound }
    {
        R::answer(&self.state)
    }

    /// Takes the bytes in, the rule's step for each.
    #[inline(always)]
    fn write(&mut self, bytes: &[u8])
        ensures value { self.new ≡ R.write self.old bytes.now }
        ensures state { R.number self.new ≡ R.after (R.number self.old) bytes.now }
        ensures in_range_before { R.number self.old < R.bound }
        ensures in_range_after { R.number self.new < R.bound }
    {
        R::write(&mut self.state, bytes);
    }
}

impl<R: ByteRule> Piecewise for ByteHasher<R> {
    ghost State = { ℕ };

    ghost state = { R.number };

    ghost in_range = { λ s. s < R.bound };

    ghost fresh = { R.number R.start };

    ghost after = { R.after };

    ghost answer = { R.answer };

    ghost hash_of = { λ text. R.answer (R.after (R.number R.start) text) };

    ghost first = { R.start };

    #[inline(always)]
    fn state_in_range(&self) {
        let _state = &self.state;
    }

    #[inline(always)]
    fn whole(text: &[u8]) -> u64 {
        R::whole(text)
    }

    #[inline(always)]
    fn fork(&self) -> ByteHasher<R> {
        ByteHasher {
            state: R::fork(&self.state),
        }
    }

    ghost default_is_first = { λ h same. same };

    ghost first_is_fresh = { refl };

    ghost hash_of_is = { λ text. refl };

    ghost write_feeds = { R.write_is_after };

    ghost finish_answers = { λ h. refl };

    ghost fresh_in_range = { R.start_in_range };

    ghost after_in_range = { bytewise.after_below R.step R.bound R.after R.is_fold R.step_in_range };

    ghost after_nothing = { λ s known. R.is_fold s [] known };
}

impl<R: ByteRule> Streamed for ByteHasher<R> {
    ghost start = { R.number R.start ∷ [] };

    ghost stands_at = { λ h. StandsAt R.after R.bound (R.number h) };

    ghost hash_from = { λ from text. R.answer (R.after (slice_index from 0) text) };

    ghost stands_at_start = { λ h. bytewise.stands_at_start R.step R.bound R.after R.is_fold
        (R.number R.start) R.start_in_range (R.number h) };

    ghost stands_after = { λ h k. bytewise.stands_after R.step R.bound R.after R.is_fold
        R.step_in_range (R.number h) (R.number k) };

    ghost after_joined = { bytewise.after_joined R.step R.bound R.after R.is_fold R.step_in_range };

    ghost hash_from_start = { λ text bytes. refl };

    ghost stands_answers = { λ h from text stood.
        ap R.answer (bytewise.stands_state R.after R.bound (R.number h) from text stood) };
}

impl<R: UndoRule> Undo for ByteHasher<R> {
    ghost is_answer = { λ answer. answer < R.bound };

    fn unwrite(&mut self, piece: &[u8]) {
        for byte in piece.iter().rev() {
            R::unstep(&mut self.state, *byte);
        }
    }

    fn unfinish(answer: u64) -> Option<ByteHasher<R>> {
        let state = R::unanswer(answer)?;
        Some(ByteHasher { state })
    }

    ghost after_injective = { bytewise.after_injective R.step R.bound R.after R.is_fold
        R.facts.in_range R.facts.state_injective };

    ghost answer_injective = { R.answer_injective };
}

impl<R: UndoRule> ByteStep for ByteHasher<R> {
    ghost own_start = { λ h. R.number h ∷ [] };

    #[inline(always)]
    fn step(&mut self, byte: u8)
        ensures exact { R.number self.new ≡ R.step (R.number self.old) byte }
        ensures state { R.number self.new ≡ R.after (R.number self.old) (byte ∷ []) }
        ensures in_range_before { R.number self.old < R.bound }
        ensures in_range_after { R.number self.new < R.bound }
    {
        R::step(&mut self.state, byte);
    }

    #[inline(always)]
    fn unstep(&mut self, byte: u8)
        ensures exact { R.step (R.number self.new) byte ≡ R.number self.old }
        ensures back { R.after (R.number self.new) (byte ∷ []) ≡ R.number self.old }
        ensures undone { (s : ℕ) → s < R.bound
            → R.after s (byte ∷ []) ≡ R.number self.old → R.number self.new ≡ s }
        ensures in_range_before { R.number self.old < R.bound }
        ensures in_range_after { R.number self.new < R.bound }
    {
        R::unstep(&mut self.state, byte);
    }

    ghost in_steps = { bytewise.in_steps R.step R.bound R.after R.is_fold R.facts.in_range };

    ghost byte_injective = { bytewise.byte_injective R.step R.bound R.after R.is_fold R.facts.item_injective };

    ghost stands_at_own_start = { λ h known. bytewise.stands_at_start R.step R.bound R.after R.is_fold
        (R.number h) known (R.number h) refl };
}
