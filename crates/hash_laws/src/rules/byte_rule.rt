//! What a hash with a step per byte has to define.
ghost use Rattle.std.specs.Prelude.{◌≡◌, ◌≢◌, ◌<◌, ◌↔◌, ℕ, List, fold, IsSome, IfSome, IfNone};
ghost use Rattle.hash_laws.specs.StepFacts.{StepFacts};

/// The first part of a rule with a step per byte: what is kept, the start, and one byte on. The implementing type is a
/// name for the rule, and no value of it is made.
pub trait StepRule {
    /// What a hasher keeps: a word, or a word and a count beside it.
    type State: Drop;

    /// The number that the steps go on.
    ghost number: { Self.State → ℕ };

    /// The numbers are below it.
    ghost bound: { ℕ };

    /// What a default hasher keeps.
    ghost start: { Self.State };

    /// The number after one byte.
    ghost step: { ℕ → ℕ → ℕ };

    /// What a default hasher keeps.
    fn start() -> Self::State
        ensures { result ≡ start };

    /// The same state once more.
    fn fork(state: &Self::State) -> Self::State
        ensures { result ≡ state.now };

    /// One byte on.
    fn step(state: &mut Self::State, byte: u8)
        ensures stepped { number state.new ≡ step (number state.old) byte }
        ensures in_range { number state.new < bound };

    /// The start is in range.
    ghost start_in_range: { number start < bound };

    /// The step stays in range.
    ghost step_in_range: { (h b : ℕ) → h < bound → b < 256 → step h b < bound };
}

/// The second part of a rule with a step per byte: how a text is taken in, and what is answered.
pub trait ByteRule: StepRule {
    /// The number after a text.
    ghost after: { ℕ → List ℕ → ℕ };

    /// What a hasher keeps after one `write`.
    ghost write: { Self.State → List ℕ → Self.State };

    /// What a number answers.
    ghost answer: { ℕ → ℕ };

    /// The bytes in: mostly [`in_eights`](crate::rules::in_eights) of the rule.
    fn write(state: &mut Self::State, bytes: &[u8])
        ensures { state.new ≡ write state.old bytes.now };

    /// The answer.
    fn answer(state: &Self::State) -> u64
        ensures { result ≡ answer (Self.number state.now) };

    /// The answer to a whole text: of the start and one `write`, if the rule has no shorter way.
    #[inline(always)]
    fn whole(text: &[u8]) -> u64
        ensures { result ≡ answer (after (Self.number Self.start) text.now) }
    {
        let mut state = Self::start();
        Self::write(&mut state, text);
        Self::answer(&state)
    }

    /// The number after a text is the fold of the step.
    ghost is_fold: { (s : ℕ) (text : List ℕ) → s < Self.bound → after s text ≡ fold Self.step s text };

    /// A `write` leads to the number after its bytes.
    ghost write_is_after: { (s : Self.State) (text : List ℕ)
        → Self.number (write s text) ≡ after (Self.number s) text };
}

/// The third part, of a rule whose steps lose nothing: one byte back, and the answer's inverse.
pub trait UndoRule: ByteRule {
    /// One byte back.
    fn unstep(state: &mut Self::State, byte: u8)
        ensures back { Self.step (Self.number state.new) byte ≡ Self.number state.old }
        ensures in_range { Self.number state.new < Self.bound };

    /// The one state that answers so, or `None` exactly where the answer is not below the bound.
    fn unanswer(hash: u64) -> Option<Self::State>
        ensures exact { IsSome result ↔ (hash < Self.bound) }
        ensures some { IfSome result (λ s. Self.answer (Self.number s) ≡ hash) }
        ensures in_range { IfSome result (λ s. Self.number s < Self.bound) }
        ensures none { IfNone result ((s : ℕ) → s < Self.bound → Self.answer s ≢ hash) };

    /// The step stays in range and is injective, in the number and in the byte.
    ghost facts: { StepFacts Self.step Self.bound 256 };

    /// Different numbers answer differently.
    ghost answer_injective: { (s t : ℕ) → s < Self.bound → t < Self.bound → Self.answer s ≡ Self.answer t → s ≡ t };
}
