//! What a block-based hash that loses nothing has to define.
ghost use Rattle.std.specs.Prelude.{◌≡◌, ◌<◌};
ghost use Rattle.hash_theorems.specs.BlockCommon.{ℕ, List, length, BlockFacts};

use hash_blocks::BlockRule;

/// The second part, of a rule that loses nothing: a block can be undone, there is one block between any two states, and
/// one state with each answer.
pub trait BlockUndo<const N: usize>: BlockRule<N> {
    /// Holds of the numbers of a seed.
    ghost is_seed: { List ℕ → Type 0 };

    /// Holds of what is kept.
    ghost in_range: { Self.State → Type 0 };

    /// Holds of what is answered.
    ghost is_answer: { Self.Hash → Type 0 };

    /// What is kept before a block.
    ghost unblock: { Self.State → List ℕ → Self.State };

    /// The block that leads from one state to another.
    ghost between: { Self.State → Self.State → List ℕ };

    /// What is kept where the answer is this one.
    ghost unfinish: { Self.Hash → List ℕ → ℕ → Self.State };

    /// A law with no code: the numbers of a seed are in range.
    fn seed_in_range(seed: Self::Seed)
        ensures { is_seed (Self.numbers seed) };

    /// A law with no code: an answer is in range.
    fn answer_in_range(hash: Self::Hash)
        ensures { is_answer hash };

    /// One block back.
    fn unblock(state: &mut Self::State, bytes: &[u8; N])
        ensures { state.new ≡ unblock state.old bytes.now };

    /// The one block that leads from one state to another.
    fn between(from: &Self::State, to: &Self::State) -> [u8; N]
        ensures { result ≡ between from.now to.now };

    /// The one state that answers so.
    fn unfinish(hash: Self::Hash, left: &[u8], total: u64) -> Self::State
        requires { length left.now < N }
        ensures { result ≡ unfinish hash left.now total };

    /// All of them undo one another.
    ghost facts: { BlockFacts N is_seed in_range is_answer Self.start Self.block Self.finish unblock between unfinish };
}
