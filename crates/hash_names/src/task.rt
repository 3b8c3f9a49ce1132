//! What a program does with a hash of the table.
ghost use Rattle.std.specs.Prelude.{◌≡◌, ℕ, List};
ghost use Rattle.hash_laws.specs.Text.{IsText};
ghost use Rattle.hash_names.specs.Named.{pieced};

use hash_laws::traits::{Piecewise, Streamed};

/// What a program does with a hash. The implementing type is a name for the task, and no value of it is made.
pub trait HashTask {
    /// What the task is told, as a limit.
    type Told: Copy;

    /// What it works on, as a reader.
    type Input;

    /// What comes of it.
    type Outcome: Drop;

    /// What came of the task by a hash of texts in one call, and the hash of texts that are read: what it was told, the input
    /// before and after, and the outcome.
    ghost by: { (hash read : List ℕ → ℕ) → Self.Told → Self.Input → Self.Input → Self.Outcome → Type 0 };

    /// By a hasher to which cuts don't show.
    fn by_text<H: Streamed>(told: Self::Told, input: &mut Self::Input) -> Self::Outcome
        ensures { by H.hash_of H.hash_of told input.old input.new result };

    /// By a hasher to which cuts may show, and which is fed pieces of 4096 bytes where the task reads.
    fn by_pieces<H: Piecewise>(told: Self::Told, input: &mut Self::Input) -> Self::Outcome
        ensures { by H.hash_of (pieced H.after H.fresh H.answer) told input.old input.new result };

    /// Of the hash of texts that are read, only what it makes of each text counts.
    ghost by_same: { (hash read same : List ℕ → ℕ) → ((text : List ℕ) → IsText text → read text ≡ same text)
        → (told : Self.Told) (before after : Self.Input) (outcome : Self.Outcome)
        → by hash read told before after outcome → by hash same told before after outcome };
}
