//! The law of all lists of reversible steps, of which the rounds are six.

ghost use Rattle.std.specs.Prelude.{◌≡◌, ℕ, List, length};
ghost use Rattle.hash_words.specs.Words.{AreWords};
ghost use Rattle.hash_rounds.specs.Steps.{Step, AreSteps, apply, undo};

/// Any list of steps, on words of any width, and the list of its opposites, last first, take one another back, on
/// all words. The words stay as many, and stay words. It computes nothing.
pub fn steps_undo_one_another()
    ensures undone { (w : ℕ) (steps : List Step) (d s : List ℕ)
        → AreSteps w (length s) (length d) steps → AreWords w d → AreWords w s
        → apply w (undo w steps) d (apply w steps d s) ≡ s }
    ensures redone { (w : ℕ) (steps : List Step) (d s : List ℕ)
        → AreSteps w (length s) (length d) steps → AreWords w d → AreWords w s
        → apply w steps d (apply w (undo w steps) d s) ≡ s }
    ensures kept { (w : ℕ) (steps : List Step) (d s : List ℕ)
        → AreSteps w (length s) (length d) steps → AreWords w s
        → (length (apply w steps d s) ≡ length s) × AreWords w (apply w steps d s) }
{}
