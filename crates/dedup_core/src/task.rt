//! What is done with lines, one after the other.
ghost use Rattle.std.specs.Prelude.{ℕ, ◌≡◌, ◌∷◌, [], List, OnOk, OnErr};
ghost use Rattle.std.specs.Io.BufRead.{strip_last};
ghost use Rattle.dedup_core.specs.Taking.{At, Broke, Leads};

use crate::failure::Failure;
use std::io::Write;
use text_set::Guess;

/// What is done with lines, one after the other.
pub trait LineTask {
    /// How the task stands once it has taken these lines.
    ghost taken: { (eol : ℕ) → Self → List (List ℕ) → Type 0 };

    /// What it has written by then.
    ghost output: { (eol : ℕ) → List (List ℕ) → List ℕ };

    /// The tag that it makes of a text.
    ghost tag_of: { Self → List ℕ → ℕ };

    /// Whether it pays to guess for some lines before the first of them is taken. No result depends on it.
    fn waits_for_memory(&self) -> bool;

    /// The tag of the text, and a place at which it may be known. No result depends on the place.
    fn guess(&self, text: &[u8]) -> Guess
        ensures { result.tag ≡ tag_of self.now text.now };

    /// Takes a line, which has its end or is the last, and writes what is due, by its text and a guess for that. After a
    /// fault a beginning of what was due was written.
    fn take_line<W: Write>(
        &mut self,
        line: &[u8],
        text: &[u8],
        eol: u8,
        guess: Guess,
        w: &mut W,
    ) -> Result<(), Failure>
        requires text { text.now ≡ strip_last eol line.now }
        requires tag { guess.tag ≡ tag_of self.old text.now }
        requires stands { (ls : List (List ℕ)) × taken eol self.old ls }
        ensures tag_of { tag_of self.new ≡ tag_of self.old }
        ensures ok { OnOk result (Leads (At (output eol) (taken eol self.old) (W.contents w.old))
            (At (output eol) (taken eol self.new) (W.contents w.new)) (line.now ∷ [])) }
        ensures err { OnErr result (Leads (At (output eol) (taken eol self.old) (W.contents w.old))
            (Broke (output eol) (W.contents w.new)) (line.now ∷ [])) };
}
