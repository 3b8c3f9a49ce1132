//! The law of what is read, with no code. What is written of the lines then is in the laws of `text_set`.
ghost use Rattle.std.specs.Prelude.{◌≡◌, true, ℕ, List, Option, map};
ghost use Rattle.std.specs.List.{flat_map};
ghost use Rattle.dedup_core.specs.Inputs.{AreRead};
ghost use Rattle.text_set.specs.Lines.{lines_by};

/// Of inputs that are known and were read to their ends the lines are those of each input, one after the other.
pub fn lines_of_whole_inputs()
    ensures { (eol : ℕ) (texts : List (List ℕ)) (lefts : List (Option (List ℕ))) (ls : List (List ℕ))
        → AreRead eol true (map Some texts) lefts ls → ls ≡ flat_map (lines_by eol) texts }
{}
