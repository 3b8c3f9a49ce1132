//! The laws of lines and of sets of texts, with no code. A line ends with a byte, newline or another.
ghost use Rattle.std.specs.Prelude.{◌≡◌, ◌||◌, ◌++◌, ◌∷◌, [], ℕ, All, List, fold, true};
ghost use Rattle.std.specs.List.Sorted.{IsPermutation};
ghost use Rattle.std.specs.Str.{bytes_eq};
ghost use Rattle.text_set.specs.Firsts.{each_once_by, ComesBefore};
ghost use Rattle.text_set.specs.Lines.{line_texts, lines_by};
ghost use Rattle.text_set.specs.Texts.{EachOnce, StandsAt, has, with_text};

/// Of the lines of a text, each once, no two have the same text.
#[tactic(auto, using(crate::proofs::SetLemmas::written_once))]
pub fn each_text_stands_once()
    ensures { (eol : ℕ) (text : List ℕ) → EachOnce (line_texts eol (each_once_by eol text)) }
{}

/// The texts of the lines, each once, are those of all lines: none is lost, and none is made up.
#[tactic(auto, using(crate::proofs::SetLemmas::written_texts))]
pub fn exactly_the_texts_of_the_input()
    ensures { (eol : ℕ) (text line : List ℕ) → has (line_texts eol (each_once_by eol text)) line
        ≡ has (line_texts eol text) line }
{}

/// The texts stand in the order in which they came first.
#[tactic(auto, using(crate::proofs::SetLemmas::written_in_order))]
pub fn texts_keep_their_order()
    ensures { (eol : ℕ) (text line other : List ℕ) → ComesBefore (line_texts eol text) line other
        → ComesBefore (line_texts eol (each_once_by eol text)) line other }
{}

/// Lines that stand once are left as they are.
#[tactic(auto, using(crate::proofs::SetLemmas::written_twice))]
pub fn twice_changes_nothing()
    ensures { (eol : ℕ) (text : List ℕ) → each_once_by eol (each_once_by eol text) ≡ each_once_by eol text }
{}

/// Behind a line's end, the lines of more text are as they are alone.
#[tactic(auto, using(crate::proofs::LineLemmas::lines_joined))]
pub fn lines_of_joined_texts()
    ensures { (eol : ℕ) (text more : List ℕ) → lines_by eol ((text ++ eol ∷ []) ++ more)
        ≡ lines_by eol (text ++ eol ∷ []) ++ lines_by eol more }
{}

/// The first lines, each once, are a beginning of all lines, each once: of texts as in `lines_of_joined_texts`.
#[tactic(auto, using(crate::proofs::SetLemmas::written_first))]
pub fn more_lines_add_behind()
    ensures { (eol : ℕ) (text more : List ℕ)
        → lines_by eol (text ++ more) ≡ lines_by eol text ++ lines_by eol more
        → (rest : List ℕ) × (each_once_by eol (text ++ more) ≡ each_once_by eol text ++ rest) }
{}

/// The texts of the lines, each once, are those of a set that takes in the texts of all lines, in its order.
#[tactic(auto, using(crate::proofs::SetLemmas::lines_of_set))]
pub fn lines_once_are_a_set()
    ensures { (eol : ℕ) (text : List ℕ) → line_texts eol (each_once_by eol text)
        ≡ fold with_text [] (line_texts eol text) }
{}

/// Once a text is taken in, the set has this text and those that it had before.
#[tactic(auto, using(crate::proofs::SetLemmas::has_with))]
pub fn a_text_taken_in_is_there()
    ensures { (texts : List (List ℕ)) (text other : List ℕ) → has (with_text texts text) other
        ≡ (bytes_eq other text || has texts other) }
{}

/// Once texts are taken in, the set has these and those that it had before.
#[tactic(auto, using(crate::proofs::SetLemmas::has_all))]
pub fn texts_taken_in_are_there()
    ensures { (texts more : List (List ℕ)) (other : List ℕ) → has (fold with_text texts more) other
        ≡ (has texts other || has more other) }
{}

/// No text is taken in twice.
#[tactic(auto, using(crate::proofs::SetLemmas::once_with))]
pub fn texts_taken_in_stand_once()
    ensures { (texts more : List (List ℕ)) → EachOnce texts → EachOnce (fold with_text texts more) }
{}

/// A text keeps its place, whatever is taken in: so places number the texts.
pub fn texts_keep_their_places()
    ensures { (texts more : List (List ℕ)) (text : List ℕ) (place : ℕ) → StandsAt texts text place
        → StandsAt (fold with_text texts more) text place }
{}

/// Texts that are there add nothing.
#[tactic(auto, using(crate::proofs::SetLemmas::nothing_added))]
pub fn texts_that_are_there_add_nothing()
    ensures { (texts more : List (List ℕ)) → All (λ text. has texts text ≡ true) more
        → fold with_text texts more ≡ texts }
{}

/// Which texts a set has does not depend on the order in which it takes them in.
#[tactic(auto, using(crate::proofs::SetLemmas::has_in_any_order))]
pub fn order_does_not_show()
    ensures { (texts more other : List (List ℕ)) → IsPermutation more other → (text : List ℕ)
        → has (fold with_text texts more) text ≡ has (fold with_text texts other) text }
{}

/// Of texts in another order, the set has the same texts in another order.
#[tactic(auto, using(crate::proofs::SetLemmas::set_in_any_order))]
pub fn texts_in_another_order()
    ensures { (texts other : List (List ℕ)) → IsPermutation texts other
        → IsPermutation (fold with_text [] texts) (fold with_text [] other) }
{}

/// Of lines in another order, the lines, each once, are the same in another order.
#[tactic(auto, using(crate::proofs::SetLemmas::lines_in_any_order))]
pub fn lines_in_another_order()
    ensures { (eol : ℕ) (text other : List ℕ) → IsPermutation (line_texts eol text) (line_texts eol other)
        → IsPermutation (line_texts eol (each_once_by eol text)) (line_texts eol (each_once_by eol other)) }
{}
