//! Laws of lines, with no code.
ghost use Rattle.std.specs.Prelude.{◌≡◌, ◌≢◌, ◌^◌, ◌<◌, ℕ, Bool, List, [], map, true};
ghost use Rattle.hash_lines.specs.Line.{digits_of, line_of};
ghost use Rattle.hash_lines.specs.Told.{AreTags, MayBeTold, Tells, TellsNothing, are_tags};
ghost use Rattle.hash_lines.specs.declared.line.Form.{Form};
ghost use Rattle.hash_lines.specs.Sums.{name_in, width_in};
ghost use Rattle.hash_lines.specs.declared.sums.Sum.{Sum};

/// A line that is written of a file's hash tells this hash of this file, in either form, with escapes or without, whatever the name
/// is, as long as it has a byte. The number is one of as many digits as the kind has.
pub fn written_lines_tell()
    ensures { (kinds : List Sum) (default kind : Sum) (form : Form) → MayBeTold kinds default form kind
        → (escapes : Bool) (name : List ℕ) (number : ℕ) → name ≢ [] → number < 16 ^ digits_of (width_in kind)
        → Tells kinds default kind name number (line_of form escapes kind name number) }
{}

/// A line tells one thing at most, where the kinds' names have no space and no backslash, and no two have the same name: so what
/// `parse_line` finds in a written line is what the line was written of.
pub fn a_line_tells_one_thing()
    ensures { (kinds : List Sum) (default : Sum) → AreTags kinds default
        → (kind other : Sum) (name more : List ℕ) (number count : ℕ) (line : List ℕ)
        → Tells kinds default kind name number line → Tells kinds default other more count line
        → (kind ≡ other) × (name ≡ more) × (number ≡ count) }
{}

/// A line that is written of a file's hash tells this and nothing else, so `parse_line` reads from it what `push_line` wrote: where the
/// kinds' names are tags, and the number has as many digits as its kind.
pub fn what_is_written_is_read()
    ensures { (kinds : List Sum) (default kind : Sum) (form : Form) → AreTags kinds default
        → MayBeTold kinds default form kind
        → (escapes : Bool) (name : List ℕ) (number : ℕ) → number < 16 ^ digits_of (width_in kind)
        → (other : Sum) (more : List ℕ) (count : ℕ)
        → Tells kinds default other more count (line_of form escapes kind name number)
        → (kind ≡ other) × (name ≡ more) × (number ≡ count) }
{}

/// A line that is written of no name tells nothing: the other half of `written_lines_tell`.
pub fn lines_of_no_name_tell_nothing()
    ensures { (kinds : List Sum) (default kind : Sum) (form : Form) → AreTags kinds default
        → MayBeTold kinds default form kind → (escapes : Bool) (number : ℕ) → number < 16 ^ digits_of (width_in kind)
        → TellsNothing kinds default (line_of form escapes kind [] number) }
{}

/// Kinds have tags, and no two have the same, where that is seen of their names.
pub fn tags_by_their_names()
    ensures { (kinds : List Sum) (default : Sum) → are_tags (map name_in kinds) ≡ true
        → AreTags kinds default }
{}
