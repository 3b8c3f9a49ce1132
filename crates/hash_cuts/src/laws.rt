//! Laws of chunks, with no code. Each is of all texts and all sizes that [`Cuts::new`](crate::Cuts::new) takes.
ghost use Rattle.std.specs.Prelude.{◌≡◌, ◌≢◌, ◌+◌, ◌-◌, ◌%◌, ◌^◌, ◌<◌, ◌≤◌, ◌∷◌, ◌++◌, ℕ, List, [], All, drop, length, map, take};
ghost use Rattle.std.specs.List.{concat};
ghost use Rattle.hashers.specs.Sums.{digit_sum};
ghost use Rattle.hash_cuts.specs.Cuts.{Cutting, HasSizes, chunk_ends, chunks, ends_from, first_cut};
ghost use Rattle.hash_cuts.specs.Gear.{gear_of};

/// The chunks joined are the text. Each has at most `most` bytes, and each but the last at least `least`.
pub fn chunks_are_the_text()
    ensures joined { (cuts : Cutting) (text : List ℕ) → HasSizes cuts → concat (chunks cuts text) ≡ text }
    ensures most { (cuts : Cutting) (text : List ℕ) → HasSizes cuts
        → All (λ chunk. length chunk ≤ cuts.most) (chunks cuts text) }
    ensures least { (cuts : Cutting) (text : List ℕ) → HasSizes cuts
        → All (λ chunk. cuts.least ≤ length chunk) (take (length (chunks cuts text) - 1) (chunks cuts text)) }
{}

/// The chunks of a text are its first one and those of the rest: what a loop over [`Cuts::chunks`](crate::Cuts::chunks) keeps.
pub fn first_chunk_and_the_rest()
    ensures { (cuts : Cutting) (text : List ℕ) → HasSizes cuts → 0 < length text → chunks cuts text
        ≡ take (first_cut cuts text) text ∷ chunks cuts (drop (first_cut cuts text) text) }
{}

/// A chunk that ends before the text does depends on its own bytes alone: whatever stands behind it, the first chunk is the same.
pub fn a_chunk_depends_on_its_bytes()
    ensures { (cuts : Cutting) (text other : List ℕ) → HasSizes cuts → first_cut cuts text < length text
        → first_cut cuts (take (first_cut cuts text) text ++ other) ≡ first_cut cuts text }
{}

/// In step again: where two texts end with the same bytes, and a chunk begins with these in both, all chunks from there on are the same.
pub fn in_step_again()
    ensures { (cuts : Cutting) (x y same : List ℕ) (xs xs' ys ys' : List (List ℕ)) → HasSizes cuts
        → chunks cuts (x ++ same) ≡ xs ++ xs' → concat xs ≡ x
        → chunks cuts (y ++ same) ≡ ys ++ ys' → concat ys ≡ y → xs' ≡ ys' }
{}

/// What comes behind a chunk's end changes no chunk before: these stay, and the chunks of the new end follow.
pub fn chunks_before_stay()
    ensures { (cuts : Cutting) (x old new : List ℕ) (xs others : List (List ℕ)) → HasSizes cuts
        → chunks cuts (x ++ old) ≡ xs ++ others → others ≢ [] → concat xs ≡ x
        → chunks cuts (x ++ new) ≡ xs ++ chunks cuts new }
{}

/// Where chunks end: those of a list end after the list before it, and from a place so much further on each end is as much further on.
pub fn ends_of_joined_lists()
    ensures joined { (place : ℕ) (xs ys : List (List ℕ))
        → ends_from place (xs ++ ys) ≡ ends_from place xs ++ ends_from (place + length (concat xs)) ys }
    ensures moved { (place more : ℕ) (xs : List (List ℕ))
        → ends_from (place + more) xs ≡ map (λ end. end + more) (ends_from place xs) }
{}

/// In step again, told by the ends: where a chunk ends before some last bytes of a text, the chunks after it end as those of these
/// bytes alone do, each that much further on. So the ends in two texts with the same last bytes keep one distance.
pub fn ends_in_step_again()
    ensures { (cuts : Cutting) (x same before after : List ℕ) → HasSizes cuts
        → chunk_ends cuts (x ++ same) ≡ before ++ length x ∷ after
        → after ≡ map (λ end. end + length x) (chunk_ends cuts same) }
{}

/// The gear hash is the sum of the bytes' numbers, each times a power of two, modulo 2^64. So the last 64 bytes decide it.
pub fn gear_is_a_sum()
    ensures sum { (number : ℕ → ℕ) (text : List ℕ)
        → gear_of number text ≡ digit_sum 2 (map number text) % 2 ^ 64 }
    ensures last { (number : ℕ → ℕ) (x last : List ℕ) → length last ≡ 64
        → gear_of number (x ++ last) ≡ gear_of number last }
{}
