//! The laws of hashes that are counted, with no code: how they fall into buckets, how many pairs of them are equal, and how many texts
//! there are.
ghost use Rattle.std.specs.Prelude.{◌≡◌, ◌≢◌, ◌↔◌, ◌<◌, ◌≤◌, ◌%◌, ◌^◌};
ghost use Rattle.hashers.specs.Common.{ℕ, List, length, sum, AllPairs};
ghost use Rattle.std.specs.List.Sorted.{IsPermutation};
ghost use Rattle.hash_laws.specs.Exactly.{ExactlyTexts};
ghost use Rattle.hashers.specs.Counts.{bucket_counts, collisions, in_bucket};

/// A law with no code: all buckets together have each hash once.
#[tactic(auto, using(crate::proofs::CountLemmas::sum_bucket_counts))]
pub fn buckets_have_all_hashes()
    ensures { (m : ℕ) (hashes : List ℕ) → 0 < m → sum (bucket_counts m hashes) ≡ length hashes }
{}

/// A law with no code: how many pairs of hashes are equal does not depend on their order.
#[tactic(auto, using(crate::proofs::CountLemmas::collisions_IsPermutation))]
pub fn collisions_in_any_order()
    ensures { (hashes others : List ℕ) → IsPermutation hashes others → collisions others ≡ collisions hashes }
{}

/// A law with no code: no pair of hashes is equal exactly where no two hashes are.
#[tactic(auto, using(crate::proofs::PairCounts::apart, crate::proofs::PairCounts::none_meet))]
pub fn no_collisions()
    ensures { (hashes : List ℕ) → (collisions hashes ≡ 0) ↔ AllPairs (λ a b. a ≢ b) hashes }
{}

/// A law with no code: no bucket has two hashes exactly where no two fall into one.
pub fn one_in_each_bucket()
    ensures { (m : ℕ) (hashes : List ℕ) → 0 < m → ((b : ℕ) → b < m → in_bucket m b hashes ≤ 1)
        ↔ AllPairs (λ a b. a % m ≢ b % m) hashes }
{}

/// A law with no code: there are 256^n texts of n bytes. So where a law counts the texts of a hash, this says of how many.
#[tactic(auto, using(crate::proofs::TextCounts::all_texts))]
pub fn texts_of_a_length()
    ensures { (n : ℕ) → ExactlyTexts (256 ^ n) n (λ text. Unit {0}) }
{}
