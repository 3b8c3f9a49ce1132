//! Two polynomial hashes of one text, at two keys: a fingerprint of 122 bits, to compare texts by where nobody may forge one. For two
//! texts of up to n bytes, at most (n / 7 + 2)^2 of the 2^122 pairs of keys give them one fingerprint (`few_pairs_for_two_texts`).
ghost use Rattle.std.specs.Prelude.{◌≡◌, ◌%◌, ◌++◌, ◌∷◌};
ghost use Rattle.hash_keyed.specs.Common.{ℕ, List, [], refl, prime61, Position, as_word, default_key, poly61, poly61_from, poly_end, hash_from_key, poly61-is};
ghost use Rattle.std.proofs.Common.{lit<};
ghost use Rattle.hash_keyed.specs.Poly61Pair.{after_both, after_write, at_both, pair_at, IsPair, PairStandsAt, StandAt};
ghost use Rattle.hash_keyed.specs.Poly61PairLaws.{IsPair-start, IsPair-after, after_both-append, pair_answers, pair_at_keys, pair_stands_after};

use crate::poly61::{Poly61Hasher, poly61};
use hashers::laws::{Piecewise, Streamed};
use std::hash::Hasher;

/// The hashes of a text at two keys, over the text in parts.
#[derive(Drop)]
pub struct Poly61Pair {
    first: Poly61Hasher,
    second: Poly61Hasher,
}

impl Poly61Pair {
    /// Of no bytes, at two keys: any numbers, of which the remainders modulo the prime count.
    pub fn new(first: u64, second: u64) -> Poly61Pair
        ensures { StandAt result (first % prime61) (second % prime61) [] }
    {
        Poly61Pair {
            first: Poly61Hasher::new(first),
            second: Poly61Hasher::new(second),
        }
    }

    /// Both hashes of the bytes so far. More may be written afterwards.
    pub fn finish(&self) -> (u64, u64)
        ensures { (first second : ℕ) (text : List ℕ) → StandAt self.now first second text
            → result ≡ (poly61 first text, poly61 second text) }
    {
        (self.first.finish(), self.second.finish())
    }
}

impl Default for Poly61Pair {
    ghost is_default = { λ pair. pair ≡ pair_at default_key default_key };

    /// That of no bytes, at fixed keys, which everybody knows.
    fn default() -> Poly61Pair {
        Poly61Pair {
            first: Poly61Hasher::default(),
            second: Poly61Hasher::default(),
        }
    }
}

impl Hasher for Poly61Pair {
    ghost write = { after_write };

    ghost finish = { λ pair. as_word (poly_end pair.first) };

    /// The hash at the first key.
    fn finish(&self) -> u64
        ensures value { result ≡ as_word (poly_end self.now.first) }
        ensures in_range { IsPair (at_both self.now) }
    {
        self.state_in_range();
        self.first.finish()
    }

    /// Takes the bytes in.
    fn write(&mut self, bytes: &[u8])
        ensures written { self.new ≡ after_write self.old bytes.now }
        ensures stands { (first second : ℕ) (text : List ℕ) → StandAt self.old first second text
            → StandAt self.new first second (text ++ bytes.now) }
        ensures in_range_before { IsPair (at_both self.old) }
        ensures in_range_after { IsPair (at_both self.new) }
    {
        self.first.write(bytes);
        self.second.write(bytes);
    }
}

impl Piecewise for Poly61Pair {
    ghost State = { Position × Position };

    ghost state = { at_both };

    ghost in_range = { IsPair };

    ghost fresh = { at_both (pair_at default_key default_key) };

    ghost after = { after_both };

    ghost answer = { λ at. as_word (poly_end at.0) };

    ghost hash_of = { poly61 default_key };

    ghost first = { pair_at default_key default_key };

    #[inline(always)]
    fn state_in_range(&self) {
        self.first.state_in_range();
        self.second.state_in_range();
    }

    #[inline(always)]
    fn answer(&self) -> u64 {
        Hasher::finish(self)
    }

    fn fork(&self) -> Poly61Pair {
        Poly61Pair {
            first: self.first.fork(),
            second: self.second.fork(),
        }
    }

    ghost default_is_first = { λ pair same. same };

    ghost first_is_fresh = { refl };

    ghost hash_of_is = { poly61-is default_key };

    ghost write_feeds = { λ pair piece. refl };

    ghost finish_answers = { λ pair. refl };

    ghost fresh_in_range = { IsPair-start default_key default_key (lit< tt) (lit< tt) };

    ghost after_in_range = { IsPair-after };

    ghost after_nothing = { λ at is. refl };
}

impl Streamed for Poly61Pair {
    ghost start = { default_key ∷ default_key ∷ [] };

    ghost stands_at = { λ pair. PairStandsAt (at_both pair) };

    ghost hash_from = { poly61_from };

    ghost stands_at_start = { λ pair same. pair_at_keys (at_both pair) default_key default_key (lit< tt) (lit< tt)
        same };

    ghost stands_after = { λ pair more. pair_stands_after (at_both pair) (at_both more) };

    ghost after_joined = { after_both-append };

    ghost hash_from_start = { hash_from_key default_key };

    ghost stands_answers = { λ pair. pair_answers (at_both pair) };
}

/// Both hashes of a text.
pub fn poly61_pair(first: u64, second: u64, text: &[u8]) -> (u64, u64)
    ensures { result ≡ (poly61 (first % prime61) text.now, poly61 (second % prime61) text.now) }
{
    (poly61(first, text), poly61(second, text))
}
