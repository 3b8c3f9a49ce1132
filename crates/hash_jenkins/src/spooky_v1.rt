//! Version 1 of SpookyHash: what the crate hashers 1.0.1 computes, kept for values that were stored. It leaves the length of a text
//! below 192 bytes out, so that zeros at its end don't show; from 192 bytes on it is SpookyHash.
ghost use Rattle.std.specs.Prelude.{◌≡◌, ◌∷◌, ◌++◌};
ghost use Rattle.hash_jenkins.specs.Common.{ℕ, List, [], refl, slice_index, Position, position, after, hash_v1, spooky_v1, IsPosition, SpookyStandsAt, spooky_v1_from, IsPosition-fresh, IsPosition-after, after-nil, after-append, stands_at_seeds, stands_after, hash_v1_from_seeds, answer_v1_where_stands};
ghost use Rattle.std.proofs.Common.{lit<, sym};

use crate::spooky_parts::SpookyParts;
use hash_laws::traits::{Piecewise, Streamed};
use std::hash::Hasher;
use std::marker::Model;

/// SpookyHash by version 1, that of the crate hashers 1.0.1, of a text that comes piece by piece (after Bob Jenkins,
/// burtleburtle.net/bob/hash/spooky.html).
///
/// `finish` returns the first word of the hash of all bytes so far, and `finish128` both. The split into writes does
/// not matter. No write can be undone. Contracts see the `Position` of a [`SpookyHasher`](crate::spooky_hash::SpookyHasher) of the same
/// bytes.
///
/// Of `a` under two seeds of 0 the hash is 16932945748884078726.
pub struct SpookyV1Hasher {
    parts: SpookyParts,
}

impl Model for SpookyV1Hasher {
    ghost use Rattle.hash_jenkins.specs.Spooky.{Position};

    ghost Value = { Position };

    ghost use Rattle.hash_jenkins.specs.SpookyV1Hasher.{position_within, HasSettled};

    ghost view = { position_within };

    ghost invariant = { HasSettled };
}

impl Drop for SpookyV1Hasher {
    fn drop(self) {
        let Self { parts: _ } = self;
    }
}

impl SpookyV1Hasher {
    /// A hasher of no bytes, under two seeds: it stands at ((seed1, seed2), no bytes).
    pub fn new(seed1: u64, seed2: u64) -> SpookyV1Hasher
        ensures position { result ≡ position seed1 seed2 [] }
        ensures stands { SpookyStandsAt result (seed1 ∷ seed2 ∷ []) [] }
        ensures in_range { IsPosition result }
    {
        SpookyV1Hasher {
            parts: SpookyParts::new(seed1, seed2),
        }
    }

    /// The hash of the bytes so far, as two words. More bytes may be written afterwards.
    pub fn finish128(&self) -> (u64, u64)
        ensures here { result ≡ hash_v1 self.now }
        ensures of_text { (seed1 seed2 : ℕ) (text : List ℕ) → self.now ≡ position seed1 seed2 text
            → result ≡ spooky_v1 seed1 seed2 text }
        ensures where_it_stands { (from text : List ℕ) → SpookyStandsAt self.now from text
            → result ≡ spooky_v1 (slice_index from 0) (slice_index from 1) text }
    {
        self.parts.finish128_v1()
    }
}

impl Default for SpookyV1Hasher {
    ghost is_default = { λ at. at ≡ position 0 0 [] };

    /// The hasher of no bytes under the seeds 0 and 0.
    fn default() -> SpookyV1Hasher {
        SpookyV1Hasher::new(0, 0)
    }
}

impl Hasher for SpookyV1Hasher {
    ghost write = { after };

    ghost finish = { λ at. (hash_v1 at).0 };

    /// The first word of `finish128`.
    fn finish(&self) -> u64 {
        self.finish128().0
    }

    /// Goes on over the bytes.
    #[inline(always)]
    fn write(&mut self, bytes: &[u8])
        ensures written { self.new ≡ after self.old bytes.now }
        ensures stands { (seed1 seed2 : ℕ) (text : List ℕ) → self.old ≡ position seed1 seed2 text
            → self.new ≡ position seed1 seed2 (text ++ bytes.now) }
    {
        self.parts.write(bytes);
    }
}

impl Piecewise for SpookyV1Hasher {
    ghost State = { Position };

    ghost state = { λ at. at };

    ghost in_range = { IsPosition };

    ghost fresh = { position 0 0 [] };

    ghost after = { after };

    ghost answer = { λ at. (hash_v1 at).0 };

    ghost hash_of = { λ text. (spooky_v1 0 0 text).0 };

    ghost first = { position 0 0 [] };

    #[inline(always)]
    fn state_in_range(&self) {
        let _parts = &self.parts;
    }

    fn fork(&self) -> SpookyV1Hasher {
        SpookyV1Hasher { parts: self.parts }
    }

    ghost default_is_first = { λ h same. same };

    ghost first_is_fresh = { refl };

    ghost hash_of_is = { hash_v1_from_seeds };

    ghost write_feeds = { λ h piece. refl };

    ghost finish_answers = { λ h. refl };

    ghost fresh_in_range = { IsPosition-fresh };

    ghost after_in_range = { IsPosition-after };

    ghost after_nothing = { after-nil };
}

impl Streamed for SpookyV1Hasher {
    ghost start = { 0 ∷ 0 ∷ [] };

    ghost stands_at = { SpookyStandsAt };

    ghost hash_from = { spooky_v1_from };

    ghost stands_at_start = { λ h same. stands_at_seeds h 0 0 (lit< tt) (lit< tt) same };

    ghost stands_after = { stands_after };

    ghost after_joined = { after-append };

    ghost hash_from_start = { λ text bytes. sym (hash_v1_from_seeds text) };

    ghost stands_answers = { answer_v1_where_stands };
}
