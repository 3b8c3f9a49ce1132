//! XXH3 of a text that comes piece by piece.
ghost use Rattle.std.specs.Prelude.{◌≡◌, ◌+◌, ◌<◌, ◌^◌, ◌∷◌, ◌++◌};
ghost use Rattle.hash_xxh3.specs.Common.{Some, None, ℕ, List, [], refl, Fits, StandsBehind, place_of, Position, position, after, hash, IsPosition, Xxh3StandsAt, xxh3_from, wide_hash, xxh3_128_of, xxh3_64_of};
ghost use Rattle.std.proofs.Common.{lit<};
ghost use Rattle.hash_xxh3.specs.StreamingLaws.{IsPosition-fresh, IsPosition-after, after-nil, after-append, hash-position, hash_of_fresh, stands_at_seed, stands_after, hash_from_seed, answer_where_stands};

use crate::long::lanes_at;
use crate::parts::Xxh3Parts;
use crate::place::Xxh3Place;
use crate::whole::xxh3_64;
use hash_laws::traits::{Piecewise, Streamed};
use std::hash::Hasher;
use std::marker::Model;

/// XXH3 of a text that comes piece by piece, under a seed. How the bytes were split into pieces does not matter.
pub struct Xxh3Hasher {
    parts: Xxh3Parts,
}

impl Model for Xxh3Hasher {
    ghost use Rattle.hash_xxh3.specs.Streaming.{Position};

    ghost Value = { Position };

    ghost use Rattle.hash_xxh3.specs.Hasher.{position_inside, HasSettled};

    ghost view = { position_inside };

    ghost invariant = { HasSettled };
}

impl Drop for Xxh3Hasher {
    fn drop(self) {
        let Self { parts: _ } = self;
    }
}

impl Xxh3Hasher {
    /// A hasher of no bytes, under a seed.
    #[inline(always)]
    pub fn new(seed: u64) -> Xxh3Hasher
        ensures position { result ≡ position seed [] }
        ensures stands { Xxh3StandsAt result (seed ∷ []) [] }
        ensures in_range { IsPosition result }
    {
        Xxh3Hasher {
            parts: Xxh3Parts::new(seed),
        }
    }

    /// The hasher that keeps these numbers; `None` of those that none keeps.
    pub fn at(place: &Xxh3Place) -> Option<Xxh3Hasher>
        ensures some { Fits place.now → result ≡ Some (place_of place.now) }
        ensures none { ¬ Fits place.now → result ≡ None }
    {
        if !place.fits() {
            return None;
        }
        let lanes = lanes_at(place.words, place.stripe);
        let kept = place.kept as usize;
        Some(Xxh3Hasher {
            parts: Xxh3Parts::at(
                place.seed,
                lanes,
                place.length,
                place.long != 0,
                kept,
                place.buffer,
            ),
        })
    }

    /// What the hasher keeps.
    pub fn place(&self) -> Xxh3Place
        ensures there { place_of result ≡ self.now }
        ensures fits { Fits result }
        ensures stands { (seed : ℕ) (text : List ℕ) → self.now ≡ position seed text
            → StandsBehind result seed text }
    {
        let parts = &self.parts;
        Xxh3Place {
            seed: parts.seed,
            words: parts.lanes.words,
            stripe: parts.lanes.stripe as u64,
            length: parts.length,
            long: u64::from(parts.long),
            kept: parts.kept as u64,
            buffer: parts.buffer,
        }
    }

    /// The hash of 128 bits of the bytes so far: the low word and the high one. More bytes may be written afterwards.
    #[inline(always)]
    pub fn finish128(&self) -> (u64, u64)
        ensures value { result ≡ wide_hash self.now }
        ensures of_text { (seed : ℕ) (text : List ℕ) → self.now ≡ position seed text
            → result ≡ xxh3_128_of seed text }
        ensures where_it_stands { (seed : ℕ) (text : List ℕ) → Xxh3StandsAt self.now (seed ∷ []) text
            → result ≡ xxh3_128_of seed text }
    {
        self.parts.finish128()
    }
}

impl Default for Xxh3Hasher {
    ghost is_default = { λ h. h ≡ position 0 [] };

    /// The hasher of no bytes under the seed 0.
    fn default() -> Xxh3Hasher {
        Xxh3Hasher::new(0)
    }
}

impl Hasher for Xxh3Hasher {
    ghost write = { after };

    ghost finish = { hash };

    /// The hash of the bytes so far.
    #[inline(always)]
    fn finish(&self) -> u64
        ensures value { result ≡ hash self.now }
        ensures in_range { IsPosition self.now }
        ensures of_text { (seed : ℕ) (text : List ℕ) → self.now ≡ position seed text
            → result ≡ xxh3_64_of seed text }
        ensures where_it_stands { (seed : ℕ) (text : List ℕ) → Xxh3StandsAt self.now (seed ∷ []) text
            → result ≡ xxh3_64_of seed text }
    {
        self.parts.finish()
    }

    /// Goes on over the bytes.
    #[inline(always)]
    fn write(&mut self, bytes: &[u8])
        ensures written { self.new ≡ after self.old bytes.now }
        ensures stands { (seed : ℕ) (text : List ℕ) → self.old ≡ position seed text
            → self.new ≡ position seed (text ++ bytes.now) }
        ensures in_range_before { IsPosition self.old }
        ensures in_range_after { IsPosition self.new }
    {
        self.parts.write(bytes);
    }
}

impl Piecewise for Xxh3Hasher {
    ghost State = { Position };

    ghost state = { λ h. h };

    ghost in_range = { IsPosition };

    ghost fresh = { position 0 [] };

    ghost after = { after };

    ghost answer = { hash };

    ghost hash_of = { xxh3_64_of 0 };

    ghost first = { position 0 [] };

    #[inline(always)]
    fn state_in_range(&self) {
        let _parts = &self.parts;
    }

    #[inline(always)]
    fn whole(text: &[u8]) -> u64 {
        xxh3_64(0, text)
    }

    fn fork(&self) -> Xxh3Hasher {
        Xxh3Hasher { parts: self.parts }
    }

    ghost default_is_first = { λ h same. same };

    ghost first_is_fresh = { refl };

    ghost hash_of_is = { hash_of_fresh };

    ghost write_feeds = { λ h piece. refl };

    ghost finish_answers = { λ h. refl };

    ghost fresh_in_range = { IsPosition-fresh };

    ghost after_in_range = { IsPosition-after };

    ghost after_nothing = { after-nil };
}

impl Streamed for Xxh3Hasher {
    ghost start = { 0 ∷ [] };

    ghost stands_at = { Xxh3StandsAt };

    ghost hash_from = { xxh3_from };

    ghost stands_at_start = { λ h same. stands_at_seed h 0 (lit< tt) same };

    ghost stands_after = { stands_after };

    ghost after_joined = { after-append };

    ghost hash_from_start = { hash_from_seed };

    ghost stands_answers = { answer_where_stands };
}
