//! SpookyHash, by Bob Jenkins (his SpookyV2.cpp): a hash of 128 bits of all the bytes that were written, under two seeds
//! of 64 bits. How the bytes were split into pieces does not matter.
//!
//! A text below 192 bytes is hashed on four words by chunks of 32 bytes, and its length is mixed in. From 192 bytes on
//! twelve words take blocks of 96 bytes, and the tail of 0 to 95 bytes ends in its own length. Version 1 is an older form,
//! kept for values that were stored: it leaves the length of a text below 192 bytes out, so that zeros at its end don't
//! show.
ghost use Rattle.std.specs.Prelude.{◌≡◌, ◌+◌, ◌<◌, ◌≤◌, ◌^◌, ◌∷◌, ◌++◌};
ghost use Rattle.hash_jenkins.specs.Common.{ℕ, List, [], slice_index, refl, Position, position, after, hash, hash_v1, short_words_at, short_words_of, long_words_at, long_words_of, spooky, spooky_v1, Counted, after_write, MixesBlock, IsPosition, SpookyStandsAt, spooky_from, IsPosition-fresh, IsPosition-after, after-nil, after-append, stands_at_seeds, stands_after, hash_from_seeds, answer_where_stands};
ghost use Rattle.std.proofs.Common.{lit<};

use crate::spooky_parts::SpookyParts;
pub use crate::spooky_v1::SpookyV1Hasher;
use hash_laws::traits::{Piecewise, Streamed, hash_of};
use hash_rounds::Turns;
use std::hash::Hasher;
use std::marker::Model;

/// SpookyHash of a text that comes piece by piece (Bob Jenkins, burtleburtle.net/bob/hash/spooky.html).
///
/// `finish` returns the first word of the hash of all bytes so far, and `finish128` both. The split into writes does
/// not matter. No write can be undone.
///
/// Contracts see where the hasher stands, its `Position` (`at`), and the `turns`: how many calls that mix blocks were
/// charged to its counter on the way there. The position is the two seeds and the text so far below 192 bytes, and from
/// then on the twelve words after all whole blocks and the tail after them: two seeds below 2^64 and less than 192 bytes,
/// or twelve words below 2^64 and less than 96 bytes. At most 191 bytes are kept. The count of bytes stays at its greatest
/// value once it is there, so no length is refused.
///
/// The turns show the calls of `spooky_blocks` that were charged to this hasher's counter, and no more: a body could
/// charge another counter, call it on no bytes, or mix a block by `spooky_mix`, which counts nothing.
///
/// Of `a` under two seeds of 0 the hash is 16681426114058726960.
pub struct SpookyHasher {
    parts: SpookyParts,
    turns: Turns,
}

impl Model for SpookyHasher {
    ghost use Rattle.hash_jenkins.specs.Counted.{Counted};

    ghost Value = { Counted };

    ghost use Rattle.hash_jenkins.specs.SpookyHasher.{counted_of, HasSettled};

    ghost view = { counted_of };

    ghost invariant = { HasSettled };
}

impl Drop for SpookyHasher {
    fn drop(self) {
        let Self { parts: _, turns: _ } = self;
    }
}

impl SpookyHasher {
    /// A hasher of no bytes, under two seeds: it stands at ((seed1, seed2), no bytes).
    pub fn new(seed1: u64, seed2: u64) -> SpookyHasher
        ensures position { result.at ≡ position seed1 seed2 [] }
        ensures stands { SpookyStandsAt result.at (seed1 ∷ seed2 ∷ []) [] }
        ensures in_range { IsPosition result.at }
        ensures turns { result.turns ≡ 0 }
    {
        SpookyHasher {
            parts: SpookyParts::new(seed1, seed2),
            turns: Turns::new(),
        }
    }

    /// The hash of the bytes so far, as two words. More bytes may be written afterwards.
    pub fn finish128(&self) -> (u64, u64)
        ensures here { result ≡ hash self.now.at }
        ensures of_text { (seed1 seed2 : ℕ) (text : List ℕ) → self.now.at ≡ position seed1 seed2 text
            → result ≡ spooky seed1 seed2 text }
        ensures where_it_stands { (from text : List ℕ) → SpookyStandsAt self.now.at from text
            → result ≡ spooky (slice_index from 0) (slice_index from 1) text }
        ensures in_range { IsPosition self.now.at }
    {
        self.parts.finish128()
    }

    /// The hash of the bytes so far by version 1, for values that were stored before the length was mixed in: it leaves
    /// the length of a text below 192 bytes out, and from 192 bytes on it is `finish128`.
    pub fn finish128_v1(&self) -> (u64, u64)
        ensures here { result ≡ hash_v1 self.now.at }
        ensures of_text { (seed1 seed2 : ℕ) (text : List ℕ) → self.now.at ≡ position seed1 seed2 text
            → result ≡ spooky_v1 seed1 seed2 text }
    {
        self.parts.finish128_v1()
    }

    /// The four words that a text below 192 bytes ends in, the first two of which are its hash; `None` exactly from 192
    /// bytes on.
    pub fn short_words(&self) -> Option<[u64; 4]>
        ensures here { result ≡ short_words_at self.now.at }
        ensures of_text { (seed1 seed2 : ℕ) (text : List ℕ) → self.now.at ≡ position seed1 seed2 text
            → result ≡ short_words_of seed1 seed2 text }
    {
        self.parts.short_words()
    }

    /// The twelve words that a text of 192 bytes and more ends in, the first two of which are its hash; `None`
    /// exactly below 192 bytes.
    pub fn long_words(&self) -> Option<[u64; 12]>
        ensures here { result ≡ long_words_at self.now.at }
        ensures of_text { (seed1 seed2 : ℕ) (text : List ℕ) → self.now.at ≡ position seed1 seed2 text
            → result ≡ long_words_of seed1 seed2 text }
    {
        self.parts.long_words()
    }
}

impl Default for SpookyHasher {
    ghost is_default = { λ s. s ≡ record { at = position 0 0 []; turns = 0 } };

    /// The hasher of no bytes under the seeds 0 and 0.
    fn default() -> SpookyHasher {
        SpookyHasher::new(0, 0)
    }
}

impl Hasher for SpookyHasher {
    ghost write = { after_write };

    ghost finish = { λ s. (hash s.at).0 };

    /// The first word of `finish128`.
    fn finish(&self) -> u64
        ensures value { result ≡ (hash self.now.at).0 }
        ensures in_range { IsPosition self.now.at }
    {
        self.finish128().0
    }

    /// Goes on over the bytes. Where they complete blocks, these are mixed in by one call where nothing was kept or no
    /// block follows the one that the kept bytes end in, and by two else: one for the kept bytes' blocks, and one for
    /// those after them, which are read where they stand in `bytes`.
    #[inline(always)]
    fn write(&mut self, bytes: &[u8])
        ensures written { self.new ≡ after_write self.old bytes.now }
        ensures few { self.new.turns ≤ self.old.turns + 3 }
        ensures counted { MixesBlock self.old.at bytes.now → self.old.turns < self.new.turns }
        ensures stands { (seed1 seed2 : ℕ) (text : List ℕ) → self.old.at ≡ position seed1 seed2 text
            → self.new.at ≡ position seed1 seed2 (text ++ bytes.now) }
        ensures in_range_before { IsPosition self.old.at }
        ensures in_range_after { IsPosition self.new.at }
    {
        self.parts.write_counted(bytes, &mut self.turns);
    }
}

impl Piecewise for SpookyHasher {
    ghost State = { Position };

    ghost state = { λ h. h.at };

    ghost in_range = { IsPosition };

    ghost fresh = { position 0 0 [] };

    ghost after = { after };

    ghost answer = { λ at. (hash at).0 };

    ghost hash_of = { λ text. (hash (after (position 0 0 []) text)).0 };

    ghost first = { record { at = position 0 0 []; turns = 0 } };

    #[inline(always)]
    fn state_in_range(&self) {
        let _parts = &self.parts;
    }

    #[inline(always)]
    fn whole(text: &[u8]) -> u64 {
        let mut hasher = SpookyHasher::default();
        hasher.write(text);
        hasher.finish()
    }

    fn fork(&self) -> SpookyHasher {
        SpookyHasher {
            parts: self.parts,
            turns: self.turns.fork(),
        }
    }

    ghost default_is_first = { λ h same. same };

    ghost first_is_fresh = { refl };

    ghost hash_of_is = { λ text. refl };

    ghost write_feeds = { λ h piece. refl };

    ghost finish_answers = { λ h. refl };

    ghost fresh_in_range = { IsPosition-fresh };

    ghost after_in_range = { IsPosition-after };

    ghost after_nothing = { after-nil };
}

impl Streamed for SpookyHasher {
    ghost start = { 0 ∷ 0 ∷ [] };

    ghost stands_at = { λ h. SpookyStandsAt h.at };

    ghost hash_from = { spooky_from };

    ghost stands_at_start = { λ h same. stands_at_seeds h.at 0 0 (lit< tt) (lit< tt) same };

    ghost stands_after = { λ h k. stands_after h.at k.at };

    ghost after_joined = { after-append };

    ghost hash_from_start = { hash_from_seeds };

    ghost stands_answers = { λ h. answer_where_stands h.at };
}

/// SpookyHash of the bytes under the seeds 0 and 0: the first of its two words.
pub fn spooky(bytes: &[u8]) -> u64
    ensures { result ≡ (spooky 0 0 bytes.now).0 }
{
    hash_of::<SpookyHasher>(bytes)
}

/// The same by version 1, which leaves the length of a text below 192 bytes out.
pub fn spooky_v1(bytes: &[u8]) -> u64
    ensures { result ≡ (spooky_v1 0 0 bytes.now).0 }
{
    hash_of::<SpookyV1Hasher>(bytes)
}
