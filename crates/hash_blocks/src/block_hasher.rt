//! The hasher of a block-based rule.
ghost use Rattle.std.specs.Prelude.{◌≡◌, ℕ, List, [], ◌++◌, refl};
ghost use Rattle.hash_laws.specs.Text.{joined};
ghost use Rattle.std.proofs.Common.{ap, sym};
ghost use Rattle.hash_blocks.specs.Blocks.{Position, position, after, IsPosition};
ghost use Rattle.hash_blocks.specs.BlocksLaws as laws;
ghost use Rattle.hash_blocks.specs.Standing.{BlockStandsAt};

use crate::block_rule::BlockRule;
use crate::parts::{blocks_in, bytes_in};
use hash_laws::traits::{Piecewise, Streamed, run_streamed};
use std::hash::Hasher;
use std::marker::Model;

/// The hasher of a block-based rule. Contracts see it as its position: what is kept of the whole blocks, the bytes that are
/// left after them, fewer than a block, and the length modulo 2^64.
pub struct BlockHasher<R: BlockRule<N>, const N: usize> {
    state: R::State,
    buffer: [u8; N],
    kept: usize,
    total: u64,
}

impl<R: BlockRule<N>, const N: usize> Model for BlockHasher<R, N> {
    ghost use Rattle.hash_blocks.specs.Blocks.{Position, position_of, IsKept};

    ghost Value = { Position R.State };

    ghost view = { λ h. position_of h.state h.buffer h.kept h.total };

    ghost invariant = { λ h. IsKept N h.buffer h.kept h.total };
}

impl<R: BlockRule<N>, const N: usize> Drop for BlockHasher<R, N> {
    fn drop(self) {
        let Self {
            state: _,
            buffer: _,
            kept: _,
            total: _,
        } = self;
    }
}

impl<R: BlockRule<N>, const N: usize> BlockHasher<R, N> {
    /// A hasher of no bytes, under a seed.
    pub fn new(seed: R::Seed) -> BlockHasher<R, N>
        ensures position { result ≡ position N R.block (R.start (R.numbers seed)) [] }
        ensures stands { BlockStandsAt N R.start R.block result (R.numbers seed) [] }
    {
        BlockHasher {
            state: R::start(seed),
            buffer: [0; N],
            kept: 0,
            total: 0,
        }
    }

    /// The hash of the bytes so far. More bytes may be written afterwards.
    #[inline(always)]
    pub fn hash(&self) -> R::Hash
        ensures here { result ≡ R.finish self.now.state self.now.left self.now.total }
        ensures where_it_stands { (from text : List ℕ) → BlockStandsAt N R.start R.block self.now from text
            → result ≡ R.hash from text }
        ensures in_range { IsPosition N self.now }
    {
        R::finish(&self.state, &self.buffer[..self.kept], self.total)
    }

    /// The hash after more pieces, in order: that of the text so far and the joined pieces, however the text was split.
    pub fn hash_with(mut self, pieces: &[&[u8]]) -> R::Hash
        ensures { (from text : List ℕ) → BlockStandsAt N R.start R.block self from text
            → result ≡ R.hash from (text ++ joined pieces.now) }
    {
        run_streamed(&mut self, pieces);
        self.hash()
    }

    /// The hash of a whole text under a seed, with no hasher.
    #[inline(always)]
    #[tactic(auto, using(crate::specs::BlocksLaws::blocks_short, crate::specs::BlocksLaws::tail_short))]
    pub fn hash_of(seed: R::Seed, text: &[u8]) -> R::Hash
        ensures { result ≡ R.hash (R.numbers seed) text.now }
    {
        if text.len() < N {
            R::finish(&R::start(seed), text, text.len() as u64)
        } else if N == 4 {
            Self::hash_of_blocks(text, seed)
        } else {
            Self::hash_of_many(text, seed)
        }
    }

    // The same by the blocks.
    #[inline(always)]
    fn hash_of_blocks(text: &[u8], seed: R::Seed) -> R::Hash
        ensures { result ≡ R.hash (R.numbers seed) text.now }
    {
        let mut state = R::start(seed);
        let left = blocks_in::<R, N>(&mut state, text);
        R::finish(&state, left, text.len() as u64)
    }

    // The same where the loop keeps more than a word: if it were inlined, a short text would save its registers too.
    #[inline(never)]
    fn hash_of_many(text: &[u8], seed: R::Seed) -> R::Hash
        ensures { result ≡ R.hash (R.numbers seed) text.now }
    {
        Self::hash_of_blocks(text, seed)
    }
}

impl<R: BlockRule<N>, const N: usize> Default for BlockHasher<R, N> {
    ghost is_default = { λ h. h ≡ position N R.block (R.start (R.numbers R.plain)) [] };

    /// The hasher of no bytes under the plain seed.
    fn default() -> BlockHasher<R, N> {
        BlockHasher::new(R::plain())
    }
}

impl<R: BlockRule<N>, const N: usize> Hasher for BlockHasher<R, N> {
    ghost write = { after N R.block };

    ghost finish = { λ h. R.low (R.finish h.state h.left h.total) };

    /// The low 64 bits of the hash.
    #[inline(always)]
    fn finish(&self) -> u64
        ensures value { result ≡ R.low (R.finish self.now.state self.now.left self.now.total) }
        ensures in_range { IsPosition N self.now }
    {
        R::low(self.hash())
    }

    /// Goes on over the bytes.
    #[inline(always)]
    fn write(&mut self, bytes: &[u8])
        ensures written { self.new ≡ after N R.block self.old bytes.now }
        ensures in_range_before { IsPosition N self.old }
        ensures in_range_after { IsPosition N self.new }
    {
        self.total = self.total.wrapping_add(bytes.len() as u64);
        self.kept = bytes_in::<R, N>(&mut self.state, &mut self.buffer, self.kept, bytes);
    }
}

impl<R: BlockRule<N>, const N: usize> Piecewise for BlockHasher<R, N> {
    ghost State = { Position R.State };

    ghost state = { λ h. h };

    ghost in_range = { IsPosition N };

    ghost fresh = { position N R.block (R.start (R.numbers R.plain)) [] };

    ghost after = { after N R.block };

    ghost answer = { λ at. R.low (R.finish at.state at.left at.total) };

    ghost hash_of = { λ text. R.low (R.hash (R.numbers R.plain) text) };

    ghost first = { position N R.block (R.start (R.numbers R.plain)) [] };

    #[inline(always)]
    fn state_in_range(&self) {
        let _total = self.total;
    }

    #[inline(always)]
    fn whole(text: &[u8]) -> u64 {
        R::low(BlockHasher::<R, N>::hash_of(R::plain(), text))
    }

    fn fork(&self) -> BlockHasher<R, N> {
        BlockHasher {
            state: self.state,
            buffer: self.buffer,
            kept: self.kept,
            total: self.total,
        }
    }

    ghost default_is_first = { λ h same. same };

    ghost first_is_fresh = { refl };

    ghost hash_of_is = { λ text. ap R.low (sym (laws.answer_after_start N R.some R.block R.start R.finish
        R.total_wraps R.hash R.is_hash (R.numbers R.plain) text)) };

    ghost write_feeds = { λ h piece. refl };

    ghost finish_answers = { λ h. refl };

    ghost fresh_in_range = { laws.IsPosition-start N R.some R.block (R.start (R.numbers R.plain)) };

    ghost after_in_range = { laws.IsPosition-after N R.some R.block };

    ghost after_nothing = { laws.after-nil N R.some R.block };
}

impl<R: BlockRule<N>, const N: usize> Streamed for BlockHasher<R, N> {
    ghost start = { R.numbers R.plain };

    ghost stands_at = { BlockStandsAt N R.start R.block };

    ghost hash_from = { λ from text. R.low (R.hash from text) };

    ghost stands_at_start = { λ h. laws.stands_at_start N R.some R.block R.start h (R.numbers R.plain) };

    ghost stands_after = { laws.stands_after N R.some R.block R.start };

    ghost after_joined = { laws.after-append N R.some R.block };

    ghost hash_from_start = { λ text bytes. ap R.low (laws.answer_after_start N R.some R.block R.start R.finish
        R.total_wraps R.hash R.is_hash (R.numbers R.plain) text) };

    ghost stands_answers = { λ h from text stood. ap R.low (laws.answer_where_stands N R.some R.block R.start R.finish
        R.total_wraps R.hash R.is_hash h from text stood) };
}
