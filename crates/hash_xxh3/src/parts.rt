//! What a hasher of XXH3 keeps.
ghost use Rattle.std.specs.Prelude.{◌≡◌, ◌+◌, ◌<◌, ◌≤◌, if◌then◌else◌};
ghost use Rattle.hash_xxh3.specs.Common.{true, false, length, take, [], IsLanes, Short, advanced, position, after, hash, wide_hash};
ghost use Rattle.hash_xxh3.specs.Parts.{position_of, IsSettled};

use crate::advance::{advance, begin_through};
use crate::long::{Lanes, START, end_kept};
use crate::secret::secret_of;
use crate::whole::of_kept;
use crate::wide::{wide_end_kept, wide_kept};
use hash_laws::traits::bytes_are_a_text;
use hash_words::put;

/// The numbers that a hasher keeps: of a text of at most 240 bytes the text, and of a longer one the eight words after a
/// stripe, and that stripe with the bytes after it, of which there is one at least.
#[derive(Clone, Copy)]
pub(crate) struct Xxh3Parts {
    pub seed: u64,
    pub lanes: Lanes,
    pub length: u64,
    pub long: bool,
    pub kept: usize,
    pub secret: [u8; 192],
    pub buffer: [u8; 256],
}

impl Xxh3Parts {
    /// No bytes, under a seed.
    #[inline(always)]
    pub(crate) fn new(seed: u64) -> Xxh3Parts
        ensures position { position_of result ≡ position seed [] }
        ensures settled { IsSettled result }
    {
        Xxh3Parts {
            seed,
            lanes: START,
            length: 0,
            long: false,
            kept: 0,
            secret: [0; 192],
            buffer: [0; 256],
        }
    }

    /// The parts that keep these numbers.
    #[inline(always)]
    pub(crate) fn at(
        seed: u64,
        lanes: Lanes,
        length: u64,
        long: bool,
        kept: usize,
        buffer: [u8; 256],
    ) -> Xxh3Parts
        requires lanes { IsLanes lanes }
        requires short { long ≡ false → kept < 241 }
        requires some { long ≡ true → 65 ≤ kept }
        requires few { long ≡ true → kept ≤ 256 }
        ensures position { position_of result
            ≡ (if long then advanced seed lanes length (take kept buffer) else Short seed (take kept buffer)) }
        ensures settled { IsSettled result }
    {
        bytes_are_a_text(&buffer);
        let secret = if long { secret_of(seed) } else { [0; 192] };
        Xxh3Parts {
            seed,
            lanes,
            length,
            long,
            kept,
            secret,
            buffer,
        }
    }

    // Goes on over the bytes that make a short text a long one.
    fn write_through(&mut self, bytes: &[u8])
        requires settled { IsSettled self.old }
        requires short { self.old.long ≡ false }
        requires enough { 241 ≤ self.old.kept + length bytes.now }
        ensures position { position_of self.new ≡ after (position_of self.old) bytes.now }
        ensures settled { IsSettled self.new }
    {
        let kept = self.kept;
        self.secret = secret_of(self.seed);
        self.length = (kept as u64).wrapping_add(bytes.len() as u64);
        let lanes = &mut self.lanes;
        self.kept = begin_through(&self.secret, lanes, &mut self.buffer, kept, bytes);
        self.long = true;
    }

    /// Goes on over the bytes.
    #[inline(always)]
    pub(crate) fn write(&mut self, bytes: &[u8])
        requires { IsSettled self.old }
        ensures position { position_of self.new ≡ after (position_of self.old) bytes.now }
        ensures settled { IsSettled self.new }
    {
        if self.long {
            self.length = self.length.wrapping_add(bytes.len() as u64);
            let lanes = &mut self.lanes;
            self.kept = advance(&self.secret, lanes, &mut self.buffer, self.kept, bytes);
        } else if self.kept + bytes.len() < 241 {
            put(&mut self.buffer, self.kept, bytes);
            self.kept += bytes.len();
        } else {
            self.write_through(bytes);
        }
    }

    /// The hash of the bytes so far.
    #[inline(always)]
    #[tactic(auto, unfolding(crate::specs::Streaming::advanced))]
    pub(crate) fn finish(&self) -> u64
        requires { IsSettled self.now }
        ensures { result ≡ hash (position_of self.now) }
    {
        let text = &self.buffer[..self.kept];
        if self.long {
            end_kept(&self.secret, &self.lanes, text, self.length)
        } else {
            of_kept(self.seed, text)
        }
    }

    /// The hash of 128 bits of the bytes so far.
    #[inline(always)]
    #[tactic(auto, unfolding(crate::specs::Streaming::advanced))]
    pub(crate) fn finish128(&self) -> (u64, u64)
        requires { IsSettled self.now }
        ensures { result ≡ wide_hash (position_of self.now) }
    {
        let text = &self.buffer[..self.kept];
        if self.long {
            wide_end_kept(&self.secret, &self.lanes, text, self.length)
        } else {
            wide_kept(self.seed, text)
        }
    }
}
