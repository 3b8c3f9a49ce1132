//! What a hasher of SpookyHash keeps, in the open: for a caller that must keep it itself, as a program in C.
ghost use Rattle.std.specs.Prelude.{◌≡◌, ◌+◌, ◌↔◌};
ghost use Rattle.hash_jenkins.specs.Common.{IsTrue, [], mixing_calls, position, after, hash, hash_v1, short_words_at, long_words_at};
ghost use Rattle.hash_jenkins.specs.SpookyParts.{position_of, FitsBuffer, IsSettled};

use crate::spooky_long::{BLOCK, long_words, mix_blocks};
use crate::spooky_short::{FILL, LONG, short_words, short_words_v1};
use hash_rounds::{Turns, put};

/// The numbers that a [`SpookyHasher`](crate::spooky_hash::SpookyHasher) keeps. They may be copied: each copy goes on by itself.
///
/// The parts of a text come from `new` and go on by `write`: contracts call such parts settled, and see their position. Of other
/// numbers nothing is promised but that the calls are safe. Each call asks that what is kept fits the buffer, which
/// `fits_buffer` tests.
#[repr(C)]
#[derive(Clone, Copy)]
pub struct SpookyParts {
    pub buffer: [u8; 192],
    pub words: [u64; 12],
    pub kept: usize,
    pub length: usize,
}

impl SpookyParts {
    /// The parts of no bytes, under two seeds.
    pub fn new(seed1: u64, seed2: u64) -> SpookyParts
        ensures position { position_of result ≡ position seed1 seed2 [] }
        ensures settled { IsSettled result }
    {
        SpookyParts {
            buffer: [0; LONG],
            words: [
                seed1, seed2, FILL, seed1, seed2, FILL, seed1, seed2, FILL, seed1, seed2, FILL,
            ],
            kept: 0,
            length: 0,
        }
    }

    /// Whether what is kept fits the buffer, as the other calls ask: all bytes below 192, less than a block of 96 from then on.
    #[inline(always)]
    pub fn fits_buffer(&self) -> bool
        ensures { IsTrue result ↔ FitsBuffer self.now }
    {
        if self.length < LONG {
            self.kept == self.length
        } else {
            self.kept < BLOCK
        }
    }

    /// Goes on over the bytes, as a hasher's `write` does.
    #[inline(always)]
    pub fn write(&mut self, bytes: &[u8])
        requires { FitsBuffer self.old }
        ensures position { IsSettled self.old → position_of self.new ≡ after (position_of self.old) bytes.now }
        ensures settled { IsSettled self.old → IsSettled self.new }
    {
        self.write_counted(bytes, &mut Turns::new());
    }

    // The same, where a counter is charged with the calls that mix blocks.
    #[inline(always)]
    pub(crate) fn write_counted(&mut self, bytes: &[u8], turns: &mut Turns)
        requires { FitsBuffer self.old }
        ensures position { IsSettled self.old → position_of self.new ≡ after (position_of self.old) bytes.now }
        ensures settled { IsSettled self.old → IsSettled self.new }
        ensures turns { IsSettled self.old
            → turns.new ≡ turns.old + mixing_calls (position_of self.old) bytes.now }
    {
        self.length = self.length.saturating_add(bytes.len());
        if self.length < LONG {
            let end = self.kept + bytes.len();
            put(&mut self.buffer, self.kept, bytes);
            self.kept = end;
        } else {
            let words = &mut self.words;
            let buffer = &mut self.buffer;
            self.kept = mix_blocks(words, buffer, self.kept, bytes, turns);
        }
    }

    /// The hash of the bytes so far, as two words.
    pub fn finish128(&self) -> (u64, u64)
        requires { FitsBuffer self.now }
        ensures { IsSettled self.now → result ≡ hash (position_of self.now) }
    {
        if self.length < LONG {
            let h = short_words(self.words[0], self.words[1], &self.buffer, self.kept);
            (h[0], h[1])
        } else {
            let words = long_words(&self.words, &self.buffer[..self.kept]);
            (words[0], words[1])
        }
    }

    /// The hash of the bytes so far by version 1.
    pub fn finish128_v1(&self) -> (u64, u64)
        requires { FitsBuffer self.now }
        ensures { IsSettled self.now → result ≡ hash_v1 (position_of self.now) }
    {
        if self.length < LONG {
            let h = short_words_v1(self.words[0], self.words[1], &self.buffer, self.kept);
            (h[0], h[1])
        } else {
            let words = long_words(&self.words, &self.buffer[..self.kept]);
            (words[0], words[1])
        }
    }

    /// The four words that a text below 192 bytes ends in; `None` exactly from 192 bytes on.
    pub fn short_words(&self) -> Option<[u64; 4]>
        requires { FitsBuffer self.now }
        ensures { IsSettled self.now → result ≡ short_words_at (position_of self.now) }
    {
        if self.length < LONG {
            Some(short_words(self.words[0], self.words[1], &self.buffer, self.kept))
        } else {
            None
        }
    }

    /// The twelve words that a text of 192 bytes and more ends in; `None` exactly below 192 bytes.
    pub fn long_words(&self) -> Option<[u64; 12]>
        requires { FitsBuffer self.now }
        ensures { IsSettled self.now → result ≡ long_words_at (position_of self.now) }
    {
        if self.length < LONG {
            None
        } else {
            Some(long_words(&self.words, &self.buffer[..self.kept]))
        }
    }
}
