//! The hash of a text by its polynomial over the prime 2^61 - 1, at a key.
ghost use Rattle.std.specs.Prelude.{◌↔◌, ◌≡◌, ◌+◌, ◌*◌, ◌%◌, ◌^◌, ◌<◌, ◌≤◌, ◌∷◌, ◌++◌};
ghost use Rattle.hash_keyed.specs.Common.{IsTrue, MatchOption, ℕ, List, [], slice_index, refl, IsText, prime61, poly_step, poly_hash, Position, start_at, byte_in, after, poly_end, as_word, poly61, IsPosition, PolyStandsAt, place_of, poly61_from, default_key, IsPosition-start, IsPosition-after, after-nil, after-append, stands_at_key, stands_after, answer_where_stands, hash_from_key, poly61-is};
ghost use Rattle.std.proofs.Common.{lit<};
ghost use Rattle.std.specs.Hash.{le_bytes};

use crate::modular::{PRIME, ended, ended_at_once, placed, reduced, remainder, step};
use crate::words::{few, full_words, joined, text_words};
use hashers::laws::{Piecewise, Streamed};
use std::hash::Hasher;
use std::marker::Model;

/// The key of a default hasher. Everybody knows it, so it is of use where nobody chooses the texts.
const DEFAULT_KEY: u64 = 1234567890123456789;

/// Where a [`Poly61Hasher`] stands, in whole numbers that a caller may keep: the key, the state behind the full words, and the bytes
/// behind these, as the number that they are and how many.
#[repr(C)]
#[derive(Clone, Copy)]
pub struct Poly61Place {
    /// The key, below 2^61 - 1.
    pub key: u64,
    /// The state, below 2^61 - 1.
    pub state: u64,
    /// The number that the bytes behind the full words are, the first the lowest.
    pub word: u64,
    /// How many they are: fewer than seven.
    pub count: u64,
}

impl Poly61Place {
    /// Whether some hasher stands there.
    #[inline(always)]
    fn is_somewhere(&self) -> bool
        ensures { IsTrue result ↔ IsPosition (place_of self.now) }
    {
        self.key < PRIME
            && self.state < PRIME
            && self.count < 7
            && self.word < placed(1, self.count as u32)
    }
}

/// The hash of a text by its polynomial, at a key.
pub struct Poly61Hasher {
    key: u64,
    state: u64,
    word: u64,
    count: u32,
}

impl Model for Poly61Hasher {
    ghost use Rattle.hash_keyed.specs.Poly61State.{Position};

    ghost Value = { Position };

    ghost use Rattle.hash_keyed.specs.Poly61Inside.{position_of, IsInside};

    ghost view = { position_of };

    ghost invariant = { IsInside };
}

impl Drop for Poly61Hasher {
    fn drop(self) {
        let Self {
            key: _,
            state: _,
            word: _,
            count: _,
        } = self;
    }
}

impl Poly61Hasher {
    /// A hasher of no bytes, at a key: any number, of which the remainder modulo the prime counts.
    #[inline(always)]
    pub fn new(key: u64) -> Poly61Hasher
        ensures position { result ≡ start_at (key % prime61) }
        ensures stands { PolyStandsAt result ((key % prime61) ∷ []) [] }
        ensures in_range { IsPosition result }
    {
        Poly61Hasher {
            key: remainder(key),
            state: 1,
            word: 0,
            count: 0,
        }
    }

    /// The hasher that stands there; `None` if no hasher does.
    #[inline(always)]
    pub fn at(place: &Poly61Place) -> Option<Poly61Hasher>
        ensures { MatchOption result (¬ IsPosition (place_of place.now))
            (λ h. (h ≡ place_of place.now) × IsPosition h) }
    {
        if !place.is_somewhere() {
            return None;
        }
        Some(Poly61Hasher {
            key: place.key,
            state: place.state,
            word: place.word,
            count: place.count as u32,
        })
    }

    /// Where it stands.
    #[inline(always)]
    pub fn place(&self) -> Poly61Place
        ensures there { place_of result ≡ self.now }
        ensures in_range { IsPosition self.now }
    {
        Poly61Place {
            key: self.key,
            state: reduced(self.state),
            word: self.word,
            count: u64::from(self.count),
        }
    }

    // One byte in.
    #[inline(always)]
    fn byte_in(&mut self, byte: u8)
        ensures { self.new ≡ byte_in self.old byte }
    {
        let word = self.word + placed(u64::from(byte), self.count);
        if self.count < 6 {
            self.word = word;
            self.count += 1;
        } else {
            self.state = step(self.key, self.state, word);
            self.word = 0;
            self.count = 0;
        }
    }

    // A number of up to eight bytes in, the lowest first.
    #[inline(always)]
    fn number_in(&mut self, number: u64, count: u32)
        requires short { count ≤ 8 }
        requires within { number < 2 ^ (8 * count) }
        ensures { self.new ≡ after self.old (le_bytes count number) }
    {
        let (first, rest) = joined(self.word, self.count, number);
        let all = self.count + count;
        if all < 7 {
            self.word = first;
            self.count = all;
        } else if all < 14 {
            self.state = step(self.key, self.state, first);
            self.word = rest;
            self.count = all - 7;
        } else {
            let state = step(self.key, self.state, first);
            self.state = step(self.key, state, rest);
            self.word = 0;
            self.count = 0;
        }
    }
}

impl Default for Poly61Hasher {
    ghost is_default = { λ h. h ≡ start_at default_key };

    /// The hasher of no bytes, at a fixed key.
    fn default() -> Poly61Hasher {
        Poly61Hasher::new(DEFAULT_KEY)
    }
}

impl Hasher for Poly61Hasher {
    ghost write = { after };

    ghost finish = { λ at. as_word (poly_end at) };

    /// The value of the polynomial in the low 61 bits; the top three are the low three once more.
    #[inline(always)]
    fn finish(&self) -> u64
        ensures value { result ≡ as_word (poly_end self.now) }
        ensures of_text { (key : ℕ) (text : List ℕ) → self.now ≡ after (start_at key) text
            → result ≡ poly61 key text }
        ensures in_range { IsPosition self.now }
    {
        ended(self.key, self.state, self.word, self.count)
    }

    /// Takes the bytes in.
    #[tactic(auto, using(crate::proofs::CodeLemmas::write_is, crate::proofs::CodeLemmas::nothing_kept))]
    fn write(&mut self, bytes: &[u8])
        ensures written { self.new ≡ after self.old bytes.now }
        ensures in_range_before { IsPosition self.old }
        ensures in_range_after { IsPosition self.new }
    {
        let _key = &self.key;
        let mut rest = bytes;
        while self.count > 0 {
            match rest.split_first() {
                None => return,
                Some((byte, more)) => {
                    self.byte_in(*byte);
                    rest = more;
                }
            }
        }
        let (state, last) = full_words(self.key, self.state, rest);
        self.state = state;
        self.word = few(last);
        self.count = last.len() as u32;
    }

    /// Takes a byte in, as a string does behind its own.
    #[inline(always)]
    fn write_u8(&mut self, byte: u8) {
        self.byte_in(byte);
    }

    #[inline(always)]
    fn write_u32(&mut self, number: u32) {
        self.number_in(u64::from(number), 4);
    }

    #[inline(always)]
    fn write_u64(&mut self, number: u64) {
        self.number_in(number, 8);
    }

    #[inline(always)]
    fn write_u128(&mut self, number: u128) {
        self.number_in((number % (1 << 64)) as u64, 8);
        self.number_in((number >> 64) as u64, 8);
    }

    #[inline(always)]
    fn write_usize(&mut self, number: usize) {
        self.number_in(number as u64, 8);
    }
}

impl Piecewise for Poly61Hasher {
    ghost State = { Position };

    ghost state = { λ h. h };

    ghost in_range = { IsPosition };

    ghost fresh = { start_at default_key };

    ghost after = { after };

    ghost answer = { λ at. as_word (poly_end at) };

    ghost hash_of = { poly61 default_key };

    ghost first = { start_at default_key };

    #[inline(always)]
    fn state_in_range(&self) {
        let _key = &self.key;
    }

    #[inline(always)]
    fn whole(text: &[u8]) -> u64 {
        poly61(DEFAULT_KEY, text)
    }

    fn fork(&self) -> Poly61Hasher {
        Poly61Hasher {
            key: self.key,
            state: self.state,
            word: self.word,
            count: self.count,
        }
    }

    ghost default_is_first = { λ h same. same };

    ghost first_is_fresh = { refl };

    ghost hash_of_is = { poly61-is default_key };

    ghost write_feeds = { λ h piece. refl };

    ghost finish_answers = { λ h. refl };

    ghost fresh_in_range = { IsPosition-start default_key (lit< tt) };

    ghost after_in_range = { IsPosition-after };

    ghost after_nothing = { after-nil };
}

impl Streamed for Poly61Hasher {
    ghost start = { default_key ∷ [] };

    ghost stands_at = { PolyStandsAt };

    ghost hash_from = { poly61_from };

    ghost stands_at_start = { λ h same. stands_at_key h default_key (lit< tt) same };

    ghost stands_after = { stands_after };

    ghost after_joined = { after-append };

    ghost hash_from_start = { hash_from_key default_key };

    ghost stands_answers = { answer_where_stands };
}

/// The hash of a text by its polynomial, at a key: what [`Poly61Hasher`] answers to the text.
pub fn poly61(key: u64, bytes: &[u8]) -> u64
    ensures { result ≡ poly61 (key % prime61) bytes.now }
{
    let key = remainder(key);
    if bytes.len() < 7 {
        return ended_at_once(key, few(bytes), bytes.len() as u32);
    }
    let (state, last) = text_words(key, bytes);
    ended(key, state, few(last), last.len() as u32)
}
