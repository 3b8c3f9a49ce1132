//! A Bloom filter over any two hashers: a set of keys in a few bits a key, which may take a strange key for one of its own
//! and never forgets one.
//!
//! Burton H. Bloom, "Space/Time Trade-offs in Hash Coding with Allowable Errors", 1970. The places come from two hashes, as in
//! Adam Kirsch and Michael Mitzenmacher, "Less Hashing, Same Performance: Building a Better Bloom Filter", 2006, by enhanced double
//! hashing.
#![tactic(auto)]

ghost use Rattle.std.specs.Prelude.{◌≡◌, ◌*◌, ◌^◌, ◌<◌, ◌≤◌, ◌↔◌, ℕ, IfOk, IfErr, IfSome, IsNone, IsOk, IsTrue, false, max};
ghost use Rattle.hashers.specs.Text.{joined};
ghost use Rattle.hash_bloom.specs.Estimate.{IsEstimate};
ghost use Rattle.hash_bloom.specs.Filter.{Filter, IsFilter, Passes, PassesNone, IsProbe, IsSet, IsEmpty, HasShape, Fits, Adds, AllPassIn, IsForKeys, LetsFewPass, bits_for_share, count_set, filter_of};

mod bits;
pub mod commands;
pub mod estimate;
pub mod file;
pub mod words;

use crate::bits::{has_all, no_bits_beyond, ones};
use crate::estimate::nearest_keys;
use hashers::laws::{Piecewise, Streamed, answer_of_pieces};
use std::alloc::{AllocError, Global};
use std::error::Error as StdError;
use std::fmt;
use std::fmt::{Display, Formatter};
use std::marker::{Model, PhantomData};

/// A Bloom filter: a set of bits. Each key has `probes` places among them, by two hashes, and a key is found where the bits at
/// all of its places are set.
///
/// The place of probe i is (f + i * g + (i^3 - i) / 6) mod 2^64 mod bits, where f is the hash of the key by `F` and g the one by
/// `G`: g is added from probe to probe, and then i + 1 to g (enhanced double hashing: Peter C. Dillinger and Panagiotis Manolios,
/// "Bloom Filters in Probabilistic Verification", 2004). Each call makes one hash by each hasher and one division, of 2^64 - 1 by
/// the number of bits. No key is in it, so a compiler can take it out of a loop. Multiplications stand in place of all others.
///
/// A key that was inserted is found, whatever the hashers. How often a strange key is found depends on them, and nothing is
/// proved of it: with good hashes it is about (1 - e^(-probes * keys / bits))^probes. A hasher of 32 bits reaches the first 2^32
/// bits at the first probe.
///
/// Contracts see the filter as its number of bits, its number of probes and its words. Bit i is that of value 2^(i mod 64) in
/// word i / 64. No bit beyond the number of bits is set.
#[derive(Drop)]
pub struct Bloom<F: Piecewise, G: Piecewise> {
    words: Vec<u64>,
    bits: u64,
    probes: u32,
    first: PhantomData<F>,
    second: PhantomData<G>,
}

impl<F: Piecewise, G: Piecewise> Model for Bloom<F, G> {
    ghost Value = { Filter };

    ghost view = { λ b. filter_of b.bits b.probes b.words.items };

    ghost invariant = { λ b. IsFilter (filter_of b.bits b.probes b.words.items) };
}

/// The words are not those of a filter of so many bits and probes: they come back as they were.
#[derive(Debug, Drop)]
pub struct NoFilter {
    pub words: Vec<u64>,
}

impl Display for NoFilter {
    fn fmt<W: fmt::Write>(&self, f: &mut Formatter<W>) -> fmt::Result {
        write!(f, "no filter of so many bits and probes has these words")
    }
}

impl StdError for NoFilter {}

impl<F: Piecewise, G: Piecewise> Bloom<F, G> {
    /// The filter of no keys, with so many bits, and so many probes for each key. It takes 8 bytes for each 64 bits, and refuses
    /// only where there is no memory for them.
    pub fn new(alloc: Global, bits: u64, probes: u32) -> Result<Self, AllocError>
        requires bits { 1 ≤ bits }
        requires probes { 1 ≤ probes }
        ensures shape { IfOk result (HasShape bits probes) }
        ensures empty { IfOk result IsEmpty }
        ensures none { IfOk result (PassesNone F.hash_of G.hash_of) }
    {
        let mut words = Vec::new(alloc);
        let count = usize::try_from(bits.div_ceil(64)).map_err(|_| AllocError)?;
        words.resize(count, 0)?;
        Ok(Bloom {
            words,
            bits,
            probes,
            first: PhantomData,
            second: PhantomData,
        })
    }

    /// The filter of no keys, for about so many keys, with so many bits for each (at least one bit in all). The number of probes
    /// is 0.693 for each of `bits_per_key`, rounded, and at least 1: that is about ln 2, and from 1 to 32 bits the number that
    /// lets the fewest strange keys pass. The number of bits has to be below 2^64, as `keys.checked_mul(..)` tells. It refuses
    /// only where there is no memory.
    ///
    /// By the formula above these shares of strange keys pass, in percent, once all keys are in:
    ///
    /// | bits | probes | share | bits | probes | share | bits | probes | share | bits | probes | share |
    /// |---:|---:|---:|---:|---:|---:|---:|---:|---:|---:|---:|---:|
    /// | 1 | 1 | 63.2 | 9 | 6 | 1.33 | 17 | 12 | 0.0284 | 25 | 17 | 0.000608 |
    /// | 2 | 1 | 39.3 | 10 | 7 | 0.819 | 18 | 12 | 0.0176 | 26 | 18 | 0.000376 |
    /// | 3 | 2 | 23.7 | 11 | 8 | 0.509 | 19 | 13 | 0.0109 | 27 | 19 | 0.000233 |
    /// | 4 | 3 | 14.7 | 12 | 8 | 0.314 | 20 | 14 | 0.00671 | 28 | 19 | 0.000144 |
    /// | 5 | 3 | 9.18 | 13 | 9 | 0.194 | 21 | 15 | 0.00416 | 29 | 20 | 0.0000889 |
    /// | 6 | 4 | 5.61 | 14 | 10 | 0.12 | 22 | 15 | 0.00257 | 30 | 21 | 0.000055 |
    /// | 7 | 5 | 3.47 | 15 | 10 | 0.0744 | 23 | 16 | 0.00159 | 31 | 21 | 0.0000341 |
    /// | 8 | 6 | 2.16 | 16 | 11 | 0.0459 | 24 | 17 | 0.000984 | 32 | 22 | 0.000021 |
    pub fn for_keys(alloc: Global, keys: u64, bits_per_key: u32) -> Result<Self, AllocError>
        requires some { 1 ≤ bits_per_key }
        requires fits { keys * bits_per_key < 2 ^ 64 }
        ensures shape { IfOk result (IsForKeys keys bits_per_key) }
        ensures empty { IfOk result IsEmpty }
        ensures none { IfOk result (PassesNone F.hash_of G.hash_of) }
    {
        let bits = keys * u64::from(bits_per_key);
        let probes = ((693 * u64::from(bits_per_key) + 500) / 1000).max(1);
        Self::new(alloc, bits.max(1), probes as u32)
    }

    /// The filter of no keys, for about so many keys, of which one strange key in 2^k passes at most, by the formula above: that
    /// of `for_keys` at 1.443 bits a key for each halving, rounded up. These are the fewest bits a key that the table has for the
    /// share. The number of bits has to be below 2^64. It refuses only where there is no memory.
    pub fn for_share(alloc: Global, keys: u64, k: u32) -> Result<Self, AllocError>
        requires some { 1 ≤ k }
        requires in_the_table { k ≤ 22 }
        requires fits { keys * bits_for_share k < 2 ^ 64 }
        ensures shape { IfOk result (IsForKeys keys (bits_for_share k)) }
        ensures share { IfOk result (λ filter. LetsFewPass k (bits_for_share k) filter.probes) }
        ensures empty { IfOk result IsEmpty }
        ensures none { IfOk result (PassesNone F.hash_of G.hash_of) }
    {
        Self::for_keys(alloc, keys, (1443 * k).div_ceil(1000))
    }

    /// Inserts the key, and answers whether it is new, as a set does: `true` says that it was not inserted before, and `false` that
    /// it possibly was. It sets the bits at its places, and clears none. Afterwards this key is found, and each that was found
    /// before. It takes no memory.
    pub fn insert(&mut self, key: &[u8]) -> bool
        ensures inserted { Adds self.old self.new (IsProbe F.hash_of G.hash_of self.old key.now) }
        ensures before { (result ≡ false) ↔ Passes F.hash_of G.hash_of self.old key.now }
        ensures passes { Passes F.hash_of G.hash_of self.new key.now }
        ensures kept { AllPassIn F.hash_of G.hash_of self.old self.new }
    {
        words::insert::<F, G>(&mut self.words, self.bits, self.probes, key)
    }

    /// Whether the key is found: the bits at all of its places are set. It is found if it was inserted, and possibly if not.
    pub fn contains(&self, key: &[u8]) -> bool
        ensures { IsTrue result ↔ Passes F.hash_of G.hash_of self.now key.now }
    {
        words::contains::<F, G>(&self.words, self.bits, self.probes, key)
    }

    /// Whether the other filter has as many bits and as many probes, as `union` asks.
    pub fn fits(&self, other: &Self) -> bool
        ensures { IsTrue result ↔ Fits self.now other.now }
    {
        self.bits == other.bits && self.probes == other.probes
    }

    /// Adds the bits of the other filter, of as many bits and probes. Afterwards each key is found that either found.
    pub fn union(&mut self, other: &Self)
        requires { Fits self.old other.now }
        ensures united { Adds self.old self.new (IsSet other.now) }
        ensures kept { AllPassIn F.hash_of G.hash_of self.old self.new }
        ensures taken { AllPassIn F.hash_of G.hash_of other.now self.new }
    {
        words::union(&mut self.words, &other.words);
    }

    /// Clears all bits. No key is found then. The numbers of bits and probes stay.
    pub fn clear(&mut self)
        ensures shape { Fits self.old self.new }
        ensures empty { IsEmpty self.new }
        ensures none { PassesNone F.hash_of G.hash_of self.new }
    {
        self.words.fill(0);
    }

    /// How many bits are set. It goes over all words.
    pub fn ones(&self) -> u64
        ensures { result ≡ count_set self.now.words self.now.bits }
    {
        ones(&self.words, self.bits)
    }

    /// How many keys were inserted, as the zeros tell it, to the nearest whole number. After n keys of good hashes
    /// bits * (1 - 1 / bits)^(probes * n) zeros are expected. The estimate is the n at which these are the zeros that there are
    /// (Odysseas Papapetrou, Wolf Siberski, Wolfgang Nejdl, "Cardinality Estimation and Dynamic Length Adaptation for Bloom
    /// Filters", 2010). For many bits it is about bits / probes * ln(bits / zeros). `None` exactly where all bits are set, which
    /// tells nothing.
    ///
    /// After half a key less, more zeros are expected. After half a key more, no more are: this is proved for up to 2^40 bits, and
    /// for up to 2^59 where half of them are zeros. The estimate is at most 2^64 - 1. It goes over all words.
    pub fn estimate(&self) -> Option<u64>
        ensures none { IsNone result ↔ (count_set self.now.words self.now.bits ≡ self.now.bits) }
        ensures some { IfSome result (IsEstimate self.now) }
    {
        let zeros = self.bits - self.ones();
        if zeros == 0 {
            return None;
        }
        Some(nearest_keys(self.bits, self.probes, zeros))
    }

    /// How many bits the filter has, at least 1.
    pub fn bits(&self) -> u64
        ensures { result ≡ self.now.bits }
    {
        self.bits
    }

    /// How many probes each key has, at least 1.
    pub fn probes(&self) -> u32
        ensures { result ≡ self.now.probes }
    {
        self.probes
    }

    /// The bits in words of 64, the lowest first, to be stored beside `bits` and `probes`. The hashers are not stored: whoever
    /// reads the words back has to name the same two.
    pub fn words(&self) -> &[u64]
        ensures words { result.now ≡ self.now.words }
        ensures is_filter { IsFilter self.now }
    {
        &self.words
    }

    /// A law with no code: a filter has a bit and a probe at least, as many words as its bits need, and no bit beyond them.
    pub fn is_filter(&self)
        ensures { IsFilter self.now }
    {
        let _words = &self.words;
    }

    /// The words, for which the filter is given up. It takes no memory.
    pub fn into_words(self) -> Vec<u64>
        ensures words { result.items ≡ self.words }
        ensures is_filter { IsFilter self }
    {
        self.words
    }

    /// The filter of these words, as `words` gave them. It refuses exactly where no filter of so many bits and probes has these
    /// words: no bit, no probe, more or fewer words than the bits need, or a bit set beyond them. The words come back then.
    pub fn from_words(words: Vec<u64>, bits: u64, probes: u32) -> Result<Self, NoFilter>
        ensures ok { IfOk result (λ filter. filter ≡ filter_of bits probes words.items) }
        ensures exactly { IsOk result ↔ IsFilter (filter_of bits probes words.items) }
        ensures err { IfErr result (λ refused. refused.words ≡ words) }
    {
        let fits = bits > 0 && probes > 0 && words.len() as u64 == bits.div_ceil(64);
        if !fits || !no_bits_beyond(&words, bits) {
            return Err(NoFilter { words });
        }
        Ok(Bloom {
            words,
            bits,
            probes,
            first: PhantomData,
            second: PhantomData,
        })
    }
}

impl<F: Streamed, G: Streamed> Bloom<F, G> {
    /// Whether the key is found whose pieces these are, in order: what `contains` answers to the joined pieces. It takes no
    /// memory.
    pub fn contains_pieces(&self, pieces: &[&[u8]]) -> bool
        ensures { IsTrue result ↔ Passes F.hash_of G.hash_of self.now (joined pieces.now) }
    {
        let (first, second) = (answer_of_pieces::<F>(pieces), answer_of_pieces::<G>(pieces));
        has_all(&self.words, self.bits, self.probes, first, second)
    }
}

/// What the number of set bits tells where it is none or all, with no code.
#[tactic(auto, using(crate::proofs::Ones::all_set, crate::proofs::Ones::none_set))]
pub fn no_bit_or_all()
    ensures none { (filter : Filter) → IsFilter filter
        → (count_set filter.words filter.bits ≡ 0) ↔ IsEmpty filter }
    ensures all { (filter : Filter) → (count_set filter.words filter.bits ≡ filter.bits)
        ↔ ((j : ℕ) → j < filter.bits → IsSet filter j) }
{}
