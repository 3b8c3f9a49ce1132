//! A Bloom filter in words that the caller keeps, beside its numbers of bits and probes. There is room for a filter where it has a bit
//! and a probe at least, and as many words as the bits need; where there is none, a call answers `false` and changes nothing.
ghost use Rattle.std.specs.Prelude.{◌≡◌, ◌↔◌};
ghost use Rattle.hash_c.specs.Common.{ℕ, List, IsTrue, length, OnFalse, OnTrue, fnv1a64_of, lookup3_of, spooky};
ghost use Rattle.hash_bloom.specs.Filter.{Adds, AllPassIn, IsSet, filter_of};
ghost use Rattle.hash_c.specs.Blooms.{IsFound, IsInserted};

use hash_bloom::words;
use hashers::fnv::FNV1aHasher64;
use hashers::jenkins::Lookup3Hasher;
use hashers::jenkins::spooky_hash::SpookyHasher;
use hashers::laws::Piecewise;

/// Inserts the key, and answers whether it is new.
#[inline(always)]
fn insert<F: Piecewise, G: Piecewise>(words: &mut [u64], bits: u64, probes: u32, key: &[u8]) -> bool
    ensures { IsInserted F.hash_of G.hash_of
        (filter_of bits probes words.old) (filter_of bits probes words.new) key.now result }
{
    words::has_room(words, bits, probes) && words::insert::<F, G>(words, bits, probes, key)
}

/// Whether the key is found.
#[inline(always)]
fn contains<F: Piecewise, G: Piecewise>(words: &[u64], bits: u64, probes: u32, key: &[u8]) -> bool
    ensures { IsTrue result ↔ IsFound F.hash_of G.hash_of (filter_of bits probes words.now) key.now }
{
    words::has_room(words, bits, probes) && words::contains::<F, G>(words, bits, probes, key)
}

/// Inserts the key by spooky and lookup3, and answers whether it is new, as a set does: `true` says that it was not inserted before, and
/// `false` that it possibly was.
#[unsafe(no_mangle)]
pub extern "C" fn hashers_bloom_spooky_lookup3_insert(
    words: &mut [u64],
    bits: u64,
    probes: u32,
    key: &[u8],
) -> bool
    ensures { IsInserted (λ text. (spooky 0 0 text).0) lookup3_of
        (filter_of bits probes words.old) (filter_of bits probes words.new) key.now result }
{
    insert::<SpookyHasher, Lookup3Hasher>(words, bits, probes, key)
}

/// Whether the key is found by spooky and lookup3. It is if it was inserted, and possibly if not.
#[unsafe(no_mangle)]
pub extern "C" fn hashers_bloom_spooky_lookup3_contains(
    words: &[u64],
    bits: u64,
    probes: u32,
    key: &[u8],
) -> bool
    ensures { IsTrue result ↔ IsFound (λ text. (spooky 0 0 text).0) lookup3_of
        (filter_of bits probes words.now) key.now }
{
    contains::<SpookyHasher, Lookup3Hasher>(words, bits, probes, key)
}

/// Inserts the key by fnv1a64 and lookup3, and answers whether it is new, as a set does: `true` says that it was not inserted before, and
/// `false` that it possibly was.
#[unsafe(no_mangle)]
pub extern "C" fn hashers_bloom_fnv1a64_lookup3_insert(
    words: &mut [u64],
    bits: u64,
    probes: u32,
    key: &[u8],
) -> bool
    ensures { IsInserted fnv1a64_of lookup3_of
        (filter_of bits probes words.old) (filter_of bits probes words.new) key.now result }
{
    insert::<FNV1aHasher64, Lookup3Hasher>(words, bits, probes, key)
}

/// Whether the key is found by fnv1a64 and lookup3. It is if it was inserted, and possibly if not.
#[unsafe(no_mangle)]
pub extern "C" fn hashers_bloom_fnv1a64_lookup3_contains(
    words: &[u64],
    bits: u64,
    probes: u32,
    key: &[u8],
) -> bool
    ensures { IsTrue result ↔ IsFound fnv1a64_of lookup3_of
        (filter_of bits probes words.now) key.now }
{
    contains::<FNV1aHasher64, Lookup3Hasher>(words, bits, probes, key)
}

/// Adds the bits of another filter of as many bits and probes, by whatever hashes, and answers whether it has as many words; else
/// nothing changes. Afterwards each key is found that either found.
#[unsafe(no_mangle)]
pub extern "C" fn hashers_bloom_union(words: &mut [u64], others: &[u64]) -> bool
    ensures exactly { IsTrue result ↔ (length words.old ≡ length others.now) }
    ensures united { OnTrue result ((bits probes : ℕ)
        → Adds (filter_of bits probes words.old) (filter_of bits probes words.new)
        (IsSet (filter_of bits probes others.now))) }
    ensures taken { OnTrue result ((f g : List ℕ → ℕ) (bits probes : ℕ)
        → AllPassIn f g (filter_of bits probes others.now) (filter_of bits probes words.new)) }
    ensures kept { (f g : List ℕ → ℕ) (bits probes : ℕ)
        → AllPassIn f g (filter_of bits probes words.old) (filter_of bits probes words.new) }
    ensures refused { OnFalse result (words.new ≡ words.old) }
{
    let fits = words.len() == others.len();
    if fits {
        words::union(words, others);
    }
    fits
}
