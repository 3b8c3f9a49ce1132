//! A filter in words that the caller keeps, beside its numbers of bits and probes. Bit i is that of value 2^(i mod 64) in word i / 64.
ghost use Rattle.std.specs.Prelude.{◌≡◌, ◌↔◌, ℕ, List, IsTrue, false, length};
ghost use Rattle.hash_bloom.specs.Filter.{Adds, AllPassIn, HasRoom, IsProbe, IsSet, Passes, filter_of};

use crate::bits::{has_all, set_all};
use hashers::laws::{Piecewise, hash_of};

/// Whether there are a bit and a probe at least, and as many words as the bits need.
pub fn has_room(words: &[u64], bits: u64, probes: u32) -> bool
    ensures { IsTrue result ↔ HasRoom (filter_of bits probes words.now) }
{
    bits > 0 && probes > 0 && bits.div_ceil(64) <= words.len() as u64
}

/// Inserts the key, and answers whether it is new, as a set does: it sets the bits at its places, of which one was not set. It
/// clears none. Afterwards this key is found, and each that was found before.
pub fn insert<F: Piecewise, G: Piecewise>(
    words: &mut [u64],
    bits: u64,
    probes: u32,
    key: &[u8],
) -> bool
    requires { HasRoom (filter_of bits probes words.old) }
    ensures inserted { Adds (filter_of bits probes words.old) (filter_of bits probes words.new)
        (IsProbe F.hash_of G.hash_of (filter_of bits probes words.old) key.now) }
    ensures before { (result ≡ false) ↔ Passes F.hash_of G.hash_of (filter_of bits probes words.old) key.now }
    ensures passes { Passes F.hash_of G.hash_of (filter_of bits probes words.new) key.now }
    ensures kept { AllPassIn F.hash_of G.hash_of (filter_of bits probes words.old) (filter_of bits probes words.new) }
{
    let (first, second) = (hash_of::<F>(key), hash_of::<G>(key));
    set_all(words, bits, probes, first, second)
}

/// Whether the key is found: the bits at all of its places are set.
pub fn contains<F: Piecewise, G: Piecewise>(
    words: &[u64],
    bits: u64,
    probes: u32,
    key: &[u8],
) -> bool
    requires { HasRoom (filter_of bits probes words.now) }
    ensures { IsTrue result ↔ Passes F.hash_of G.hash_of (filter_of bits probes words.now) key.now }
{
    let (first, second) = (hash_of::<F>(key), hash_of::<G>(key));
    has_all(words, bits, probes, first, second)
}

/// Sets the bits that are set in the others, of as many words. Whatever the numbers of bits and probes, if both filters have the
/// same, and whatever the hashes: afterwards each key is found that either found.
pub fn union(words: &mut [u64], others: &[u64])
    requires { length words.old ≡ length others.now }
    ensures united { (bits probes : ℕ) → Adds (filter_of bits probes words.old) (filter_of bits probes words.new)
        (IsSet (filter_of bits probes others.now)) }
    ensures kept { (f g : List ℕ → ℕ) (bits probes : ℕ)
        → AllPassIn f g (filter_of bits probes words.old) (filter_of bits probes words.new) }
    ensures taken { (f g : List ℕ → ℕ) (bits probes : ℕ)
        → AllPassIn f g (filter_of bits probes others.now) (filter_of bits probes words.new) }
{
    for i in 0..words.len() {
        words[i] |= others[i];
    }
}
