//! Hashers of 128 bits.
ghost use Rattle.std.specs.Prelude.{◌≡◌, ◌+◌, ◌*◌, ◌^◌, ℕ, List};
ghost use Rattle.hash_kinds.specs.Wide.{both, murmur3_128_of, spooky128, xxh128};

use hash_blocks::BlockHasher;
use hash_blocks::murmur3::Murmur3Rule128;
use hash_jenkins::spooky_hash::SpookyHasher;
use hash_laws::traits::Streamed;
use hash_xxh3::Xxh3Hasher;

/// A hasher of texts that has 128 bits of them, as one number.
pub trait WideHash: Streamed {
    /// The number of a text, from the default start.
    ghost wide_of: { List ℕ → ℕ };

    /// The number of the text so far.
    fn wide(&self) -> u128
        ensures { (text : List ℕ) → Self.stands_at self.now Self.start text → result ≡ wide_of text };
}

/// Two words as one number, the first above the second.
pub fn both(words: (u64, u64)) -> u128
    ensures { result ≡ both words }
{
    u128::from(words.0) * (1 << 64) + u128::from(words.1)
}

impl WideHash for SpookyHasher {
    ghost wide_of = { spooky128 };

    fn wide(&self) -> u128 {
        both(self.finish128())
    }
}

impl WideHash for BlockHasher<Murmur3Rule128, 16> {
    ghost wide_of = { murmur3_128_of };

    fn wide(&self) -> u128 {
        both(self.finish128())
    }
}

impl WideHash for Xxh3Hasher {
    ghost wide_of = { xxh128 };

    /// The high word stands above the low one, which comes first.
    fn wide(&self) -> u128 {
        let (low, high) = self.finish128();
        both((high, low))
    }
}
