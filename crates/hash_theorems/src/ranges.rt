//! The ranges of hashes of 128 bits.
ghost use Rattle.std.specs.Prelude.{◌<◌, ◌^◌, ℕ, List};
ghost use Rattle.hash_blocks.specs.Murmur3x128.{murmur3_128};
ghost use Rattle.hash_jenkins.specs.Spooky.{spooky, spooky_v1};
ghost use Rattle.hash_xxh3.specs.Wide.{xxh3_128_of};

/// Both words of a hash of 128 bits are below 2^64, a law with no code.
pub fn wide_hashes_are_two_words()
    ensures xxh3 { (seed : ℕ) (text : List ℕ)
        → ((xxh3_128_of seed text).0 < 2 ^ 64) × ((xxh3_128_of seed text).1 < 2 ^ 64) }
    ensures murmur3 { (seed : ℕ) (text : List ℕ)
        → ((murmur3_128 seed text).0 < 2 ^ 64) × ((murmur3_128 seed text).1 < 2 ^ 64) }
    ensures spooky { (seed1 seed2 : ℕ) (text : List ℕ) → seed1 < 2 ^ 64 → seed2 < 2 ^ 64
        → ((spooky seed1 seed2 text).0 < 2 ^ 64) × ((spooky seed1 seed2 text).1 < 2 ^ 64) }
    ensures spooky_v1 { (seed1 seed2 : ℕ) (text : List ℕ) → seed1 < 2 ^ 64 → seed2 < 2 ^ 64
        → ((spooky_v1 seed1 seed2 text).0 < 2 ^ 64) × ((spooky_v1 seed1 seed2 text).1 < 2 ^ 64) }
{}
