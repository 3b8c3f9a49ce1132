//! The fx hash, its laws of lists of pieces, and std's maps and sets by it, under the names that users know from the crate fxhash.
ghost use Rattle.std.specs.Prelude.{◌≡◌, ◌∷◌, [], length};
ghost use Rattle.hash_fx.specs.Fx.{fx64};

pub use hash_fx::{
    FxHasher, FxHasher32, FxHasher64, FxSplit, FxWord, MachineWord, WordHasher, fxhash, fxhash32,
    fxhash64,
};
pub use hash_theorems::fx::pieces as pieces;
use hash_writes::build::{
    BuildFresh, hash_one_number, hash_one_pair_in_writes, hash_one_slice_in_writes,
};
use std::collections::{HashMap, HashSet};

/// Makes an [`FxHasher`] for each key.
pub type FxBuildHasher = BuildFresh<FxHasher>;

/// A map of std by [`FxHasher`]: `FxHashMap::with_hasher(alloc, FxBuildHasher::new())` is an empty one.
pub type FxHashMap<K, V> = HashMap<K, V, FxBuildHasher>;

/// A set of std by [`FxHasher`].
pub type FxHashSet<K> = HashSet<K, FxBuildHasher>;

/// The hash of a number as a key of such a map: that of the number as one word.
#[inline(always)]
#[tactic(auto, using(hash_fx::proofs::Common::arith, hash_fx::proofs::FixedWidths::fx64_number))]
pub fn hash_one_number_fx(key: u64) -> u64
    ensures { result ≡ fx64 0 (key ∷ []) }
{
    hash_one_number::<FxHasher>(key)
}

/// The hash of a slice of bytes as a key of such a map: that of its length as a word, and then each byte as one.
#[inline(always)]
pub fn hash_one_slice_fx(key: &[u8]) -> u64
    ensures { result ≡ fx64 0 (length key.now ∷ key.now) }
{
    hash_one_slice_in_writes::<FxHasher>(key)
}

/// The hash of a pair of numbers as a key of such a map: that of the two as words.
#[inline(always)]
#[tactic(auto, using(hash_fx::proofs::Common::arith, hash_fx::proofs::FixedWidths::fx64_pair))]
pub fn hash_one_pair_fx(key: (u64, u64)) -> u64
    ensures { result ≡ fx64 0 (key.0 ∷ key.1 ∷ []) }
{
    hash_one_pair_in_writes::<FxHasher>(key)
}
