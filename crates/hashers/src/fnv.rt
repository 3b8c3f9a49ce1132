//! FNV-1a, and std's maps and sets by it.
pub use hash_bytes::fnv::{
    BASIS_32, BASIS_64, FNV1aHasher32, FNV1aHasher64, Fnv1aRule32, Fnv1aRule64, PRIME_32, PRIME_64,
    UNPRIME_32, UNPRIME_64, fnv1a32, fnv1a64, origin_of_constants,
};
use hash_writes::build::BuildFresh;
use std::collections::{HashMap, HashSet};

/// Makes an [`FNV1aHasher64`] for each key of a map or a set, as the type of this name in the crate fnv does.
pub type FnvBuildHasher = BuildFresh<FNV1aHasher64>;

/// A map of std by FNV-1a at 64 bits: `FnvHashMap::with_hasher(alloc, FnvBuildHasher::new())` is an empty one.
pub type FnvHashMap<K, V> = HashMap<K, V, FnvBuildHasher>;

/// A set of std by FNV-1a at 64 bits.
pub type FnvHashSet<K> = HashSet<K, FnvBuildHasher>;
