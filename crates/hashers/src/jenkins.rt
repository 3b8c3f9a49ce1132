//! Bob Jenkins' hash functions, and what makes a SpookyHasher under seeds for each key of std's maps and sets.
ghost use Rattle.std.specs.Prelude.{◌≡◌, All, fold};
ghost use Rattle.std.specs.List.{concat};
ghost use Rattle.hash_laws.specs.Text.{IsText};
ghost use Rattle.hash_jenkins.specs.Counted.{after_write, begun};
ghost use Rattle.hash_jenkins.specs.Spooky.{hash, spooky};

use hash_jenkins::spooky_hash::SpookyHasher;
pub use hash_jenkins::{
    Lookup3Hasher, OAATHasher, OaatRule, lookup3, oaat, origin_of_constants,
    spooky_hash as spooky_hash, spooky_parts as spooky_parts, spooky_short as spooky_short,
};
use std::hash::{BuildHasher, Hash, Hasher};

/// Makes a [`SpookyHasher`] under two seeds for each key of std's maps and sets:
/// `HashMap::with_hasher(alloc, BuildSpooky { seed1, seed2 })`.
///
/// Seeds that nobody knows serve against lists of keys that were made beforehand to collide, and not against one who sees hashes, or
/// times, and makes keys by them: SpookyHash is not made to keep its seeds. For the keys of strangers take std's `RandomState`.
#[derive(Clone, Copy)]
pub struct BuildSpooky {
    pub seed1: u64,
    pub seed2: u64,
}

impl BuildHasher for BuildSpooky {
    type Hasher = SpookyHasher;

    ghost build_hasher = { λ seeds. begun seeds.seed1 seeds.seed2 };

    /// The hasher of no bytes under the seeds.
    #[inline(always)]
    fn build_hasher(&self) -> SpookyHasher {
        SpookyHasher::new(self.seed1, self.seed2)
    }

    /// The hash of a key: that of the bytes that std feeds, joined, under the seeds.
    #[inline(always)]
    fn hash_one<T: Hash + Drop>(&self, x: T) -> u64
        ensures std { result
            ≡ (hash (fold after_write (begun self.now.seed1 self.now.seed2) (T.hash_input x)).at).0 }
        ensures defined { All IsText (T.hash_input x)
            → result ≡ (spooky self.now.seed1 self.now.seed2 (concat (T.hash_input x))).0 }
    {
        let mut hasher = SpookyHasher::new(self.seed1, self.seed2);
        x.hash(&mut hasher);
        hasher.finish()
    }
}
