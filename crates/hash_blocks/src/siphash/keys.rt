//! A random key, and the hashers under it.
ghost use Rattle.std.specs.Prelude.{◌≡◌, ◌+◌, ◌≤◌, [], IfOk, fold};
ghost use Rattle.std.specs.List.{concat};
ghost use Rattle.hash_blocks.specs.Blocks.{after, position};
ghost use Rattle.hash_blocks.specs.SipHash.{after_block, ended, siphash, start};

use crate::siphash::hasher::{SipHasher13, SipKey};
use std::hash::{BuildHasher, Hash, Hasher};
use std::io;
use std::random::RandomSource;

/// A random key, and the hashers by SipHash-1-3 that start from it, as the maps of Rust have them. That strangers who do not know
/// the key find no texts of one hash is what SipHash's authors claim, and nothing that is proved.
#[derive(Clone, Copy)]
pub struct SipKeys {
    key: SipKey,
}

impl SipKeys {
    /// A key from the system's source of randomness: 128 random bits, not all of them 0. It fails where the source does.
    pub fn new(rt: &impl RandomSource) -> io::Result<SipKeys>
        ensures { IfOk result (λ keys. 1 ≤ keys.key.k0 + keys.key.k1) }
    {
        let mut first = [0; 8];
        let mut last = [0; 8];
        rt.fill_bytes(&mut first)?;
        rt.fill_bytes(&mut last)?;
        let (k0, k1) = (u64::from_le_bytes(first), u64::from_le_bytes(last));
        let k0 = if k1 == 0 { k0.max(1) } else { k0 };
        Ok(SipKeys::with_key(SipKey { k0, k1 }))
    }

    /// This key.
    pub fn with_key(key: SipKey) -> SipKeys
        ensures { result ≡ record { key = key } }
    {
        SipKeys { key }
    }
}

impl BuildHasher for SipKeys {
    type Hasher = SipHasher13;

    ghost build_hasher = { λ k. position 8 (after_block 1) (start k.key.k0 k.key.k1) [] };

    #[inline(always)]
    fn build_hasher(&self) -> SipHasher13 {
        SipHasher13::new(self.key)
    }

    /// The hash of a key of the map: SipHash-1-3 of the bytes that std feeds, joined, under this key.
    #[inline(always)]
    fn hash_one<T: Hash + Drop>(&self, x: T) -> u64
        ensures std { let key = self.now.key in
            let at = fold (after 8 (after_block 1)) (position 8 (after_block 1) (start key.k0 key.k1) []) (T.hash_input x) in
            result ≡ ended 1 3 at.state at.left at.total }
        ensures defined { result ≡ siphash 1 3 self.now.key.k0 self.now.key.k1 (concat (T.hash_input x)) }
    {
        let mut hasher = SipHasher13::new(self.key);
        x.hash(&mut hasher);
        hasher.finish()
    }
}
