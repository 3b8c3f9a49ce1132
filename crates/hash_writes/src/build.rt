//! What makes a hasher for each key of std's maps and sets.
//!
//! std feeds a key in one or more writes, which `hash_input` of the key's type lists: a number is its little-endian bytes,
//! a slice its length as 8 bytes and then each item, a `&str` its bytes and then 0xFF, a pair its first part and then its
//! second.
ghost use Rattle.std.specs.Prelude.{◌≡◌, ◌++◌, ◌∷◌, [], All, fold, length};
ghost use Rattle.std.specs.Hash.{le_bytes};
ghost use Rattle.std.specs.List.{concat};
ghost use Rattle.hash_laws.specs.Text.{IsText};

use hash_laws::traits::{Piecewise, Streamed};
use std::hash::{BuildHasher, Hash, Hasher};
use std::marker::PhantomData;

/// Makes the default hasher of `H` for each key, as std's `BuildHasherDefault` does for types that can be copied. It takes
/// no memory, and each one makes the same hashers.
///
/// `HashMap::<K, V, BuildFresh<H>>::with_hasher(alloc, BuildFresh::new())` is a map of std over `H`. It keeps no secret: for the
/// keys of strangers take std's `RandomState`.
#[derive(Clone, Copy, Default)]
pub struct BuildFresh<H> {
    hasher: PhantomData<H>,
}

impl<H> BuildFresh<H> {
    /// The builder.
    pub const fn new() -> BuildFresh<H> {
        BuildFresh {
            hasher: PhantomData,
        }
    }
}

impl<H: Piecewise> BuildHasher for BuildFresh<H> {
    type Hasher = H;

    ghost build_hasher = { λ builder. H.first };

    /// The default hasher of `H`.
    #[inline(always)]
    fn build_hasher(&self) -> H {
        H::fresh()
    }

    /// The hash of a key: the answer to the fresh state after the writes that std makes of it, in their order.
    #[inline(always)]
    fn hash_one<T: Hash + Drop>(&self, x: T) -> u64
        ensures std { result ≡ H.finish (fold H.write H.first (T.hash_input x)) }
        ensures defined { result ≡ H.answer (fold H.after H.fresh (T.hash_input x)) }
    {
        let mut hasher = H::fresh();
        x.hash(&mut hasher);
        hasher.answer()
    }
}

/// The hash of a key by [`BuildFresh`], where the split does not matter: that of the bytes that std feeds, joined.
#[inline(always)]
pub fn hash_one_joined<H: Streamed, K: Hash + Drop>(key: K) -> u64
    ensures { All IsText (K.hash_input key) → result ≡ H.hash_of (concat (K.hash_input key)) }
{
    BuildFresh::<H>::new().hash_one(key)
}

/// The hash of a slice of bytes as a key: that of its length in 8 bytes, followed by its bytes.
#[inline(always)]
pub fn hash_one_slice<H: Streamed>(key: &[u8]) -> u64
    ensures { result ≡ H.hash_of (le_bytes 8 (length key.now) ++ key.now) }
{
    hash_one_joined::<H, &[u8]>(key)
}

/// The hash of a number as a key: that of its 8 bytes, the lowest first. It is one write, so this holds where the split matters, too.
#[inline(always)]
pub fn hash_one_number<H: Piecewise>(key: u64) -> u64
    ensures { result ≡ H.hash_of (le_bytes 8 key) }
{
    BuildFresh::<H>::new().hash_one::<u64>(key)
}

/// The hash of a pair of numbers as a key: that of the 8 bytes of the first, followed by those of the second.
#[inline(always)]
pub fn hash_one_pair<H: Streamed>(key: (u64, u64)) -> u64
    ensures { result ≡ H.hash_of (le_bytes 8 key.0 ++ le_bytes 8 key.1) }
{
    hash_one_joined::<H, (u64, u64)>(key)
}

/// The hash of a slice of bytes as a key, also where the split matters: the answer after its length in 8 bytes as one write, and then
/// each of its bytes as a write of its own.
#[inline(always)]
pub fn hash_one_slice_in_writes<H: Piecewise>(key: &[u8]) -> u64
    ensures { result ≡ H.answer (fold (λ s byte. H.after s (byte ∷ []))
        (H.after H.fresh (le_bytes 8 (length key.now))) key.now) }
{
    BuildFresh::<H>::new().hash_one::<&[u8]>(key)
}

/// The hash of a pair of numbers as a key, also where the split matters: the answer after the 8 bytes of the first as one write, and then
/// those of the second.
#[inline(always)]
pub fn hash_one_pair_in_writes<H: Piecewise>(key: (u64, u64)) -> u64
    ensures { result ≡ H.answer (H.after (H.after H.fresh (le_bytes 8 key.0)) (le_bytes 8 key.1)) }
{
    BuildFresh::<H>::new().hash_one::<(u64, u64)>(key)
}

/// The hash of a string as a key: that of its bytes in UTF-8, followed by 0xFF.
#[inline(always)]
pub fn hash_one_str<H: Streamed>(key: &str) -> u64
    ensures { result ≡ H.hash_of (key.now ++ 0xFF ∷ []) }
{
    hash_one_joined::<H, &str>(key)
}

/// Feeds a key to a hasher for which the split does not matter: the state is that after the bytes that std feeds, joined, from
/// wherever the hasher stood.
#[inline(always)]
pub fn feed_key<H: Streamed, K: Hash + Drop>(h: &mut H, key: K)
    ensures { All IsText (K.hash_input key) → H.in_range (H.state h.old)
        → H.state h.new ≡ H.after (H.state h.old) (concat (K.hash_input key)) }
{
    key.hash(h);
}
