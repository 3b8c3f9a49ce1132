//! Random keys, and the hashers at them.
ghost use Rattle.std.specs.Prelude.{ℕ, ◌≡◌, ◌+◌, ◌*◌, ◌^◌, ◌≤◌, ◌<◌, IfOk, slice_index};
ghost use Rattle.hash_keyed.specs.Poly61.{prime61};
ghost use Rattle.hash_map_keys.specs.KeyState.{fresh_at};
ghost use Rattle.hash_map_keys.specs.MapKeys.{wide, wides};

use crate::hasher::MapHasher;
use std::collections::{HashMap, HashSet};
use std::hash::BuildHasher;
use std::io;
use std::random::RandomSource;

/// The prime 2^61 - 1.
const PRIME: u64 = (1 << 61) - 1;

/// Seventeen random multipliers and an addend for the words of a key of a map, and a random key for what is after its first
/// 128 bytes: for maps and sets whose keys somebody else chooses, as long as they don't depend on these, nor on anything that
/// shows them, such as hashes, the order of a map or the times of its calls.
#[derive(Clone, Copy)]
pub struct MapKeys {
    pub(crate) multipliers: [u128; 17],
    pub(crate) addend: u128,
    pub(crate) text_key: u64,
}

impl MapKeys {
    /// From the system's source of randomness, 296 bytes: all bits of the multipliers, which are never 0, and of the addend, and a
    /// key for texts as the remainder of 64 bits, never 0. It fails where the source does.
    pub fn new(rt: &impl RandomSource) -> io::Result<MapKeys>
        ensures multipliers { IfOk result (λ keys. (j : ℕ) → j < 17 → 1 ≤ slice_index keys.multipliers j) }
        ensures text_key { IfOk result (λ keys. (1 ≤ keys.text_key) × (keys.text_key < prime61)) }
    {
        let mut multipliers = [1; 17];
        for at in 0..17 {
            let number = random_number(rt)?;
            if number > 0 {
                multipliers[at] = number;
            }
        }
        let addend = random_number(rt)?;
        let mut bytes = [0; 8];
        rt.fill_bytes(&mut bytes)?;
        let text_key = 1 + u64::from_le_bytes(bytes) % (PRIME - 1);
        Ok(MapKeys::with_keys(multipliers, addend, text_key))
    }

    /// Fixed keys protect nothing: whoever knows them finds keys of maps that all meet. These are for tests, and for keys
    /// that you draw: any numbers.
    pub fn with_keys(multipliers: [u128; 17], addend: u128, text_key: u64) -> MapKeys
        ensures { result ≡ record {
          multipliers = multipliers;
          addend = addend;
          text_key = text_key;
        } }
    {
        MapKeys {
            multipliers,
            addend,
            text_key,
        }
    }

    /// The same in 37 words: of each multiplier and of the addend the high half before the low one, then the key for texts.
    pub fn from_words(words: &[u64; 37]) -> MapKeys
        ensures { result ≡ record {
          multipliers = wides words.now 17 0;
          addend = wide words.now 34;
          text_key = slice_index words.now 36;
        } }
    {
        let multipliers = [
            wide(words[0], words[1]),
            wide(words[2], words[3]),
            wide(words[4], words[5]),
            wide(words[6], words[7]),
            wide(words[8], words[9]),
            wide(words[10], words[11]),
            wide(words[12], words[13]),
            wide(words[14], words[15]),
            wide(words[16], words[17]),
            wide(words[18], words[19]),
            wide(words[20], words[21]),
            wide(words[22], words[23]),
            wide(words[24], words[25]),
            wide(words[26], words[27]),
            wide(words[28], words[29]),
            wide(words[30], words[31]),
            wide(words[32], words[33]),
        ];
        MapKeys::with_keys(multipliers, wide(words[34], words[35]), words[36])
    }

    /// The hashers at these keys, for maps: `HashMap::with_hasher(alloc, keys.hashers())`.
    #[inline(always)]
    pub fn hashers(&self) -> MapHashers<'_>
        ensures { result.keys.now ≡ self.now }
    {
        MapHashers { keys: self }
    }
}

/// The number of 128 bits of two words.
#[inline(always)]
fn wide(high: u64, low: u64) -> u128
    ensures { result ≡ high * 2 ^ 64 + low }
{
    u128::from(high) * (1 << 64) + u128::from(low)
}

/// A random number of 128 bits.
fn random_number(rt: &impl RandomSource) -> io::Result<u128> {
    let mut bytes = [0; 16];
    rt.fill_bytes(&mut bytes)?;
    Ok(u128::from_le_bytes(bytes))
}

/// The hashers at some keys, which stay where they are: a hasher has a reference to them and no copy.
#[derive(Clone, Copy)]
pub struct MapHashers<'a> {
    keys: &'a MapKeys,
}

impl<'a> BuildHasher for MapHashers<'a> {
    type Hasher = MapHasher<'a>;

    ghost build_hasher = { λ hashers. fresh_at hashers.keys };

    #[inline(always)]
    fn build_hasher(&self) -> MapHasher<'a> {
        MapHasher {
            keys: self.keys,
            sum: self.keys.addend,
            held: 0,
            rest: None,
        }
    }
}

/// A map of std at some keys: `KeyMap::with_hasher(alloc, keys.hashers())` is an empty one.
pub type KeyMap<'a, K, V> = HashMap<K, V, MapHashers<'a>>;

/// A set of std at some keys.
pub type KeySet<'a, K> = HashSet<K, MapHashers<'a>>;
