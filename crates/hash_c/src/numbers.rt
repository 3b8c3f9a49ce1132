//! Numbers under a key of the caller's: one, and a column of them; and keys of maps under a key.
ghost use Rattle.std.specs.Prelude.{◌≡◌, ◌↔◌, ◌%◌, slice_index};
ghost use Rattle.hash_c.specs.Common.{IsTrue, length, OnTrue, OnFalse};
ghost use Rattle.hash_c.specs.Numbers.{AreNumberHashes, hash_at_key};
ghost use Rattle.hash_keyed.specs.Poly61.{prime61};
ghost use Rattle.hash_map_keys.specs.MapKeys.{map_hash, wide, wides};

use hash_kinds::wide::both;
use hash_map_keys::hasher::map_hash;
use hash_map_keys::keys::MapKeys;
use hash_map_keys::numbers::number_hash;

/// A multiplier and an addend of 128 bits, each in two halves.
#[repr(C)]
#[derive(Clone, Copy)]
pub struct NumberKey {
    pub multiplier_high: u64,
    pub multiplier_low: u64,
    pub addend_high: u64,
    pub addend_low: u64,
}

/// The hash of the number at a key.
#[unsafe(no_mangle)]
pub extern "C" fn hashers_number_hash(key: &NumberKey, number: u64) -> u64
    ensures { result ≡ hash_at_key key.now number }
{
    number_hash(
        both((key.multiplier_high, key.multiplier_low)),
        both((key.addend_high, key.addend_low)),
        number,
    )
}

/// Writes the hash of each number, and answers that there are as many places as numbers; else nothing is written.
#[unsafe(no_mangle)]
pub extern "C" fn hashers_number_column(
    key: &NumberKey,
    numbers: &[u64],
    hashes: &mut [u64],
) -> bool
    ensures exactly { IsTrue result ↔ length numbers.now ≡ length hashes.old }
    ensures written { OnTrue result (AreNumberHashes key.now numbers.now hashes.new) }
    ensures refused { OnFalse result (hashes.new ≡ hashes.old) }
{
    if numbers.len() != hashes.len() {
        return false;
    }
    let multiplier = both((key.multiplier_high, key.multiplier_low));
    let addend = both((key.addend_high, key.addend_low));
    for i in 0..hashes.len() {
        hashes[i] = number_hash(multiplier, addend, numbers[i]);
    }
    true
}

/// Keys for the keys of maps: of seventeen multipliers and an addend the high half before the low one, then the key for texts.
#[repr(C)]
#[derive(Clone, Copy)]
pub struct MapKey {
    pub words: [u64; 37],
}

/// The hash of a key of a map, at these.
#[unsafe(no_mangle)]
pub extern "C" fn hashers_map_hash(key: &MapKey, bytes: &[u8]) -> u64
    ensures { result
        ≡ map_hash (wides key.now.words 17 0) (wide key.now.words 34) (slice_index key.now.words 36 % prime61)
        bytes.now }
{
    map_hash(&MapKeys::from_words(&key.words), bytes)
}
