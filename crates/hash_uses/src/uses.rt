//! How a caller uses the library: five proved examples.
ghost use Rattle.std.specs.Prelude.{false, ◌≡◌, ◌≢◌, ◌<◌, ◌^◌, ◌↔◌, ℕ, IfSome, IfNone, IfOk, IfErr, OnErr, OnOk};
ghost use Rattle.std.specs.Bool.{OnFalse};
ghost use Rattle.std.specs.FinMap as map;
ghost use Rattle.std.specs.Io.KnownBytes.{IsAtEnd};
ghost use Rattle.hashers.specs.DifferWithin.{DifferWithin};
ghost use Rattle.hashers.specs.Fnv.{fnv1a64_from, fnv1a64_basis, fnv1a64_of};
ghost use Rattle.hashers.specs.Oaat.{oaat_of};
ghost use Rattle.hashers.specs.Oz.{djb2_from, djb2_of};
ghost use Rattle.hashers.specs.Reading.{FeedsRead};

use hash_buckets::{Buckets, NoRoom};
use hashers::fnv::{FNV1aHasher64, fnv1a64};
use hashers::jenkins::oaat;
use hashers::laws::{Piecewise, Undo, apart_djb2};
use hashers::oz::DJB2Hasher;
use hashers::reader::{Fault, hash_reader};
use std::hash::Hasher;
use std::io::Read;

/// A stream's fingerprint: the hash of just what was read, if it ends within the limit, and `None` where the limit was met.
/// A failed read is handed on; what was read before it is gone with the hasher.
pub fn fingerprint<R: Read>(r: &mut R, limit: u64) -> Result<Option<u64>, Fault>
    ensures hash { IfOk result (λ told. IfSome told (λ hash. (bytes : ℕ) × (bytes < limit)
        × FeedsRead fnv1a64_from 4096 (R.remaining r.old) (R.remaining r.new) fnv1a64_basis hash bytes)) }
    ensures ended { IfOk result (λ told. IfSome told (λ _. IsAtEnd (R.remaining r.new))) }
    ensures limit_met { IfOk result (λ told. IfNone told ((hash : ℕ)
        × FeedsRead fnv1a64_from 4096 (R.remaining r.old) (R.remaining r.new) fnv1a64_basis hash limit)) }
    ensures fault { IfErr result (λ fault. fault.bytes < limit) }
{
    let mut hasher = FNV1aHasher64::fresh();
    let taken = hash_reader::<FNV1aHasher64, R, 4096>(&mut hasher, r, limit)?;
    Ok(if taken.ended {
        Some(hasher.answer())
    } else {
        None
    })
}

/// Takes a text's last piece out and another in, without the text before it.
pub fn replace_last(h: &mut DJB2Hasher, old: &[u8], new: &[u8])
    ensures { (s : ℕ) → s < 2 ^ 32 → djb2_from s old.now ≡ h.old → h.new ≡ djb2_from s new.now }
{
    h.unwrite(old);
    h.write(new);
}

/// The two hashes of a key from which a Bloom filter makes all others.
pub fn bloom_hashes(key: &[u8]) -> (u64, u64)
    ensures first { result.0 ≡ fnv1a64_of key.now }
    ensures second { result.1 ≡ oaat_of key.now }
{
    (fnv1a64(key), oaat(key))
}

/// Whether two keys may share a slot of a `djb2` table: `false` promises that their hashes differ, and is answered for
/// keys of one length that differ within six neighbouring places, and nowhere in the three high bits of a byte.
pub fn may_collide(x: &[u8], y: &[u8]) -> bool
    ensures differ { OnFalse result (djb2_of x.now ≢ djb2_of y.now) }
    ensures exactly { (result ≡ false) ↔ DifferWithin 6 0xE0 x.now y.now }
{
    !apart_djb2(x, y)
}

/// Remembers a value under a key, and answers the value that was there.
pub fn remember<H: Piecewise>(
    table: &mut Buckets<H, 64>,
    key: Vec<u8>,
    value: u64,
) -> Result<Option<u64>, NoRoom>
    ensures before { IfOk result (λ old. old ≡ map.get table.old key.items) }
    ensures after { OnOk result (table.new ≡ map.insert table.old key.items value) }
    ensures unchanged { OnErr result (table.new ≡ table.old) }
{
    table.insert(key, value)
}
