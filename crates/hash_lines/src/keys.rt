//! poly61 and SipHash-2-4 under two keys, of what a reader gives.
ghost use Rattle.std.specs.Prelude.{◌<◌, ◌≤◌};
ghost use Rattle.hash_laws.specs.Limited.{Hashes, read};
ghost use Rattle.hash_lines.specs.Sums.{poly61_at_both, siphash24_at};

use hash_blocks::siphash::{SipHasher24, SipKey};
use hash_keyed::pair::Poly61Pair;
use hash_kinds::reading::Unhashed;
use hashers::reader::hash_stream;
use std::io::Read;

/// poly61 under two keys of what is read, the hash at the first key above that at the second.
pub(crate) fn hash_of_poly61<R: Read, const N: usize>(
    keys: (u64, u64),
    limit: u64,
    r: &mut R,
) -> Result<u128, Unhashed>
    requires not_empty { 0 < N }
    requires small { N ≤ 65536 }
    ensures { Hashes (poly61_at_both keys) (read limit R.remaining r.old r.new) result }
{
    let mut pair = Poly61Pair::new(keys.0, keys.1);
    match hash_stream::<Poly61Pair, R, N>(&mut pair, r, limit) {
        Err(fault) => Err(Unhashed::ReadFault(fault)),
        Ok(taken) => {
            if !taken.ended {
                return Err(Unhashed::TooLong);
            }
            let (high, low) = pair.finish();
            Ok(u128::from(high) * (1 << 64) + u128::from(low))
        }
    }
}

/// SipHash-2-4 of what is read, under a key of these two words.
pub(crate) fn hash_of_siphash24<R: Read, const N: usize>(
    keys: (u64, u64),
    limit: u64,
    r: &mut R,
) -> Result<u64, Unhashed>
    requires not_empty { 0 < N }
    requires small { N ≤ 65536 }
    ensures { Hashes (siphash24_at keys) (read limit R.remaining r.old r.new) result }
{
    let (k0, k1) = keys;
    let mut hasher = SipHasher24::new(SipKey { k0, k1 });
    match hash_stream::<SipHasher24, R, N>(&mut hasher, r, limit) {
        Err(fault) => Err(Unhashed::ReadFault(fault)),
        Ok(taken) => {
            if taken.ended {
                Ok(hasher.hash())
            } else {
                Err(Unhashed::TooLong)
            }
        }
    }
}
