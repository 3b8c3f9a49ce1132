//! What the source of the keys of maps gives.
use crate::tests::{all_hold, same};
use hash_map_keys::hasher::map_hash;
use hash_map_keys::keys::MapKeys;
use hash_map_keys::numbers::number_hash;
use std::hash::BuildHasher;
use std::io;
use std::random::RandomSource;

/// A source of bytes that are all 7.
struct Sevens;

impl RandomSource for Sevens {
    fn fill_bytes(&self, buf: &mut [u8]) -> io::Result<()> {
        buf.fill(7);
        Ok(())
    }
}

/// Sixteen bytes of 7.
const SEVENS: u128 = 0x07070707070707070707070707070707;

/// What is drawn is what the source gives: the multipliers and the addend are its bytes, and the key for texts is below the prime.
#[test]
fn keys_are_what_the_source_gives(rt: HostRuntime) {
    let mut bytes = [0; 200];
    for at in 1..200usize {
        bytes[at] = (at * 37 % 256) as u8;
    }
    match MapKeys::new(&Sevens) {
        Ok(keys) => {
            let of = keys.hashers();
            let hash = of.hash_one::<u64>(255);
            same(
                &rt,
                &[hash, map_hash(&keys, &bytes)],
                &[number_hash(SEVENS, SEVENS, 255), 5931894172722287186],
            );
        }
        Err(_) => all_hold(&rt, &[false]),
    }
}
