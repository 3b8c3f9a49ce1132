//! A hasher under random keys.
ghost use Rattle.std.specs.Prelude.{◌≡◌, ◌+◌, ◌≤◌, length};
ghost use Rattle.std.specs.Hash.FoldHasher as folding;
ghost use Rattle.text_set.specs.Keyed as keyed;

use std::hash::{BuildHasher, Hasher};
use std::io;
use std::random::RandomSource;

/// Two random keys, and the hashers that start from them, for texts that somebody else chooses.
///
/// Nobody is known to make texts that collide who does not know the keys. That is no proof: the step is made for speed and no
/// cipher, and whoever measures times or sees hashes may learn the keys. std's `RandomState` rests on a function that was made to
/// keep its keys, and is slower.
#[derive(Clone, Copy)]
pub struct RandomKeys {
    first: u64,
    second: u64,
}

impl RandomKeys {
    /// Keys from the system's source of randomness. It fails where that does.
    pub fn new(rt: &impl RandomSource) -> io::Result<RandomKeys> {
        let mut bytes = [0; 16];
        rt.fill_bytes(&mut bytes)?;
        Ok(RandomKeys::with_keys(read_u64(&bytes, 0), read_u64(&bytes, 8)))
    }

    /// These keys.
    pub fn with_keys(first: u64, second: u64) -> RandomKeys
        ensures { result ≡ record { first = first; second = second } }
    {
        RandomKeys { first, second }
    }
}

impl BuildHasher for RandomKeys {
    type Hasher = KeyedHasher;

    ghost build_hasher = { keyed.initial };

    #[inline(always)]
    fn build_hasher(&self) -> KeyedHasher {
        KeyedHasher {
            state: self.first,
            key: self.second,
        }
    }
}

/// A hasher by folded multiplication under two keys: it multiplies 16 bytes at a time, each half under a key, and joins the
/// halves of the product by xor. So std's `FoldHasher` hashes, under one known key; the step is wyhash's (Wang Yi, in the
/// public domain). The result depends on the split into writes.
///
/// The first key and a text's length are added, so texts of near lengths collide under a share of all keys. Of texts of up to 8
/// bytes at most nine, one of each length, meet in one factor, whatever the keys are.
#[derive(Clone, Copy)]
pub struct KeyedHasher {
    state: u64,
    key: u64,
}

#[inline(always)]
fn folded_multiply(a: u64, b: u64) -> u64
    ensures { result ≡ folding.folded_multiply a b }
{
    let product = a as u128 * b as u128;
    (product & 0xFFFF_FFFF_FFFF_FFFF) as u64 ^ (product >> 64) as u64
}

#[inline(always)]
fn read_u32(bytes: &[u8], at: usize) -> u64
    requires { at + 4 ≤ length bytes.now }
    ensures { result ≡ folding.read_u32 bytes.now at }
{
    let four = &bytes[at..at + 4];
    u32::from_le_bytes([four[0], four[1], four[2], four[3]]) as u64
}

#[inline(always)]
fn read_u64(bytes: &[u8], at: usize) -> u64
    requires { at + 8 ≤ length bytes.now }
    ensures { result ≡ folding.read_u64 bytes.now at }
{
    let eight = &bytes[at..at + 8];
    read_u32(eight, 0) | read_u32(eight, 4) << 32
}

/// Up to 8 bytes as one number, by reads that may overlap.
#[inline(always)]
fn read_short(bytes: &[u8]) -> u64
    ensures { result ≡ folding.read_short bytes.now }
{
    let len = bytes.len();
    if len >= 4 {
        read_u32(bytes, 0) | read_u32(bytes, len - 4) << 32
    } else if len > 0 {
        bytes[0] as u64 | (bytes[len / 2] as u64) << 8 | (bytes[len - 1] as u64) << 16
    } else {
        0
    }
}

impl Hasher for KeyedHasher {
    ghost write = { keyed.write };

    ghost finish = { keyed.finish };

    #[inline(always)]
    fn finish(&self) -> u64 {
        self.state
    }

    #[inline(always)]
    fn write(&mut self, bytes: &[u8]) {
        let len = bytes.len();
        let mut state = self.state.wrapping_add(len as u64);
        if len <= 8 {
            self.state = folded_multiply(state ^ read_short(bytes), self.key);
            return;
        }
        let mut at = 0;
        while len - at > 16 {
            state = folded_multiply(
                read_u64(bytes, at) ^ state,
                read_u64(bytes, at + 8) ^ self.key,
            );
            at += 16;
        }
        self.state = folded_multiply(
            read_u64(bytes, len.saturating_sub(16)) ^ state,
            read_u64(bytes, len - 8) ^ self.key,
        );
    }
}
