//! XXH3 for keys of maps, each piece in one call.
ghost use Rattle.std.specs.Prelude.{◌≡◌};
ghost use Rattle.hash_xxh3.specs.Xxh3.{xxh3_64_of};
ghost use Rattle.hash_map_keys.specs.Pieces.{after_piece, begun_at, byte_step};

use hash_xxh3::xxh3_64;
use hashers::rounds::xorshift;
use std::hash::{BuildHasher, Hasher};

/// XXH3 of a key of a map, each piece in one call whose seed is the hash of those before it; a single byte, as the one that
/// std writes after a string, is one product. It costs a third of what `Xxh3Hasher` takes, and is another hash: the split
/// shows, as under fx. Not for the keys of strangers.
#[derive(Drop)]
pub struct Xxh3Pieces {
    pub(crate) state: u64,
}

/// The state after one byte.
#[inline(always)]
fn byte_in(state: u64, byte: u8) -> u64
    ensures { result ≡ byte_step state byte }
{
    xorshift(
        (state ^ u64::from(byte)).wrapping_mul(0x9e3779b185ebca87),
        32,
    )
}

/// The state after other bytes. It stands apart, so that what a map does with a key stays short.
#[inline(never)]
fn piece_in(state: u64, bytes: &[u8]) -> u64
    ensures { result ≡ xxh3_64_of state bytes.now }
{
    xxh3_64(state, bytes)
}

impl Hasher for Xxh3Pieces {
    ghost write = { after_piece };

    ghost finish = { λ h. h.state };

    #[inline(always)]
    fn finish(&self) -> u64 {
        self.state
    }

    #[inline(always)]
    fn write(&mut self, bytes: &[u8]) {
        if bytes.len() == 1 {
            self.write_u8(bytes[0]);
        } else {
            self.state = piece_in(self.state, bytes);
        }
    }

    #[inline(always)]
    fn write_u8(&mut self, number: u8) {
        self.state = byte_in(self.state, number);
    }

    #[inline(always)]
    fn write_u16(&mut self, number: u16) {
        self.state = xxh3_64(self.state, &number.to_le_bytes());
    }

    #[inline(always)]
    fn write_u32(&mut self, number: u32) {
        self.state = xxh3_64(self.state, &number.to_le_bytes());
    }

    #[inline(always)]
    fn write_u64(&mut self, number: u64) {
        self.state = xxh3_64(self.state, &number.to_le_bytes());
    }

    #[inline(always)]
    fn write_u128(&mut self, number: u128) {
        self.state = xxh3_64(self.state, &number.to_le_bytes());
    }

    #[inline(always)]
    fn write_usize(&mut self, number: usize) {
        self.write_u64(number as u64);
    }
}

/// Makes an [`Xxh3Pieces`] under a seed for each key of std's maps and sets.
#[derive(Clone, Copy)]
pub struct BuildXxh3Pieces {
    pub seed: u64,
}

impl BuildHasher for BuildXxh3Pieces {
    type Hasher = Xxh3Pieces;

    ghost build_hasher = { λ b. begun_at b.seed };

    #[inline(always)]
    fn build_hasher(&self) -> Xxh3Pieces {
        Xxh3Pieces { state: self.seed }
    }
}
