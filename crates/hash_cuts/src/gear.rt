//! The gear hash, which takes a shift and two sums a byte, and in which the last 64 bytes alone are left.
ghost use Rattle.std.specs.Prelude.{◌≡◌, ℕ, slice_index};
ghost use Rattle.hash_cuts.specs.Gear.{AreNumbers, gear, gear_of, gear_step};

use hashers::jenkins::spooky_hash::SpookyHasher;
use hashers::laws::Piecewise;
use std::marker::Model;

/// The numbers of the bytes under two seeds. Contracts see the seeds.
#[derive(Drop)]
pub struct Gear {
    seed1: u64,
    seed2: u64,
    numbers: [u64; 256],
}

impl Model for Gear {
    ghost use Rattle.std.specs.Prelude.{ℕ};
    ghost use Rattle.hash_cuts.specs.Gear.{AreNumbers};

    ghost Value = { ℕ × ℕ };

    ghost view = { λ g. (g.seed1, g.seed2) };

    ghost invariant = { λ g. AreNumbers g.seed1 g.seed2 g.numbers };
}

/// The number of a byte: its SpookyHash under the seeds.
#[tactic(auto, unfolding(crate::specs::Gear::gear))]
fn number_of(seed1: u64, seed2: u64, byte: u8) -> u64
    ensures { result ≡ gear seed1 seed2 byte }
{
    let mut hasher = SpookyHasher::new(seed1, seed2);
    hasher.feed(&[byte]);
    hasher.finish128().0
}

/// The numbers of all bytes.
fn numbers_of(seed1: u64, seed2: u64) -> [u64; 256]
    ensures { AreNumbers seed1 seed2 result }
{
    let mut numbers = [0; 256];
    for byte in 0..256 {
        numbers[byte] = number_of(seed1, seed2, byte as u8);
    }
    numbers
}

impl Gear {
    /// The numbers under these seeds.
    pub fn new(seed1: u64, seed2: u64) -> Gear
        ensures { result ≡ (seed1, seed2) }
    {
        let numbers = numbers_of(seed1, seed2);
        Gear {
            seed1,
            seed2,
            numbers,
        }
    }

    /// The hash with one byte more.
    #[inline(always)]
    pub fn step(&self, hash: u64, byte: u8) -> u64
        ensures { result ≡ gear_step (gear self.now.0 self.now.1) hash byte }
    {
        hash.wrapping_mul(2)
            .wrapping_add(self.numbers[usize::from(byte)])
    }

    /// The hashes with one byte more, with two, three and four. The last three add the hash of the bytes alone, so that the next four
    /// bytes wait for a shift and two sums, and not for four steps.
    #[inline(always)]
    pub fn four_steps(&self, hash: u64, bytes: &[u8; 4]) -> (u64, u64, u64, u64)
        ensures one { result.0 ≡ gear_step (gear self.now.0 self.now.1) hash (slice_index bytes.now 0) }
        ensures two { result.1 ≡ gear_step (gear self.now.0 self.now.1) result.0 (slice_index bytes.now 1) }
        ensures three { result.2 ≡ gear_step (gear self.now.0 self.now.1) result.1 (slice_index bytes.now 2) }
        ensures four { result.3 ≡ gear_step (gear self.now.0 self.now.1) result.2 (slice_index bytes.now 3) }
    {
        let one = self.step(0, bytes[0]);
        let two = self.step(one, bytes[1]);
        let three = self.step(two, bytes[2]);
        let four = self.step(three, bytes[3]);
        (
            self.step(hash, bytes[0]),
            hash.wrapping_mul(4).wrapping_add(two),
            hash.wrapping_mul(8).wrapping_add(three),
            hash.wrapping_mul(16).wrapping_add(four),
        )
    }

    /// The hash of a text.
    #[tactic(auto, using(hash_laws::specs::RecurrenceLaws::turns))]
    pub fn hash(&self, text: &[u8]) -> u64
        ensures { result ≡ gear_of (gear self.now.0 self.now.1) text.now }
    {
        let mut hash = 0;
        for byte in text {
            hash = self.step(hash, *byte);
        }
        hash
    }
}
