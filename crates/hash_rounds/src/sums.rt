//! The sums of sdbm and lose lose (Oz' page of hash functions, www.cse.yorku.ca/~oz/hash.html), several bytes at a
//! time. Each call counts one turn.

ghost use Rattle.std.specs.Prelude.{◌≡◌, ◌+◌, ◌%◌, ◌^◌};
ghost use Rattle.std.specs.Simd.Lanes.{zip2};
ghost use Rattle.hash_rounds.specs.Sums.{sdbm_from};

use crate::Turns;
use std::simd::prelude::*;

/// The state of sdbm after four bytes, from the state `h`: the bytes, as digits in base 65599 after `h`, modulo 2^32.
/// The products are made in lanes.
#[inline(always)]
pub fn sdbm4(h: u32, b: &[u8; 4], t: &mut Turns) -> u32
    ensures value { result ≡ sdbm_from h b.now }
    ensures turn { t.new ≡ t.old + 1 }
{
    t.tick();

    // The powers of 65599 modulo 2^32, the third to the zeroth; the fourth is the state's factor.
    let powers = u32x4::from_array([780587199, 8261505, 65599, 1]);
    let bytes = u8x4::from_array(*b).cast::<u32>() * powers;
    h.wrapping_mul(1139564289).wrapping_add(bytes.reduce_sum())
}

/// Adds the eight bytes to the eight lanes of 64 bits, byte i to lane i, modulo 2^64.
#[inline(always)]
pub fn lose8(sums: &mut u64x8, b: &[u8; 8], t: &mut Turns)
    ensures lanes { sums.new ≡ zip2 (λ s x. (s + x) % 2 ^ 64) sums.old b.now }
    ensures turn { t.new ≡ t.old + 1 }
{
    t.tick();
    *sums += u8x8::from_array(*b).cast::<u64>();
}
