//! XXH3 of a text in one call.
ghost use Rattle.std.specs.Prelude.{◌≡◌, ◌<◌};
ghost use Rattle.hash_xxh3.specs.Common.{length, xxh3_kept, xxh3_64_of};

use crate::long::of_long;
use crate::middle::{of_128, of_240};
use crate::short::of_short;

/// XXH3 of at most 240 bytes.
#[inline(always)]
pub(crate) fn of_kept(seed: u64, text: &[u8]) -> u64
    requires { length text.now < 241 }
    ensures { result ≡ xxh3_kept seed text.now }
{
    if text.len() < 17 {
        of_short(seed, text)
    } else if text.len() < 129 {
        of_128(seed, text)
    } else {
        of_240(seed, text)
    }
}

/// XXH3 of 64 bits of a text under a seed.
#[inline(always)]
#[tactic(auto, unfolding(crate::specs::Xxh3::xxh3_64_of))]
pub fn xxh3_64(seed: u64, text: &[u8]) -> u64
    ensures { result ≡ xxh3_64_of seed text.now }
{
    if text.len() < 17 {
        of_short(seed, text)
    } else if text.len() < 129 {
        of_128(seed, text)
    } else if text.len() < 241 {
        of_240(seed, text)
    } else {
        of_long(seed, text)
    }
}
