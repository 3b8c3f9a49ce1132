//! Uses of the crates beside `hashers`: the relatives of its hashes, and a set of texts.
ghost use Rattle.std.specs.Prelude.{◌≡◌, ◌↔◌, ◌++◌, IfOk, IsTrue};
ghost use Rattle.hash_more.specs.Crc32.{crc32_of};

use hash_more::crc32::{crc32, crc32_combine};
use hashers::laws::bytes_are_a_text;
use std::alloc::Global;
use text_set::{Full, RandomKeys, Texts};

/// The CRC-32 of two texts, one behind the other, from the CRC of each: they may have been computed side by side.
pub fn crc32_of_both(first: &[u8], second: &[u8]) -> u64
    ensures { result ≡ crc32_of (first.now ++ second.now) }
{
    bytes_are_a_text(first);
    bytes_are_a_text(second);
    crc32_combine(crc32(first), crc32(second), second.len() as u64)
}

/// Whether a set that has the first text has the second too: that is, whether they are equal.
pub fn seen_again(alloc: Global, first: &[u8], second: &[u8]) -> Result<bool, Full>
    ensures { IfOk result (λ again. IsTrue again ↔ (second.now ≡ first.now)) }
{
    let mut texts = Texts::new(alloc, RandomKeys::with_keys(1, 2));
    texts.see(first)?;
    let seen = texts.see(second)?;
    Ok(!seen.is_new)
}
