//! The hash of two texts joined, from their hashes and the second one's length.
ghost use Rattle.std.specs.Prelude.{◌≡◌, ◌+◌, ◌*◌, ◌%◌, ◌^◌, ◌++◌};
ghost use Rattle.hash_c.specs.Common.{List, ℕ, length, bit_xor, ieee, castagnoli, bits_out, crc32_of, crc32c_of, loselose_from, passthrough_from, sdbm_from, IsText};

use hash_more::crc32;
use hashers::{null, oz};

/// sdbm of a joined text from the hashes of its two parts and the second one's length in bytes.
#[unsafe(no_mangle)]
pub extern "C" fn hashers_sdbm_combine(hash1: u64, hash2: u64, n2: u64) -> u64
    ensures value { result ≡ (hash1 * 65599 ^ n2 + hash2) % 2 ^ 32 }
    ensures joined { (x y : List ℕ) → length y ≡ n2 → hash1 ≡ sdbm_from 0 x → hash2 ≡ sdbm_from 0 y
        → result ≡ sdbm_from 0 (x ++ y) }
{
    oz::sdbm_combine(hash1, hash2, n2)
}

/// The same of lose lose, which needs no length: the sum.
#[unsafe(no_mangle)]
pub extern "C" fn hashers_loselose_combine(hash1: u64, hash2: u64, n2: u64) -> u64
    ensures value { result ≡ (hash1 + hash2) % 2 ^ 64 }
    ensures joined { (x y : List ℕ) → hash1 ≡ loselose_from 0 x → hash2 ≡ loselose_from 0 y
        → result ≡ loselose_from 0 (x ++ y) }
{
    oz::loselose_combine(hash1, hash2, n2)
}

/// The same of passthrough.
#[unsafe(no_mangle)]
pub extern "C" fn hashers_passthrough_combine(hash1: u64, hash2: u64, n2: u64) -> u64
    ensures value { result ≡ (hash1 * 256 ^ n2 + hash2) % 2 ^ 64 }
    ensures joined { (x y : List ℕ) → length y ≡ n2 → hash1 ≡ passthrough_from 0 x
        → hash2 ≡ passthrough_from 0 y
        → result ≡ passthrough_from 0 (x ++ y) }
{
    null::passthrough_combine(hash1, hash2, n2)
}

/// The same of CRC-32, in a time that grows with the number of digits of the second text's length.
#[unsafe(no_mangle)]
pub extern "C" fn hashers_crc32_combine(hash1: u64, hash2: u64, n2: u64) -> u64
    ensures value { result ≡ bit_xor (bits_out ieee (8 * n2) (hash1 % 2 ^ 32)) (hash2 % 2 ^ 32) }
    ensures joined { (x y : List ℕ) → IsText x → IsText y → length y ≡ n2
        → hash1 ≡ crc32_of x → hash2 ≡ crc32_of y
        → result ≡ crc32_of (x ++ y) }
{
    crc32::crc32_combine(hash1, hash2, n2)
}

/// The same of CRC-32C.
#[unsafe(no_mangle)]
pub extern "C" fn hashers_crc32c_combine(hash1: u64, hash2: u64, n2: u64) -> u64
    ensures value { result ≡ bit_xor (bits_out castagnoli (8 * n2) (hash1 % 2 ^ 32)) (hash2 % 2 ^ 32) }
    ensures joined { (x y : List ℕ) → IsText x → IsText y → length y ≡ n2
        → hash1 ≡ crc32c_of x → hash2 ≡ crc32c_of y
        → result ≡ crc32c_of (x ++ y) }
{
    crc32::crc32c_combine(hash1, hash2, n2)
}
