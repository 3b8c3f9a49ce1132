//! The ending that makes the hash of a text the one that is wanted.
ghost use Rattle.std.specs.Prelude.{◌≡◌, ◌%◌, ◌^◌, ◌++◌};
ghost use Rattle.hash_c.specs.Common.{ℕ, List, length, crc32_of, IsText};
ghost use Rattle.std.specs.Int.{to_le_bytes, w32};

use hash_more::crc32;

/// The one ending of four bytes behind a text with this CRC-32 that makes the CRC-32 of the whole the answer, as a
/// number: its lowest byte comes first. Of both numbers the low 32 bits count.
#[unsafe(no_mangle)]
pub extern "C" fn hashers_crc32_ending(hash: u64, answer: u64) -> u32
    ensures leads { (text : List ℕ) → hash % 2 ^ 32 ≡ crc32_of text
        → crc32_of (text ++ to_le_bytes w32 result) ≡ answer % 2 ^ 32 }
    ensures alone { (text ending : List ℕ) → IsText text → IsText ending → length ending ≡ 4
        → hash % 2 ^ 32 ≡ crc32_of text → crc32_of (text ++ ending) ≡ answer % 2 ^ 32
        → ending ≡ to_le_bytes w32 result }
{
    u32::from_le_bytes(crc32::crc32_ending(hash, answer))
}
