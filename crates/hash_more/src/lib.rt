//! Relatives of the hash functions of `hashers`, each a rule with a step per byte: CRC-32 and CRC-32C, FNV-1, djb2 with a sum
//! and one-at-a-time at 32 bits, which can be undone, and the hash of ELF's symbol tables, which loses information.
//!
//! What stands in a module of another name is shown here; the hash of a whole text that is named as its module stands there:
//! [`crc32::crc32`], [`djb2_add::djb2_add`], [`elf::elf`], [`joaat::joaat`].
#![tactic(auto)]

pub mod crc32;
pub mod djb2_add;
pub mod elf;
pub mod fnv1;
pub mod joaat;

pub use crc32::{
    Crc32Hasher, Crc32cHasher, crc32_combine, crc32_ending, crc32c, crc32c_combine, crc32c_ending,
    crcs_are_even,
};
pub use djb2_add::Djb2AddHasher;
pub use elf::ElfHasher;
pub use fnv1::{Fnv1Hasher32, Fnv1Hasher64, fnv1_32, fnv1_64};
pub use joaat::JoaatHasher;
