//! The hash of symbol names in ELF files (System V Application Binary Interface, edition 4.1, figure 5-13), which is P. J.
//! Weinberger's.
ghost use Rattle.std.specs.Prelude.{◌≡◌, ◌^◌, ◌<◌};
ghost use Rattle.std.proofs.Common.{lit<};
ghost use Rattle.hash_more.specs.Elf.{elf_step, elf_from};
ghost use Rattle.hash_more.specs.ElfLaws.{elf_in_range};

use hash_laws::rules::{ByteHasher, Plain, PlainRule, hash_by_plain};

/// The rule of ELF's hash. Its steps lose information, so there is no inverse.
pub struct ElfRule;

impl PlainRule for ElfRule {
    type Word = u32;

    const ALONE: bool = false;

    ghost bound = { 2 ^ 28 };

    ghost start = { 0 };

    ghost step = { elf_step };

    ghost answer = { λ s. s };

    fn start() -> u32 {
        0
    }

    #[inline(always)]
    fn step(word: u32, byte: u8) -> u32 {
        let word = (word << 4).wrapping_add(u32::from(byte));
        (word % 268435456) ^ ((word >> 28) * 16)
    }

    #[inline(always)]
    fn answer(word: u32) -> u64 {
        u64::from(word)
    }

    ghost start_in_range = { lit< tt };

    ghost step_in_range = { elf_in_range };
}

/// The hash of ELF's symbol tables (System V Application Binary Interface, figure 5-13).
///
/// From 0, a byte `b` takes the state `h` to `16 * h + b` at 32 bits, of which the four high bits are then xored in four
/// bits from the low end and taken off. `finish` returns `h`, below 2^28, widened. The split does not matter; no write can be undone.
///
/// Contracts see the hasher as its state, a number below 2^28: `write` gives `h.new ≡ elf_from h.old bytes.now`, and `finish`
/// answers `h.now`. Of `printf` the hash is 0x077905a6.
pub type ElfHasher = ByteHasher<Plain<ElfRule>>;

/// ELF's hash of the bytes.
pub fn elf(bytes: &[u8]) -> u64
    ensures value { result ≡ elf_from 0 bytes.now }
    ensures below { result < 2 ^ 28 }
{
    hash_by_plain::<ElfRule>(bytes)
}
