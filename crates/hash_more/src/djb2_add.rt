//! djb2 in its form with a sum, which is Dan Bernstein's first, and which the section `.gnu.hash` of ELF files takes.
ghost use Rattle.std.specs.Prelude.{◌≡◌, ◌^◌, ◌<◌};
ghost use Rattle.std.proofs.Common.{lit<};
ghost use Rattle.hash_more.specs.Djb2Add.{djb2_add_step, djb2_add_from};
ghost use Rattle.hash_more.specs.Djb2AddLaws.{djb2_add_facts};

use hash_laws::rules::constants::UNPRODUCT_33;
use hash_laws::rules::{ByteHasher, Plain, PlainRule, PlainUndo, hash_by_plain};

/// The rule of djb2 with a sum.
pub struct Djb2AddRule;

impl PlainRule for Djb2AddRule {
    type Word = u32;

    const ALONE: bool = true;

    ghost bound = { 2 ^ 32 };

    ghost start = { 5381 };

    ghost step = { djb2_add_step };

    ghost answer = { λ s. s };

    fn start() -> u32 {
        5381
    }

    #[inline(always)]
    fn step(word: u32, byte: u8) -> u32 {
        (word << 5).wrapping_add(word).wrapping_add(u32::from(byte))
    }

    #[inline(always)]
    fn answer(word: u32) -> u64 {
        u64::from(word)
    }

    ghost start_in_range = { lit< tt };

    ghost step_in_range = { djb2_add_facts.in_range };
}

impl PlainUndo for Djb2AddRule {
    #[inline(always)]
    #[tactic(auto, using(crate::specs::Djb2AddLaws::djb2_add_back))]
    fn unstep(word: u32, byte: u8) -> u32 {
        word.wrapping_sub(u32::from(byte))
            .wrapping_mul(UNPRODUCT_33)
    }

    fn unanswer(hash: u64) -> Option<u32> {
        u32::try_from(hash).ok()
    }

    ghost facts = { djb2_add_facts };

    ghost answer_injective = { λ s t ks kt same. same };
}

/// djb2 with a sum (Oz' page of hash functions, www.cse.yorku.ca/~oz/hash.html; `dl_new_hash` of the GNU C library).
///
/// From 5381, a byte `b` takes the state `h` to `33 * h + b`, modulo 2^32; `finish` returns `h`, widened. The split does not matter, and
/// each write can be undone. Texts that differ in the low five bits of at most six adjacent bytes never collide.
///
/// Contracts see the hasher as its state, a number below 2^32: `write` gives `h.new ≡ djb2_add_from h.old bytes.now`, and
/// `finish` returns `h.now`. Of `printf` the hash is 0x156b2bb8.
pub type Djb2AddHasher = ByteHasher<Plain<Djb2AddRule>>;

/// djb2 with a sum of the bytes, from 5381.
pub fn djb2_add(bytes: &[u8]) -> u64
    ensures value { result ≡ djb2_add_from 5381 bytes.now }
    ensures below { result < 2 ^ 32 }
{
    hash_by_plain::<Djb2AddRule>(bytes)
}
