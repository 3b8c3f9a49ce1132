//! A third party's hasher, which is a rule of its own: whatever generic code gives at it follows from the laws alone.
ghost use Rattle.std.specs.Prelude.{◌^◌};
ghost use Rattle.std.proofs.Common.{lit<};
ghost use Rattle.hash_vectors.specs.Times31.{times31_step};
ghost use Rattle.hash_vectors.specs.Times31Laws.{times31_facts};

use hashers::rules::{ByteHasher, Plain, PlainRule, PlainUndo};

/// What undoes a product by 31.
const UNPRODUCT_31: u32 = 3186588639;

/// The rule of Java's hash of strings, over bytes.
pub struct Times31Rule;

impl PlainRule for Times31Rule {
    type Word = u32;

    const ALONE: bool = false;

    ghost bound = { 2 ^ 32 };

    ghost start = { 0 };

    ghost step = { times31_step };

    ghost answer = { λ s. s };

    fn start() -> u32 {
        0
    }

    fn step(word: u32, byte: u8) -> u32 {
        word.wrapping_mul(31).wrapping_add(u32::from(byte))
    }

    fn answer(word: u32) -> u64 {
        u64::from(word)
    }

    ghost start_in_range = { lit< tt };

    ghost step_in_range = { times31_facts.in_range };
}

impl PlainUndo for Times31Rule {
    fn unstep(word: u32, byte: u8) -> u32 {
        word.wrapping_sub(u32::from(byte))
            .wrapping_mul(UNPRODUCT_31)
    }

    fn unanswer(hash: u64) -> Option<u32> {
        u32::try_from(hash).ok()
    }

    ghost facts = { times31_facts };

    ghost answer_injective = { λ s t ks kt same. same };
}

/// From 0, a byte `b` takes the state `h` to `31 * h + b`, at 32 bits; `finish` answers `h`, widened.
pub type Times31 = ByteHasher<Plain<Times31Rule>>;
