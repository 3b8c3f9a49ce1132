//! A third party's hasher that follows no rule: it implements the traits of laws by hand, and they are enough.
ghost use Rattle.std.specs.Prelude.{◌≡◌, ◌<◌, ℕ, List, [], ◌∷◌, slice_index, refl};
ghost use Rattle.std.proofs.Common.{ap, lit<};
ghost use Rattle.hashers.specs.Standing.{StandsAt};
ghost use Rattle.hashers.proofs.ByteLaws as bytewise;
ghost use Rattle.hash_uses.specs.ByteSum.{byte_sum_step, byte_sum_from, byte_sum_facts};

use hashers::laws::{ByteStep, Piecewise, Streamed, Undo};
use std::hash::Hasher;
use std::marker::Model;

/// The sum of the bytes, modulo 256: contracts see the hasher as that number. It counts its writes beside, which no law sees.
pub struct ByteSum {
    sum: u8,
    pub(crate) writes: u64,
}

impl Model for ByteSum {
    ghost use Rattle.std.specs.Prelude.{◌<◌, ℕ};

    ghost Value = { ℕ };

    ghost view = { λ h. h.sum };

    ghost invariant = { λ h. h.sum < 256 };
}

impl Drop for ByteSum {
    fn drop(self) {
        let Self { sum: _, writes: _ } = self;
    }
}

impl Default for ByteSum {
    ghost is_default = { λ h. h ≡ 0 };

    /// The sum of no bytes.
    fn default() -> ByteSum {
        ByteSum { sum: 0, writes: 0 }
    }
}

impl Hasher for ByteSum {
    ghost write = { byte_sum_from };

    ghost finish = { λ h. h };

    /// The sum.
    fn finish(&self) -> u64
        ensures value { result ≡ self.now }
        ensures in_range { self.now < 256 }
    {
        u64::from(self.sum)
    }

    /// Adds the bytes.
    fn write(&mut self, bytes: &[u8])
        ensures value { self.new ≡ byte_sum_from self.old bytes.now }
        ensures in_range_before { self.old < 256 }
        ensures in_range_after { self.new < 256 }
    {
        self.sum = bytes
            .iter()
            .fold(self.sum, |sum, byte| sum.wrapping_add(*byte));
        self.writes = self.writes.saturating_add(1);
    }
}

impl Piecewise for ByteSum {
    ghost State = { ℕ };

    ghost state = { λ h. h };

    ghost in_range = { λ s. s < 256 };

    ghost fresh = { 0 };

    ghost after = { byte_sum_from };

    ghost answer = { λ s. s };

    ghost hash_of = { byte_sum_from 0 };

    ghost first = { 0 };

    #[inline(always)]
    fn state_in_range(&self) {
        let _sum = self.sum;
    }

    fn fork(&self) -> ByteSum {
        ByteSum {
            sum: self.sum,
            writes: self.writes,
        }
    }

    ghost default_is_first = { λ h same. same };

    ghost first_is_fresh = { refl };

    ghost hash_of_is = { λ text. refl };

    ghost write_feeds = { λ h piece. refl };

    ghost finish_answers = { λ h. refl };

    ghost fresh_in_range = { lit< tt };

    ghost after_in_range = { bytewise.after_below byte_sum_step 256 byte_sum_from (λ s text known. refl)
        byte_sum_facts.in_range };

    ghost after_nothing = { λ s known. refl };
}

impl Streamed for ByteSum {
    ghost start = { 0 ∷ [] };

    ghost stands_at = { StandsAt byte_sum_from 256 };

    ghost hash_from = { λ from text. byte_sum_from (slice_index from 0) text };

    ghost stands_at_start = { bytewise.stands_at_start byte_sum_step 256 byte_sum_from (λ s text known. refl) 0
        (lit< tt) };

    ghost stands_after = { bytewise.stands_after byte_sum_step 256 byte_sum_from (λ s text known. refl)
        byte_sum_facts.in_range };

    ghost after_joined = { bytewise.after_joined byte_sum_step 256 byte_sum_from (λ s text known. refl)
        byte_sum_facts.in_range };

    ghost hash_from_start = { λ text bytes. refl };

    ghost stands_answers = { bytewise.stands_state byte_sum_from 256 };
}

impl Undo for ByteSum {
    ghost is_answer = { λ answer. answer < 256 };

    fn unwrite(&mut self, piece: &[u8]) {
        for byte in piece.iter().rev() {
            self.sum = self.sum.wrapping_sub(*byte);
        }
    }

    fn unfinish(answer: u64) -> Option<ByteSum> {
        let sum = u8::try_from(answer).ok()?;
        Some(ByteSum { sum, writes: 0 })
    }

    ghost after_injective = { bytewise.after_injective byte_sum_step 256 byte_sum_from (λ s text known. refl)
        byte_sum_facts.in_range byte_sum_facts.state_injective };

    ghost answer_injective = { λ s t ks kt same. same };
}

impl ByteStep for ByteSum {
    ghost own_start = { λ h. h ∷ [] };

    fn step(&mut self, byte: u8) {
        self.sum = self.sum.wrapping_add(byte);
    }

    fn unstep(&mut self, byte: u8) {
        self.sum = self.sum.wrapping_sub(byte);
    }

    ghost in_steps = { bytewise.in_steps byte_sum_step 256 byte_sum_from (λ s text known. refl)
        byte_sum_facts.in_range };

    ghost byte_injective = { bytewise.byte_injective byte_sum_step 256 byte_sum_from (λ s text known. refl)
        byte_sum_facts.item_injective };

    ghost stands_at_own_start = { λ h known. bytewise.stands_at_start byte_sum_step 256 byte_sum_from
        (λ s text known. refl)
        h known h refl };
}
