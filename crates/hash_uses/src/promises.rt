//! What `hashers::promises` gives a caller, one for each form: after writes, with writes taken back, and with a word or a round taken back.
ghost use Rattle.std.specs.Prelude.{◌≡◌, []};
ghost use Rattle.std.specs.List.{flat_map};
ghost use Rattle.hashers.specs.Fnv.{fnv1a64_from};
ghost use Rattle.hashers.specs.Fx.{fx64, fx64_step, words64};
ghost use Rattle.hashers.specs.Oz.{djb2_of};
ghost use Rattle.hashers.specs.Rounds.{lookup3_mix_steps};
ghost use Rattle.hashers.specs.Spooky.{spooky};
ghost use Rattle.hashers.specs.Steps.{apply};
ghost use Rattle.hashers.specs.Writes.{all_written, joined_written};

use hashers::fnv::FNV1aHasher64;
use hashers::fx_hash::FxHasher;
use hashers::laws::HasherWrite;
use hashers::promises;

/// Three hashes after writes: djb2 of the joined bytes, fx of the bytes of each write, and SpookyHash under seeds.
pub fn hashes_of_writes(seed1: u64, seed2: u64, writes: &[HasherWrite]) -> (u64, u64, (u64, u64))
    ensures joined { result.0 ≡ djb2_of (joined_written writes.now) }
    ensures by_writes { result.1 ≡ fx64 0 (flat_map words64 (all_written writes.now)) }
    ensures seeded { result.2 ≡ spooky seed1 seed2 (joined_written writes.now) }
{
    (
        promises::djb2_of_writes(writes),
        promises::fxhash_of_writes(writes),
        promises::spooky_of_writes(seed1, seed2, writes),
    )
}

/// What FNV-1a answers after the writes; the hasher is then as it was.
pub fn fnv_and_back(h: &mut FNV1aHasher64, writes: &[HasherWrite]) -> u64
    ensures there { result ≡ fnv1a64_from h.old (joined_written writes.now) }
    ensures back { h.new ≡ h.old }
{
    let mut other = FNV1aHasher64::default();
    promises::fnv1a64_undone(h, &mut other, writes).there
}

/// What fx answers after a word; the hasher is then as it was.
pub fn fx_and_back(h: &mut FxHasher, word: u64) -> u64
    ensures there { result ≡ fx64_step h.old word }
    ensures back { h.new ≡ h.old }
{
    let mut other = FxHasher::default();
    promises::fxhash_word_undone(h, &mut other, word).there
}

/// The words in a round of lookup3, and then they are as they were.
pub fn round_and_back(words: &mut [u32; 3]) -> [u32; 3]
    ensures mixed { result ≡ apply 32 lookup3_mix_steps [] words.old }
    ensures back { words.new ≡ words.old }
{
    promises::lookup3_mix_undone(words, &mut [0; 3]).0
}
