//! MurmurHash3_x86_32.
ghost use Rattle.std.specs.Prelude.{◌≡◌, ◌%◌, ◌^◌, ◌<◌, [], ◌∷◌, length, slice_index, refl};
ghost use Rattle.std.proofs.Common.{lit<};
ghost use Rattle.hash_words.specs.Words.{le};
ghost use Rattle.hash_blocks.specs.Murmur3.{scramble, after_word, last_mix, after_block, ended, murmur3_32};
ghost use Rattle.hash_blocks.specs.Murmur3Laws.{total_wraps};

use crate::{BlockHasher, BlockRule};
use hash_words::{le_four, le32, rotl32, rotl32_by};

/// A word of the text, before MurmurHash3_x86_32 folds it in.
#[inline(always)]
#[tactic(auto, unfolding(crate::specs::Murmur3::scramble))]
pub fn scramble(word: u32) -> u32
    ensures { result ≡ scramble word }
{
    rotl32_by::<15>(word.wrapping_mul(0xcc9e2d51)).wrapping_mul(0x1b873593)
}

// What is left behind the words as one word more. Mostly nothing is.
#[inline(always)]
#[tactic(auto, unfolding(crate::specs::Murmur3::scramble))]
fn scrambled_rest(left: &[u8]) -> u32
    requires { length left.now < 4 }
    ensures { result ≡ scramble (le left.now) }
{
    match left {
        [] => 0,
        _ => scramble(le32(left)),
    }
}

// The state after one word.
#[inline(always)]
#[tactic(auto, unfolding(crate::specs::Murmur3::after_word))]
fn after_word(h: u32, word: u32) -> u32
    ensures { result ≡ after_word h word }
{
    rotl32(h ^ scramble(word), 13)
        .wrapping_mul(5)
        .wrapping_add(0xe6546b64)
}

// The last mix of the state.
#[inline(always)]
#[tactic(auto, unfolding(crate::specs::Murmur3::last_mix))]
fn last_mix(h: u32) -> u32
    ensures { result ≡ last_mix h }
{
    let first = (h ^ (h >> 16)).wrapping_mul(0x85ebca6b);
    let second = (first ^ (first >> 13)).wrapping_mul(0xc2b2ae35);
    second ^ (second >> 16)
}

/// The rule of MurmurHash3_x86_32.
pub struct Murmur3Rule32;

impl BlockRule<4> for Murmur3Rule32 {
    type State = u32;

    type Seed = u32;

    type Hash = u32;

    ghost numbers = { λ seed. seed ∷ [] };

    ghost plain = { 0 };

    ghost start = { λ from. slice_index from 0 };

    ghost block = { after_block };

    ghost finish = { ended };

    ghost low = { λ hash. hash };

    ghost hash = { λ from text. murmur3_32 (slice_index from 0) text };

    #[inline(always)]
    fn plain() -> u32 {
        0
    }

    #[inline(always)]
    fn start(seed: u32) -> u32 {
        seed
    }

    #[inline(always)]
    fn block(state: &mut u32, bytes: &[u8; 4]) {
        *state = after_word(*state, le_four(bytes));
    }

    #[inline(always)]
    fn finish(state: &u32, left: &[u8], total: u64) -> u32 {
        last_mix(*state ^ scrambled_rest(left) ^ (total % 0x1_0000_0000) as u32)
    }

    #[inline(always)]
    fn low(hash: u32) -> u64 {
        u64::from(hash)
    }

    ghost some = { lit< tt };

    ghost fits = { lit< tt };

    ghost total_wraps = { total_wraps };

    ghost is_hash = { λ from text. refl };
}

/// MurmurHash3_x86_32 of a text that comes piece by piece, under a seed.
pub type Murmur3Hasher32 = BlockHasher<Murmur3Rule32, 4>;

/// MurmurHash3_x86_32 of the bytes under a seed. Of `hello` under 0 it is 0x248bfa47.
pub fn murmur3_32(seed: u32, bytes: &[u8]) -> u32
    ensures { result ≡ murmur3_32 seed bytes.now }
{
    Murmur3Hasher32::hash_of(seed, bytes)
}
