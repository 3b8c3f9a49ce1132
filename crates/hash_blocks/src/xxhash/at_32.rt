//! XXH32.
ghost use Rattle.std.specs.Prelude.{◌≡◌, ◌*◌, ◌%◌, ◌^◌, ◌<◌, [], ◌∷◌, slice_index};
ghost use Rattle.std.proofs.Common.{lit<};
ghost use Rattle.hash_words.specs.Pieces.{pieces};
ghost use Rattle.hash_blocks.specs.Xxh32.{after_block, byte_in, converged, four_in, last_mix, rest_in, round, start, words_of, xxh32};

use crate::{BlockHasher, BlockRule};
use hash_words::{le_four, le_two, rotl32};

/// The first of the five primes of XXH32.
pub const Q1: u32 = 0x9E37_79B1;

/// The second.
pub const Q2: u32 = 0x85EB_CA77;

/// The third.
pub const Q3: u32 = 0xC2B2_AE3D;

/// The fourth.
pub const Q4: u32 = 0x27D4_EB2F;

/// The fifth.
pub const Q5: u32 = 0x1656_67B1;

/// What is kept of the blocks: four lanes, and whether there was a block.
#[derive(Clone, Copy)]
pub struct Lanes32 {
    pub lanes: [u32; 4],
    pub long: bool,
}

// A lane after one word.
#[inline(always)]
#[tactic(auto, unfolding(crate::specs::Xxh32::round))]
fn round(lane: u32, word: u32) -> u32
    ensures { result ≡ round lane word }
{
    rotl32(lane.wrapping_add(word.wrapping_mul(Q2)), 13).wrapping_mul(Q1)
}

/// The four lanes of XXH32 before the first block, from a seed.
#[inline(always)]
#[tactic(auto, unfolding(crate::specs::Xxh32::start))]
pub fn start(seed: u32) -> [u32; 4]
    ensures { result ≡ start seed }
{
    [
        seed.wrapping_add(Q1).wrapping_add(Q2),
        seed.wrapping_add(Q2),
        seed,
        seed.wrapping_sub(Q1),
    ]
}

/// The four words of a block of XXH32, taken out of two of eight bytes: of four that are read alone LLVM makes a vector where the
/// processor has a product of vectors, which takes ten cycles.
#[inline(always)]
pub fn words_of(block: &[u8; 16]) -> [u32; 4]
    ensures { result ≡ words_of block.now }
{
    let (low, high) = le_two(block);
    [
        (low % 0x1_0000_0000) as u32,
        (low / 0x1_0000_0000) as u32,
        (high % 0x1_0000_0000) as u32,
        (high / 0x1_0000_0000) as u32,
    ]
}

/// The four lanes of XXH32 after a block.
#[inline(always)]
#[tactic(auto, unfolding(crate::specs::Xxh32::after_block))]
pub fn after_block(lanes: &[u32; 4], block: &[u8; 16]) -> [u32; 4]
    ensures { result ≡ after_block lanes.now block.now }
{
    let words = words_of(block);
    [
        round(lanes[0], words[0]),
        round(lanes[1], words[1]),
        round(lanes[2], words[2]),
        round(lanes[3], words[3]),
    ]
}

/// The four lanes of XXH32 in one word.
#[inline(always)]
#[tactic(auto, unfolding(crate::specs::Xxh32::converged))]
pub fn converged(lanes: &[u32; 4]) -> u32
    ensures { result ≡ converged lanes.now }
{
    rotl32(lanes[0], 1)
        .wrapping_add(rotl32(lanes[1], 7))
        .wrapping_add(rotl32(lanes[2], 12))
        .wrapping_add(rotl32(lanes[3], 18))
}

/// The word of XXH32 after four bytes more, as one number, after the blocks.
#[inline(always)]
#[tactic(auto, unfolding(crate::specs::Xxh32::four_in))]
pub fn four_in(h: u32, word: u32) -> u32
    ensures { result ≡ four_in h word }
{
    rotl32(h.wrapping_add(word.wrapping_mul(Q3)), 17).wrapping_mul(Q4)
}

// One byte in.
#[inline(always)]
#[tactic(auto, unfolding(crate::specs::Xxh32::byte_in))]
fn byte_in(h: u32, byte: u8) -> u32
    ensures { result ≡ byte_in h byte }
{
    rotl32(h.wrapping_add(u32::from(byte).wrapping_mul(Q5)), 11).wrapping_mul(Q1)
}

// What is left in.
#[inline(always)]
#[tactic(auto, unfolding(crate::specs::Xxh32::rest_in, crate::specs::Blocks::blocks, crate::specs::Blocks::tail, hash_words::specs::Pieces::pieces))]
fn rest_in(h: u32, left: &[u8]) -> u32
    ensures { result ≡ rest_in h left.now }
{
    let mut mixed = h;
    let (fours, bytes) = left.as_chunks::<4>();
    for four in fours {
        mixed = four_in(mixed, le_four(four));
    }
    for byte in bytes {
        mixed = byte_in(mixed, *byte);
    }
    mixed
}

// The last mix.
#[inline(always)]
#[tactic(auto, unfolding(crate::specs::Xxh32::last_mix))]
fn last_mix(h: u32) -> u32
    ensures { result ≡ last_mix h }
{
    let first = (h ^ (h >> 15)).wrapping_mul(Q2);
    let second = (first ^ (first >> 13)).wrapping_mul(Q3);
    second ^ (second >> 16)
}

/// The rule of XXH32.
pub struct Xxh32Rule;

impl BlockRule<16> for Xxh32Rule {
    ghost use Rattle.hash_blocks.specs.Xxh32Rule.{started, block_in, finished};
    ghost use Rattle.hash_blocks.specs.Xxh32Laws.{total_wraps, is_hash};

    type State = Lanes32;

    type Seed = u32;

    type Hash = u32;

    ghost numbers = { λ seed. seed ∷ [] };

    ghost plain = { 0 };

    ghost start = { λ from. started (slice_index from 0) };

    ghost block = { block_in };

    ghost finish = { finished };

    ghost low = { λ hash. hash };

    ghost hash = { λ from text. xxh32 (slice_index from 0) text };

    #[inline(always)]
    fn plain() -> u32 {
        0
    }

    #[inline(always)]
    fn start(seed: u32) -> Lanes32 {
        Lanes32 {
            lanes: start(seed),
            long: false,
        }
    }

    #[inline(always)]
    fn block(state: &mut Lanes32, bytes: &[u8; 16]) {
        *state = Lanes32 {
            lanes: after_block(&state.lanes, bytes),
            long: true,
        };
    }

    #[inline(always)]
    fn finish(state: &Lanes32, left: &[u8], total: u64) -> u32 {
        let h = if state.long {
            converged(&state.lanes)
        } else {
            state.lanes[2].wrapping_add(Q5)
        };
        last_mix(rest_in(h.wrapping_add((total % 0x1_0000_0000) as u32), left))
    }

    #[inline(always)]
    fn low(hash: u32) -> u64 {
        u64::from(hash)
    }

    ghost some = { lit< tt };

    ghost fits = { lit< tt };

    ghost total_wraps = { total_wraps };

    ghost is_hash = { λ from. is_hash (slice_index from 0) };
}

/// XXH32 of a text that comes piece by piece, under a seed.
pub type Xxh32Hasher = BlockHasher<Xxh32Rule, 16>;

/// XXH32 of the bytes under a seed. Of no bytes under 0 it is 0x02cc5d05.
pub fn xxh32(seed: u32, bytes: &[u8]) -> u32
    ensures { result ≡ xxh32 seed bytes.now }
{
    Xxh32Hasher::hash_of(seed, bytes)
}
