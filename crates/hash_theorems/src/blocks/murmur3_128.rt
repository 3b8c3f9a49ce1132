//! MurmurHash3_x64_128 loses nothing of a block.
ghost use Rattle.std.specs.Prelude.{◌≡◌, ◌^◌, ◌<◌};
ghost use Rattle.hash_theorems.specs.Murmur3x128Back.{turned_back, last_unmix, before_block, block_between, before_end, IsSeed, AreTwo};
ghost use Rattle.hash_theorems.specs.Murmur3x128Laws.{murmur3_128_facts};

use crate::blocks::block_undo::BlockUndo;
use hash_blocks::murmur3::Murmur3Rule128;
use hash_blocks::murmur3::x64_128::{C1, C2, scrambled, words_left};
use hash_words::{le_two, rotl64, xorshift};

// What undoes a product by `C1`, and by `C2`.
const UN_C1: u64 = 0xa984_09e8_82ce_4d7d;

const UN_C2: u64 = 0xa81e_14ed_d9de_2c7f;

// A word turned, back.
#[inline(always)]
#[tactic(auto, unfolding(crate::specs::Murmur3x128Back::turned_back))]
fn turned_back(turn: u32, constant: u64, h: u64, other: u64) -> u64
    requires some { 0 < turn }
    requires within { turn < 64 }
    ensures { result ≡ turned_back turn constant h other }
{
    rotl64(
        h.wrapping_sub(constant)
            .wrapping_mul(0xcccc_cccc_cccc_cccd)
            .wrapping_sub(other),
        turn,
    )
}

// The word of which the last mix makes this one.
#[inline(always)]
#[tactic(auto, unfolding(crate::specs::Murmur3x128Back::last_unmix))]
fn last_unmix(h: u64) -> u64
    ensures { result ≡ last_unmix h }
{
    let first = xorshift(h, 33).wrapping_mul(0x9cb4_b2f8_1293_37db);
    let second = xorshift(first, 33).wrapping_mul(0x4f74_430c_22a5_4005);
    xorshift(second, 33)
}

impl BlockUndo<16> for Murmur3Rule128 {
    ghost is_seed = { IsSeed };

    ghost in_range = { AreTwo };

    ghost is_answer = { AreTwo };

    ghost unblock = { before_block };

    ghost between = { block_between };

    ghost unfinish = { before_end };

    fn seed_in_range(seed: u64) {
        let _ = seed;
    }

    fn answer_in_range(hash: (u64, u64)) {
        let (_first, _second) = hash;
    }

    #[inline(always)]
    fn unblock(state: &mut (u64, u64), bytes: &[u8; 16]) {
        let (k1, k2) = le_two(bytes);
        let old2 = turned_back(33, 0x3849_5ab5, state.1, state.0) ^ scrambled::<33>(C2, C1, k2);
        let old1 = turned_back(37, 0x52dc_e729, state.0, old2) ^ scrambled::<31>(C1, C2, k1);
        *state = (old1, old2);
    }

    #[inline(always)]
    fn between(from: &(u64, u64), to: &(u64, u64)) -> [u8; 16] {
        let k1 = scrambled::<33>(
            UN_C2,
            UN_C1,
            from.0 ^ turned_back(37, 0x52dc_e729, to.0, from.1),
        );
        let k2 = scrambled::<31>(
            UN_C1,
            UN_C2,
            from.1 ^ turned_back(33, 0x3849_5ab5, to.1, to.0),
        );
        let mut block = [0; 16];
        block[..8].copy_from_slice(&k1.to_le_bytes());
        block[8..].copy_from_slice(&k2.to_le_bytes());
        block
    }

    #[inline(always)]
    fn unfinish(hash: (u64, u64), left: &[u8], total: u64) -> (u64, u64) {
        let (k1, k2) = words_left(left);
        let mixed2 = hash.1.wrapping_sub(hash.0);
        let mixed1 = hash.0.wrapping_sub(mixed2);
        let sum2 = last_unmix(mixed2);
        let sum1 = last_unmix(mixed1);
        let h2 = sum2.wrapping_sub(sum1);
        let h1 = sum1.wrapping_sub(h2);
        (
            h1 ^ total ^ scrambled::<31>(C1, C2, k1),
            h2 ^ total ^ scrambled::<33>(C2, C1, k2),
        )
    }

    ghost facts = { murmur3_128_facts };
}
