//! MurmurHash3_x86_32 loses nothing of a block.
ghost use Rattle.std.specs.Prelude.{◌≡◌, ◌%◌, ◌^◌};
ghost use Rattle.hash_theorems.specs.Murmur3Back.{unscramble, turned_back, last_unmix, before_block, block_between, before_end, IsSeed, IsWord};
ghost use Rattle.hash_theorems.specs.Murmur3BackLaws.{murmur3_32_facts};

use crate::blocks::block_undo::BlockUndo;
use hash_blocks::murmur3::Murmur3Rule32;
use hash_blocks::murmur3::x86_32::scramble;
use hash_words::{le_four, le32, rotl32};

// The word of which `scramble` makes this one.
#[inline(always)]
#[tactic(auto, unfolding(crate::specs::Murmur3Back::unscramble))]
fn unscramble(word: u32) -> u32
    ensures { result ≡ unscramble word }
{
    rotl32(word.wrapping_mul(0x56ed309b), 17).wrapping_mul(0xdee13bb1)
}

// The sum, the product and the rotation of a state taken back.
#[inline(always)]
#[tactic(auto, unfolding(crate::specs::Murmur3Back::turned_back))]
fn turned_back(h: u32) -> u32
    ensures { result ≡ turned_back h }
{
    rotl32(h.wrapping_sub(0xe6546b64).wrapping_mul(0xcccccccd), 19)
}

// The state of which the last mix makes this one.
#[inline(always)]
#[tactic(auto, unfolding(crate::specs::Murmur3Back::last_unmix))]
fn last_unmix(h: u32) -> u32
    ensures { result ≡ last_unmix h }
{
    let first = (h ^ (h >> 16)).wrapping_mul(0x7ed1b41d);
    let once = first ^ (first >> 13);
    let second = (once ^ (once >> 26)).wrapping_mul(0xa5cb9243);
    second ^ (second >> 16)
}

impl BlockUndo<4> for Murmur3Rule32 {
    ghost is_seed = { IsSeed };

    ghost in_range = { IsWord };

    ghost is_answer = { IsWord };

    ghost unblock = { before_block };

    ghost between = { block_between };

    ghost unfinish = { before_end };

    fn seed_in_range(seed: u32) {
        let _ = seed;
    }

    fn answer_in_range(hash: u32) {
        let _ = hash;
    }

    #[inline(always)]
    fn unblock(state: &mut u32, bytes: &[u8; 4]) {
        *state = turned_back(*state) ^ scramble(le_four(bytes));
    }

    #[inline(always)]
    fn between(from: &u32, to: &u32) -> [u8; 4] {
        unscramble(*from ^ turned_back(*to)).to_le_bytes()
    }

    #[inline(always)]
    fn unfinish(hash: u32, left: &[u8], total: u64) -> u32 {
        last_unmix(hash) ^ (total % 0x1_0000_0000) as u32 ^ scramble(le32(left))
    }

    ghost facts = { murmur3_32_facts };
}
