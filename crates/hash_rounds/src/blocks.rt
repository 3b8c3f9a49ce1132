//! Spooky's rounds over whole blocks of 96 bytes, straight from the caller's slice.

ghost use Rattle.std.specs.Prelude.{◌≡◌, ◌+◌, ◌*◌, ◌%◌, length};
ghost use Rattle.hash_rounds.specs.Blocks.{spooky_blocks, spooky_unblocks};

use crate::spooky::{spooky_mix, spooky_unmix};
use crate::turns::Turns;
use hash_words::le_words;

/// Mixes the blocks of 96 bytes into a state by `spooky_mix`, from the first to the last, each as twelve
/// little-endian words. No bytes leave the state. 96 divides the number of bytes. The call counts one turn.
#[inline(always)]
#[tactic(auto, unfolding(crate::specs::Blocks::spooky_blocks, crate::specs::Blocks::spooky_unblocks, hash_words::specs::Pieces::pieces))]
pub fn spooky_blocks(bytes: &[u8], s: &mut [u64; 12], t: &mut Turns)
    requires { length bytes.now % 96 ≡ 0 }
    ensures mixed { s.new ≡ spooky_blocks s.old bytes.now }
    ensures undone { spooky_unblocks s.new bytes.now ≡ s.old }
    ensures turn { t.new ≡ t.old + 1 }
{
    t.tick();
    let (blocks, _) = bytes.as_chunks::<96>();
    let mut words = *s;
    for block in blocks {
        spooky_mix(&le_words(block), &mut words);
    }
    *s = words;
}

/// Takes `spooky_blocks` of the same bytes back, on any state, from the last block to the first. 96 divides the
/// number of bytes.
#[tactic(auto, unfolding(crate::specs::Blocks::spooky_blocks, crate::specs::Blocks::spooky_unblocks, hash_words::specs::Pieces::pieces))]
pub fn spooky_unblocks(bytes: &[u8], s: &mut [u64; 12])
    requires { length bytes.now % 96 ≡ 0 }
    ensures round { s.new ≡ spooky_unblocks s.old bytes.now }
    ensures undone { spooky_blocks s.new bytes.now ≡ s.old }
{
    let (blocks, _) = bytes.as_chunks::<96>();
    for i in (0..blocks.len()).rev() {
        spooky_unmix(&le_words(&blocks[i]), s);
    }
}
