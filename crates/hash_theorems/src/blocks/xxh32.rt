//! The words that lead XXH32 to a hash.
ghost use Rattle.std.specs.Prelude.{◌≡◌, ◌+◌, ◌*◌, ◌/◌, ◌%◌, ◌^◌, ◌<◌, ◌≤◌, ◌++◌};
ghost use Rattle.hash_theorems.specs.BlockCommon.{ℕ, List, length, fold, reverse, ExactlyTexts, IsText, le, blocks, tail, blocks_before, fours_in, words_of, xxh32};
ghost use Rattle.hash_rounds.proofs.RoundLemmas.{AreNWords};
ghost use Rattle.hash_blocks.specs.Xxh32.{after_block, start};
ghost use Rattle.hash_theorems.specs.Xxh32Back.{before_block, begun, byte_out, four_between, four_out, lane_back, lane_for, lane_out, last_unmix, rest_out, turn_of, unturned, word_between};

use hash_blocks::xxhash::at_32::{Q2, Q3, Q5, after_block, converged, four_in, start, words_of};
use hash_words::{le_four, rotl32};

// What undoes a product by a prime.
const UN_Q1: u32 = 0x0e8b_2f51;

const UN_Q2: u32 = 0xb6c9_2f47;

const UN_Q3: u32 = 0xa89e_d915;

const UN_Q4: u32 = 0xa0fe_3bcf;

// The sum that a rotation and a product by a prime made this of.
#[inline(always)]
#[tactic(auto, unfolding(crate::specs::Xxh32Back::unturned))]
fn unturned(turn: u32, inverse: u32, h: u32) -> u32
    requires some { 0 < turn }
    requires within { turn < 32 }
    ensures { result ≡ unturned turn inverse h }
{
    rotl32(h.wrapping_mul(inverse), turn)
}

// The word before some bytes, one at a time.
#[tactic(auto, unfolding(crate::specs::Xxh32Back::byte_out))]
fn bytes_out(h: u32, bytes: &[u8]) -> u32
    ensures { result ≡ fold byte_out h (reverse bytes.now) }
{
    let mut before = h;
    for byte in bytes.iter().rev() {
        before = unturned(21, UN_Q1, before).wrapping_sub(u32::from(*byte).wrapping_mul(Q5));
    }
    before
}

// The word before the whole fours of a text.
#[tactic(auto, unfolding(crate::specs::Xxh32Back::four_out, crate::specs::BlockFacts::blocks_before, hash_words::specs::Pieces::pieces))]
fn fours_out(h: u32, text: &[u8]) -> u32
    ensures { result ≡ blocks_before 4 (λ h block. four_out h (le block)) h text.now }
{
    let (fours, _) = text.as_chunks::<4>();
    let mut before = h;
    for four in fours.iter().rev() {
        before = unturned(15, UN_Q4, before).wrapping_sub(le_four(four).wrapping_mul(Q3));
    }
    before
}

// The word before what is left behind the blocks.
#[tactic(auto, unfolding(hash_blocks::specs::Blocks::tail))]
fn rest_out(h: u32, left: &[u8]) -> u32
    ensures { result ≡ rest_out h left.now }
{
    let (_, bytes) = left.as_chunks::<4>();
    fours_out(bytes_out(h, bytes), left)
}

// The word before the last mix.
#[tactic(auto, unfolding(crate::specs::Xxh32Back::last_unmix))]
fn last_unmix(h: u32) -> u32
    ensures { result ≡ last_unmix h }
{
    let second = (h ^ (h >> 16)).wrapping_mul(UN_Q3);
    let once = second ^ (second >> 13);
    let first = (once ^ (once >> 26)).wrapping_mul(UN_Q2);
    let twice = first ^ (first >> 15);
    twice ^ (twice >> 30)
}

// The word after the whole fours of a text.
#[tactic(auto, unfolding(hash_blocks::specs::Blocks::blocks, hash_words::specs::Pieces::pieces))]
fn fours_in(h: u32, text: &[u8]) -> u32
    ensures { result ≡ fours_in h text.now }
{
    let (fours, _) = text.as_chunks::<4>();
    let mut mixed = h;
    for four in fours {
        mixed = four_in(mixed, le_four(four));
    }
    mixed
}

// The lanes after the whole blocks of a text.
#[tactic(auto, unfolding(hash_blocks::specs::Blocks::blocks, hash_words::specs::Pieces::pieces))]
fn lanes_after(lanes: &[u32; 4], text: &[u8]) -> [u32; 4]
    ensures { result ≡ blocks 16 after_block lanes.now text.now }
{
    let (whole, _) = text.as_chunks::<16>();
    let mut after = *lanes;
    for block in whole {
        after = after_block(&after, block);
    }
    after
}

// A lane before one word.
#[inline(always)]
#[tactic(auto, unfolding(crate::specs::Xxh32Back::lane_out))]
fn lane_out(lane: u32, word: u32) -> u32
    ensures { result ≡ lane_out lane word }
{
    unturned(19, UN_Q1, lane).wrapping_sub(word.wrapping_mul(Q2))
}

// The lanes before a block.
#[tactic(auto, unfolding(crate::specs::Xxh32Back::before_block))]
fn before_block(lanes: &[u32; 4], block: &[u8; 16]) -> [u32; 4]
    ensures { result ≡ before_block lanes.now block.now }
{
    let words = words_of(block);
    [
        lane_out(lanes[0], words[0]),
        lane_out(lanes[1], words[1]),
        lane_out(lanes[2], words[2]),
        lane_out(lanes[3], words[3]),
    ]
}

/// Takes a block of XXH32 out of its four lanes again, whether or not it was taken in: the inverse of that, both ways.
#[tactic(auto, using(crate::proofs::BlockBack::there_32, crate::proofs::BlockBack::back_again_32))]
pub fn xxh32_block_out(lanes: &[u32; 4], block: &[u8; 16]) -> [u32; 4]
    ensures back { after_block result block.now ≡ lanes.now }
    ensures undone { (s : List ℕ) → AreNWords 32 4 s → after_block s block.now ≡ lanes.now → result ≡ s }
{
    before_block(lanes, block)
}

// The lane of a place before the whole blocks of a text.
#[tactic(auto, unfolding(crate::specs::BlockFacts::blocks_before, hash_words::specs::Pieces::pieces))]
fn lane_back(place: usize, lane: u32, text: &[u8]) -> u32
    requires { place < 4 }
    ensures { result ≡ lane_back place lane text.now }
{
    let (whole, _) = text.as_chunks::<16>();
    let mut before = lane;
    for block in whole.iter().rev() {
        before = lane_out(before, words_of(block)[place]);
    }
    before
}

// How far the lane of a place is turned before the lanes are added.
#[inline(always)]
fn turn_of(place: usize) -> u32
    requires { place < 4 }
    ensures value { result ≡ turn_of place }
    ensures some { 0 < result }
    ensures within { result < 32 }
{
    match place {
        0 => 1,
        1 => 7,
        2 => 12,
        _ => 18,
    }
}

// The lane that makes a wanted sum in the place of another, which with the same other lanes makes a sum.
#[tactic(auto, unfolding(crate::specs::Xxh32Back::lane_for))]
fn lane_for(place: usize, wanted: u32, sum: u32, lane: u32) -> u32
    requires { place < 4 }
    ensures { result ≡ lane_for place wanted sum lane }
{
    let turn = turn_of(place);
    let turned = wanted.wrapping_sub(sum).wrapping_add(rotl32(lane, turn));
    rotl32(turned, 32 - turn)
}

// The word that leads from one to another behind the blocks.
#[tactic(auto, unfolding(crate::specs::Xxh32Back::four_between))]
fn four_between(from: u32, to: u32) -> u32
    ensures { result ≡ four_between from to }
{
    unturned(15, UN_Q4, to)
        .wrapping_sub(from)
        .wrapping_mul(UN_Q3)
}

// The word that leads from one lane to another.
#[tactic(auto, unfolding(crate::specs::Xxh32Back::word_between))]
fn word_between(from: u32, to: u32) -> u32
    ensures { result ≡ word_between from to }
{
    unturned(19, UN_Q1, to)
        .wrapping_sub(from)
        .wrapping_mul(UN_Q2)
}

// The word before what is left behind the blocks, under a seed, from the length of a text and what its whole blocks are in.
fn begun(seed: u32, front: &[u8], total: u64) -> u32
    ensures { result ≡ begun seed front.now total }
{
    if total < 16 {
        seed.wrapping_add(Q5)
    } else {
        converged(&lanes_after(&start(seed), front))
    }
}

// The word behind the whole blocks of 16, between a front and a back, that leads to a hash.
#[tactic(auto, unfolding(hash_blocks::specs::Blocks::tail))]
fn word_behind(seed: u32, front: &[u8], back: &[u8], hash: u32) -> [u8; 4]
    requires place { length front.now % 4 ≡ 0 }
    requires behind { length front.now % 16 + 4 + length back.now < 16 }
    ensures leads { xxh32 seed (front.now ++ (result ++ back.now)) ≡ hash }
    ensures alone { (word : List ℕ) → IsText word → length word ≡ 4
        → xxh32 seed (front.now ++ (word ++ back.now)) ≡ hash → word ≡ result }
{
    let (_, ahead) = front.as_chunks::<16>();
    let total = front.len() as u64 + 4 + back.len() as u64;
    let low = (total % 0x1_0000_0000) as u32;
    let from = fours_in(begun(seed, front, total).wrapping_add(low), ahead);
    four_between(from, rest_out(last_unmix(hash), back)).to_le_bytes()
}

// The block in which a word lies, with some word in its place.
#[tactic(auto, using(crate::proofs::Words32::around))]
fn block_around(ahead: &[u8], near: &[u8]) -> [u8; 16]
    requires { length ahead.now + 4 + length near.now ≡ 16 }
    ensures { (word : List ℕ) × (length word ≡ 4) × (result ≡ ahead.now ++ (word ++ near.now)) }
{
    let mut block = [0; 16];
    block[..ahead.len()].copy_from_slice(ahead);
    block[ahead.len() + 4..].copy_from_slice(near);
    block
}

// The word in a block of 16, between a front and a back, that leads to a hash.
#[tactic(auto, unfolding(hash_blocks::specs::Blocks::tail))]
fn word_inside(seed: u32, front: &[u8], back: &[u8], hash: u32) -> [u8; 4]
    requires place { length front.now % 4 ≡ 0 }
    requires inside { 16 ≤ length front.now % 16 + 4 + length back.now }
    ensures leads { xxh32 seed (front.now ++ (result ++ back.now)) ≡ hash }
    ensures alone { (word : List ℕ) → IsText word → length word ≡ 4
        → xxh32 seed (front.now ++ (word ++ back.now)) ≡ hash → word ≡ result }
{
    let (_, ahead) = front.as_chunks::<16>();
    let (near, later) = back.split_at(12 - ahead.len());
    let place = ahead.len() / 4;
    let before = lanes_after(&start(seed), front);
    let spare = lanes_after(&after_block(&before, &block_around(ahead, near)), later);
    let (_, left) = later.as_chunks::<16>();
    let total = front.len() as u64 + 4 + back.len() as u64;
    let low = (total % 0x1_0000_0000) as u32;
    let wanted = rest_out(last_unmix(hash), left).wrapping_sub(low);
    let lane = lane_for(place, wanted, converged(&spare), spare[place]);
    word_between(before[place], lane_back(place, lane, later)).to_le_bytes()
}

/// The one word of four bytes between a front, whose length 4 divides, and a back that leads XXH32 to a hash, under a seed.
pub fn word_for_xxh32(seed: u32, front: &[u8], back: &[u8], hash: u32) -> [u8; 4]
    requires { length front.now % 4 ≡ 0 }
    ensures leads { xxh32 seed (front.now ++ (result ++ back.now)) ≡ hash }
    ensures alone { (word : List ℕ) → IsText word → length word ≡ 4
        → xxh32 seed (front.now ++ (word ++ back.now)) ≡ hash → word ≡ result }
{
    let ahead = front.len() % 16;
    if back.len() < 12 - ahead {
        word_behind(seed, front, back, hash)
    } else {
        word_inside(seed, front, back, hash)
    }
}

/// From four bytes on XXH32 favours no hash, a law with no code: between a front, whose length 4 divides, and a back exactly one word of
/// four bytes gives each hash, under every seed.
pub fn xxh32_is_even()
    ensures { (seed hash : ℕ) (front back : List ℕ) → seed < 2 ^ 32 → hash < 2 ^ 32
        → IsText front → IsText back → length front % 4 ≡ 0
        → ExactlyTexts 1 4 (λ word. xxh32 seed (front ++ (word ++ back)) ≡ hash) }
{}
