//! What follows for all block-based hashes that lose nothing.
ghost use Rattle.std.specs.Prelude.{◌≡◌, ◌≢◌, ◌↔◌, ◌+◌, ◌%◌, ◌^◌, ◌<◌, ◌≤◌, ◌++◌};
ghost use Rattle.hash_theorems.specs.BlockCommon.{ℕ, List, IsTrue, length, OnTrue, ExactlyTexts, IsText, DifferInOneBlock, tail, blocks_before};
ghost use Rattle.hash_theorems.specs.Xxh32Words.{DifferInOneWord};
ghost use Rattle.hash_theorems.specs.Xxh64Words.{DifferInOneLastWord, IsBehind};

use crate::blocks::block_undo::BlockUndo;
use hash_blocks::blocks_in;
use hash_laws::traits::bytes_are_a_text;
use hash_laws::windows::window::differ_in_one_block;

/// Whether the texts have one length and differ, but only within one block of `N` bytes, or after the whole blocks. If so,
/// their hashes differ under every seed. Computes no hash.
pub fn apart_by_rule<R: BlockUndo<N>, const N: usize>(x: &[u8], y: &[u8]) -> bool
    ensures exactly { IsTrue result ↔ DifferInOneBlock N x.now y.now }
    ensures differ { OnTrue result ((from : List ℕ) → R.is_seed from → R.hash from x.now ≢ R.hash from y.now) }
{
    differ_in_one_block::<N>(x, y)
}

/// A changed block shows, a law with no code: two texts of one length that differ, but only within one block, or after the
/// whole blocks, have different hashes under every seed. `apart_by_rule` says it of slices; the law also of what is longer than
/// memory, such as a file.
pub fn one_changed_block_shows_by_rule<R: BlockUndo<N>, const N: usize>()
    ensures { (from x y : List ℕ) → R.is_seed from → IsText x → IsText y → DifferInOneBlock N x y
        → R.hash from x ≢ R.hash from y }
{}

// The state before the bytes from which they, at the end of a text of so many bytes, lead to a hash: what is left behind the
// whole blocks is taken back first, and then the blocks, from the last to the first.
#[tactic(auto, unfolding(crate::specs::BlockFacts::blocks_before, hash_blocks::specs::Blocks::tail, hash_words::specs::Pieces::pieces))]
fn blocks_out<R: BlockUndo<N>, const N: usize>(hash: R::Hash, bytes: &[u8], total: u64) -> R::State
    ensures { result ≡ blocks_before N R.unblock (R.unfinish hash (tail N bytes.now) total) bytes.now }
{
    let (whole, left) = bytes.as_chunks::<N>();
    let mut state = R::unfinish(hash, left, total);
    for block in whole.iter().rev() {
        R::unblock(&mut state, block);
    }
    state
}

/// The one block between a front of whole blocks and a back that gives a hash, under a seed.
pub fn block_for_by_rule<R: BlockUndo<N>, const N: usize>(
    seed: R::Seed,
    front: &[u8],
    back: &[u8],
    hash: R::Hash,
) -> [u8; N]
    requires place { length front.now % N ≡ 0 }
    requires fits { length front.now + N + length back.now < 2 ^ 64 }
    ensures leads { R.hash (R.numbers seed) (front.now ++ (result ++ back.now)) ≡ hash }
    ensures alone { (block : List ℕ) → IsText block → length block ≡ N
        → R.hash (R.numbers seed) (front.now ++ (block ++ back.now)) ≡ hash → block ≡ result }
{
    R::seed_in_range(seed);
    R::answer_in_range(hash);
    let mut from = R::start(seed);
    let _none = blocks_in::<R, N>(&mut from, front);
    let to = blocks_out::<R, N>(hash, back, (front.len() + N + back.len()) as u64);
    R::between(&from, &to)
}

/// No hash is favoured, a law with no code: between a front of whole blocks and a back exactly one block gives each hash,
/// under every seed.
pub fn blocks_are_even<R: BlockUndo<N>, const N: usize>()
    ensures { (from front back : List ℕ) (hash : R.Hash) → R.is_seed from → IsText front → IsText back
        → length front % N ≡ 0 → R.is_answer hash
        → ExactlyTexts 1 N (λ block. R.hash from (front ++ (block ++ back)) ≡ hash) }
{}

/// Takes a block out again, whether or not it was taken in: the inverse of `block`, both ways.
#[tactic(auto, using(hash_words::proofs::UndoLemmas::found, hash_words::proofs::UndoLemmas::found_alone))]
pub fn block_out<R: BlockUndo<N>, const N: usize>(state: &mut R::State, bytes: &[u8; N])
    requires { R.in_range state.old }
    ensures back { R.block state.new bytes.now ≡ state.old }
    ensures undone { (s : R.State) → R.in_range s → R.block s bytes.now ≡ state.old → state.new ≡ s }
    ensures in_range { R.in_range state.new }
{
    bytes_are_a_text(bytes);
    R::unblock(state, bytes);
}

/// The one state that answers a hash, from the bytes that are left after the whole blocks and the length.
pub fn state_behind<R: BlockUndo<N>, const N: usize>(
    hash: R::Hash,
    left: &[u8],
    total: u64,
) -> R::State
    requires { length left.now < N }
    ensures back { R.finish result left.now total ≡ hash }
    ensures alone { (s : R.State) → R.in_range s → R.finish s left.now total ≡ hash → s ≡ result }
    ensures in_range { R.in_range result }
{
    R::answer_in_range(hash);
    R::unfinish(hash, left, total)
}

/// A law with no code, for texts that a caller has in parts: a front, two different middles of one length, and a back differ within one
/// block of so many bytes if the middle lies in one, and within one aligned word if the middles are words.
pub fn middles_in_one_block()
    ensures block { (size : ℕ) (front x y back : List ℕ) → length x ≡ length y → x ≢ y
        → length front % size + length x ≤ size
        → DifferInOneBlock size (front ++ (x ++ back)) (front ++ (y ++ back)) }
    ensures word { (front x y back : List ℕ) → length front % 4 ≡ 0
        → length x ≡ 4 → length y ≡ 4 → x ≢ y
        → DifferInOneWord (front ++ (x ++ back)) (front ++ (y ++ back)) }
    ensures last_word { (front x y back : List ℕ) → IsBehind (length front) (length back)
        → length x ≡ 8 → length y ≡ 8 → x ≢ y
        → DifferInOneLastWord (front ++ (x ++ back)) (front ++ (y ++ back)) }
{}
