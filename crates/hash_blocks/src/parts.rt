//! Blocks of a text that comes piece by piece.
ghost use Rattle.std.specs.Prelude.{◌≡◌, ◌+◌, ◌<◌, ◌++◌, length, take};
ghost use Rattle.hash_blocks.specs.Blocks.{blocks, tail};

use crate::block_rule::BlockRule;
use crate::words::{put_behind, put_front};
use hash_words::put;

/// Takes the whole blocks of the bytes in, where they stand, and returns what is left after them.
#[inline(always)]
#[tactic(auto, unfolding(crate::specs::Blocks::blocks, crate::specs::Blocks::tail, hash_words::specs::Pieces::pieces))]
pub fn blocks_in<'a, R: BlockRule<N>, const N: usize>(
    state: &mut R::State,
    bytes: &'a [u8],
) -> &'a [u8]
    ensures mixed { state.new ≡ blocks N R.block state.old bytes.now }
    ensures left { result.now ≡ tail N bytes.now }
    ensures part { length result.now < N }
{
    let (whole, left) = bytes.as_chunks::<N>();
    let mut mixed = *state;
    for block in whole {
        R::block(&mut mixed, block);
    }
    *state = mixed;
    left
}

// Puts what is left to the front of the buffer, and returns how many bytes that is.
#[inline(always)]
#[tactic(auto, using(crate::proofs::PartLemmas::none_first))]
fn keep<const N: usize>(buffer: &mut [u8; N], left: &[u8]) -> usize
    requires eight { N ≡ 8 }
    requires part { length left.now < N }
    ensures kept { take (length left.now) buffer.new ≡ left.now }
    ensures count { result ≡ length left.now }
    ensures whole { length buffer.new ≡ N }
{
    let count = left.len();
    if count > 0 {
        put_front(buffer, left);
    }
    count
}

// What `bytes_in` does where a block is a word of eight bytes: those that are kept are written and read as one.
#[inline(always)]
fn words_in<R: BlockRule<N>, const N: usize>(
    state: &mut R::State,
    buffer: &mut [u8; N],
    kept: usize,
    bytes: &[u8],
) -> usize
    requires eight { N ≡ 8 }
    requires part { kept < N }
    ensures mixed { state.new ≡ blocks N R.block state.old (take kept buffer.old ++ bytes.now) }
    ensures left { take result buffer.new ≡ tail N (take kept buffer.old ++ bytes.now) }
    ensures part { result < N }
    ensures whole { length buffer.new ≡ N }
{
    let mut rest = bytes;
    if kept > 0 {
        let open = N - kept;
        if bytes.len() < open {
            put_behind(buffer, kept, bytes);
            return kept + bytes.len();
        }
        let (head, later) = bytes.split_at(open);
        put_behind(buffer, kept, head);
        R::block(state, buffer);
        rest = later;
    }
    keep(buffer, blocks_in::<R, N>(state, rest))
}

/// Takes more bytes in after the first `kept` of the buffer, and returns how many are kept afterwards. Where they complete a
/// block that was begun, its bytes are copied to the buffer; all blocks after it are read where they stand.
#[inline(always)]
pub fn bytes_in<R: BlockRule<N>, const N: usize>(
    state: &mut R::State,
    buffer: &mut [u8; N],
    kept: usize,
    bytes: &[u8],
) -> usize
    requires { kept < N }
    ensures mixed { state.new ≡ blocks N R.block state.old (take kept buffer.old ++ bytes.now) }
    ensures left { take result buffer.new ≡ tail N (take kept buffer.old ++ bytes.now) }
    ensures part { result < N }
    ensures whole { length buffer.new ≡ N }
{
    // a single byte is written faster alone
    if N == 8 && bytes.len() > 1 {
        return words_in::<R, N>(state, buffer, kept, bytes);
    }
    if bytes.len() < N - kept {
        put(buffer, kept, bytes);
        return kept + bytes.len();
    }
    let mut rest = bytes;
    if kept > 0 {
        let (head, behind) = bytes.split_at(N - kept);
        put(buffer, kept, head);
        R::block(state, buffer);
        rest = behind;
    }
    let left = blocks_in::<R, N>(state, rest);
    put(buffer, 0, left);
    left.len()
}
