//! Blocks of a text from 192 bytes on, and its tail.
ghost use Rattle.std.specs.Prelude.{◌≡◌, ◌+◌, ◌-◌, ◌*◌, ◌/◌, ◌<◌, ◌≤◌, ◌++◌};
ghost use Rattle.hash_jenkins.specs.Common.{length, take, block_end, calls_over, Long, padded, long_words, mixed};

use crate::spooky_short::{LONG, zero_filled};
use hash_rounds::{Turns, le_words, put, put_array, spooky_blocks, spooky_end};

/// The bytes of a block.
pub(crate) const BLOCK: usize = 96;

// The tail of a long text as a block, which ends in the tail's length.
fn padded(tail: &[u8]) -> [u8; 96]
    requires { length tail.now < 96 }
    ensures { result ≡ padded tail.now }
{
    let mut block = zero_filled(tail);
    block[BLOCK - 1] = tail.len() as u8;
    block
}

/// The twelve words after the tail of a long text.
pub(crate) fn long_words(words: &[u64; 12], tail: &[u8]) -> [u64; 12]
    requires { length tail.now < 96 }
    ensures { result ≡ long_words words.now tail.now }
{
    let mut end = *words;
    spooky_end(&le_words(&padded(tail)), &mut end);
    end
}

// The end of the block in which a place lies.
#[inline(always)]
fn block_end(place: usize) -> usize
    requires some { 0 < place }
    requires within { place < 192 }
    ensures { result ≡ block_end place }
{
    if place <= BLOCK { BLOCK } else { LONG }
}

// Mixes in the whole blocks of the kept bytes followed by `bytes`, of which there is at least one. What is left is then
// kept, and is as long as the result says.
#[inline(never)]
fn mix_whole_blocks(
    words: &mut [u64; 12],
    buffer: &mut [u8; 192],
    kept: usize,
    bytes: &[u8],
    turns: &mut Turns,
) -> usize
    requires any { 0 < kept }
    requires within { kept < 192 }
    requires some { 96 ≤ kept + length bytes.now }
    requires enough { 96 ≤ kept → 192 ≤ kept + length bytes.now }
    ensures position { Long words.new (take result buffer.new)
        ≡ mixed words.old (take kept buffer.old ++ bytes.now) }
    ensures part { result < 96 }
    ensures turns { turns.new ≡ turns.old + calls_over kept (length bytes.now) }
{
    let full = block_end(kept);
    let (head, rest) = bytes.split_at(full - kept);
    put(buffer, kept, head);
    let (blocks, left) = rest.split_at(rest.len() / BLOCK * BLOCK);
    let mut mixed = *words;
    spooky_blocks(&buffer[..full], &mut mixed, turns);
    if !blocks.is_empty() {
        spooky_blocks(blocks, &mut mixed, turns);
    }
    *words = mixed;
    put(buffer, 0, left);
    left.len()
}

// The same where the kept bytes and a piece of at most 96 complete one block. The piece is kept as a whole first, and what is
// behind the block is copied down by a fixed length, so that no copy depends on how much is kept.
#[inline(never)]
fn mix_piece(
    words: &mut [u64; 12],
    buffer: &mut [u8; 192],
    kept: usize,
    piece: &[u8],
    turns: &mut Turns,
) -> usize
    requires within { kept < 96 }
    requires few { length piece.now ≤ 96 }
    requires enough { 96 ≤ kept + length piece.now }
    ensures position { Long words.new (take result buffer.new)
        ≡ mixed words.old (take kept buffer.old ++ piece.now) }
    ensures part { result < 96 }
    ensures turns { turns.new ≡ turns.old + 1 }
{
    let end = kept + piece.len();
    put(buffer, kept, piece);
    spooky_blocks(&buffer[..BLOCK], words, turns);
    if let Some(behind) = buffer.last_chunk::<96>() {
        let behind = *behind;
        put_array(buffer, 0, behind);
    }
    end - BLOCK
}

// The same where no bytes are kept.
#[inline(never)]
fn mix_slice(
    words: &mut [u64; 12],
    buffer: &mut [u8; 192],
    bytes: &[u8],
    turns: &mut Turns,
) -> usize
    ensures position { Long words.new (take result buffer.new) ≡ mixed words.old bytes.now }
    ensures part { result < 96 }
    ensures turns { turns.new ≡ turns.old + 1 }
{
    let (blocks, left) = bytes.split_at(bytes.len() / BLOCK * BLOCK);
    spooky_blocks(blocks, words, turns);
    put(buffer, 0, left);
    left.len()
}

/// The same where there may be no whole block.
#[inline(always)]
pub(crate) fn mix_blocks(
    words: &mut [u64; 12],
    buffer: &mut [u8; 192],
    kept: usize,
    bytes: &[u8],
    turns: &mut Turns,
) -> usize
    requires within { kept < 192 }
    requires enough { 96 ≤ kept → 192 ≤ kept + length bytes.now }
    ensures position { Long words.new (take result buffer.new)
        ≡ mixed words.old (take kept buffer.old ++ bytes.now) }
    ensures part { result < 96 }
    ensures turns { turns.new ≡ turns.old + calls_over kept (length bytes.now) }
{
    let end = kept + bytes.len();
    if end < BLOCK {
        put(buffer, kept, bytes);
        return end;
    }
    if kept == 0 {
        mix_slice(words, buffer, bytes, turns)
    } else if kept < BLOCK && bytes.len() <= BLOCK && bytes.len() >= 32 {
        mix_piece(words, buffer, kept, bytes, turns)
    } else {
        mix_whole_blocks(words, buffer, kept, bytes, turns)
    }
}
