//! Block-based hashes under a seed or a key: of a whole text, and of a text in parts. The caller keeps the state.
ghost use Rattle.std.specs.Prelude.{◌≡◌, ◌<◌, ◌++◌};
ghost use Rattle.hash_c.specs.Common.{ℕ, List, [], Some, None, take, AreZeros, murmur3_32, murmur3_128, siphash, xxh32, xxh64};
ghost use Rattle.hash_blocks.specs.Blocks.{blocks, tail};
ghost use Rattle.hash_c.specs.BlockStates.{IsMurmur3State, IsMurmur32State, IsSip13State, IsSip24State, IsStateOf, IsUsable, IsXxh32State, IsXxh64State, mark_murmur3, mark_murmur3_32, mark_siphash13, mark_siphash24, mark_xxh32, mark_xxh64};

use crate::in_words::InWords;
use crate::spooky::{Words, two_words};
use hash_blocks::bytes_in;
use hash_blocks::murmur3::{Murmur3Rule32, Murmur3Rule128, murmur3_32, murmur3_128};
use hash_blocks::siphash::{SipKey, SipRule, siphash13, siphash24};
use hash_blocks::xxhash::{Xxh32Rule, Xxh64Rule, xxh32, xxh64};
use hash_words::put;

// The marks of the states: bytes that hardly lie in memory by chance.
const XXH32: u64 = 0x5b39_d3a6_8cf0_7101;

const XXH64: u64 = 0x5b39_d3a6_8cf0_7102;

const MURMUR3_32: u64 = 0x5b39_d3a6_8cf0_7103;

const MURMUR3: u64 = 0x5b39_d3a6_8cf0_7104;

const SIPHASH13: u64 = 0x5b39_d3a6_8cf0_7105;

const SIPHASH24: u64 = 0x5b39_d3a6_8cf0_7106;

// What hashers.h reserves for a state.
const _: () = prove!(size_of::<BlockState>() == 96);

/// Where a block-based hash stands in a text: a mark that tells which hash, what is kept of the whole blocks, the length
/// modulo 2^64, and what is left behind the blocks. The fields are whole numbers, so that any bytes are a state.
#[repr(C)]
#[derive(Clone, Copy)]
pub struct BlockState {
    pub mark: u64,
    pub words: [u64; 4],
    pub long: u64,
    pub length: u64,
    pub kept: u64,
    pub buffer: [u8; 32],
}

// The state of no bytes.
#[inline(always)]
fn begun<R: InWords<N>, const N: usize>(mark: u64, seed: R::Seed) -> BlockState
    ensures { IsStateOf mark N R.of_words R.block result (R.start (R.numbers seed)) [] }
{
    let mut words = [0; 4];
    let long = R::in_words(&R::start(seed), &mut words);
    BlockState {
        mark,
        words,
        long,
        length: 0,
        kept: 0,
        buffer: [0; 32],
    }
}

// Takes more bytes in, as `bytes_in` does, where the buffer may be longer than a block.
#[inline(always)]
fn bytes_in_front<R: InWords<N>, const N: usize>(
    lanes: &mut R::State,
    buffer: &mut [u8; 32],
    kept: usize,
    bytes: &[u8],
) -> usize
    requires { kept < N }
    ensures mixed { lanes.new ≡ blocks N R.block lanes.old (take kept buffer.old ++ bytes.now) }
    ensures left { take result buffer.new ≡ tail N (take kept buffer.old ++ bytes.now) }
    ensures part { result < N }
{
    match buffer.first_chunk_mut::<N>() {
        Some(front) => bytes_in::<R, N>(lanes, front, kept, bytes),
        None => kept,
    }
}

// Goes on over the bytes, where the state has the mark and less than a block is left.
#[inline(always)]
fn written<R: InWords<N>, const N: usize>(mark: u64, state: &mut BlockState, bytes: &[u8])
    ensures of_text { (start : R.State) (text : List ℕ) → IsStateOf mark N R.of_words R.block state.old start text
        → IsStateOf mark N R.of_words R.block state.new start (text ++ bytes.now) }
    ensures unusable { ¬ IsUsable mark N state.old → state.new ≡ state.old }
{
    if state.mark != mark || state.kept >= N as u64 {
        return;
    }
    let kept = state.kept as usize;
    state.length = state.length.wrapping_add(bytes.len() as u64);
    // no block is completed, so nothing of the words is read or written; `bytes_in` has a way of its own for blocks of eight bytes
    if N > 8 && bytes.len() < N - kept {
        put(&mut state.buffer, kept, bytes);
        state.kept += bytes.len() as u64;
        return;
    }
    let mut lanes = R::of_words(&state.words, state.long);
    state.kept = bytes_in_front::<R, N>(&mut lanes, &mut state.buffer, kept, bytes) as u64;
    state.long = R::in_words(&lanes, &mut state.words);
}

// The hash of the bytes so far, where the state has the mark and less than a block is left.
#[inline(always)]
fn hash_so_far<R: InWords<N>, const N: usize>(mark: u64, state: &BlockState) -> Option<R::Hash>
    ensures of_text { (from text : List ℕ) → IsStateOf mark N R.of_words R.block state.now (R.start from) text
        → result ≡ Some (R.hash from text) }
    ensures none { ¬ IsUsable mark N state.now → result ≡ None }
{
    if state.mark != mark || state.kept >= N as u64 {
        return None;
    }
    let lanes = R::of_words(&state.words, state.long);
    Some(R::finish(&lanes, &state.buffer[..state.kept as usize], state.length))
}

/// XXH32 of the text under a seed.
#[unsafe(no_mangle)]
pub extern "C" fn hashers_xxh32_seeded(text: &[u8], seed: u32) -> u64
    ensures { result ≡ xxh32 seed text.now }
{
    u64::from(xxh32(seed, text))
}

/// XXH64 of the text under a seed.
#[unsafe(no_mangle)]
pub extern "C" fn hashers_xxh64_seeded(text: &[u8], seed: u64) -> u64
    ensures { result ≡ xxh64 seed text.now }
{
    xxh64(seed, text)
}

/// MurmurHash3_x86_32 of the text under a seed.
#[unsafe(no_mangle)]
pub extern "C" fn hashers_murmur3_32_seeded(text: &[u8], seed: u32) -> u64
    ensures { result ≡ murmur3_32 seed text.now }
{
    u64::from(murmur3_32(seed, text))
}

/// MurmurHash3_x64_128 of the text under a seed: both words.
#[unsafe(no_mangle)]
pub extern "C" fn hashers_murmur3_128(text: &[u8], seed: u64) -> Words
    ensures { (result.first, result.second) ≡ murmur3_128 seed text.now }
{
    two_words(murmur3_128(seed, text))
}

/// SipHash-1-3 of the text under a key: its first and its last eight bytes as little-endian numbers.
#[unsafe(no_mangle)]
pub extern "C" fn hashers_siphash13_keyed(text: &[u8], k0: u64, k1: u64) -> u64
    ensures { result ≡ siphash 1 3 k0 k1 text.now }
{
    siphash13(SipKey { k0, k1 }, text)
}

/// SipHash-2-4 of the text under a key.
#[unsafe(no_mangle)]
pub extern "C" fn hashers_siphash24_keyed(text: &[u8], k0: u64, k1: u64) -> u64
    ensures { result ≡ siphash 2 4 k0 k1 text.now }
{
    siphash24(SipKey { k0, k1 }, text)
}

/// The state of XXH32 of no bytes, under a seed.
#[unsafe(no_mangle)]
pub extern "C" fn hashers_xxh32_begin(seed: u32) -> BlockState
    ensures { IsXxh32State result seed [] }
{
    begun::<Xxh32Rule, 16>(XXH32, seed)
}

/// Goes on over the bytes. Without the mark of `hashers_xxh32_begin` nothing changes.
#[unsafe(no_mangle)]
pub extern "C" fn hashers_xxh32_write(state: &mut BlockState, bytes: &[u8])
    ensures of_text { (seed : ℕ) (text : List ℕ) → IsXxh32State state.old seed text
        → IsXxh32State state.new seed (text ++ bytes.now) }
    ensures unusable { ¬ IsUsable mark_xxh32 16 state.old → state.new ≡ state.old }
{
    written::<Xxh32Rule, 16>(XXH32, state, bytes);
}

/// XXH32 of the bytes so far. More may be written afterwards. Without the mark it is 0.
#[unsafe(no_mangle)]
pub extern "C" fn hashers_xxh32_finish(state: &BlockState) -> u64
    ensures of_text { (seed : ℕ) (text : List ℕ) → IsXxh32State state.now seed text
        → result ≡ xxh32 seed text }
    ensures unusable { ¬ IsUsable mark_xxh32 16 state.now → result ≡ 0 }
{
    u64::from(hash_so_far::<Xxh32Rule, 16>(XXH32, state).unwrap_or(0))
}

/// The state of XXH64 of no bytes, under a seed.
#[unsafe(no_mangle)]
pub extern "C" fn hashers_xxh64_begin(seed: u64) -> BlockState
    ensures { IsXxh64State result seed [] }
{
    begun::<Xxh64Rule, 32>(XXH64, seed)
}

/// Goes on over the bytes. Without the mark of `hashers_xxh64_begin` nothing changes.
#[unsafe(no_mangle)]
pub extern "C" fn hashers_xxh64_write(state: &mut BlockState, bytes: &[u8])
    ensures of_text { (seed : ℕ) (text : List ℕ) → IsXxh64State state.old seed text
        → IsXxh64State state.new seed (text ++ bytes.now) }
    ensures unusable { ¬ IsUsable mark_xxh64 32 state.old → state.new ≡ state.old }
{
    written::<Xxh64Rule, 32>(XXH64, state, bytes);
}

/// XXH64 of the bytes so far. More may be written afterwards. Without the mark it is 0.
#[unsafe(no_mangle)]
pub extern "C" fn hashers_xxh64_finish(state: &BlockState) -> u64
    ensures of_text { (seed : ℕ) (text : List ℕ) → IsXxh64State state.now seed text
        → result ≡ xxh64 seed text }
    ensures unusable { ¬ IsUsable mark_xxh64 32 state.now → result ≡ 0 }
{
    hash_so_far::<Xxh64Rule, 32>(XXH64, state).unwrap_or(0)
}

/// The state of MurmurHash3_x86_32 of no bytes, under a seed.
#[unsafe(no_mangle)]
pub extern "C" fn hashers_murmur3_32_begin(seed: u32) -> BlockState
    ensures { IsMurmur32State result seed [] }
{
    begun::<Murmur3Rule32, 4>(MURMUR3_32, seed)
}

/// Goes on over the bytes. Without the mark of `hashers_murmur3_32_begin` nothing changes.
#[unsafe(no_mangle)]
pub extern "C" fn hashers_murmur3_32_write(state: &mut BlockState, bytes: &[u8])
    ensures of_text { (seed : ℕ) (text : List ℕ) → IsMurmur32State state.old seed text
        → IsMurmur32State state.new seed (text ++ bytes.now) }
    ensures unusable { ¬ IsUsable mark_murmur3_32 4 state.old → state.new ≡ state.old }
{
    written::<Murmur3Rule32, 4>(MURMUR3_32, state, bytes);
}

/// MurmurHash3_x86_32 of the bytes so far. More may be written afterwards. Without the mark it is 0.
#[unsafe(no_mangle)]
pub extern "C" fn hashers_murmur3_32_finish(state: &BlockState) -> u64
    ensures of_text { (seed : ℕ) (text : List ℕ) → IsMurmur32State state.now seed text
        → result ≡ murmur3_32 seed text }
    ensures unusable { ¬ IsUsable mark_murmur3_32 4 state.now → result ≡ 0 }
{
    u64::from(hash_so_far::<Murmur3Rule32, 4>(MURMUR3_32, state).unwrap_or(0))
}

/// The state of MurmurHash3_x64_128 of no bytes, under a seed.
#[unsafe(no_mangle)]
pub extern "C" fn hashers_murmur3_begin(seed: u64) -> BlockState
    ensures { IsMurmur3State result seed [] }
{
    begun::<Murmur3Rule128, 16>(MURMUR3, seed)
}

/// Goes on over the bytes. Without the mark of `hashers_murmur3_begin` nothing changes.
#[unsafe(no_mangle)]
pub extern "C" fn hashers_murmur3_write(state: &mut BlockState, bytes: &[u8])
    ensures of_text { (seed : ℕ) (text : List ℕ) → IsMurmur3State state.old seed text
        → IsMurmur3State state.new seed (text ++ bytes.now) }
    ensures unusable { ¬ IsUsable mark_murmur3 16 state.old → state.new ≡ state.old }
{
    written::<Murmur3Rule128, 16>(MURMUR3, state, bytes);
}

/// MurmurHash3_x64_128 of the bytes so far, both words. More may be written afterwards. Without the mark both are 0.
#[unsafe(no_mangle)]
pub extern "C" fn hashers_murmur3_finish(state: &BlockState) -> Words
    ensures of_text { (seed : ℕ) (text : List ℕ) → IsMurmur3State state.now seed text
        → (result.first, result.second) ≡ murmur3_128 seed text }
    ensures unusable { ¬ IsUsable mark_murmur3 16 state.now → AreZeros result }
{
    two_words(hash_so_far::<Murmur3Rule128, 16>(MURMUR3, state).unwrap_or((0, 0)))
}

/// The state of SipHash-1-3 of no bytes, under a key: its first and its last eight bytes as little-endian numbers.
#[unsafe(no_mangle)]
pub extern "C" fn hashers_siphash13_begin(k0: u64, k1: u64) -> BlockState
    ensures { IsSip13State result k0 k1 [] }
{
    begun::<SipRule<1, 3>, 8>(SIPHASH13, SipKey { k0, k1 })
}

/// Goes on over the bytes. Without the mark of `hashers_siphash13_begin` nothing changes.
#[unsafe(no_mangle)]
pub extern "C" fn hashers_siphash13_write(state: &mut BlockState, bytes: &[u8])
    ensures of_text { (k0 k1 : ℕ) (text : List ℕ) → IsSip13State state.old k0 k1 text
        → IsSip13State state.new k0 k1 (text ++ bytes.now) }
    ensures unusable { ¬ IsUsable mark_siphash13 8 state.old → state.new ≡ state.old }
{
    written::<SipRule<1, 3>, 8>(SIPHASH13, state, bytes);
}

/// SipHash-1-3 of the bytes so far. More may be written afterwards. Without the mark it is 0.
#[unsafe(no_mangle)]
pub extern "C" fn hashers_siphash13_finish(state: &BlockState) -> u64
    ensures of_text { (k0 k1 : ℕ) (text : List ℕ) → IsSip13State state.now k0 k1 text
        → result ≡ siphash 1 3 k0 k1 text }
    ensures unusable { ¬ IsUsable mark_siphash13 8 state.now → result ≡ 0 }
{
    hash_so_far::<SipRule<1, 3>, 8>(SIPHASH13, state).unwrap_or(0)
}

/// The state of SipHash-2-4 of no bytes, under a key: its first and its last eight bytes as little-endian numbers.
#[unsafe(no_mangle)]
pub extern "C" fn hashers_siphash24_begin(k0: u64, k1: u64) -> BlockState
    ensures { IsSip24State result k0 k1 [] }
{
    begun::<SipRule<2, 4>, 8>(SIPHASH24, SipKey { k0, k1 })
}

/// Goes on over the bytes. Without the mark of `hashers_siphash24_begin` nothing changes.
#[unsafe(no_mangle)]
pub extern "C" fn hashers_siphash24_write(state: &mut BlockState, bytes: &[u8])
    ensures of_text { (k0 k1 : ℕ) (text : List ℕ) → IsSip24State state.old k0 k1 text
        → IsSip24State state.new k0 k1 (text ++ bytes.now) }
    ensures unusable { ¬ IsUsable mark_siphash24 8 state.old → state.new ≡ state.old }
{
    written::<SipRule<2, 4>, 8>(SIPHASH24, state, bytes);
}

/// SipHash-2-4 of the bytes so far. More may be written afterwards. Without the mark it is 0.
#[unsafe(no_mangle)]
pub extern "C" fn hashers_siphash24_finish(state: &BlockState) -> u64
    ensures of_text { (k0 k1 : ℕ) (text : List ℕ) → IsSip24State state.now k0 k1 text
        → result ≡ siphash 2 4 k0 k1 text }
    ensures unusable { ¬ IsUsable mark_siphash24 8 state.now → result ≡ 0 }
{
    hash_so_far::<SipRule<2, 4>, 8>(SIPHASH24, state).unwrap_or(0)
}
