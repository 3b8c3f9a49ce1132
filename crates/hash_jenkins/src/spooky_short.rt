//! The four words of a text below 192 bytes.
ghost use Rattle.std.specs.Prelude.{◌≡◌, ◌<◌, ◌≤◌, ◌*◌, ◌^◌};
ghost use Rattle.hash_jenkins.specs.Common.{length, take, zero_filled, add_chunk, add_chunks, short_words, short_words_v1};

use hash_rounds::{le_words, put, short_end, short_mix};

/// The length from which a text is hashed block by block.
pub const LONG: usize = 192;

/// The words that a seed does not fill.
pub(crate) const FILL: u64 = 0xdeadbeefdeadbeef;

fn add_chunk(h: &mut [u64; 4], w: &[u64; 4])
    ensures { h.new ≡ add_chunk h.old w.now }
{
    h[2] = h[2].wrapping_add(w[0]);
    h[3] = h[3].wrapping_add(w[1]);
    short_mix(h);
    h[0] = h[0].wrapping_add(w[2]);
    h[1] = h[1].wrapping_add(w[3]);
}

/// The text and zeros, up to `N` bytes.
#[inline(always)]
pub fn zero_filled<const N: usize>(text: &[u8]) -> [u8; N]
    requires { length text.now ≤ N }
    ensures { result ≡ zero_filled N text.now }
{
    let mut filled = [0; N];
    put(&mut filled, 0, text);
    filled
}

/// The four words of SpookyHash V2 after the whole chunks of 32 bytes of a text, from two seeds.
#[inline(always)]
#[tactic(auto, unfolding(crate::specs::Spooky::chunks_from, hash_words::specs::Pieces::pieces))]
pub fn add_chunks(seed1: u64, seed2: u64, text: &[u8]) -> [u64; 4]
    ensures { result ≡ add_chunks seed1 seed2 text.now }
{
    let (chunks, _) = text.as_chunks::<32>();
    let mut h = [seed1, seed2, FILL, FILL];
    for chunk in chunks {
        add_chunk(&mut h, &le_words(chunk));
    }
    h
}

/// The four words of the first `len` bytes, where the array has zeros alone after them.
pub(crate) fn short_words(seed1: u64, seed2: u64, text: &[u8; 192], len: usize) -> [u64; 4]
    requires { len < 192 }
    ensures { text.now ≡ zero_filled 192 (take len text.now)
        → result ≡ short_words seed1 seed2 (take len text.now) }
{
    let mut h = add_chunks(seed1, seed2, text);
    h[3] = h[3].wrapping_add((len as u64) << 56);
    short_end(&mut h);
    h
}

/// The same by version 1.
pub(crate) fn short_words_v1(seed1: u64, seed2: u64, text: &[u8; 192], len: usize) -> [u64; 4]
    requires { len < 192 }
    ensures { text.now ≡ zero_filled 192 (take len text.now)
        → result ≡ short_words_v1 seed1 seed2 (take len text.now) }
{
    let mut h = add_chunks(seed1, seed2, text);
    short_end(&mut h);
    h
}
