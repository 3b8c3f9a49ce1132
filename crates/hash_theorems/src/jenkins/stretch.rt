//! The stretch of a text below 192 bytes that leads SpookyHash to the words that are wanted.
ghost use Rattle.std.specs.Prelude.{◌≡◌, ◌<◌, ◌+◌, ◌*◌, ◌%◌, ◌^◌, ℕ, List, ◌++◌, length, slice_index};
ghost use Rattle.hash_laws.specs.Exactly.{ExactlyTexts};
ghost use Rattle.hash_laws.specs.Text.{IsText};
ghost use Rattle.hash_rounds.specs.Spooky.{short_end};
ghost use Rattle.hash_words.specs.Words.{add_at};
ghost use Rattle.hash_jenkins.specs.Spooky.{add_chunk, chunks_from, short_words, spooky};
ghost use Rattle.hash_theorems.specs.Stretch.{missing, stretch_of};

use hash_jenkins::spooky_short::{LONG, add_chunks, zero_filled};
use hash_rounds::{le_words, put, put_array, un_short_end, un_short_mix};

// Takes a chunk's words out again.
fn un_add_chunk(h: &mut [u64; 4], w: &[u64; 4])
    ensures { add_chunk h.new w.now ≡ h.old }
{
    h[0] = h[0].wrapping_sub(w[2]);
    h[1] = h[1].wrapping_sub(w[3]);
    un_short_mix(h);
    h[2] = h[2].wrapping_sub(w[0]);
    h[3] = h[3].wrapping_sub(w[1]);
}

// Takes the last mix and the length back, which are the end of a text of so many bytes.
fn un_end(h: &mut [u64; 4], len: usize)
    requires { len < 192 }
    ensures { short_end (add_at h.new 3 (len * 2 ^ 56)) ≡ h.old }
{
    un_short_end(h);
    h[3] = h[3].wrapping_sub((len as u64) << 56);
}

// Takes the chunks of a text out again, from the last to the first.
#[tactic(auto, unfolding(hash_jenkins::specs::Spooky::chunks_from, hash_words::specs::Pieces::pieces))]
fn un_add_chunks(h: &mut [u64; 4], text: &[u8])
    ensures { chunks_from h.new text.now ≡ h.old }
{
    let (chunks, _) = text.as_chunks::<32>();
    for chunk in chunks.iter().rev() {
        un_add_chunk(h, &le_words(chunk));
    }
}

// The bytes of what is missing from four words to four others.
fn missing(from: &[u64; 4], to: &[u64; 4]) -> [u8; 32]
    ensures bytes { result ≡ stretch_of (missing from.now to.now) }
    ensures words { (i : ℕ) → slice_index to.now i < 2 ^ 64 }
{
    let mut stretch = [0; 32];
    put_array(&mut stretch, 0, to[0].wrapping_sub(from[0]).to_le_bytes());
    put_array(&mut stretch, 8, to[1].wrapping_sub(from[1]).to_le_bytes());
    put_array(&mut stretch, 16, to[2].wrapping_sub(from[2]).to_le_bytes());
    put_array(&mut stretch, 24, to[3].wrapping_sub(from[3]).to_le_bytes());
    stretch
}

/// The one stretch of 32 bytes between a front and a back that leads SpookyHash, under two seeds, to four words, of
/// which the first two are the hash. It is what is added between two mixes: the front has 16, 48, 80, 112 or 144
/// bytes, and the whole has less than 192.
///
/// From the words the last mix, the length and the chunks after it are undone, up to the stretch. What is then
/// missing is the stretch.
pub fn stretch_for(seed1: u64, seed2: u64, front: &[u8], back: &[u8], words: [u64; 4]) -> [u8; 32]
    requires place { length front.now % 32 ≡ 16 }
    requires few { length front.now + length back.now < 160 }
    ensures leads { short_words seed1 seed2 (front.now ++ (result ++ back.now)) ≡ words }
    ensures alone { (stretch : List ℕ) → IsText stretch → length stretch ≡ 32
        → short_words seed1 seed2 (front.now ++ (stretch ++ back.now)) ≡ words → stretch ≡ result }
{
    let at = front.len();
    let before: [u8; LONG] = zero_filled(front);
    let from = add_chunks(seed1, seed2, &before[..at + 16]);
    let mut behind = [0; LONG];
    put(&mut behind, 16, back);
    let mut to = words;
    un_end(&mut to, at + 32 + back.len());
    un_add_chunks(&mut to, &behind[..176 - at]);
    missing(&from, &to)
}

/// SpookyHash below 192 bytes favours no hash, a law with no code: between a front and a back, as [`stretch_for`]
/// takes them, each hash of 128 bits has exactly 2^128 stretches, under any seeds. Of the first 16 bytes, and of a
/// block from 192 bytes on, it says nothing.
pub fn short_spooky_is_even()
    ensures { (seed1 seed2 : ℕ) (front back : List ℕ) (hash : ℕ × ℕ) → seed1 < 2 ^ 64 → seed2 < 2 ^ 64
        → IsText front → IsText back → length front % 32 ≡ 16 → length front + length back < 160
        → hash.0 < 2 ^ 64 → hash.1 < 2 ^ 64
        → ExactlyTexts (2 ^ 128) 32 (λ stretch. spooky seed1 seed2 (front ++ (stretch ++ back)) ≡ hash) }
{}
