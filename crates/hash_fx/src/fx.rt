//! The three types of fx, and the hash of a whole text by each.
ghost use Rattle.std.specs.Prelude.{◌≡◌, ◌<◌, ◌^◌};
ghost use Rattle.hash_fx.specs.Fx.{fx32, fx64, words32, words64};

use crate::hasher::WordHasher;
use hash_laws::traits::hash_of;

/// fx at 32 bits. From 0, a word `v` takes the state `h` to `(rotl(h, 5) ^ v) * 0x27220a95`, modulo 2^32; this key is the
/// low half of the one at 64 bits. `finish` returns `h`, widened.
///
/// Each write is split into little-endian words by itself: words of four bytes, then single bytes. So the result may
/// depend on the split. Each write can be undone, by `unwrite` or word by word.
///
/// Contracts see the hasher as its state, a number below 2^32: `write` gives `h.new ≡ fx32 h.old (words32 piece.now)`, and
/// `unwrite_word(v)` gives `fx32_step h.new v ≡ h.old`. Of `a` the hash is 3555066485.
pub type FxHasher32 = WordHasher<u32>;

/// fx at 64 bits, which came from Firefox's hash tables to those of rustc (the crate fxhash has its formula and key).
///
/// From 0, a word `v` takes the state `h` to `(rotl(h, 5) ^ v) * 0x517cc1b727220a95`, modulo 2^64; `finish` returns `h`. Each
/// write is split into little-endian words by itself: words of eight bytes, then one of four bytes if at least four are
/// left, then single bytes. So the result may depend on the split. Each write can be undone, by `unwrite` or word by word.
///
/// Contracts see the hasher as its state, a number below 2^64: `write` gives `h.new ≡ fx64 h.old (words64 piece.now)`, and
/// `unwrite_word(v)` gives `fx64_step h.new v ≡ h.old`. Of `a` the hash is 16160435425421689461.
pub type FxHasher64 = WordHasher<u64>;

/// The name of fx at the width of a machine word.
pub struct MachineWord;

/// fx at the width of a machine word, which here is always 64 bits: a type of its own that splits, hashes and answers as
/// [`FxHasher64`] does, with the same contracts. Of `a` the hash is 16160435425421689461.
pub type FxHasher = WordHasher<u64, MachineWord>;

/// The answer of a default `FxHasher32` to the bytes as one write, below 2^32.
#[inline(always)]
pub fn fxhash32(bytes: &[u8]) -> u64
    ensures value { result ≡ fx32 0 (words32 bytes.now) }
    ensures below { result < 2 ^ 32 }
{
    hash_of::<FxHasher32>(bytes)
}

/// The answer of a default `FxHasher64` to the bytes as one write.
#[inline(always)]
pub fn fxhash64(bytes: &[u8]) -> u64
    ensures { result ≡ fx64 0 (words64 bytes.now) }
{
    hash_of::<FxHasher64>(bytes)
}

/// The answer of a default `FxHasher` to the bytes as one write.
#[inline(always)]
pub fn fxhash(bytes: &[u8]) -> u64
    ensures { result ≡ fx64 0 (words64 bytes.now) }
{
    hash_of::<FxHasher>(bytes)
}
