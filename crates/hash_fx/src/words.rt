//! Words in and out of a state.
ghost use Rattle.std.specs.Prelude.{◌≡◌, fold, map};
ghost use Rattle.hash_words.specs.Words.{le};
ghost use Rattle.hash_laws.specs.Recurrence.{recurrence};
ghost use Rattle.hash_fx.specs.Fx.{fx64_step, words32};

use crate::word::FxWord;
use hash_words::le64;

/// A word for each byte in.
#[inline(always)]
fn bytes_in<W: FxWord>(state: W, bytes: &[u8]) -> W
    ensures { W.number result ≡ fold W.step (W.number state) bytes.now }
{
    let mut h = state;
    for byte in bytes {
        h = h.word_in(W::byte(*byte));
    }
    h
}

/// A word for each byte out again, from the last to the first.
#[inline(always)]
fn bytes_out<W: FxWord>(state: W, bytes: &[u8]) -> W
    ensures { fold W.step (W.number result) bytes.now ≡ W.number state }
{
    let mut h = state.known();
    for byte in bytes.iter().rev() {
        h = h.word_out(W::byte(*byte));
    }
    h
}

/// A word for each four bytes in.
#[inline(always)]
fn fours_in<W: FxWord>(state: W, fours: &[[u8; 4]]) -> W
    ensures { W.number result ≡ fold W.step (W.number state) (map le fours.now) }
{
    let mut h = state;
    for four in fours {
        h = h.word_in(W::four(four));
    }
    h
}

/// A word for each four bytes out again, from the last to the first.
#[inline(always)]
fn fours_out<W: FxWord>(state: W, fours: &[[u8; 4]]) -> W
    ensures { fold W.step (W.number result) (map le fours.now) ≡ W.number state }
{
    let mut h = state.known();
    for four in fours.iter().rev() {
        h = h.word_out(W::four(four));
    }
    h
}

/// The words of a piece by 32 bits in.
#[inline(always)]
pub fn fours_and_bytes_in<W: FxWord>(state: W, piece: &[u8]) -> W
    ensures { W.number result ≡ recurrence W.step (W.number state) (words32 piece.now) }
{
    let (fours, bytes) = piece.as_chunks::<4>();
    bytes_in(fours_in(state, fours), bytes)
}

/// The words of a piece by 32 bits out again, from the last to the first.
#[inline(always)]
pub fn fours_and_bytes_out<W: FxWord>(state: W, piece: &[u8]) -> W
    ensures { recurrence W.step (W.number result) (words32 piece.now) ≡ W.number state }
{
    let (fours, bytes) = piece.as_chunks::<4>();
    fours_out(bytes_out(state, bytes), fours)
}

/// A word for each eight bytes in.
#[inline(always)]
pub fn eights_in(state: u64, eights: &[[u8; 8]]) -> u64
    ensures { result ≡ fold fx64_step state (map le eights.now) }
{
    let mut h = state;
    for eight in eights {
        h = h.word_in(le64(eight));
    }
    h
}

/// A word for each eight bytes out again, from the last to the first.
#[inline(always)]
pub fn eights_out(state: u64, eights: &[[u8; 8]]) -> u64
    ensures { fold fx64_step result (map le eights.now) ≡ state }
{
    let mut h = state;
    for eight in eights.iter().rev() {
        h = h.word_out(le64(eight));
    }
    h
}
