//! Lists of pieces of fx: where the split does not matter, and where one byte does.
ghost use Rattle.std.specs.Prelude.{◌≡◌, ◌≢◌, ◌↔◌, All, IsTrue, length, map};
ghost use Rattle.std.specs.Bool.{OnTrue};
ghost use Rattle.hash_fx.specs.Fx.{fx32, fx64, words32, words64};
ghost use Rattle.hash_fx.specs.Pieces.{AreWhole, DifferByOneByte, fx32_pieces, fx64_pieces};
ghost use Rattle.hash_laws.specs.Text.{IsText, joined, texts};

use crate::{FxHasher32, FxHasher64, WordHasher};
use hash_laws::windows::window::differ_at_one_place;
use std::hash::Hasher;

/// Writes the pieces in order. The state is that after one write of the joined bytes, since the length of each piece but
/// the last is a multiple of eight, so that no word is split. There may be no pieces at all. It takes either type
/// of 64 bits.
pub fn run_words<Name>(h: &mut WordHasher<u64, Name>, pieces: &[&[u8]])
    requires { AreWhole 8 pieces.now }
    ensures { h.new ≡ fx64 h.old (words64 (joined pieces.now)) }
{
    for piece in pieces {
        h.write(piece);
    }
}

/// The same as `run_words`, on `FxHasher64` alone.
pub fn run_words64(h: &mut FxHasher64, pieces: &[&[u8]])
    requires { AreWhole 8 pieces.now }
    ensures { h.new ≡ fx64 h.old (words64 (joined pieces.now)) }
{
    run_words(h, pieces)
}

/// The same on `FxHasher32`, where the lengths are multiples of four.
pub fn run_words32(h: &mut FxHasher32, pieces: &[&[u8]])
    requires { AreWhole 4 pieces.now }
    ensures { h.new ≡ fx32 h.old (words32 (joined pieces.now)) }
{
    for part in pieces {
        h.write(part);
    }
}

/// Whether two texts have the same length.
fn same_length(x: &[u8], y: &[u8]) -> bool
    ensures exactly { IsTrue result ↔ (length x.now ≡ length y.now) }
    ensures first { IsText x.now }
    ensures second { IsText y.now }
{
    x.len() == y.len()
}

/// Whether there are as many pieces, of the same lengths one by one.
pub fn same_cuts(x: &[&[u8]], y: &[&[u8]]) -> bool
    ensures exactly { IsTrue result ↔ (map length (texts x.now) ≡ map length (texts y.now)) }
    ensures first { OnTrue result (All IsText (texts x.now)) }
    ensures second { OnTrue result (All IsText (texts y.now)) }
{
    if x.len() != y.len() {
        return false;
    }
    for i in 0..x.len() {
        if !same_length(x[i], y[i]) {
            return false;
        }
    }
    true
}

/// Whether the two lists have as many pieces, of the same lengths one by one, and exactly one byte of all differs. Where
/// so, all three types answer differently to the two lists, from their defaults. Computes no hash.
pub fn apart_by_one_fx(x: &[&[u8]], y: &[&[u8]]) -> bool
    ensures exactly { IsTrue result ↔ DifferByOneByte x.now y.now }
    ensures differ_64 { OnTrue result (fx64_pieces 0 (texts x.now) ≢ fx64_pieces 0 (texts y.now)) }
    ensures differ_32 { OnTrue result (fx32_pieces 0 (texts x.now) ≢ fx32_pieces 0 (texts y.now)) }
{
    if !same_cuts(x, y) {
        return false;
    }
    let mut apart = false;
    for i in 0..x.len() {
        if x[i] != y[i] {
            if apart || !differ_at_one_place(x[i], y[i]) {
                return false;
            }
            apart = true;
        }
    }
    apart
}
