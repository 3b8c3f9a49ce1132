//! One changed byte changes the hash of a hasher that goes a step for each byte.
ghost use Rattle.std.specs.Prelude.{◌≡◌, ◌≢◌, ◌↔◌, ℕ, List, IsTrue};
ghost use Rattle.std.specs.Bool.{OnTrue};
ghost use Rattle.hash_laws.specs.Text.{IsText};
ghost use Rattle.hash_laws.specs.DifferWithin.{DifferAtOnePlace};

use crate::traits::ByteStep;
use crate::windows::window::differ_at_one_place;

/// Whether the lengths are equal and exactly one place differs. If so, the default hashes differ. Computes no hash.
pub fn apart_by_one<H: ByteStep>(x: &[u8], y: &[u8]) -> bool
    ensures exactly { IsTrue result ↔ DifferAtOnePlace x.now y.now }
    ensures differ { OnTrue result (H.hash_of x.now ≢ H.hash_of y.now) }
{
    differ_at_one_place(x, y)
}

/// A law with no code: the hashes of two texts that differ at exactly one place differ.
pub fn one_changed_byte_shows<H: ByteStep>()
    ensures { (x y : List ℕ) → IsText x → IsText y → DifferAtOnePlace x y
        → H.hash_of x ≢ H.hash_of y }
{}
