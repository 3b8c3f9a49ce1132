//! Tests on two texts that differ within a few adjacent places: where one returns true, the hashes of the texts differ.
//! None of them computes a hash.
ghost use Rattle.std.specs.Prelude.{◌≡◌, ◌≢◌, ◌↔◌};
ghost use Rattle.hashers.specs.Common.{ℕ, List, IsTrue, length, sdbm_from, IsText, fnv1a32_of, fnv1a64_of, djb2_of};
ghost use Rattle.std.specs.Bool.{OnTrue};
ghost use Rattle.hash_laws.specs.DifferWithin.{DifferWithin};
ghost use Rattle.hashers.specs.ShortWords.{IsShortWord};

use hash_bytes::oz;
use hash_laws::windows::window::is_window;

// In how many neighbouring places two texts may differ.
const DJB2_PLACES: usize = 6;

const SDBM_PLACES: usize = 3;

const FNV64_PLACES: usize = 3;

const FNV32_PLACES: usize = 2;

/// Whether the texts have one length and differ, but only within six adjacent places, and everywhere only in the low
/// five bits of a byte. Their `djb2` hashes then differ.
pub fn apart_djb2(x: &[u8], y: &[u8]) -> bool
    ensures exactly { IsTrue result ↔ DifferWithin 6 0xE0 x.now y.now }
    ensures differ { OnTrue result (djb2_of x.now ≢ djb2_of y.now) }
{
    is_window(x, y, DJB2_PLACES, 0xE0)
}

/// Whether the texts have one length and differ, but only within three adjacent places. Their `sdbm` hashes then
/// differ.
pub fn apart_sdbm(x: &[u8], y: &[u8]) -> bool
    ensures exactly { IsTrue result ↔ DifferWithin 3 0 x.now y.now }
    ensures differ { OnTrue result (sdbm_from 0 x.now ≢ sdbm_from 0 y.now) }
{
    is_window(x, y, SDBM_PLACES, 0)
}

/// Whether the texts have one length and differ, but only within three adjacent places. Their `fnv1a64` hashes then
/// differ.
pub fn apart_fnv64(x: &[u8], y: &[u8]) -> bool
    ensures exactly { IsTrue result ↔ DifferWithin 3 0 x.now y.now }
    ensures differ { OnTrue result (fnv1a64_of x.now ≢ fnv1a64_of y.now) }
{
    is_window(x, y, FNV64_PLACES, 0)
}

/// Whether the texts have one length and differ, but only within two adjacent places. Their `fnv1a32` hashes then
/// differ.
pub fn apart_fnv32(x: &[u8], y: &[u8]) -> bool
    ensures exactly { IsTrue result ↔ DifferWithin 2 0 x.now y.now }
    ensures differ { OnTrue result (fnv1a32_of x.now ≢ fnv1a32_of y.now) }
{
    is_window(x, y, FNV32_PLACES, 0)
}

/// Whether two words of a to z of one length, of at most six letters, are the same: by their `djb2` hashes alone, which
/// never collide there.
pub fn same_word(x: &[u8], y: &[u8]) -> bool
    requires same_length { length x.now ≡ length y.now }
    requires first { IsShortWord x.now }
    requires second { IsShortWord y.now }
    ensures { IsTrue result ↔ (x.now ≡ y.now) }
{
    oz::djb2(x) == oz::djb2(y)
}

/// The windows as laws, with no code: where two texts have one length and differ, but only within so many adjacent places
/// and in bits outside the mask, the named hashes differ.
#[tactic(auto, using(crate::proofs::Collisions::djb2_apart, crate::proofs::Collisions::sdbm_apart, crate::proofs::Collisions::fnv1a32_apart, crate::proofs::Collisions::fnv1a64_apart))]
pub fn windows_tell_apart()
    ensures djb2 { (x y : List ℕ) → IsText x → IsText y → DifferWithin 6 0xE0 x y
        → djb2_of x ≢ djb2_of y }
    ensures sdbm { (x y : List ℕ) → IsText x → IsText y → DifferWithin 3 0 x y
        → sdbm_from 0 x ≢ sdbm_from 0 y }
    ensures fnv64 { (x y : List ℕ) → IsText x → IsText y → DifferWithin 3 0 x y
        → fnv1a64_of x ≢ fnv1a64_of y }
    ensures fnv32 { (x y : List ℕ) → IsText x → IsText y → DifferWithin 2 0 x y
        → fnv1a32_of x ≢ fnv1a32_of y }
{}
