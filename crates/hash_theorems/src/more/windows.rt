//! Tests on two texts that differ within a few adjacent places, or bits: where one returns true, the hashes of the texts
//! differ. None of them computes a hash.
ghost use Rattle.std.specs.Prelude.{◌≡◌, ◌≢◌, ◌<◌, ◌↔◌, ℕ, List, length, slice_index, IsTrue, IfNone, IfSome};
ghost use Rattle.std.specs.Bool.{OnTrue};
ghost use Rattle.hash_laws.specs.Text.{IsText};
ghost use Rattle.hash_laws.specs.DifferWithin.{DifferWithin};
ghost use Rattle.hash_bytes.specs.Fnv.{fnv1a32_basis, fnv1a64_basis};
ghost use Rattle.hash_theorems.specs.Bursts.{DifferWithinBits};
ghost use Rattle.hash_more.specs.Crc32.{crc32_of, crc32c_of};
ghost use Rattle.hash_more.specs.Djb2Add.{djb2_add_from};
ghost use Rattle.hash_more.specs.Fnv1.{fnv1_32_from, fnv1_64_from};

pub use crate::more::bursts::{apart_crc32, apart_crc32_bits, apart_crc32c, apart_crc32c_bits};
use hash_laws::windows::window::is_window;

// In how many neighbouring places two texts may differ.
const DJB2_ADD_PLACES: usize = 6;

const FNV1_64_PLACES: usize = 3;

const FNV1_32_PLACES: usize = 2;

/// Whether the texts have one length and differ, but only within six adjacent places, and everywhere only in the low
/// five bits of a byte. Their `djb2_add` hashes then differ.
pub fn apart_djb2_add(x: &[u8], y: &[u8]) -> bool
    ensures exactly { IsTrue result ↔ DifferWithin 6 0xE0 x.now y.now }
    ensures differ { OnTrue result (djb2_add_from 5381 x.now ≢ djb2_add_from 5381 y.now) }
{
    is_window(x, y, DJB2_ADD_PLACES, 0xE0)
}

/// Whether the texts have one length and differ, but only within three adjacent places. Their `fnv1_64` hashes then
/// differ.
pub fn apart_fnv1_64(x: &[u8], y: &[u8]) -> bool
    ensures exactly { IsTrue result ↔ DifferWithin 3 0 x.now y.now }
    ensures differ { OnTrue result (fnv1_64_from fnv1a64_basis x.now ≢ fnv1_64_from fnv1a64_basis y.now) }
{
    is_window(x, y, FNV1_64_PLACES, 0)
}

/// Whether the texts have one length and differ, but only within two adjacent places. Their `fnv1_32` hashes then
/// differ.
pub fn apart_fnv1_32(x: &[u8], y: &[u8]) -> bool
    ensures exactly { IsTrue result ↔ DifferWithin 2 0 x.now y.now }
    ensures differ { OnTrue result (fnv1_32_from fnv1a32_basis x.now ≢ fnv1_32_from fnv1a32_basis y.now) }
{
    is_window(x, y, FNV1_32_PLACES, 0)
}

/// The windows as laws, with no code: where two texts have one length and differ, but only within so many adjacent
/// places and in bits outside the mask, the named hashes differ. Of CRCs so do those of texts that differ within 32
/// adjacent bits, which may lie in five bytes: no burst of errors of up to 32 bits passes.
pub fn windows_tell_apart()
    ensures crc32 { (x y : List ℕ) → IsText x → IsText y → DifferWithin 4 0 x y
        → crc32_of x ≢ crc32_of y }
    ensures crc32c { (x y : List ℕ) → IsText x → IsText y → DifferWithin 4 0 x y
        → crc32c_of x ≢ crc32c_of y }
    ensures crc32_bits { (x y : List ℕ) → IsText x → IsText y → DifferWithinBits 32 x y
        → crc32_of x ≢ crc32_of y }
    ensures crc32c_bits { (x y : List ℕ) → IsText x → IsText y → DifferWithinBits 32 x y
        → crc32c_of x ≢ crc32c_of y }
    ensures djb2_add { (x y : List ℕ) → IsText x → IsText y → DifferWithin 6 0xE0 x y
        → djb2_add_from 5381 x ≢ djb2_add_from 5381 y }
    ensures fnv1_64 { (x y : List ℕ) → IsText x → IsText y → DifferWithin 3 0 x y
        → fnv1_64_from fnv1a64_basis x ≢ fnv1_64_from fnv1a64_basis y }
    ensures fnv1_32 { (x y : List ℕ) → IsText x → IsText y → DifferWithin 2 0 x y
        → fnv1_32_from fnv1a32_basis x ≢ fnv1_32_from fnv1a32_basis y }
{}
