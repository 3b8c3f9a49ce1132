//! Tests on two texts that differ within a few adjacent places, or bits: where one returns true, the CRCs of the texts
//! differ. None of them computes a CRC.
ghost use Rattle.std.specs.Prelude.{◌≢◌, ◌≡◌, ◌<◌, ◌↔◌, length, slice_index, IsTrue};
ghost use Rattle.std.specs.Bool.{OnTrue};
ghost use Rattle.hash_laws.specs.DifferWithin.{DifferWithin};
ghost use Rattle.hash_theorems.specs.Bursts.{DifferWithinBits};
ghost use Rattle.hash_more.specs.Crc32.{crc32_of, crc32c_of};

use hash_laws::windows::window::{first_difference, is_window};

// In how many neighbouring places two texts may differ.
const PLACES: usize = 4;

/// Whether the texts have one length and differ, but only within four adjacent places. Their `crc32` then differs.
pub fn apart_crc32(x: &[u8], y: &[u8]) -> bool
    ensures exactly { IsTrue result ↔ DifferWithin 4 0 x.now y.now }
    ensures differ { OnTrue result (crc32_of x.now ≢ crc32_of y.now) }
{
    is_window(x, y, PLACES, 0)
}

/// Whether the texts have one length and differ, but only within four adjacent places. Their `crc32c` then differs.
pub fn apart_crc32c(x: &[u8], y: &[u8]) -> bool
    ensures exactly { IsTrue result ↔ DifferWithin 4 0 x.now y.now }
    ensures differ { OnTrue result (crc32c_of x.now ≢ crc32c_of y.now) }
{
    is_window(x, y, PLACES, 0)
}

/// The same of two texts of one length whose first bytes differ.
fn is_burst_from_the_first(x: &[u8], y: &[u8]) -> bool
    requires same_length { length x.now ≡ length y.now }
    requires some { 0 < length x.now }
    requires differ { slice_index x.now 0 ≢ slice_index y.now 0 }
    ensures { IsTrue result ↔ DifferWithinBits 32 x.now y.now }
{
    if x.len() <= 4 {
        return true;
    }
    // a fifth byte may differ in the bits below the lowest one in which the first does
    let lowest = (x[0] ^ y[0]).trailing_zeros();
    (x[4] ^ y[4]) >> lowest == 0 && x[5..] == y[5..]
}

/// Whether the texts have one length and differ, but only within 32 adjacent bits, which may lie in five bytes. The low
/// bit of a byte comes first.
fn is_burst(x: &[u8], y: &[u8]) -> bool
    ensures { IsTrue result ↔ DifferWithinBits 32 x.now y.now }
{
    if x.len() != y.len() {
        return false;
    }
    match first_difference(x, y) {
        None => false,
        Some(first) => is_burst_from_the_first(&x[first..], &y[first..]),
    }
}

/// Whether the texts have one length and differ, but only within 32 adjacent bits, which may lie in five bytes; the low
/// bit of a byte comes first. Their `crc32` then differs: it sees every burst of errors of up to 32 bits.
pub fn apart_crc32_bits(x: &[u8], y: &[u8]) -> bool
    ensures exactly { IsTrue result ↔ DifferWithinBits 32 x.now y.now }
    ensures differ { OnTrue result (crc32_of x.now ≢ crc32_of y.now) }
{
    is_burst(x, y)
}

/// Whether the texts have one length and differ, but only within 32 adjacent bits, as [`apart_crc32_bits`] has it.
/// Their `crc32c` then differs.
pub fn apart_crc32c_bits(x: &[u8], y: &[u8]) -> bool
    ensures exactly { IsTrue result ↔ DifferWithinBits 32 x.now y.now }
    ensures differ { OnTrue result (crc32c_of x.now ≢ crc32c_of y.now) }
{
    is_burst(x, y)
}
