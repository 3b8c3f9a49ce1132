//! Texts that end in more zeros than others, under SpookyHash.
ghost use Rattle.std.specs.Prelude.{◌≡◌, ◌↔◌, ◌≤◌, IsTrue, length};
ghost use Rattle.std.specs.Bool.{OnTrue};
ghost use Rattle.hash_jenkins.specs.Filled.{zero_filled};
ghost use Rattle.hash_jenkins.specs.Zeros.{AddsZeros, HaveOtherWords};

use crate::spooky_short::{LONG, zero_filled};

// Whether `y` is `x` followed by zeros.
fn is_filled(x: &[u8], y: &[u8]) -> bool
    requires longer { length x.now ≤ length y.now }
    requires within { length y.now ≤ 192 }
    ensures { IsTrue result ↔ (y.now ≡ zero_filled (length y.now) x.now) }
{
    let filled: [u8; LONG] = zero_filled(x);
    y == &filled[..y.len()]
}

/// Whether `y` is `x` followed by at least one zero byte, and has fewer than 192 bytes. If so, the four `short_words`
/// of the two texts differ under all seeds; of the two words of the hash alone nothing is said. Computes no hash.
pub fn apart_by_zeros(x: &[u8], y: &[u8]) -> bool
    ensures exactly { IsTrue result ↔ AddsZeros x.now y.now }
    ensures differ { OnTrue result (HaveOtherWords x.now y.now) }
{
    if y.len() <= x.len() || y.len() >= LONG {
        return false;
    }
    is_filled(x, y)
}
