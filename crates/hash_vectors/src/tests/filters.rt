//! Filters: values of other programs, and where memory is refused.
ghost use Rattle.std.specs.Prelude.{◌≤◌};
ghost use Rattle.hash_bloom.specs.Filter.{HasShape};

use crate::tests::same;
use hash_bloom::Bloom;
use hashers::jenkins::Lookup3Hasher;
use hashers::jenkins::spooky_hash::SpookyHasher;
use std::alloc::Global;
use std::process::Abort;

/// The filters of these tests.
pub(super) type Sample = Bloom<SpookyHasher, Lookup3Hasher>;

/// The filter of no keys. Where memory is refused once it asks again.
fn made(rt: &impl Abort, alloc: Global, bits: u64, probes: u32) -> Sample
    requires bits { 1 ≤ bits }
    requires probes { 1 ≤ probes }
    ensures { HasShape bits probes result }
{
    for _ in 0..2 {
        if let Ok(filter) = Bloom::new(alloc, bits, probes) {
            return filter;
        }
    }
    panic!(rt; "no memory for the filter")
}

/// The words that a program in another language made of the keys ``, `a` and `abc`. Where memory is refused there is no filter, and the next
/// call makes one.
#[test]
fn refused_for_a_filter(rt: HostRuntime) {
    let mut filter = made(&rt, rt.alloc(), 100, 5);
    let mut other = made(&rt, rt.alloc(), 128, 5);
    for key in [b"".as_slice(), b"a", b"abc"] {
        filter.insert(key);
        other.insert(key);
    }
    same(&rt, filter.words(), &[0x100000801001384d, 0x400420]);
    same(&rt, other.words(), &[0x109000010104c00, 0x8000040004003002]);
}
