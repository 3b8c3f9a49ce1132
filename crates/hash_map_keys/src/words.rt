//! The numbers that few bytes are.
ghost use Rattle.std.specs.Prelude.{◌≡◌, ◌-◌, ◌*◌, ◌^◌, ◌<◌, ◌≤◌, drop, length};
ghost use Rattle.hashers.specs.Words.{le};

use hashers::rounds::{le_four, le64};

/// The number that fewer than four bytes are, the first the lowest.
#[inline(always)]
fn few_of(bytes: &[u8]) -> u64
    requires { length bytes.now < 4 }
    ensures value { result ≡ le bytes.now }
    ensures small { result < 2 ^ (8 * length bytes.now) }
{
    match bytes {
        [] => 0,
        [a] => u64::from(*a),
        [a, b] => u64::from(u16::from_le_bytes([*a, *b])),
        [a, b, c, ..] => u64::from(u32::from_le_bytes([*a, *b, *c, 0])),
    }
}

/// The number that at most eight bytes are: the first four, and what the last four have after them.
#[inline(always)]
pub(crate) fn number_of(bytes: &[u8]) -> u64
    requires { length bytes.now ≤ 8 }
    ensures value { result ≡ le bytes.now }
    ensures small { result < 2 ^ (8 * length bytes.now) }
{
    match (bytes.first_chunk::<4>(), bytes.last_chunk::<4>()) {
        (Some(first), Some(last)) => {
            let behind = u64::from(le_four(last)) >> (64 - 8 * bytes.len() as u32);
            u64::from(le_four(first)) + (behind << 32)
        }
        _ => few_of(bytes),
    }
}

/// The number that the last bytes are, so many of eight or more.
#[inline(always)]
pub(crate) fn number_of_last(bytes: &[u8], count: usize) -> u64
    requires long { 8 ≤ length bytes.now }
    requires some { 1 ≤ count }
    requires few { count ≤ 8 }
    ensures { result ≡ le (drop (length bytes.now - count) bytes.now) }
{
    match bytes.last_chunk::<8>() {
        None => 0,
        Some(last) => le64(last) >> (64 - 8 * count as u32),
    }
}
