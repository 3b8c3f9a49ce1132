//! How many keys were inserted, as a filter's zeros tell it.
ghost use Rattle.std.specs.Prelude.{ℕ, ◌≡◌, ◌+◌, ◌-◌, ◌*◌, ◌/◌, ◌^◌, ◌<◌, ◌≤◌};
ghost use Rattle.hash_bloom.specs.Estimate.{IsExpected, IsLast, IsNearest, LeavesAtMost, LeavesMore};

/// 64 probes for each of 2^64 bits: less than one zero is expected after them.
const MANY: u128 = 1 << 70;

/// How many zeros are expected after so many probes, on a scale on which all bits are 2^128, rounded down.
#[derive(Clone, Copy)]
struct Expected {
    probes: u128,
    zeros: u128,
}

/// The high half of the product.
fn product_high(one: u128, other: u128) -> u128
    ensures { result ≡ one * other / 2 ^ 128 }
{
    let (high, low) = (one >> 64, one % (1 << 64));
    let (other_high, other_low) = (other >> 64, other % (1 << 64));
    let middle = high * other_low + (low * other_low >> 64);
    let other_middle = low * other_high + middle % (1 << 64);
    high * other_high + (middle >> 64) + (other_middle >> 64)
}

/// What is expected after the probes of both.
fn after_both(one: Expected, other: Expected) -> Expected
    requires { one.probes + other.probes < 2 ^ 128 }
    ensures probes { result.probes ≡ one.probes + other.probes }
    ensures expected { (bits : ℕ) → IsExpected bits one.probes one.zeros
        → IsExpected bits other.probes other.zeros
        → IsExpected bits result.probes result.zeros }
{
    Expected {
        probes: one.probes + other.probes,
        zeros: product_high(one.zeros, other.zeros),
    }
}

/// The most probes after which more zeros are expected than the limit, in multiples of those of `one`.
fn last_above(one: Expected, limit: u128) -> Expected
    requires above { limit < one.zeros }
    requires some { 1 ≤ one.probes }
    requires few { one.probes ≤ 2 ^ 70 }
    ensures above { limit < result.zeros }
    ensures few { result.probes + one.probes ≤ 2 ^ 71 }
    ensures last { (bits : ℕ) → IsExpected bits one.probes one.zeros
        → IsLast bits limit one.probes result.probes result.zeros }
{
    let two = after_both(one, one);
    if two.probes > MANY || two.zeros <= limit {
        return one;
    }
    let even = last_above(two, limit);
    let odd = after_both(even, one);
    if odd.zeros > limit { odd } else { even }
}

/// The fewest probes after which no more zeros are expected than these, or one fewer.
fn fewest_probes(bits: u64, zeros: u64) -> u128
    requires some { 1 ≤ zeros }
    requires fewer { zeros < bits }
    ensures some { 1 ≤ result }
    ensures few { result ≤ 2 ^ 71 }
    ensures more { LeavesMore bits zeros (result - 1) }
    ensures at_most { bits ^ 3 ≤ 2 ^ 120 * zeros → LeavesAtMost bits zeros (result + 1) }
{
    let bit = u128::MAX / u128::from(bits) + 1;
    let limit = u128::from(zeros) * bit;
    let one = Expected {
        probes: 1,
        zeros: u128::MAX - bit + 1,
    };
    if one.zeros <= limit {
        return 1;
    }
    last_above(one, limit).probes + 1
}

/// The fewest probes after which no more zeros are expected, to the nearest number of keys.
pub fn nearest_keys(bits: u64, probes: u32, zeros: u64) -> u64
    requires probes { 1 ≤ probes }
    requires some { 1 ≤ zeros }
    requires upto { zeros ≤ bits }
    ensures { IsNearest bits probes zeros result }
{
    if zeros == bits {
        return 0;
    }
    let fewest = fewest_probes(bits, zeros);
    let probes = u128::from(probes);
    ((fewest + probes / 2) / probes).min(u128::from(u64::MAX)) as u64
}
