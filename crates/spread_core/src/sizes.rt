//! Into how many buckets hashes fall.
ghost use Rattle.std.specs.Prelude.{◌≡◌, ◌<◌, ◌≤◌, ◌+◌, ◌^◌};
ghost use Rattle.std.specs.Int.{IsNextPowerOfTwo};
ghost use Rattle.std.specs.Option.{ForSome};

/// Into how many buckets hashes fall: one number, or two. None is 0.
#[derive(Clone, Copy)]
pub struct Sizes {
    /// The first number.
    pub first: u64,
    /// The second, if there is one.
    pub second: Option<u64>,
    ghost has_first: { 0 < first },
    ghost has_second: { ForSome second (λ buckets. 0 < buckets) },
}

/// The power of two at or above a number of keys.
fn power_of(keys: u64) -> u64
    ensures some { 0 < result }
    ensures power { 0 < keys → keys ≤ 2 ^ 63 → IsNextPowerOfTwo keys result }
{
    match keys.checked_next_power_of_two() {
        Some(power) if power > 0 => power,
        _ => 1 << 63,
    }
}

/// The next odd number above a power of two; above 1 it is 3, since 2 is a power of two.
fn odd_above(power: u64) -> u64
    ensures some { 0 < result }
    ensures next { 1 < power → power < u64.MAX → result ≡ power + 1 }
    ensures three { power ≤ 1 → result ≡ 3 }
{
    if power > 1 && power < u64::MAX {
        power + 1
    } else {
        3
    }
}

/// Into how many buckets so many keys fall: the power of two at or above their number and the next odd number above that, or what is
/// asked for.
pub fn sizes_of(keys: u64, buckets: Option<u64>) -> Sizes
    ensures asked { ForSome buckets (λ asked. 0 < asked → (result.first ≡ asked) × (result.second ≡ None)) }
    ensures power { buckets ≡ None → 0 < keys → keys ≤ 2 ^ 63 → IsNextPowerOfTwo keys result.first }
    ensures odd { buckets ≡ None → 1 < result.first → result.first < u64.MAX
        → result.second ≡ Some (result.first + 1) }
    ensures one { buckets ≡ None → keys ≡ 1 → (result.first ≡ 1) × (result.second ≡ Some 3) }
{
    match buckets {
        Some(buckets) => Sizes {
            first: buckets.max(1),
            second: None,
        },
        None => {
            let first = power_of(keys);
            Sizes {
                first,
                second: Some(odd_above(first)),
            }
        }
    }
}
