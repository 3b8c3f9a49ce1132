//! What chance would give: hashes of which each number is as likely as any other. All of it is computed in floating point, and none is
//! proved.
use std::num::{nearest_u64_to_f64, saturating_f64_to_u64};

/// What chance gives for so many keys in so many buckets.
#[derive(Clone, Copy, Debug)]
pub struct Chance {
    /// The least count that fewer than half a bucket is expected to reach.
    pub fullest: u64,
    /// How many buckets are expected to be empty.
    pub empty: f64,
    /// Which sum of squares is expected.
    pub squares: f64,
    /// Its standard deviation.
    pub deviation: f64,
}

/// What a float has of a whole number.
pub fn nearest(number: u128) -> f64 {
    let high = (number >> 64) as u64;
    let low = (number & 0xFFFF_FFFF_FFFF_FFFF) as u64;
    nearest_u64_to_f64(high) * 18446744073709551616.0 + nearest_u64_to_f64(low)
}

/// Below this, against the weight of the likeliest count, a weight is left out.
const TINY: f64 = 1.0e-40;

/// How many pairs of so many hashes are expected to be equal: n (n - 1) / 2 over 2^bits.
pub fn equal_pairs(keys: u64, bits: u32) -> f64 {
    let keys = nearest_u64_to_f64(keys);
    let mut pairs = keys * (keys - 1.0) / 2.0;
    for _ in 0..bits {
        pairs /= 2.0;
    }
    pairs
}

/// Whether so many equal pairs lie within three standard deviations of chance, or below.
pub fn is_within(pairs: u128, keys: u64, bits: u32) -> bool {
    let expected = equal_pairs(keys, bits);
    nearest(pairs) <= expected + 3.0 * expected.sqrt()
}

/// The base to that power.
fn power(base: f64, exponent: u64) -> f64 {
    let mut product = 1.0;
    let mut square = base;
    for bit in 0..64u32 {
        if exponent >> bit & 1 == 1 {
            product *= square;
        }
        square *= square;
    }
    product
}

/// The sum of the weights of all counts by Poisson's rule under that mean, against the weight of the likeliest; and the greatest count
/// that has a weight, with it.
fn weights(mean: f64, likeliest: u64) -> (f64, u64, f64) {
    let mut total = 1.0;
    let mut weight = 1.0;
    for below in (0..likeliest).rev() {
        weight *= nearest_u64_to_f64(below.saturating_add(1)) / mean;
        if weight < TINY {
            break;
        }
        total += weight;
    }
    let mut greatest = likeliest;
    weight = 1.0;
    for above in likeliest.saturating_add(1)..u64::MAX {
        let next = weight * mean / nearest_u64_to_f64(above);
        if next < TINY {
            break;
        }
        weight = next;
        total += weight;
        greatest = above;
    }
    (total, greatest, weight)
}

/// The least k with m P(X >= k) below one half, where X goes by Poisson's rule under the mean n / m.
fn fullest(keys: f64, buckets: f64) -> u64 {
    let mean = keys / buckets;
    let (total, greatest, mut weight) = weights(mean, saturating_f64_to_u64(mean));
    let mut tail = 0.0;
    for count in (0..greatest.saturating_add(1)).rev() {
        tail += weight;
        if buckets * tail / total >= 0.5 {
            return count.saturating_add(1);
        }
        weight *= nearest_u64_to_f64(count) / mean;
    }
    1
}

impl Chance {
    /// What chance gives for so many keys in so many buckets, at least one of each: n + n (n - 1) / m for the sum of squares, with
    /// the variance 2 n (n - 1) (m - 1) / m^2, and m (1 - 1 / m)^n empty ones.
    pub fn of(keys: u64, buckets: u64) -> Chance {
        let (n, m) = (nearest_u64_to_f64(keys), nearest_u64_to_f64(buckets));
        Chance {
            fullest: fullest(n, m),
            empty: m * power(1.0 - 1.0 / m, keys),
            squares: n + n * (n - 1.0) / m,
            deviation: (2.0 * n * (n - 1.0) * (m - 1.0)).sqrt() / m,
        }
    }

    /// Whether a sum of squares lies within three standard deviations of the expected one.
    pub fn is_near(&self, squares: u128) -> bool {
        let apart = nearest(squares) - self.squares;
        apart <= 3.0 * self.deviation && apart >= -3.0 * self.deviation
    }
}
