//! How hashes fall into buckets, and how many of them are equal. A hash falls into the bucket that its rest by the number of
//! buckets names.
ghost use Rattle.std.specs.Prelude.{◌≡◌, ◌==◌, ◌<◌, ◌≤◌, ◌-◌, ◌*◌, ◌^◌, All, Contains, IfOk, count_by, length, slice_index, sum, sum_by, take};
ghost use Rattle.std.specs.List.Sorted.{IsNonDecreasing, IsPermutation};
ghost use Rattle.std.specs.Option.{ForSome};
ghost use Rattle.hashers.specs.Counts.{bucket_counts, collisions, times};
ghost use Rattle.spread_core.specs.Counts.{IsCounts, IsSecond, IsSpread};

use crate::sizes::Sizes;
use hashers::laws::{buckets_have_all_hashes, collisions_in_any_order};
use std::alloc::{AllocError, Global};

/// How hashes fall into so many buckets.
#[derive(Clone, Copy, Debug, PartialEq, Eq)]
pub struct Spread {
    /// How many buckets there are.
    pub buckets: u64,
    /// How many hashes the fullest has.
    pub fullest: u64,
    /// How many are empty.
    pub empty: u64,
    /// The sum of the squares of what they have.
    pub squares: u128,
}

/// The numbers of the hashes of keys.
#[derive(Clone, Copy, Debug, PartialEq, Eq)]
pub struct Counts {
    /// How many pairs of hashes are equal.
    pub collisions: u128,
    /// How they fall into the first number of buckets.
    pub first: Spread,
    /// How they fall into the second, if there is one.
    pub second: Option<Spread>,
}

/// How many of the hashes fall into each bucket.
fn bucket_counts(alloc: Global, hashes: &[u64], buckets: u64) -> Result<Vec<u64>, AllocError>
    requires { 0 < buckets }
    ensures { IfOk result (λ counts. counts.items ≡ bucket_counts buckets hashes.now) }
{
    let mut counts = Vec::new(alloc);
    counts.resize(buckets as usize, 0)?;
    for hash in hashes {
        let bucket = (*hash % buckets) as usize;
        counts[bucket] += 1;
    }
    Ok(counts)
}

/// The greatest of the counts; 0 where there is none.
fn fullest(counts: &[u64]) -> u64
    ensures most { All (λ count. count ≤ result) counts.now }
    ensures reached { 0 < length counts.now → Contains counts.now result }
{
    counts.iter().copied().max().unwrap_or(0)
}

/// How many of the counts are 0.
fn empty(counts: &[u64]) -> u64
    ensures { result ≡ count_by (λ count. count == 0) counts.now }
{
    counts.iter().filter(|count| **count == 0).count() as u64
}

/// The sum of the squares of the counts.
fn squares(counts: &[u64]) -> u128
    requires { sum counts.now < 2 ^ 64 }
    ensures { result ≡ sum_by (λ count. count * count) counts.now }
{
    let mut total: u128 = 0;
    for count in counts {
        let wide = u128::from(*count);
        total += wide * wide;
    }
    total
}

/// How the hashes fall into so many buckets. It takes 8 bytes for each bucket, and refuses only where there is no memory for them.
pub fn spread_of(alloc: Global, hashes: &[u64], buckets: u64) -> Result<Spread, AllocError>
    requires { 0 < buckets }
    ensures { IfOk result (IsSpread buckets hashes.now) }
{
    buckets_have_all_hashes();
    let counts = bucket_counts(alloc, hashes, buckets)?;
    Ok(Spread {
        buckets,
        fullest: fullest(&counts),
        empty: empty(&counts),
        squares: squares(&counts),
    })
}

/// How many hashes before that place equal the one there, of hashes in order. It is told the same of the place before.
fn equal_before(hashes: &[u64], place: usize, equal: u64) -> u64
    requires order { IsNonDecreasing hashes.now }
    requires within { place < length hashes.now }
    requires before { 0 < place → equal ≡ times (slice_index hashes.now (place - 1)) (take (place - 1) hashes.now) }
    ensures { result ≡ times (slice_index hashes.now place) (take place hashes.now) }
{
    if place == 0 {
        return 0;
    }
    if hashes[place] == hashes[place - 1] {
        equal + 1
    } else {
        0
    }
}

/// How many pairs of hashes are equal, of hashes in order.
fn collisions_in_order(hashes: &[u64]) -> u128
    requires { IsNonDecreasing hashes.now }
    ensures { result ≡ collisions hashes.now }
{
    let mut total: u128 = 0;
    let mut equal: u64 = 0;
    for i in 0..hashes.len() {
        equal = equal_before(hashes, i, equal);
        total += u128::from(equal);
    }
    total
}

/// How many pairs of hashes are equal. It sorts them: the number does not depend on their order.
pub fn collisions(hashes: &mut [u64]) -> u128
    ensures value { result ≡ collisions hashes.old }
    ensures kept { IsPermutation hashes.old hashes.new }
{
    collisions_in_any_order();
    hashes.sort_unstable();
    collisions_in_order(hashes)
}

/// How the hashes fall into the second number of buckets, if there is one.
fn second_spread(
    alloc: Global,
    hashes: &[u64],
    size: Option<u64>,
) -> Result<Option<Spread>, AllocError>
    requires { ForSome size (λ buckets. 0 < buckets) }
    ensures { IfOk result (IsSecond size hashes.now) }
{
    match size {
        Some(buckets) => {
            let spread = spread_of(alloc, hashes, buckets)?;
            Ok(Some(spread))
        }
        None => Ok(None),
    }
}

/// The numbers of the hashes, which it sorts.
pub fn counts_of(alloc: Global, hashes: &mut [u64], sizes: Sizes) -> Result<Counts, AllocError>
    ensures { IfOk result (IsCounts sizes hashes.old) }
{
    let first = spread_of(alloc, hashes, sizes.first)?;
    let second = second_spread(alloc, hashes, sizes.second)?;
    Ok(Counts {
        collisions: collisions(hashes),
        first,
        second,
    })
}
