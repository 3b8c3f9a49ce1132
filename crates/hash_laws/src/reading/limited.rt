//! The hash of all that a reader gives, if that is less than a limit.
ghost use Rattle.std.specs.Prelude.{◌<◌, ◌≤◌};
ghost use Rattle.hash_laws.specs.Limited.{Feeds, Hashes, read};

use crate::reading::reader::{Fault, hash_reader};
use crate::traits::{Piecewise, Streamed};
use std::io::Read;

/// Why there is no hash of what is read.
#[derive(Debug, Drop)]
pub enum Unhashed {
    /// A read failed.
    ReadFault(Fault),
    /// As many bytes were read as the limit allows, and no end was seen.
    TooLong,
}

/// A default hasher that was fed all that is to be read in pieces of `N` bytes, if that is less than `limit` bytes.
pub fn fed<H: Piecewise, R: Read, const N: usize>(limit: u64, r: &mut R) -> Result<H, Unhashed>
    requires not_empty { 0 < N }
    requires small { N ≤ 65536 }
    ensures { Feeds N H.after H.fresh H.state (read limit R.remaining r.old r.new) result }
{
    let mut hasher = H::fresh();
    match hash_reader::<H, R, N>(&mut hasher, r, limit) {
        Err(fault) => Err(Unhashed::ReadFault(fault)),
        Ok(taken) => {
            if taken.ended {
                Ok(hasher)
            } else {
                Err(Unhashed::TooLong)
            }
        }
    }
}

/// The hash of what is read, as of one text.
pub fn hash_of_text<H: Streamed, R: Read, const N: usize>(
    limit: u64,
    r: &mut R,
) -> Result<u64, Unhashed>
    requires not_empty { 0 < N }
    requires small { N ≤ 65536 }
    ensures { Hashes H.hash_of (read limit R.remaining r.old r.new) result }
{
    let hasher = fed::<H, R, N>(limit, r)?;
    Ok(hasher.answer())
}
