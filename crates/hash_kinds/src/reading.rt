//! The hash by a kind of all that a reader gives.
ghost use Rattle.std.specs.Prelude.{◌<◌, ◌≤◌};
ghost use Rattle.hash_kinds.specs.Named.{read_of};
ghost use Rattle.hash_laws.specs.Limited.{Hashes, read};
ghost use Rattle.hash_laws.specs.LimitedLaws.{Hashes-agree};

use crate::table::{Kind, by_kind};
use crate::wide::WideHash;
use hash_laws::reading::limited::{fed, hash_of_text};
use hash_laws::traits::{Piecewise, Streamed};
pub use hash_names::reading::{PIECE, Unhashed};
use hash_names::task::HashTask;
use std::io::Read;
use std::marker::PhantomData;

/// How many bytes are read at once.
pub const BUFFER: usize = 65536;

/// The 128 bits of what is read, as one number.
pub fn hash_of_wide<H: WideHash, R: Read, const N: usize>(
    limit: u64,
    r: &mut R,
) -> Result<u128, Unhashed>
    requires not_empty { 0 < N }
    requires small { N ≤ 65536 }
    ensures { Hashes H.wide_of (read limit R.remaining r.old r.new) result }
{
    let hasher = fed::<H, R, N>(limit, r)?;
    Ok(hasher.wide())
}

/// To hash what a reader gives, if that is less than a limit in bytes.
struct HashRead<R> {
    source: PhantomData<R>,
}

impl<R: Read> HashTask for HashRead<R> {
    type Told = u64;

    type Input = R;

    type Outcome = Result<u64, Unhashed>;

    ghost by = { λ hash of_read limit r s result. Hashes of_read (read limit R.remaining r s) result };

    fn by_text<H: Streamed>(limit: u64, r: &mut R) -> Result<u64, Unhashed> {
        hash_of_text::<H, R, BUFFER>(limit, r)
    }

    fn by_pieces<H: Piecewise>(limit: u64, r: &mut R) -> Result<u64, Unhashed> {
        let hasher = fed::<H, R, PIECE>(limit, r)?;
        Ok(hasher.answer())
    }

    ghost by_same = { λ hash of_read same agree limit r s.
        Hashes-agree of_read same agree (read limit R.remaining r s) };
}

/// The hash by that kind of all that is read, if that is less than `limit` bytes. lookup3 and fx take pieces of 4096 bytes.
pub fn hash_by<R: Read>(kind: Kind, limit: u64, r: &mut R) -> Result<u64, Unhashed>
    ensures { Hashes (read_of kind) (read limit R.remaining r.old r.new) result }
{
    by_kind::<HashRead<R>>(kind, limit, r)
}
