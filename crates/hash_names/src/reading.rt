//! The hash of that name of all that a reader gives.
ghost use Rattle.std.specs.Prelude.{◌<◌, ◌≤◌};
ghost use Rattle.hash_names.specs.Named.{named, HashesNamed};
ghost use Rattle.hash_names.specs.Limited.{Hashes, read};
ghost use Rattle.hash_laws.specs.LimitedLaws.{Hashes-agree};

use crate::table::{by_ported, ported_named};
use crate::task::HashTask;
pub use hash_laws::reading::limited::Unhashed;
use hash_laws::reading::limited::{fed, hash_of_text};
use hash_laws::traits::{Piecewise, Streamed};
use std::io::Read;
use std::marker::PhantomData;

/// How many bytes are read at once, and fed at once to a hasher to which cuts show.
pub const PIECE: usize = 4096;

/// Why there is no hash of that name of what is read.
#[derive(Debug, Drop)]
pub enum NoHash {
    /// No hash has the name. Nothing was read.
    UnknownName,
    /// What is read has no hash.
    Unhashed(Unhashed),
}

/// To hash what a reader gives, if that is less than a limit in bytes.
struct HashRead<R> {
    source: PhantomData<R>,
}

impl<R: Read> HashTask for HashRead<R> {
    type Told = u64;

    type Input = R;

    type Outcome = Result<u64, Unhashed>;

    ghost by = { λ hash of_read limit r s result. Hashes of_read (read limit R.remaining r s) result };

    fn by_text<H: Streamed>(limit: u64, r: &mut R) -> Result<u64, Unhashed> {
        hash_of_text::<H, R, PIECE>(limit, r)
    }

    fn by_pieces<H: Piecewise>(limit: u64, r: &mut R) -> Result<u64, Unhashed> {
        let hasher = fed::<H, R, PIECE>(limit, r)?;
        Ok(hasher.answer())
    }

    ghost by_same = { λ hash of_read same agree limit r s.
        Hashes-agree of_read same agree (read limit R.remaining r s) };
}

/// The hash of that name of all that is read, if that is less than `limit` bytes. lookup3 and fx take pieces of 4096 bytes. An unknown
/// name is refused before anything is read.
pub fn hash_named<R: Read>(name: &str, limit: u64, r: &mut R) -> Result<u64, NoHash>
    ensures { HashesNamed (named name.now) (read limit R.remaining r.old r.new) result }
{
    match ported_named(name.as_bytes()) {
        Some(ported) => match by_ported::<HashRead<R>>(ported, limit, r) {
            Ok(hash) => Ok(hash),
            Err(unhashed) => Err(NoHash::Unhashed(unhashed)),
        },
        None => Err(NoHash::UnknownName),
    }
}
