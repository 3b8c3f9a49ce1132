//! The line of a named hash of what a reader gives.
ghost use Rattle.std.specs.Prelude.{◌≡◌};
ghost use Rattle.hashof.specs.Running.{Ends, fault_of, run_of};

use crate::line::write_line;
use hash_laws::reading::reader::Fault;
use hash_names::reading::{NoHash, Unhashed, hash_named};
use std::io::{Error, Read, Write};

/// Why no hash was told. The cases are tried in this order.
pub enum RunFault {
    /// No hash has the name. Nothing was read or written.
    UnknownName,
    /// A read failed. Nothing was written.
    ReadFault(Fault),
    /// As many bytes were read as the limit allows, and no end was seen. Nothing was written.
    TooLong,
    /// A write or the flush failed with this error, or a write took nothing. A beginning of the line was written, the whole line where
    /// the flush failed.
    WriteFault(Option<Error>),
}

impl Drop for RunFault {
    fn drop(self) {
        match self {
            RunFault::UnknownName | RunFault::TooLong => {}
            RunFault::ReadFault(_fault) => {}
            RunFault::WriteFault(_error) => {}
        }
    }
}

/// Why there is no hash, as the fault of a run.
fn fault_of(why: NoHash) -> RunFault
    ensures { result ≡ fault_of why }
{
    match why {
        NoHash::UnknownName => RunFault::UnknownName,
        NoHash::Unhashed(Unhashed::ReadFault(fault)) => RunFault::ReadFault(fault),
        NoHash::Unhashed(Unhashed::TooLong) => RunFault::TooLong,
    }
}

/// The bytes from which on an input is too long: 2^40.
pub const LIMIT: u64 = 1 << 40;

/// Tells the hash of that name of what is read, if that is less than `limit` bytes: writes the number in decimal and a
/// newline, and flushes once.
///
/// Input is read through an array of 4096 bytes and no memory is taken. For `lookup3`, whose answer depends on the
/// cuts, it is the hash of pieces of 4096 bytes each; for each other name it is that of the one-call function. Nothing
/// is written before the input has ended. What stands after a refusal is said at each [`RunFault`].
pub fn run_limited<R: Read, W: Write>(
    name: &str,
    limit: u64,
    r: &mut R,
    w: &mut W,
) -> Result<(), RunFault>
    ensures { Ends name.now (run_of limit R.remaining r.old r.new W.contents w.old w.new) result }
{
    match hash_named(name, limit, r) {
        Ok(hash) => write_line(w, hash),
        Err(why) => Err(fault_of(why)),
    }
}

/// `run_limited` of an input of less than 2^40 bytes.
pub fn run<R: Read, W: Write>(name: &str, r: &mut R, w: &mut W) -> Result<(), RunFault>
    ensures { Ends name.now (run_of LIMIT R.remaining r.old r.new W.contents w.old w.new) result }
{
    run_limited(name, LIMIT, r, w)
}
