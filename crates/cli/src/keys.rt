//! Key files: two keys in 16 bytes.
ghost use Rattle.std.specs.Prelude.{IfOk, IfSome};
ghost use Rattle.cli.specs.Keys.{HasKeys, IsKeyRead, IsKeyText};

use crate::folder::Folder;
use std::io;
use std::io::{Error, ErrorKind, Read};

/// Why a file has no keys that has more or fewer bytes.
fn not_sixteen() -> Error {
    Error::new(ErrorKind::InvalidData, "a key file must have 16 bytes")
}

/// Reads one key.
fn read_key<R: Read>(r: &mut R) -> io::Result<u64>
    ensures { IfOk result (IsKeyRead (R.remaining r.old) (R.remaining r.new)) }
{
    let mut bytes = [0; 8];
    match r.read_exact(&mut bytes) {
        Ok(()) => Ok(u64::from_le_bytes(bytes)),
        Err(error) => match error.kind() {
            ErrorKind::UnexpectedEof => Err(not_sixteen()),
            _ => Err(error),
        },
    }
}

/// The keys in what a reader gives.
fn read_keys<R: Read>(r: &mut R) -> io::Result<(u64, u64)>
    ensures { IfOk result (IsKeyText (R.remaining r.old)) }
{
    let first = read_key(r)?;
    let second = read_key(r)?;
    match r.read(&mut [0; 1]) {
        Ok(0) => Ok((first, second)),
        Ok(_) => Err(not_sixteen()),
        Err(error) => Err(error),
    }
}

/// The keys in the file of that name: it has 16 bytes, the lowest byte of each key first. `None` if it has not, or cannot
/// be read.
pub fn keys_of<R: Read + Drop, F: Folder<R>>(folder: &F, name: &[u8]) -> Option<(u64, u64)>
    ensures { IfSome result (HasKeys (F.opens folder.now name.now)) }
{
    let keys = match folder.open(name) {
        Ok(mut file) => read_keys(&mut file),
        Err(error) => Err(error),
    };
    match keys {
        Ok(keys) => Some(keys),
        Err(error) => {
            folder.failed(name, &error);
            None
        }
    }
}
