//! What is read of a name: a file, or standard input; and what is said of one that fails.
ghost use Rattle.cli.specs.Files.{left_of_either};

use crate::quoted::quoted;
use crate::reason::reason;
use std::fs::File;
use std::io;
use std::io::{Error, ErrorKind, Read, Stdin};

/// Standard input's name.
pub const STANDARD: &[u8] = b"-";

/// Why a name cannot be opened that is no text.
const NO_TEXT: &str = "file name is not valid UTF-8; use < to read it";

/// A reader of which the system may say how many bytes it has.
pub trait Measured: Read {
    /// How many bytes it has, as far as the system says so.
    fn size(&self) -> Option<u64>;
}

/// What is read of a name: standard input, or a file.
#[derive(Drop)]
pub enum Opened<S: Read + Drop, F: Read + Drop> {
    /// Standard input.
    Standard(S),
    /// A file.
    File(F),
}

impl<S: Read + Drop, F: Read + Drop> Read for Opened<S, F> {
    ghost remaining = { left_of_either S.remaining F.remaining };

    fn read(&mut self, buf: &mut [u8]) -> io::Result<usize> {
        match self {
            Opened::Standard(stdin) => stdin.read(buf),
            Opened::File(file) => file.read(buf),
        }
    }
}

impl Measured for Opened<Stdin, File> {
    /// A pipe has no size.
    fn size(&self) -> Option<u64> {
        match self {
            Opened::Standard(_) => None,
            Opened::File(file) => match file.metadata() {
                Ok(data) if data.is_file() => Some(data.len()),
                _ => None,
            },
        }
    }
}

/// Opens the file of that name; `-` is standard input.
pub(crate) fn open(rt: &HostRuntime, name: &[u8]) -> io::Result<Opened<Stdin, File>> {
    if name == STANDARD {
        return Ok(Opened::Standard(rt.stdin()));
    }
    match str::from_utf8(name) {
        Ok(path) => Ok(Opened::File(File::open(rt, path)?)),
        Err(_) => Err(Error::new(ErrorKind::InvalidInput, NO_TEXT)),
    }
}

/// Says on standard error that the file of that name failed, and why, behind the program's name.
pub(crate) fn tell_failure(rt: &HostRuntime, program: &str, name: &[u8], error: &Error) {
    let alloc = rt.alloc();
    let (Ok(name), Ok(why)) = (quoted(alloc, name), reason(alloc, error)) else {
        let _ = eprintln!(rt; "{program}: out of memory");
        return;
    };
    let _ = eprintln!(rt; "{program}: {name}: {why}");
}
