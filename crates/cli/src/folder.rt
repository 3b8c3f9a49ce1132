//! The files of a call, by their names, and who is told of each that fails.
ghost use Rattle.std.specs.Prelude.{◌≡◌, ℕ, List, Option, None, Some, map, IfOk, IfSome};
ghost use Rattle.cli.specs.Call.{operands, sayings};
ghost use Rattle.cli.specs.Files.{Opens, files_or, opened};

use crate::call::Call;
use crate::opened::{Opened, STANDARD, open, tell_failure};
use std::alloc::{AllocError, Global};
use std::fs::File;
use std::io;
use std::io::{Error, Read, Stdin};

/// The files of a call: its operands, or standard input.
pub fn files<'a>(alloc: Global, call: &Call<'a>) -> Result<Vec<&'a [u8]>, AllocError>
    ensures { IfOk result (λ files. map (λ file. file.now) files.items
        ≡ files_or (operands (sayings call.now.said.items))) }
{
    let mut files = call.operands(alloc)?;
    if files.is_empty() {
        files.push(STANDARD)?;
    }
    Ok(files)
}

/// The files that a run reads, by their names, and who is told of each that fails.
pub trait Folder<R: Read> {
    /// What comes of opening the file of a name: what it holds, where that is known, or an error.
    ghost opens: { Self → Opens };

    /// What the file of a name holds whenever it is opened, where that is known.
    ghost holds: { Self → List ℕ → Option (List ℕ) } = { λ folder name. None };

    /// Opens the file of that name.
    fn open(&self, name: &[u8]) -> io::Result<R>
        ensures opens { opens self.now name.now (opened R.remaining result) }
        ensures holds { IfOk result (λ file. IfSome (holds self.now name.now)
            (λ bytes. R.remaining file ≡ Some bytes)) };

    /// The file of that name failed with this error. No contract says that this is called.
    fn failed(&self, name: &[u8], error: &Error);
}

/// The files of the disk; `-` is standard input. What fails is told on standard error. That a name leads to its file is in no contract.
#[derive(Drop)]
pub struct Disk<'r> {
    rt: &'r HostRuntime,
    program: &'r str,
}

impl<'r> Disk<'r> {
    /// For the program of that name.
    pub fn new(rt: &'r HostRuntime, program: &'r str) -> Disk<'r> {
        Disk { rt, program }
    }
}

impl Folder<Opened<Stdin, File>> for Disk<'_> {
    ghost opens = { λ disk name opened. Unit {0} };

    fn open(&self, name: &[u8]) -> io::Result<Opened<Stdin, File>> {
        open(self.rt, name)
    }

    fn failed(&self, name: &[u8], error: &Error) {
        tell_failure(self.rt, self.program, name, error);
    }
}
