//! For tests alone: readers, writers and files that move a few bytes at a time, are interrupted and fail as a test
//! says, and the arguments of a call. No program calls these.
use std::alloc::{AllocError, Global};
use std::io;
use std::io::{Error, ErrorKind, Read, Write};

/// A reader that gives a text in pieces, and counts its reads.
#[derive(Drop)]
pub struct Script<'a> {
    /// The text that is left.
    left: &'a [u8],
    /// The most bytes of a read.
    most: usize,
    /// After how many more bytes a read fails.
    until_fault: usize,
    /// The error of the read that fails.
    pub kind: ErrorKind,
    /// How often each read is interrupted before it goes on.
    pub interrupted: u32,
    /// How often this one was.
    interruptions: u32,
    /// The number of reads.
    pub reads: u64,
    /// Whether a read asked for nothing.
    pub asked_for_nothing: bool,
}

impl<'a> Script<'a> {
    /// A reader of this text, at most `most` bytes a read.
    pub fn new(text: &'a [u8], most: usize) -> Script<'a> {
        Script::failing(text, most, usize::MAX)
    }

    /// The same, but one read fails, after `until_fault` bytes. The reads after it go on with the text.
    pub fn failing(text: &'a [u8], most: usize, until_fault: usize) -> Script<'a> {
        Script {
            left: text,
            most,
            until_fault,
            kind: ErrorKind::BrokenPipe,
            interrupted: 0,
            interruptions: 0,
            reads: 0,
            asked_for_nothing: false,
        }
    }
}

impl Read for Script<'_> {
    fn read(&mut self, buf: &mut [u8]) -> io::Result<usize> {
        self.reads = self.reads.saturating_add(1);
        self.asked_for_nothing = self.asked_for_nothing || buf.is_empty();
        if self.interruptions < self.interrupted {
            self.interruptions += 1;
            return Err(Error::from(ErrorKind::Interrupted));
        }
        self.interruptions = 0;
        if self.until_fault == 0 {
            self.until_fault = usize::MAX;
            return Err(Error::from(self.kind));
        }
        let room = self.most.min(buf.len()).min(self.until_fault);
        let n = room.min(self.left.len());
        let (now, later) = self.left.split_at(n);
        buf[..n].copy_from_slice(now);
        self.left = later;
        self.until_fault = self.until_fault.saturating_sub(n);
        Ok(n)
    }
}

/// How a writer fails.
#[derive(Clone, Copy)]
pub enum Trouble {
    /// It does not fail.
    None,
    /// Each write fails, once this number of bytes was written.
    WriteFails(usize),
    /// Each write takes nothing, once this number of bytes was written.
    TakesNothing(usize),
    /// Each flush fails, after this number of flushes.
    FlushFails(u64),
}

/// The most bytes of a paper.
const PAPER: usize = 256;

/// A writer that keeps what is written, at most 256 bytes, and counts its writes and flushes.
#[derive(Drop)]
pub struct Paper {
    text: [u8; PAPER],
    len: usize,
    /// The most bytes of a write.
    most: usize,
    /// How it fails.
    trouble: Trouble,
    /// The error of what fails.
    kind: ErrorKind,
    /// The number of writes.
    pub writes: u64,
    /// The number of flushes.
    pub flushes: u64,
}

impl Paper {
    /// A writer that takes at most `most` bytes a write, and fails like this, with this error.
    pub fn new(most: usize, trouble: Trouble, kind: ErrorKind) -> Paper {
        Paper {
            text: [0; PAPER],
            len: 0,
            most,
            trouble,
            kind,
            writes: 0,
            flushes: 0,
        }
    }

    /// A writer that does not fail, and takes at most `most` bytes a write.
    pub fn sound(most: usize) -> Paper {
        Paper::new(most, Trouble::None, ErrorKind::BrokenPipe)
    }

    /// What was written.
    pub fn text(&self) -> &[u8] {
        &self.text[..self.len.min(PAPER)]
    }
}

impl Write for Paper {
    fn write(&mut self, buf: &[u8]) -> io::Result<usize> {
        self.writes = self.writes.saturating_add(1);
        let most = match self.trouble {
            Trouble::WriteFails(bytes) if bytes <= self.len => return Err(Error::from(self.kind)),
            Trouble::WriteFails(bytes) | Trouble::TakesNothing(bytes) => {
                self.most.min(bytes.saturating_sub(self.len))
            }
            _ => self.most,
        };
        let room = &mut self.text[self.len.min(PAPER)..];
        let n = most.min(buf.len()).min(room.len());
        room[..n].copy_from_slice(&buf[..n]);
        self.len = self.len.saturating_add(n);
        Ok(n)
    }

    fn flush(&mut self) -> io::Result<()> {
        let before = self.flushes;
        self.flushes = before.saturating_add(1);
        match self.trouble {
            Trouble::FlushFails(flushes) if flushes <= before => Err(Error::from(self.kind)),
            _ => Ok(()),
        }
    }
}

/// A file in memory.
#[derive(Clone, Copy)]
pub struct File<'a> {
    /// Its name.
    pub name: &'a [u8],
    /// Its bytes.
    pub text: &'a [u8],
    /// After how many bytes a read fails.
    pub until_fault: usize,
}

/// A file that is read without a fault.
pub fn whole<'a>(name: &'a [u8], text: &'a [u8]) -> File<'a> {
    File {
        name,
        text,
        until_fault: usize::MAX,
    }
}

/// Opens the file of this name, of at most three bytes a read. Fails if there is none.
pub fn open<'a>(files: &[File<'a>], name: &[u8]) -> io::Result<Script<'a>> {
    for file in files {
        if file.name == name {
            return Ok(Script::failing(file.text, 3, file.until_fault));
        }
    }
    Err(Error::from(ErrorKind::NotFound))
}

/// The arguments of a call, from words.
pub fn arguments_of(alloc: Global, words: &[&str]) -> Result<Vec<Vec<u8>>, AllocError> {
    let mut all = Vec::new(alloc);
    for word in words {
        match all.push(Vec::from_slice(alloc, word.as_bytes())?) {
            Ok(()) => {}
            Err(_) => return Err(AllocError),
        }
    }
    Ok(all)
}
