//! The bytes that were read and are not taken yet.
ghost use Rattle.std.specs.Prelude.{◌≡◌, ◌<◌, ◌≤◌, ◌+◌, ◌-◌, [], ℕ, List, IfOk, OnOk, OnErr, MatchResult, length, take, drop};
ghost use Rattle.std.specs.Io.Buffered.{writer_buffer};
ghost use Rattle.std.specs.Io.KnownBytes.{Keeps};
ghost use Rattle.streams.specs.Streams.{ReadsSome};
ghost use Rattle.dedup_core.specs.Between.{Filled};

use crate::failure::Failure;
use std::alloc::Global;
use std::io;
use std::io::{BufWriter, Error, Read, Write};
use std::marker::Model;
use streams::tries::{TRIES, read_some};
use text_set::lines::line_end;

/// How many bytes are there at most, unless a line is longer than half of them.
pub const BUFFER: usize = 65536;

/// What came of reading on.
#[derive(Drop)]
pub enum NextLine {
    /// The end of a line, which is among the bytes.
    Line,
    /// The end of the input. The bytes are its last line, which has no end, or none.
    End,
    /// A fault. The bytes are a line that it broke, or none.
    Failure(Error),
}

/// Bytes that were read and are not taken yet: what is left of the last line, and what was read after it.
#[derive(Drop)]
pub struct Unread {
    bytes: Vec<u8>,
    from: usize, // how many bytes are taken
    to: usize, // how many bytes were read
}

impl Model for Unread {
    ghost Value = { List ℕ };

    ghost view = { λ unread. take (unread.to - unread.from) (drop unread.from unread.bytes.items) };

    ghost invariant = { λ unread. (unread.from ≤ unread.to) × (unread.to ≤ length unread.bytes.items) };
}

/// Moves the bytes of a range to the front.
fn to_front(bytes: &mut Vec<u8>, from: usize, to: usize)
    requires rises { from ≤ to }
    requires within { to ≤ length bytes.old.items }
    ensures kept { take (to - from) bytes.new.items ≡ take (to - from) (drop from bytes.old.items) }
    ensures len { length bytes.new.items ≡ length bytes.old.items }
{
    if from > 0 {
        bytes.as_mut_slice().copy_within(from..to, 0);
    }
}

/// Makes room after so many bytes: half of `BUFFER` at least. What it adds is filled with zero bytes, so it adds little: a long line then
/// takes its own length in memory, and `Vec` sees to it that few of these calls move it.
fn make_room(bytes: &mut Vec<u8>, to: usize) -> Result<(), Failure>
    requires { to ≤ length bytes.old.items }
    ensures room { OnOk result (to < length bytes.new.items) }
    ensures kept { OnOk result (take to bytes.new.items ≡ take to bytes.old.items) }
    ensures err { OnErr result (bytes.new.items ≡ bytes.old.items) }
{
    let len = bytes.len();
    if len - to < BUFFER / 2 {
        match len.checked_add(BUFFER) {
            Some(more) => bytes.resize(more, 0)?,
            None => return Err(Failure::NoMemory),
        }
    }
    Ok(())
}

/// Reads once, and puts what was read after so many bytes.
fn read_behind<R: Read>(bytes: &mut [u8], to: usize, r: &mut R) -> io::Result<usize>
    requires { to < length bytes.old }
    ensures within { IfOk result (λ n. to + n ≤ length bytes.new) }
    ensures read { IfOk result (λ n. ReadsSome (take to bytes.old) (take (to + n) bytes.new)
        (R.remaining r.old) (R.remaining r.new) n) }
    ensures kept { OnErr result (take to bytes.new ≡ take to bytes.old) }
    ensures err { OnErr result (Keeps (R.remaining r.old) (R.remaining r.new)) }
{
    read_some(r, &mut bytes[to..], TRIES)
}

impl Unread {
    /// No bytes.
    pub fn new(alloc: Global) -> Unread
        ensures { result ≡ [] }
    {
        Unread {
            bytes: Vec::new(alloc),
            from: 0,
            to: 0,
        }
    }

    /// The bytes.
    pub fn bytes(&self) -> &[u8]
        ensures { result.now ≡ self.now }
    {
        &self.bytes[self.from..self.to]
    }

    /// Takes so many bytes from the front.
    pub fn pass(&mut self, n: usize)
        requires { n ≤ length self.old }
        ensures { self.new ≡ drop n self.old }
    {
        self.from += n;
    }

    /// Takes all bytes.
    pub fn clear(&mut self)
        ensures { self.new ≡ [] }
    {
        self.from = self.to;
    }

    /// Reads once.
    fn read<R: Read>(&mut self, r: &mut R) -> Result<io::Result<usize>, Failure>
        ensures { IfOk result (λ read. MatchResult read
            (ReadsSome self.old self.new (R.remaining r.old) (R.remaining r.new))
            (λ _. (self.new ≡ self.old) × Keeps (R.remaining r.old) (R.remaining r.new))) }
    {
        to_front(&mut self.bytes, self.from, self.to);
        self.to -= self.from;
        self.from = 0;
        make_room(&mut self.bytes, self.to)?;
        match read_behind(self.bytes.as_mut_slice(), self.to, r) {
            Ok(n) => {
                self.to += n;
                Ok(Ok(n))
            }
            Err(error) => Ok(Err(error)),
        }
    }

    /// Reads until the end of a line came, or to the end or a fault of the input, where nothing that is due is held back.
    /// What was there is kept at the front.
    pub fn fill<R: Read, W: Write + Drop>(
        &mut self,
        eol: u8,
        r: &mut R,
        due: &BufWriter<W>,
    ) -> Result<NextLine, Failure>
        requires { writer_buffer due.now ≡ [] }
        ensures { IfOk result (Filled eol self.old self.new (R.remaining r.old) (R.remaining r.new)) }
    {
        loop {
            let len = self.bytes().len();
            match self.read(r)? {
                Ok(0) => return Ok(NextLine::End),
                Ok(_) => {}
                Err(error) => return Ok(NextLine::Failure(error)),
            }
            if line_end(&self.bytes()[len..], eol).is_some() {
                return Ok(NextLine::Line);
            }
        }
    }
}
