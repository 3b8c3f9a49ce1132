//! Reads keys: lines, which end with newline or another byte, or so many bytes each.
ghost use Rattle.std.specs.Prelude.{◌≡◌, ◌<◌, ◌≤◌, IfOk, OnOk, length, true};
ghost use Rattle.streams.specs.Streams.{ReadsSome};
ghost use Rattle.text_set.specs.Texts.{with_text};
ghost use Rattle.spread_core.specs.Keys.{ReadsFixed, ReadsKey, ReadsKeys, ReadsLine, ReadsLines, ReadsOne};

use crate::failure::{Failure, NoTable, failure_of_read};
use std::alloc::Global;
use std::io::{BufRead, Read};
use std::num::NonZeroUsize;
use streams::tries::{TRIES, read_some};
use text_set::lines::{has_end, next_line, without_end};
use text_set::{Full, RandomKeys, Texts};

/// How many bytes of a key of fixed width are read at once at most.
const PIECE: usize = 65536;

/// How the keys lie in what is read.
#[derive(Clone, Copy, PartialEq)]
pub enum Layout {
    /// Each line is one, without the byte that ends it.
    Lines(u8),
    /// Each has so many bytes, with nothing between two.
    Fixed(NonZeroUsize),
}

/// Takes a key in, unless it is there.
fn take_key(keys: &mut Texts<RandomKeys>, key: &[u8]) -> Result<(), Failure>
    ensures { OnOk result (keys.new.texts ≡ with_text keys.old.texts key.now) }
{
    match keys.see(key) {
        Ok(_) => Ok(()),
        Err(Full::NoMemory) => Err(Failure::NoMemory),
        Err(Full::TooManyTexts) => Err(Failure::Own(NoTable::TooManyKeys)),
    }
}

/// Reads a line, takes its key in, and tells whether the line has its end. One without is the last; it has no key if it is empty.
fn read_line<R: BufRead>(
    keys: &mut Texts<RandomKeys>,
    eol: u8,
    line: &mut Vec<u8>,
    r: &mut R,
) -> Result<bool, Failure>
    ensures { IfOk result (ReadsLine eol keys.old.texts keys.new.texts (R.remaining r.old) (R.remaining r.new)) }
{
    match next_line(r, eol, line) {
        Ok(true) => {}
        Ok(false) => return Ok(false),
        Err(error) => return Err(failure_of_read(error)),
    }
    take_key(keys, without_end(line, eol))?;
    Ok(has_end(line, eol))
}

/// Reads lines and takes their keys in, and tells whether all were read: there may be more than can be counted.
fn read_lines<R: BufRead>(
    alloc: Global,
    keys: &mut Texts<RandomKeys>,
    eol: u8,
    r: &mut R,
) -> Result<bool, Failure>
    ensures { IfOk result (λ all. all ≡ true
        → ReadsLines eol keys.old.texts keys.new.texts (R.remaining r.old) (R.remaining r.new)) }
{
    let mut line = Vec::new(alloc);
    'lines: for _ in 0..u64::MAX {
        if !read_line(keys, eol, &mut line, r)? {
            return Ok(true);
        }
    }
    Ok(false)
}

/// Reads some bytes more of a key and puts them behind the others, and tells how many: none at the end.
fn read_piece<R: Read>(key: &mut Vec<u8>, piece: &mut [u8], r: &mut R) -> Result<usize, Failure>
    requires { 0 < length piece.old }
    ensures most { IfOk result (λ n. n ≤ length piece.old) }
    ensures read { IfOk result (ReadsSome key.old.items key.new.items (R.remaining r.old) (R.remaining r.new)) }
{
    match read_some(r, piece, TRIES) {
        Ok(n) => {
            key.extend_from_slice(&piece[..n])?;
            Ok(n)
        }
        Err(error) => Err(failure_of_read(error)),
    }
}

/// Reads a key of so many bytes, and tells whether there was one. The memory for it grows as its bytes come.
fn read_key<R: Read>(
    width: usize,
    key: &mut Vec<u8>,
    piece: &mut [u8],
    r: &mut R,
) -> Result<bool, Failure>
    requires { 0 < length piece.old }
    ensures { IfOk result (ReadsKey width key.new.items (R.remaining r.old) (R.remaining r.new)) }
{
    key.clear();
    'pieces: while key.len() < width {
        let most = piece.len().min(width - key.len());
        if read_piece(key, &mut piece[..most], r)? == 0 {
            return if key.is_empty() {
                Ok(false)
            } else {
                Err(Failure::Own(NoTable::ShortKey))
            };
        }
    }
    Ok(true)
}

/// Reads a key of so many bytes, takes it in, and tells whether there was one.
fn read_one<R: Read>(
    keys: &mut Texts<RandomKeys>,
    width: usize,
    key: &mut Vec<u8>,
    piece: &mut [u8],
    r: &mut R,
) -> Result<bool, Failure>
    requires { 0 < length piece.old }
    ensures { IfOk result (ReadsOne width keys.old.texts keys.new.texts (R.remaining r.old) (R.remaining r.new)) }
{
    if !read_key(width, key, piece, r)? {
        return Ok(false);
    }
    take_key(keys, key)?;
    Ok(true)
}

/// How many bytes of a key of that width are read at once.
fn piece_len(width: usize) -> usize
    requires { 0 < width }
    ensures { 0 < result }
{
    width.min(PIECE)
}

/// Reads keys of so many bytes and takes them in, and tells whether all were read.
fn read_fixed<R: Read>(
    alloc: Global,
    keys: &mut Texts<RandomKeys>,
    width: usize,
    r: &mut R,
) -> Result<bool, Failure>
    requires { 0 < width }
    ensures { IfOk result (λ all. all ≡ true
        → ReadsFixed width keys.old.texts keys.new.texts (R.remaining r.old) (R.remaining r.new)) }
{
    let mut key = Vec::new(alloc);
    let mut piece = vec![in alloc; 0u8; piece_len(width)]?;
    'keys: for _ in 0..u64::MAX {
        if !read_one(keys, width, &mut key, &mut piece, r)? {
            return Ok(true);
        }
    }
    Ok(false)
}

/// Reads the keys to the end, and takes each in, in the order in which they come first. After a fault some of them are there.
pub fn read_keys<R: BufRead>(
    alloc: Global,
    keys: &mut Texts<RandomKeys>,
    layout: Layout,
    r: &mut R,
) -> Result<(), Failure>
    ensures { OnOk result (ReadsKeys layout keys.old.texts keys.new.texts (R.remaining r.old) (R.remaining r.new)) }
{
    let all = match layout {
        Layout::Lines(eol) => read_lines(alloc, keys, eol, r)?,
        Layout::Fixed(width) => read_fixed(alloc, keys, width.get(), r)?,
    };
    if all {
        Ok(())
    } else {
        Err(Failure::Own(NoTable::TooManyKeys))
    }
}
