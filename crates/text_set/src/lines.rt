//! Lines of a text, and what ends them: newline, or another byte.
ghost use Rattle.std.specs.Prelude.{◌≡◌, ◌≤◌, ◌+◌, ◌==◌, IfOk, not, length, false, true};
ghost use Rattle.std.specs.Io.BufRead.{ends_with_byte, strip_last};
ghost use Rattle.std.specs.List.{prefix_len};
ghost use Rattle.std.specs.Simd.Lanes.{chunk};
ghost use Rattle.text_set.specs.Lines.{IsLineEnd, ReadsNext, ReadsNothing};

use std::io;
use std::io::BufRead;
use std::simd::prelude::*;

/// Whether a line has its end.
pub fn has_end(line: &[u8], eol: u8) -> bool
    ensures { result ≡ ends_with_byte eol line.now }
{
    match line {
        [.., last] => *last == eol,
        [] => false,
    }
}

/// A line without its end, if it has one.
pub fn without_end(line: &[u8], eol: u8) -> &[u8]
    ensures { result.now ≡ strip_last eol line.now }
{
    match line {
        [text @ .., last] if *last == eol => text,
        _ => line,
    }
}

/// How many of the 16 bytes from a place on come before the first that ends a line among them.
fn before_end(bytes: &[u8], at: usize, eol: u8) -> usize
    requires { at + 16 ≤ length bytes.now }
    ensures { result ≡ prefix_len (λ byte. not (byte == eol)) (chunk at 16 bytes.now) }
{
    let ends = u8x16::from_slice(&bytes[at..])
        .simd_eq(u8x16::splat(eol))
        .to_bitmask();
    if ends == 0 {
        16
    } else {
        ends.trailing_zeros() as usize
    }
}

/// Where the first line ends.
pub fn line_end(bytes: &[u8], eol: u8) -> Option<usize>
    ensures { IsLineEnd eol bytes.now result }
{
    let mut at = 0;
    while bytes.len() - at >= 16 {
        let before = before_end(bytes, at, eol);
        if before < 16 {
            return Some(at + before);
        }
        at += 16;
    }
    for i in at..bytes.len() {
        if bytes[i] == eol {
            return Some(i);
        }
    }
    None
}

/// Reads the next line into the buffer, with its end if it has one, and returns whether there is one.
pub fn next_line<R: BufRead>(r: &mut R, eol: u8, line: &mut Vec<u8>) -> io::Result<bool>
    ensures some { IfOk result (λ some. some ≡ true
        → ReadsNext eol (R.remaining r.old) (R.remaining r.new) line.new.items) }
    ensures none { IfOk result (λ some. some ≡ false → ReadsNothing (R.remaining r.old) (R.remaining r.new)) }
{
    line.clear();
    let count = r.read_until(eol, line)?;
    Ok(count > 0)
}
