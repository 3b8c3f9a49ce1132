//! Reads and writes, tried again where they were interrupted.
ghost use Rattle.std.specs.Prelude.{◌≡◌, ◌<◌, ◌≤◌, [], IfOk, IfErr, OnOk, OnErr, length, take};
ghost use Rattle.std.specs.Io.Buffered.{writer_buffer, writer_contents};
ghost use Rattle.std.specs.Io.KnownBytes.{Appends, Consumes, IsAtEnd, Keeps};
ghost use Rattle.streams.specs.Streams.{AppendsPart, IsUnwritten, WritesOut};

use crate::failure::Failure;
use std::io;
use std::io::{BufWriter, ErrorKind, Read, Write};

/// How often a read or a write that was interrupted is tried again, unless a program says otherwise.
pub const TRIES: u32 = 1000000;

/// Reads once, and up to so many times again where that was interrupted. A read that fails takes nothing.
pub fn read_some<R: Read>(r: &mut R, room: &mut [u8], tries: u32) -> io::Result<usize>
    ensures most { IfOk result (λ n. n ≤ length room.new) }
    ensures read { IfOk result (λ n. Consumes (R.remaining r.old) (R.remaining r.new) (take n room.new)) }
    ensures end { IfOk result (λ n. n ≡ 0 → 0 < length room.new → IsAtEnd (R.remaining r.new)) }
    ensures err { OnErr result (Keeps (R.remaining r.old) (R.remaining r.new)) }
{
    let mut left = tries;
    loop {
        match r.read(room) {
            Ok(n) => return Ok(n),
            Err(error) => {
                if left == 0 || error.kind() != ErrorKind::Interrupted {
                    return Err(error);
                }
            }
        }
        left -= 1;
    }
}

/// Writes all of the bytes, and tries up to so many times again where a write was interrupted. After a fault a beginning of them was
/// written.
pub fn write_all<W: Write, Own>(w: &mut W, bytes: &[u8], tries: u32) -> Result<(), Failure<Own>>
    ensures ok { OnOk result (Appends (W.contents w.old) (W.contents w.new) bytes.now) }
    ensures err { OnErr result (AppendsPart (W.contents w.old) (W.contents w.new) bytes.now) }
    ensures unwritten { IfErr result IsUnwritten }
{
    let mut rest = bytes;
    let mut left = tries;
    while !rest.is_empty() {
        match w.write(rest) {
            Ok(0) => return Err(Failure::Unwritten(None)),
            Ok(n) => rest = &rest[n..],
            Err(error) => {
                if left == 0 || error.kind() != ErrorKind::Interrupted {
                    return Err(Failure::Unwritten(Some(error)));
                }
                left -= 1;
            }
        }
    }
    Ok(())
}

/// Flushes the writer, so that nothing is held back, and tries up to so many times again where that was interrupted.
pub fn flush<W: Write + Drop, Own>(w: &mut BufWriter<W>, tries: u32) -> Result<(), Failure<Own>>
    ensures kept { Keeps (writer_contents W.contents w.old) (writer_contents W.contents w.new) }
    ensures flushed { OnOk result (writer_buffer w.new ≡ []) }
    ensures unwritten { IfErr result IsUnwritten }
{
    let mut left = tries;
    loop {
        match w.flush() {
            Ok(()) => return Ok(()),
            Err(error) => {
                if left == 0 || error.kind() != ErrorKind::Interrupted {
                    return Err(Failure::Unwritten(Some(error)));
                }
            }
        }
        left -= 1;
    }
}

/// Writes all of the bytes and flushes, so that nothing is held back, each tried again where it was interrupted. After a fault a
/// beginning of them was written.
pub fn write_out<W: Write + Drop, Own>(
    w: &mut BufWriter<W>,
    bytes: &[u8],
) -> Result<(), Failure<Own>>
    ensures told { WritesOut bytes.now (writer_contents W.contents w.old) (writer_contents W.contents w.new) result }
    ensures flushed { OnOk result (writer_buffer w.new ≡ []) }
{
    write_all(w, bytes, TRIES)?;
    flush(w, TRIES)
}
