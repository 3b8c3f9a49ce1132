//! A number as a line.
ghost use Rattle.std.specs.Prelude.{◌≡◌};
ghost use Rattle.streams.specs.Streams.{IsUnwritten};
ghost use Rattle.hashof.specs.Line.{line_of};
ghost use Rattle.hashof.specs.Running.{IsOfWrite, WritesLine};

use crate::run::RunFault;
use std::io::Write;
use streams::failure::{Failure, Nothing};
use streams::tries::write_all;

/// The most bytes of a line: twenty digits and a newline.
const LINE: usize = 21;

/// The line of a number, made at the end of the array.
fn put_line(number: u64, line: &mut [u8; LINE]) -> &[u8]
    ensures { result.now ≡ line_of number }
{
    line[20] = b'\n';
    let mut at = 20;
    let mut rest = number;
    while rest >= 10 {
        at -= 1;
        line[at] = b'0' + (rest % 10) as u8;
        rest /= 10;
    }
    at -= 1;
    line[at] = b'0' + rest as u8;
    &line[at..]
}

/// What a failed write tells, as the fault of a run.
fn fault_of_write(fault: Failure<Nothing>) -> RunFault
    requires { IsUnwritten fault }
    ensures { IsOfWrite result }
{
    match fault {
        Failure::Unwritten(error) => RunFault::WriteFault(error),
        _ => unreachable!(),
    }
}

/// Writes the line of a number and flushes. The first error, `Interrupted` too, or a write that takes nothing ends it.
pub fn write_line<W: Write>(w: &mut W, number: u64) -> Result<(), RunFault>
    ensures { WritesLine (line_of number) (W.contents w.old) (W.contents w.new) result }
{
    let mut line = [0u8; LINE];
    match write_all(w, put_line(number, &mut line), 0) {
        Ok(()) => match w.flush() {
            Ok(()) => Ok(()),
            Err(error) => Err(RunFault::WriteFault(Some(error))),
        },
        Err(fault) => Err(fault_of_write(fault)),
    }
}
