//! A run over inputs, one after the other.
ghost use Rattle.std.specs.Prelude.{◌≡◌, [], ℕ, List, IfOk, OnOk, OnErr};
ghost use Rattle.std.specs.Io.Buffered.{writer_buffer, writer_contents};
ghost use Rattle.text_set.specs.Lines.{IsBare, lines_by};
ghost use Rattle.dedup_core.specs.Running.{EndsTaking, run_of};
ghost use Rattle.dedup_core.specs.Taking.{At, BreaksInput, Broke, Grows, Leads, LeavesInput};

use crate::failure::Failure;
use crate::lines::take_lines;
use crate::task::LineTask;
use crate::unread::{NextLine, Unread};
use cli::inputs::Complaints;
use std::alloc::Global;
use std::io::{BufWriter, Error, ErrorKind, Read, Write};
use streams::tries::{TRIES, flush};

/// How a run ended that met no fault of its own.
#[derive(Clone, Copy)]
pub enum Ended {
    /// Each input was read to its end.
    Whole,
    /// At least one input failed. Of such an input the lines were taken that came whole.
    InputFailed,
}

/// How an input was left.
#[derive(Drop)]
pub enum Left {
    /// It was read to its end.
    Done,
    /// A read failed.
    Failed(Error),
}

/// Takes the last line of an input, which has no end, if there is one.
fn take_last<T: LineTask, W: Write + Drop>(
    task: &mut T,
    line: &[u8],
    eol: u8,
    w: &mut BufWriter<W>,
) -> Result<(), Failure>
    requires grows { Grows (T.output eol) }
    requires stands { (ls : List (List ℕ)) × T.taken eol task.old ls }
    requires bare { IsBare eol line.now }
    requires flushed { writer_buffer w.old ≡ [] }
    ensures took { OnOk result (Leads
        (At (T.output eol) (T.taken eol task.old) (writer_contents W.contents w.old))
        (At (T.output eol) (T.taken eol task.new) (writer_contents W.contents w.new)) (lines_by eol line.now)) }
    ensures flushed { OnOk result (writer_buffer w.new ≡ []) }
    ensures broke { OnErr result (Leads (At (T.output eol) (T.taken eol task.old) (writer_contents W.contents w.old))
        (Broke (T.output eol) (writer_contents W.contents w.new)) (lines_by eol line.now)) }
{
    if line.is_empty() {
        return Ok(());
    }
    task.take_line(line, line, eol, task.guess(line), w)?;
    flush(w, TRIES)?;
    Ok(())
}

/// Has the lines of an input taken. Whenever it reads, nothing is held back. An input of which 2^64 reads were made fails.
fn take_input<T: LineTask, R: Read, W: Write + Drop>(
    task: &mut T,
    unread: &mut Unread,
    eol: u8,
    r: &mut R,
    w: &mut BufWriter<W>,
) -> Result<Left, Failure>
    requires grows { Grows (T.output eol) }
    requires stands { (ls : List (List ℕ)) × T.taken eol task.old ls }
    requires unread { unread.old ≡ [] }
    requires flushed { writer_buffer w.old ≡ [] }
    ensures left { IfOk result (LeavesInput
        (At (T.output eol) (T.taken eol task.old) (writer_contents W.contents w.old))
        (At (T.output eol) (T.taken eol task.new) (writer_contents W.contents w.new))
        eol (R.remaining r.old) (R.remaining r.new)) }
    ensures unread { OnOk result (unread.new ≡ []) }
    ensures flushed { OnOk result (writer_buffer w.new ≡ []) }
    ensures broke { OnErr result (BreaksInput
        (At (T.output eol) (T.taken eol task.old) (writer_contents W.contents w.old))
        (Broke (T.output eol) (writer_contents W.contents w.new)) eol (R.remaining r.old)) }
{
    'reads: for _ in 0..u64::MAX {
        match unread.fill(eol, r, w)? {
            NextLine::Line => {
                let len = take_lines(task, unread.bytes(), eol, w)?;
                unread.pass(len);
                flush(w, TRIES)?;
            }
            NextLine::End => {
                take_last(task, unread.bytes(), eol, w)?;
                unread.clear();
                return Ok(Left::Done);
            }
            NextLine::Failure(error) => {
                unread.clear();
                return Ok(Left::Failed(error));
            }
        }
    }
    unread.clear();
    Ok(Left::Failed(Error::new(ErrorKind::FileTooLarge, "file too large")))
}

/// Has the lines of the inputs taken, which end with the byte `eol`. If an input fails, the others are still read. Whenever it reads, and
/// at the end, nothing is held back.
pub fn take_inputs<T: LineTask, R: Read, C: Complaints, W: Write + Drop>(
    alloc: Global,
    task: &mut T,
    eol: u8,
    inputs: &mut [R],
    complaints: &mut C,
    w: &mut BufWriter<W>,
) -> Result<Ended, Failure>
    requires grows { Grows (T.output eol) }
    requires begun { T.taken eol task.old [] }
    requires nothing { T.output eol [] ≡ [] }
    ensures ended { EndsTaking (T.output eol) (T.taken eol task.new) eol
        (run_of R.remaining inputs.old inputs.new (writer_contents W.contents) w.old w.new) result }
    ensures flushed { OnOk result (writer_buffer w.new ≡ []) }
{
    let mut unread = Unread::new(alloc);
    let mut whole = true;
    flush(w, TRIES)?;
    for place in 0..inputs.len() {
        match take_input(task, &mut unread, eol, &mut inputs[place], w)? {
            Left::Done => {}
            Left::Failed(error) => {
                complaints.failed(place, &error);
                whole = false;
            }
        }
    }
    if whole {
        Ok(Ended::Whole)
    } else {
        Ok(Ended::InputFailed)
    }
}
