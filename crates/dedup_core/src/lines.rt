//! Writes lines, and has them taken.
ghost use Rattle.std.specs.Prelude.{◌≡◌, ℕ, List, IfOk, OnOk, OnErr};
ghost use Rattle.std.specs.Io.BufRead.{strip_last};
ghost use Rattle.std.specs.Io.KnownBytes.{Appends};
ghost use Rattle.dedup_core.specs.Between.{Splits, Takes};
ghost use Rattle.dedup_core.specs.Taking.{At, Broke, Leads};
ghost use Rattle.streams.specs.Streams.{AppendsPart};
ghost use Rattle.text_set.specs.Lines.{as_line_by};

use crate::ahead::Ahead;
use crate::failure::Failure;
use crate::task::LineTask;
use std::io::Write;
use streams::tries::{TRIES, write_all};

/// Writes a line of this text, and its end after it if it has none. After a fault a beginning of that was written.
pub fn write_line<W: Write>(w: &mut W, line: &[u8], text: &[u8], eol: u8) -> Result<(), Failure>
    requires { text.now ≡ strip_last eol line.now }
    ensures ok { OnOk result (Appends (W.contents w.old) (W.contents w.new) (as_line_by eol line.now)) }
    ensures err { OnErr result (AppendsPart (W.contents w.old) (W.contents w.new) (as_line_by eol line.now)) }
{
    if text.len() < line.len() {
        return write_all(w, line, TRIES);
    }
    write_all(w, line, TRIES)?;
    write_all(w, &[eol], TRIES)
}

/// Has the lines taken that have an end. Returns how many bytes they have together.
pub fn take_lines<T: LineTask, W: Write>(
    task: &mut T,
    bytes: &[u8],
    eol: u8,
    w: &mut W,
) -> Result<usize, Failure>
    requires stands { (ls : List (List ℕ)) × T.taken eol task.old ls }
    ensures took { IfOk result (λ len. (ls : List (List ℕ)) × Takes eol bytes.now len ls
        × Leads (At (T.output eol) (T.taken eol task.old) (W.contents w.old))
        (At (T.output eol) (T.taken eol task.new) (W.contents w.new)) ls) }
    ensures broke { OnErr result ((ls : List (List ℕ)) × (rest : List ℕ) × Splits eol bytes.now ls rest
        × Leads (At (T.output eol) (T.taken eol task.old) (W.contents w.old))
        (Broke (T.output eol) (W.contents w.new)) ls) }
{
    let mut rest = bytes;
    let mut ahead = Ahead::new();
    while let Some(found) = ahead.next(task, rest, eol) {
        let (line, later) = rest.split_at(found.len + 1);
        let text = &line[..found.len];
        task.take_line(line, text, eol, found.guess, w)?;
        rest = later;
    }
    Ok(bytes.len() - rest.len())
}
