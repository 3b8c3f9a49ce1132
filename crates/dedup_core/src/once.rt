//! Lines, each once.
ghost use Rattle.std.specs.Prelude.{◌≡◌, [], OnOk};
ghost use Rattle.std.specs.Io.Buffered.{writer_buffer, writer_contents};
ghost use Rattle.text_set.specs.Slots.{tag_under};
ghost use Rattle.text_set.specs.Firsts.{firsts_by, once_by};
ghost use Rattle.dedup_core.specs.Running.{Ends, run_of};

use crate::failure::{Failure, see};
use crate::lines::write_line;
use crate::run::{Ended, take_inputs};
use crate::task::LineTask;
use cli::inputs::Complaints;
use std::alloc::Global;
use std::hash::BuildHasher;
use std::io::{BufWriter, Read, Write};
use text_set::{Guess, Texts};

/// The texts of the lines that came.
#[derive(Drop)]
pub struct Once<S: BuildHasher + Drop> {
    seen: Texts<S>,
}

impl<S: BuildHasher + Drop> LineTask for Once<S> {
    ghost taken = { λ eol once ls. once.seen.texts ≡ firsts_by eol ls };

    ghost output = { once_by };

    ghost tag_of = { λ once. tag_under S.Hasher.write S.Hasher.finish (S.build_hasher once.seen.hasher) };

    #[inline(always)]
    fn waits_for_memory(&self) -> bool {
        self.seen.waits_for_memory()
    }

    #[inline(always)]
    fn guess(&self, text: &[u8]) -> Guess {
        self.seen.guess(text)
    }

    #[inline(always)]
    fn take_line<W: Write>(
        &mut self,
        line: &[u8],
        text: &[u8],
        eol: u8,
        guess: Guess,
        w: &mut W,
    ) -> Result<(), Failure> {
        if see(&mut self.seen, text, guess)?.is_new {
            write_line(w, line, text, eol)?;
        }
        Ok(())
    }
}

/// Writes each line of the inputs, each of which ends with the byte `eol`, once, where it came first. If an input fails, the others are
/// still read. Whenever it reads, and at the end, nothing is held back.
pub fn dedup<S: BuildHasher + Drop, R: Read, C: Complaints, W: Write + Drop>(
    alloc: Global,
    hasher: S,
    eol: u8,
    inputs: &mut [R],
    complaints: &mut C,
    w: &mut BufWriter<W>,
) -> Result<Ended, Failure>
    ensures ended { Ends (once_by eol) eol
        (run_of R.remaining inputs.old inputs.new (writer_contents W.contents) w.old w.new) result }
    ensures flushed { OnOk result (writer_buffer w.new ≡ []) }
{
    let mut once = Once {
        seen: Texts::new(alloc, hasher),
    };
    take_inputs(alloc, &mut once, eol, inputs, complaints, w)
}
