//! Lines with how often they came.
ghost use Rattle.std.specs.Prelude.{◌≡◌, ◌++◌, ◌∷◌, [], ℕ, List, OnOk, OnErr, length};
ghost use Rattle.std.specs.Io.BufRead.{strip_last};
ghost use Rattle.std.specs.Io.Buffered.{writer_buffer, writer_contents};
ghost use Rattle.std.specs.Io.KnownBytes.{Appends};
ghost use Rattle.dedup_core.specs.Running.{EndsBehind, run_of};
ghost use Rattle.dedup_core.specs.Tallies.{Tallies, column, is_shown, shown, told};
ghost use Rattle.streams.specs.Streams.{AppendsPart};
ghost use Rattle.text_set.specs.Slots.{tag_under};

use crate::failure::{Failure, see};
use crate::run::{Ended, take_inputs};
use crate::task::LineTask;
use cli::inputs::Complaints;
use std::alloc::{AllocError, Global};
use std::hash::BuildHasher;
use std::io::{BufWriter, Read, Write};
use streams::tries::{TRIES, flush, write_all};
use text_set::{Guess, Texts};

/// Which of the counted lines are written, and how.
#[derive(Clone, Copy)]
pub struct Which {
    /// Each after how often it came.
    pub counts: bool,
    /// None that came once.
    pub repeated: bool,
    /// None that came more than once.
    pub unique: bool,
}

/// The texts of lines, and how often each came.
#[derive(Drop)]
pub struct Counts<S: BuildHasher + Drop> {
    texts: Texts<S>,
    times: Vec<u64>, // how often the text at each place came
}

impl<S: BuildHasher + Drop> Counts<S> {
    /// No lines.
    fn new(alloc: Global, hasher: S) -> Self
        ensures texts { result.texts.texts ≡ [] }
        ensures times { result.times.items ≡ [] }
    {
        Counts {
            texts: Texts::new(alloc, hasher),
            times: Vec::new(alloc),
        }
    }
}

/// Counts a text, up to the greatest number.
#[inline(always)]
fn count<S: BuildHasher + Drop>(
    texts: &mut Texts<S>,
    times: &mut Vec<u64>,
    text: &[u8],
    guess: Guess,
) -> Result<(), Failure>
    requires counted { (eol : ℕ) × (ls : List (List ℕ)) × Tallies eol ls texts.old.texts times.old.items }
    requires tag { guess.tag ≡ tag_under S.Hasher.write S.Hasher.finish (S.build_hasher texts.old.hasher) text.now }
    ensures hasher { texts.new.hasher ≡ texts.old.hasher }
    ensures counted { OnOk result ((eol : ℕ) (ls : List (List ℕ)) (line : List ℕ)
        → strip_last eol line ≡ text.now
        → Tallies eol ls texts.old.texts times.old.items
        → Tallies eol (ls ++ line ∷ []) texts.new.texts times.new.items) }
{
    let seen = see(texts, text, guess)?;
    if seen.is_new {
        return match times.push(1) {
            Ok(()) => Ok(()),
            Err(_) => Err(Failure::NoMemory),
        };
    }
    times[seen.place] = times[seen.place].saturating_add(1);
    Ok(())
}

impl<S: BuildHasher + Drop> LineTask for Counts<S> {
    ghost taken = { λ eol counts ls. Tallies eol ls counts.texts.texts counts.times.items };

    ghost output = { λ eol ls. [] };

    ghost tag_of = { λ counts. tag_under S.Hasher.write S.Hasher.finish (S.build_hasher counts.texts.hasher) };

    #[inline(always)]
    fn waits_for_memory(&self) -> bool {
        self.texts.waits_for_memory()
    }

    #[inline(always)]
    fn guess(&self, text: &[u8]) -> Guess {
        self.texts.guess(text)
    }

    #[inline(always)]
    fn take_line<W: Write>(
        &mut self,
        _line: &[u8],
        text: &[u8],
        _eol: u8,
        guess: Guess,
        _w: &mut W,
    ) -> Result<(), Failure> {
        count(&mut self.texts, &mut self.times, text, guess)
    }
}

/// Puts a text and the end of its line after the bytes.
fn push_line(out: &mut Vec<u8>, text: &[u8], eol: u8) -> Result<(), AllocError>
    ensures { OnOk result (out.new.items ≡ out.old.items ++ (text.now ++ eol ∷ [])) }
{
    out.extend_from_slice(text)?;
    out.push(eol)?;
    Ok(())
}

/// Makes the line of a text, after how often it came.
fn show_counted(times: u64, text: &[u8], eol: u8, out: &mut Vec<u8>) -> Result<(), Failure>
    ensures { OnOk result (out.new.items ≡ column times ++ (text.now ++ eol ∷ [])) }
{
    out.clear();
    if write!(out, "{times:>7} ").is_err() {
        return Err(Failure::NoMemory);
    }
    push_line(out, text, eol)?;
    Ok(())
}

/// Makes the line of a text.
fn show_plain(text: &[u8], eol: u8, out: &mut Vec<u8>) -> Result<(), Failure>
    ensures { OnOk result (out.new.items ≡ text.now ++ eol ∷ []) }
{
    out.clear();
    push_line(out, text, eol)?;
    Ok(())
}

/// Whether a text that came so often is written.
fn is_shown(which: Which, times: u64) -> bool
    ensures { result ≡ is_shown which times }
{
    !(which.repeated && times == 1) && !(which.unique && times > 1)
}

/// Makes what is written of a text that came so often.
fn show(which: Which, times: u64, text: &[u8], eol: u8, out: &mut Vec<u8>) -> Result<(), Failure>
    ensures { OnOk result (out.new.items ≡ shown eol which times text.now) }
{
    if !is_shown(which, times) {
        out.clear();
        return Ok(());
    }
    if which.counts {
        return show_counted(times, text, eol, out);
    }
    show_plain(text, eol, out)
}

/// Writes the counted texts that are asked for, in the order in which they came first.
fn write_tallies<S: BuildHasher + Drop, W: Write>(
    alloc: Global,
    which: Which,
    eol: u8,
    texts: &Texts<S>,
    times: &[u64],
    w: &mut W,
) -> Result<(), Failure>
    requires as_many { length texts.now.texts ≡ length times.now }
    ensures ok { OnOk result ((ls : List (List ℕ)) → Tallies eol ls texts.now.texts times.now
        → Appends (W.contents w.old) (W.contents w.new) (told eol which ls)) }
    ensures err { OnErr result ((ls : List (List ℕ)) → Tallies eol ls texts.now.texts times.now
        → AppendsPart (W.contents w.old) (W.contents w.new) (told eol which ls)) }
{
    let mut out = Vec::new(alloc);
    for i in 0..times.len() {
        show(which, times[i], texts.text_at(i), eol, &mut out)?;
        write_all(w, &out, TRIES)?;
    }
    Ok(())
}

/// Counts the lines of the inputs, each of which ends with the byte `eol`, and writes after the last those that are asked for, in the
/// order in which they came first. If an input fails, the others are still read. At the end nothing is held back. After a fault nothing
/// was written, or a beginning of what is due of all lines.
pub fn tally<S: BuildHasher + Drop, R: Read, C: Complaints, W: Write + Drop>(
    alloc: Global,
    hasher: S,
    which: Which,
    eol: u8,
    inputs: &mut [R],
    complaints: &mut C,
    w: &mut BufWriter<W>,
) -> Result<Ended, Failure>
    ensures ended { EndsBehind (told eol which) eol
        (run_of R.remaining inputs.old inputs.new (writer_contents W.contents) w.old w.new) result }
    ensures flushed { OnOk result (writer_buffer w.new ≡ []) }
{
    let mut counts = Counts::new(alloc, hasher);
    let ended = take_inputs(alloc, &mut counts, eol, inputs, complaints, w)?;
    write_tallies(alloc, which, eol, &counts.texts, &counts.times, w)?;
    flush(w, TRIES)?;
    Ok(ended)
}
