//! How much a store would save that keeps each chunk once.
ghost use Rattle.std.specs.Prelude.{◌≡◌, ◌==◌, ◌||◌, ◌+◌, ◌-◌, ◌++◌, ◌^◌, ◌≤◌, if◌then◌else◌, not, ℕ, List, [], ◌∷◌, Some, None, map, length, IfOk, IfErr, OnOk, OnErr};
ghost use Rattle.std.specs.BTreeSet.{contains};
ghost use Rattle.std.specs.Ordering.{nat_cmp};
ghost use Rattle.std.specs.Io.Buffered.{writer_buffer, writer_contents};
ghost use Rattle.cuts_core.specs.Cut.{IsManyOnly};
ghost use Rattle.cuts_core.specs.Counted.{AreTooMany, CountsChunks, CountsFile, CountsFiles, IsCounted};
ghost use Rattle.cuts_core.specs.Tally.{EndsTally, number_line, numbers_of};
ghost use Rattle.hash_cuts.specs.Reading.{Takes};
ghost use Rattle.hash_lines.specs.Sums.{sum_by};
ghost use Rattle.streams.specs.declared.failure.Failure.TheVariants.{NoMemory};

use crate::cut::cut_file;
use crate::failure::{Failure, TooMany};
use cli::folder::Folder;
use hash_cuts::{Cuts, Sink};
use hash_lines::sums::{NO_KEYS, Sum, number_of_text};
use std::alloc::{AllocError, Global};
use std::collections::BTreeSet;
use std::io::{BufWriter, Read, Write};
use streams::tries::write_out;

/// The numbers of the chunks so far.
#[derive(Drop)]
pub struct Tally {
    kind: Sum,
    chunks: u64,
    bytes: u64,
    first: u64, // the bytes of the chunks whose hash no chunk before them has
    hashes: BTreeSet<u128>,
}

impl Tally {
    /// No chunks.
    fn new(alloc: Global, kind: Sum) -> Tally
        ensures counted { IsCounted (sum_by kind) [] result }
        ensures kind { result.kind ≡ kind }
    {
        Tally {
            kind,
            chunks: 0,
            bytes: 0,
            first: 0,
            hashes: BTreeSet::new(alloc),
        }
    }
}

/// The sum, if it is below 2^64.
fn sum(number: u64, more: usize) -> Result<u64, Failure>
    ensures ok { IfOk result (λ sum. sum ≡ number + more) }
    ensures many { IfErr result (IsManyOnly (2 ^ 64 ≤ number + more)) }
{
    match number.checked_add(more as u64) {
        Some(sum) => Ok(sum),
        None => Err(Failure::Own(TooMany)),
    }
}

/// Puts a hash among the others, and returns whether it was not there.
fn see(hashes: &mut BTreeSet<u128>, hash: u128) -> Result<bool, Failure>
    ensures new { IfOk result (λ is_new. is_new ≡ not (contains nat_cmp hashes.old hash)) }
    ensures seen { OnOk result ((number : ℕ) → contains nat_cmp hashes.new number
        ≡ (number == hash || contains nat_cmp hashes.old number)) }
    ensures full { IfErr result (λ why. why ≡ NoMemory) }
{
    match hashes.insert(hash) {
        Ok(is_new) => Ok(is_new),
        Err(_) => Err(Failure::NoMemory),
    }
}

/// How many bytes a chunk has, if that is asked for.
fn bytes_if(is_asked: bool, chunk: &[u8]) -> usize
    ensures { result ≡ (if is_asked then length chunk.now else 0) }
{
    if is_asked { chunk.len() } else { 0 }
}

impl Sink for Tally {
    type Error = Failure;

    ghost taken = { CountsChunks };

    fn take(&mut self, chunk: &[u8]) -> Result<(), Failure>
        ensures ok { OnOk result (Takes CountsChunks self.old self.new (chunk.now ∷ []) None) }
        ensures err { OnErr result (Takes CountsChunks self.old self.new [] (Some chunk.now)) }
        ensures many { IfErr result (IsManyOnly (AreTooMany self.old chunk.now)) }
    {
        let is_new = see(&mut self.hashes, number_of_text(self.kind, NO_KEYS, chunk))?;
        self.chunks = sum(self.chunks, 1)?;
        self.bytes = sum(self.bytes, chunk.len())?;
        self.first = sum(self.first, bytes_if(is_new, chunk))?;
        Ok(())
    }
}

/// Counts the chunks of the file of that name, and returns whether it was read to its end.
fn count_file<R: Read + Drop, F: Folder<R>>(
    buffer: &mut Vec<u8>,
    cuts: &Cuts,
    folder: &F,
    name: &[u8],
    tally: &mut Tally,
) -> Result<bool, Failure>
    ensures kind { tally.new.kind ≡ tally.old.kind }
    ensures counted { IfOk result (CountsFile (sum_by tally.old.kind) cuts.now (F.opens folder.now name.now) tally.old
        tally.new) }
{
    cut_file(buffer, cuts, folder, name, tally)
}

/// Counts the chunks of the files of these names, and returns whether each was read to its end.
fn count_files<R: Read + Drop, F: Folder<R>>(
    alloc: Global,
    cuts: &Cuts,
    folder: &F,
    names: &[&[u8]],
    tally: &mut Tally,
) -> Result<bool, Failure>
    requires { IsCounted (sum_by tally.old.kind) [] tally.old }
    ensures { IfOk result (CountsFiles (sum_by tally.old.kind) cuts.now (F.opens folder.now)
        (map (λ name. name.now) names.now) tally.new) }
{
    let mut buffer = Vec::new(alloc);
    let mut all = true;
    for name in names {
        let whole = count_file(&mut buffer, cuts, folder, name, tally)?;
        all = all & whole;
    }
    Ok(all)
}

/// Puts the line of a number behind a text.
fn push_number(text: &mut Vec<u8>, word: &str, number: u64) -> Result<(), AllocError>
    ensures { OnOk result (text.new.items ≡ text.old.items ++ number_line word.now number) }
{
    text.extend_from_slice(word.as_bytes())?;
    if write!(text, "{number}\n").is_err() {
        return Err(AllocError);
    }
    Ok(())
}

/// The lines of the numbers.
fn tally_lines(alloc: Global, tally: &Tally) -> Result<Vec<u8>, AllocError>
    ensures { IfOk result (λ text. text.items
        ≡ numbers_of tally.now.chunks tally.now.bytes (tally.now.bytes - tally.now.first)) }
{
    let mut text = Vec::new(alloc);
    push_number(&mut text, "chunks: ", tally.chunks)?;
    push_number(&mut text, "bytes: ", tally.bytes)?;
    push_number(
        &mut text,
        "repeated bytes: ",
        tally.bytes.saturating_sub(tally.first),
    )?;
    Ok(text)
}

/// Counts the chunks of the files of these names, writes how many there are, their bytes, and the bytes of those whose hash came before,
/// and returns whether each file was read to its end. Of a file that fails the chunks before that count. Nothing is held back.
pub fn tell_tally<R: Read + Drop, F: Folder<R>, W: Write + Drop>(
    alloc: Global,
    cuts: &Cuts,
    folder: &F,
    kind: Sum,
    names: &[&[u8]],
    w: &mut BufWriter<W>,
) -> Result<bool, Failure>
    ensures told { EndsTally (sum_by kind) cuts.now (F.opens folder.now) (map (λ name. name.now) names.now)
        (writer_contents W.contents w.old) (writer_contents W.contents w.new) result }
    ensures flushed { OnOk result (writer_buffer w.new ≡ []) }
{
    let mut tally = Tally::new(alloc, kind);
    let all = count_files(alloc, cuts, folder, names, &mut tally)?;
    match tally_lines(alloc, &tally) {
        Ok(text) => match write_out(w, &text) {
            Ok(()) => Ok(all),
            Err(fault) => Err(fault),
        },
        Err(_) => Err(Failure::NoMemory),
    }
}
