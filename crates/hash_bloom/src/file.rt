//! A filter in a file, to be read back by another run.
//!
//! First stands the line `hashers-bloom 2 BITS PROBES PAIR`: the form's version, the numbers in 16 and in 8 hexadecimal digits, and the
//! names of the two hashers as the caller gives them. Then come the words, each in 8 bytes with the lowest first, and at the end FNV-1a at
//! 64 bits of all before, in 8 bytes like a word.
ghost use Rattle.std.specs.Prelude.{◌≡◌, ◌<◌, ◌≤◌, ◌^◌, ◌++◌, ℕ, List, IfOk, IfErr, OnErr, OnOk, Some, length, slice_index};
ghost use Rattle.std.specs.Int.{to_le_bytes};
ghost use Rattle.std.specs.Io.KnownBytes.{Appends, Consumes};
ghost use Rattle.streams.specs.Streams.{AppendsPart};
ghost use Rattle.hash_bloom.specs.File.{BeginsNot, IsRefusal, IsStored, bytes_of, field, file_of, header, seal, sealed, title};
ghost use Rattle.hash_bloom.specs.Filter.{Filter, filter_of};
ghost use mir.Syntax.{w64};

use crate::{Bloom, NoFilter};
use hashers::fnv::FNV1aHasher64;
use hashers::laws::Piecewise;
use std::alloc::Global;
use std::error::Error as StdError;
use std::fmt::{Display, Formatter};
use std::hash::Hasher;
use std::io::{Error, ErrorKind, Read, Write};
use std::{fmt, io};
use streams::failure::Failure;
use streams::hex::{MOST_DIGITS, hex_number, push_hex, put_hex};
use streams::tries::{TRIES, write_all};

/// What the file begins with: whose it is, and its form's version.
const TITLE: &[u8] = b"hashers-bloom ";

const VERSION: &[u8] = b"2 ";

/// Why no filter was read.
#[derive(Debug, Drop)]
pub enum Unread {
    /// A read failed, the file ended too early, or there is no memory.
    Failed(Error),
    /// This is no file of a filter in this form.
    Form,
    /// The form is one of another version, whose keys have other places.
    Version,
    /// The filter is one over another pair of hashers.
    Pair,
    /// The hash at the end is another: the file is damaged.
    Hash,
}

impl Display for Unread {
    fn fmt<W: fmt::Write>(&self, f: &mut Formatter<W>) -> fmt::Result {
        match self {
            Unread::Failed(error) => write!(f, "{error}"),
            Unread::Form => write!(f, "this is no file of a filter"),
            Unread::Version => write!(
                f,
                "the file is one of another version: make the filter again"
            ),
            Unread::Pair => write!(f, "the filter is one over other hashers"),
            Unread::Hash => write!(f, "the file is damaged: it has another hash"),
        }
    }
}

impl StdError for Unread {}

impl From<Error> for Unread {
    ghost use Rattle.hash_bloom.specs.declared.file.Unread.TheVariants as why;

    ghost from_gives = { λ error unread. unread ≡ why.Failed error };

    fn from(error: Error) -> Unread {
        Unread::Failed(error)
    }
}

/// The first line.
#[tactic(auto, unfolding(crate::specs::File::header, crate::specs::File::field))]
fn header(alloc: Global, bits: u64, probes: u32, pair: &[u8]) -> io::Result<Vec<u8>>
    ensures { IfOk result (λ line. line.items ≡ header bits probes pair.now) }
{
    let mut line = Vec::new(alloc);
    line.extend_from_slice(TITLE)?;
    line.extend_from_slice(VERSION)?;
    push_hex(&mut line, 16, u128::from(bits))?;
    line.push(b' ')?;
    push_hex(&mut line, 8, u128::from(probes))?;
    line.push(b' ')?;
    line.extend_from_slice(pair)?;
    line.push(b'\n')?;
    Ok(line)
}

/// What stands at the end: the hash of the first line and the words.
fn seal(header: &[u8], words: &[u64]) -> [u8; 8]
    ensures value { result ≡ seal (header.now ++ bytes_of words.now) }
    ensures words { (i : ℕ) → slice_index words.now i < 2 ^ 64 }
{
    let mut hasher = FNV1aHasher64::default();
    hasher.write(header);
    for word in words {
        hasher.write(&word.to_le_bytes());
    }
    hasher.finish().to_le_bytes()
}

/// Reads these bytes. It stops at the first that is another.
fn expect<R: Read>(r: &mut R, text: &[u8], otherwise: Unread) -> Result<(), Unread>
    ensures read { OnOk result (Consumes (R.remaining r.old) (R.remaining r.new) text.now) }
    ensures refused { IfErr result (λ why. IsRefusal why → BeginsNot (R.remaining r.old) text.now) }
{
    for byte in text {
        let mut read = [0u8];
        r.read_exact(&mut read)?;
        if read[0] != *byte {
            return Err(otherwise);
        }
    }
    Ok(())
}

/// Reads what the file begins with.
fn read_title<R: Read>(r: &mut R) -> Result<(), Unread>
    ensures read { OnOk result (Consumes (R.remaining r.old) (R.remaining r.new) title) }
    ensures refused { IfErr result (λ why. IsRefusal why → BeginsNot (R.remaining r.old) title) }
{
    expect(r, TITLE, Unread::Form)?;
    expect(r, VERSION, Unread::Version)
}

/// Reads a number of so many digits and the space behind it.
fn read_field<R: Read, const DIGITS: usize>(r: &mut R) -> Result<u128, Unread>
    requires { DIGITS ≤ 32 }
    ensures small { IfOk result (λ number. number < 16 ^ DIGITS) }
    ensures read { IfOk result (λ number. Consumes (R.remaining r.old) (R.remaining r.new) (field DIGITS number)) }
    ensures refused { IfErr result (λ why. IsRefusal why → (number : ℕ) → number < 16 ^ DIGITS
        → BeginsNot (R.remaining r.old) (field DIGITS number)) }
{
    let mut text = [0u8; DIGITS];
    r.read_exact(&mut text)?;
    let Some(number) = hex_number(&text) else {
        return Err(Unread::Form);
    };
    if put_hex(DIGITS, number, &mut [0; MOST_DIGITS]) != text.as_slice() {
        return Err(Unread::Form);
    }
    expect(r, b" ", Unread::Form)?;
    Ok(number)
}

/// Reads the first line, and answers the numbers of bits and probes.
fn read_header<R: Read>(r: &mut R, pair: &[u8]) -> Result<(u64, u32), Unread>
    ensures read { IfOk result (λ found. Consumes (R.remaining r.old) (R.remaining r.new)
        (header found.0 found.1 pair.now)) }
    ensures refused { IfErr result (λ why. IsRefusal why → (bits probes : ℕ) → bits < 2 ^ 64 → probes < 2 ^ 32
        → BeginsNot (R.remaining r.old) (header bits probes pair.now)) }
{
    read_title(r)?;
    let bits = read_field::<R, 16>(r)?;
    let probes = read_field::<R, 8>(r)?;
    expect(r, pair, Unread::Pair)?;
    expect(r, b"\n", Unread::Pair)?;
    Ok((bits as u64, probes as u32))
}

/// The word of eight bytes.
fn word_of(bytes: &[u8; 8]) -> u64
    ensures { to_le_bytes w64 result ≡ bytes.now }
{
    u64::from_le_bytes(*bytes)
}

/// Reads so many words. Memory is asked for as they come.
fn read_words<R: Read>(alloc: Global, r: &mut R, count: u64) -> io::Result<Vec<u64>>
    ensures count { IfOk result (λ words. length words.items ≡ count) }
    ensures read { IfOk result (λ words. Consumes (R.remaining r.old) (R.remaining r.new) (bytes_of words.items)) }
{
    let mut words = Vec::new(alloc);
    for _ in 0..count {
        let mut bytes = [0u8; 8];
        r.read_exact(&mut bytes)?;
        words.push(word_of(&bytes))?;
    }
    Ok(words)
}

/// Writes all of the bytes. After a fault a beginning of them was written.
fn write_bytes<W: Write>(w: &mut W, bytes: &[u8]) -> io::Result<()>
    ensures ok { OnOk result (Appends (W.contents w.old) (W.contents w.new) bytes.now) }
    ensures err { OnErr result (AppendsPart (W.contents w.old) (W.contents w.new) bytes.now) }
{
    match write_all::<W, ()>(w, bytes, TRIES) {
        Ok(()) => Ok(()),
        Err(Failure::Unwritten(Some(error))) => Err(error),
        Err(_) => Err(Error::from(ErrorKind::WriteZero)),
    }
}

/// Writes the first line, the words, and their hash. After a fault a beginning of these was written.
fn write_sealed<W: Write>(w: &mut W, line: &[u8], words: &[u64]) -> io::Result<()>
    ensures ok { OnOk result (Appends (W.contents w.old) (W.contents w.new) (sealed (line.now ++ bytes_of words.now))) }
    ensures err { OnErr result (AppendsPart (W.contents w.old) (W.contents w.new)
        (sealed (line.now ++ bytes_of words.now))) }
    ensures words { (i : ℕ) → slice_index words.now i < 2 ^ 64 }
{
    write_bytes(w, line)?;
    for word in words {
        write_bytes(w, &word.to_le_bytes())?;
    }
    write_bytes(w, &seal(line, words))
}

/// What a file tells of a filter.
#[derive(Drop)]
struct Stored {
    words: Vec<u64>,
    bits: u64,
    probes: u32,
}

/// Reads a file, and sees to all but that these are the words of a filter.
fn read_sealed<R: Read>(alloc: Global, r: &mut R, pair: &[u8]) -> Result<Stored, Unread>
    ensures read { IfOk result (λ found. Consumes (R.remaining r.old) (R.remaining r.new)
        (file_of pair.now (filter_of found.bits found.probes found.words.items))) }
    ensures same { IfOk result (λ found. (filter : Filter) → IsStored filter → (rest : List ℕ)
        → R.remaining r.old ≡ Some (file_of pair.now filter ++ rest)
        → filter_of found.bits found.probes found.words.items ≡ filter) }
    ensures words { IfOk result (λ found. (i : ℕ) → slice_index found.words.items i < 2 ^ 64) }
    ensures refused { IfErr result (λ why. IsRefusal why → (filter : Filter) → IsStored filter
        → BeginsNot (R.remaining r.old) (file_of pair.now filter)) }
{
    let (bits, probes) = read_header(r, pair)?;
    let words = read_words(alloc, r, bits.div_ceil(64))?;
    let line = header(alloc, bits, probes, pair)?;
    expect(r, &seal(&line, &words), Unread::Hash)?;
    Ok(Stored {
        words,
        bits,
        probes,
    })
}

impl<F: Piecewise, G: Piecewise> Bloom<F, G> {
    /// Writes the filter's file, with the names of its two hashers as they are to be asked for when it is read. The first line, each
    /// word and the hash are written one by one: give it a `BufWriter`, and flush that. After a fault a beginning of the file is
    /// written.
    pub fn write_to<W: Write>(&self, w: &mut W, pair: &str) -> io::Result<()>
        ensures ok { OnOk result (Appends (W.contents w.old) (W.contents w.new) (file_of pair.now self.now)) }
        ensures err { OnErr result (AppendsPart (W.contents w.old) (W.contents w.new) (file_of pair.now self.now)) }
        ensures stored { OnOk result (IsStored self.now) }
    {
        let alloc = *self.words.allocator();
        let line = header(alloc, self.bits, self.probes, pair.as_bytes())?;
        write_sealed(w, &line, &self.words)
    }

    /// Reads the file of a filter over hashers of these names, which the types have to agree with. What was read is exactly the file of
    /// the filter, so what was written is read back; what stands behind it is not read. It is refused only where no filter of this
    /// pair stands there. Memory is asked for as words arrive. It reads 16 bytes at a time and less: give it a `BufReader`.
    pub fn read_from<R: Read>(alloc: Global, r: &mut R, pair: &str) -> Result<Self, Unread>
        ensures read { IfOk result (λ filter. Consumes (R.remaining r.old) (R.remaining r.new)
            (file_of pair.now filter)) }
        ensures stored { IfOk result IsStored }
        ensures refused { IfErr result (λ why. IsRefusal why → (filter : Filter) → IsStored filter
            → BeginsNot (R.remaining r.old) (file_of pair.now filter)) }
    {
        let found = read_sealed(alloc, r, pair.as_bytes())?;
        match Bloom::from_words(found.words, found.bits, found.probes) {
            Ok(filter) => Ok(filter),
            Err(NoFilter { words: _ }) => Err(Unread::Form),
        }
    }
}

/// The law that a file tells its filter, with no code: where two files of one pair stand at the beginning of the same bytes, they are of one
/// filter. So what `read_from` answers to a file that `write_to` wrote is the filter that was written.
#[tactic(auto, using(crate::proofs::FileLemmas::same_file))]
pub fn a_file_tells_its_filter()
    ensures { (pair : List ℕ) (filter other : Filter) (rest more : List ℕ) → IsStored filter → IsStored other
        → file_of pair filter ++ rest ≡ file_of pair other ++ more → filter ≡ other }
{}
