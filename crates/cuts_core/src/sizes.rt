//! The sizes of chunks that a call asks for.
ghost use Rattle.std.specs.Prelude.{◌≡◌, codes};
ghost use Rattle.std.specs.Option.{option_map};
ghost use Rattle.cli.specs.Call.{sayings, value_of};
ghost use Rattle.cuts_core.specs.Sizes.{average_behind, behind, binary, fallen, given_or, in_units, leading, name_of, no_size, size_of, sizes_of, thousands, unit_of};

use cli::call::Call;
use cli::numbers::number_of;

/// How many bytes a chunk has at least, on average behind these, and at most.
#[derive(Clone, Copy)]
pub struct Sizes {
    /// At least.
    pub least: usize,
    /// After these about one place in this number is a boundary, if the bytes look random.
    pub average: usize,
    /// At most.
    pub most: usize,
}

/// One of these.
#[derive(Clone, Copy, Debug, Drop)]
pub enum Size {
    /// The fewest bytes.
    Least,
    /// The average.
    Average,
    /// The most bytes.
    Most,
}

/// The average if none is given.
const AVERAGE: usize = 65536;

/// The fewest bytes that a chunk may have.
const FEWEST: usize = 64;

/// So many times a unit, if that is below 2^64.
fn in_units(digits: &[u8], unit: usize) -> Option<usize>
    ensures { result ≡ in_units digits.now unit }
{
    let number = number_of(digits)?;
    number.checked_mul(unit)
}

/// How many bytes a letter stands for, by powers of 1024.
fn binary(letter: u8) -> Option<usize>
    ensures { result ≡ binary letter }
{
    match letter {
        b'K' | b'k' => Some(1 << 10),
        b'M' | b'm' => Some(1 << 20),
        b'G' => Some(1 << 30),
        b'T' => Some(1 << 40),
        b'P' => Some(1 << 50),
        b'E' => Some(1 << 60),
        _ => None,
    }
}

/// How many bytes a letter stands for, by powers of 1000.
fn thousands(letter: u8) -> Option<usize>
    ensures { result ≡ thousands letter }
{
    match letter {
        b'K' | b'k' => Some(1_000),
        b'M' | b'm' => Some(1_000_000),
        b'G' => Some(1_000_000_000),
        b'T' => Some(1_000_000_000_000),
        b'P' => Some(1_000_000_000_000_000),
        b'E' => Some(1_000_000_000_000_000_000),
        _ => None,
    }
}

/// The unit that stands behind digits, as GNU's programs take it: none, `K` or `KiB` for 1024, `KB` for 1000, and so for the other letters.
fn unit_of(suffix: &[u8]) -> Option<usize>
    ensures { result ≡ unit_of suffix.now }
{
    match suffix {
        [] => Some(1),
        [letter] => binary(*letter),
        [letter, b'B'] => thousands(*letter),
        [letter, b'i', b'B'] => binary(*letter),
        _ => None,
    }
}

/// The digits that a word begins with, and what stands behind them.
fn split_digits(word: &[u8]) -> (&[u8], &[u8])
    ensures digits { result.0.now ≡ leading word.now }
    ensures rest { result.1.now ≡ behind word.now }
{
    for at in 0..word.len() {
        if !word[at].is_ascii_digit() {
            return (&word[..at], &word[at..]);
        }
    }
    (word, b"")
}

/// How many bytes a word says: digits, and a unit behind them.
fn size_of(word: &[u8]) -> Option<usize>
    ensures { result ≡ size_of word.now }
{
    let (digits, suffix) = split_digits(word);
    match unit_of(suffix) {
        Some(unit) => in_units(digits, unit),
        None => None,
    }
}

/// The size that a call gives by this option, or the default; `None` if what it gives is none.
fn given_or(call: &Call<'_>, name: &[u8], default: usize) -> Option<usize>
    ensures { result ≡ given_or (sayings call.now.said.items) name.now default }
{
    match call.value(name) {
        Some(word) => size_of(word),
        None => Some(default),
    }
}

/// The average if a call gives none: 64 K bytes, or four times the least if that is more.
fn usual_average(call: &Call<'_>) -> usize
    ensures { result ≡ average_behind (given_or (sayings call.now.said.items) (codes "least") 0) }
{
    match given_or(call, b"least", 0) {
        Some(least) if least > AVERAGE => least.saturating_mul(4),
        _ => AVERAGE,
    }
}

/// The sizes that a call asks for, `None` if a value is none.
pub fn sizes_of(call: &Call<'_>) -> Option<Sizes>
    ensures { result ≡ sizes_of (sayings call.now.said.items) }
{
    let average = given_or(call, b"average", usual_average(call))?;
    let least = given_or(call, b"least", (average / 4).max(FEWEST))?;
    let most = given_or(call, b"most", average.saturating_mul(4))?;
    Some(Sizes {
        least,
        average,
        most,
    })
}

/// The first size that a call gives as what is none.
pub(crate) fn no_size(call: &Call<'_>) -> Size
    ensures { result ≡ no_size (sayings call.now.said.items) }
{
    if given_or(call, b"average", 0).is_none() {
        Size::Average
    } else if given_or(call, b"least", 0).is_none() {
        Size::Least
    } else {
        Size::Most
    }
}

/// The first of the sizes that is below 64, or below the one before it.
pub(crate) fn fallen(sizes: Sizes) -> Option<Size>
    ensures { result ≡ fallen sizes }
{
    if sizes.least < FEWEST {
        return Some(Size::Least);
    }
    if sizes.average < sizes.least {
        return Some(Size::Average);
    }
    if sizes.most < sizes.average {
        return Some(Size::Most);
    }
    None
}

/// What a call gives as this size.
pub(crate) fn given<'a>(call: &Call<'a>, size: Size) -> Option<&'a [u8]>
    ensures { option_map (λ word. word.now) result ≡ value_of (name_of size) (sayings call.now.said.items) }
{
    match size {
        Size::Least => call.value(b"least"),
        Size::Average => call.value(b"average"),
        Size::Most => call.value(b"most"),
    }
}
