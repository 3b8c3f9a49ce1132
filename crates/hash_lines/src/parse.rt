//! Lines that tell the hash of a file, as they are read.
ghost use Rattle.std.specs.Prelude.{◌≡◌, ◌≢◌, ◌⊎◌, ◌++◌, ◌<◌, ◌≤◌, ℕ, List, length, codes, IfOk, MatchOption};
ghost use Rattle.hash_lines.specs.Line.{ShowsNumber, ShowsTagged, ShowsUntagged};
ghost use Rattle.hash_lines.specs.Told.{Finds, FindsShown, IsShown, Tells, TellsBody, TellsEscaped, TellsOf, TellsTagged, TellsUntagged};

use crate::escape::unescaped;
use crate::sums::Sum;
use std::alloc::{AllocError, Global};
use streams::hex::{MOST_DIGITS, hex_number};

/// What a line tells.
#[derive(Drop)]
pub struct HashLine {
    /// Which hash.
    pub kind: Sum,
    /// Of which file.
    pub name: Vec<u8>,
    /// What it is.
    pub number: u128,
}

/// What stands behind the front in the bytes; `None` exactly where they do not begin with it.
pub fn behind<'a>(bytes: &'a [u8], front: &[u8]) -> Option<&'a [u8]>
    ensures { MatchOption result ((rest : List ℕ) → front.now ++ rest ≢ bytes.now)
        (λ rest. front.now ++ rest.now ≡ bytes.now) }
{
    if bytes.len() < front.len() {
        return None;
    }
    let (begin, rest) = bytes.split_at(front.len());
    if begin == front { Some(rest) } else { None }
}

/// The first so many bytes, and what stands behind them; `None` exactly where there are fewer.
fn split_first(bytes: &[u8], count: usize) -> Option<(&[u8], &[u8])>
    ensures { MatchOption result (length bytes.now < count)
        (λ parts. (parts.0.now ++ parts.1.now ≡ bytes.now) × (length parts.0.now ≡ count)) }
{
    if bytes.len() < count {
        return None;
    }
    Some(bytes.split_at(count))
}

/// What stands in front of the last so many bytes, and these; `None` exactly where there are fewer.
pub(crate) fn split_last(bytes: &[u8], count: usize) -> Option<(&[u8], &[u8])>
    ensures { MatchOption result (length bytes.now < count)
        (λ parts. (parts.0.now ++ parts.1.now ≡ bytes.now) × (length parts.1.now ≡ count)) }
{
    if bytes.len() < count {
        return None;
    }
    Some(bytes.split_at(bytes.len() - count))
}

/// The number of so many digits.
fn number_of(count: usize, digits: &[u8]) -> Option<u128>
    requires { count ≤ MOST_DIGITS }
    ensures { MatchOption result ((number : ℕ) → ¬ (ShowsNumber count number digits.now))
        (λ number. ShowsNumber count number digits.now) }
{
    if digits.len() != count {
        return None;
    }
    hex_number(digits)
}

/// What stands behind the tag and ` (`.
fn behind_tag<'a>(tag: &[u8], body: &'a [u8]) -> Option<&'a [u8]>
    ensures { MatchOption result ((rest : List ℕ) → tag.now ++ (codes " (" ++ rest) ≢ body.now)
        (λ rest. tag.now ++ (codes " (" ++ rest.now) ≡ body.now) }
{
    behind(behind(body, tag)?, b" (")
}

/// What stands in front of `) = `, and so many digits behind it.
fn around_mark(rest: &[u8], count: usize) -> Option<(&[u8], &[u8])>
    ensures { MatchOption result ((shown digits : List ℕ) → length digits ≡ count
        → shown ++ (codes ") = " ++ digits) ≢ rest.now)
        (λ parts. (length parts.1.now ≡ count) × (parts.0.now ++ (codes ") = " ++ parts.1.now) ≡ rest.now)) }
{
    let (front, digits) = split_last(rest, count)?;
    let (shown, mark) = split_last(front, 4)?;
    if mark == b") = ".as_slice() {
        Some((shown, digits))
    } else {
        None
    }
}

/// What stands behind two spaces, or a space and a star.
fn behind_spaces(rest: &[u8]) -> Option<&[u8]>
    ensures { MatchOption result ((shown : List ℕ) → ¬ ((codes "  " ++ shown ≡ rest.now)
        ⊎ (codes " *" ++ shown ≡ rest.now)))
        (λ shown. (codes "  " ++ shown.now ≡ rest.now) ⊎ (codes " *" ++ shown.now ≡ rest.now)) }
{
    if let Some(shown) = behind(rest, b"  ") {
        return Some(shown);
    }
    behind(rest, b" *")
}

/// The name as it is shown, and the number of so many digits, in a tagged line without its mark.
fn tagged_parts<'a>(tag: &[u8], count: usize, body: &'a [u8]) -> Option<(&'a [u8], u128)>
    requires { count ≤ MOST_DIGITS }
    ensures { MatchOption result ((shown : List ℕ) (number : ℕ)
        → ¬ (ShowsTagged tag.now count shown number body.now))
        (λ parts. ShowsTagged tag.now count parts.0.now parts.1 body.now) }
{
    let (shown, digits) = around_mark(behind_tag(tag, body)?, count)?;
    Some((shown, number_of(count, digits)?))
}

/// The name as it is shown, and the number of so many digits, in an untagged line without its mark.
fn untagged_parts(count: usize, body: &[u8]) -> Option<(&[u8], u128)>
    requires { count ≤ MOST_DIGITS }
    ensures { MatchOption result ((shown : List ℕ) (number : ℕ) → ¬ (ShowsUntagged count shown number body.now))
        (λ parts. ShowsUntagged count parts.0.now parts.1 body.now) }
{
    let (digits, rest) = split_first(body, count)?;
    let shown = behind_spaces(rest)?;
    Some((shown, number_of(count, digits)?))
}

/// The name that is shown so, with escapes or without. It has some byte.
fn name_of(alloc: Global, escapes: bool, shown: &[u8]) -> Result<Option<Vec<u8>>, AllocError>
    ensures { IfOk result (λ found. MatchOption found ((name : List ℕ) → ¬ (IsShown escapes name shown.now))
        (λ name. IsShown escapes name.items shown.now)) }
{
    if shown.is_empty() {
        return Ok(None);
    }
    if escapes {
        unescaped(alloc, shown)
    } else {
        Ok(Some(Vec::from_slice(alloc, shown)?))
    }
}

/// What these parts of a line tell.
fn entry_of(
    alloc: Global,
    kind: Sum,
    escapes: bool,
    shown: &[u8],
    number: u128,
) -> Result<Option<HashLine>, AllocError>
    ensures { IfOk result (FindsShown kind number escapes shown.now) }
{
    match name_of(alloc, escapes, shown)? {
        Some(name) => Ok(Some(HashLine { kind, name, number })),
        None => Ok(None),
    }
}

/// What a tagged line of this kind tells, without its mark.
fn tagged_entry(
    alloc: Global,
    kind: Sum,
    escapes: bool,
    body: &[u8],
) -> Result<Option<HashLine>, AllocError>
    ensures { IfOk result (Finds (TellsOf kind TellsTagged escapes) body.now) }
{
    match tagged_parts(kind.name().as_bytes(), kind.width().digits(), body) {
        Some((shown, number)) => entry_of(alloc, kind, escapes, shown, number),
        None => Ok(None),
    }
}

/// What an untagged line of this kind tells, without its mark.
fn untagged_entry(
    alloc: Global,
    kind: Sum,
    escapes: bool,
    body: &[u8],
) -> Result<Option<HashLine>, AllocError>
    ensures { IfOk result (Finds (TellsOf kind TellsUntagged escapes) body.now) }
{
    match untagged_parts(kind.width().digits(), body) {
        Some((shown, number)) => entry_of(alloc, kind, escapes, shown, number),
        None => Ok(None),
    }
}

/// What a line tells, without its mark.
fn body_entry(
    alloc: Global,
    kinds: &[Sum],
    kind: Sum,
    escapes: bool,
    body: &[u8],
) -> Result<Option<HashLine>, AllocError>
    ensures { IfOk result (Finds (TellsBody kinds.now kind escapes) body.now) }
{
    for tagged in kinds {
        if let Some(entry) = tagged_entry(alloc, *tagged, escapes, body)? {
            return Ok(Some(entry));
        }
    }
    untagged_entry(alloc, kind, escapes, body)
}

/// What a line tells that begins with a backslash.
fn escaped_entry(
    alloc: Global,
    kinds: &[Sum],
    kind: Sum,
    line: &[u8],
) -> Result<Option<HashLine>, AllocError>
    ensures { IfOk result (Finds (TellsEscaped kinds.now kind) line.now) }
{
    match behind(line, b"\\") {
        Some(body) => body_entry(alloc, kinds, kind, true, body),
        None => Ok(None),
    }
}

/// What a line tells, without its end: of which file the hash of one of these kinds is which number. In a line that is not tagged
/// it is the one kind. `None` exactly where it is no such line. The digits may be of either case, and a line that is not tagged
/// may have a star for its second space, as sha256sum writes it. A line that begins with a backslash has escapes. A line without a
/// name is no such line.
pub fn parse_line(
    alloc: Global,
    kinds: &[Sum],
    kind: Sum,
    line: &[u8],
) -> Result<Option<HashLine>, AllocError>
    ensures { IfOk result (Finds (Tells kinds.now kind) line.now) }
{
    match escaped_entry(alloc, kinds, kind, line)? {
        Some(entry) => Ok(Some(entry)),
        None => body_entry(alloc, kinds, kind, false, line),
    }
}
