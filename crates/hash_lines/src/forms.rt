//! Lines as other programs write them: as `md5sum` does with one blank, as `openssl dgst` does, and as SFV files have them.
ghost use Rattle.std.specs.Prelude.{◌≡◌, ◌++◌, ◌∷◌, ℕ, List, codes, map, true, false, is_some, IfOk, MatchOption, OnOk};
ghost use Rattle.std.specs.Char.{to_ascii_lowercase};
ghost use Rattle.std.specs.List.{list_all};
ghost use Rattle.streams.specs.Hex.{digit_value};
ghost use Rattle.hash_lines.specs.Forms.{is_long, is_sum, unmarked, EndsInDigits, FindsForm, FindsOf, HasCrc, HasTag, HasWord, IsBlankForm, IsForm, IsSfvForm, IsTaggedForm, Lacks, TellsIn, TellsSo};
ghost use Rattle.hash_lines.specs.Told.{Finds, Tells};
ghost use Rattle.hash_lines.specs.Line.{tagged, untagged};

use crate::parse::{HashLine, behind, parse_line, split_last};
use crate::sums::Sum;
use std::alloc::{AllocError, Global};
use streams::hex::{MOST_DIGITS, digit_value};

/// How many digits the CRC-32 of a line of an SFV file has.
const SFV_DIGITS: usize = 8;

/// What stands in front of the first such byte, and behind it; `None` exactly where there is none.
fn split_once(bytes: &[u8], mark: u8) -> Option<(&[u8], &[u8])>
    ensures { MatchOption result (Lacks mark bytes.now)
        (λ parts. (parts.0.now ++ mark ∷ parts.1.now ≡ bytes.now) × Lacks mark parts.0.now) }
{
    for at in 0..bytes.len() {
        if bytes[at] == mark {
            return Some((&bytes[..at], &bytes[at + 1..]));
        }
    }
    None
}

/// What stands in front of the last such byte, and behind it; `None` exactly where there is none.
fn rsplit_once(bytes: &[u8], mark: u8) -> Option<(&[u8], &[u8])>
    ensures { MatchOption result (Lacks mark bytes.now)
        (λ parts. (parts.0.now ++ mark ∷ parts.1.now ≡ bytes.now) × Lacks mark parts.1.now) }
{
    let mut at = bytes.len();
    while at > 0 {
        at -= 1;
        if bytes[at] == mark {
            return Some((&bytes[..at], &bytes[at + 1..]));
        }
    }
    None
}

/// The first word, and what stands behind the blank that ends it; `None` exactly where there is no blank.
fn first_word(line: &[u8]) -> Option<(&[u8], &[u8])>
    ensures { MatchOption result ((word behind : List ℕ) → ¬ (HasWord line.now word behind))
        (λ parts. HasWord line.now parts.0.now parts.1.now) }
{
    for at in 0..line.len() {
        if line[at].is_ascii_whitespace() {
            return Some((&line[..at], &line[at + 1..]));
        }
    }
    None
}

/// The tag, the name as it is shown, and what stands behind the marks, in a line in the shape of a tagged one; `None` exactly where it has
/// another.
fn tag_parts(line: &[u8]) -> Option<(&[u8], &[u8], &[u8])>
    ensures { MatchOption result ((tag shown digits : List ℕ) → ¬ (HasTag line.now tag shown digits))
        (λ parts. HasTag line.now parts.0.now parts.1.now parts.2.now) }
{
    let (front, later) = split_once(line, b'(')?;
    let (shown, back) = rsplit_once(later, b')')?;
    let value = behind(back.trim_ascii_start(), b"=")?;
    Some((front.trim_ascii_end(), shown, value.trim_ascii_start()))
}

/// Puts the bytes in lower case behind others.
fn push_lowercase(line: &mut Vec<u8>, bytes: &[u8]) -> Result<(), AllocError>
    ensures { OnOk result (line.new.items ≡ line.old.items ++ map to_ascii_lowercase bytes.now) }
{
    for byte in bytes {
        line.push(byte.to_ascii_lowercase())?;
    }
    Ok(())
}

/// The tagged line of these parts.
fn tagged_of(alloc: Global, tag: &[u8], shown: &[u8], digits: &[u8]) -> Result<Vec<u8>, AllocError>
    ensures { IfOk result (λ line. tagged (map to_ascii_lowercase tag.now) shown.now digits.now ≡ line.items) }
{
    let mut line = Vec::new(alloc);
    push_lowercase(&mut line, tag)?;
    line.extend_from_slice(b" (")?;
    line.extend_from_slice(shown)?;
    line.extend_from_slice(b") = ")?;
    line.extend_from_slice(digits)?;
    Ok(line)
}

/// The line of a CRC-32 of these parts.
fn crc_line(alloc: Global, shown: &[u8], digits: &[u8]) -> Result<Vec<u8>, AllocError>
    ensures { IfOk result (λ line. tagged (codes "crc32") shown.now digits.now ≡ line.items) }
{
    tagged_of(alloc, b"crc32", shown, digits)
}

/// The untagged line of these parts.
fn untagged_of(alloc: Global, digits: &[u8], shown: &[u8]) -> Result<Vec<u8>, AllocError>
    ensures { IfOk result (λ line. untagged shown.now digits.now ≡ line.items) }
{
    let mut line = Vec::new(alloc);
    line.extend_from_slice(digits)?;
    line.extend_from_slice(b"  ")?;
    line.extend_from_slice(shown)?;
    Ok(line)
}

/// The tagged line that tells the same, of a line with other blanks round its marks.
fn tagged_form(alloc: Global, line: &[u8]) -> Result<Option<Vec<u8>>, AllocError>
    ensures { IfOk result (FindsForm IsTaggedForm line.now) }
{
    match tag_parts(line) {
        Some((tag, shown, digits)) => Ok(Some(tagged_of(alloc, tag, shown, digits)?)),
        None => Ok(None),
    }
}

/// The name behind a blank, without the space or the star in front of it, if one is there.
fn shown_behind(behind: &[u8]) -> &[u8]
    ensures { result.now ≡ unmarked behind.now }
{
    match behind {
        [b' ' | b'*', shown @ ..] => shown,
        _ => behind,
    }
}

/// The untagged line that tells the same, of a line with one blank.
fn blank_form(alloc: Global, line: &[u8]) -> Result<Option<Vec<u8>>, AllocError>
    ensures { IfOk result (FindsForm IsBlankForm line.now) }
{
    match first_word(line) {
        Some((digits, behind)) => Ok(Some(untagged_of(alloc, digits, shown_behind(behind))?)),
        None => Ok(None),
    }
}

/// Whether each byte is a hexadecimal digit.
fn are_digits(bytes: &[u8]) -> bool
    ensures { result ≡ list_all (λ byte. is_some (digit_value byte)) bytes.now }
{
    bytes.iter().all(|byte| digit_value(*byte).is_some())
}

/// Whether a word is a number with at least as many digits as the longest of ours.
fn is_long(digits: &[u8]) -> bool
    ensures { result ≡ is_long digits.now }
{
    digits.len() >= MOST_DIGITS && are_digits(digits)
}

/// Whether a word is the number of a hash in an untagged line of md5sum, sha256sum and the like.
fn is_sum(word: &[u8]) -> bool
    ensures { result ≡ is_sum word.now }
{
    match word {
        [] => false,
        [b'\\', digits @ ..] => is_long(digits),
        _ => is_long(word),
    }
}

/// Whether a line begins with such a number and a blank.
fn begins_with_sum(line: &[u8]) -> bool
    ensures none { result ≡ false → (word behind : List ℕ) → HasWord line.now word behind
        → is_sum word ≡ false }
    ensures some { result ≡ true → (word : List ℕ) × (behind : List ℕ) × HasWord line.now word behind
        × (is_sum word ≡ true) }
{
    match first_word(line) {
        Some((word, _)) => is_sum(word),
        None => false,
    }
}

/// What stands in front of the last eight bytes, without the blanks in front of these, and these; `None` exactly where there are fewer, or
/// no blank.
fn before_digits(line: &[u8]) -> Option<(&[u8], &[u8])>
    ensures { MatchOption result ((shown digits : List ℕ) → ¬ (EndsInDigits line.now shown digits))
        (λ parts. EndsInDigits line.now parts.0.now parts.1.now) }
{
    let (front, digits) = split_last(line, SFV_DIGITS)?;
    let shown = front.trim_ascii_end();
    if shown.len() < front.len() {
        Some((shown, digits))
    } else {
        None
    }
}

/// The name as it is shown, and the digits, in a line of an SFV file.
fn sfv_parts(line: &[u8]) -> Option<(&[u8], &[u8])>
    ensures { MatchOption result ((shown digits : List ℕ) → ¬ (HasCrc line.now shown digits))
        (λ parts. HasCrc line.now parts.0.now parts.1.now) }
{
    match tag_parts(line) {
        Some(_) => None,
        None => {
            if begins_with_sum(line) {
                None
            } else {
                before_digits(line)
            }
        }
    }
}

/// The tagged line that tells the same, of a line of an SFV file.
fn sfv_form(alloc: Global, line: &[u8]) -> Result<Option<Vec<u8>>, AllocError>
    ensures { IfOk result (FindsForm IsSfvForm line.now) }
{
    match sfv_parts(line) {
        Some((shown, digits)) => Ok(Some(crc_line(alloc, shown, digits)?)),
        None => Ok(None),
    }
}

/// What a line of ours tells, if there is one.
fn plain_entry(
    alloc: Global,
    kinds: &[Sum],
    kind: Sum,
    plain: Option<Vec<u8>>,
) -> Result<Option<HashLine>, AllocError>
    ensures { IfOk result (FindsOf (Finds (Tells kinds.now kind)) plain) }
{
    match plain {
        Some(plain) => parse_line(alloc, kinds, kind, &plain),
        None => Ok(None),
    }
}

/// What a line without blanks in front tells, as one of ours or in another form, but for that of SFV files.
fn form_entry(
    alloc: Global,
    kinds: &[Sum],
    kind: Sum,
    line: &[u8],
) -> Result<Option<HashLine>, AllocError>
    ensures { IfOk result (Finds (TellsIn IsForm kinds.now kind) line.now) }
{
    if let Some(entry) = parse_line(alloc, kinds, kind, line)? {
        return Ok(Some(entry));
    }
    if let Some(entry) = plain_entry(alloc, kinds, kind, tagged_form(alloc, line)?)? {
        return Ok(Some(entry));
    }
    plain_entry(alloc, kinds, kind, blank_form(alloc, line)?)
}

/// What a line tells in another program's form, without its end: with blanks in front, one blank behind the digits, other blanks or none
/// round the marks of a tagged line, a tag in letters of either case, or, where lines of SFV files are taken, as such a line. It is for
/// lines of which `parse_line` finds nothing: a line of ours is never read as another program's. `None` exactly where it tells nothing in
/// any form.
pub fn parse_form(
    alloc: Global,
    kinds: &[Sum],
    kind: Sum,
    sfv: bool,
    line: &[u8],
) -> Result<Option<HashLine>, AllocError>
    ensures { IfOk result (Finds (TellsSo sfv kinds.now kind) line.now) }
{
    let rest = line.trim_ascii_start();
    if let Some(entry) = form_entry(alloc, kinds, kind, rest)? {
        return Ok(Some(entry));
    }
    if sfv {
        return plain_entry(alloc, kinds, kind, sfv_form(alloc, rest)?);
    }
    Ok(None)
}
