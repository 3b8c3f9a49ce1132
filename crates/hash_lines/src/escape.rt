//! Names in a line, where the bytes that end or open a line are escaped, as GNU's cksum does: a newline is `\n`, a carriage return
//! `\r` and a backslash `\\`.
ghost use Rattle.std.specs.Prelude.{◌≡◌, ◌≢◌, ◌++◌, ◌<◌, ℕ, List, length, IfOk, OnOk, MatchOption};
ghost use Rattle.hash_lines.specs.Escape.{escape, escaped_byte, letter, needs_escape, original};

use std::alloc::{AllocError, Global};

/// The byte that begins an escape.
const BACKSLASH: u8 = b'\\';

/// The letter behind the backslash of a byte that is escaped.
fn letter(byte: u8) -> Option<u8>
    ensures { result ≡ letter byte }
{
    match byte {
        b'\n' => Some(b'n'),
        b'\r' => Some(b'r'),
        BACKSLASH => Some(BACKSLASH),
        _ => None,
    }
}

/// The byte that has this letter behind its backslash.
fn original(letter: u8) -> Option<u8>
    ensures { result ≡ original letter }
{
    match letter {
        b'n' => Some(b'\n'),
        b'r' => Some(b'\r'),
        BACKSLASH => Some(BACKSLASH),
        _ => None,
    }
}

/// Whether a name has a byte that is escaped.
pub fn needs_escape(name: &[u8]) -> bool
    ensures { result ≡ needs_escape name.now }
{
    name.iter().any(|byte| letter(*byte).is_some())
}

/// Writes a byte of a name behind a text, escaped.
fn push_byte(text: &mut Vec<u8>, byte: u8) -> Result<(), AllocError>
    ensures { OnOk result (text.new.items ≡ text.old.items ++ escaped_byte byte) }
{
    if let Some(letter) = letter(byte) {
        text.push(BACKSLASH)?;
        text.push(letter)?;
    } else {
        text.push(byte)?;
    }
    Ok(())
}

/// Writes a name behind a text, escaped.
pub fn push_escaped(text: &mut Vec<u8>, name: &[u8]) -> Result<(), AllocError>
    ensures { OnOk result (text.new.items ≡ text.old.items ++ escape name.now) }
{
    for byte in name {
        push_byte(text, *byte)?;
    }
    Ok(())
}

/// The byte that a shown name begins with, and what is shown behind it; `None` exactly where no escaped name begins so.
fn first_byte(shown: &[u8]) -> Option<(u8, &[u8])>
    ensures { MatchOption result ((byte : ℕ) (more : List ℕ) → escaped_byte byte ++ more ≢ shown.now)
        (λ first. (escaped_byte first.0 ++ first.1.now ≡ shown.now) × (length first.1.now < length shown.now)) }
{
    match shown {
        [] => None,
        [BACKSLASH, letter, more @ ..] => match original(*letter) {
            Some(byte) => Some((byte, more)),
            None => None,
        },
        [byte, more @ ..] => {
            if letter(*byte).is_some() {
                None
            } else {
                Some((*byte, more))
            }
        }
    }
}

/// The name that is escaped so; `None` exactly where there is none.
pub fn unescaped(alloc: Global, shown: &[u8]) -> Result<Option<Vec<u8>>, AllocError>
    ensures { IfOk result (λ found. MatchOption found
        ((name : List ℕ) → escape name ≢ shown.now) (λ name. escape name.items ≡ shown.now)) }
{
    let mut name = Vec::new(alloc);
    let mut rest = shown;
    while !rest.is_empty() {
        let Some((byte, more)) = first_byte(rest) else {
            return Ok(None);
        };
        name.push(byte)?;
        rest = more;
    }
    Ok(Some(name))
}
