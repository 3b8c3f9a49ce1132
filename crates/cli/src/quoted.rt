//! Names as they stand on standard error.
use std::alloc::{AllocError, Global};

/// Whether a character stands for itself in a shell only in quotes, wherever it is in a word.
fn is_special(c: char) -> bool {
    c.is_control()
        || matches!(
            c,
            ' ' | '!'
                | '"'
                | '$'
                | '&'
                | '\''
                | '('
                | ')'
                | '*'
                | ':'
                | ';'
                | '<'
                | '='
                | '>'
                | '?'
                | '['
                | '\\'
                | '^'
                | '`'
                | '|'
        )
}

/// Whether a shell reads a word as another than it is.
fn needs_quotes(text: &str) -> bool {
    matches!(text, "" | "{" | "}")
        || text.starts_with('#')
        || text.starts_with('~')
        || text.chars().any(is_special)
}

/// Whether a character behind the first of a word stands for itself between double quotes, and is not escaped there.
fn is_plain(c: char) -> bool {
    !matches!(c, '#' | '~' | '{' | '}') && (matches!(c, ' ' | '\'' | ':') || !is_special(c))
}

/// Whether a text is quoted by double quotes: it has a single quote, and nothing that would have to be escaped there.
fn is_double_quoted(text: &str) -> bool {
    let behind_first = text
        .strip_prefix('#')
        .or(text.strip_prefix('~'))
        .unwrap_or(text);
    text.contains('\'') && behind_first.chars().all(is_plain)
}

/// Puts a byte as it stands between `$'` and `'`: in octal.
fn push_octal(out: &mut String, alloc: Global, byte: u8) -> Result<(), AllocError> {
    out.push_str(format!(in alloc; "\\{byte:03o}")?.as_str())
}

/// Puts a control character as it stands between `$'` and `'`: by its letter, or else by its bytes.
fn push_control(out: &mut String, alloc: Global, c: char) -> Result<(), AllocError> {
    match c {
        '\u{7}' => return out.push_str("\\a"),
        '\u{8}' => return out.push_str("\\b"),
        '\t' => return out.push_str("\\t"),
        '\n' => return out.push_str("\\n"),
        '\u{b}' => return out.push_str("\\v"),
        '\u{c}' => return out.push_str("\\f"),
        '\r' => return out.push_str("\\r"),
        _ => {}
    }
    let mut bytes = [0u8; 4];
    for byte in c.encode_utf8(&mut bytes).bytes() {
        push_octal(out, alloc, byte)?;
    }
    Ok(())
}

/// Opens an escaped part, which stands between `$'` and `'`, or closes one, where what comes next is not as what came before.
fn turn(out: &mut String, escaped: bool, escapes: bool) -> Result<(), AllocError> {
    if escaped == escapes {
        return Ok(());
    }
    out.push_str(if escapes { "'$'" } else { "''" })
}

/// Puts a text as it stands in quotes, behind an escaped part or not. Returns whether it ends with one.
fn push_text(
    out: &mut String,
    alloc: Global,
    text: &str,
    escaped: bool,
) -> Result<bool, AllocError> {
    let mut escaped = escaped;
    for c in text.chars() {
        let escapes = c.is_control();
        if c == '\'' {
            out.push_str("'\\''")?;
        } else if escapes {
            turn(out, escaped, true)?;
            push_control(out, alloc, c)?;
        } else {
            turn(out, escaped, false)?;
            out.push(c)?;
        }
        escaped = escapes;
    }
    Ok(escaped)
}

/// A word in quotes for standard error: as a shell reads it, and as coreutils write it. A byte that is no UTF-8 stands there in octal.
pub fn in_quotes(alloc: Global, word: &[u8]) -> Result<String, AllocError> {
    let mut out = String::from_str(alloc, "'")?;
    let mut escaped = false;
    for chunk in word.utf8_chunks() {
        escaped = push_text(&mut out, alloc, chunk.valid(), escaped)?;
        for byte in chunk.invalid() {
            turn(&mut out, escaped, true)?;
            push_octal(&mut out, alloc, *byte)?;
            escaped = true;
        }
    }
    out.push('\'')?;
    Ok(out)
}

/// A name for standard error. One that a shell would read as another, or that is no UTF-8, is quoted as a shell reads it, and as
/// coreutils write it: `'a b'`, `"it's"`, `''`, `'no'$'\n''such'`, `'caf'$'\351'`. So it can't pass for another line, nor colour a terminal.
pub fn quoted(alloc: Global, name: &[u8]) -> Result<String, AllocError> {
    match str::from_utf8(name) {
        Ok(text) if !needs_quotes(text) => String::from_str(alloc, text),
        Ok(text) if is_double_quoted(text) => format!(in alloc; "\"{text}\""),
        _ => in_quotes(alloc, name),
    }
}
