//! What a program says of its options.
ghost use Rattle.std.specs.Prelude.{◌≡◌, ◌++◌, [], if◌then◌else◌, codes, replicate, string_bytes, IfOk, OnOk};
ghost use Rattle.cli.specs.Call.{given, sayings};
ghost use Rattle.cli.specs.Help.{column, help, label, shown};

use crate::call::{Call, Opt};
use std::alloc::{AllocError, Global};

/// An option's letter, its name, and what its value is called.
fn label(alloc: Global, opt: &Opt) -> Result<String, AllocError>
    ensures { IfOk result (λ text. string_bytes text ≡ label opt.now) }
{
    let mut text = String::new(alloc);
    match opt.letter {
        Some(letter) => {
            text.push_str("  -")?;
            text.push(char::from(letter))?;
            text.push_str(", --")?;
        }
        None => text.push_str("      --")?,
    }
    text.push_str(opt.name)?;
    if !opt.value.is_empty() {
        text.push(' ')?;
        text.push_str(opt.value)?;
    }
    Ok(text)
}

/// The column in which all options say what they do.
fn column(alloc: Global, options: &[Opt]) -> Result<usize, AllocError>
    ensures { IfOk result (λ at. at ≡ column options.now) }
{
    let mut column = 0usize;
    for opt in options {
        column = column.max(label(alloc, opt)?.len() + 2);
    }
    Ok(column)
}

/// Puts so many spaces behind a text.
pub fn push_spaces(text: &mut String, count: usize) -> Result<(), AllocError>
    ensures { OnOk result (string_bytes text.new ≡ string_bytes text.old ++ replicate count 32) }
{
    for _ in 0..count {
        text.push(' ')?;
    }
    Ok(())
}

/// Puts an option behind a text, and what it does, each line from the column on.
fn push_option(alloc: Global, text: &mut String, opt: &Opt, column: usize) -> Result<(), AllocError>
    ensures { OnOk result (string_bytes text.new ≡ string_bytes text.old ++ shown column opt.now) }
{
    let label = label(alloc, opt)?;
    text.push_str(&label)?;
    let mut at = label.len();
    for line in opt.words.split('\n') {
        push_spaces(text, column.saturating_sub(at))?;
        text.push_str(line)?;
        text.push('\n')?;
        at = 0;
    }
    Ok(())
}

/// The help of a program: what stands in front of its options, each of them with what it does, and what stands behind. It is made
/// where the call asks for it, and is empty else.
pub fn help_for(
    alloc: Global,
    call: &Call<'_>,
    front: &str,
    options: &[Opt],
    behind: &str,
) -> Result<String, AllocError>
    ensures { IfOk result (λ text. string_bytes text ≡ (if given (codes "help") (sayings call.now.said.items)
        then help front.now options.now behind.now else [])) }
{
    if !call.gives(b"help") {
        return Ok(String::new(alloc));
    }
    let column = column(alloc, options)?;
    let mut text = String::from_str(alloc, front)?;
    for opt in options {
        push_option(alloc, &mut text, opt, column)?;
    }
    text.push_str(behind)?;
    Ok(text)
}
