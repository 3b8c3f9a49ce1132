//! The words of a call, behind the program's own name: options and operands.
//!
//! An option has a name, which is given behind two hyphens, and may have a letter, which is given behind one hyphen and may stand
//! together with others: `-cd`, or `--count --repeated`. An option may take a value: `--width 4`, `--width=4`, `-w 4`, `-w4` or `-zw4`.
//! Any other word is an operand, and so is `-`. The first `--` ends the options: each word behind it is an operand. So POSIX has it, and
//! GNU for names; a name is not shortened.
ghost use Rattle.std.specs.Prelude.{◌≡◌, ◌++◌, ◌∷◌, [], IfOk, OnOk, map};
ghost use Rattle.std.specs.Option.{option_map};
ghost use Rattle.std.specs.List.{find};
ghost use Rattle.cli.specs.Call.{Adds, Operand, by_letters, by_name, call_of, choice_of, choices, first_of, flag, given, given_last, has_letter, name_in, named, next_spoken, operands, saying_of, sayings, spoken, taking, texts, value_of, valued, wants_of, wrongs};

use std::alloc::{AllocError, Global};

/// An option of a program.
#[derive(Clone, Copy)]
pub struct Opt {
    /// Its letter, if it has one.
    pub letter: Option<u8>,
    /// Its name.
    pub name: &'static str,
    /// Whether it takes a value.
    pub has_value: bool,
    /// What the help calls its value; empty where it takes none.
    pub value: &'static str,
    /// What the help says it does, in lines.
    pub words: &'static str,
}

/// An option of this letter, if it has one, this name and these words, which takes no value.
pub fn flag(letter: Option<u8>, name: &'static str, words: &'static str) -> Opt
    ensures choice { choice_of result ≡ flag letter name.now }
    ensures value { result.value.now ≡ [] }
    ensures words { result.words.now ≡ words.now }
{
    Opt {
        letter,
        name,
        has_value: false,
        value: "",
        words,
    }
}

/// The same which takes a value, of this name.
pub fn taking(
    letter: Option<u8>,
    name: &'static str,
    value: &'static str,
    words: &'static str,
) -> Opt
    ensures choice { choice_of result ≡ taking letter name.now }
    ensures value { result.value.now ≡ value.now }
    ensures words { result.words.now ≡ words.now }
{
    Opt {
        letter,
        name,
        has_value: true,
        value,
        words,
    }
}

/// What is wrong with an option of a call.
#[derive(Clone, Copy, Debug, Drop)]
pub enum Misgiven {
    /// No option has this name.
    NoSuchName,
    /// No option has this letter.
    NoSuchLetter,
    /// It takes a value, and none is given.
    NoValue,
    /// It takes no value, and one is given.
    HasValue,
}

/// What a word of a call says.
#[derive(Clone, Copy)]
pub enum Said<'a> {
    /// An option, by its name, and its value, which is empty where it takes none.
    Gives(&'a [u8], &'a [u8]),
    /// An operand.
    Operand(&'a [u8]),
    /// What is wrong with an option, and the word, its part or the letter that is.
    Errs(Misgiven, &'a [u8]),
}

/// An option whose value is to be the next word.
#[derive(Clone, Copy)]
struct Wanting<'a> {
    name: &'static [u8],
    word: &'a [u8],
}

/// What the words of a call say.
#[derive(Drop)]
pub struct Call<'a> {
    /// It, in the order of the words.
    pub said: Vec<Said<'a>>,
}

/// Puts a saying behind the others.
fn push<'a>(said: &mut Vec<Said<'a>>, saying: Said<'a>) -> Result<(), AllocError>
    ensures { OnOk result (sayings said.new.items ≡ sayings said.old.items ++ saying_of saying.entry ∷ []) }
{
    match said.push(saying) {
        Ok(()) => Ok(()),
        Err(_) => Err(AllocError),
    }
}

/// Takes an option with a value, which is the next word if none stands behind it.
fn push_valued<'a>(
    said: &mut Vec<Said<'a>>,
    opt: Opt,
    word: &'a [u8],
    value: &'a [u8],
) -> Result<Option<Wanting<'a>>, AllocError>
    ensures { IfOk result (λ wants. Adds (sayings said.old.items) (sayings said.new.items) (option_map wants_of wants)
        (valued opt.name.now word.now value.now)) }
{
    if value.is_empty() {
        return Ok(Some(Wanting {
            name: opt.name.as_bytes(),
            word,
        }));
    }
    push(said, Said::Gives(opt.name.as_bytes(), value))?;
    Ok(None)
}

/// The option of this letter.
fn by_letter(options: &[Opt], letter: u8) -> Option<Opt>
    ensures { option_map choice_of result ≡ find (has_letter letter) (choices options.now) }
{
    for opt in options {
        if opt.letter == Some(letter) {
            return Some(*opt);
        }
    }
    None
}

/// Takes the options whose letters stand behind one hyphen.
fn push_letters<'a>(
    said: &mut Vec<Said<'a>>,
    options: &[Opt],
    word: &'a [u8],
    letters: &'a [u8],
) -> Result<Option<Wanting<'a>>, AllocError>
    ensures { IfOk result (λ wants. Adds (sayings said.old.items) (sayings said.new.items) (option_map wants_of wants)
        (by_letters (choices options.now) word.now letters.now)) }
{
    for at in 0..letters.len() {
        let Some(opt) = by_letter(options, letters[at]) else {
            push(
                said,
                Said::Errs(Misgiven::NoSuchLetter, &letters[at..at + 1]),
            )?;
            return Ok(None);
        };
        if opt.has_value {
            return push_valued(said, opt, word, &letters[at + 1..]);
        }
        push(said, Said::Gives(opt.name.as_bytes(), b""))?;
    }
    Ok(None)
}

/// A word as far as the name of this option goes, behind its two hyphens.
fn name_in(opt: Opt, word: &[u8]) -> &[u8]
    ensures { result.now ≡ name_in (choice_of opt) word.now }
{
    let end = opt.name.len() + 2;
    if end < word.len() { &word[..end] } else { word }
}

/// Takes an option whose name stands behind two hyphens, and what stands behind its name.
fn push_named<'a>(
    said: &mut Vec<Said<'a>>,
    opt: Opt,
    word: &'a [u8],
    value: Option<&'a [u8]>,
) -> Result<Option<Wanting<'a>>, AllocError>
    ensures { IfOk result (λ wants. Adds (sayings said.old.items) (sayings said.new.items) (option_map wants_of wants)
        (named (choice_of opt) word.now (option_map (λ value. value.now) value.entry))) }
{
    match value {
        None if opt.has_value => return Ok(Some(Wanting {
            name: opt.name.as_bytes(),
            word,
        })),
        None => push(said, Said::Gives(opt.name.as_bytes(), b""))?,
        Some(value) if opt.has_value => push(said, Said::Gives(opt.name.as_bytes(), value))?,
        Some(_) => push(said, Said::Errs(Misgiven::HasValue, name_in(opt, word)))?,
    }
    Ok(None)
}

/// Takes the option whose name stands behind two hyphens.
fn push_name<'a>(
    said: &mut Vec<Said<'a>>,
    options: &[Opt],
    word: &'a [u8],
    long: &'a [u8],
) -> Result<Option<Wanting<'a>>, AllocError>
    ensures { IfOk result (λ wants. Adds (sayings said.old.items) (sayings said.new.items) (option_map wants_of wants)
        (by_name (choices options.now) word.now long.now)) }
{
    for opt in options {
        match long.strip_prefix(opt.name.as_bytes()) {
            Some([]) => return push_named(said, *opt, word, None),
            Some([b'=', value @ ..]) => return push_named(said, *opt, word, Some(value)),
            _ => {}
        }
    }
    push(said, Said::Errs(Misgiven::NoSuchName, word))?;
    Ok(None)
}

/// Takes a word in front of `--`.
fn push_word<'a>(
    said: &mut Vec<Said<'a>>,
    options: &[Opt],
    word: &'a [u8],
) -> Result<Option<Wanting<'a>>, AllocError>
    ensures { IfOk result (λ wants. Adds (sayings said.old.items) (sayings said.new.items) (option_map wants_of wants)
        (spoken (choices options.now) word.now)) }
{
    match word {
        [b'-', b'-', long @ ..] => return push_name(said, options, word, long),
        [b'-', letters @ ..] if !letters.is_empty() => {
            return push_letters(said, options, word, letters);
        }
        _ => push(said, Said::Operand(word))?,
    }
    Ok(None)
}

/// Takes the words behind `--`.
fn push_operands<'a>(said: &mut Vec<Said<'a>>, words: &'a [Vec<u8>]) -> Result<(), AllocError>
    ensures { OnOk result (sayings said.new.items ≡ sayings said.old.items ++ map Operand (texts words.now)) }
{
    for word in words {
        push(said, Said::Operand(word.as_slice()))?;
    }
    Ok(())
}

/// Takes a word: the value that is wanted, or one in front of `--`.
fn push_next<'a>(
    said: &mut Vec<Said<'a>>,
    options: &[Opt],
    wants: Option<Wanting<'a>>,
    word: &'a [u8],
) -> Result<Option<Wanting<'a>>, AllocError>
    ensures { IfOk result (λ now. Adds (sayings said.old.items) (sayings said.new.items) (option_map wants_of now)
        (next_spoken (choices options.now) (option_map wants_of wants.entry) word.now)) }
{
    match wants {
        Some(wanting) => push(said, Said::Gives(wanting.name, word))?,
        None => return push_word(said, options, word),
    }
    Ok(None)
}

/// What the words behind the program's own name say, by these options.
pub fn call_of<'a>(
    alloc: Global,
    options: &[Opt],
    words: &'a [Vec<u8>],
) -> Result<Call<'a>, AllocError>
    ensures { IfOk result (λ call. sayings call.said.items ≡ call_of (choices options.now) (texts words.now)) }
{
    let mut said = Vec::new(alloc);
    let mut wants = None;
    for at in 0..words.len() {
        let word = words[at].as_slice();
        if wants.is_none() && word == b"--".as_slice() {
            push_operands(&mut said, &words[at + 1..])?;
            return Ok(Call { said });
        }
        wants = push_next(&mut said, options, wants, word)?;
    }
    if let Some(wanting) = wants {
        push(&mut said, Said::Errs(Misgiven::NoValue, wanting.word))?;
    }
    Ok(Call { said })
}

impl<'a> Call<'a> {
    /// Whether the call gives the option of this name.
    pub fn gives(&self, name: &[u8]) -> bool
        ensures { result ≡ given name.now (sayings self.now.said.items) }
    {
        for said in &self.said {
            match said {
                Said::Gives(other, _) if *other == name => return true,
                _ => {}
            }
        }
        false
    }

    /// The value that it gives last to the option of this name.
    pub fn value(&self, name: &[u8]) -> Option<&'a [u8]>
        ensures { option_map (λ value. value.now) result ≡ value_of name.now (sayings self.now.said.items) }
    {
        let mut last = None;
        for said in &self.said {
            match said {
                Said::Gives(other, value) if *other == name => last = Some(*value),
                _ => {}
            }
        }
        last
    }

    /// Whether it gives the option of this name, and behind it none of the other name.
    pub fn gives_last(&self, name: &[u8], other: &[u8]) -> bool
        ensures { result ≡ given_last name.now other.now (sayings self.now.said.items) }
    {
        let mut last = false;
        for said in &self.said {
            match said {
                Said::Gives(given, _) if *given == name => last = true,
                Said::Gives(given, _) if *given == other => last = false,
                _ => {}
            }
        }
        last
    }

    /// Its operands, in their order.
    pub fn operands(&self, alloc: Global) -> Result<Vec<&'a [u8]>, AllocError>
        ensures { IfOk result (λ found. map (λ word. word.now) found.items
            ≡ operands (sayings self.now.said.items)) }
    {
        let mut found = Vec::new(alloc);
        for said in &self.said {
            match said {
                Said::Operand(word) => found.push(*word)?,
                _ => {}
            }
        }
        Ok(found)
    }

    /// What is wrong with the first option with which something is, and the word or the letter.
    pub fn wrong(&self) -> Option<(Misgiven, &'a [u8])>
        ensures { option_map (λ wrong. (wrong.0, wrong.1.now)) result
            ≡ first_of (wrongs (sayings self.now.said.items)) }
    {
        for said in &self.said {
            match said {
                Said::Errs(misgiven, word) => return Some((*misgiven, *word)),
                _ => {}
            }
        }
        None
    }
}
