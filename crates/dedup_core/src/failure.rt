//! What ends a run before its output is whole.
ghost use Rattle.std.specs.Prelude.{◌≡◌};
ghost use Rattle.dedup_core.specs.Status.{IsFullOnly, words_of};
ghost use Rattle.text_set.specs.Slots.{tag_under};
ghost use Rattle.text_set.specs.Texts.{Sees};

use cli::outcome::Words;
use std::hash::BuildHasher;
use streams::failure;
use text_set::{Full, Guess, Seen, Texts};

/// More than can be taken.
#[derive(Debug, Drop)]
pub enum TooMany {
    /// There were 2^32 - 1 texts.
    Texts,
}

/// Why a run ended before its output was whole.
pub type Failure = failure::Failure<TooMany>;

impl Words for TooMany {
    ghost words = { words_of };

    fn words(&self) -> &'static str {
        match self {
            TooMany::Texts => "too many different lines",
        }
    }
}

/// Takes a text into a set, by a guess for it. After a fault the set is as it was.
#[inline(always)]
pub fn see<S: BuildHasher + Drop>(
    texts: &mut Texts<S>,
    text: &[u8],
    guess: Guess,
) -> Result<Seen, Failure>
    requires { guess.tag ≡ tag_under S.Hasher.write S.Hasher.finish (S.build_hasher texts.old.hasher) text.now }
    ensures { Sees IsFullOnly texts.old texts.new text.now result }
{
    match texts.see_at(text, guess) {
        Ok(seen) => Ok(seen),
        Err(Full::NoMemory) => Err(Failure::NoMemory),
        Err(Full::TooManyTexts) => Err(Failure::Own(TooMany::Texts)),
    }
}
