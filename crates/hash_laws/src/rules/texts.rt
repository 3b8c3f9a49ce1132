//! Whole texts by a rule's steps.
ghost use Rattle.std.specs.Prelude.{◌≡◌};
ghost use Rattle.hash_laws.specs.Recurrence.{recurrence};
ghost use Rattle.hash_laws.specs.Text.{IsText};

use crate::rules::byte_rule::{ByteRule, StepRule};
use crate::rules::plain_rule::{Plain, PlainRule};
use crate::traits::bytes_are_a_text;

/// The bytes in, one step for each.
#[inline(always)]
#[tactic(auto, using(crate::specs::RecurrenceLaws::turns))]
fn in_turn<R: StepRule>(state: &mut R::State, bytes: &[u8])
    ensures { R.number state.new ≡ recurrence R.step (R.number state.old) bytes.now }
{
    for byte in bytes {
        R::step(state, *byte);
    }
}

/// The bytes in, one step for each: the few first ones, up to seven, and then eight a turn.
#[inline(always)]
#[tactic(auto, using(crate::specs::RecurrenceLaws::all_eights))]
pub fn in_eights<R: StepRule>(state: &mut R::State, bytes: &[u8])
where
    R::State: Copy,
    ensures { R.number state.new ≡ recurrence R.step (R.number state.old) bytes.now }
{
    let (few, eights) = bytes.as_rchunks::<8>();
    let mut word = *state;
    in_turn::<R>(&mut word, few);
    for eight in eights {
        in_turn::<R>(&mut word, eight);
    }
    *state = word;
}

/// The same, where a single byte is one step with no loop round it.
#[inline(always)]
#[tactic(auto, using(crate::specs::RecurrenceLaws::recurrence_one))]
pub fn alone_or_in_eights<R: StepRule>(state: &mut R::State, bytes: &[u8])
where
    R::State: Copy,
    ensures { R.number state.new ≡ recurrence R.step (R.number state.old) bytes.now }
{
    match bytes {
        [byte] => R::step(state, *byte),
        _ => in_eights::<R>(state, bytes),
    }
}

/// The hash of a whole text by a plain rule. The first eight bytes have no loop round them, so a call with a short key waits for
/// none.
#[inline(always)]
pub fn whole_text<R: PlainRule>(text: &[u8]) -> u64
    ensures { result ≡ R.answer (recurrence R.step R.start text.now) }
{
    let mut word = R::start();
    match text.split_first_chunk::<8>() {
        None => in_turn::<Plain<R>>(&mut word, text),
        Some((first, rest)) => {
            in_turn::<Plain<R>>(&mut word, first);
            in_eights::<Plain<R>>(&mut word, rest);
        }
    }
    R::answer(word)
}

/// The hash of a text by a plain rule: what `hash_of` of its hasher gives, from the rule alone.
#[inline(always)]
pub fn hash_by_plain<R: PlainRule>(text: &[u8]) -> u64
    ensures value { result ≡ R.answer (recurrence R.step R.start text.now) }
    ensures text { IsText text.now }
{
    bytes_are_a_text(text);
    whole_text::<R>(text)
}

/// The hash of a text by a rule, likewise.
#[inline(always)]
pub fn hash_by_rule<R: ByteRule>(text: &[u8]) -> u64
    ensures value { result ≡ R.answer (R.after (R.number R.start) text.now) }
    ensures text { IsText text.now }
{
    bytes_are_a_text(text);
    R::whole(text)
}
