//! The set of texts.
ghost use Rattle.std.specs.Prelude.{◌≡◌, ◌↔◌, ◌-◌, ◌^◌, ◌<◌, ◌≤◌, ℕ, List, [], IfOk, IfErr, IfSome, IfNone, IsTrue, OnOk, OnErr, not, false, length, slice_index_or, drop};
ghost use Rattle.std.specs.Iterator.{YieldsFirstRef, item_count};
ghost use Rattle.text_set.specs.Slots.{IsGuess, IsTable, tag_under};
ghost use Rattle.text_set.specs.Texts.{EachOnce, IsFullOnlyAt, Sees, Set, StandsAt, has, with_text};

use crate::slots::{NOWHERE, Slot, home_of, make_room, stop, tag_of};
use crate::store::Store;
use std::alloc::{AllocError, Global};
use std::error::Error;
use std::fmt;
use std::fmt::{Display, Formatter};
use std::hash::BuildHasher;
use std::marker::Model;

/// So many bytes of texts mostly stay at hand: with what goes with them they fill the caches of common processors.
const AT_HAND: usize = 1 << 21;

/// A text that was seen.
#[derive(Clone, Copy)]
pub struct Seen {
    /// Its place among the texts.
    pub place: usize,
    /// Whether it is new.
    pub is_new: bool,
}

/// A guess where a text may stand.
#[derive(Clone, Copy)]
pub struct Guess {
    /// 32 bits of the text's hash.
    pub tag: u32,
    /// The place.
    pub place: usize,
}

/// Why a text could not be taken in.
#[derive(Clone, Copy, Debug, PartialEq, Eq)]
pub enum Full {
    /// There was no memory.
    NoMemory,
    /// There were 2^32 - 1 texts, and a set has no more.
    TooManyTexts,
}

impl Display for Full {
    fn fmt<W: fmt::Write>(&self, f: &mut Formatter<W>) -> fmt::Result {
        match self {
            Full::NoMemory => write!(f, "there is no memory for a text more"),
            Full::TooManyTexts => write!(f, "there are 2^32 - 1 texts, and a set has no more"),
        }
    }
}

impl Error for Full {}

impl From<AllocError> for Full {
    ghost use Rattle.text_set.specs.declared.texts.Full.TheVariants as why;

    ghost from_gives = { λ error full. full ≡ why.NoMemory };

    fn from(_error: AllocError) -> Full {
        Full::NoMemory
    }
}

/// A set of texts, in the order in which they came. Nothing is taken out.
///
/// The bytes of all texts lie one after the other in one buffer. A table of slots says at which place each text stands: in
/// the first slot that was free, round from where its hash points. So the time of a call depends on the hasher, and the
/// results do not. A text costs its bytes, 8 bytes for its end (room for 16 just after these have doubled), and 11 to 22 bytes of the
/// table.
///
/// Where somebody else chooses the texts, take `RandomKeys` as the hasher, or std's `RandomState`, which is slower.
#[derive(Drop)]
pub struct Texts<S: BuildHasher + Drop> {
    alloc: Global,
    hasher: S,
    texts: Store,
    slots: Vec<Slot>,
    room: usize, // how many texts may come before the table grows
}

impl<S: BuildHasher + Drop> Model for Texts<S> {
    ghost Value = { Set S };

    ghost view = { λ set. record { texts = set.texts; hasher = set.hasher } };

    ghost invariant = { λ set. EachOnce set.texts
        × IsTable (tag_under S.Hasher.write S.Hasher.finish (S.build_hasher set.hasher))
        set.texts set.slots.items set.room };
}

/// The slot of a text at this place. It fails if slots have no such place.
fn slot_of(tag: u32, place: usize) -> Result<Slot, Full>
    ensures slot { IfOk result (λ slot. slot ≡ record { tag = tag; place = place }) }
    ensures below { OnOk result (place < NOWHERE) }
    ensures full { OnErr result (2 ^ 32 - 1 ≤ place) }
{
    match u32::try_from(place) {
        Ok(place) if place < NOWHERE => Ok(Slot { tag, place }),
        _ => Err(Full::TooManyTexts),
    }
}

impl<S: BuildHasher + Drop> Texts<S> {
    /// The empty set over this hasher. It takes no memory.
    pub fn new(alloc: Global, hasher: S) -> Self
        ensures texts { result.texts ≡ [] }
        ensures hasher { result.hasher ≡ hasher }
    {
        Texts {
            alloc,
            hasher,
            texts: Store::new(alloc),
            slots: Vec::new(alloc),
            room: 0,
        }
    }

    /// How many texts there are. No text stands twice.
    #[inline(always)]
    pub fn len(&self) -> usize
        ensures value { result ≡ length self.now.texts }
        ensures once { EachOnce self.now.texts }
    {
        self.texts.len()
    }

    /// Whether there is no text.
    pub fn is_empty(&self) -> bool
        ensures { IsTrue result ↔ (self.now.texts ≡ []) }
    {
        self.len() == 0
    }

    /// The text at a place.
    #[inline(always)]
    pub fn text_at(&self, place: usize) -> &[u8]
        requires { place < length self.now.texts }
        ensures { result.now ≡ slice_index_or self.now.texts place [] }
    {
        self.texts.get(place)
    }

    /// The texts in the order in which they came.
    pub fn iter(&self) -> Iter<'_>
        ensures { result ≡ self.now.texts }
    {
        Iter {
            texts: &self.texts,
            place: 0,
        }
    }

    /// The place of a text, if it is there.
    pub fn place_of(&self, text: &[u8]) -> Option<usize>
        ensures there { IfSome result (λ place. StandsAt self.now.texts text.now place) }
        ensures absent { IfNone result (has self.now.texts text.now ≡ false) }
    {
        if self.slots.is_empty() {
            return None;
        }
        let tag = tag_of(&self.hasher, text);
        match stop(&self.texts, &self.slots, tag, text) {
            Some(at) => {
                let found = self.slots[at];
                if found.is_taken() {
                    Some(found.place as usize)
                } else {
                    None
                }
            }
            None => None,
        }
    }

    /// Where the text may stand: at the place that the first slot of its search names, if that has the text's tag, and else
    /// at no text's. So the text that stands there has 32 bits of its hash in common with this one, and is mostly the same. It
    /// waits for the table alone, so that a caller may guess for several texts before it sees the first by `see_at`.
    #[inline(always)]
    pub fn guess(&self, text: &[u8]) -> Guess
        ensures { IsGuess (tag_under S.Hasher.write S.Hasher.finish (S.build_hasher self.now.hasher))
            self.now.texts text.now result }
    {
        let tag = tag_of(&self.hasher, text);
        if self.slots.is_empty() {
            return Guess {
                tag,
                place: self.len(),
            };
        }
        let slot = self.slots[home_of(self.slots.len(), tag)];
        let place = if slot.tag == tag && slot.is_taken() {
            slot.place as usize
        } else {
            self.len()
        };
        Guess { tag, place }
    }

    /// Whether the texts are so many that a processor waits for most of them. Then it pays to guess for some texts before the
    /// first of them is seen, so that the waits overlap. No result depends on it.
    #[inline(always)]
    pub fn waits_for_memory(&self) -> bool {
        self.texts.size() >= AT_HAND
    }

    /// Does what `see` does, by a guess for this text, however long ago it was made: it has the tag, so the text is not hashed.
    /// If the text stands at the place, this is faster still.
    #[inline(always)]
    pub fn see_at(&mut self, text: &[u8], guess: Guess) -> Result<Seen, Full>
        requires { guess.tag ≡ tag_under S.Hasher.write S.Hasher.finish (S.build_hasher self.old.hasher)
            text.now }
        ensures { Sees IsFullOnlyAt self.old self.new text.now result }
    {
        if guess.place < self.len() {
            if self.text_at(guess.place) == text {
                return Ok(Seen {
                    place: guess.place,
                    is_new: false,
                });
            }
        }
        self.see_tagged(text, guess.tag)
    }

    /// Takes a text into the set, after the others, unless it is there, and returns its place and whether it is new. If
    /// that fails, the set stays as it was.
    #[inline(always)]
    pub fn see(&mut self, text: &[u8]) -> Result<Seen, Full>
        ensures { Sees IsFullOnlyAt self.old self.new text.now result }
    {
        let tag = tag_of(&self.hasher, text);
        self.see_tagged(text, tag)
    }

    /// The same of a text with this tag.
    #[inline(never)]
    fn see_tagged(&mut self, text: &[u8], tag: u32) -> Result<Seen, Full>
        requires { tag ≡ tag_under S.Hasher.write S.Hasher.finish (S.build_hasher self.old.hasher) text.now }
        ensures { Sees IsFullOnlyAt self.old self.new text.now result }
    {
        make_room(self.alloc, &mut self.slots, &mut self.room)?;
        let Some(at) = stop(&self.texts, &self.slots, tag, text) else {
            unreachable!()
        };
        let found = self.slots[at];
        if found.is_taken() {
            return Ok(Seen {
                place: found.place as usize,
                is_new: false,
            });
        }
        let place = self.texts.len();
        let slot = slot_of(tag, place)?;
        self.texts.push(text)?;
        self.slots[at] = slot;
        self.room -= 1;
        Ok(Seen {
            place,
            is_new: true,
        })
    }
}

/// The texts of a set from a place on, in the order in which they came.
#[derive(Drop)]
pub struct Iter<'a> {
    texts: &'a Store,
    place: usize,
}

impl<'a> Model for Iter<'a> {
    ghost Value = { List (List ℕ) };

    ghost view = { λ iter. drop iter.place iter.texts.now };
}

impl<'a> Iterator for Iter<'a> {
    type Item = &'a [u8];

    ghost next_gives = { YieldsFirstRef (λ iter. iter) };

    ghost remaining = { item_count (λ iter. iter) };

    fn next(&mut self) -> Option<&'a [u8]> {
        if self.place >= self.texts.len() {
            return None;
        }
        let text = self.texts.get(self.place);
        self.place += 1;
        Some(text)
    }
}
