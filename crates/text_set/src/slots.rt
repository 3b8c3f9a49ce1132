//! A table of slots, which finds the places of texts by their hashes.
ghost use Rattle.std.specs.Prelude.{◌≡◌, ◌<◌, ◌≤◌, ◌-◌, All, OnOk, OnErr, IfOk, not, length};
ghost use Rattle.text_set.specs.Slots.{AreFound, FirstBetween, FirstRound, IsRefilled, Names, free_count, home_of, is_taken, stops, tag_under};

use crate::store::Store;
use std::alloc::{AllocError, Global};
use std::hash::{BuildHasher, Hasher};

/// The place of a text, or that there is none.
#[derive(Clone, Copy)]
pub struct Slot {
    /// 32 bits of the text's hash: another tag is another text.
    pub tag: u32,
    /// The text's place; `NOWHERE` in a slot with no text.
    pub place: u32,
}

/// No text has this place.
pub const NOWHERE: u32 = u32::MAX;

/// A slot with no text.
const EMPTY: Slot = Slot {
    tag: 0,
    place: NOWHERE,
};

impl Slot {
    /// Whether there is a text.
    #[inline(always)]
    pub fn is_taken(self) -> bool
        ensures { result ≡ is_taken self }
    {
        self.place != NOWHERE
    }
}

/// The tag of a text.
#[inline(always)]
pub fn tag_of<S: BuildHasher>(hasher: &S, text: &[u8]) -> u32
    ensures { result ≡ tag_under S.Hasher.write S.Hasher.finish (S.build_hasher hasher.now) text.now }
{
    let mut hasher = hasher.build_hasher();
    hasher.write(text);
    let hash = hasher.finish();
    ((hash ^ (hash >> 32)) % (1 << 32)) as u32
}

/// The place where the search for texts with this tag begins, among so many.
#[inline(always)]
pub fn home_of(count: usize, tag: u32) -> usize
    requires { 0 < count }
    ensures value { result ≡ home_of count tag }
    ensures below { result < count }
{
    tag as usize & (count - 1)
}

/// Whether the search for a text ends at this slot: it has no text, or this one.
#[inline(always)]
fn stops(texts: &Store, slot: Slot, tag: u32, text: &[u8]) -> bool
    requires { Names texts.now slot }
    ensures { result ≡ stops texts.now tag text.now slot }
{
    if !slot.is_taken() {
        return true;
    }
    slot.tag == tag && texts.get(slot.place as usize) == text
}

/// The first place in a range at which the search for a text ends.
fn stop_between(
    texts: &Store,
    slots: &[Slot],
    tag: u32,
    text: &[u8],
    from: usize,
    to: usize,
) -> Option<usize>
    requires named { All (Names texts.now) slots.now }
    requires within { to ≤ length slots.now }
    ensures { FirstBetween (stops texts.now tag text.now) slots.now from to result }
{
    for i in from..to {
        if stops(texts, slots[i], tag, text) {
            return Some(i);
        }
    }
    None
}

/// The first place, round from the home of the tag, at which the search for a text ends.
#[inline(always)]
pub fn stop(texts: &Store, slots: &[Slot], tag: u32, text: &[u8]) -> Option<usize>
    requires named { All (Names texts.now) slots.now }
    requires some { 0 < length slots.now }
    ensures { FirstRound (stops texts.now tag text.now) slots.now (home_of (length slots.now) tag) result }
{
    let home = home_of(slots.len(), tag);
    if stops(texts, slots[home], tag, text) {
        return Some(home);
    }
    match stop_between(texts, slots, tag, text, home, slots.len()) {
        Some(place) => Some(place),
        None => stop_between(texts, slots, tag, text, 0, home),
    }
}

/// The first place in a range that has no text.
fn free_between(slots: &[Slot], from: usize, to: usize) -> Option<usize>
    requires { to ≤ length slots.now }
    ensures { FirstBetween (λ slot. not (is_taken slot)) slots.now from to result }
{
    for i in from..to {
        if !slots[i].is_taken() {
            return Some(i);
        }
    }
    None
}

/// The first place, round from the home of the tag, that has no text.
fn free(slots: &[Slot], tag: u32) -> Option<usize>
    requires { 0 < length slots.now }
    ensures { FirstRound (λ slot. not (is_taken slot)) slots.now (home_of (length slots.now) tag) result }
{
    let home = home_of(slots.len(), tag);
    match free_between(slots, home, slots.len()) {
        Some(place) => Some(place),
        None => free_between(slots, 0, home),
    }
}

/// A table of so many slots, with the texts of a smaller one.
fn refilled(alloc: Global, slots: &[Slot], count: usize) -> Result<Vec<Slot>, AllocError>
    requires { length slots.now < count }
    ensures { IfOk result (λ more. IsRefilled slots.now (count - length slots.now) more.items) }
{
    let mut more = Vec::new(alloc);
    more.resize(count, EMPTY)?;
    for slot in slots {
        if slot.is_taken() {
            match free(&more, slot.tag) {
                Some(place) => more[place] = *slot,
                None => unreachable!(),
            }
        }
    }
    Ok(more)
}

/// Half of the least table.
const LEAST: usize = 8;

/// Doubles the table if there is no room for a text more. It is at most three quarters full. If there is no memory
/// for that, it stays as it was.
pub fn make_room(alloc: Global, slots: &mut Vec<Slot>, room: &mut usize) -> Result<(), AllocError>
    requires found { AreFound slots.old.items }
    requires roomy { room.old ≤ free_count slots.old.items }
    ensures some { OnOk result (0 < room.new) }
    ensures refilled { OnOk result (IsRefilled slots.old.items room.new slots.new.items) }
    ensures slots_kept { OnErr result (slots.new.items ≡ slots.old.items) }
    ensures room_kept { OnErr result (room.new ≡ room.old) }
{
    if *room == 0 {
        let count = slots.len().max(LEAST);
        *slots = refilled(alloc, slots, 2 * count)?;
        *room = count - count / 4;
    }
    Ok(())
}
