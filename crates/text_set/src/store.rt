//! Texts that lie one after the other in one buffer.
ghost use Rattle.std.specs.Prelude.{◌≡◌, ◌-◌, ◌<◌, ◌≤◌, ◌^◌, ◌++◌, ◌∷◌, ℕ, List, [], OnOk, OnErr, length, take, drop, slice_index_or};
ghost use Rattle.text_set.specs.Store.{Rises, cut, start_of};

use std::alloc::{AllocError, Global};
use std::marker::Model;

/// Texts in order. A text costs its bytes and 8 bytes.
#[derive(Drop)]
pub struct Store {
    bytes: Vec<u8>,
    ends: Vec<usize>, // where each text ends
}

impl Model for Store {
    ghost Value = { List (List ℕ) };

    ghost view = { λ store. cut 0 store.bytes.items store.ends.items };

    ghost invariant = { λ store. Rises 0 store.ends.items (length store.bytes.items) };
}

/// Where the text at a place begins.
#[inline(always)]
fn start_of(ends: &[usize], place: usize) -> usize
    requires { place ≤ length ends.now }
    ensures { result ≡ start_of ends.now place }
{
    if place == 0 { 0 } else { ends[place - 1] }
}

/// The text that begins and ends at these bytes.
#[inline(always)]
fn text_between(bytes: &[u8], start: usize, end: usize) -> &[u8]
    requires rises { start ≤ end }
    requires within { end ≤ length bytes.now }
    ensures { result.now ≡ take (end - start) (drop start bytes.now) }
{
    &bytes[start..end]
}

impl Store {
    /// No text.
    pub fn new(alloc: Global) -> Store
        ensures { result ≡ [] }
    {
        Store {
            bytes: Vec::new(alloc),
            ends: Vec::new(alloc),
        }
    }

    /// How many texts there are.
    #[inline(always)]
    #[tactic(auto, using(crate::proofs::StoreLemmas::length_cut))]
    pub fn len(&self) -> usize
        ensures value { result ≡ length self.now }
        ensures small { result < 2 ^ 63 }
    {
        self.ends.len()
    }

    /// How many bytes all texts have.
    #[inline(always)]
    pub fn size(&self) -> usize {
        self.bytes.len()
    }

    /// The text at a place.
    #[inline(always)]
    pub fn get(&self, place: usize) -> &[u8]
        requires { place < length self.now }
        ensures { result.now ≡ slice_index_or self.now place [] }
    {
        let start = start_of(&self.ends, place);
        let end = self.ends[place];
        text_between(&self.bytes, start, end)
    }

    /// Puts a text after the others. If there is no memory for it, they stay as they were.
    #[tactic(auto, using(crate::proofs::StoreLemmas::cut_more, crate::proofs::StoreLemmas::rises_more))]
    pub fn push(&mut self, text: &[u8]) -> Result<(), AllocError>
        ensures ok { OnOk result (self.new ≡ self.old ++ text.now ∷ []) }
        ensures err { OnErr result (self.new ≡ self.old) }
    {
        self.ends.reserve(1)?;
        self.bytes.extend_from_slice(text)?;
        let end = self.bytes.len();
        if self.ends.push(end).is_err() {
            unreachable!()
        }
        Ok(())
    }
}
