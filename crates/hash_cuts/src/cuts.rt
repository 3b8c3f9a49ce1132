//! Where a text is cut.
ghost use Rattle.std.specs.Prelude.{◌≡◌, ◌≤◌, ◌<◌, ◌↔◌, ◌++◌, ℕ, List, IfSome, IsSome, length, take, drop, min};
ghost use Rattle.std.specs.Iterator.{YieldsFirstRef, item_count};
ghost use Rattle.hash_cuts.specs.Cuts.{AreSizes, Cutting, HasSizes, chunk_ends, chunks, cutting, first_cut};

use crate::gear::Gear;
use std::marker::Model;

/// Where texts are cut into chunks. Contracts see the numbers that `new` takes.
#[derive(Drop)]
pub struct Cuts {
    least: usize,
    average: usize,
    most: usize,
    gear: Gear,
    below: u64, // a hash below it is a cut
}

impl Model for Cuts {
    ghost use Rattle.std.specs.Prelude.{◌≡◌, ◌+◌, ◌-◌, ◌/◌, ◌^◌};
    ghost use Rattle.hash_cuts.specs.Cuts.{AreSizes, Cutting, cutting};

    ghost Value = { Cutting };

    ghost view = { λ c. cutting c.least c.average c.most c.gear.0 c.gear.1 };

    ghost invariant = { λ c. AreSizes c.least c.average c.most × (c.below ≡ (2 ^ 64 - 1) / c.average + 1) };
}

impl Cuts {
    /// Chunks of `least` to `most` bytes; `None` exactly if 64 ≤ `least` ≤ `average` ≤ `most` does not hold. From `least` on about one
    /// place in `average` is a boundary, if the bytes look random, which is measured. Other seeds give other boundaries.
    // inlined, the bound becomes a product and a test of its overflow for each byte
    #[inline(never)]
    pub fn new(least: usize, average: usize, most: usize, seed1: u64, seed2: u64) -> Option<Cuts>
        ensures exact { IsSome result ↔ AreSizes least average most }
        ensures some { IfSome result (λ cuts. cuts ≡ cutting least average most seed1 seed2) }
    {
        if least < 64 || average < least || most < average {
            return None;
        }
        Some(Cuts {
            least,
            average,
            most,
            gear: Gear::new(seed1, seed2),
            below: u64::MAX / average as u64 + 1,
        })
    }

    /// A law with no code: the sizes are in their order, and the least is 64 at least.
    pub fn has_sizes(&self)
        ensures { HasSizes self.now }
    {
        let _below = self.below;
    }

    /// The most bytes of a chunk.
    pub fn most(&self) -> usize
        ensures value { result ≡ self.now.most }
        ensures sizes { HasSizes self.now }
    {
        self.most
    }

    /// How many bytes the first chunk of the text has: up to the first cut from `least` bytes on, but at most `most`, and at most
    /// the whole text.
    pub fn first_cut(&self, text: &[u8]) -> usize
        ensures cut { result ≡ first_cut self.now text.now }
        ensures within { result ≤ length text.now }
        ensures some { 0 < length text.now → 0 < result }
        ensures sizes { HasSizes self.now }
    {
        let end = text.len().min(self.most);
        if end <= self.least {
            return end;
        }
        let mut hash = self.gear.hash(&text[self.least - 64..self.least]);
        let mut place = self.least;
        // four places a turn, as long as none of them is a cut
        'fours: while let Some((bytes, _)) = text[place..end].split_first_chunk::<4>() {
            let (one, two, three, four) = self.gear.four_steps(hash, bytes);
            if hash < self.below || one < self.below || two < self.below || three < self.below {
                break;
            }
            hash = four;
            place += 4;
        }
        for place in place..end {
            if hash < self.below {
                return place;
            }
            hash = self.gear.step(hash, text[place]);
        }
        end
    }

    /// Writes where the first chunks of the text end, in bytes from its beginning, and returns how many these are: all chunks, or as many
    /// as there are places for.
    pub fn ends(&self, text: &[u8], ends: &mut [u64]) -> usize
        ensures count { result ≡ min (length ends.old) (length (chunk_ends self.now text.now)) }
        ensures written { ends.new ≡ take result (chunk_ends self.now text.now) ++ drop result ends.old }
    {
        let mut place = 0;
        let mut count = 0;
        while count < ends.len() && place < text.len() {
            place += self.first_cut(&text[place..]);
            ends[count] = place as u64;
            count += 1;
        }
        count
    }

    /// The chunks of the text, in their order.
    pub fn chunks<'a>(&'a self, text: &'a [u8]) -> Chunks<'a>
        ensures { result ≡ (self.now, text.now) }
    {
        Chunks {
            cuts: self,
            rest: text,
        }
    }
}

/// The chunks of a text that are left. Contracts see where it is cut, and the text that is left.
#[derive(Drop)]
pub struct Chunks<'a> {
    cuts: &'a Cuts,
    rest: &'a [u8],
}

impl<'a> Model for Chunks<'a> {
    ghost Value = { Cutting × List ℕ };

    ghost view = { λ it. (it.cuts.now, it.rest.now) };
}

impl<'a> Iterator for Chunks<'a> {
    type Item = &'a [u8];

    ghost next_gives = { YieldsFirstRef (λ it. chunks it.0 it.1) };

    ghost remaining = { item_count (λ it. chunks it.0 it.1) };

    fn next(&mut self) -> Option<&'a [u8]> {
        if self.rest.is_empty() {
            return None;
        }
        let (chunk, rest) = self.rest.split_at(self.cuts.first_cut(self.rest));
        self.rest = rest;
        Some(chunk)
    }
}
