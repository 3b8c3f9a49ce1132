//! lookup3, by Bob Jenkins (his lookup3.c): two words of 32 bits of a piece, from two words before it.
ghost use Rattle.std.specs.Prelude.{◌≡◌, ◌≢◌, ◌<◌};
ghost use Rattle.hash_jenkins.specs.Common.{ℕ, List, [], length, slice_index, refl, zero_filled};
ghost use Rattle.std.proofs.Common.{lit<};
ghost use Rattle.hash_words.specs.Words.{le};
ghost use Rattle.hash_laws.specs.Text.{IsText};
ghost use Rattle.hash_jenkins.specs.Lookup3.{add_words, add_block, block_words, start, lookup3_words, lookup3_from, lookup3_answer, AreTwoWords, lookup3_of};
ghost use Rattle.hash_jenkins.specs.Lookup3Laws.{lookup3-AreTwoWords};

use hash_laws::traits::{Piecewise, hash_of};
use hash_rounds::{le_four, lookup3_final, lookup3_mix};
use std::hash::Hasher;
use std::marker::Model;

// Adds three words.
#[inline(always)]
fn add_words(s: &mut [u32; 3], words: (u32, u32, u32))
    ensures { s.new ≡ add_words s.old words }
{
    s[0] = s[0].wrapping_add(words.0);
    s[1] = s[1].wrapping_add(words.1);
    s[2] = s[2].wrapping_add(words.2);
}

// The words of a block.
#[inline(always)]
#[tactic(auto, using(crate::proofs::Lookup3Lemmas::places))]
fn block_words(block: &[u8; 12]) -> (u32, u32, u32)
    ensures { result ≡ block_words block.now }
{
    let (words, _) = block.as_chunks::<4>();
    (le_four(&words[0]), le_four(&words[1]), le_four(&words[2]))
}

// The little-endian value of fewer than four bytes.
#[inline(always)]
fn le_few(bytes: &[u8]) -> u32
    requires { length bytes.now < 4 }
    ensures { result ≡ le bytes.now }
{
    match bytes {
        [] => 0,
        [a] => u32::from(*a),
        [a, b] => u32::from(*a) + u32::from(*b) * 256,
        [a, b, c, ..] => u32::from(*a) + u32::from(*b) * 256 + u32::from(*c) * 65536,
    }
}

// The words before a piece of this length.
#[inline(always)]
fn start(pc: u32, pb: u32, len: usize) -> [u32; 3]
    ensures { result ≡ start pc pb len }
{
    let low = (len as u64 % 4294967296) as u32;
    let first = 0xdeadbeefu32.wrapping_add(low).wrapping_add(pc);
    [first, first, first.wrapping_add(pb)]
}

// Adds the words of what is left after the whole blocks, and zeros behind it.
#[inline(always)]
fn add_rest(s: &mut [u32; 3], rest: &[u8])
    requires { length rest.now < 12 }
    ensures { s.new ≡ add_block s.old (zero_filled 12 rest.now) }
{
    match rest.split_first_chunk::<4>() {
        None => add_words(s, (le_few(rest), 0, 0)),
        Some((a, more)) => match more.split_first_chunk::<4>() {
            None => add_words(s, (le_four(a), le_few(more), 0)),
            Some((b, last)) => add_words(s, (le_four(a), le_four(b), le_few(last))),
        },
    }
}

// The three words after a piece that has some bytes. Less than a block goes a way of its own, with no loop on it, and
// no length is divided, which takes as long as half a mixing.
#[inline(always)]
fn lookup3_words(pc: u32, pb: u32, piece: &[u8]) -> [u32; 3]
    ensures { result ≡ lookup3_words pc pb piece.now }
{
    let mut s = start(pc, pb, piece.len());
    if piece.len() < 12 {
        add_rest(&mut s, piece);
    } else {
        let mut rest = piece;
        while let Some((block, more)) = rest.split_first_chunk::<12>() {
            add_words(&mut s, block_words(block));
            lookup3_mix(&mut s);
            rest = more;
        }
        add_rest(&mut s, rest);
    }
    lookup3_final(&mut s);
    s
}

/// Bob Jenkins' lookup3 (his lookup3.c, `hashlittle2`: burtleburtle.net/bob/c/lookup3.c).
///
/// A write of some bytes is one run: three words of 32 bits start from 0xdeadbeef, the length and the two words of the run
/// before. Whole blocks of 12 bytes are added and mixed; what is left, filled with zeros, is added and goes through the last
/// mixing. A write of no bytes changes nothing. `finish` returns `pc + 2^32 * pb`. Each run seeds the next, so the
/// result may depend on the split, and no write can be undone.
///
/// Contracts see the hasher as the two words (pc, pb), each below 2^32, which start at (0, 0): `write` gives
/// `h.new ≡ lookup3_from h.old bytes.now`. Of `a` the hash is 6351843130003064584.
pub struct Lookup3Hasher {
    pc: u32,
    pb: u32,
}

impl Model for Lookup3Hasher {
    ghost Value = { ℕ × ℕ };

    ghost view = { λ h. (h.pc, h.pb) };
}

impl Drop for Lookup3Hasher {
    fn drop(self) {
        let Self { pc: _, pb: _ } = self;
    }
}

impl Lookup3Hasher {
    /// The hasher that stands at these two words, as after the pieces whose hash is pc + 2^32 * pb.
    #[inline(always)]
    pub fn new(pc: u32, pb: u32) -> Lookup3Hasher
        ensures { result ≡ (pc, pb) }
    {
        Lookup3Hasher { pc, pb }
    }

    /// The three words that a piece of some bytes ends in: the third word, which the answer leaves out, and then the
    /// two that `write` keeps, the higher one first. (Of no bytes they are those of a run that `write` does not
    /// make.)
    pub fn piece_words(&self, piece: &[u8]) -> [u32; 3]
        ensures words { result ≡ lookup3_words self.now.0 self.now.1 piece.now }
        ensures kept { piece.now ≢ []
            → lookup3_from self.now piece.now ≡ (slice_index result 2, slice_index result 1) }
    {
        lookup3_words(self.pc, self.pb, piece)
    }

    /// The three words from which a run over a piece of so many bytes starts here: 0xdeadbeef, the length modulo 2^32 and pc in all
    /// three, and pb in the third.
    #[inline(always)]
    pub fn start_words(&self, len: usize) -> [u32; 3]
        ensures { result ≡ start self.now.0 self.now.1 len }
    {
        start(self.pc, self.pb, len)
    }
}

impl Default for Lookup3Hasher {
    ghost is_default = { λ h. h ≡ (0, 0) };

    /// The hasher of no pieces: both words are 0.
    fn default() -> Lookup3Hasher {
        Lookup3Hasher::new(0, 0)
    }
}

impl Hasher for Lookup3Hasher {
    ghost write = { lookup3_from };

    ghost finish = { lookup3_answer };

    /// Both words: pc + 2^32 * pb.
    #[inline(always)]
    fn finish(&self) -> u64
        ensures value { result ≡ lookup3_answer self.now }
        ensures in_range { AreTwoWords self.now }
    {
        u64::from(self.pc) + u64::from(self.pb) * 4294967296
    }

    /// One run over the bytes; no bytes change nothing. The three words of the run begin with the length and the two words
    /// so far, take each whole block of twelve bytes in and mix, take what is left in, filled with zeros, and mix for the
    /// last time; two of them are kept.
    #[inline(always)]
    fn write(&mut self, bytes: &[u8])
        ensures state { self.new ≡ lookup3_from self.old bytes.now }
        ensures in_range_before { AreTwoWords self.old }
        ensures in_range_after { AreTwoWords self.new }
    {
        let pc = self.pc;
        let pb = self.pb;
        if !bytes.is_empty() {
            let words = lookup3_words(pc, pb, bytes);
            self.pc = words[2];
            self.pb = words[1];
        }
    }
}

impl Piecewise for Lookup3Hasher {
    ghost State = { ℕ × ℕ };

    ghost state = { λ h. h };

    ghost in_range = { AreTwoWords };

    ghost fresh = { (0, 0) };

    ghost after = { lookup3_from };

    ghost answer = { lookup3_answer };

    ghost hash_of = { lookup3_of };

    ghost first = { (0, 0) };

    #[inline(always)]
    fn state_in_range(&self) {
        let _pc = self.pc;
        let _pb = self.pb;
    }

    #[inline(always)]
    fn whole(text: &[u8]) -> u64 {
        let mut hasher = Lookup3Hasher::default();
        hasher.write(text);
        hasher.finish()
    }

    #[inline(always)]
    fn fork(&self) -> Lookup3Hasher {
        Lookup3Hasher {
            pc: self.pc,
            pb: self.pb,
        }
    }

    ghost default_is_first = { λ h same. same };

    ghost first_is_fresh = { refl };

    ghost hash_of_is = { λ text. refl };

    ghost write_feeds = { λ h piece. refl };

    ghost finish_answers = { λ h. refl };

    ghost fresh_in_range = { (lit< tt, lit< tt) };

    ghost after_in_range = { lookup3-AreTwoWords };

    ghost after_nothing = { λ s known. refl };
}

/// lookup3 of the bytes in one piece, from the words 0 and 0.
pub fn lookup3(bytes: &[u8]) -> u64
    ensures { result ≡ lookup3_of bytes.now }
{
    hash_of::<Lookup3Hasher>(bytes)
}
