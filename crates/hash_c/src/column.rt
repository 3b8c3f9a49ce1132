//! The hashes of many texts in one call, as one body for every hash: of texts between offsets of 32 or of 64 bits, and of lines.
ghost use Rattle.std.specs.Prelude.{◌≡◌, ◌+◌, ◌<◌, ◌↔◌, ◌∷◌};
ghost use Rattle.hash_c.specs.Common.{ℕ, List, length, map, slice_index, IsSome, IsTrue, AreOffsets, IsColumn, IsColumnBy, NoneFalls, laid_over, line_texts, hash_at, hash_of, kind_at};

use crate::kinds::kind_at;
use hash_kinds::table::{Kind, by_kind};
use hash_names::task::HashTask;
use hashers::laws::{Piecewise, Streamed, hash_of};
use std::marker::PhantomData;

/// A place in a text.
pub trait Offset {
    /// The place as a number.
    ghost number: { Self → ℕ };

    /// The place as a number.
    fn number(&self) -> u64
        ensures { result ≡ number self.now };
}

impl Offset for u32 {
    ghost number = { λ offset. offset };

    #[inline(always)]
    fn number(&self) -> u64 {
        u64::from(*self)
    }
}

impl Offset for u64 {
    ghost number = { λ offset. offset };

    #[inline(always)]
    fn number(&self) -> u64 {
        *self
    }
}

/// The place of that number.
#[inline(always)]
fn place<O: Offset>(offsets: &[O], i: usize) -> u64
    requires { i < length offsets.now }
    ensures { result ≡ slice_index (map O.number offsets.now) i }
{
    offsets[i].number()
}

/// Whether none of so many steps from place to place falls. The loop looks at all of them, and so has no branch at each.
#[inline(always)]
fn none_falls<O: Offset>(offsets: &[O], count: usize) -> bool
    requires { length offsets.now ≡ count + 1 }
    ensures { IsTrue result ↔ NoneFalls count (map O.number offsets.now) }
{
    let mut falls = 0;
    let mut from = place(offsets, 0);
    for i in 0..count {
        let to = place(offsets, i + 1);
        falls += usize::from(to < from);
        from = to;
    }
    falls == 0
}

/// Whether the offsets are those of so many texts in so many bytes. Where none falls, the last is the highest. It is a call of its
/// own, so that it stands once in the library, and not once for each hash.
#[inline(never)]
fn are_offsets<O: Offset>(offsets: &[O], size: usize, count: usize) -> bool
    ensures { IsTrue result ↔ AreOffsets size count (map O.number offsets.now) }
{
    if count == usize::MAX || offsets.len() != count + 1 {
        return false;
    }
    place(offsets, count) <= size as u64 && none_falls(offsets, count)
}

/// Writes the hash of each text, and answers that the offsets are those of texts; else nothing is written. It is a call of its own,
/// so that each hash's loop has the registers for itself.
#[inline(never)]
fn column<H: Piecewise, O: Offset>(bytes: &[u8], offsets: &[O], hashes: &mut [u64]) -> bool
    ensures { IsColumn H.hash_of bytes.now (map O.number offsets.now) hashes.old hashes.new result }
{
    if !are_offsets(offsets, bytes.len(), hashes.len()) {
        return false;
    }
    for i in 0..hashes.len() {
        let from = place(offsets, i) as usize;
        let to = place(offsets, i + 1) as usize;
        hashes[i] = hash_of::<H>(&bytes[from..to]);
    }
    true
}

/// Where hashes are written.
#[derive(Drop)]
struct Room<'b> {
    hashes: &'b mut [u64],
}

/// To write the hashes of a column of texts.
struct InColumn<'a, 'b, O> {
    texts: PhantomData<&'a O>,
    hashes: PhantomData<&'b u64>,
}

impl<'a, 'b, O: Offset> HashTask for InColumn<'a, 'b, O> {
    type Told = (&'a [u8], &'a [O]);

    type Input = Room<'b>;

    type Outcome = bool;

    ghost by = { λ hash read texts before after result. (after.hashes.ghost_name ≡ before.hashes.ghost_name)
        × IsColumn hash texts.0.now (map O.number texts.1.now) before.hashes.now after.hashes.now result };

    fn by_text<H: Streamed>(texts: (&'a [u8], &'a [O]), room: &mut Room<'b>) -> bool {
        column::<H, O>(texts.0, texts.1, room.hashes)
    }

    fn by_pieces<H: Piecewise>(texts: (&'a [u8], &'a [O]), room: &mut Room<'b>) -> bool {
        column::<H, O>(texts.0, texts.1, room.hashes)
    }

    ghost by_same = { λ hash read same agree texts before after result done. done };
}

/// Writes the hash of each text by that hash.
fn in_column<'a, 'b, O: Offset>(kind: Kind, texts: (&'a [u8], &'a [O]), room: &mut Room<'b>) -> bool
    ensures same { room.new.hashes.ghost_name ≡ room.old.hashes.ghost_name }
    ensures done { IsColumn (hash_of kind) texts.entry.0.now (map O.number texts.entry.1.now)
        room.old.hashes.now room.new.hashes.now result }
{
    by_kind::<InColumn<'a, 'b, O>>(kind, texts, room)
}

/// Writes the hash of each text by the hash of that number, and answers that there is one and the offsets are those of texts; else
/// nothing is written.
pub(crate) fn column_by<'a, O: Offset>(
    kind: u32,
    bytes: &'a [u8],
    offsets: &'a [O],
    hashes: &mut [u64],
) -> bool
    ensures { IsColumnBy kind bytes.now (map O.number offsets.now) hashes.old hashes.new result }
{
    match kind_at(kind) {
        Some(kind) => {
            let mut room = Room { hashes };
            in_column::<O>(kind, (bytes, offsets), &mut room)
        }
        None => false,
    }
}

/// The first line, and what is behind its newline.
fn first_line(bytes: &[u8]) -> (&[u8], &[u8])
    requires { 0 < length bytes.now }
    ensures first { line_texts 10 bytes.now ≡ result.0.now ∷ line_texts 10 result.1.now }
    ensures shorter { length result.1.now < length bytes.now }
{
    match bytes.iter().position(|byte| *byte == b'\n') {
        Some(n) => (&bytes[..n], &bytes[n + 1..]),
        None => (bytes, &[]),
    }
}

/// Writes the hash of each line, as far as there is room, and answers how many lines there are.
fn hash_lines<H: Piecewise>(bytes: &[u8], hashes: &mut [u64]) -> usize
    ensures count { result ≡ length (line_texts 10 bytes.now) }
    ensures written { hashes.new ≡ laid_over (map H.hash_of (line_texts 10 bytes.now)) hashes.old }
{
    let mut count = 0;
    let mut rest = bytes;
    while !rest.is_empty() {
        let (line, later) = first_line(rest);
        if count < hashes.len() {
            hashes[count] = hash_of::<H>(line);
        }
        count += 1;
        rest = later;
    }
    count
}

/// To write the hashes of lines.
struct InLines<'a, 'b> {
    text: PhantomData<&'a u8>,
    hashes: PhantomData<&'b u64>,
}

impl<'a, 'b> HashTask for InLines<'a, 'b> {
    type Told = &'a [u8];

    type Input = Room<'b>;

    type Outcome = usize;

    ghost by = { λ hash read text before after result. (after.hashes.ghost_name ≡ before.hashes.ghost_name)
        × (result ≡ length (line_texts 10 text.now))
        × (after.hashes.now ≡ laid_over (map hash (line_texts 10 text.now)) before.hashes.now) };

    fn by_text<H: Streamed>(text: &'a [u8], room: &mut Room<'b>) -> usize {
        hash_lines::<H>(text, room.hashes)
    }

    fn by_pieces<H: Piecewise>(text: &'a [u8], room: &mut Room<'b>) -> usize {
        hash_lines::<H>(text, room.hashes)
    }

    ghost by_same = { λ hash read same agree text before after result done. done };
}

/// Writes the hash of each line by that hash.
fn in_lines<'a, 'b>(kind: Kind, text: &'a [u8], room: &mut Room<'b>) -> usize
    ensures same { room.new.hashes.ghost_name ≡ room.old.hashes.ghost_name }
    ensures count { result ≡ length (line_texts 10 text.now) }
    ensures written { room.new.hashes.now
        ≡ laid_over (map (hash_of kind) (line_texts 10 text.now)) room.old.hashes.now }
{
    by_kind::<InLines<'a, 'b>>(kind, text, room)
}

/// Writes the hash of each line by the hash of that number, as far as there is room, and answers how many lines there are; 0 where
/// no hash has the number, and nothing is written.
pub(crate) fn lines_by(kind: u32, bytes: &[u8], hashes: &mut [u64]) -> usize
    ensures known { IsSome (kind_at kind) → (result ≡ length (line_texts 10 bytes.now))
        × (hashes.new ≡ laid_over (map (hash_at kind) (line_texts 10 bytes.now)) hashes.old) }
    ensures unknown { kind_at kind ≡ None → (result ≡ 0) × (hashes.new ≡ hashes.old) }
{
    match kind_at(kind) {
        Some(kind) => {
            let mut room = Room { hashes };
            in_lines(kind, bytes, &mut room)
        }
        None => 0,
    }
}
