//! The chunks of what a reader gives, the same ones however the reader cuts its bytes.
ghost use Rattle.std.specs.Prelude.{◌≡◌, ◌≤◌, ◌<◌, ◌+◌, ◌-◌, ◌↔◌, ◌∷◌, [], ℕ, List, Option, Some, None, length, take, drop, IfOk, IfErr, OnOk, OnErr, IsTrue, true, false};
ghost use Rattle.std.specs.Io.KnownBytes.{IsAtEnd};
ghost use Rattle.hash_cuts.specs.Cuts.{chunks, first_cut};
ghost use Rattle.hash_cuts.specs.Reading.{BreaksAt, CutsAll, CutsRead, GivesFirst, IsBegun, Taken, Takes};
ghost use Rattle.streams.specs.Streams.{ReadsBehind};

use crate::cuts::Cuts;
use hashers::reader::{Fault, Taken, fill};
use std::alloc::Global;
use std::io::{Read, Result as IoResult};

/// What takes chunks one after the other.
pub trait Sink {
    /// Why a chunk was not taken.
    type Error: Drop;

    /// The sink, as it was at the start and as it is now, has meanwhile taken these chunks, in this order, and then refused one, if there
    /// is one. What that left, as a part of a line, is for the sink to say.
    ghost taken: { Taken Self };

    /// Takes a chunk behind the others, or refuses it.
    fn take(&mut self, chunk: &[u8]) -> Result<(), Self::Error>
        ensures ok { OnOk result (Takes taken self.old self.new (chunk.now ∷ []) None) }
        ensures err { OnErr result (Takes taken self.old self.new [] (Some chunk.now)) };
}

/// Why a reader was not cut to its end.
#[derive(Drop)]
pub enum Unfinished<E: Drop> {
    /// A read failed. The sink has the chunks that end within the bytes read before, and not the one that was begun.
    Unread(Fault),
    /// The sink refused a chunk. It has the chunks before it.
    Refused(E),
    /// There is no memory for more of a chunk. The sink has the chunks that end within the bytes read before, and not the one that was
    /// begun.
    NoMemory,
}

/// Gives the sink the chunks of the bytes that end there whatever comes behind, and returns how many bytes they have.
fn give_first<S: Sink>(cuts: &Cuts, bytes: &[u8], sink: &mut S) -> Result<usize, S::Error>
    ensures gives { IfOk result (λ n.
        GivesFirst S.taken cuts.now bytes.now (drop n bytes.now) None sink.old sink.new) }
    ensures within { IfOk result (λ n. n ≤ length bytes.now) }
    ensures rest { IfOk result (λ n. IsBegun cuts.now (drop n bytes.now)) }
    ensures some { OnErr result ((rest : List ℕ) × (0 < length rest) × GivesFirst S.taken cuts.now bytes.now rest
        (Some (take (first_cut cuts.now rest) rest)) sink.old sink.new) }
{
    let most = cuts.most();
    let mut given = 0;
    while given < bytes.len() {
        let rest = &bytes[given..];
        let n = cuts.first_cut(rest);
        if n == rest.len() && n < most {
            break;
        }
        sink.take(&rest[..n])?;
        given += n;
    }
    Ok(given)
}

/// Gives the sink the last chunk, unless it is empty.
fn give_last<S: Sink>(chunk: &[u8], sink: &mut S) -> Result<(), S::Error>
    ensures none { length chunk.now ≡ 0 → Takes S.taken sink.old sink.new [] None }
    ensures one { 0 < length chunk.now → OnOk result (Takes S.taken sink.old sink.new (chunk.now ∷ []) None) }
    ensures err { OnErr result ((0 < length chunk.now) × Takes S.taken sink.old sink.new [] (Some chunk.now)) }
{
    if chunk.is_empty() {
        return Ok(());
    }
    sink.take(chunk)
}

/// The first bytes of the buffer.
fn front(buffer: &Vec<u8>, count: usize) -> &[u8]
    requires { count ≤ length buffer.now.items }
    ensures { result.now ≡ take count buffer.now.items }
{
    &buffer[..count]
}

/// Moves the bytes of a range to the front, and returns how many they are.
fn to_front(buffer: &mut Vec<u8>, from: usize, to: usize) -> usize
    requires rises { from ≤ to }
    requires within { to ≤ length buffer.old.items }
    ensures count { result ≡ to - from }
    ensures kept { take (to - from) buffer.new.items ≡ take (to - from) (drop from buffer.old.items) }
    ensures len { length buffer.new.items ≡ length buffer.old.items }
{
    buffer.copy_within(from..to, 0);
    to - from
}

/// How many bytes the buffer has at first, if that is no more than a chunk's.
const FIRST: usize = 1 << 18;

/// Makes room behind the bytes that are kept, if there is none: twice as much as before, and at most a whole chunk. Returns whether there
/// is room now: memory may be lacking.
fn has_room(buffer: &mut Vec<u8>, kept: usize, most: usize) -> bool
    requires within { kept ≤ length buffer.old.items }
    requires less { kept < most }
    ensures kept { result ≡ true → take kept buffer.new.items ≡ take kept buffer.old.items }
    ensures room { result ≡ true → kept < length buffer.new.items }
{
    if kept < buffer.len() {
        return true;
    }
    buffer
        .resize(kept.saturating_mul(2).max(FIRST).min(most), 0)
        .is_ok()
}

/// Reads behind the bytes that are kept, until there is no room, the input ends or a read fails, and counts the bytes.
fn read_behind<R: Read>(
    r: &mut R,
    bytes: &mut [u8],
    kept: usize,
    room: usize,
) -> (usize, IoResult<()>)
    requires { kept + room ≤ length bytes.old }
    ensures within { result.0 ≤ room }
    ensures read { ReadsBehind (take kept bytes.old) (take (kept + result.0) bytes.new)
        (R.remaining r.old) (R.remaining r.new) result.0 }
    ensures len { length bytes.new ≡ length bytes.old }
    ensures end { OnOk result.1 (result.0 < room → IsAtEnd (R.remaining r.new)) }
    ensures fault { OnErr result.1 (result.0 < room) }
{
    fill(r, &mut bytes[kept..kept + room])
}

/// The same into the buffer.
fn read_more<R: Read>(
    r: &mut R,
    buffer: &mut Vec<u8>,
    kept: usize,
    room: usize,
) -> (usize, IoResult<()>)
    requires { kept + room ≤ length buffer.old.items }
    ensures within { result.0 ≤ room }
    ensures read { ReadsBehind (take kept buffer.old.items) (take (kept + result.0) buffer.new.items)
        (R.remaining r.old) (R.remaining r.new) result.0 }
    ensures len { length buffer.new.items ≡ length buffer.old.items }
    ensures end { OnOk result.1 (result.0 < room → IsAtEnd (R.remaining r.new)) }
    ensures fault { OnErr result.1 (result.0 < room) }
{
    read_behind(r, buffer.as_mut_slice(), kept, room)
}

/// Does what `cut_reader` says, by a buffer that grows as far as a chunk does. What it holds before does not matter, so one buffer serves
/// many readers.
pub fn cut_reader_by<R: Read, S: Sink>(
    buffer: &mut Vec<u8>,
    cuts: &Cuts,
    r: &mut R,
    limit: u64,
    sink: &mut S,
) -> Result<Taken, Unfinished<S::Error>>
    ensures all { IfOk result (λ taken. IsTrue taken.ended → CutsAll S.taken cuts.now
        (R.remaining r.old) (R.remaining r.new) sink.old sink.new taken.bytes) }
    ensures first { IfOk result (λ taken. taken.ended ≡ false → (rest : List ℕ) × IsBegun cuts.now rest
        × CutsRead S.taken cuts.now (R.remaining r.old) (R.remaining r.new) sink.old sink.new taken.bytes rest None) }
    ensures fault { IfErr result (λ why. (bytes : ℕ) × (rest : List ℕ) × (refused : Option (List ℕ))
        × (bytes ≤ limit) × BreaksAt cuts.now why bytes rest refused
        × CutsRead S.taken cuts.now (R.remaining r.old) (R.remaining r.new) sink.old sink.new bytes rest refused) }
    ensures within { IfOk result (λ taken. taken.bytes ≤ limit) }
    ensures at_limit { IfOk result (λ taken. (taken.ended ≡ false) ↔ (taken.bytes ≡ limit)) }
{
    let most = cuts.most();
    let mut kept = 0;
    let mut bytes = 0;
    while bytes < limit {
        if !has_room(buffer, kept, most) {
            return Err(Unfinished::NoMemory);
        }
        let room = (limit - bytes).min((buffer.len() - kept) as u64) as usize;
        let (count, outcome) = read_more(r, buffer, kept, room);
        bytes += count as u64;
        let whole = front(buffer, kept + count);
        let given = match give_first(cuts, whole, sink) {
            Ok(given) => given,
            Err(error) => return Err(Unfinished::Refused(error)),
        };
        kept = to_front(buffer, given, kept + count);
        if let Err(error) = outcome {
            return Err(Unfinished::Unread(Fault { bytes, error }));
        }
        if count < room {
            let last = front(buffer, kept);
            return match give_last(last, sink) {
                Ok(()) => Ok(Taken { bytes, ended: true }),
                Err(error) => Err(Unfinished::Refused(error)),
            };
        }
    }
    Ok(Taken {
        bytes,
        ended: false,
    })
}

/// Reads to the end, or up to `limit` bytes, and gives the sink the chunks, the same ones however the reader cuts its bytes.
///
/// It takes memory as the longest chunk needs, for `most` bytes at most. At the limit, which was met if `ended` is `false`, and after a
/// read's error, `Interrupted` too, the sink has the chunks that end within the bytes read, and not the one that was begun.
pub fn cut_reader<R: Read, S: Sink>(
    alloc: Global,
    cuts: &Cuts,
    r: &mut R,
    limit: u64,
    sink: &mut S,
) -> Result<Taken, Unfinished<S::Error>>
    // All chunks, if the end was seen;
    ensures all { IfOk result (λ taken. IsTrue taken.ended → CutsAll S.taken cuts.now
        (R.remaining r.old) (R.remaining r.new) sink.old sink.new taken.bytes) }
    // at the limit and after a fault first ones.
    ensures first { IfOk result (λ taken. taken.ended ≡ false → (rest : List ℕ) × IsBegun cuts.now rest
        × CutsRead S.taken cuts.now (R.remaining r.old) (R.remaining r.new) sink.old sink.new taken.bytes rest None) }
    ensures fault { IfErr result (λ why. (bytes : ℕ) × (rest : List ℕ) × (refused : Option (List ℕ))
        × (bytes ≤ limit) × BreaksAt cuts.now why bytes rest refused
        × CutsRead S.taken cuts.now (R.remaining r.old) (R.remaining r.new) sink.old sink.new bytes rest refused) }
    // If the reader's bytes are known, all chunks are theirs.
    ensures known { IfOk result (λ taken. IsTrue taken.ended → (text : List ℕ) → R.remaining r.old ≡ Some text
        → Takes S.taken sink.old sink.new (chunks cuts.now text) None) }
    ensures within { IfOk result (λ taken. taken.bytes ≤ limit) }
    ensures at_limit { IfOk result (λ taken. (taken.ended ≡ false) ↔ (taken.bytes ≡ limit)) }
{
    let mut buffer = Vec::new(alloc);
    cut_reader_by(&mut buffer, cuts, r, limit, sink)
}
