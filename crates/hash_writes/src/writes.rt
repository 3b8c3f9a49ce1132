//! Lists of writes: any calls that std's `Hasher` offers for bytes and unsigned numbers, made in order and undone.
ghost use Rattle.std.specs.Prelude.{◌≡◌, ◌≢◌, ℕ, List, [], ◌++◌, All, fold};
ghost use Rattle.hash_laws.specs.Text.{IsText};
ghost use Rattle.hash_writes.specs.Writes.{written, all_written, joined_written, IsTakenOut};

use hash_laws::traits::{Piecewise, Streamed, Undo};

/// One write to a hasher. A number is written as its little-endian bytes: 1, 2, 4 or 8 of them, and 8 for `Usize`.
#[derive(Clone, Copy, Drop)]
pub enum HasherWrite<'a> {
    /// The bytes.
    Bytes(&'a [u8]),
    /// One byte.
    U8(u8),
    /// Two bytes, the low one first.
    U16(u16),
    /// Four bytes, the lowest first.
    U32(u32),
    /// Eight bytes, the lowest first.
    U64(u64),
    /// Eight bytes, the lowest first.
    Usize(usize),
}

/// Writes the bytes.
fn write_bytes<H: Piecewise>(h: &mut H, bytes: &[u8])
    ensures state { H.state h.new ≡ H.after (H.state h.old) bytes.now }
    ensures text { IsText bytes.now }
{
    h.write(bytes);
}

/// Makes a write by the method of std's `Hasher` that is named as it.
#[tactic(auto, using(hash_laws::specs::TextLaws::number_texts))]
fn make<H: Piecewise>(h: &mut H, write: &HasherWrite)
    ensures state { H.state h.new ≡ H.after (H.state h.old) (written write.now) }
    ensures text { IsText (written write.now) }
{
    match write {
        HasherWrite::Bytes(bytes) => write_bytes(h, bytes),
        HasherWrite::U8(value) => h.write_u8(*value),
        HasherWrite::U16(value) => h.write_u16(*value),
        HasherWrite::U32(value) => h.write_u32(*value),
        HasherWrite::U64(value) => h.write_u64(*value),
        HasherWrite::Usize(value) => h.write_usize(*value),
    }
}

/// Takes the bytes out by `unwrite`.
fn unwrite_bytes<H: Undo>(h: &mut H, bytes: &[u8])
    ensures { IsTakenOut H.in_range H.after (H.state h.old) (H.state h.new) bytes.now }
{
    h.unwrite(bytes);
}

/// Takes a write back by `unwrite` of its bytes.
#[tactic(auto, using(hash_laws::specs::TextLaws::number_bytes))]
fn take_back<H: Undo>(h: &mut H, write: &HasherWrite)
    ensures { IsTakenOut H.in_range H.after (H.state h.old) (H.state h.new) (written write.now) }
{
    match write {
        HasherWrite::Bytes(bytes) => unwrite_bytes(h, bytes),
        HasherWrite::U8(value) => unwrite_bytes(h, &[*value]),
        HasherWrite::U16(value) => unwrite_bytes(h, &value.to_le_bytes()),
        HasherWrite::U32(value) => unwrite_bytes(h, &value.to_le_bytes()),
        HasherWrite::U64(value) => unwrite_bytes(h, &value.to_le_bytes()),
        HasherWrite::Usize(value) => unwrite_bytes(h, &value.to_le_bytes()),
    }
}

/// Makes the writes in order, by std's own methods. The state is the fold of the definition over the bytes of each.
pub fn run_writes<H: Piecewise>(h: &mut H, writes: &[HasherWrite])
    ensures state { H.state h.new ≡ fold H.after (H.state h.old) (all_written writes.now) }
{
    for write in writes {
        make(h, write);
    }
}

/// Makes the writes in order, by std's own methods. Only the joined bytes count: what stood at (start, text) stands at
/// (start, text followed by the joined bytes of the writes), and its answer is the definition of that text.
pub fn run_writes_streamed<H: Streamed>(h: &mut H, writes: &[HasherWrite])
    ensures state { H.in_range (H.state h.old)
        → H.state h.new ≡ H.after (H.state h.old) (joined_written writes.now) }
    ensures stands { (from text : List ℕ) → H.stands_at h.old from text
        → H.stands_at h.new from (text ++ joined_written writes.now) }
    ensures answers { (from text : List ℕ) → H.stands_at h.old from text
        → H.answer (H.state h.new) ≡ H.hash_from from (text ++ joined_written writes.now) }
    ensures text { IsText (joined_written writes.now) }
{
    for write in writes {
        make(h, write);
    }
}

/// The hash of the joined bytes of the writes, from the default start.
pub fn answer_of_writes<H: Streamed>(writes: &[HasherWrite]) -> u64
    ensures defined { result ≡ H.hash_from H.start (joined_written writes.now) }
    ensures value { result ≡ H.hash_of (joined_written writes.now) }
    ensures text { IsText (joined_written writes.now) }
{
    let mut hasher = H::fresh();
    run_writes_streamed(&mut hasher, writes);
    hasher.answer()
}

/// Takes the writes back, from the last to the first: the inverse of `run_writes` of the same list, both ways, on every
/// state.
pub fn unrun_writes<H: Undo>(h: &mut H, writes: &[HasherWrite])
    // The writes lead back to where the hasher was,
    ensures back { fold H.after (H.state h.new) (all_written writes.now) ≡ H.state h.old }
    // and from wherever they led there, that is the state now.
    ensures undone { (s : H.State) → H.in_range s
        → fold H.after s (all_written writes.now) ≡ H.state h.old → H.state h.new ≡ s }
    ensures texts { All IsText (all_written writes.now) }
{
    for write in writes.iter().rev() {
        take_back(h, write);
    }
}
