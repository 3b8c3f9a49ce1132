//! What the library's generic calls give at a hasher that is not known.
ghost use Rattle.std.specs.Prelude.{◌≡◌, ◌≤◌, ◌%◌, ◌++◌, ◌∷◌, [], fold, length};
ghost use Rattle.std.specs.Hash.{le_bytes};
ghost use Rattle.hashers.specs.Text.{joined, texts};
ghost use Rattle.hashers.specs.Writes.{all_written, joined_written};

use hashers::build::{hash_one_number, hash_one_slice, hash_one_str};
use hashers::laws::{
    ByteStep, HasherWrite, Piecewise, Streamed, Undo, answer_of_writes, bucket_of, hash_of,
    run_pieces, run_streamed, run_writes, unrun_writes,
};

/// The hash of a text, and its bucket among some.
pub fn hash_and_bucket<H: Piecewise>(text: &[u8], buckets: u64) -> (u64, u64)
    requires { 1 ≤ buckets }
    ensures hash { result.0 ≡ H.hash_of text.now }
    ensures bucket { result.1 ≡ H.hash_of text.now % buckets }
{
    (hash_of::<H>(text), bucket_of::<H>(text, buckets))
}

/// Pieces lead where their fold leads.
pub fn fed<H: Piecewise>(h: &mut H, pieces: &[&[u8]])
    ensures { H.state h.new ≡ fold H.after (H.state h.old) (texts pieces.now) }
{
    run_pieces(h, pieces);
}

/// The answer after pieces that follow a default hasher's start: that of the joined text.
pub fn answered<H: Streamed>(pieces: &[&[u8]]) -> u64
    ensures { result ≡ H.hash_from H.start ([] ++ joined pieces.now) }
{
    let mut hasher = H::fresh();
    let _ = hasher.answer();
    run_streamed(&mut hasher, pieces);
    hasher.answer()
}

/// The hash after writes: that of the joined bytes.
pub fn written<H: Streamed>(writes: &[HasherWrite]) -> u64
    ensures { result ≡ H.hash_of (joined_written writes.now) }
{
    answer_of_writes::<H>(writes)
}

/// Writes that are made and taken back leave the state as it was.
pub fn there_and_back<H: Undo>(h: &mut H, writes: &[HasherWrite])
    ensures { H.state h.new ≡ H.state h.old }
{
    let _ = h.answer();
    run_writes(h, writes);
    unrun_writes(h, writes);
}

/// A byte that is taken in and out leaves the state as it was.
pub fn step_and_back<H: ByteStep>(h: &mut H, byte: u8)
    ensures { H.state h.new ≡ H.state h.old }
{
    h.step(byte);
    h.unstep(byte);
}

/// The hashes of three keys of a map: a number, a slice of bytes, a string.
pub fn keys<H: Streamed>(number: u64, bytes: &[u8], string: &str) -> (u64, u64, u64)
    ensures number { result.0 ≡ H.hash_of (le_bytes 8 number) }
    ensures slice { result.1 ≡ H.hash_of (le_bytes 8 (length bytes.now) ++ bytes.now) }
    ensures string { result.2 ≡ H.hash_of (string.now ++ 0xFF ∷ []) }
{
    (
        hash_one_number::<H>(number),
        hash_one_slice::<H>(bytes),
        hash_one_str::<H>(string),
    )
}
