//! Copies of a few bytes, by parts of fixed lengths: each is a move or two of the machine.

ghost use Rattle.std.specs.Prelude.{◌≡◌, ◌+◌, ◌-◌, ◌*◌, ◌<◌, ◌≤◌, length, take, drop};
ghost use Rattle.hash_words.specs.Put.{put_at};

/// Writes the bytes into a buffer from the place `at` on.
#[inline(always)]
pub fn put_array<const N: usize>(buffer: &mut [u8], at: usize, bytes: [u8; N])
    requires { at + N ≤ length buffer.old }
    ensures { buffer.new ≡ put_at at bytes.entry buffer.old }
{
    buffer[at..at + N].copy_from_slice(&bytes);
}

// Writes the first N bytes of a text.
#[inline(always)]
fn put_first<const N: usize>(buffer: &mut [u8], at: usize, text: &[u8])
    requires fits { at + length text.now ≤ length buffer.old }
    requires enough { N ≤ length text.now }
    ensures { buffer.new ≡ put_at at (take N text.now) buffer.old }
{
    if let Some(first) = text.first_chunk::<N>() {
        put_array(buffer, at, *first);
    }
}

// Writes the last N bytes of a text where all of it would put them.
#[inline(always)]
fn put_last<const N: usize>(buffer: &mut [u8], at: usize, text: &[u8])
    requires fits { at + length text.now ≤ length buffer.old }
    requires enough { N ≤ length text.now }
    ensures { buffer.new ≡ put_at (at + (length text.now - N)) (drop (length text.now - N) text.now) buffer.old }
{
    if let Some(last) = text.last_chunk::<N>() {
        put_array(buffer, at + (text.len() - N), *last);
    }
}

// Writes a text of N to 2 * N bytes by its first and its last N.
#[inline(always)]
#[tactic(auto, using(crate::proofs::PutLemmas::covered))]
fn put_ends<const N: usize>(buffer: &mut [u8], at: usize, text: &[u8])
    requires fits { at + length text.now ≤ length buffer.old }
    requires enough { N ≤ length text.now }
    requires few { length text.now ≤ 2 * N }
    ensures { buffer.new ≡ put_at at text.now buffer.old }
{
    put_first::<N>(buffer, at, text);
    put_last::<N>(buffer, at, text);
}

/// Writes a text into a buffer from the place `at` on: up to 256 bytes by parts of fixed lengths, and a longer one as a whole.
#[inline(always)]
pub fn put<const N: usize>(buffer: &mut [u8; N], at: usize, text: &[u8])
    requires { at + length text.now ≤ length buffer.old }
    ensures { buffer.new ≡ put_at at text.now buffer.old }
{
    let len = text.len();
    let buffer = &mut buffer[..];
    // a buffer that is smaller needs no code for such texts
    if N > 256 && len > 256 {
        buffer[at..at + len].copy_from_slice(text);
        return;
    }
    if len == 0 {
        return;
    }
    if len >= 16 {
        if len >= 64 {
            if len >= 128 {
                put_ends::<128>(buffer, at, text)
            } else {
                put_ends::<64>(buffer, at, text)
            }
        } else if len >= 32 {
            put_ends::<32>(buffer, at, text)
        } else {
            put_ends::<16>(buffer, at, text)
        }
    } else if len >= 4 {
        if len >= 8 {
            put_ends::<8>(buffer, at, text)
        } else {
            put_ends::<4>(buffer, at, text)
        }
    } else if len >= 2 {
        put_ends::<2>(buffer, at, text)
    } else {
        put_ends::<1>(buffer, at, text)
    }
}
