//! How a hasher of a text of more than 240 bytes goes on.
ghost use Rattle.std.specs.Prelude.{◌≡◌, ◌+◌, ◌-◌, ◌*◌, ◌/◌, ◌%◌, ◌^◌, ◌<◌, ◌≤◌, ◌++◌};
ghost use Rattle.hash_xxh3.specs.Common.{ℕ, length, take, drop, secret_of, advanced, position};
ghost use Rattle.hash_xxh3.specs.declared.long.Lanes.{Lanes};

use crate::long::{Lanes, START, STRIPE, stripes_in};
use crate::secret::{default_secret, secret_of};
use hash_words::put;

// Keeps the last stripe that has a byte behind it, and what is behind it, of a stripe and the bytes behind that.
#[inline(always)]
fn keep(buffer: &mut [u8; 256], stripe: &[u8; 64], rest: &[u8]) -> usize
    requires { 1 ≤ length rest.now }
    ensures kept { take result buffer.new ≡ drop (64 * ((length rest.now - 1) / 64)) (stripe.now ++ rest.now) }
    ensures some { 65 ≤ result }
    ensures few { result ≤ 128 }
{
    let whole = (rest.len() - 1) / STRIPE * STRIPE;
    if whole == 0 {
        put(buffer, 0, stripe);
        put(buffer, 64, rest);
        64 + rest.len()
    } else {
        put(buffer, 0, &rest[whole - 64..]);
        64 + rest.len() - whole
    }
}

// Fills the last stripe, and goes on over the bytes behind it, of which there is one at least.
#[inline(never)]
fn advance_through(
    secret: &[u8; 192],
    lanes: &mut Lanes,
    buffer: &mut [u8; 256],
    kept: usize,
    bytes: &[u8],
) -> usize
    requires block { lanes.old.stripe < 16 }
    requires one { 64 ≤ kept }
    requires room { kept ≤ 256 }
    requires enough { 256 < kept + length bytes.now }
    ensures position { (seed len : ℕ) → secret.now ≡ secret_of seed
        → advanced seed lanes.new len (take result buffer.new)
        ≡ advanced seed lanes.old len (take kept buffer.old ++ bytes.now) }
    ensures some { 65 ≤ result }
    ensures few { result ≤ 256 }
    ensures in_block { lanes.new.stripe < 16 }
{
    let end = (kept + 63) / STRIPE * STRIPE;
    let (head, rest) = bytes.split_at(end - kept);
    put(buffer, kept, head);
    let (full, _) = buffer.split_at(end);
    let (_, behind) = full.split_at(STRIPE);
    let stripe = *full.last_chunk::<64>().unwrap();
    let (stripes, _) = rest.split_at((rest.len() - 1) / STRIPE * STRIPE);
    let next = stripes_in(secret, *lanes, behind);
    *lanes = stripes_in(secret, next, stripes);
    keep(buffer, &stripe, rest)
}

/// Keeps the bytes, for which there is room.
#[inline(always)]
pub(crate) fn keep_all(buffer: &mut [u8; 256], kept: usize, bytes: &[u8]) -> usize
    requires { kept + length bytes.now ≤ 256 }
    ensures kept { take result buffer.new ≡ take kept buffer.old ++ bytes.now }
    ensures count { result ≡ kept + length bytes.now }
{
    put(buffer, kept, bytes);
    kept + bytes.len()
}

/// Goes on over more bytes, where a whole stripe and something after it are kept. As many are kept then as the result says.
#[inline(always)]
pub(crate) fn advance(
    secret: &[u8; 192],
    lanes: &mut Lanes,
    buffer: &mut [u8; 256],
    kept: usize,
    bytes: &[u8],
) -> usize
    requires block { lanes.old.stripe < 16 }
    requires one { 65 ≤ kept }
    requires room { kept ≤ 256 }
    ensures position { (seed len : ℕ) → secret.now ≡ secret_of seed
        → advanced seed lanes.new len (take result buffer.new)
        ≡ advanced seed lanes.old len (take kept buffer.old ++ bytes.now) }
    ensures some { 65 ≤ result }
    ensures few { result ≤ 256 }
    ensures in_block { lanes.new.stripe < 16 }
{
    if bytes.len() <= 256 - kept {
        keep_all(buffer, kept, bytes)
    } else {
        advance_through(secret, lanes, buffer, kept, bytes)
    }
}

/// Goes on over bytes that are more than the buffer has room for, under the secret of a seed.
#[inline(always)]
#[tactic(auto, using(crate::proofs::SecretLemmas::secret_of_none))]
pub(crate) fn advance_under(
    seed: u64,
    lanes: &mut Lanes,
    buffer: &mut [u8; 256],
    kept: usize,
    bytes: &[u8],
) -> usize
    requires block { lanes.old.stripe < 16 }
    requires one { 64 ≤ kept }
    requires room { kept ≤ 256 }
    requires enough { 256 < kept + length bytes.now }
    ensures position { (len : ℕ) → advanced seed lanes.new len (take result buffer.new)
        ≡ advanced seed lanes.old len (take kept buffer.old ++ bytes.now) }
    ensures some { 65 ≤ result }
    ensures few { result ≤ 256 }
    ensures in_block { lanes.new.stripe < 16 }
{
    if seed == 0 {
        advance_through(default_secret(), lanes, buffer, kept, bytes)
    } else {
        advance_through(&secret_of(seed), lanes, buffer, kept, bytes)
    }
}

/// Goes on over the bytes that make a short text a long one. As many are kept then as the result says.
#[inline(never)]
pub(crate) fn begin_through(
    secret: &[u8; 192],
    lanes: &mut Lanes,
    buffer: &mut [u8; 256],
    kept: usize,
    bytes: &[u8],
) -> usize
    requires short { kept < 241 }
    requires enough { 241 ≤ kept + length bytes.now }
    ensures position { (seed : ℕ) → secret.now ≡ secret_of seed
        → advanced seed lanes.new ((kept + length bytes.now) % 2 ^ 64) (take result buffer.new)
        ≡ position seed (take kept buffer.old ++ bytes.now) }
    ensures some { 65 ≤ result }
    ensures few { result ≤ 256 }
    ensures in_block { lanes.new.stripe < 16 }
{
    let (head, rest) = bytes.split_at((256 - kept).min(bytes.len()));
    put(buffer, kept, head);
    let end = kept + head.len();
    *lanes = stripes_in(secret, START, &buffer[..STRIPE]);
    advance(secret, lanes, buffer, end, rest)
}
