//! The hasher of a key of a map: each word of its first 128 bytes times a multiplier of its own, and the hash `poly61` of the
//! bytes after them times one more, added up; the answer is the high half.
ghost use Rattle.std.specs.Prelude.{◌≡◌, ◌≢◌, ◌+◌, ◌-◌, ◌*◌, ◌/◌, ◌^◌, ◌%◌, ◌<◌, ◌≤◌, [], length, slice_index};
ghost use Rattle.hash_keyed.specs.Poly61State.{after};
ghost use Rattle.std.specs.Hash.{le_bytes};
ghost use Rattle.hash_keyed.specs.Poly61.{prime61};
ghost use Rattle.hash_map_keys.specs.MapKeys.{map_hash};
ghost use Rattle.std.specs.declared.option.Option.TheVariants.{None};
ghost use Rattle.hash_map_keys.specs.KeyState.{after_write, answer_of, rest_after, share};

use crate::keys::MapKeys;
use crate::words::{number_of, number_of_last};
use hash_keyed::poly61::Poly61Hasher;
use hashers::rounds::le64;
use std::hash::{BuildHasher, Hasher};

/// The hash of a key of a map, over its bytes in any parts. It counts them up to 129.
#[derive(Drop)]
pub struct MapHasher<'a> {
    pub(crate) keys: &'a MapKeys,
    pub(crate) sum: u128,
    pub(crate) held: usize,
    pub(crate) rest: Option<Poly61Hasher>,
}

/// A sum with one word more.
#[inline(always)]
fn with_word(sum: u128, multiplier: u128, word: u64) -> u128
    ensures { result ≡ (sum + multiplier * word) % 2 ^ 128 }
{
    sum.wrapping_add(multiplier.wrapping_mul(u128::from(word)))
}

/// The high half of a sum.
#[inline(always)]
fn high(sum: u128) -> u64
    ensures { result ≡ sum / 2 ^ 64 }
{
    (sum >> 64) as u64
}

/// A sum with the bytes after those that are held: each goes into its word.
fn behind(multipliers: &[u128; 17], start: u128, held: usize, bytes: &[u8]) -> u128
    requires { held + length bytes.now ≤ 128 }
    ensures { result ≡ (start + share multipliers.now held bytes.now) % 2 ^ 128 }
{
    let mut sum = start;
    let mut at = held;
    let mut rest = bytes;
    while !rest.is_empty() {
        let count = rest.len().min(8 - at % 8);
        let (first, more) = rest.split_at(count);
        let number = number_of(first) << (8 * (at % 8) as u32);
        sum = with_word(sum, multipliers[at / 8], number);
        at += count;
        rest = more;
    }
    sum
}

/// The same of eight bytes or more, by whole words, after so many of these.
#[inline(always)]
fn by_words(multipliers: &[u128; 17], start: u128, words: usize, bytes: &[u8]) -> u128
    requires some { 8 ≤ length bytes.now }
    requires room { 8 * words + length bytes.now ≤ 128 }
    ensures { result ≡ (start + share multipliers.now (8 * words) bytes.now) % 2 ^ 128 }
{
    let mut sum = start;
    let mut at = words;
    let mut rest = bytes;
    while let Some((word, more)) = rest.split_first_chunk::<8>() {
        sum = with_word(sum, multipliers[at], le64(word));
        at += 1;
        rest = more;
    }
    if rest.is_empty() {
        sum
    } else {
        with_word(sum, multipliers[at], number_of_last(bytes, rest.len()))
    }
}

/// The same after bytes that are held.
#[inline(never)]
fn later(multipliers: &[u128; 17], start: u128, held: usize, bytes: &[u8]) -> u128
    requires { held + length bytes.now ≤ 128 }
    ensures { result ≡ (start + share multipliers.now held bytes.now) % 2 ^ 128 }
{
    if held % 8 == 0 && bytes.len() >= 8 {
        by_words(multipliers, start, held / 8, bytes)
    } else {
        behind(multipliers, start, held, bytes)
    }
}

/// The same of more than eight bytes after the first word.
#[inline(never)]
fn from_second(multipliers: &[u128; 17], start: u128, bytes: &[u8]) -> u128
    requires many { 8 < length bytes.now }
    requires room { length bytes.now ≤ 120 }
    ensures { result ≡ (start + share multipliers.now 8 bytes.now) % 2 ^ 128 }
{
    match bytes.split_first_chunk::<8>() {
        None => start,
        Some((second, more)) => {
            let sum = with_word(start, multipliers[1], le64(second));
            if more.len() <= 8 {
                with_word(sum, multipliers[2], number_of_last(bytes, more.len()))
            } else {
                by_words(multipliers, sum, 2, more)
            }
        }
    }
}

/// The same, the first two words by themselves where there are no bytes before them, as there are none before a string.
#[inline(never)]
fn within(multipliers: &[u128; 17], start: u128, held: usize, bytes: &[u8]) -> u128
    requires { held + length bytes.now ≤ 128 }
    ensures { result ≡ (start + share multipliers.now held bytes.now) % 2 ^ 128 }
{
    if held != 0 {
        return later(multipliers, start, held, bytes);
    }
    match bytes.split_first_chunk::<8>() {
        None => with_word(start, multipliers[0], number_of(bytes)),
        Some((first, more)) => {
            let sum = with_word(start, multipliers[0], le64(first));
            if more.is_empty() {
                sum
            } else if more.len() <= 8 {
                with_word(sum, multipliers[1], number_of_last(bytes, more.len()))
            } else {
                from_second(multipliers, sum, more)
            }
        }
    }
}

/// Bytes after the first 128, often the one that std writes after a string.
fn put_in(text: &mut Poly61Hasher, bytes: &[u8])
    ensures { text.new ≡ after text.old bytes.now }
{
    match bytes {
        [byte] => text.write_u8(*byte),
        _ => text.write(bytes),
    }
}

/// The same, the first of them too.
fn behind_all(text_key: u64, rest: &mut Option<Poly61Hasher>, bytes: &[u8])
    requires { bytes.now ≢ [] }
    ensures { rest.new ≡ rest_after text_key rest.old bytes.now }
{
    match rest {
        Some(text) => put_in(text, bytes),
        None => {
            let mut text = Poly61Hasher::new(text_key);
            put_in(&mut text, bytes);
            *rest = Some(text);
        }
    }
}

/// A sum with a number that begins in one word and ends in the next.
#[inline(never)]
fn across(multipliers: &[u128; 17], start: u128, held: usize, number: u64) -> u128
    requires begun { 1 ≤ held % 8 }
    requires room { held < 128 }
    ensures { result
        ≡ ((start + slice_index multipliers.now (held / 8) * (number * 2 ^ (8 * (held % 8)) % 2 ^ 64)) % 2 ^ 128
        + slice_index multipliers.now (held / 8 + 1) * (number / 2 ^ (64 - 8 * (held % 8)))) % 2 ^ 128 }
{
    let at = held / 8;
    let bits = 8 * (held % 8) as u32;
    let sum = with_word(start, multipliers[at], number << bits);
    with_word(sum, multipliers[at + 1], number >> (64 - bits))
}

// The answer where there were more than 128 bytes: the word is that of those after them.
#[inline(never)]
fn ended(keys: &MapKeys, sum: u128, word: u64) -> u64
    ensures { result ≡ (sum + slice_index keys.now.multipliers 16 * word) % 2 ^ 128 / 2 ^ 64 }
{
    high(with_word(sum, keys.multipliers[16], word))
}

impl<'a> MapHasher<'a> {
    // Bytes of which some may be after the first 128. It stands apart, so that what a map does with short keys stays short.
    #[inline(never)]
    fn past(&mut self, bytes: &[u8])
        ensures { self.new ≡ after_write self.old bytes.now }
    {
        let held = self.held.saturating_add(bytes.len()).min(129);
        let _sum = self.sum;
        let mut more = bytes;
        if self.held < 128 {
            let (first, behind) = bytes.split_at(bytes.len().min(128 - self.held));
            self.sum = within(&self.keys.multipliers, self.sum, self.held, first);
            more = behind;
        }
        self.held = held;
        if !more.is_empty() {
            behind_all(self.keys.text_key, &mut self.rest, more);
        }
    }

    // The hasher itself, for a call that stands apart: that takes the address of this one, so the other can stay in registers.
    #[inline(always)]
    fn moved(&mut self) -> MapHasher<'a>
        ensures moved { result ≡ self.old }
        ensures left { self.new ≡ record self.old { rest = None } }
    {
        MapHasher {
            keys: self.keys,
            sum: self.sum,
            held: self.held,
            rest: self.rest.take(),
        }
    }

    // A number of so many bytes.
    #[inline(always)]
    fn number(&mut self, number: u64, count: usize)
        requires some { 1 ≤ count }
        requires short { count ≤ 8 }
        requires within { number < 2 ^ (8 * count) }
        ensures { self.new ≡ after_write self.old (le_bytes count number) }
    {
        if self.held > 128 - count {
            self.write(&number.to_le_bytes()[..count]);
        } else if self.held % 8 + count <= 8 {
            let place = number << (8 * (self.held % 8) as u32);
            self.sum = with_word(self.sum, self.keys.multipliers[self.held / 8], place);
            self.held += count;
        } else {
            self.sum = across(&self.keys.multipliers, self.sum, self.held, number);
            self.held += count;
        }
    }
}

impl Hasher for MapHasher<'_> {
    ghost write = { after_write };

    ghost finish = { answer_of };

    #[inline(always)]
    fn finish(&self) -> u64 {
        let sum = self.sum;
        if self.held <= 128 {
            return high(sum);
        }
        match &self.rest {
            None => high(sum),
            Some(text) => ended(self.keys, sum, text.finish()),
        }
    }

    #[inline(always)]
    fn write(&mut self, bytes: &[u8]) {
        if bytes.len() < 128_usize.saturating_sub(self.held) {
            self.sum = within(&self.keys.multipliers, self.sum, self.held, bytes);
            self.held += bytes.len();
        } else {
            let mut moved = self.moved();
            moved.past(bytes);
            *self = moved;
        }
    }

    #[inline(always)]
    fn write_u8(&mut self, number: u8) {
        self.number(u64::from(number), 1);
    }

    #[inline(always)]
    fn write_u16(&mut self, number: u16) {
        self.number(u64::from(number), 2);
    }

    #[inline(always)]
    fn write_u32(&mut self, number: u32) {
        self.number(u64::from(number), 4);
    }

    #[inline(always)]
    fn write_u64(&mut self, number: u64) {
        self.number(number, 8);
    }

    #[inline(always)]
    fn write_u128(&mut self, number: u128) {
        self.number((number % (1 << 64)) as u64, 8);
        self.number((number >> 64) as u64, 8);
    }

    #[inline(always)]
    fn write_usize(&mut self, number: usize) {
        self.number(number as u64, 8);
    }
}

/// The hash of a key of a map under the keys, over its bytes at once.
pub fn map_hash(keys: &MapKeys, bytes: &[u8]) -> u64
    ensures { result ≡ map_hash keys.now.multipliers keys.now.addend (keys.now.text_key % prime61) bytes.now }
{
    let mut hasher = keys.hashers().build_hasher();
    hasher.write(bytes);
    hasher.finish()
}
