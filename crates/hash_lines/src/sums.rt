//! The hashes that a line can tell, by their names: how many digits the numbers of each have, and the number of what a reader gives.
ghost use Rattle.std.specs.Prelude.{◌≡◌};
ghost use Rattle.std.specs.List.{find};
ghost use Rattle.std.specs.Option.{option_map};
ghost use Rattle.std.proofs.Common.{◌∙◌};
ghost use Rattle.hash_names.specs.Named.{pieced};
ghost use Rattle.hash_laws.specs.Limited.{Hashes, read};
ghost use Rattle.hashers.specs.Text.{IsText};
ghost use Rattle.hash_lines.specs.Sums.{is_named, kind_of, kinds, name_in, sum_of, takes_keys, wide_name, wide_of, width_in, width_of};

use crate::keys::{hash_of_poly61, hash_of_siphash24};
use crate::line::Width;
use hash_blocks::murmur3::Murmur3Hasher128;
use hash_blocks::siphash::{SipKey, siphash24};
use hash_keyed::pair::poly61_pair;
use hash_kinds::reading::{BUFFER, PIECE, Unhashed, hash_by, hash_of_wide};
use hash_kinds::table::{Kind, by_kind};
use hash_kinds::wide::{WideHash, both};
use hash_names::table::Ported;
use hash_names::task::HashTask;
use hash_xxh3::Xxh3Hasher;
use hashers::jenkins::spooky_hash::SpookyHasher;
use hashers::laws::{Piecewise, Streamed, bytes_are_a_text, hash_of, run_streamed};
use std::io::Read;
use std::marker::PhantomData;

/// The keys where there are none.
pub const NO_KEYS: (u64, u64) = (0, 0);

/// A hash of 128 bits, under the seed 0.
#[derive(Clone, Copy)]
pub enum Wide {
    /// SpookyHash, under two seeds.
    Spooky,
    /// MurmurHash3_x64_128.
    Murmur3,
    /// XXH3.
    Xxh3,
}

/// A hash that a line can tell.
#[derive(Clone, Copy)]
pub enum Sum {
    /// One of the table.
    Table(Kind),
    /// One of 128 bits.
    Wide(Wide),
    /// The polynomial hash, at two keys.
    Poly61,
    /// SipHash-2-4, under a key of two words.
    SipHash24,
}

/// The hashes that a line can tell, each by its place; the default is the first. Of the table null is no hash, murmur3 is half of 128
/// bits, and SipHash without a key file would pass forgeries: SipHash-2-4 is told under keys alone.
pub const SUMS: [Sum; 30] = [
    Sum::Wide(Wide::Spooky),
    Sum::Table(Kind::Ported(Ported::Fnv1a32)),
    Sum::Table(Kind::Ported(Ported::Fnv1a64)),
    Sum::Table(Kind::Ported(Ported::Djb2)),
    Sum::Table(Kind::Ported(Ported::Sdbm)),
    Sum::Table(Kind::Ported(Ported::LoseLose)),
    Sum::Table(Kind::Ported(Ported::Bricolage)),
    Sum::Table(Kind::Ported(Ported::Oaat)),
    Sum::Table(Kind::Ported(Ported::Lookup3)),
    Sum::Table(Kind::Ported(Ported::Spooky)),
    Sum::Table(Kind::Ported(Ported::SpookyV1)),
    Sum::Table(Kind::Ported(Ported::PassThrough)),
    Sum::Table(Kind::Ported(Ported::FxHash)),
    Sum::Table(Kind::Ported(Ported::FxHash32)),
    Sum::Table(Kind::Ported(Ported::FxHash64)),
    Sum::Table(Kind::Crc32),
    Sum::Table(Kind::Crc32c),
    Sum::Table(Kind::Fnv1At32),
    Sum::Table(Kind::Fnv1At64),
    Sum::Table(Kind::Djb2Add),
    Sum::Table(Kind::Joaat),
    Sum::Table(Kind::Elf),
    Sum::Table(Kind::Xxh32),
    Sum::Table(Kind::Xxh64),
    Sum::Table(Kind::Xxh3),
    Sum::Wide(Wide::Xxh3),
    Sum::Table(Kind::Murmur3At32),
    Sum::Wide(Wide::Murmur3),
    Sum::Poly61,
    Sum::SipHash24,
];

/// How many of them take no keys: those in front of poly61 and siphash24.
const UNKEYED: usize = 28;

/// How many digits so many bits have.
fn width_of(bits: u32) -> Width
    ensures { result ≡ width_of bits }
{
    if bits <= 32 {
        Width::Eight
    } else {
        Width::Sixteen
    }
}

impl Wide {
    /// Its name.
    fn name(self) -> &'static str
        ensures { result.now ≡ wide_name self }
    {
        match self {
            Wide::Spooky => "spooky128",
            Wide::Murmur3 => "murmur3_128",
            Wide::Xxh3 => "xxh128",
        }
    }
}

impl Sum {
    /// Its name.
    pub fn name(self) -> &'static str
        ensures { result.now ≡ name_in self }
    {
        match self {
            Sum::Table(kind) => kind.row().name,
            Sum::Wide(wide) => wide.name(),
            Sum::Poly61 => "poly61",
            Sum::SipHash24 => "siphash24",
        }
    }

    /// How many digits its numbers have.
    pub fn width(self) -> Width
        ensures { result ≡ width_in self }
    {
        match self {
            Sum::Table(kind) => width_of(kind.row().bits),
            Sum::Wide(_) | Sum::Poly61 => Width::ThirtyTwo,
            Sum::SipHash24 => Width::Sixteen,
        }
    }

    /// Whether it is one under keys.
    pub fn takes_keys(self) -> bool
        ensures { result ≡ takes_keys self }
    {
        matches!(self, Sum::Poly61 | Sum::SipHash24)
    }
}

/// The hashes that a line can tell, the default first: those that take keys stand last, and are told if there are keys.
#[tactic(auto, unfolding(crate::specs::Sums::kinds))]
pub fn kinds(keyed: bool) -> &'static [Sum]
    ensures { result.now ≡ kinds keyed }
{
    if keyed { &SUMS } else { &SUMS[..UNKEYED] }
}

/// Whether a name is this one, in letters of either case.
pub fn is_named(word: &[u8], name: &[u8]) -> bool
    ensures { result ≡ is_named word.now name.now }
{
    name.eq_ignore_ascii_case(word)
}

/// The first of that name.
fn kind_named(kinds: &[Sum], name: &[u8]) -> Option<Sum>
    ensures { result ≡ find (λ kind. is_named name.now (name_in kind)) kinds.now }
{
    for kind in kinds {
        if is_named(name, kind.name().as_bytes()) {
            return Some(*kind);
        }
    }
    None
}

/// The hash of the name, or the first.
pub fn kind_of(kinds: &[Sum], name: Option<&[u8]>) -> Option<Sum>
    ensures { result ≡ kind_of kinds.now (option_map (λ name. name.now) name.entry) }
{
    match name {
        Some(name) => kind_named(kinds, name),
        None => match kinds {
            [first, ..] => Some(*first),
            [] => None,
        },
    }
}

/// The same number, or no number for the same reason.
fn widened(number: Result<u64, Unhashed>) -> Result<u128, Unhashed>
    ensures { result ≡ number }
{
    match number {
        Ok(number) => Ok(u128::from(number)),
        Err(unhashed) => Err(unhashed),
    }
}

/// The number of what is read by a hash of 128 bits.
fn number_of_wide<R: Read>(wide: Wide, limit: u64, r: &mut R) -> Result<u128, Unhashed>
    ensures { Hashes (wide_of wide) (read limit R.remaining r.old r.new) result }
{
    match wide {
        Wide::Spooky => hash_of_wide::<SpookyHasher, R, BUFFER>(limit, r),
        Wide::Murmur3 => hash_of_wide::<Murmur3Hasher128, R, BUFFER>(limit, r),
        Wide::Xxh3 => hash_of_wide::<Xxh3Hasher, R, BUFFER>(limit, r),
    }
}

/// The number by that hash, under these keys if it takes keys, of all that is read, if that is less than `limit` bytes.
pub fn number_by<R: Read>(
    kind: Sum,
    keys: (u64, u64),
    limit: u64,
    r: &mut R,
) -> Result<u128, Unhashed>
    ensures { Hashes (sum_of keys kind) (read limit R.remaining r.old r.new) result }
{
    match kind {
        Sum::Table(row) => widened(hash_by(row, limit, r)),
        Sum::Wide(wide) => number_of_wide(wide, limit, r),
        Sum::Poly61 => hash_of_poly61::<R, BUFFER>(keys, limit, r),
        Sum::SipHash24 => widened(hash_of_siphash24::<R, BUFFER>(keys, limit, r)),
    }
}

/// The hash of a text that is fed in pieces of 4096 bytes.
fn in_pieces<H: Piecewise>(text: &[u8]) -> u64
    ensures { result ≡ pieced H.after H.fresh H.answer text.now }
{
    let mut hasher = H::fresh();
    let mut done = 0;
    while done < text.len() {
        let count = (text.len() - done).min(PIECE);
        hasher.feed(&text[done..done + count]);
        done += count;
    }
    hasher.answer()
}

/// To hash a text as what is read of a file.
struct SumText<'a> {
    text: PhantomData<&'a u8>,
}

impl<'a> HashTask for SumText<'a> {
    type Told = &'a [u8];

    type Input = ();

    type Outcome = u64;

    ghost by = { λ hash of_read text before after result. IsText text.now → result ≡ of_read text.now };

    fn by_text<H: Streamed>(text: &'a [u8], _nothing: &mut ()) -> u64 {
        hash_of::<H>(text)
    }

    fn by_pieces<H: Piecewise>(text: &'a [u8], _nothing: &mut ()) -> u64 {
        in_pieces::<H>(text)
    }

    ghost by_same = { λ hash of_read same agree text before after result is is_text.
        is is_text ∙ agree text.now is_text };
}

/// The number of a text by a hasher of 128 bits.
fn wide_of_text<H: WideHash>(text: &[u8]) -> u128
    ensures { result ≡ H.wide_of text.now }
{
    let mut hasher = H::fresh();
    run_streamed(&mut hasher, &[text]);
    hasher.wide()
}

/// The number of a text by a hash of 128 bits.
fn number_of_wide_text(wide: Wide, text: &[u8]) -> u128
    ensures { result ≡ wide_of wide text.now }
{
    match wide {
        Wide::Spooky => wide_of_text::<SpookyHasher>(text),
        Wide::Murmur3 => wide_of_text::<Murmur3Hasher128>(text),
        Wide::Xxh3 => wide_of_text::<Xxh3Hasher>(text),
    }
}

/// The number of a text by that hash, under these keys if it takes keys: that of a file that holds it.
pub fn number_of_text(kind: Sum, keys: (u64, u64), text: &[u8]) -> u128
    ensures { result ≡ sum_of keys kind text.now }
{
    match kind {
        Sum::Table(row) => {
            bytes_are_a_text(text);
            u128::from(by_kind::<SumText<'_>>(row, text, &mut ()))
        }
        Sum::Wide(wide) => number_of_wide_text(wide, text),
        Sum::Poly61 => both(poly61_pair(keys.0, keys.1, text)),
        Sum::SipHash24 => {
            let (k0, k1) = keys;
            u128::from(siphash24(SipKey { k0, k1 }, text))
        }
    }
}
