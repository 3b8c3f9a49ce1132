//! Hashes by their numbers, for callers that choose at run time: the number of a name, the name of a number, and the hash of a text.
ghost use Rattle.std.specs.List.{find};
ghost use Rattle.std.specs.Prelude.{◌≡◌, ◌≤◌, Some, slice_get};
ghost use Rattle.std.specs.Str.{bytes_eq};
ghost use Rattle.hash_c.specs.Common.{length, laid_over, hash_at, kind_at, kind_named};
ghost use Rattle.hash_c.specs.Kinds.{name_at, number_of};
ghost use Rattle.hash_kinds.specs.Named.{name_of as named};
ghost use Rattle.hash_kinds.specs.declared.table.Kind.{Kind};

use hash_kinds::table::{KINDS, Kind, by_kind};
use hash_names::task::HashTask;
use hashers::laws::{Piecewise, Streamed, hash_of};
use std::marker::PhantomData;

/// The place of the first of that name; as many as there are where none has it.
fn first_place(kinds: &[Kind], name: &[u8]) -> usize
    ensures first { slice_get kinds.now result ≡ find (λ kind. bytes_eq (named kind) name.now) kinds.now }
    ensures within { result ≤ length kinds.now }
{
    for (place, kind) in kinds.iter().enumerate() {
        if kind.row().name.as_bytes() == name {
            return place;
        }
    }
    kinds.len()
}

/// A law with no code: each hash of the table has the number of its row.
pub fn each_number_has_its_hash()
    ensures { (kind : Kind) → kind_at (number_of kind) ≡ Some kind }
{}

/// The hash of that number.
#[tactic(auto, unfolding(crate::specs::Kinds::kind_at))]
pub(crate) fn kind_at(number: u32) -> Option<Kind>
    ensures { result ≡ kind_at number }
{
    match KINDS.get(number as usize) {
        Some(kind) => Some(*kind),
        None => None,
    }
}

/// The number of the hash of that name; where no hash has the name, a number that no hash has.
#[tactic(auto, unfolding(hash_kinds::specs::Named::kind_named, crate::specs::Kinds::kind_at))]
#[unsafe(no_mangle)]
pub extern "C" fn hashers_kind(name: &[u8]) -> u32
    ensures { kind_at result ≡ kind_named name.now }
{
    first_place(&KINDS, name) as u32
}

/// The name of the hash of that number.
fn name_of(kind: u32) -> &'static [u8]
    ensures { result.now ≡ name_at kind }
{
    match kind_at(kind) {
        Some(kind) => kind.row().name.as_bytes(),
        None => b"",
    }
}

/// Writes the name of the hash of that number, as far as there is room, and answers how many bytes it has; 0 where no hash has the
/// number.
#[unsafe(no_mangle)]
pub extern "C" fn hashers_name(kind: u32, name: &mut [u8]) -> usize
    ensures count { result ≡ length (name_at kind) }
    ensures written { name.new ≡ laid_over (name_at kind) name.old }
{
    let told = name_of(kind);
    for i in 0..told.len().min(name.len()) {
        name[i] = told[i];
    }
    told.len()
}

/// To hash a text in one call.
struct HashText<'a> {
    text: PhantomData<&'a u8>,
}

impl<'a> HashTask for HashText<'a> {
    type Told = &'a [u8];

    type Input = ();

    type Outcome = u64;

    ghost by = { λ hash read text before after result. result ≡ hash text.now };

    #[inline(always)]
    fn by_text<H: Streamed>(text: &'a [u8], _nothing: &mut ()) -> u64 {
        hash_of::<H>(text)
    }

    #[inline(always)]
    fn by_pieces<H: Piecewise>(text: &'a [u8], _nothing: &mut ()) -> u64 {
        hash_of::<H>(text)
    }

    ghost by_same = { λ hash read same agree text before after result done. done };
}

/// The hash of the text by the hash of that number; 0 where no hash has the number.
#[unsafe(no_mangle)]
pub extern "C" fn hashers_hash(kind: u32, text: &[u8]) -> u64
    ensures { result ≡ hash_at kind text.now }
{
    match kind_at(kind) {
        Some(kind) => by_kind::<HashText<'_>>(kind, text, &mut ()),
        None => 0,
    }
}
