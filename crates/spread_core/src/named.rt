//! The hashes of keys, by a hasher or by its name.
ghost use Rattle.std.specs.Prelude.{◌≡◌, All, IfOk, OnOk, length, map};
ghost use Rattle.hash_kinds.specs.Named.{hash_of};
ghost use Rattle.hashers.specs.Text.{IsText};
ghost use Rattle.spread_core.specs.Counts.{IsCounts};
ghost use Rattle.spread_core.specs.Named.{IsHashed};

use crate::counts::{Counts, counts_of};
use crate::sizes::Sizes;
use hash_kinds::table::{Kind, by_kind};
use hash_names::task::HashTask;
use hashers::laws::{Piecewise, Streamed, hash_of};
use std::alloc::{AllocError, Global};
use text_set::{RandomKeys, Texts};

/// Keys, and the hash of each.
#[derive(Drop)]
pub struct Hashed {
    /// The keys, each once.
    pub keys: Texts<RandomKeys>,
    /// The hashes that were computed last, in no order that is promised.
    pub hashes: Vec<u64>,
}

/// Puts the hash of each key at its place.
pub fn hash_each<H: Piecewise>(keys: &Texts<RandomKeys>, hashes: &mut [u64])
    requires { length hashes.old ≡ length keys.now.texts }
    ensures hashes { hashes.new ≡ map H.hash_of keys.now.texts }
    ensures texts { All IsText keys.now.texts }
{
    for i in 0..hashes.len() {
        hashes[i] = hash_of::<H>(keys.text_at(i));
    }
}

/// Makes room for a hash of each key.
fn make_room(hashes: &mut Vec<u64>, count: usize) -> Result<(), AllocError>
    ensures { OnOk result (length hashes.new.items ≡ count) }
{
    hashes.resize(count, 0)
}

/// Hashes the keys so many times, and once at least.
fn hash_often<H: Piecewise>(rounds: u32, hashed: &mut Hashed) -> Result<(), AllocError>
    ensures keys { hashed.new.keys ≡ hashed.old.keys }
    ensures hashes { OnOk result (hashed.new.hashes.items ≡ map H.hash_of hashed.old.keys.texts) }
    ensures texts { OnOk result (All IsText hashed.old.keys.texts) }
{
    make_room(&mut hashed.hashes, hashed.keys.len())?;
    hash_each::<H>(&hashed.keys, &mut hashed.hashes);
    'again: for _ in 1..rounds {
        hash_each::<H>(&hashed.keys, &mut hashed.hashes);
    }
    Ok(())
}

/// To hash keys so many times, and once at least. A key is one piece.
struct HashKeys;

impl HashTask for HashKeys {
    type Told = u32;

    type Input = Hashed;

    type Outcome = Result<(), AllocError>;

    ghost by = { λ hash of_read rounds. IsHashed hash };

    fn by_text<H: Streamed>(rounds: u32, hashed: &mut Hashed) -> Result<(), AllocError> {
        hash_often::<H>(rounds, hashed)
    }

    fn by_pieces<H: Piecewise>(rounds: u32, hashed: &mut Hashed) -> Result<(), AllocError> {
        hash_often::<H>(rounds, hashed)
    }

    ghost by_same = { λ hash of_read same agree rounds before after outcome done. done };
}

/// Hashes the keys by that hash, so many times, and once at least. A key is one piece; the keys stay.
pub fn hash_by(kind: Kind, rounds: u32, hashed: &mut Hashed) -> Result<(), AllocError>
    ensures { IsHashed (hash_of kind) hashed.old hashed.new result }
{
    by_kind::<HashKeys>(kind, rounds, hashed)
}

/// The numbers of the hashes of the keys by that hash. The keys stay.
pub fn counts_by(
    alloc: Global,
    kind: Kind,
    sizes: Sizes,
    hashed: &mut Hashed,
) -> Result<Counts, AllocError>
    ensures keys { hashed.new.keys ≡ hashed.old.keys }
    ensures counts { IfOk result (IsCounts sizes (map (hash_of kind) hashed.old.keys.texts)) }
{
    hash_by(kind, 1, hashed)?;
    counts_of(alloc, &mut hashed.hashes, sizes)
}
