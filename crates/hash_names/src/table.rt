//! The table of the hashes that are ported: a row for each, and what is done by the hash of a row.
ghost use Rattle.std.specs.List.{find};
ghost use Rattle.std.specs.Prelude.{◌≡◌, Some};
ghost use Rattle.hash_names.specs.Named.{is_named, ported_named, read_of, row_of};

use crate::task::HashTask;
use hash_bytes::fnv::{FNV1aHasher32, FNV1aHasher64};
use hash_bytes::null::{NullHasher, PassThroughHasher};
use hash_bytes::oz::{DJB2Hasher, LoseLoseHasher, SDBMHasher};
use hash_bytes::pigeon::Bricolage;
use hash_fx::{FxHasher, FxHasher32, FxHasher64};
use hash_jenkins::spooky_hash::{SpookyHasher, SpookyV1Hasher};
use hash_jenkins::{Lookup3Hasher, OAATHasher};

/// A hash of the crate that is ported; SpookyHash in both versions. `specs/Named` says what it makes of a text.
#[derive(Clone, Copy)]
pub enum Ported {
    /// FNV-1a at 32 bits.
    Fnv1a32,
    /// FNV-1a at 64 bits.
    Fnv1a64,
    /// djb2.
    Djb2,
    /// sdbm.
    Sdbm,
    /// lose lose at 64 bits.
    LoseLose,
    /// Bricolage.
    Bricolage,
    /// One-at-a-time at 64 bits.
    Oaat,
    /// lookup3.
    Lookup3,
    /// SpookyHash, its first word.
    Spooky,
    /// The same by version 1.
    SpookyV1,
    /// The last eight bytes.
    PassThrough,
    /// fx at the width of a machine word.
    FxHash,
    /// fx at 32 bits.
    FxHash32,
    /// fx at 64 bits.
    FxHash64,
    /// 0, whatever the text.
    Null,
}

/// The hashes in their order.
pub const PORTED: [Ported; 15] = [
    // declared: kinds
    Ported::Fnv1a32,
    Ported::Fnv1a64,
    Ported::Djb2,
    Ported::Sdbm,
    Ported::LoseLose,
    Ported::Bricolage,
    Ported::Oaat,
    Ported::Lookup3,
    Ported::Spooky,
    Ported::SpookyV1,
    Ported::PassThrough,
    Ported::FxHash,
    Ported::FxHash32,
    Ported::FxHash64,
    Ported::Null,
    // end of declared
];

/// What is said of a hash.
#[derive(Clone, Copy)]
pub struct Row {
    /// Its name.
    pub name: &'static str,
    /// How many bits its numbers have.
    pub bits: u32,
    /// Whether cuts between writes show.
    pub cuts: bool,
}

/// The row of this name, so many bits, and cuts that show or not.
pub const fn entry(name: &'static str, bits: u32, cuts: bool) -> Row
    ensures named { result.name.now ≡ name.now }
    ensures wide { result.bits ≡ bits }
    ensures cut { result.cuts ≡ cuts }
{
    Row { name, bits, cuts }
}

impl Ported {
    /// Its row in the table.
    pub fn row(self) -> Row
        ensures named { result.name.now ≡ (row_of self).name }
        ensures wide { result.bits ≡ (row_of self).bits }
        ensures cut { result.cuts ≡ (row_of self).cuts }
    {
        match self {
            // declared: rows
            Ported::Fnv1a32 => entry("fnv1a32", 32, false),
            Ported::Fnv1a64 => entry("fnv1a64", 64, false),
            Ported::Djb2 => entry("djb2", 32, false),
            Ported::Sdbm => entry("sdbm", 32, false),
            Ported::LoseLose => entry("loselose", 64, false),
            Ported::Bricolage => entry("bricolage", 64, false),
            Ported::Oaat => entry("oaat", 64, false),
            Ported::Lookup3 => entry("lookup3", 64, true),
            Ported::Spooky => entry("spooky", 64, false),
            Ported::SpookyV1 => entry("spooky_v1", 64, false),
            Ported::PassThrough => entry("passthrough", 64, false),
            Ported::FxHash => entry("fxhash", 64, true),
            Ported::FxHash32 => entry("fxhash32", 32, true),
            Ported::FxHash64 => entry("fxhash64", 64, true),
            Ported::Null => entry("null", 0, false),
            // end of declared
        }
    }
}

/// Does the task by that hash. Where it reads, lookup3 and fx take pieces of 4096 bytes; of fx these are whole words, so the hash
/// is that of one write.
pub fn by_ported<T: HashTask>(ported: Ported, told: T::Told, input: &mut T::Input) -> T::Outcome
    ensures { T.by (row_of ported).hash (read_of ported) told input.old input.new result }
{
    match ported {
        // declared: hashers
        Ported::Fnv1a32 => T::by_text::<FNV1aHasher32>(told, input),
        Ported::Fnv1a64 => T::by_text::<FNV1aHasher64>(told, input),
        Ported::Djb2 => T::by_text::<DJB2Hasher>(told, input),
        Ported::Sdbm => T::by_text::<SDBMHasher>(told, input),
        Ported::LoseLose => T::by_text::<LoseLoseHasher>(told, input),
        Ported::Bricolage => T::by_text::<Bricolage>(told, input),
        Ported::Oaat => T::by_text::<OAATHasher>(told, input),
        Ported::Lookup3 => T::by_pieces::<Lookup3Hasher>(told, input),
        Ported::Spooky => T::by_text::<SpookyHasher>(told, input),
        Ported::SpookyV1 => T::by_text::<SpookyV1Hasher>(told, input),
        Ported::PassThrough => T::by_text::<PassThroughHasher>(told, input),
        Ported::FxHash => T::by_pieces::<FxHasher>(told, input),
        Ported::FxHash32 => T::by_pieces::<FxHasher32>(told, input),
        Ported::FxHash64 => T::by_pieces::<FxHasher64>(told, input),
        Ported::Null => T::by_text::<NullHasher>(told, input),
        // end of declared
    }
}

/// The first of that name.
fn first_named(hashes: &[Ported], name: &[u8]) -> Option<Ported>
    ensures { result ≡ find (is_named name.now) hashes.now }
{
    for ported in hashes {
        if ported.row().name.as_bytes() == name {
            return Some(*ported);
        }
    }
    None
}

/// Each hash is found by its name, a law with no code: the list lacks none of them.
pub fn each_ported_hash_is_found()
    ensures { (ported : Ported) → ported_named (row_of ported).name ≡ Some ported }
{}

/// The hash of that name.
#[tactic(auto, unfolding(crate::specs::Named::ported_named))]
pub fn ported_named(name: &[u8]) -> Option<Ported>
    ensures { result ≡ ported_named name.now }
{
    first_named(&PORTED, name)
}
