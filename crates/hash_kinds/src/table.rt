//! The table of all hashes: that of the ported ones, and a row for each of the others; and what is done by the hash of a row.
ghost use Rattle.std.specs.List.{find};
ghost use Rattle.std.specs.Prelude.{◌≡◌, Some};
ghost use Rattle.std.specs.Str.{bytes_eq};
ghost use Rattle.hash_kinds.specs.Named.{bits_of, hash_of, kind_named, name_of, read_of, shows_cuts};
ghost use Rattle.hash_kinds.specs.declared.table.Kind.{Kind};

use hash_blocks::murmur3::{Murmur3Hasher32, Murmur3Hasher128};
use hash_blocks::siphash::{SipHasher13, SipHasher24};
use hash_blocks::xxhash::{Xxh32Hasher, Xxh64Hasher};
use hash_more::crc32::{Crc32Hasher, Crc32cHasher};
use hash_more::djb2_add::Djb2AddHasher;
use hash_more::elf::ElfHasher;
use hash_more::fnv1::{Fnv1Hasher32, Fnv1Hasher64};
use hash_more::joaat::JoaatHasher;
use hash_names::table::{Ported, Row, by_ported, entry};
use hash_names::task::HashTask;
use hash_xxh3::Xxh3Hasher;

/// A hash of the table. `specs/Named` says what it makes of a text.
#[derive(Clone, Copy)]
pub enum Kind {
    /// A ported one.
    Ported(Ported),
    /// CRC-32.
    Crc32,
    /// CRC-32C.
    Crc32c,
    /// FNV-1 at 32 bits.
    Fnv1At32,
    /// FNV-1 at 64 bits.
    Fnv1At64,
    /// djb2 with a sum.
    Djb2Add,
    /// One-at-a-time at 32 bits.
    Joaat,
    /// ELF's hash.
    Elf,
    /// XXH32 under the seed 0.
    Xxh32,
    /// XXH64 under the seed 0.
    Xxh64,
    /// MurmurHash3_x86_32 under the seed 0.
    Murmur3At32,
    /// MurmurHash3_x64_128 under the seed 0, its first word.
    Murmur3,
    /// SipHash-1-3 under the key 0.
    SipHash13,
    /// SipHash-2-4 under the key 0.
    SipHash24,
    /// XXH3 of 64 bits under the seed 0.
    Xxh3,
}

/// The hashes in their order, by which C numbers them from 0.
pub const KINDS: [Kind; 29] = [
    // declared: kinds
    Kind::Ported(Ported::Fnv1a32),
    Kind::Ported(Ported::Fnv1a64),
    Kind::Ported(Ported::Djb2),
    Kind::Ported(Ported::Sdbm),
    Kind::Ported(Ported::LoseLose),
    Kind::Ported(Ported::Bricolage),
    Kind::Ported(Ported::Oaat),
    Kind::Ported(Ported::Lookup3),
    Kind::Ported(Ported::Spooky),
    Kind::Ported(Ported::SpookyV1),
    Kind::Ported(Ported::PassThrough),
    Kind::Ported(Ported::FxHash),
    Kind::Ported(Ported::FxHash32),
    Kind::Ported(Ported::FxHash64),
    Kind::Crc32,
    Kind::Crc32c,
    Kind::Fnv1At32,
    Kind::Fnv1At64,
    Kind::Djb2Add,
    Kind::Joaat,
    Kind::Elf,
    Kind::Ported(Ported::Null),
    Kind::Xxh32,
    Kind::Xxh64,
    Kind::Murmur3At32,
    Kind::Murmur3,
    Kind::SipHash13,
    Kind::SipHash24,
    Kind::Xxh3,
    // end of declared
];

impl Kind {
    /// Its row in the table.
    pub fn row(self) -> Row
        ensures named { result.name.now ≡ name_of self }
        ensures wide { result.bits ≡ bits_of self }
        ensures cut { result.cuts ≡ shows_cuts self }
    {
        match self {
            Kind::Ported(ported) => ported.row(),
            // declared: rows
            Kind::Crc32 => entry("crc32", 32, false),
            Kind::Crc32c => entry("crc32c", 32, false),
            Kind::Fnv1At32 => entry("fnv1_32", 32, false),
            Kind::Fnv1At64 => entry("fnv1_64", 64, false),
            Kind::Djb2Add => entry("djb2_add", 32, false),
            Kind::Joaat => entry("joaat", 32, false),
            Kind::Elf => entry("elf", 28, false),
            Kind::Xxh32 => entry("xxh32", 32, false),
            Kind::Xxh64 => entry("xxh64", 64, false),
            Kind::Murmur3At32 => entry("murmur3_32", 32, false),
            Kind::Murmur3 => entry("murmur3", 64, false),
            Kind::SipHash13 => entry("siphash13", 64, false),
            Kind::SipHash24 => entry("siphash24", 64, false),
            Kind::Xxh3 => entry("xxh3", 64, false),
            // end of declared
        }
    }
}

/// Does the task by that hash. Where it reads, lookup3 and fx take pieces of 4096 bytes; of fx these are whole words, so the hash
/// is that of one write.
pub fn by_kind<T: HashTask>(kind: Kind, told: T::Told, input: &mut T::Input) -> T::Outcome
    ensures { T.by (hash_of kind) (read_of kind) told input.old input.new result }
{
    match kind {
        Kind::Ported(ported) => by_ported::<T>(ported, told, input),
        // declared: hashers
        Kind::Crc32 => T::by_text::<Crc32Hasher>(told, input),
        Kind::Crc32c => T::by_text::<Crc32cHasher>(told, input),
        Kind::Fnv1At32 => T::by_text::<Fnv1Hasher32>(told, input),
        Kind::Fnv1At64 => T::by_text::<Fnv1Hasher64>(told, input),
        Kind::Djb2Add => T::by_text::<Djb2AddHasher>(told, input),
        Kind::Joaat => T::by_text::<JoaatHasher>(told, input),
        Kind::Elf => T::by_text::<ElfHasher>(told, input),
        Kind::Xxh32 => T::by_text::<Xxh32Hasher>(told, input),
        Kind::Xxh64 => T::by_text::<Xxh64Hasher>(told, input),
        Kind::Murmur3At32 => T::by_text::<Murmur3Hasher32>(told, input),
        Kind::Murmur3 => T::by_text::<Murmur3Hasher128>(told, input),
        Kind::SipHash13 => T::by_text::<SipHasher13>(told, input),
        Kind::SipHash24 => T::by_text::<SipHasher24>(told, input),
        Kind::Xxh3 => T::by_text::<Xxh3Hasher>(told, input),
        // end of declared
    }
}

/// The first of that name.
fn first_named(kinds: &[Kind], name: &[u8]) -> Option<Kind>
    ensures { result ≡ find (λ kind. bytes_eq (name_of kind) name.now) kinds.now }
{
    for kind in kinds {
        if kind.row().name.as_bytes() == name {
            return Some(*kind);
        }
    }
    None
}

/// A law with no code: each hash of the table is found by its name.
pub fn each_hash_is_found()
    ensures { (kind : Kind) → kind_named (name_of kind) ≡ Some kind }
{}

/// The hash of that name.
#[tactic(auto, unfolding(crate::specs::Named::kind_named))]
pub fn kind_named(name: &[u8]) -> Option<Kind>
    ensures { result ≡ kind_named name.now }
{
    first_named(&KINDS, name)
}
