//! XXH3 of 64 and of 128 bits under a seed: of a whole text, and of a text in parts. The caller keeps the place.
ghost use Rattle.std.specs.Prelude.{◌≡◌, ◌++◌};
ghost use Rattle.hash_c.specs.Common.{ℕ, List, [], AreZeros, xxh3_64_of};
ghost use Rattle.hash_xxh3.specs.Place.{Fits, StandsBehind};
ghost use Rattle.hash_xxh3.specs.Wide.{xxh3_128_of};

use crate::spooky::{Words, two_words};
use hash_xxh3::{Xxh3Hasher, Xxh3Place, xxh3_64, xxh3_128};

// What hashers.h reserves for a place.
const _: () = prove!(size_of::<Xxh3Place>() == 360);

/// XXH3 of 64 bits of the text under a seed.
#[unsafe(no_mangle)]
pub extern "C" fn hashers_xxh3_seeded(text: &[u8], seed: u64) -> u64
    ensures { result ≡ xxh3_64_of seed text.now }
{
    xxh3_64(seed, text)
}

/// XXH3 of 128 bits of the text under a seed: the low word and the high one.
#[unsafe(no_mangle)]
pub extern "C" fn hashers_xxh128(text: &[u8], seed: u64) -> Words
    ensures { (result.first, result.second) ≡ xxh3_128_of seed text.now }
{
    two_words(xxh3_128(seed, text))
}

/// The place of no bytes, under a seed.
#[unsafe(no_mangle)]
pub extern "C" fn hashers_xxh3_begin(seed: u64) -> Xxh3Place
    ensures { StandsBehind result seed [] }
{
    Xxh3Hasher::new(seed).place()
}

/// Goes on over the bytes. A place at which no hasher stands is left as it is.
#[unsafe(no_mangle)]
pub extern "C" fn hashers_xxh3_write(place: &mut Xxh3Place, bytes: &[u8])
    ensures of_text { (seed : ℕ) (text : List ℕ) → StandsBehind place.old seed text
        → StandsBehind place.new seed (text ++ bytes.now) }
    ensures unusable { ¬ Fits place.old → place.new ≡ place.old }
{
    place.write(bytes);
}

/// XXH3 of 64 bits of the text so far, behind which more may be written; 0 of a place at which no hasher stands.
#[unsafe(no_mangle)]
pub extern "C" fn hashers_xxh3_finish(place: &Xxh3Place) -> u64
    ensures of_text { (seed : ℕ) (text : List ℕ) → StandsBehind place.now seed text
        → result ≡ xxh3_64_of seed text }
    ensures unusable { ¬ Fits place.now → result ≡ 0 }
{
    place.hash().unwrap_or(0)
}

/// The same of 128 bits: the low word and the high one, or 0 and 0.
#[unsafe(no_mangle)]
pub extern "C" fn hashers_xxh128_finish(place: &Xxh3Place) -> Words
    ensures of_text { (seed : ℕ) (text : List ℕ) → StandsBehind place.now seed text
        → (result.first, result.second) ≡ xxh3_128_of seed text }
    ensures unusable { ¬ Fits place.now → AreZeros result }
{
    two_words(place.hash128().unwrap_or((0, 0)))
}
