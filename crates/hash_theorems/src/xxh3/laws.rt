//! What XXH3 loses of short texts, and what it keeps: laws with no code, and whether the hashes of two texts differ.
ghost use Rattle.std.specs.Bool.{OnTrue};
ghost use Rattle.std.specs.Hash.{le_bytes};
ghost use Rattle.std.specs.List.{Contains};
ghost use Rattle.std.specs.Prelude.{◌≡◌, ◌≢◌, ◌↔◌, All, IsTrue, ◌<◌, ◌≤◌, ◌^◌, ℕ, List, ◌++◌, length, map};
ghost use Rattle.hash_laws.specs.Text.{IsText};
ghost use Rattle.hash_words.specs.Words.{add, le};
ghost use Rattle.hash_theorems.specs.Apart.{DifferAndAreFew, DifferWithinSixteen};
ghost use Rattle.hash_xxh3.specs.Secret.{default_secret};
ghost use Rattle.hash_xxh3.specs.Words.{word_at};
ghost use Rattle.hash_xxh3.specs.Wide.{xxh3_128_of};
ghost use Rattle.hash_xxh3.specs.Xxh3.{xxh3_64_of};

use hash_laws::traits::bytes_are_a_text;
use hash_xxh3::BuildXxh3;
use std::hash::BuildHasher;

/// Texts of one to three bytes never collide, whatever their lengths, under any seed.
#[tactic(auto, using(crate::proofs::ShortLemmas::few_bytes_same))]
pub fn few_bytes_never_collide()
    ensures { (seed : ℕ) (x y : List ℕ) → IsText x → IsText y → 1 ≤ length x → length x < 4
        → 1 ≤ length y → length y < 4 → xxh3_64_of seed x ≡ xxh3_64_of seed y → x ≡ y }
{}

/// Texts of one length of four to eight bytes never collide, under any seed.
#[tactic(auto, using(crate::proofs::ShortLemmas::eight_bytes_same))]
pub fn eight_bytes_never_collide()
    ensures { (seed : ℕ) (x y : List ℕ) → IsText x → IsText y → length x ≡ length y
        → 4 ≤ length x → length x < 9 → xxh3_64_of seed x ≡ xxh3_64_of seed y → x ≡ y }
{}

/// Keys of one width in a map under `BuildXxh3`, a law with no code: no two numbers of 64 bits share a hash, each fed as its 8 bytes, and a
/// list of keys of one width of four to eight bytes has a key exactly if the list of their hashes has its hash.
pub fn keys_of_one_width_never_collide()
    ensures numbers { (seed a b : ℕ) → a < 2 ^ 64 → b < 2 ^ 64
        → xxh3_64_of seed (le_bytes 8 a) ≡ xxh3_64_of seed (le_bytes 8 b) → a ≡ b }
    ensures members { (seed width : ℕ) (keys : List (List ℕ)) (key : List ℕ) → 4 ≤ width → width < 9
        → All (λ other. IsText other × (length other ≡ width)) keys → IsText key → length key ≡ width
        → Contains keys key ↔ Contains (map (xxh3_64_of seed) keys) (xxh3_64_of seed key) }
{}

/// The hash of a number as a key under `BuildXxh3`: that of its 8 bytes, the lowest first. No other number has it.
pub fn hash_one_number(keys: BuildXxh3, key: u64) -> u64
    ensures value { result ≡ xxh3_64_of keys.seed (le_bytes 8 key) }
    ensures alone { (other : ℕ) → other < 2 ^ 64
        → result ≡ xxh3_64_of keys.seed (le_bytes 8 other) → other ≡ key }
{
    keys_of_one_width_never_collide();
    keys.hash_one::<u64>(key)
}

/// Texts of one length of at most sixteen bytes never collide under the hash of 128 bits, under any seed.
#[tactic(auto, using(crate::proofs::WideLemmas::short_same))]
pub fn sixteen_bytes_never_collide_wide()
    ensures { (seed : ℕ) (x y : List ℕ) → IsText x → IsText y → length x ≡ length y
        → length x < 17 → xxh3_128_of seed x ≡ xxh3_128_of seed y → x ≡ y }
{}

/// Where the first eight bytes of a text of 32 are the first word of the secret and the seed, the next eight don't show:
/// whoever knows the seed can write down 2^64 texts of one hash.
#[tactic(auto, using(crate::proofs::BlindLemmas::blinded))]
pub fn eight_bytes_can_be_blinded()
    ensures { (seed : ℕ) (a b other c : List ℕ) → length a ≡ 8 → length b ≡ 8 → length other ≡ 8
        → length c ≡ 16 → le a ≡ add 64 (word_at 0 default_secret) seed
        → xxh3_64_of seed (a ++ (b ++ c)) ≡ xxh3_64_of seed (a ++ (other ++ c)) }
{}

/// Whether two texts differ, and both have one to three bytes, or one length of four to eight. If so, their hashes of 64 bits differ
/// under every seed. Computes no hash.
pub fn apart_xxh3(x: &[u8], y: &[u8]) -> bool
    ensures exactly { IsTrue result ↔ DifferAndAreFew x.now y.now }
    ensures differ { OnTrue result ((seed : ℕ) → xxh3_64_of seed x.now ≢ xxh3_64_of seed y.now) }
{
    bytes_are_a_text(x);
    bytes_are_a_text(y);
    match (x.len(), y.len()) {
        (1..=3, 1..=3) => x != y,
        (4..=8, len) => len == x.len() && x != y,
        _ => false,
    }
}

/// Whether two texts differ, and have one length of at most sixteen bytes. If so, their hashes of 128 bits differ under every seed.
/// Computes no hash.
pub fn apart_xxh128(x: &[u8], y: &[u8]) -> bool
    ensures exactly { IsTrue result ↔ DifferWithinSixteen x.now y.now }
    ensures differ { OnTrue result ((seed : ℕ) → xxh3_128_of seed x.now ≢ xxh3_128_of seed y.now) }
{
    bytes_are_a_text(x);
    bytes_are_a_text(y);
    x.len() < 17 && x.len() == y.len() && x != y
}
