//! What is proved of the keys under which keys of maps meet. Each law is a function with no code. Multipliers and the
//! addend are numbers below 2^128, and the key for texts is a number below the prime 2^61 - 1; where they are drawn at
//! random, the share of them is the chance. The bounds hold for keys of maps that were chosen without knowing these, nor
//! anything that depends on them.
ghost use Rattle.std.specs.Prelude.{◌≡◌, ◌≢◌, ℕ, ◌+◌, ◌-◌, ◌*◌, ◌/◌, ◌%◌, ◌^◌, ◌<◌, ◌≤◌, max, List, ◌++◌, drop, fold, length, All, AllPairs, [], ◌∷◌};
ghost use Rattle.std.specs.Borrow.{Bor};
ghost use Rattle.std.specs.Hash.{le_bytes};
ghost use Rattle.std.specs.List.{concat};
ghost use Rattle.hashers.specs.Text.{IsText};
ghost use Rattle.hash_keyed.specs.Poly61.{AreKeys, prime61, word_count};
ghost use Rattle.hash_map_keys.specs.Numbers.{AreTables};
ghost use Rattle.hash_xxh3.specs.Xxh3.{xxh3_64_of};
ghost use Rattle.hash_map_keys.specs.Pieces.{byte_step, piece_step};
ghost use Rattle.hash_map_keys.specs.KeyState.{after_write, answer_of, fresh_at};
ghost use Rattle.hash_map_keys.specs.MapKeys.{AreMapKeys, NeitherBegins, key_words, map_hash};
ghost use Rattle.hash_map_keys.specs.declared.keys.MapKeys.{MapKeys};

use hash_theorems::xxh3::laws::keys_of_one_width_never_collide;

/// The hash of a key of a map depends on its bytes alone, in whatever pieces they are written.
pub fn pieces_do_not_show()
    ensures { (keys : Bor MapKeys) (pieces : List (List ℕ)) → All IsText pieces
        → answer_of (fold after_write (fresh_at keys) pieces)
        ≡ map_hash keys.now.multipliers keys.now.addend (keys.now.text_key % prime61) (concat pieces) }
{}

/// Two keys of a map whose seventeen words differ have the same low and high bits of their hashes at no more than one in
/// 2^(low + high) of the multipliers and addends, whatever the key for texts: with no high ones the place in a table, with
/// all 128 low ones the whole hash.
pub fn few_keys_for_a_place_and_a_tag()
    ensures { (s t : List ℕ) (text_key low high : ℕ) (keys : List (List ℕ × ℕ)) → IsText s → IsText t
        → key_words text_key s ≢ key_words text_key t → low + high ≤ 64 → AreTables 17 keys
        → All (λ key. (map_hash key.0 key.1 text_key s % 2 ^ low ≡ map_hash key.0 key.1 text_key t % 2 ^ low)
        × (map_hash key.0 key.1 text_key s / 2 ^ (64 - high) ≡ map_hash key.0 key.1 text_key t / 2 ^ (64 - high))) keys
        → length keys ≤ 2 ^ (2304 - low - high) }
{}

/// The seventeen words of two keys of a map, of which neither begins with the other, as std's traits write the values of one
/// type, always differ where one of them has at most 128 bytes. Of longer ones they are the same at few keys for texts: no
/// more than `poly61` has for the bytes after the first 128.
pub fn words_tell_keys_apart()
    ensures short { (s t : List ℕ) (text_key : ℕ) → IsText s → IsText t → NeitherBegins s t
        → length s ≤ 128
        → key_words text_key s ≢ key_words text_key t }
    ensures long { (s t : List ℕ) (text_keys : List ℕ) → IsText s → IsText t → NeitherBegins s t
        → AreKeys prime61 text_keys
        → All (λ text_key. key_words text_key s ≡ key_words text_key t) text_keys
        → length text_keys ≤ max (word_count (drop 128 s)) (word_count (drop 128 t)) + 1 }
{}

/// So over all keys together: of the 2^2304 multipliers and addends with each of so many keys for texts, the share at which
/// two keys of a map have the same low and high bits is at most one in 2^(low + high), and as much more as `poly61` has for
/// the bytes after the first 128.
pub fn few_keys_for_two_keys_of_a_map()
    ensures { (s t : List ℕ) (low high : ℕ) (keys : List ((List ℕ × ℕ) × ℕ)) → IsText s → IsText t
        → NeitherBegins s t
        → low + high ≤ 64 → AreMapKeys keys
        → All (λ key. (map_hash key.0.0 key.0.1 key.1 s % 2 ^ low ≡ map_hash key.0.0 key.0.1 key.1 t % 2 ^ low)
        × (map_hash key.0.0 key.0.1 key.1 s / 2 ^ (64 - high)
        ≡ map_hash key.0.0 key.0.1 key.1 t / 2 ^ (64 - high))) keys
        → length keys ≤ prime61 * 2 ^ (2304 - low - high)
        + (max (word_count (drop 128 s)) (word_count (drop 128 t)) + 1) * 2 ^ 2304 }
{}

/// Under [`Xxh3Pieces`](crate::xxh3_pieces::Xxh3Pieces) no two numbers of 64 bits share a hash, whatever the seed, and a byte's
/// step loses nothing of the state and of the byte: so two strings of two bytes or more share a hash only if they share an XXH3.
pub fn pieces_of_xxh3_keep_apart()
    ensures numbers { (seed a b : ℕ) → a < 2 ^ 64 → b < 2 ^ 64
        → piece_step seed (le_bytes 8 a) ≡ piece_step seed (le_bytes 8 b) → a ≡ b }
    ensures states { (s t byte : ℕ) → s < 2 ^ 64 → t < 2 ^ 64 → byte < 256
        → byte_step s byte ≡ byte_step t byte → s ≡ t }
    ensures bytes { (state a b : ℕ) → state < 2 ^ 64 → a < 256 → b < 256
        → byte_step state a ≡ byte_step state b → a ≡ b }
    ensures strings { (seed : ℕ) (text : List ℕ) → 2 ≤ length text
        → fold piece_step seed (text ∷ (255 ∷ []) ∷ []) ≡ byte_step (xxh3_64_of seed text) 255 }
{
    keys_of_one_width_never_collide();
}
