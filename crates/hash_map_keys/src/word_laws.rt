//! What is proved of the keys under which words meet. Each law is a function with no code. Multipliers and an addend are
//! numbers below 2^128; where they are drawn at random, the share of them is the chance. The bounds hold for words that
//! were chosen without knowing the keys, nor anything that depends on them.
ghost use Rattle.std.specs.Prelude.{◌≡◌, ◌≢◌, ℕ, ◌+◌, ◌-◌, ◌*◌, ◌/◌, ◌%◌, ◌^◌, ◌<◌, ◌≤◌, List, [], ◌∷◌, length, nat_lt, All, AllPairs};
ghost use Rattle.std.specs.List.{count_by, sum_by};
ghost use Rattle.hashers.specs.Counts.{meetings};
ghost use Rattle.hash_map_keys.specs.Numbers.{AreLists, AreTables, AreWords, have_hashes, number_hash, pair_hash, share_place, words_hash};

/// [`number_hash`](crate::numbers::number_hash) is the hash of one word, and [`pair_hash`](crate::numbers::pair_hash) that of
/// two: so what follows, over n words, holds of numbers with n = 1, and of numbers below 2^128 and pairs of numbers with
/// n = 2.
pub fn numbers_are_words()
    ensures number { (multiplier addend number : ℕ)
        → number_hash multiplier addend number ≡ words_hash (multiplier ∷ []) addend (number ∷ []) }
    ensures pair { (multiplier multiplier2 addend number : ℕ)
        → pair_hash multiplier multiplier2 addend number
        ≡ words_hash (multiplier ∷ multiplier2 ∷ []) addend (number % 2 ^ 64 ∷ number / 2 ^ 64 ∷ []) }
{}

/// Each pair of hashes of two different lists of n words comes from at most one in 2^128 of the n multipliers and
/// addends; of all of them, from just as many. At random keys two hashes are two random numbers.
pub fn even_pairs_of_hashes()
    ensures most { (n : ℕ) (x y : List ℕ) (u v : ℕ) (keys : List (List ℕ × ℕ)) → AreWords n x
        → AreWords n y → x ≢ y
        → AreTables n keys
        → All (λ key. (words_hash key.0 key.1 x ≡ u) × (words_hash key.0 key.1 y ≡ v)) keys
        → length keys ≤ 2 ^ (128 * n) }
    ensures of_all { (n : ℕ) (x y : List ℕ) (u v : ℕ) (keys : List (List ℕ × ℕ)) → AreWords n x
        → AreWords n y → x ≢ y
        → u < 2 ^ 64 → v < 2 ^ 64
        → AreTables n keys → length keys ≡ 2 ^ (128 * n + 128)
        → count_by (λ key. have_hashes x y u v (words_hash key.0 key.1)) keys ≡ 2 ^ (128 * n) }
{}

/// So low and high bits of two hashes are the same at no more than one in 2^(low + high) of these keys: with no high ones
/// the place in a table of 2^low places, with all 64 low ones the whole hash. Std's maps take the low bits as the place
/// and the highest seven as a tag, and compare keys only where both are the same.
pub fn few_keys_for_a_place_and_a_tag()
    ensures { (n : ℕ) (x y : List ℕ) (low high : ℕ) (keys : List (List ℕ × ℕ)) → AreWords n x
        → AreWords n y → x ≢ y
        → low + high ≤ 64 → AreTables n keys
        → All (λ key. (words_hash key.0 key.1 x % 2 ^ low ≡ words_hash key.0 key.1 y % 2 ^ low)
        × (words_hash key.0 key.1 x / 2 ^ (64 - high) ≡ words_hash key.0 key.1 y / 2 ^ (64 - high))) keys
        → length keys ≤ 2 ^ (128 * n + 128 - low - high) }
{}

/// One list of words has a given hash at no more than one in 2^64.
pub fn few_keys_for_a_hash()
    ensures { (n : ℕ) (x : List ℕ) (u : ℕ) (keys : List (List ℕ × ℕ)) → AreTables n keys
        → All (λ key. words_hash key.0 key.1 x ≡ u) keys
        → length keys ≤ 2 ^ (128 * n + 64) }
{}

/// Over all keys together, the pairs of different lists of words that come into one place of a table of 2^bits places
/// are as few: this, divided by the number of keys, is how many pairs meet on average.
pub fn few_meetings()
    ensures { (n : ℕ) (lists : List (List ℕ)) (bits : ℕ) (keys : List (List ℕ × ℕ))
        → All (AreWords n) lists
        → AllPairs ◌≢◌ lists → bits ≤ 64
        → AreTables n keys
        → sum_by (λ key. meetings (share_place bits (words_hash key.0 key.1)) lists) keys
        ≤ length lists * (length lists - 1) / 2 * 2 ^ (128 * n + 128 - bits) }
{}

/// So of up to 2^bits different lists of words no more than half as many pairs meet as there are lists, on average over all
/// keys; and at no more than half of the keys do more pairs meet than there are lists.
pub fn few_meetings_of_few_words()
    ensures mean { (n : ℕ) (lists : List (List ℕ)) (bits : ℕ) (keys : List (List ℕ × ℕ))
        → All (AreWords n) lists
        → AllPairs ◌≢◌ lists → bits ≤ 64 → length lists ≤ 2 ^ bits → AreTables n keys
        → 2 * sum_by (λ key. meetings (share_place bits (words_hash key.0 key.1)) lists) keys
        ≤ length lists * 2 ^ (128 * n + 128) }
    ensures half { (n : ℕ) (lists : List (List ℕ)) (bits : ℕ) (keys : List (List ℕ × ℕ))
        → All (AreWords n) lists
        → AllPairs ◌≢◌ lists → bits ≤ 64 → length lists ≤ 2 ^ bits → AreTables n keys
        → 2 * count_by (λ key. nat_lt (length lists)
        (meetings (share_place bits (words_hash key.0 key.1)) lists)) keys ≤ 2 ^ (128 * n + 128) }
{}

/// Where the addend is known, whatever it is, a share of at most 2 / 2^bits of the multipliers gives two different lists
/// of words the same low bits, and the same high bits.
pub fn few_multipliers()
    ensures place { (n : ℕ) (x y : List ℕ) (addend bits : ℕ) (multipliers : List (List ℕ)) → AreWords n x
        → AreWords n y
        → x ≢ y → bits ≤ 64 → AreLists n multipliers
        → All (λ a. words_hash a addend x % 2 ^ bits ≡ words_hash a addend y % 2 ^ bits) multipliers
        → length multipliers ≤ 2 ^ (128 * n + 1 - bits) }
    ensures high_bits { (n : ℕ) (x y : List ℕ) (addend bits : ℕ) (multipliers : List (List ℕ)) → AreWords n x
        → AreWords n y → x ≢ y → bits ≤ 64 → AreLists n multipliers
        → All (λ a. words_hash a addend x / 2 ^ (64 - bits) ≡ words_hash a addend y / 2 ^ (64 - bits)) multipliers
        → length multipliers ≤ 2 ^ (128 * n + 1 - bits) }
{}
