//! Bits in words of 64, and the places of a key's probes among them.
ghost use Rattle.std.specs.Prelude.{◌≡◌, ◌+◌, ◌-◌, ◌*◌, ◌/◌, ◌%◌, ◌^◌, ◌<◌, ◌≤◌, ◌↔◌, ◌⊎◌, ℕ, IsTrue, false, length};
ghost use Rattle.std.specs.Int.RustNames.{count_ones};
ghost use Rattle.std.specs.List.{sum_by};
ghost use Rattle.hash_bloom.specs.Filter.{HasBit, HasAll, IsAmong, count_set, place};

/// Whether the bit is set.
fn has_bit(words: &[u64], at: u64) -> bool
    requires { at < 64 * length words.now }
    ensures { IsTrue result ↔ HasBit words.now at }
{
    words[(at / 64) as usize] >> (at % 64) & 1 == 1
}

/// Sets the bit.
#[tactic(auto, using(crate::proofs::OneBit::one_bit_more))]
fn set_bit(words: &mut [u64], at: u64)
    requires { at < 64 * length words.old }
    ensures { (j : ℕ) → HasBit words.new j ↔ (HasBit words.old j ⊎ (j ≡ at)) }
{
    words[(at / 64) as usize] |= 1 << (at % 64);
}

/// The remainder, by a multiplication with the inverse in place of a division: the quotient comes out right or 1 too low.
/// Paul Barrett, "Implementing the Rivest Shamir and Adleman Public Key Encryption Algorithm", 1986.
fn remainder(hash: u64, bits: u64, inverse: u64) -> u64
    requires some { 1 ≤ bits }
    requires inverse { inverse ≡ (2 ^ 64 - 1) / bits }
    ensures { result ≡ hash % bits }
{
    let times = (u128::from(hash) * u128::from(inverse) >> 64) as u64;
    let rest = hash - times * bits;
    if rest < bits { rest } else { rest - bits }
}

/// The hash of the probe behind probe i, by its own, and by how much more that of the next one is.
fn next_probe(hash: u64, step: u64, i: u32) -> (u64, u64)
    ensures hash { result.0 ≡ (hash + step) % 2 ^ 64 }
    ensures step { result.1 ≡ (step + (i + 1)) % 2 ^ 64 }
{
    (hash.wrapping_add(step), step.wrapping_add(u64::from(i) + 1))
}

/// Sets the bits of all probes, and answers whether one of them was not set before.
pub fn set_all(words: &mut [u64], bits: u64, probes: u32, first: u64, second: u64) -> bool
    requires some { 1 ≤ bits }
    requires there { bits ≤ 64 * length words.old }
    ensures set { (j : ℕ) → HasBit words.new j
        ↔ (HasBit words.old j ⊎ IsAmong (place bits first second) probes j) }
    ensures before { (result ≡ false) ↔ HasAll words.old (place bits first second) probes }
{
    let inverse = u64::MAX / bits;
    let (mut hash, mut step) = (first, second);
    let mut before = true;
    for i in 0..probes {
        let at = remainder(hash, bits, inverse);
        before &= has_bit(words, at);
        set_bit(words, at);
        (hash, step) = next_probe(hash, step, i);
    }
    !before
}

/// Whether the bits of all probes are set.
pub fn has_all(words: &[u64], bits: u64, probes: u32, first: u64, second: u64) -> bool
    requires some { 1 ≤ bits }
    requires there { bits ≤ 64 * length words.now }
    ensures { IsTrue result ↔ HasAll words.now (place bits first second) probes }
{
    let inverse = u64::MAX / bits;
    let (mut hash, mut step) = (first, second);
    for i in 0..probes {
        let at = remainder(hash, bits, inverse);
        if !has_bit(words, at) {
            return false;
        }
        (hash, step) = next_probe(hash, step, i);
    }
    true
}

/// Whether no bit from place `bits` on is set, which is in the last word.
pub fn no_bits_beyond(words: &[u64], bits: u64) -> bool
    requires enough { bits ≤ 64 * length words.now }
    requires no_more { 64 * length words.now < bits + 64 }
    ensures { IsTrue result ↔ ((j : ℕ) → HasBit words.now j → j < bits) }
{
    bits % 64 == 0 || words[(bits / 64) as usize] >> (bits % 64) == 0
}

/// How many bits of all words are set.
fn ones_of_words(words: &[u64]) -> u128
    ensures { result ≡ sum_by count_ones words.now }
{
    words.iter().map(|word| u128::from(word.count_ones())).sum()
}

/// How many bits are set, of which none lies beyond the first `bits`.
pub fn ones(words: &[u64], bits: u64) -> u64
    requires enough { bits ≤ 64 * length words.now }
    requires within { (j : ℕ) → HasBit words.now j → j < bits }
    ensures { result ≡ count_set words.now bits }
{
    ones_of_words(words) as u64
}
