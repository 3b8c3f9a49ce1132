//! SipHash's round on four words of 64 bits, and what takes it back. All sums are modulo 2^64.
ghost use Rattle.std.specs.Prelude.{◌≡◌, ℕ, List, [], ◌<◌};
ghost use Rattle.hash_rounds.proofs.RoundLemmas.{AreFourWords};
ghost use Rattle.hash_rounds.specs.Steps.{apply, undo};
ghost use Rattle.hash_blocks.specs.SipHash.{after_word, half_round, round_steps, rounds};
ghost use Rattle.hash_blocks.specs.SipHashBack.{before_word, unrounds};

use hash_rounds::rotl64;

/// One round: two halves.
#[inline(always)]
pub fn sip_round(v: &mut [u64; 4])
    ensures round { v.new ≡ apply 64 round_steps [] v.old }
    ensures undone { apply 64 (undo 64 round_steps) [] v.new ≡ v.old }
{
    half_round(v, 0, 1, 2, 3, 13, 16);
    half_round(v, 2, 1, 0, 3, 17, 21);
}

/// Takes a round back, on any four words.
#[inline(always)]
pub fn sip_unround(v: &mut [u64; 4])
    ensures round { v.new ≡ apply 64 (undo 64 round_steps) [] v.old }
    ensures undone { apply 64 round_steps [] v.new ≡ v.old }
{
    half_unround(v, 2, 1, 0, 3, 17, 21);
    half_unround(v, 0, 1, 2, 3, 13, 16);
}

#[inline(always)]
fn half_round(v: &mut [u64; 4], a: usize, b: usize, c: usize, d: usize, s: u32, t: u32)
    requires a_in { a < 4 }
    requires b_in { b < 4 }
    requires c_in { c < 4 }
    requires d_in { d < 4 }
    requires s_some { 0 < s }
    requires s_within { s < 64 }
    requires t_some { 0 < t }
    requires t_within { t < 64 }
    ensures { v.new ≡ apply 64 (half_round (a, b, c, d, s, t)) [] v.old }
{
    v[a] = v[a].wrapping_add(v[b]);
    v[c] = v[c].wrapping_add(v[d]);
    v[b] = rotl64(v[b], s);
    v[b] ^= v[a];
    v[d] = rotl64(v[d], t);
    v[d] ^= v[c];
    v[a] = rotl64(v[a], 32);
}

#[inline(always)]
fn half_unround(v: &mut [u64; 4], a: usize, b: usize, c: usize, d: usize, s: u32, t: u32)
    requires a_in { a < 4 }
    requires b_in { b < 4 }
    requires c_in { c < 4 }
    requires d_in { d < 4 }
    requires s_some { 0 < s }
    requires s_within { s < 64 }
    requires t_some { 0 < t }
    requires t_within { t < 64 }
    ensures { v.new ≡ apply 64 (undo 64 (half_round (a, b, c, d, s, t))) [] v.old }
{
    v[a] = rotl64(v[a], 32);
    v[d] ^= v[c];
    v[d] = rotl64(v[d], 64 - t);
    v[b] ^= v[a];
    v[b] = rotl64(v[b], 64 - s);
    v[c] = v[c].wrapping_sub(v[d]);
    v[a] = v[a].wrapping_sub(v[b]);
}

/// So many rounds.
#[inline(always)]
#[tactic(auto, unfolding(crate::specs::SipHash::rounds))]
pub(crate) fn sip_rounds<const N: usize>(v: &mut [u64; 4])
    ensures { v.new ≡ rounds N v.old }
{
    for _turn in 0..N {
        sip_round(v);
    }
}

/// So many rounds taken back.
#[inline(always)]
#[tactic(auto, unfolding(crate::specs::SipHashBack::unrounds))]
fn sip_unrounds<const N: usize>(v: &mut [u64; 4])
    ensures { v.new ≡ unrounds N v.old }
{
    for _turn in 0..N {
        sip_unround(v);
    }
}

// The state before a word.
#[inline(always)]
#[tactic(auto, unfolding(crate::specs::SipHashBack::before_word, crate::specs::SipHash::xored))]
fn word_out<const C: usize>(v: &mut [u64; 4], word: u64)
    ensures { v.new ≡ before_word C v.old word }
{
    v[0] ^= word;
    sip_unrounds::<C>(v);
    v[3] ^= word;
}

/// Takes a word out of four words again, whether or not it was taken in by `C` rounds: the inverse of that, both ways.
pub fn sip_word_out<const C: usize>(v: &mut [u64; 4], word: u64)
    ensures back { after_word C v.new word ≡ v.old }
    ensures undone { (s : List ℕ) → AreFourWords s → after_word C s word ≡ v.old → v.new ≡ s }
{
    word_out::<C>(v, word);
}
