//! The rounds of Bob Jenkins' SpookyHash for long texts (burtleburtle.net/bob/hash/spooky.html, SpookyV2.cpp), on
//! twelve words of 64 bits, and what takes them back. All sums and differences are modulo 2^64.

ghost use Rattle.std.specs.Prelude.{◌≡◌, ◌<◌, [], length};
ghost use Rattle.hash_rounds.specs.Steps.{apply, undo};
ghost use Rattle.hash_rounds.specs.Rounds.{spooky_mix_steps, spooky_mix_row, spooky_end_partial_steps, spooky_end_partial_row, spooky_end_steps, data_sums};

use hash_words::rotl64;

/// Mixes twelve words of data into a state of twelve words: twelve rows of five steps.
pub fn spooky_mix(d: &[u64; 12], s: &mut [u64; 12])
    ensures round { s.new ≡ apply 64 spooky_mix_steps d.now s.old }
    ensures undone { apply 64 (undo 64 spooky_mix_steps) d.now s.new ≡ s.old }
{
    mix_row(d, s, 0, 11);
    mix_row(d, s, 1, 32);
    mix_row(d, s, 2, 43);
    mix_row(d, s, 3, 31);
    mix_row(d, s, 4, 17);
    mix_row(d, s, 5, 28);
    mix_row(d, s, 6, 39);
    mix_row(d, s, 7, 57);
    mix_row(d, s, 8, 55);
    mix_row(d, s, 9, 54);
    mix_row(d, s, 10, 22);
    mix_row(d, s, 11, 46);
}

/// Takes `spooky_mix` of the same data back, on any state.
pub fn spooky_unmix(d: &[u64; 12], s: &mut [u64; 12])
    ensures round { s.new ≡ apply 64 (undo 64 spooky_mix_steps) d.now s.old }
    ensures undone { apply 64 spooky_mix_steps d.now s.new ≡ s.old }
{
    unmix_row(d, s, 11, 46);
    unmix_row(d, s, 10, 22);
    unmix_row(d, s, 9, 54);
    unmix_row(d, s, 8, 55);
    unmix_row(d, s, 7, 57);
    unmix_row(d, s, 6, 39);
    unmix_row(d, s, 5, 28);
    unmix_row(d, s, 4, 17);
    unmix_row(d, s, 3, 31);
    unmix_row(d, s, 2, 43);
    unmix_row(d, s, 1, 32);
    unmix_row(d, s, 0, 11);
}

/// A third of the last mix of a state: twelve rows of three steps. It reads no data.
pub fn spooky_end_partial(s: &mut [u64; 12])
    ensures round { s.new ≡ apply 64 spooky_end_partial_steps [] s.old }
    ensures undone { apply 64 (undo 64 spooky_end_partial_steps) [] s.new ≡ s.old }
{
    end_partial_row(s, 0, 44);
    end_partial_row(s, 1, 15);
    end_partial_row(s, 2, 34);
    end_partial_row(s, 3, 21);
    end_partial_row(s, 4, 38);
    end_partial_row(s, 5, 33);
    end_partial_row(s, 6, 10);
    end_partial_row(s, 7, 13);
    end_partial_row(s, 8, 38);
    end_partial_row(s, 9, 53);
    end_partial_row(s, 10, 42);
    end_partial_row(s, 11, 54);
}

/// Takes `spooky_end_partial` back, on any state.
pub fn spooky_un_end_partial(s: &mut [u64; 12])
    ensures round { s.new ≡ apply 64 (undo 64 spooky_end_partial_steps) [] s.old }
    ensures undone { apply 64 spooky_end_partial_steps [] s.new ≡ s.old }
{
    un_end_partial_row(s, 11, 54);
    un_end_partial_row(s, 10, 42);
    un_end_partial_row(s, 9, 53);
    un_end_partial_row(s, 8, 38);
    un_end_partial_row(s, 7, 13);
    un_end_partial_row(s, 6, 10);
    un_end_partial_row(s, 5, 33);
    un_end_partial_row(s, 4, 38);
    un_end_partial_row(s, 3, 21);
    un_end_partial_row(s, 2, 34);
    un_end_partial_row(s, 1, 15);
    un_end_partial_row(s, 0, 44);
}

/// The last mix of a state: each word of data is added to its word of the state, and then `spooky_end_partial` runs
/// three times.
pub fn spooky_end(d: &[u64; 12], s: &mut [u64; 12])
    ensures { s.new ≡ apply 64 spooky_end_steps d.now s.old }
{
    add_data(d, s);
    spooky_end_partial(s);
    spooky_end_partial(s);
    spooky_end_partial(s);
}

#[inline(always)]
#[tactic(auto, unfolding(crate::specs::Steps::apply))]
fn mix_row(d: &[u64; 12], s: &mut [u64; 12], i: usize, r: u32)
    requires i_in { i < 12 }
    requires some { 0 < r }
    requires within { r < 64 }
    ensures { s.new ≡ apply 64 (spooky_mix_row (i, r)) d.now s.old }
{
    s[i] = s[i].wrapping_add(d[i]);
    s[(i + 2) % 12] ^= s[(i + 10) % 12];
    s[(i + 11) % 12] ^= s[i];
    s[i] = rotl64(s[i], r);
    s[(i + 11) % 12] = s[(i + 11) % 12].wrapping_add(s[(i + 1) % 12]);
}

#[inline(always)]
#[tactic(auto, unfolding(crate::specs::Steps::apply, crate::specs::Steps::undo))]
fn unmix_row(d: &[u64; 12], s: &mut [u64; 12], i: usize, r: u32)
    requires i_in { i < 12 }
    requires some { 0 < r }
    requires within { r < 64 }
    ensures { s.new ≡ apply 64 (undo 64 (spooky_mix_row (i, r))) d.now s.old }
{
    s[(i + 11) % 12] = s[(i + 11) % 12].wrapping_sub(s[(i + 1) % 12]);
    s[i] = rotl64(s[i], 64 - r);
    s[(i + 11) % 12] ^= s[i];
    s[(i + 2) % 12] ^= s[(i + 10) % 12];
    s[i] = s[i].wrapping_sub(d[i]);
}

#[inline(always)]
#[tactic(auto, unfolding(crate::specs::Steps::apply))]
fn end_partial_row(s: &mut [u64; 12], i: usize, r: u32)
    requires i_in { i < 12 }
    requires some { 0 < r }
    requires within { r < 64 }
    ensures { s.new ≡ apply 64 (spooky_end_partial_row (i, r)) [] s.old }
{
    s[(i + 11) % 12] = s[(i + 11) % 12].wrapping_add(s[(i + 1) % 12]);
    s[(i + 2) % 12] ^= s[(i + 11) % 12];
    s[(i + 1) % 12] = rotl64(s[(i + 1) % 12], r);
}

#[inline(always)]
#[tactic(auto, unfolding(crate::specs::Steps::apply, crate::specs::Steps::undo))]
fn un_end_partial_row(s: &mut [u64; 12], i: usize, r: u32)
    requires i_in { i < 12 }
    requires some { 0 < r }
    requires within { r < 64 }
    ensures { s.new ≡ apply 64 (undo 64 (spooky_end_partial_row (i, r))) [] s.old }
{
    s[(i + 1) % 12] = rotl64(s[(i + 1) % 12], 64 - r);
    s[(i + 2) % 12] ^= s[(i + 11) % 12];
    s[(i + 11) % 12] = s[(i + 11) % 12].wrapping_sub(s[(i + 1) % 12]);
}

#[inline(always)]
#[tactic(auto, unfolding(crate::specs::Steps::apply, crate::specs::Rounds::data_sums))]
fn add_data(d: &[u64; 12], s: &mut [u64; 12])
    ensures { s.new ≡ apply 64 data_sums d.now s.old }
{
    s[0] = s[0].wrapping_add(d[0]);
    s[1] = s[1].wrapping_add(d[1]);
    s[2] = s[2].wrapping_add(d[2]);
    s[3] = s[3].wrapping_add(d[3]);
    s[4] = s[4].wrapping_add(d[4]);
    s[5] = s[5].wrapping_add(d[5]);
    s[6] = s[6].wrapping_add(d[6]);
    s[7] = s[7].wrapping_add(d[7]);
    s[8] = s[8].wrapping_add(d[8]);
    s[9] = s[9].wrapping_add(d[9]);
    s[10] = s[10].wrapping_add(d[10]);
    s[11] = s[11].wrapping_add(d[11]);
}
