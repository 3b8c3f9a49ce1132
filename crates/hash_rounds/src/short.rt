//! The rounds of Bob Jenkins' SpookyHash for short texts (burtleburtle.net/bob/hash/spooky.html, SpookyV2.cpp), on
//! four words of 64 bits, and what takes them back. All sums and differences are modulo 2^64.

ghost use Rattle.std.specs.Prelude.{◌≡◌, ◌<◌, [], length};
ghost use Rattle.hash_rounds.specs.Steps.{apply, undo};
ghost use Rattle.hash_rounds.specs.Rounds.{short_mix_steps, short_mix_group, short_end_steps, short_end_group};

use hash_words::rotl64;

/// Mixes four words: twelve groups of three steps.
pub fn short_mix(h: &mut [u64; 4])
    ensures round { h.new ≡ apply 64 short_mix_steps [] h.old }
    ensures undone { apply 64 (undo 64 short_mix_steps) [] h.new ≡ h.old }
{
    mix_group(h, 2, 50);
    mix_group(h, 3, 52);
    mix_group(h, 0, 30);
    mix_group(h, 1, 41);
    mix_group(h, 2, 54);
    mix_group(h, 3, 48);
    mix_group(h, 0, 38);
    mix_group(h, 1, 37);
    mix_group(h, 2, 62);
    mix_group(h, 3, 34);
    mix_group(h, 0, 5);
    mix_group(h, 1, 36);
}

/// Takes `short_mix` back, on any four words.
pub fn un_short_mix(h: &mut [u64; 4])
    ensures round { h.new ≡ apply 64 (undo 64 short_mix_steps) [] h.old }
    ensures undone { apply 64 short_mix_steps [] h.new ≡ h.old }
{
    unmix_group(h, 1, 36);
    unmix_group(h, 0, 5);
    unmix_group(h, 3, 34);
    unmix_group(h, 2, 62);
    unmix_group(h, 1, 37);
    unmix_group(h, 0, 38);
    unmix_group(h, 3, 48);
    unmix_group(h, 2, 54);
    unmix_group(h, 1, 41);
    unmix_group(h, 0, 30);
    unmix_group(h, 3, 52);
    unmix_group(h, 2, 50);
}

/// The last mix of four words: eleven groups of three steps.
pub fn short_end(h: &mut [u64; 4])
    ensures round { h.new ≡ apply 64 short_end_steps [] h.old }
    ensures undone { apply 64 (undo 64 short_end_steps) [] h.new ≡ h.old }
{
    end_group(h, 2, 15);
    end_group(h, 3, 52);
    end_group(h, 0, 26);
    end_group(h, 1, 51);
    end_group(h, 2, 28);
    end_group(h, 3, 9);
    end_group(h, 0, 47);
    end_group(h, 1, 54);
    end_group(h, 2, 32);
    end_group(h, 3, 25);
    end_group(h, 0, 63);
}

/// Takes `short_end` back, on any four words.
pub fn un_short_end(h: &mut [u64; 4])
    ensures round { h.new ≡ apply 64 (undo 64 short_end_steps) [] h.old }
    ensures undone { apply 64 short_end_steps [] h.new ≡ h.old }
{
    unend_group(h, 0, 63);
    unend_group(h, 3, 25);
    unend_group(h, 2, 32);
    unend_group(h, 1, 54);
    unend_group(h, 0, 47);
    unend_group(h, 3, 9);
    unend_group(h, 2, 28);
    unend_group(h, 1, 51);
    unend_group(h, 0, 26);
    unend_group(h, 3, 52);
    unend_group(h, 2, 15);
}

#[inline(always)]
#[tactic(auto, unfolding(crate::specs::Steps::apply))]
fn mix_group(h: &mut [u64; 4], p: usize, r: u32)
    requires p_in { p < 4 }
    requires some { 0 < r }
    requires within { r < 64 }
    ensures { h.new ≡ apply 64 (short_mix_group (p, r)) [] h.old }
{
    h[p] = rotl64(h[p], r);
    h[p] = h[p].wrapping_add(h[(p + 1) % 4]);
    h[(p + 2) % 4] ^= h[p];
}

#[inline(always)]
#[tactic(auto, unfolding(crate::specs::Steps::apply, crate::specs::Steps::undo))]
fn unmix_group(h: &mut [u64; 4], p: usize, r: u32)
    requires p_in { p < 4 }
    requires some { 0 < r }
    requires within { r < 64 }
    ensures { h.new ≡ apply 64 (undo 64 (short_mix_group (p, r))) [] h.old }
{
    h[(p + 2) % 4] ^= h[p];
    h[p] = h[p].wrapping_sub(h[(p + 1) % 4]);
    h[p] = rotl64(h[p], 64 - r);
}

#[inline(always)]
#[tactic(auto, unfolding(crate::specs::Steps::apply))]
fn end_group(h: &mut [u64; 4], p: usize, r: u32)
    requires p_in { p < 4 }
    requires some { 0 < r }
    requires within { r < 64 }
    ensures { h.new ≡ apply 64 (short_end_group (p, r)) [] h.old }
{
    h[(p + 1) % 4] ^= h[p];
    h[p] = rotl64(h[p], r);
    h[(p + 1) % 4] = h[(p + 1) % 4].wrapping_add(h[p]);
}

#[inline(always)]
#[tactic(auto, unfolding(crate::specs::Steps::apply, crate::specs::Steps::undo))]
fn unend_group(h: &mut [u64; 4], p: usize, r: u32)
    requires p_in { p < 4 }
    requires some { 0 < r }
    requires within { r < 64 }
    ensures { h.new ≡ apply 64 (undo 64 (short_end_group (p, r))) [] h.old }
{
    h[(p + 1) % 4] = h[(p + 1) % 4].wrapping_sub(h[p]);
    h[p] = rotl64(h[p], 64 - r);
    h[(p + 1) % 4] ^= h[p];
}
