//! The two rounds of Bob Jenkins' lookup3 (burtleburtle.net/bob/c/lookup3.c), on three words of 32 bits, and what
//! takes them back. All sums and differences are modulo 2^32.

ghost use Rattle.std.specs.Prelude.{◌≡◌, ◌<◌, [], length};
ghost use Rattle.hash_rounds.specs.Steps.{apply, undo};
ghost use Rattle.hash_rounds.specs.Rounds.{lookup3_mix_steps, lookup3_mix_group, lookup3_final_steps, lookup3_final_group};

use hash_words::rotl32;

// The places of the words a, b and c.
const A: usize = 0;

const B: usize = 1;

const C: usize = 2;

/// Mixes the words a, b and c: six groups of three steps, each by the table of the round.
pub fn lookup3_mix(s: &mut [u32; 3])
    ensures round { s.new ≡ apply 32 lookup3_mix_steps [] s.old }
    ensures undone { apply 32 (undo 32 lookup3_mix_steps) [] s.new ≡ s.old }
{
    mix_group(s, A, C, B, 4);
    mix_group(s, B, A, C, 6);
    mix_group(s, C, B, A, 8);
    mix_group(s, A, C, B, 16);
    mix_group(s, B, A, C, 19);
    mix_group(s, C, B, A, 4);
}

/// Takes `lookup3_mix` back, on any three words.
pub fn lookup3_unmix(s: &mut [u32; 3])
    ensures round { s.new ≡ apply 32 (undo 32 lookup3_mix_steps) [] s.old }
    ensures undone { apply 32 lookup3_mix_steps [] s.new ≡ s.old }
{
    unmix_group(s, C, B, A, 4);
    unmix_group(s, B, A, C, 19);
    unmix_group(s, A, C, B, 16);
    unmix_group(s, C, B, A, 8);
    unmix_group(s, B, A, C, 6);
    unmix_group(s, A, C, B, 4);
}

/// The last mix of the words a, b and c: seven groups of two steps, each by the table of the round.
pub fn lookup3_final(s: &mut [u32; 3])
    ensures round { s.new ≡ apply 32 lookup3_final_steps [] s.old }
    ensures undone { apply 32 (undo 32 lookup3_final_steps) [] s.new ≡ s.old }
{
    final_group(s, C, B, 14);
    final_group(s, A, C, 11);
    final_group(s, B, A, 25);
    final_group(s, C, B, 16);
    final_group(s, A, C, 4);
    final_group(s, B, A, 14);
    final_group(s, C, B, 24);
}

/// Takes `lookup3_final` back, on any three words.
pub fn lookup3_unfinal(s: &mut [u32; 3])
    ensures round { s.new ≡ apply 32 (undo 32 lookup3_final_steps) [] s.old }
    ensures undone { apply 32 lookup3_final_steps [] s.new ≡ s.old }
{
    unfinal_group(s, C, B, 24);
    unfinal_group(s, B, A, 14);
    unfinal_group(s, A, C, 4);
    unfinal_group(s, C, B, 16);
    unfinal_group(s, B, A, 25);
    unfinal_group(s, A, C, 11);
    unfinal_group(s, C, B, 14);
}

#[inline(always)]
#[tactic(auto, unfolding(crate::specs::Steps::apply))]
fn mix_group(s: &mut [u32; 3], x: usize, y: usize, z: usize, k: u32)
    requires x_in { x < 3 }
    requires y_in { y < 3 }
    requires z_in { z < 3 }
    requires some { 0 < k }
    requires within { k < 32 }
    ensures { s.new ≡ apply 32 (lookup3_mix_group (x, y, z, k)) [] s.old }
{
    s[x] = s[x].wrapping_sub(s[y]);
    s[x] ^= rotl32(s[y], k);
    s[y] = s[y].wrapping_add(s[z]);
}

#[inline(always)]
#[tactic(auto, unfolding(crate::specs::Steps::apply, crate::specs::Steps::undo))]
fn unmix_group(s: &mut [u32; 3], x: usize, y: usize, z: usize, k: u32)
    requires x_in { x < 3 }
    requires y_in { y < 3 }
    requires z_in { z < 3 }
    requires some { 0 < k }
    requires within { k < 32 }
    ensures { s.new ≡ apply 32 (undo 32 (lookup3_mix_group (x, y, z, k))) [] s.old }
{
    s[y] = s[y].wrapping_sub(s[z]);
    s[x] ^= rotl32(s[y], k);
    s[x] = s[x].wrapping_add(s[y]);
}

#[inline(always)]
#[tactic(auto, unfolding(crate::specs::Steps::apply))]
fn final_group(s: &mut [u32; 3], x: usize, y: usize, k: u32)
    requires x_in { x < 3 }
    requires y_in { y < 3 }
    requires some { 0 < k }
    requires within { k < 32 }
    ensures { s.new ≡ apply 32 (lookup3_final_group (x, y, k)) [] s.old }
{
    s[x] ^= s[y];
    s[x] = s[x].wrapping_sub(rotl32(s[y], k));
}

#[inline(always)]
#[tactic(auto, unfolding(crate::specs::Steps::apply, crate::specs::Steps::undo))]
fn unfinal_group(s: &mut [u32; 3], x: usize, y: usize, k: u32)
    requires x_in { x < 3 }
    requires y_in { y < 3 }
    requires some { 0 < k }
    requires within { k < 32 }
    ensures { s.new ≡ apply 32 (undo 32 (lookup3_final_group (x, y, k))) [] s.old }
{
    s[x] = s[x].wrapping_add(rotl32(s[y], k));
    s[x] ^= s[y];
}
