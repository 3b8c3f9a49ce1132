//! Clauses that take each of their names from what `hashers` shows.
ghost use Rattle.std.specs.Prelude.{◌≡◌, ◌<◌, ℕ, List, length};
ghost use Rattle.hashers.specs.Filled.{zero_filled};
ghost use Rattle.hashers.specs.Spooky.{after, spooky_v1};
ghost use Rattle.hashers.specs.SpookyParts.{FitsBuffer, IsSettled, position_of};
ghost use Rattle.hashers.specs.SpookyRounds.{short_end, short_mix, spooky_end};
ghost use Rattle.hashers.specs.declared.laws.HasherWrite.TheVariants.{U8};

use hashers::jenkins::spooky_parts::SpookyParts;
use hashers::laws::{HasherWrite, zeros_do_not_show_in_version_1};
use hashers::rounds;

/// Settled parts go from position to position, and stay settled.
pub fn write_both(parts: &mut SpookyParts, first: &[u8], second: &[u8])
    requires { IsSettled parts.old }
    ensures position { position_of parts.new ≡ after (after (position_of parts.old) first.now) second.now }
    ensures settled { IsSettled parts.new }
    ensures fits { FitsBuffer parts.new }
{
    parts.write(first);
    parts.write(second);
}

/// A law with no code: by version 1 a text that is filled up with zeros has the hash of the text.
pub fn filled_by_version_1()
    ensures { (x y : List ℕ) → length x < length y → length y < 192 → y ≡ zero_filled (length y) x
        → (seed1 seed2 : ℕ) → spooky_v1 seed1 seed2 x ≡ spooky_v1 seed1 seed2 y }
{
    zeros_do_not_show_in_version_1();
}

/// The mix of the short form, and its last.
pub fn mix_and_end(h: &mut [u64; 4])
    ensures { h.new ≡ short_end (short_mix h.old) }
{
    rounds::short_mix(h);
    rounds::short_end(h);
}

/// The last mix of the long form.
pub fn end(h: &mut [u64; 12], block: &[u64; 12])
    ensures { h.new ≡ spooky_end block.now h.old }
{
    rounds::spooky_end(block, h);
}

/// A byte as a write.
pub fn byte_write(value: u8) -> HasherWrite<'static>
    ensures { result ≡ U8 value }
{
    HasherWrite::U8(value)
}
