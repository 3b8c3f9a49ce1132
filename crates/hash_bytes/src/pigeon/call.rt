//! The one-call function, which can't stand beside the type of its name.
ghost use Rattle.std.specs.Prelude.{◌≡◌};
ghost use Rattle.hash_bytes.specs.Pigeon.{bricolage_from};

use super::hasher::BricolageRule;
use hash_laws::rules::hash_by_plain;

/// Bricolage of the bytes.
pub fn bricolage(bytes: &[u8]) -> u64
    ensures { result ≡ bricolage_from 0 bytes.now }
{
    hash_by_plain::<BricolageRule>(bytes)
}
