//! What the library's users do: fingerprints of streams, and pages that lose their end.
ghost use Rattle.std.specs.Prelude.{◌≡◌, ◌<◌, ◌^◌, ℕ, List, Some, IfSome};
ghost use Rattle.hashers.specs.Spooky.{spooky};
ghost use Rattle.hashers.specs.Fnv.{fnv1a64_from};

use hashers::fnv::FNV1aHasher64;
use hashers::jenkins::spooky_hash::SpookyHasher;
use hashers::laws::{Piecewise, Undo, position_of_joined_texts};
use hashers::reader::hash_stream;
use std::io::Read;

/// How many bytes of a stream are hashed at most: 2^40.
const LIMIT: u64 = 1 << 40;

/// The fingerprint of a stream, however it comes; `None` where a read fails or the stream is too long.
pub fn fingerprint<R: Read>(r: &mut R) -> Option<(u64, u64)>
    ensures { (text : List ℕ) → R.remaining r.old ≡ Some text → IfSome result (λ it. it ≡ spooky 0 0 text) }
{
    position_of_joined_texts();
    let mut hasher = SpookyHasher::fresh();
    match hash_stream::<SpookyHasher, R, 4096>(&mut hasher, r, LIMIT) {
        Ok(taken) if taken.ended => Some(hasher.finish128()),
        _ => None,
    }
}

/// A page takes its last bytes back: the hasher stands where it stood before them.
pub fn take_back(h: &mut FNV1aHasher64, last: &[u8])
    ensures { (s : ℕ) → s < 2 ^ 64 → fnv1a64_from s last.now ≡ h.old → h.new ≡ s }
{
    h.unwrite(last);
}
