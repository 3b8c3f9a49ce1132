//! Two servers that share out keys.
ghost use Rattle.std.specs.Prelude.{◌≡◌, ℕ, List, IsTrue};
ghost use Rattle.std.specs.FinMap as map;
ghost use Rattle.std.specs.List.Sorted.{IsPermutation};
ghost use Rattle.hash_ring.specs.Ring.{IsOwner};
ghost use Rattle.text_set.specs.TextMaps.{KeysDiffer, with_all};

use hash_ring::{Ring, one_owner_alone, order_does_not_show};
use hashers::laws::Piecewise;

/// Whether two servers give a key to one node. They do where they know the same nodes, in whatever orders these came.
pub fn agree<H: Piecewise>(one: &Ring<H>, other: &Ring<H>, key: &[u8]) -> bool
    ensures owner { IsTrue result → (name : List ℕ) → IsOwner H.hash_of one.now (H.hash_of key.now) name
        → IsOwner H.hash_of other.now (H.hash_of key.now) name }
    ensures same_nodes { (xs ys : List (List ℕ × ℕ)) → KeysDiffer xs → IsPermutation xs ys
        → one.now ≡ with_all map.empty xs → other.now ≡ with_all map.empty ys → IsTrue result }
{
    order_does_not_show();
    one_owner_alone::<H>();
    match (one.owner(key), other.owner(key)) {
        (Some(mine), Some(yours)) => mine == yours,
        (None, None) => true,
        _ => false,
    }
}
