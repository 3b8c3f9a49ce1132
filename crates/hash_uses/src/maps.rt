//! How a caller uses std's maps and sets over the hashers: four proved examples.
ghost use Rattle.std.specs.Prelude.{◌≡◌, ◌↔◌, ℕ, List, IsTrue, IfOk, IfErr, OnOk, OnErr, true, false, length, unwrap_or, nat_eq, take};
ghost use Rattle.std.specs.HashMap as map;
ghost use Rattle.std.specs.HashSet as set;
ghost use Rattle.std.specs.List.{count_by};
ghost use Rattle.std.specs.Str.{bytes_eq};
ghost use Rattle.std.specs.declared.option.Option.TheVariants.{Some};

use hashers::build::BuildFresh;
use hashers::fnv::{FnvBuildHasher, FnvHashMap, FnvHashSet};
use hashers::fx_hash::{FxBuildHasher, FxHashMap};
use hashers::laws::Piecewise;
use std::alloc::{AllocError, AllocFailed, Global};
use std::collections::HashMap;

/// A map over fx, told by its builder: what was inserted is found.
pub fn map_by_its_builder(alloc: Global) -> Result<Option<u32>, AllocError>
    ensures { IfOk result (λ found. found ≡ Some 2) }
{
    let mut map = HashMap::with_hasher(alloc, FxBuildHasher::new());
    map.insert(1, 2)?;
    Ok(map.get(&1).copied())
}

/// A map over FNV-1a, told by its type.
fn fresh_map(alloc: Global) -> FnvHashMap<u32, u32>
    ensures { map.IsEmpty result }
{
    FnvHashMap::with_hasher(alloc, FnvBuildHasher::new())
}

/// The same use of it.
pub fn map_by_its_type(alloc: Global) -> Result<Option<u32>, AllocError>
    ensures { IfOk result (λ found. found ≡ Some 4) }
{
    let mut map = fresh_map(alloc);
    map.insert(3, 4)?;
    Ok(map.get(&3).copied())
}

/// How often each word stands in the list, over any hasher. Where memory is refused the words are still the caller's.
pub fn count_words<'a, H: Piecewise>(
    alloc: Global,
    words: &[&'a str],
) -> Result<HashMap<&'a str, u64, BuildFresh<H>>, AllocError>
    ensures { IfOk result (λ counts. (word : List ℕ) → unwrap_or (map.get_by (λ k. bytes_eq word k.now) counts) 0
        ≡ count_by (λ w. bytes_eq word w.now) words.now) }
{
    let mut counts = HashMap::with_hasher(alloc, BuildFresh::new());
    for word in words {
        *counts.entry(*word)?.or_insert(0) += 1;
    }
    Ok(counts)
}

/// Takes a key into the set of the keys seen so far, and answers whether it is new. Where memory is refused the key comes
/// back, and the set is as it was.
pub fn see(seen: &mut FnvHashSet<u64>, key: u64) -> Result<bool, AllocFailed<u64>>
    ensures new { IfOk result (λ new. IsTrue new ↔ (set.contains nat_eq seen.old key ≡ false)) }
    ensures here { OnOk result (set.contains nat_eq seen.new key ≡ true) }
    ensures others { (other : ℕ) → nat_eq key other ≡ false
        → set.contains nat_eq seen.new other ≡ set.contains nat_eq seen.old other }
    ensures key_comes_back { IfErr result (λ refused. refused.value ≡ key) }
    ensures unchanged { OnErr result (set.IsUnchanged seen.old seen.new) }
{
    seen.insert(key)
}
