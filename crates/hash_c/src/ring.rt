//! A ring of nodes in the caller's memory: the points of its nodes, 16 bytes each, in the order of their places, and at one place in that of
//! their nodes. Node `i` is the one with the name number `i` in the order of bytes. Which names there are the caller keeps.
ghost use Rattle.std.specs.Prelude.{◌≡◌, ◌↔◌, ◌+◌, ◌-◌, ◌<◌, ◌≤◌, ◌++◌};
ghost use Rattle.hash_c.specs.Common.{T, ℕ, IsSome, IsTrue, List, drop, length, map, min, take, OnFalse, OnTrue, hash_at, kind_at};
ghost use Rattle.std.specs.Cmp.Lexicographic.{slice_cmp};
ghost use Rattle.std.specs.FinMap.Entries.{is_sorted};
ghost use Rattle.std.specs.Ordering.{nat_cmp};
ghost use Rattle.std.specs.List.{All, AllPairs, insert, remove};
ghost use Rattle.std.specs.List.Sorted.{IsPermutation};
ghost use Rattle.hash_ring.specs.Ring.{AreOwners, IsOwner};
ghost use Rattle.hash_ring.specs.Points.{ArePoints, IsBefore, IsGapAt, IsRing, IsStart, MayMerge, index_round, left_without, name_at, names_at, nodes_of, opened_up, points_of};

use crate::kinds::{hashers_hash, kind_at};
use hash_ring::points::{self, Point};

/// Writes the points of a node, as many as there is room for, in order. The text is the node's name with 8 bytes more, which are written
/// over. It answers whether it did: where no hash has the number, or the text has less than 8 bytes, nothing is written.
#[unsafe(no_mangle)]
pub extern "C" fn hashers_ring_points(
    kind: u32,
    text: &mut [u8],
    node: usize,
    points: &mut [Point],
) -> bool
    ensures exactly { IsTrue result ↔ (IsSome (kind_at kind) × (8 ≤ length text.old)) }
    ensures just { OnTrue result (IsPermutation
        (points_of (hash_at kind) (take (length text.old - 8) text.old, length points.old) node) points.new) }
    ensures ordered { OnTrue result (AllPairs IsBefore points.new) }
    ensures name { take (length text.old - 8) text.new ≡ take (length text.old - 8) text.old }
    ensures refused { OnFalse result ((points.new ≡ points.old) × (text.new ≡ text.old)) }
{
    if kind_at(kind).is_none() || text.len() < 8 {
        return false;
    }
    let name = text.len() - 8;
    for number in 0..points.len() {
        text[name..].copy_from_slice(&(number as u64).to_le_bytes());
        points[number] = Point {
            place: hashers_hash(kind, text),
            node,
        };
    }
    hashers_ring_sort(points);
    true
}

/// Puts the points in order. Those of all nodes, one node's behind another's, become a ring so.
#[unsafe(no_mangle)]
pub extern "C" fn hashers_ring_sort(points: &mut [Point])
    ensures moved { IsPermutation points.old points.new }
    ensures ordered { AllPairs IsBefore points.new }
    ensures ring { (hash : List ℕ → ℕ) (nodes : List (List ℕ × ℕ))
        → T (is_sorted (slice_cmp nat_cmp) nodes)
        → All (λ node. 1 ≤ node.1) nodes → ArePoints hash nodes points.old → IsRing hash nodes points.new }
{
    points::sort(points);
}

/// Puts the points of a new node, in order, among the others, of whose nodes those from its index on stand one further then. The others are
/// the first points of the array, which has as much room more as there are new ones. It answers whether it did: where there is too
/// little room, the one or the other points are not in order, or an index would pass the last one of `usize`, nothing changes.
#[unsafe(no_mangle)]
pub extern "C" fn hashers_ring_add(points: &mut [Point], added: &[Point], node: usize) -> bool
    ensures exactly { IsTrue result ↔ MayMerge points.old added.now }
    ensures merged { OnTrue result (IsPermutation
        (map (opened_up node) (take (length points.old - length added.now) points.old) ++ added.now) points.new) }
    ensures ordered { OnTrue result (AllPairs IsBefore points.new) }
    ensures ring { OnTrue result ((hash : List ℕ → ℕ) (nodes : List (List ℕ × ℕ)) (name : List ℕ)
        → IsRing hash nodes (take (length points.old - length added.now) points.old) → IsGapAt nodes name node
        → 1 ≤ length added.now → IsPermutation (points_of hash (name, length added.now) node) added.now
        → IsRing hash (insert nodes node (name, length added.now)) points.new) }
    ensures refused { OnFalse result (points.new ≡ points.old) }
{
    points::add(points, added, node)
}

/// Takes the points of a node out, counts the nodes of the others anew, and answers how many these are. What stands behind them then
/// means nothing.
#[unsafe(no_mangle)]
pub extern "C" fn hashers_ring_remove(points: &mut [Point], node: usize) -> usize
    ensures kept { take result points.new ≡ left_without node points.old }
    ensures count { result ≡ length (left_without node points.old) }
    ensures ring { (hash : List ℕ → ℕ) (nodes : List (List ℕ × ℕ)) → IsRing hash nodes points.old
        → node < length nodes → IsRing hash (remove nodes node) (take result points.new) }
{
    points::remove(points, node)
}

/// Where the point stands whose node owns the place: the first one at or after it, round the ring. Where there are no points it is 0.
#[unsafe(no_mangle)]
pub extern "C" fn hashers_ring_owner(points: &[Point], place: u64) -> usize
    ensures within { 0 < length points.now → result < length points.now }
    ensures none { length points.now ≡ 0 → result ≡ 0 }
    ensures first { AllPairs IsBefore points.now → (i : ℕ) → IsStart points.now place i
        → result ≡ index_round (length points.now) i 0 }
    ensures owns { (hash : List ℕ → ℕ) (nodes : List (List ℕ × ℕ)) → 0 < length points.now
        → IsRing hash nodes points.now → IsOwner hash (nodes_of nodes) place (name_at nodes points.now result) }
{
    points::owner_at(points, place)
}

/// Writes the first different nodes whose points come round from the place, and answers how many these are: all nodes that have a point,
/// or as many as there is room for. The first owns the place, the second would if the first were gone, and so on.
#[unsafe(no_mangle)]
pub extern "C" fn hashers_ring_owners(points: &[Point], place: u64, nodes: &mut [usize]) -> usize
    ensures within { result ≤ length nodes.old }
    ensures own { (hash : List ℕ → ℕ) (named : List (List ℕ × ℕ)) → IsRing hash named points.now
        → AreOwners hash (nodes_of named) place (names_at named (take result nodes.new)) }
    ensures real { (hash : List ℕ → ℕ) (named : List (List ℕ × ℕ)) → IsRing hash named points.now
        → All (λ i. i < length named) (take result nodes.new) }
    ensures count { (hash : List ℕ → ℕ) (named : List (List ℕ × ℕ)) → IsRing hash named points.now
        → result ≡ min (length nodes.old) (length named) }
    ensures rest { drop result nodes.new ≡ drop result nodes.old }
{
    points::owners_at(points, place, nodes)
}
