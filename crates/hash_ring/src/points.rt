//! The points of a ring in an array of the caller's: without a heap, names or a hasher. Node `i` is the one with the name number `i` in the
//! order of bytes. A ring's points stand in the order of their places, and at one place in that of their nodes.
ghost use Rattle.std.specs.Prelude.{T, ◌≡◌, ◌↔◌, ◌+◌, ◌-◌, ◌<◌, ◌≤◌, ◌^◌, ◌++◌, if◌then◌else◌, ℕ, List, IsTrue, drop, length, map, min, take};
ghost use Rattle.std.specs.Cmp.Lexicographic.{slice_cmp};
ghost use Rattle.std.specs.FinMap as map;
ghost use Rattle.std.specs.FinMap.Entries.{is_sorted};
ghost use Rattle.std.specs.Ordering.{nat_cmp};
ghost use Rattle.std.specs.Bool.{OnFalse, OnTrue};
ghost use Rattle.std.specs.List.{All, AllPairs, Contains, insert, remove};
ghost use Rattle.std.specs.List.Sorted.{IsPermutation};
ghost use Rattle.hash_ring.specs.Ring.{AreOwners, IsOwner, MovesOnlyFrom, MovesOnlyTo};
ghost use Rattle.hash_ring.specs.Points.{ArePoints, IsBefore, IsGapAt, IsRing, IsStart, MayMerge, closed_up, index_round, left_without, name_at, names_at, node_at, nodes_of, opened_up, points_of};

/// A point on the ring, and the index of its node among the nodes.
#[repr(C)]
#[derive(Clone, Copy, PartialEq, Eq, PartialOrd, Ord)]
pub struct Point {
    pub place: u64,
    pub node: usize,
}

/// The number where `is`, and 0 elsewhere. It is a shift, as the compiler makes a jump of an `if`, whose way no processor guesses.
fn if_so(is: bool, n: usize) -> usize
    requires { n < 2 ^ 63 }
    ensures { result ≡ (if is then n else 0) }
{
    (n << u32::from(is)) - n
}

/// How many points a search without jumps is faster over: so many lie in a processor's caches.
const FEW: usize = 1 << 17;

/// Puts the points in order. Those of all nodes, one node's after another's, become a ring so.
pub fn sort(points: &mut [Point])
    ensures moved { IsPermutation points.old points.new }
    ensures ordered { AllPairs IsBefore points.new }
    ensures ring { (hash : List ℕ → ℕ) (nodes : List (List ℕ × ℕ))
        → T (is_sorted (slice_cmp nat_cmp) nodes)
        → All (λ node. 1 ≤ node.1) nodes → ArePoints hash nodes points.old → IsRing hash nodes points.new }
{
    points.sort_unstable();
}

/// Where the first point at or after the place stands, or the points' end. Over many points each step waits for memory, and
/// jumps that are guessed fetch points early.
pub(crate) fn first_from(points: &[Point], place: u64) -> usize
    ensures within { result ≤ length points.now }
    ensures start { AllPairs IsBefore points.now → IsStart points.now place result }
{
    if points.len() <= FEW {
        return first_without_jumps(points, place);
    }
    points.partition_point(|point| point.place < place)
}

/// The same, by a binary search that makes no jump on what a point is.
fn first_without_jumps(points: &[Point], place: u64) -> usize
    ensures within { result ≤ length points.now }
    ensures start { AllPairs IsBefore points.now → IsStart points.now place result }
{
    let mut first = 0;
    let mut size = points.len();
    while size > 1 {
        let half = size / 2;
        first += if_so(points[first + half].place < place, half);
        size -= half;
    }
    if size == 1 && points[first].place < place {
        first + 1
    } else {
        first
    }
}

/// The index some steps after the first one, round a list of `n`.
pub(crate) fn index_round(n: usize, first: usize, steps: usize) -> usize
    requires within { first ≤ n }
    requires below { steps < n }
    ensures value { result ≡ index_round n first steps }
    ensures in_range { result < n }
{
    if steps < n - first {
        first + steps
    } else {
        steps - (n - first)
    }
}

/// Where the point stands whose node owns the place: the first one at or after it, round the ring. Where there are no points it is 0. It is a
/// binary search.
pub fn owner_at(points: &[Point], place: u64) -> usize
    ensures within { 0 < length points.now → result < length points.now }
    ensures none { length points.now ≡ 0 → result ≡ 0 }
    ensures first { AllPairs IsBefore points.now → (i : ℕ) → IsStart points.now place i
        → result ≡ index_round (length points.now) i 0 }
    ensures owns { (hash : List ℕ → ℕ) (nodes : List (List ℕ × ℕ)) → 0 < length points.now
        → IsRing hash nodes points.now → IsOwner hash (nodes_of nodes) place (name_at nodes points.now result) }
{
    if points.is_empty() {
        return 0;
    }
    index_round(points.len(), first_from(points, place), 0)
}

/// Writes the first different nodes whose points come round from the place, and answers how many these are: all nodes that have a point,
/// or as many as there is room for. The first owns the place, the second would if the first were gone, and so on.
pub fn owners_at(points: &[Point], place: u64, nodes: &mut [usize]) -> usize
    ensures within { result ≤ length nodes.old }
    ensures own { (hash : List ℕ → ℕ) (named : List (List ℕ × ℕ)) → IsRing hash named points.now
        → AreOwners hash (nodes_of named) place (names_at named (take result nodes.new)) }
    ensures real { (hash : List ℕ → ℕ) (named : List (List ℕ × ℕ)) → IsRing hash named points.now
        → All (λ i. i < length named) (take result nodes.new) }
    ensures count { (hash : List ℕ → ℕ) (named : List (List ℕ × ℕ)) → IsRing hash named points.now
        → result ≡ min (length nodes.old) (length named) }
    ensures rest { drop result nodes.new ≡ drop result nodes.old }
{
    let first = first_from(points, place);
    let mut count = 0;
    for steps in 0..points.len() {
        if count == nodes.len() {
            return count;
        }
        let node = points[index_round(points.len(), first, steps)].node;
        if !nodes[..count].contains(&node) {
            nodes[count] = node;
            count += 1;
        }
    }
    count
}

/// The point, where a node comes at an index.
#[inline(always)]
fn opened_up(come: usize, point: Point) -> Point
    requires { point.node + 1 < 2 ^ 64 }
    ensures { result ≡ opened_up come point }
{
    Point {
        node: point.node + usize::from(point.node >= come),
        ..point
    }
}

/// Merges the points of a new node with the others, the first `others` ones, of whose nodes those from its index on stand one further
/// then. The array fills from the end, so that no point is written over before it is read.
pub(crate) fn merge_backward(points: &mut [Point], others: usize, added: &[Point], index: usize)
    requires room { length points.old ≡ others + length added.now }
    requires in_range { All (λ p. p.node + 1 < 2 ^ 64) (take others points.old) }
    requires others_ordered { AllPairs IsBefore (take others points.old) }
    requires added_ordered { AllPairs IsBefore added.now }
    ensures merged { IsPermutation
        (map (opened_up index) (take others points.old) ++ added.now) points.new }
    ensures ordered { AllPairs IsBefore points.new }
{
    let mut left = others;
    let mut right = added.len();
    while left > 0 {
        let point = opened_up(index, points[left - 1]);
        if right > 0 && point < added[right - 1] {
            right -= 1;
            points[left + right] = added[right];
        } else {
            left -= 1;
            points[left + right] = point;
        }
    }
    points[..right].copy_from_slice(&added[..right]);
}

/// Whether the points stand in order.
fn are_in_order(points: &[Point]) -> bool
    ensures { IsTrue result ↔ AllPairs IsBefore points.now }
{
    points.is_sorted()
}

/// Puts the points of a new node, in order, among the others, of whose nodes those from its index on stand one further then. The others are
/// the first points of the array, which has as much room more as there are new ones. It answers whether it did: where there is too
/// little room, the one or the other points are not in order, or an index would pass the last one of `usize`, nothing changes.
pub fn add(points: &mut [Point], added: &[Point], index: usize) -> bool
    ensures exactly { IsTrue result ↔ MayMerge points.old added.now }
    ensures merged { OnTrue result (IsPermutation
        (map (opened_up index) (take (length points.old - length added.now) points.old) ++ added.now) points.new) }
    ensures ordered { OnTrue result (AllPairs IsBefore points.new) }
    ensures ring { OnTrue result ((hash : List ℕ → ℕ) (nodes : List (List ℕ × ℕ)) (name : List ℕ)
        → IsRing hash nodes (take (length points.old - length added.now) points.old) → IsGapAt nodes name index
        → 1 ≤ length added.now → IsPermutation (points_of hash (name, length added.now) index) added.now
        → IsRing hash (insert nodes index (name, length added.now)) points.new) }
    ensures refused { OnFalse result (points.new ≡ points.old) }
{
    if points.len() < added.len() {
        return false;
    }
    let others = points.len() - added.len();
    let may = are_in_order(&points[..others])
        && are_in_order(added)
        && points[..others].iter().all(|point| point.node < usize::MAX);
    if may {
        merge_backward(points, others, added, index);
    }
    may
}

/// The point, where the node at an index has gone.
#[inline(always)]
fn closed_up(gone: usize, point: Point) -> Point
    ensures { result ≡ closed_up gone point }
{
    Point {
        node: point.node - usize::from(point.node > gone),
        ..point
    }
}

/// Takes the points of a node out, counts the nodes of the others again, and returns how many these are. What stands after them then
/// means nothing.
pub fn remove(points: &mut [Point], gone: usize) -> usize
    ensures kept { take result points.new ≡ left_without gone points.old }
    ensures count { result ≡ length (left_without gone points.old) }
    ensures ring { (hash : List ℕ → ℕ) (nodes : List (List ℕ × ℕ)) → IsRing hash nodes points.old
        → gone < length nodes → IsRing hash (remove nodes gone) (take result points.new) }
{
    let mut kept = 0;
    for index in 0..points.len() {
        let point = points[index];
        points[kept] = closed_up(gone, point);
        kept += usize::from(point.node != gone);
    }
    kept
}

/// What `add` and `remove` move, a law with no code: the nodes as maps, of which the owners' laws speak, have one more or one less, and
/// keys move to the new node alone, or from the one that has gone.
pub fn only_one_nodes_keys_move()
    ensures came { (hash : List ℕ → ℕ) (nodes : List (List ℕ × ℕ)) (points : List Point) (name : List ℕ)
        (weight index : ℕ)
        → IsRing hash nodes points → IsGapAt nodes name index
        → (nodes_of (insert nodes index (name, weight)) ≡ map.insert (nodes_of nodes) name weight)
        × MovesOnlyTo hash (nodes_of nodes) (nodes_of (insert nodes index (name, weight))) name }
    ensures went { (hash : List ℕ → ℕ) (nodes : List (List ℕ × ℕ)) (points : List Point) (gone : ℕ)
        → IsRing hash nodes points → gone < length nodes
        → (nodes_of (remove nodes gone) ≡ map.remove (nodes_of nodes) (node_at nodes gone).0)
        × MovesOnlyFrom hash (nodes_of nodes) (nodes_of (remove nodes gone)) (node_at nodes gone).0 }
{}
