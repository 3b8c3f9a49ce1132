//! A ring of a few nodes, by values that a plain program in another language gave, and where memory is refused.
ghost use Rattle.std.specs.Prelude.{◌≤◌, All, IfOk};

use crate::tests::all_hold;
use hash_ring::{Node, Refused, Ring};
use hashers::jenkins::spooky_hash::SpookyHasher;
use std::alloc::{AllocError, Global};
use std::process::Abort;

/// A node.
fn node(alloc: Global, name: &[u8], weight: u64) -> Result<Node, AllocError>
    requires { 1 ≤ weight }
    ensures { IfOk result (λ node. 1 ≤ node.weight) }
{
    let name = Vec::from_slice(alloc, name)?;
    Ok(Node { name, weight })
}

/// Oak with two points, elm with one and ash with three.
fn trees(alloc: Global) -> Result<Vec<Node>, AllocError>
    ensures { IfOk result (λ nodes. All (λ node. 1 ≤ node.weight) nodes.items) }
{
    let oak = node(alloc, b"oak", 2)?;
    let elm = node(alloc, b"elm", 1)?;
    let ash = node(alloc, b"ash", 3)?;
    Ok(vec![in alloc; oak, elm, ash]?)
}

/// How much of the ring ash, elm and oak own, if there is memory for it, and who owns its places.
fn has_places(rt: &impl Abort, alloc: Global, ring: &Ring<SpookyHasher>) {
    for (place, name) in [
        (0, b"elm"),
        (2716178055405275377, b"elm"),
        (2716178055405275378, b"ash"),
        (14890085688658093215, b"oak"),
        (u64::MAX, b"elm"),
    ] {
        all_hold(rt, &[ring.owner_at(place) == Some(name.as_slice())]);
    }
    if let Ok(shares) = ring.shares(alloc) {
        let wanted = [
            12173907633252817837,
            3817952004556595233,
            2454884435900138546,
        ];
        all_hold(rt, &[shares.as_slice() == wanted.as_slice()]);
    }
}

/// Where memory is refused all nodes come back, or no shares.
#[test]
fn refused_nodes_come_back(rt: HostRuntime) {
    let Ok(nodes) = trees(rt.alloc()) else {
        return;
    };
    match Ring::<SpookyHasher>::from_nodes(rt.alloc(), nodes) {
        Ok(ring) => has_places(&rt, rt.alloc(), &ring),
        Err(Refused::NoRoom(nodes)) => all_hold(&rt, &[nodes.len() == 3]),
        Err(Refused::IsThere(_)) => all_hold(&rt, &[false]),
    }
}

/// A name that is there is refused, and comes back; so it does where memory is refused, and the ring is as before.
#[test]
fn refused_names_come_back(rt: HostRuntime) {
    let alloc = rt.alloc();
    let mut ring = Ring::<SpookyHasher>::new(alloc);
    for (turn, text) in [b"oak", b"elm", b"oak", b"ash"].iter().enumerate() {
        let before = ring.len();
        let Ok(name) = Vec::from_slice(alloc, text.as_slice()) else {
            continue;
        };
        let (more, is_back) = match ring.add(name, 2) {
            Ok(()) => (1, true),
            Err(Refused::IsThere(name)) => (0, turn == 2 && name.as_slice() == text.as_slice()),
            Err(Refused::NoRoom(name)) => (0, name.as_slice() == text.as_slice()),
        };
        let claims = [ring.len().checked_sub(before) == Some(more), is_back];
        all_hold(&rt, &claims);
    }
}
