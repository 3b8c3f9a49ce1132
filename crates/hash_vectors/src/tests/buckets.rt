//! The table's calls one after another, and where memory is refused.
ghost use Rattle.std.specs.Prelude.{◌≤◌, ◌<◌};

use crate::tests::all_hold;
use hash_buckets::{Buckets, Command, obey_all};
use hashers::jenkins::spooky_hash::SpookyHasher;
use hashers::laws::Piecewise;
use hashers::null::NullHasher;
use std::alloc::{AllocError, Global};
use std::process::Abort;

/// A table of no keys. Where memory is refused once it asks again.
fn new_table<H: Piecewise, const N: usize>(rt: &impl Abort, alloc: Global) -> Buckets<H, N>
    requires { 1 ≤ N }
{
    for _ in 0..2 {
        if let Ok(table) = Buckets::<H, N>::new(alloc) {
            return table;
        }
    }
    panic!(rt; "no memory for the table")
}

/// What is asked of a key.
#[derive(Clone, Copy)]
enum Asked {
    Insert(u64),
    Get,
    Remove,
}

const SCRIPT: [(&[u8], Asked); 6] = [
    (b"a", Asked::Insert(1)),
    (b"b", Asked::Insert(7)),
    (b"a", Asked::Insert(2)),
    (b"b", Asked::Get),
    (b"a", Asked::Remove),
    (b"a", Asked::Remove),
];

/// The commands of the script, if there is memory for them.
fn script(alloc: Global) -> Result<Vec<Command>, AllocError> {
    let mut commands = Vec::new(alloc);
    for (key, asked) in &SCRIPT {
        let key = Vec::from_slice(alloc, key)?;
        commands.push(match asked {
            Asked::Insert(value) => Command::Insert(key, *value),
            Asked::Get => Command::Get(key),
            Asked::Remove => Command::Remove(key),
        })?;
    }
    Ok(commands)
}

/// The replies are those of a map. Where memory is refused the table is as before the first command, or as before one that brings a new key.
#[test]
fn refused_in_commands(rt: HostRuntime) {
    let alloc = rt.alloc();
    let mut table = new_table::<NullHasher, 4>(&rt, alloc);
    let Ok(commands) = script(alloc) else { return };
    let replies = obey_all(alloc, &mut table, commands);
    let held = [table.get(b"a"), table.get(b"b")];
    match replies {
        Ok(replies) => {
            let wanted = [None, None, Some(1), Some(7), Some(2), None];
            all_hold(
                &rt,
                &[
                    replies.as_slice() == wanted.as_slice(),
                    held == [None, Some(7)],
                    table.len() == 1 && table.bucket(0).len() == 1,
                ],
            );
        }
        Err(AllocError) => all_hold(&rt, &[held == [None, None] || held == [Some(1), None]]),
    }
}

const NAMES: [&[u8]; 8] = [b"", b"a", b"b", b"ab", b"ba", b"c", b"abc", b"d"];

/// That the table has just these values of the names, and no other key.
fn has(rt: &impl Abort, table: &Buckets<SpookyHasher, 3>, values: &[Option<u64>; 8]) {
    let mut held = 0u8;
    for at in 0..8usize {
        if values[at].is_some() {
            held = held.saturating_add(1);
        }
        all_hold(rt, &[table.get(NAMES[at]) == values[at]]);
    }
    all_hold(rt, &[table.len() == u128::from(held)]);
}

/// Puts a value under a name; `false` where there is no memory for the test's own key. Where the table has none, key and value come back
/// and it is as before, and then the same insert succeeds.
fn is_put(
    rt: &impl Abort,
    alloc: Global,
    table: &mut Buckets<SpookyHasher, 3>,
    values: &[Option<u64>; 8],
    at: usize,
    value: u64,
) -> bool
    requires { at < 8 }
{
    let Ok(key) = Vec::from_slice(alloc, NAMES[at]) else {
        return false;
    };
    let reply = match table.insert(key, value) {
        Ok(old) => Ok(old),
        Err(refused) => {
            let (key, back) = refused.into_parts();
            has(rt, table, values);
            all_hold(rt, &[key.as_slice() == NAMES[at], back == value]);
            table.insert(key, back)
        }
    };
    all_hold(rt, &[matches!(reply, Ok(old) if old == values[at])]);
    true
}

/// Forty commands on eight keys, each request for memory of which may be refused.
#[test]
fn refused_in_forty_commands(rt: HostRuntime) {
    let alloc = rt.alloc();
    let mut table = new_table::<SpookyHasher, 3>(&rt, alloc);
    let mut values: [Option<u64>; 8] = [None; 8];
    for i in 0..40u64 {
        let at = (i * 5 % 8) as usize;
        if i % 7 == 6 {
            all_hold(&rt, &[table.remove(NAMES[at]) == values[at]]);
            values[at] = None;
        } else {
            if !is_put(&rt, alloc, &mut table, &values, at, i) {
                return;
            }
            values[at] = Some(i);
        }
        has(&rt, &table, &values);
    }
}
