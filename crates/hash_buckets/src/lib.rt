//! A table of buckets over any hasher.
#![tactic(auto)]

ghost use Rattle.std.specs.Prelude.{◌≡◌, ◌≢◌, ◌↔◌, ◌<◌, ◌≤◌, ℕ, List, IsTrue, IfOk, IfErr, OnOk, OnErr, [], None, Some, fold, length, vec_capacity, vec_len};
ghost use Rattle.std.specs.Coded.{coded_list, coded_ℕ};
ghost use Rattle.std.specs.FinMap as map;
ghost use Rattle.std.specs.List.{position, sum_by};
ghost use Rattle.std.specs.Str.{bytes_eq};
ghost use Rattle.text_set.specs.TextMaps.{InsertsCommute, OthersStay};
ghost use Rattle.hash_buckets.specs.Table.{Table, table_of, pairs, held, pairs_of_each, number_by, AreBuckets, IsBucket, IsChange, HasEachKeyOnce, value_at};
ghost use Rattle.hash_buckets.specs.Commands.{reply_to, replies_to, content_after, NeedsMemory, StopsAt};

use hashers::laws::{Piecewise, bucket_of};
use std::alloc::{AllocError, AllocFailed, Global};
use std::error::Error as StdError;
use std::fmt;
use std::fmt::{Debug, Display, Formatter};
use std::marker::{Model, PhantomData};

/// A finite map from byte texts to numbers: `N` lists of pairs in one `Vec`. A key stands in the list whose number is its hash
/// mod `N`. The hash is that of a default `H` that takes the key in one piece.
///
/// A call walks one list. So the time depends on how evenly `H` spreads the keys, and the answers do not.
#[derive(Drop)]
pub struct Buckets<H: Piecewise, const N: usize> {
    buckets: Vec<Vec<(Vec<u8>, u64)>>,
    hasher: PhantomData<H>,
}

impl<H: Piecewise, const N: usize> Model for Buckets<H, N> {
    ghost Value = { Table };

    ghost coded = { map.code (coded_list coded_ℕ) coded_ℕ };

    ghost view = { λ b. table_of (pairs_of_each b.buckets.items) };

    ghost invariant = { λ b. AreBuckets (number_by H.hash_of N) N b.buckets.items };
}

/// There is no memory for a table's lists.
pub struct NoTable;

impl Drop for NoTable {
    fn drop(self) {
        let Self = self;
    }
}

impl Debug for NoTable {
    fn fmt<W: fmt::Write>(&self, f: &mut Formatter<W>) -> fmt::Result {
        write!(f, "NoTable")
    }
}

impl Display for NoTable {
    fn fmt<W: fmt::Write>(&self, f: &mut Formatter<W>) -> fmt::Result {
        write!(f, "there is no memory for the table's lists")
    }
}

impl StdError for NoTable {}

/// There is no memory for a new key: the key and its value come back.
pub struct NoRoom {
    /// The key.
    pub key: Vec<u8>,
    /// Its value.
    pub value: u64,
}

impl NoRoom {
    /// The key and its value.
    pub fn into_parts(self) -> (Vec<u8>, u64)
        ensures { result ≡ (self.key, self.value) }
    {
        let Self { key, value } = self;
        (key, value)
    }
}

impl Drop for NoRoom {
    fn drop(self) {
        let Self { key: _, value: _ } = self;
    }
}

impl Debug for NoRoom {
    fn fmt<W: fmt::Write>(&self, f: &mut Formatter<W>) -> fmt::Result {
        write!(f, "NoRoom {{ key: {:?}, value: {} }}", self.key, self.value)
    }
}

impl Display for NoRoom {
    fn fmt<W: fmt::Write>(&self, f: &mut Formatter<W>) -> fmt::Result {
        write!(f, "there is no memory for a new key")
    }
}

impl StdError for NoRoom {}

/// Where the key stands.
fn place_of(list: &[(Vec<u8>, u64)], key: &[u8]) -> Option<usize>
    ensures { result ≡ position (λ pair. bytes_eq pair.0.items key.now) list.now }
{
    list.iter().position(|pair| pair.0.as_slice() == key)
}

/// The value of the key.
fn value_in(list: &[(Vec<u8>, u64)], key: &[u8]) -> Option<u64>
    requires { HasEachKeyOnce (pairs list.now) }
    ensures { result ≡ value_at key.now (pairs list.now) }
{
    match place_of(list, key) {
        Some(at) => Some(list[at].1),
        None => None,
    }
}

/// Gives the key the value, and answers its old one. It refuses a pair only where the list is full.
fn put_in(list: &mut Vec<(Vec<u8>, u64)>, key: Vec<u8>, value: u64) -> Result<Option<u64>, NoRoom>
    requires { HasEachKeyOnce (held list.old) }
    ensures ok { IfOk result (λ old. old ≡ value_at key.items (held list.old)) }
    ensures put { OnOk result (IsChange (held list.old) (held list.new) key.items (Some value)) }
    ensures err { IfErr result (λ refused. refused ≡ record { key = key; value = value }) }
    ensures unchanged { OnErr result (list.new.items ≡ list.old.items) }
    ensures new_key { OnErr result (value_at key.items (held list.old) ≡ None) }
    ensures full { OnErr result (vec_capacity list.old ≤ vec_len list.old) }
{
    match place_of(list, &key) {
        Some(at) => {
            let old = list[at].1;
            list[at].1 = value;
            Ok(Some(old))
        }
        None => match list.push((key, value)) {
            Ok(()) => Ok(None),
            Err(AllocFailed { value }) => {
                let (key, value) = value;
                Err(NoRoom { key, value })
            }
        },
    }
}

/// Takes the key out, and answers its value.
fn take_out(list: &mut Vec<(Vec<u8>, u64)>, key: &[u8]) -> Option<u64>
    requires { HasEachKeyOnce (held list.old) }
    ensures value { result ≡ value_at key.now (held list.old) }
    ensures taken { IsChange (held list.old) (held list.new) key.now None }
{
    match place_of(list, key) {
        Some(at) => {
            let (_, value) = list.remove(at);
            Some(value)
        }
        None => None,
    }
}

/// How many pairs the buckets have together.
fn pairs_in(buckets: &[Vec<(Vec<u8>, u64)>]) -> u128
    ensures { result ≡ sum_by (λ bucket. length bucket.items) buckets.now }
{
    buckets.iter().map(|bucket| bucket.len() as u128).sum()
}

impl<H: Piecewise, const N: usize> Buckets<H, N> {
    /// The empty table. It refuses where there is no memory for `N` lists.
    pub fn new(alloc: Global) -> Result<Self, NoTable>
        requires { 1 ≤ N }
        ensures { IfOk result (λ table. table ≡ map.empty) }
    {
        let mut buckets = Vec::new(alloc);
        let empty = || -> Vec<(Vec<u8>, u64)>
            ensures { result.items ≡ [] }
        { Vec::new(alloc) };
        match buckets.resize_with(N, empty) {
            Ok(()) => Ok(Buckets {
                buckets,
                hasher: PhantomData,
            }),
            Err(AllocError) => Err(NoTable),
        }
    }

    /// The bucket of a key.
    fn number(&self, key: &[u8]) -> usize
        ensures value { result ≡ number_by H.hash_of N key.now }
        ensures below { result < N }
    {
        let _ = &self.buckets; // there are N of them
        bucket_of::<H>(key, N as u64) as usize
    }

    /// The value of the key, if it is there.
    pub fn get(&self, key: &[u8]) -> Option<u64>
        ensures { result ≡ map.get self.now key.now }
    {
        value_in(&self.buckets[self.number(key)], key)
    }

    /// Gives the key the value, and answers its old one. Where there is no memory for a new key, the table stays as it was, and
    /// key and value come back.
    pub fn insert(&mut self, key: Vec<u8>, value: u64) -> Result<Option<u64>, NoRoom>
        ensures ok { IfOk result (λ old. old ≡ map.get self.old key.items) }
        ensures inserted { OnOk result (self.new ≡ map.insert self.old key.items value) }
        ensures err { IfErr result (λ refused. refused ≡ record { key = key; value = value }) }
        ensures unchanged { OnErr result (self.new ≡ self.old) }
        ensures new_key { OnErr result (map.get self.old key.items ≡ None) }
    {
        let number = self.number(&key);
        put_in(&mut self.buckets[number], key, value)
    }

    /// Takes the key out, and answers its value.
    pub fn remove(&mut self, key: &[u8]) -> Option<u64>
        ensures value { result ≡ map.get self.old key.now }
        ensures removed { self.new ≡ map.remove self.old key.now }
    {
        let number = self.number(key);
        take_out(&mut self.buckets[number], key)
    }

    /// How many keys there are.
    pub fn len(&self) -> u128
        ensures { result ≡ map.len self.now }
    {
        pairs_in(&self.buckets)
    }

    /// Whether there is no key.
    pub fn is_empty(&self) -> bool
        ensures { IsTrue result ↔ (map.len self.now ≡ 0) }
    {
        self.len() == 0
    }

    /// The pairs of bucket `i`: those of the keys whose hash mod `N` is `i`, each once, in no order that is promised.
    pub fn bucket(&self, i: usize) -> &[(Vec<u8>, u64)]
        requires { i < N }
        ensures { IsBucket (number_by H.hash_of N) i self.now (pairs result.now) }
    {
        &self.buckets[i]
    }
}

/// What `get` answers after `insert`, with no code: the value at its key, and at every other key what it was.
#[tactic(auto, using(text_set::proofs::TextMapLemmas::get_insert_same, text_set::proofs::TextMapLemmas::get_insert_other))]
pub fn get_after_insert()
    ensures same { (t : Table) (k : List ℕ) (v : ℕ) → map.get (map.insert t k v) k ≡ Some v }
    ensures others { (t : Table) (k : List ℕ) (v : ℕ) → OthersStay t (map.insert t k v) k }
{}

/// What `get` answers after `remove`, with no code: nothing at its key, and at every other key what it was.
#[tactic(auto, using(text_set::proofs::TextMapLemmas::get_remove_same, text_set::proofs::TextMapLemmas::get_remove_other))]
pub fn get_after_remove()
    ensures same { (t : Table) (k : List ℕ) → map.get (map.remove t k) k ≡ None }
    ensures others { (t : Table) (k : List ℕ) → OthersStay t (map.remove t k) k }
{}

/// Inserts of different keys commute, with no code.
#[tactic(auto, using(text_set::proofs::TextMapLemmas::inserts_commute))]
pub fn inserts_commute()
    ensures { (t : Table) (k q : List ℕ) (v w : ℕ) → k ≢ q → InsertsCommute t k v q w }
{}

/// To insert a new key and to remove it again leaves the table as it was, with no code.
#[tactic(auto, using(text_set::proofs::TextMapLemmas::removal_undoes_insert))]
pub fn removal_undoes_insert()
    ensures { (t : Table) (k : List ℕ) (v : ℕ) → map.get t k ≡ None
        → map.remove (map.insert t k v) k ≡ t }
{}

/// To insert another value and then the old one again leaves the table as it was, with no code.
#[tactic(auto, using(text_set::proofs::TextMapLemmas::old_value_undoes_insert))]
pub fn old_value_undoes_insert()
    ensures { (t : Table) (k : List ℕ) (v w : ℕ) → map.get t k ≡ Some w
        → map.insert (map.insert t k v) k w ≡ t }
{}

/// A step of a run on a table.
#[derive(Drop)]
pub enum Command {
    /// Gives the key the value.
    Insert(Vec<u8>, u64),
    /// Takes the key out.
    Remove(Vec<u8>),
    /// Asks for the key's value.
    Get(Vec<u8>),
}

/// Does a command, and answers the value that its key had. Where there is no memory for a new key, the table stays as it was, and
/// key and value come back.
pub fn obey<H: Piecewise, const N: usize>(
    table: &mut Buckets<H, N>,
    command: Command,
) -> Result<Option<u64>, NoRoom>
    ensures reply { IfOk result (λ reply. reply ≡ reply_to table.old command) }
    ensures content { OnOk result (table.new ≡ content_after table.old command) }
    ensures unchanged { OnErr result (table.new ≡ table.old) }
    ensures err { IfErr result (λ refused. command ≡ Command.Insert refused.key refused.value) }
    ensures wanted { OnErr result (NeedsMemory table.old command) }
{
    match command {
        Command::Insert(key, value) => table.insert(key, value),
        Command::Remove(key) => Ok(table.remove(&key)),
        Command::Get(key) => Ok(table.get(&key)),
    }
}

/// Does the commands in order, and answers their replies. Where there is no memory for the replies, no command is done. Where
/// there is none for a new key, the commands before it are done.
pub fn obey_all<H: Piecewise, const N: usize>(
    alloc: Global,
    table: &mut Buckets<H, N>,
    commands: Vec<Command>,
) -> Result<Vec<Option<u64>>, AllocError>
    ensures replies { IfOk result (λ replies. replies.items ≡ replies_to table.old commands.items) }
    ensures content { OnOk result (table.new ≡ fold content_after table.old commands.items) }
    ensures begun { OnErr result ((n : ℕ) × StopsAt n table.old commands.items table.new) }
{
    let mut replies = Vec::with_capacity(alloc, commands.len())?;
    for command in commands {
        match obey(table, command) {
            Ok(reply) => replies.push(reply)?,
            Err(NoRoom { .. }) => return Err(AllocError),
        }
    }
    Ok(replies)
}
