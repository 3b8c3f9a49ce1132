//! Where the next lines end. Some lines are looked at before the first of them is taken, so that the waits for memory overlap.
ghost use Rattle.std.specs.Prelude.{◌≡◌, ◌<◌, ◌≤◌, ◌+◌, List, [], ◌∷◌, IfSome, IfNone, length, take, drop};
ghost use Rattle.dedup_core.specs.Between.{AreNext, IsFound};
ghost use Rattle.text_set.specs.Lines.{IsBare};

use crate::task::LineTask;
use std::marker::Model;
use text_set::Guess;
use text_set::lines::line_end;

/// How many lines are looked at ahead, at most.
const MOST: usize = 16;

/// A line that is found.
#[derive(Clone, Copy)]
pub struct Found {
    /// How many bytes its text has, which its end follows.
    pub len: usize,
    /// A guess where its text is known.
    pub guess: Guess,
}

/// No line is found.
const NOT_FOUND: Found = Found {
    len: 0,
    guess: Guess { tag: 0, place: 0 },
};

/// The next lines, as far as they are looked at.
#[derive(Drop)]
pub struct Ahead {
    found: [Found; MOST],
    next: usize, // how many of these are taken
    count: usize, // how many there are
}

impl Model for Ahead {
    ghost use Rattle.std.specs.Prelude.{◌≤◌, List, length, take, drop};
    ghost use Rattle.dedup_core.specs.declared.ahead.Found.{Found};

    ghost Value = { List Found };

    ghost view = { λ ahead. drop ahead.next (take ahead.count ahead.found) };

    ghost invariant = { λ ahead. (ahead.next ≤ ahead.count) × (ahead.count ≤ length ahead.found) };
}

/// Finds the first line.
#[inline(always)]
fn first<T: LineTask>(task: &T, bytes: &[u8], eol: u8) -> Option<Found>
    ensures some { IfSome result (IsFound eol (T.tag_of task.now) bytes.now) }
    ensures none { IfNone result (IsBare eol bytes.now) }
{
    let len = line_end(bytes, eol)?;
    let guess = task.guess(&bytes[..len]);
    Some(Found { len, guess })
}

/// Finds the first lines, as many as there is room for, and returns how many they are.
fn look<T: LineTask>(task: &T, bytes: &[u8], eol: u8, found: &mut [Found]) -> usize
    requires { 0 < length found.old }
    ensures within { result ≤ length found.new }
    ensures next { AreNext eol (T.tag_of task.now) bytes.now (take result found.new) }
    ensures none { result ≡ 0 → IsBare eol bytes.now }
{
    let mut rest = bytes;
    for i in 0..found.len() {
        match first(task, rest, eol) {
            Some(line) => {
                let (_line, later) = rest.split_at(line.len + 1);
                found[i] = line;
                rest = later;
            }
            None => return i,
        }
    }
    found.len()
}

impl Ahead {
    /// No line is looked at.
    pub fn new() -> Ahead
        ensures { result ≡ [] }
    {
        Ahead {
            found: [NOT_FOUND; MOST],
            next: 0,
            count: 0,
        }
    }

    /// Takes the first of the lines.
    fn pop(&mut self) -> Option<Found>
        ensures some { IfSome result (λ found. self.old ≡ found ∷ self.new) }
        ensures none { IfNone result (self.old ≡ []) }
        ensures kept { IfNone result (self.new ≡ self.old) }
    {
        if self.next == self.count {
            return None;
        }
        let found = self.found[self.next];
        self.next += 1;
        Some(found)
    }

    /// The first line of the rest, in which the lines that are looked at are the first.
    #[inline(always)]
    pub fn next<T: LineTask>(&mut self, task: &T, rest: &[u8], eol: u8) -> Option<Found>
        requires { AreNext eol (T.tag_of task.now) rest.now self.old }
        ensures found { IfSome result (IsFound eol (T.tag_of task.now) rest.now) }
        ensures next { IfSome result (λ found. AreNext eol (T.tag_of task.now) (drop (found.len + 1) rest.now)
            self.new) }
        ensures none { IfNone result (IsBare eol rest.now) }
    {
        if let Some(found) = self.pop() {
            return Some(found);
        }
        if !task.waits_for_memory() {
            let found = first(task, rest, eol)?;
            return Some(found);
        }
        self.count = look(task, rest, eol, &mut self.found);
        self.next = 0;
        self.pop()
    }
}
