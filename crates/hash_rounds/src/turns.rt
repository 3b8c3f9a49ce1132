//! A count of calls that contracts alone see.

ghost use Rattle.std.specs.Prelude.{◌≡◌, ℕ, ◌+◌};

use std::marker::Model;
use std::mem;
use std::snapshot::Snapshot;

// A number in unary, of which no value is kept at run time.
#[derive(Drop)]
enum Link {
    Start,
    After(Snapshot<Link>),
    Same(Snapshot<Snapshot<Link>>),
}

/// How many counted calls were made, as contracts see it: a number. It has no bytes at run time. `spooky_blocks`,
/// `sdbm4` and `lose8` raise it by one a call, and nothing outside this crate can.
///
/// A count shows the calls that were charged to this counter, and no more: a body may charge another counter, make a call
/// on no bytes, or leave a call's result unused.
#[derive(Drop)]
pub struct Turns {
    last: Snapshot<Link>,
}

impl Model for Turns {
    ghost use Rattle.std.specs.Prelude.{ℕ};
    ghost use Rattle.hash_rounds.specs.Link.{count_of};

    ghost Value = { ℕ };

    ghost view = { λ t. count_of t.last.value };
}

const _: () = prove!(size_of::<Turns>() == 0);

impl Turns {
    /// No calls so far.
    pub fn new() -> Turns
        ensures { result ≡ 0 }
    {
        Turns {
            last: Snapshot::of(&Link::Start),
        }
    }

    /// The same count once more.
    pub fn fork(&self) -> Turns
        ensures { result ≡ self.now }
    {
        let last = Snapshot::of(&self.last);
        Turns {
            last: Snapshot::of(&Link::Same(last)),
        }
    }

    /// One more counted call.
    pub(crate) fn tick(&mut self)
        ensures { self.new ≡ self.old + 1 }
    {
        let last = mem::replace(&mut self.last, Snapshot::of(&Link::Start));
        self.last = Snapshot::of(&Link::After(last));
    }
}
