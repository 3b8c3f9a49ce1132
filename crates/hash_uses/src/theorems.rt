//! What users prove of programs of their own, from contracts of public calls alone.
ghost use Rattle.std.specs.Prelude.{◌≡◌, ◌≢◌, ◌↔◌, ◌<◌, ◌%◌, ℕ, List, Option, Contains, IfOk, IsTrue, OnOk, codes, true};
ghost use Rattle.std.specs.List.{AllPairs};
ghost use Rattle.std.specs.List.Sorted.{IsPermutation};
ghost use Rattle.cli.specs.Call.{given, operands, Saying};
ghost use Rattle.cli.specs.Files.{files_or};
ghost use Rattle.cli.specs.Frame.{request_of};
ghost use Rattle.cli.specs.Outcome.{status_of};
ghost use Rattle.cli.specs.declared.frame.Request.TheVariants.{Work};
ghost use Rattle.cli.specs.declared.frame.Text.{Text};
ghost use Rattle.cli.specs.declared.outcome.Outcome.{Outcome};
ghost use Rattle.hash_bloom.specs.Filter.{IsEmpty};
ghost use Rattle.hash_cuts.specs.Cuts.{HasSizes};
ghost use Rattle.hash_keyed.specs.Poly61.{prime61};
ghost use Rattle.hash_keyed.specs.Poly61State.{poly61};
ghost use Rattle.hash_lines.specs.declared.sums.Sum.{Sum};
ghost use Rattle.hashsum_core.specs.Ended.{HasEndedWell};
ghost use Rattle.hashsum_core.specs.Passed.{HasHash, ListTells};
ghost use Rattle.hashsum_core.specs.Program.{checking_of, taken, EndsCall};
ghost use Rattle.hashsum_core.specs.declared.outcome.Misuse.{Misuse};
ghost use Rattle.streams.specs.declared.failure.Nothing.{Nothing};
ghost use Rattle.text_set.specs.Texts.{StandsAt, with_text};

use cli::folder::Folder;
use hash_bloom::{Bloom, no_bit_or_all};
use hash_cuts::Cuts;
use hash_keyed::poly61::Poly61Hasher;
use hashers::laws::{Piecewise, no_collisions, one_in_each_bucket};
use hashsum_core::laws::{a_call_that_ends_well, what_a_call_is_told_is_so};
use spread_core::counts::{collisions, spread_of};
use std::alloc::{AllocError, Global};
use std::hash::{BuildHasher, Hasher};
use std::io::Read;
use text_set::laws::texts_keep_their_places;
use text_set::{Full, Texts};

/// Whether no two hashes are equal. It puts them in another order.
pub fn are_different(hashes: &mut [u64]) -> bool
    ensures different { IsTrue result ↔ AllPairs (λ a b. a ≢ b) hashes.old }
    ensures kept { IsPermutation hashes.old hashes.new }
{
    no_collisions();
    collisions(hashes) == 0
}

/// Whether no two hashes fall into one of so many buckets.
pub fn fall_apart(alloc: Global, hashes: &[u64], buckets: u64) -> Result<bool, AllocError>
    requires { 0 < buckets }
    ensures { IfOk result (λ apart. IsTrue apart ↔ AllPairs (λ a b. a % buckets ≢ b % buckets) hashes.now) }
{
    one_in_each_bucket();
    let spread = spread_of(alloc, hashes, buckets)?;
    Ok(spread.fullest <= 1)
}

/// The number of a text among those that came, which another text behind it does not change.
pub fn number_among<S: BuildHasher + Drop>(
    texts: &mut Texts<S>,
    text: &[u8],
    behind: &[u8],
) -> Result<usize, Full>
    ensures place { IfOk result (StandsAt texts.new.texts text.now) }
    ensures taken { OnOk result (texts.new.texts ≡ with_text (with_text texts.old.texts text.now) behind.now) }
{
    texts_keep_their_places();
    let seen = texts.see(text)?;
    texts.see(behind)?;
    Ok(seen.place)
}

/// Whether a filter has no bit set.
pub fn is_fresh<F: Piecewise, G: Piecewise>(filter: &Bloom<F, G>) -> bool
    ensures { IsTrue result ↔ IsEmpty filter.now }
{
    filter.is_filter();
    no_bit_or_all();
    filter.ones() == 0
}

/// The most bytes of a chunk, beside its bounds.
pub fn room_for_a_chunk(cuts: &Cuts) -> usize
    ensures value { result ≡ cuts.now.most }
    ensures sizes { HasSizes cuts.now }
{
    cuts.has_sizes();
    cuts.most()
}

/// The hash of a text at a key, by a hasher.
pub fn keyed_hash(key: u64, text: &[u8]) -> u64
    ensures { result ≡ poly61 (key % prime61) text.now }
{
    let mut hasher = Poly61Hasher::new(key);
    hasher.write(text);
    hasher.finish()
}

/// Where `hashsum -c` ended with the status 0, each file that a line of ours in one of its lists tells of has the hash that it tells, or is
/// not there, where the call lets such files off.
pub fn checked_files_are_as_told<R: Read, F: Folder<R>>()
    ensures { (folder : F) (call : List Saying) (texts : Text → List ℕ) (written written' : Option (List ℕ))
        (outcome : Outcome Misuse Nothing) → request_of call ≡ Work → given (codes "check") call ≡ true
        → EndsCall (F.opens folder) call texts written written' outcome → status_of outcome ≡ 0
        → (ended : HasEndedWell (F.opens folder) call)
        × ((list : List ℕ) (kind : Sum) (name : List ℕ) (number : ℕ) → Contains (files_or (operands call)) list
        → let checking = checking_of call ended.keys ended.kind in
        ListTells (taken checking) checking (F.opens folder) list kind name number
        → HasHash checking (F.opens folder) kind name number) }
{
    a_call_that_ends_well::<R, F>();
    what_a_call_is_told_is_so::<R, F>();
}
