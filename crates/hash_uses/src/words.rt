//! A list of words that is kept as a filter.
ghost use Rattle.std.specs.Prelude.{◌≡◌, IfOk, IfErr, IfSome, All};
ghost use Rattle.hash_bloom.specs.File.{IsRefusal};
ghost use Rattle.hash_bloom.specs.Filter.{Passes};

use hash_bloom::Bloom;
use hash_bloom::file::{Unread, a_file_tells_its_filter};
use hashers::laws::Piecewise;
use std::alloc::Global;

/// A filter of the words, stored and read back: each word passes. `None` where memory is short.
pub fn words_read_back<F: Piecewise, G: Piecewise>(
    alloc: Global,
    words: &[&[u8]],
) -> Option<Bloom<F, G>>
    ensures { IfSome result (λ filter. All (λ word. Passes F.hash_of G.hash_of filter word.now) words.now) }
{
    let keys = words.len() as u64;
    keys.checked_mul(10)?;
    let mut filter = Bloom::<F, G>::for_keys(alloc, keys, 10).ok()?;
    for word in words {
        filter.insert(word);
    }
    let (bits, probes) = (filter.bits(), filter.probes());
    Bloom::from_words(filter.into_words(), bits, probes).ok()
}

/// A filter, written to a file and read back: it is the same. Only lack of memory can prevent that.
pub fn file_read_back<F: Piecewise, G: Piecewise>(
    alloc: Global,
    filter: &Bloom<F, G>,
    pair: &str,
) -> Result<Bloom<F, G>, Unread>
    ensures same { IfOk result (λ back. back ≡ filter.now) }
    ensures never_refused { IfErr result (λ why. IsRefusal why → ⊥) }
{
    a_file_tells_its_filter();
    let mut file = Vec::new(alloc);
    filter.write_to(&mut file, pair)?;
    match Bloom::read_from(alloc, &mut file.as_slice(), pair) {
        Ok(back) => Ok(back),
        Err(why) => Err(why),
    }
}
