//! Laws and tests of two texts.
ghost use Rattle.std.specs.Prelude.{◌≡◌, ◌≢◌, ◌↔◌, ◌++◌, ℕ, List, IsTrue};
ghost use Rattle.std.specs.Bool.{OnTrue};
ghost use Rattle.hashers.specs.DifferWithin.{DifferWithin};
ghost use Rattle.hashers.specs.Fnv.{fnv1a32_of, fnv1a64_of};
ghost use Rattle.hashers.specs.Oz.{djb2_of};
ghost use Rattle.hashers.specs.Sums.{sdbm_from};

use hash_buckets::old_value_undoes_insert;
use hash_ring::{other_owners_keep_their_order, removal_undoes_adding};
use hashers::laws::Streamed;
use hashers::oz::sdbm_combine;
use hashers::{fnv, jenkins, laws, null, oz, rounds};
use hashsum_core::laws::{
    each_hash_fits, each_name_is_found, what_is_written_of_a_text_tells_its_hash,
};
use text_set::laws::{lines_of_joined_texts, texts_that_are_there_add_nothing};

/// Whether two texts are apart under all four windowed hashes: within two neighbouring bytes, in their low five bits.
pub fn apart_under_all(x: &[u8], y: &[u8]) -> bool
    ensures exactly { IsTrue result ↔ (DifferWithin 6 0xE0 x.now y.now × DifferWithin 2 0 x.now y.now) }
    ensures djb2 { OnTrue result (djb2_of x.now ≢ djb2_of y.now) }
    ensures fnv32 { OnTrue result (fnv1a32_of x.now ≢ fnv1a32_of y.now) }
{
    laws::apart_djb2(x, y) && laws::apart_fnv32(x, y)
}

/// Whether two texts are apart within three neighbouring bytes; sdbm and FNV-1a at 64 bits then tell them apart.
pub fn apart_within_three(x: &[u8], y: &[u8]) -> bool
    ensures exactly { IsTrue result ↔ DifferWithin 3 0 x.now y.now }
    ensures sdbm { OnTrue result (sdbm_from 0 x.now ≢ sdbm_from 0 y.now) }
    ensures fnv64 { OnTrue result (fnv1a64_of x.now ≢ fnv1a64_of y.now) }
{
    laws::apart_sdbm(x, y) && laws::apart_fnv64(x, y)
}

/// The hash of a text in two parts, from the hash of the first.
pub fn sdbm_behind(first: u64, second: &[u8]) -> u64
    ensures { (x : List ℕ) → first ≡ sdbm_from 0 x → result ≡ sdbm_from 0 (x ++ second.now) }
{
    sdbm_combine(first, oz::sdbm(second), second.len() as u64)
}

/// A key has one hash, however it came: as one piece or in two.
pub fn one_hash<H: Streamed>(first: &[u8], second: &[u8]) -> u64
    ensures { result ≡ H.hash_from H.start (first.now ++ second.now) }
{
    laws::answer_of_pieces::<H>(&[first, second])
}

/// The laws with no code are calls.
pub fn laws_are_calls<H: laws::ByteStep>() {
    fnv::origin_of_constants();
    oz::origin_of_constants();
    oz::sdbm_of_joined_texts();
    oz::loselose_of_joined_texts();
    oz::loselose_ignores_order();
    null::passthrough_of_joined_texts();
    laws::joined_texts_are_one::<H>();
    laws::text_is_its_steps::<H>();
    laws::one_changed_byte_shows::<H>();
    laws::text_stays_in_range::<H>();
    laws::writes_are_fed::<H>();
    laws::no_bytes_change_nothing::<H>();
    laws::hash_is_from_the_start::<H>();
    laws::windows_tell_apart();
    laws::words_by_place64();
    laws::words_by_place32();
    laws::fixed_widths_are_words64();
    laws::fixed_widths_are_words32();
    laws::pieces_are_their_words();
    laws::cuts_show_in_fx();
    laws::cuts_show_in_lookup3();
    laws::texts_of_one_frame();
    rounds::steps_undo_one_another();
    removal_undoes_adding();
    old_value_undoes_insert();
    lines_of_joined_texts();
    texts_that_are_there_add_nothing();
    each_name_is_found();
    each_hash_fits();
    what_is_written_of_a_text_tells_its_hash();
    laws::texts_of_a_length();
    other_owners_keep_their_order::<H>();
    laws::one_changed_byte_shows_fx();
    laws::one_changed_word_shows_fx();
    laws::low_bits_of_a_word();
    laws::fx_is_even();
    laws::lookup3_is_even();
    laws::short_spooky_is_even();
    laws::one_changed_block_shows();
    laws::one_changed_stretch_shows();
    jenkins::origin_of_constants();
}
