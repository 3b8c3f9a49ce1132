//! The laws of hashers: the traits and the generic functions, and tests of two texts.

pub use crate::counts::{
    buckets_have_all_hashes, collisions_in_any_order, no_collisions, one_in_each_bucket,
    texts_of_a_length,
};
pub use crate::windows::{
    apart_djb2, apart_fnv32, apart_fnv64, apart_sdbm, same_word, windows_tell_apart,
};
pub use hash_bytes::null::passthrough_of_joined_texts;
pub use hash_bytes::oz::{loselose_ignores_order, loselose_of_joined_texts, sdbm_of_joined_texts};
pub use hash_laws::traits::{
    ByteStep, Piecewise, Streamed, Undo, answer_of_pieces, bucket_of, bytes_are_a_text,
    hash_is_from_the_start, hash_of, joined_texts_are_one, no_bytes_change_nothing, run_pair,
    run_pieces, run_streamed, string_is_a_text, text_is_its_steps, text_stays_in_range,
    writes_are_fed,
};
pub use hash_laws::windows::changed_byte::{apart_by_one, one_changed_byte_shows};
pub use hash_laws::windows::window::{
    differ_at_one_place, first_difference, is_window, texts_of_one_frame,
};
pub use hash_theorems::fx::pieces::{
    apart_by_one_fx, apart_by_one_word_fx32, apart_by_one_word_fx64, cuts_show_in_fx,
    fixed_widths_are_words32, fixed_widths_are_words64, fx_is_even, low_bits_of_a_word,
    one_changed_byte_shows_fx, one_changed_word_shows_fx, pieces_are_their_words, run_words,
    run_words32, run_words64, words_by_place32, words_by_place64,
};
pub use hash_theorems::jenkins::block::block_for;
pub use hash_theorems::jenkins::stretch::{short_spooky_is_even, stretch_for};
pub use hash_theorems::jenkins::two_texts::{
    apart_by_block, apart_by_stretch, apart_by_zeros, cuts_show_in_lookup3, differ_in_one_block,
    differ_in_one_stretch, lookup3_is_even, middles_in_one_group, one_changed_block_shows,
    one_changed_stretch_shows, position_of_joined_texts, same_answers_later,
    zeros_do_not_show_in_version_1,
};
pub use hash_writes::writes::{
    HasherWrite, answer_of_writes, run_writes, run_writes_streamed, unrun_writes,
};
