//! What follows for block-based hashes that lose nothing, and for MurmurHash3, XXH32 and XXH64 alone: one changed block shows, no hash is
//! favoured, the block for a hash, and each block undone.

mod block_undo;
mod by_rule;
mod murmur3;
mod murmur3_128;
mod murmur3_32;
mod xxh32;
mod xxhash;

pub use block_undo::BlockUndo;
pub use by_rule::{
    apart_by_rule, block_for_by_rule, block_out, blocks_are_even, middles_in_one_block,
    one_changed_block_shows_by_rule, state_behind,
};
pub use murmur3::{
    apart_by_block_murmur3_128, apart_by_word_murmur3_32, block_for_murmur3_128,
    murmur3_32_is_even, murmur3_128_is_even, one_changed_block_shows_in_murmur3_128,
    one_changed_word_shows_in_murmur3_32, word_for_murmur3_32,
};
pub use xxh32::{word_for_xxh32, xxh32_block_out, xxh32_is_even};
pub use xxhash::{
    apart_by_word_xxh32, apart_by_word_xxh64, one_changed_word_shows_in_xxh32,
    one_changed_word_shows_in_xxh64, word_for_xxh64, xxh64_block_out, xxh64_is_even,
};
