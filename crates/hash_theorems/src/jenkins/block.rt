//! The block of lookup3 that gives a wanted answer.
ghost use Rattle.std.specs.Prelude.{◌≡◌, List, ℕ, length};
ghost use Rattle.hash_laws.specs.Text.{IsText};
ghost use Rattle.hash_jenkins.specs.Lookup3.{lookup3_answer, lookup3_from, third_word};

use hash_jenkins::Lookup3Hasher;
use hash_rounds::{lookup3_unfinal, lookup3_unmix, put_array};

/// The one block of 12 bytes that leads from where the hasher stands to the answer and to the third word, which the answer
/// leaves out: the two mixes of its words undone. So each answer has exactly 2^32 blocks, one for each third word.
pub fn block_for(hasher: &Lookup3Hasher, answer: u64, third: u32) -> [u8; 12]
    ensures leads { lookup3_answer (lookup3_from hasher.now result) ≡ answer }
    ensures third_word { third_word hasher.now result ≡ third }
    ensures alone { (block : List ℕ) → IsText block → length block ≡ 12
        → lookup3_answer (lookup3_from hasher.now block) ≡ answer → third_word hasher.now block ≡ third
        → block ≡ result }
{
    let mut s = [
        third,
        (answer / 4294967296) as u32,
        (answer % 4294967296) as u32,
    ];
    lookup3_unfinal(&mut s);
    lookup3_unmix(&mut s);
    let first = hasher.start_words(12);
    let mut block = [0; 12];
    put_array(&mut block, 0, s[0].wrapping_sub(first[0]).to_le_bytes());
    put_array(&mut block, 4, s[1].wrapping_sub(first[1]).to_le_bytes());
    put_array(&mut block, 8, s[2].wrapping_sub(first[2]).to_le_bytes());
    block
}
