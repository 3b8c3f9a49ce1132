//! The chunks of a text by its content.
ghost use Rattle.std.specs.Prelude.{◌≡◌, ◌++◌};
ghost use Rattle.hash_c.specs.Common.{length, take, drop, min};
ghost use Rattle.hash_c.specs.Chunks.{AreCutting, cutting_of};
ghost use Rattle.hash_cuts.specs.Cuts.{chunk_ends};

use hash_cuts::Cuts;

/// The least and the most bytes of a chunk, how many places have one cut on average, and two seeds.
#[repr(C)]
#[derive(Clone, Copy)]
pub struct Cutting {
    pub least: usize,
    pub average: usize,
    pub most: usize,
    pub seed1: u64,
    pub seed2: u64,
}

/// Writes where the first chunks of the text end, in bytes from its beginning, and answers how many these are: all chunks, or as many as
/// there are places for. Where 64 ≤ least ≤ average ≤ most does not hold it writes none. Of a part of a text the last chunk may end where
/// the part does, if it is shorter than the most.
#[unsafe(no_mangle)]
pub extern "C" fn hashers_chunk_ends(text: &[u8], cutting: &Cutting, ends: &mut [u64]) -> usize
    ensures count { AreCutting cutting.now
        → result ≡ min (length ends.old) (length (chunk_ends (cutting_of cutting.now) text.now)) }
    ensures written { AreCutting cutting.now
        → ends.new ≡ take result (chunk_ends (cutting_of cutting.now) text.now) ++ drop result ends.old }
    ensures refused { ¬ AreCutting cutting.now → (result ≡ 0) × (ends.new ≡ ends.old) }
{
    match Cuts::new(
        cutting.least,
        cutting.average,
        cutting.most,
        cutting.seed1,
        cutting.seed2,
    ) {
        Some(cuts) => cuts.ends(text, ends),
        None => 0,
    }
}
