//! The hashes of the lines of a text, by the number of a hash. A newline ends a line and is none of its bytes; the last line may have
//! none. The answer is how many lines there are: where there is room for fewer hashes, those of the first lines are written.
ghost use Rattle.std.specs.Prelude.{◌≡◌};
ghost use Rattle.hash_c.specs.Common.{length, map, IsSome, laid_over, line_texts, hash_at, kind_at};

use crate::column::lines_by;

/// The hash of each line. Where no hash has the number, the answer is 0 and nothing is written.
#[unsafe(no_mangle)]
pub extern "C" fn hashers_lines(kind: u32, bytes: &[u8], hashes: &mut [u64]) -> usize
    ensures known { IsSome (kind_at kind) → (result ≡ length (line_texts 10 bytes.now))
        × (hashes.new ≡ laid_over (map (hash_at kind) (line_texts 10 bytes.now)) hashes.old) }
    ensures unknown { kind_at kind ≡ None → (result ≡ 0) × (hashes.new ≡ hashes.old) }
{
    lines_by(kind, bytes, hashes)
}
