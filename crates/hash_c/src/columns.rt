//! The hashes of a column of texts, by the number of a hash, under offsets of 32 and of 64 bits. Text i lies from offset i to offset
//! i + 1.
ghost use Rattle.hash_c.specs.Common.{IsColumnBy};

use crate::column::column_by;

/// The hash of each text, under offsets of 32 bits. Where they are no such offsets, or no hash has the number, nothing is written.
#[unsafe(no_mangle)]
pub extern "C" fn hashers_column32(
    kind: u32,
    bytes: &[u8],
    offsets: &[u32],
    hashes: &mut [u64],
) -> bool
    ensures { IsColumnBy kind bytes.now offsets.now hashes.old hashes.new result }
{
    column_by::<u32>(kind, bytes, offsets, hashes)
}

/// The same under offsets of 64 bits.
#[unsafe(no_mangle)]
pub extern "C" fn hashers_column64(
    kind: u32,
    bytes: &[u8],
    offsets: &[u64],
    hashes: &mut [u64],
) -> bool
    ensures { IsColumnBy kind bytes.now offsets.now hashes.old hashes.new result }
{
    column_by::<u64>(kind, bytes, offsets, hashes)
}
