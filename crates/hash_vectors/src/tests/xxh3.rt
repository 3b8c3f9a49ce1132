//! XXH3 of texts of all short lengths and of a few long ones, as libxxhash says.
use crate::tests::same_at;
use hash_xxh3::{xxh3_64, xxh3_128};

/// Seeds, and what libxxhash 0.8.1 says under each of the texts of 0 to 1100 bytes and of the long ones, in that order: each hash is added
/// to 31 times what came before. Of 128 bits the low word comes first, and then the high one.
const WANTED: [(u64, u64, u64); 5] = [
    (0, 0x3f5bdfe1f39299f0, 0x157db1943f67a586),
    (1, 0xafd53c643dd058c1, 0x3192168ea9b3efeb),
    (0x9e3779b97f4a7c15, 0xc300a729c9995e06, 0xd21ffc35b76153b6),
    (0xffffffffffffffff, 0x006405b87abee794, 0x0b34e8bd5c0cb6d9),
    (0x8000000080000001, 0x11b22e218c1caf70, 0x7de96dbe052b9e2d),
];

const LONG: [usize; 6] = [2048, 2049, 3000, 4096, 4097, 5000];

/// A sum with one word more.
fn with(sum: u64, word: u64) -> u64 {
    sum.wrapping_mul(31).wrapping_add(word)
}

#[test]
fn hashes_as_libxxhash(rt: HostRuntime) {
    // a text whose bytes have no simple pattern
    let mut text = [0; 5000];
    for i in 0..5000usize {
        text[i] = ((i * 167 + i / 256 * 13 + 11) % 256) as u8;
    }
    for (turn, (seed, wanted, wide)) in WANTED.iter().enumerate() {
        let (mut sum, mut both) = (0, 0);
        for i in 0..1107usize {
            let n = if i < 1101 { i } else { LONG[i - 1101] };
            let text = &text[..n.min(5000)];
            sum = with(sum, xxh3_64(*seed, text));
            let (low, high) = xxh3_128(*seed, text);
            both = with(with(both, low), high);
        }
        same_at(&rt, turn, &[sum, both], &[*wanted, *wide]);
    }
}
