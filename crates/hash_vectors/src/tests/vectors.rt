//! Published vectors, and values that other programs computed, of all hashes: a row for each, and a loop for each kind of call.
use crate::tests::{all_hold_at, same, same_at};
use hash_blocks::murmur3::{Murmur3Hasher32, Murmur3Hasher128, murmur3_32, murmur3_128};
use hash_blocks::siphash::{SipKey, siphash13, siphash24};
use hash_blocks::xxhash::{xxh32, xxh64};
use hash_keyed::poly61::poly61;
use hash_kinds::wide::both;
use hash_more::crc32::{crc32, crc32c};
use hash_more::djb2_add::djb2_add;
use hash_more::elf::elf;
use hash_more::fnv1::{fnv1_32, fnv1_64};
use hash_more::joaat::joaat;
use hash_xxh3::{xxh3_64, xxh3_128};
use hashers::fnv::{fnv1a32, fnv1a64};
use hashers::fx_hash::{fxhash, fxhash32, fxhash64};
use hashers::jenkins::spooky_hash::{spooky, spooky_v1};
use hashers::jenkins::{lookup3, oaat};
use hashers::null::{null, passthrough};
use hashers::oz::{djb2, loselose, sdbm};
use hashers::pigeon::bricolage;
use std::hash::Hasher;

/// Of each line of `vectors.txt` the name, the seeds or the key, the text, and the hash.
type Row = (&'static str, [u64; 2], &'static [u8], u128);

/// No seeds.
const NONE: [u64; 2] = [0, 0];

// declared: vectors
/// Those lines but the ones of SIPHASH24.
#[rattlefmt::skip]
const VECTORS: [Row; 160] = [
    ("fnv1a32", NONE, b"", 0x811c9dc5),
    ("fnv1a32", NONE, b"a", 0xe40c292c),
    ("fnv1a64", NONE, b"", 0xcbf29ce484222325),
    ("fnv1a64", NONE, b"a", 0xaf63dc4c8601ec8c),
    ("fnv1a64", NONE, b"b", 0xaf63df4c8601f1a5),
    ("fnv1a64", NONE, b"ab", 0x89c4407b545986a),
    ("fnv1a64", NONE, b"abcd", 0xfc179f83ee0724dd),
    ("fnv1a64", NONE, b"abcdefg", 0x406e475017aa7737),
    ("djb2", NONE, b"", 0x1505),
    ("djb2", NONE, b"a", 0x2b5c4),
    ("djb2", NONE, b"b", 0x2b5c7),
    ("djb2", NONE, b"ab", 0x596e26),
    ("djb2", NONE, b"bC", 0x596ee4),
    ("djb2", NONE, b"cb", 0x596ee4),
    ("djb2", NONE, b"bc", 0x596ec4),
    ("sdbm", NONE, b"", 0x0),
    ("sdbm", NONE, b"a", 0x61),
    ("sdbm", NONE, b"b", 0x62),
    ("sdbm", NONE, b"ab", 0x611841),
    ("sdbm", NONE, b"\0", 0x0),
    ("sdbm", NONE, b"abc", 0x3025f862),
    ("sdbm", NONE, b"abcd", 0xd1ba2082),
    ("sdbm", NONE, b"abcde", 0xbd500063),
    ("loselose", NONE, b"", 0x0),
    ("loselose", NONE, b"a", 0x61),
    ("loselose", NONE, b"b", 0x62),
    ("loselose", NONE, b"ab", 0xc3),
    ("loselose", NONE, b"ba", 0xc3),
    ("loselose", NONE, &[255; 1000], 0x3e418),
    ("bricolage", NONE, b"", 0x0),
    ("bricolage", NONE, b"a", 0xf8c7a9f53791fd0b),
    ("bricolage", NONE, b"b", 0xace1633c29b9e88e),
    ("bricolage", NONE, b"ab", 0xe473604722819283),
    ("oaat", NONE, b"", 0x0),
    ("oaat", NONE, b"a", 0x6ca2e9442),
    ("oaat", NONE, b"b", 0x700db819b),
    ("oaat", NONE, b"ab", 0x1b5d45e61e58),
    ("oaat", NONE, b"abcdefg", 0x2b1327221cbb2469),
    ("oaat", NONE, b"\0", 0x0),
    ("lookup3", NONE, b"", 0x0),
    ("lookup3", NONE, b"a", 0x582647ac58d68708),
    ("lookup3", NONE, b"b", 0x4a45f89d7ff5c395),
    ("lookup3", NONE, b"ab", 0x6b79a0f2fbb3a8df),
    ("lookup3", NONE, b"abcdefg", 0x59ac1d9db11ad4a5),
    ("lookup3", NONE, b"abcd", 0xe20dd3fab5f4889c),
    ("lookup3", NONE, &[0; 12], 0x14c3a0e3fb293fc1),
    ("spooky", NONE, b"", 0xc0f8a8f45543d50a),
    ("spooky", NONE, b"a", 0xe78054ab33652e30),
    ("spooky_v1", NONE, b"", 0xc0f8a8f45543d50a),
    ("spooky_v1", NONE, b"a", 0xeafde871ab324086),
    ("spooky_v1", NONE, b"b", 0x503a76ba38afd5dd),
    ("spooky_v1", NONE, b"ab", 0xc031ebabd8611231),
    ("spooky_v1", NONE, b"abcd", 0x397b79cc5ec26a09),
    ("spooky_v1", NONE, b"abcdefg", 0x2652e98dd708b124),
    ("spooky_v1", NONE, b"abcdefghijklmnopqrstuvwxyz", 0xe0b62f0894b704a5),
    ("spooky_v1", NONE, b"\0", 0xc0f8a8f45543d50a),
    ("spooky_v1", NONE, &[0; 191], 0xc0f8a8f45543d50a),
    ("passthrough", NONE, b"abcdefghi", 0x6263646566676869),
    ("passthrough", NONE, b"a", 0x61),
    ("fxhash", NONE, b"", 0x0),
    ("fxhash", NONE, b"a", 0xe0456665d3e60275),
    ("fxhash", NONE, b"a\0\0\0", 0xe0456665d3e60275),
    ("fxhash", NONE, b"\0\0\0\0a", 0xe0456665d3e60275),
    ("fxhash", NONE, b"\0\0\0\0\0\0\0\0", 0x0),
    ("fxhash32", NONE, b"", 0x0),
    ("fxhash32", NONE, b"a", 0xd3e60275),
    ("fxhash32", NONE, b"a\0\0\0", 0xd3e60275),
    ("fxhash32", NONE, b"\0\0\0\0a", 0xd3e60275),
    ("fxhash32", NONE, b"\0\0\0\0\0\0\0\0", 0x0),
    ("fxhash64", NONE, b"", 0x0),
    ("fxhash64", NONE, b"a", 0xe0456665d3e60275),
    ("fxhash64", NONE, b"a\0\0\0", 0xe0456665d3e60275),
    ("fxhash64", NONE, b"\0\0\0\0a", 0xe0456665d3e60275),
    ("fxhash64", NONE, b"\0\0\0\0\0\0\0\0", 0x0),
    ("null", NONE, b"a", 0x0),
    ("null", NONE, b"ab", 0x0),
    ("crc32", NONE, b"", 0x0),
    ("crc32", NONE, b"a", 0xe8b7be43),
    ("crc32", NONE, b"123456789", 0xcbf43926),
    ("crc32", NONE, b"The quick brown fox jumps over the lazy dog", 0x414fa339),
    ("crc32c", NONE, b"", 0x0),
    ("crc32c", NONE, b"123456789", 0xe3069283),
    ("crc32c", NONE, &[0; 32], 0x8a9136aa),
    ("crc32c", NONE, &[255; 32], 0x62a8ab43),
    ("crc32c", NONE, &[0, 1, 2, 3, 4, 5, 6, 7, 8, 9, 10, 11, 12, 13, 14, 15, 16, 17, 18, 19, 20, 21, 22, 23, 24, 25, 26, 27, 28, 29, 30,
    31], 0x46dd794e),
    ("crc32c", NONE, &[31, 30, 29, 28, 27, 26, 25, 24, 23, 22, 21, 20, 19, 18, 17, 16, 15, 14, 13, 12, 11, 10, 9, 8, 7, 6, 5, 4, 3, 2, 1,
    0], 0x113fdb5c),
    ("fnv1_32", NONE, b"", 0x811c9dc5),
    ("fnv1_32", NONE, b"a", 0x50c5d7e),
    ("fnv1_32", NONE, b"b", 0x50c5d7d),
    ("fnv1_32", NONE, b"foobar", 0x31f0b262),
    ("fnv1_64", NONE, b"", 0xcbf29ce484222325),
    ("fnv1_64", NONE, b"a", 0xaf63bd4c8601b7be),
    ("fnv1_64", NONE, b"b", 0xaf63bd4c8601b7bd),
    ("fnv1_64", NONE, b"foobar", 0x340d8765a4dda9c2),
    ("djb2_add", NONE, b"", 0x1505),
    ("djb2_add", NONE, b"printf", 0x156b2bb8),
    ("djb2_add", NONE, b"exit", 0x7c967e3f),
    ("djb2_add", NONE, b"syscall", 0xbac212a0),
    ("djb2_add", NONE, b"a", 0x2b606),
    ("joaat", NONE, b"", 0x0),
    ("joaat", NONE, b"a", 0xca2e9442),
    ("joaat", NONE, b"The quick brown fox jumps over the lazy dog", 0x519e91f5),
    ("elf", NONE, b"", 0x0),
    ("elf", NONE, b"printf", 0x77905a6),
    ("elf", NONE, b"exit", 0x6cf04),
    ("elf", NONE, b"syscall", 0xb09985c),
    ("elf", NONE, b"a", 0x61),
    ("xxh32", NONE, b"", 0x2cc5d05),
    ("xxh32", NONE, b"a", 0x550d7456),
    ("xxh32", NONE, b"abc", 0x32d153ff),
    ("xxh32", NONE, b"The quick brown fox jumps over the lazy dog", 0xe85ea4de),
    ("xxh32", NONE, b"0123456789abcdefghijklmnopqrstuvwxyzABCDEFGHIJKLMNOPQRSTUVWXYZ0123456789", 0x29fbfb5),
    ("xxh32", [0x9e3779b1, 0x0], b"", 0x36b78ae7),
    ("xxh32", [0x9e3779b1, 0x0], b"abc", 0xa1ae7709),
    ("xxh32", [0x9e3779b1, 0x0], b"0123456789abcdefghijklmnopqrstuvwxyzABCDEFGHIJKLMNOPQRSTUVWXYZ0123456789", 0xcfee0111),
    ("xxh32", [0x13353e1, 0x0], b"xxhash", 0x67bb40dd),
    ("xxh64", NONE, b"", 0xef46db3751d8e999),
    ("xxh64", NONE, b"a", 0xd24ec4f1a98c6e5b),
    ("xxh64", NONE, b"abc", 0x44bc2cf5ad770999),
    ("xxh64", NONE, b"The quick brown fox jumps over the lazy dog", 0xb242d361fda71bc),
    ("xxh64", NONE, b"0123456789abcdefghijklmnopqrstuvwxyzABCDEFGHIJKLMNOPQRSTUVWXYZ0123456789", 0x9e75a8e1c64f3e4f),
    ("xxh64", [0x9e3779b185ebca8d, 0x0], b"", 0xb303d920ec349df),
    ("xxh64", [0x9e3779b185ebca8d, 0x0], b"abc", 0x7e49c9d7e85a4ab6),
    ("xxh64", [0x9e3779b185ebca8d, 0x0], b"0123456789abcdefghijklmnopqrstuvwxyzABCDEFGHIJKLMNOPQRSTUVWXYZ0123456789", 0xcd26df218b8cbdef),
    ("xxh64", [0x13353e1, 0x0], b"xxhash", 0xb559b98d844e0635),
    ("xxh3", NONE, b"", 0x2d06800538d394c2),
    ("xxh3", NONE, b"a", 0xe6c632b61e964e1f),
    ("xxh3", NONE, b"abc", 0x78af5f94892f3950),
    ("xxh3", [0x13353e1, 0x0], b"xxhash", 0x8e5dc07f2b839bb0),
    ("murmur3_32", NONE, b"hello", 0x248bfa47),
    ("murmur3_32", NONE, b"", 0x0),
    ("murmur3_32", [0x1, 0x0], b"", 0x514e28b7),
    ("murmur3_32", [0xffffffff, 0x0], b"", 0x81f16f39),
    ("murmur3_32", NONE, b"test", 0xba6bd213),
    ("murmur3_32", [0x9747b28c, 0x0], b"test", 0x704b81dc),
    ("murmur3_32", NONE, b"Hello, world!", 0xc0363e43),
    ("murmur3_32", [0x9747b28c, 0x0], b"Hello, world!", 0x24884cba),
    ("murmur3_32", NONE, b"The quick brown fox jumps over the lazy dog", 0x2e4ff723),
    ("murmur3_32", [0x9747b28c, 0x0], b"The quick brown fox jumps over the lazy dog", 0x2fa826cd),
    ("murmur3_128", NONE, b"", 0x0),
    ("murmur3_128", NONE, b"hello", 0xcbd8a7b341bd9b025b1e906a48ae1d19),
    ("murmur3_128", [0x1, 0x0], b"hello, world", 0x8b95f808840725c61597ed5422bd493b),
    ("murmur3_128", NONE, b"The quick brown fox jumps over the lazy dog", 0xe34bbc7bbc071b6c7a433ca9c49a9347),
    ("siphash13", [0x706050403020100, 0xf0e0d0c0b0a0908], b"", 0xabac0158050fc4dc),
    ("siphash13", NONE, b"a", 0x407448d2b89b1813),
    ("siphash13", NONE, b"hello", 0xe2e77b41cb4e1f9e),
    ("siphash13", NONE, b"The quick brown fox jumps over the lazy dog", 0x8df676d3d00c451e),
    ("siphash24", NONE, b"", 0x1e924b9d737700d7),
    ("poly61", [0x112210f47de98115, 0x0], b"", 0x6110f44f0f892013),
    ("poly61", [0x112210f47de98115, 0x0], b"a", 0xefe8447c309a9daf),
    ("poly61", [0x112210f47de98115, 0x0], b"abcdef", 0x1fb4db1730970150),
    ("poly61", [0x112210f47de98115, 0x0], b"abcdefg", 0xced08d7a4c3df046),
    ("poly61", [0x112210f47de98115, 0x0], b"123456789", 0x14e30a2a01d91bf8),
    ("poly61", [0x112210f47de98115, 0x0], b"The quick brown fox jumps over the lazy dog", 0x28647d345aabee41),
    ("poly61", NONE, b"The quick brown fox jumps over the lazy dog", 0x0),
    ("poly61", [0x1fffffffffffffff, 0x0], b"The quick brown fox jumps over the lazy dog", 0x0),
    ("poly61", [0xffffffffffffffff, 0x0], b"The quick brown fox jumps over the lazy dog", 0x5091b83908ea05e2),
    ("poly61", [0x7, 0x0], b"The quick brown fox jumps over the lazy dog", 0x5091b83908ea05e2),
    ("xxh128", [0x13353e1, 0x0], b"xxhash", 0x79ac33c96912c28697334731064933c1),
    ("xxh128", NONE, b"", 0x99aa06d3014798d86001c324468d497f),
];
// end of declared

/// The hash in one call, of the original's names; `None` of any other.
fn of_original(name: &str, text: &[u8]) -> Option<u64> {
    Some(match name {
        // declared: names
        "fnv1a32" => fnv1a32(text),
        "fnv1a64" => fnv1a64(text),
        "djb2" => djb2(text),
        "sdbm" => sdbm(text),
        "loselose" => loselose(text),
        "bricolage" => bricolage(text),
        "oaat" => oaat(text),
        "lookup3" => lookup3(text),
        "spooky" => spooky(text),
        "spooky_v1" => spooky_v1(text),
        "passthrough" => passthrough(text),
        "fxhash" => fxhash(text),
        "fxhash32" => fxhash32(text),
        "fxhash64" => fxhash64(text),
        "null" => null(text),
        // end of declared
        _ => return None,
    })
}

/// The low half of a seed.
fn half(seed: u64) -> u32 {
    (seed & 0xffff_ffff) as u32
}

/// The hash in one call, of the other names.
fn of_another(name: &str, [seed, other]: [u64; 2], text: &[u8]) -> Option<u64> {
    let key = SipKey {
        k0: seed,
        k1: other,
    };
    Some(match name {
        // declared: other names
        "crc32" => crc32(text),
        "crc32c" => crc32c(text),
        "fnv1_32" => fnv1_32(text),
        "fnv1_64" => fnv1_64(text),
        "djb2_add" => djb2_add(text),
        "joaat" => joaat(text),
        "elf" => elf(text),
        "xxh32" => u64::from(xxh32(half(seed), text)),
        "xxh64" => xxh64(seed, text),
        "murmur3_32" => u64::from(murmur3_32(half(seed), text)),
        "siphash13" => siphash13(key, text),
        "siphash24" => siphash24(key, text),
        "xxh3" => xxh3_64(seed, text),
        // end of declared
        "poly61" => poly61(seed, text),
        _ => return None,
    })
}

/// The hash in one call.
fn in_one(name: &str, seeds: [u64; 2], text: &[u8]) -> Option<u128> {
    if name == "murmur3_128" {
        return Some(both(murmur3_128(seeds[0], text)));
    }
    if name == "xxh128" {
        let (low, high) = xxh3_128(seeds[0], text);
        return Some(both((high, low)));
    }
    match of_original(name, text) {
        Some(hash) => Some(u128::from(hash)),
        None => Some(u128::from(of_another(name, seeds, text)?)),
    }
}

/// The key of the authors' vectors of SipHash.
const KEY: SipKey = SipKey {
    k0: 0x0706050403020100,
    k1: 0x0f0e0d0c0b0a0908,
};

// declared: siphash
/// The hashes of those lines by SipHash-2-4 under KEY, of texts of 0 to 63 bytes, 0, 1, 2 and so on.
#[rattlefmt::skip]
const SIPHASH24: [u64; 64] = [
    0x726fdb47dd0e0e31, 0x74f839c593dc67fd, 0x0d6c8009d9a94f5a, 0x85676696d7fb7e2d, 0xcf2794e0277187b7, 0x18765564cd99a68d,
    0xcbc9466e58fee3ce, 0xab0200f58b01d137, 0x93f5f5799a932462, 0x9e0082df0ba9e4b0, 0x7a5dbbc594ddb9f3, 0xf4b32f46226bada7,
    0x751e8fbc860ee5fb, 0x14ea5627c0843d90, 0xf723ca908e7af2ee, 0xa129ca6149be45e5, 0x3f2acc7f57c29bdb, 0x699ae9f52cbe4794,
    0x4bc1b3f0968dd39c, 0xbb6dc91da77961bd, 0xbed65cf21aa2ee98, 0xd0f2cbb02e3b67c7, 0x93536795e3a33e88, 0xa80c038ccd5ccec8,
    0xb8ad50c6f649af94, 0xbce192de8a85b8ea, 0x17d835b85bbb15f3, 0x2f2e6163076bcfad, 0xde4daaaca71dc9a5, 0xa6a2506687956571,
    0xad87a3535c49ef28, 0x32d892fad841c342, 0x7127512f72f27cce, 0xa7f32346f95978e3, 0x12e0b01abb051238, 0x15e034d40fa197ae,
    0x314dffbe0815a3b4, 0x027990f029623981, 0xcadcd4e59ef40c4d, 0x9abfd8766a33735c, 0x0e3ea96b5304a7d0, 0xad0c42d6fc585992,
    0x187306c89bc215a9, 0xd4a60abcf3792b95, 0xf935451de4f21df2, 0xa9538f0419755787, 0xdb9acddff56ca510, 0xd06c98cd5c0975eb,
    0xe612a3cb9ecba951, 0xc766e62cfcadaf96, 0xee64435a9752fe72, 0xa192d576b245165a, 0x0a8787bf8ecb74b2, 0x81b3e73d20b49b6f,
    0x7fa8220ba3b2ecea, 0x245731c13ca42499, 0xb78dbfaf3a8d83bd, 0xea1ad565322a1a0b, 0x60e61c23a3795013, 0x6606d7e446282b93,
    0x6ca4ecb15c5f91e1, 0x9f626da15c9625f3, 0xe51b38608ef25f57, 0x958a324ceb064572,
];
// end of declared

#[test]
fn as_the_authors_of_siphash(rt: HostRuntime) {
    let mut text = [0u8; 64];
    for (n, hash) in SIPHASH24.iter().enumerate() {
        text[n] = n as u8;
        same_at(&rt, n, &[siphash24(KEY, &text[..n])], &[*hash]);
    }
}

/// SMHasher's verification codes of MurmurHash3: the low 32 bits of the hash of 256 hashes, joined, the lowest byte first, those of the
/// texts of 0 to 255 bytes, 0, 1, 2 and so on, under the seeds from 256 down.
#[test]
fn as_smhasher(rt: HostRuntime) {
    let mut text = [0u8; 256];
    let mut narrow = Murmur3Hasher32::new(0);
    let mut wide = Murmur3Hasher128::new(0);
    for n in 0..256usize {
        text[n] = n as u8;
        let (text, seed) = (&text[..n], 256 - n as u32);
        narrow.write(&murmur3_32(seed, text).to_le_bytes());
        let (first, second) = murmur3_128(u64::from(seed), text);
        wide.write(&first.to_le_bytes());
        wide.write(&second.to_le_bytes());
    }
    same(
        &rt,
        &[narrow.finish(), wide.finish() & 0xffff_ffff],
        &[0xb0f57ee3, 0x6384ba69],
    );
}

/// Whatever names all rows is slow to prove, so it is one test.
#[test]
fn each_row(rt: HostRuntime) {
    for (row, (name, seeds, text, hash)) in VECTORS.iter().enumerate() {
        all_hold_at(&rt, row, &[in_one(name, *seeds, text) == Some(*hash)]);
    }
}
