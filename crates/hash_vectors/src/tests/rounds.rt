//! Known values of the words, the sums and the rounds, and each call once.
use crate::tests::{all_hold, same, same_at};
use hash_rounds::*;
use std::simd::prelude::*;

const DEAD_BEEF: u64 = 0xdead_beef_dead_beef;

const COUNTED: [u64; 12] = [1, 2, 3, 4, 5, 6, 7, 8, 9, 10, 11, 12];

const COUNTED_ON: [u64; 12] = [13, 14, 15, 16, 17, 18, 19, 20, 21, 22, 23, 24];

#[test]
fn words_have_known_values(rt: HostRuntime) {
    let words: [u64; 2] = le_words(b"abcdefgh\x01\0\0\0\0\0\0\x80");
    all_hold(
        &rt,
        &[
            rotl32(0x8000_0001, 1) == 3,
            le32(b"abcd") == 1684234849,
            le32(b"") == 0,
            le_four(b"abcd") == 1684234849,
            rotl64(0x8000_0000_0000_0001, 4) == 0x18,
            le64(b"abcdefgh") == 0x6867_6665_6463_6261,
            swap_halves(1) == 4294967296,
            xorshift(64, 6) == 65,
            unxorshift(65, 6) == 64,
            xorshift(1 << 63, 63) == (1 << 63) + 1,
            words == [0x6867_6665_6463_6261, 0x8000_0000_0000_0001],
        ],
    );
}

/// Single bits, and where the shuffle takes them.
const BITS: [(u32, u32); 8] = [
    (0, 32),
    (15, 62),
    (16, 33),
    (31, 63),
    (32, 0),
    (47, 30),
    (48, 1),
    (63, 31),
];

#[test]
fn bits_go_by_the_table(rt: HostRuntime) {
    for (from, to) in BITS {
        let (bit, shuffled) = (1u64.rotate_left(from), 1u64.rotate_left(to));
        same_at(
            &rt,
            from as usize,
            &[shuffle64(bit), unshuffle64(shuffled)],
            &[shuffled, bit],
        );
    }
}

#[test]
fn lookup3_has_known_words(rt: HostRuntime) {
    let mut s = [0xdead_befb; 3];
    lookup3_mix(&mut s);
    let mixed = s;
    lookup3_final(&mut s);
    let ended = s;
    lookup3_unfinal(&mut s);
    lookup3_unmix(&mut s);
    all_hold(
        &rt,
        &[
            mixed == [0x8f43_a99b, 0x203e_9c5d, 0xa1d8_9905],
            ended == [0x6585_2e52, 0x14c3_a0e3, 0xfb29_3fc1],
            s == [0xdead_befb; 3],
        ],
    );
}

#[test]
fn short_rounds_have_known_words(rt: HostRuntime) {
    let mut h = [0, 0, DEAD_BEEF, DEAD_BEEF];
    for _ in 0..6 {
        short_mix(&mut h);
    }
    short_end(&mut h);
    same(&rt, &h[..1], &[13_905_049_616_862_401_802]);
    un_short_end(&mut h);
    for _ in 0..6 {
        un_short_mix(&mut h);
    }
    same(&rt, &h, &[0, 0, DEAD_BEEF, DEAD_BEEF]);
}

/// The first and the last word were computed by a program of its own from the rounds' published tables.
#[test]
fn long_rounds_have_known_words(rt: HostRuntime) {
    let (mut mixed, mut partial, mut ended) = (COUNTED_ON, COUNTED_ON, COUNTED_ON);
    spooky_mix(&COUNTED, &mut mixed);
    spooky_end_partial(&mut partial);
    spooky_end(&COUNTED, &mut ended);
    let words = [
        mixed[0],
        mixed[11],
        partial[0],
        partial[11],
        ended[0],
        ended[11],
    ];
    spooky_unmix(&COUNTED, &mut mixed);
    spooky_un_end_partial(&mut partial);
    let mut blocks = COUNTED_ON;
    spooky_blocks(&[7; 96], &mut blocks, &mut Turns::new());
    spooky_unblocks(&[7; 96], &mut blocks);
    same(
        &rt,
        &words,
        &[
            0x6cb9_e51b_1959_b06b,
            0x5452_4b80_6c10_ba1f,
            0xcdfc_65ec_21ae_ed12,
            0xe6e8_0098_1d2d_15a4,
            0x5b12_907c_44fa_a16b,
            0xb166_aecc_57ff_7841,
        ],
    );
    all_hold(
        &rt,
        &[
            mixed == COUNTED_ON,
            partial == COUNTED_ON,
            blocks == COUNTED_ON,
        ],
    );
}

#[test]
fn sums_have_known_values(rt: HostRuntime) {
    let mut turns = Turns::new();
    let abcd = sdbm4(0, b"abcd", &mut turns);
    let more = sdbm4(abcd, b"efgh", &mut turns);
    let mut full = u64x8::splat(u64::MAX);
    lose8(&mut full, &[0, 1, 2, 3, 4, 5, 6, 255], &mut turns);
    same(&rt, &full.to_array(), &[u64::MAX, 0, 1, 2, 3, 4, 5, 254]);
    all_hold(&rt, &[abcd == 3_518_636_162, more == 1_869_873_412]);
}
