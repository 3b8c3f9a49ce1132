//! The answers of the original, replayed.
use super::sample::SAMPLE;
use crate::tests::{all_hold_at, same_at};
use hashers::laws::HasherWrite;
use hashers::promises::*;

/// Byte i of a text: all zeros, all 255, or a mixture.
fn byte(filling: u8, i: usize) -> u8 {
    match filling {
        0 => 0,
        1 => 255,
        _ => ((i % 256 * 131 + i / 256 % 256 * 17 + 89) % 256) as u8,
    }
}

/// What fourteen hashers answer, in the order of the sample.
fn answers(writes: &[HasherWrite]) -> [u64; 14] {
    [
        fnv1a32_of_writes(writes),
        fnv1a64_of_writes(writes),
        djb2_of_writes(writes),
        sdbm_of_writes(writes),
        loselose_of_writes(writes),
        bricolage_of_writes(writes),
        oaat_of_writes(writes),
        lookup3_of_writes(writes),
        spooky_v1_of_writes(0, 0, writes).0,
        passthrough_of_writes(writes),
        fxhash_of_writes(writes),
        fxhash32_of_writes(writes),
        fxhash64_of_writes(writes),
        null_of_writes(writes),
    ]
}

/// From 192 bytes on both versions of SpookyHash are one.
#[test]
fn answers_as_the_original(rt: HostRuntime) {
    let mut text = [0u8; 4097];
    for (row, (length, filling, piece, wanted)) in SAMPLE.iter().enumerate() {
        for i in 0..4097usize {
            text[i] = byte(*filling, i);
        }
        let length = (*length).min(4097);
        let mut writes = Vec::new(rt.alloc());
        let most = if *piece == 0 { 4097 } else { *piece };
        for part in text[..length].chunks(most) {
            let is_pushed = writes.push(HasherWrite::Bytes(part)).is_ok();
            all_hold_at(&rt, row, &[is_pushed]);
        }
        same_at(&rt, row, &answers(&writes), wanted);
        let (hash, _) = spooky_of_writes(0, 0, &writes);
        all_hold_at(&rt, row, &[length < 192 || hash == wanted[8]]);
    }
}
