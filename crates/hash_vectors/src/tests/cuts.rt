//! Texts cut into chunks. The lengths of the chunks were computed by another program, from the definitions.
ghost use Rattle.std.specs.Prelude.{⊤};

use crate::tests::{all_hold, same};
use hash_cuts::{Cuts, Sink, Unfinished, cut_reader};
use std::alloc::AllocError;
use streams::rehearsal::Script;

/// The lengths of the chunks of 5,000 bytes without an order, of 64 to 1,024 bytes, 256 on average, under the seeds 1 and 2.
const LENGTHS: [u64; 18] = [
    122, 536, 73, 472, 579, 139, 108, 327, 205, 129, 142, 735, 231, 146, 430, 73, 412, 141,
];

/// Fills with bytes without an order: the high ones of a generator by D. E. Knuth, which goes on by a product and a sum.
fn fill(bytes: &mut [u8]) {
    let mut state: u64 = 1;
    for byte in bytes {
        state = state
            .wrapping_mul(6364136223846793005)
            .wrapping_add(1442695040888963407);
        *byte = (state >> 56) as u8;
    }
}

/// A sink that keeps how many chunks it took, and whether their lengths are the first of those.
#[derive(Drop)]
struct Counted {
    chunks: usize,
    right: bool,
}

impl Sink for Counted {
    type Error = AllocError;

    ghost taken = { λ start sink chunks refused. ⊤ };

    fn take(&mut self, chunk: &[u8]) -> Result<(), AllocError> {
        let wanted = LENGTHS.get(self.chunks).copied();
        self.right = self.right && wanted == Some(chunk.len() as u64);
        self.chunks = self.chunks.saturating_add(1);
        Ok(())
    }
}

#[test]
fn chunks_of_a_text(rt: HostRuntime) {
    let mut text = [0; 5000];
    fill(&mut text);
    let cuts = Cuts::new(64, 256, 1024, 1, 2).expect(&rt, "sizes that may be");
    let lengths = cuts
        .chunks(&text)
        .map(|chunk| chunk.len() as u64)
        .collect::<Vec<u64>>(rt.alloc());
    same(&rt, &lengths.expect(&rt, "memory"), &LENGTHS);
}

/// The chunks are the same ones however the reader gives its bytes, and under a limit the first ones of them. A read that fails is reported
/// with the bytes before it; the chunks that end within them were given.
#[test]
fn chunks_of_a_reader(rt: HostRuntime) {
    let mut text = [0; 5000];
    fill(&mut text);
    let cuts = Cuts::new(64, 256, 1024, 1, 2).expect(&rt, "sizes that may be");
    for (limit, until_fault, bytes, chunks) in [
        (u64::MAX, 9000, 5000, 18),
        (5000, 9000, 5000, 17),
        (122, 9000, 122, 0),
        (u64::MAX, 2000, 2000, 6),
    ] {
        let mut sink = Counted {
            chunks: 0,
            right: true,
        };
        let mut r = Script::failing(&text, 7, until_fault);
        let (read, failed) = match cut_reader(rt.alloc(), &cuts, &mut r, limit, &mut sink) {
            Ok(taken) => (taken.bytes, false),
            Err(Unfinished::Unread(fault)) => (fault.bytes, true),
            Err(_) => (0, true),
        };
        all_hold(
            &rt,
            &[
                read == bytes && sink.chunks == chunks,
                sink.right && failed == (until_fault == 2000),
            ],
        );
    }
}
