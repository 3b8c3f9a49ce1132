//! The file of a filter by another program, read and written, also where memory is refused.
use crate::tests::all_hold;
use crate::tests::filters::Sample;
use hash_bloom::file::Unread;
use std::io::ErrorKind;
use streams::rehearsal::Script;

const PAIR: &str = "spooky lookup3";

/// The file of the filter of 100 bits and 4 probes that has the key `key`, as a program in another language writes it.
const FILE: [u8; 81] = *b"hashers-bloom 2 0000000000000064 00000004 spooky lookup3\n\
    \0\x80\0\0\0\0\x08\0\x01\0\0\0\x08\0\0\0\x18\xdd\xda\x85\x86\x26\x35\xae";

/// What is read is the filter, and is written as it was. Where a request for memory is refused, the write or the read says so.
#[test]
fn refused_for_a_file(rt: HostRuntime) {
    let alloc = rt.alloc();
    let mut r = Script::new(&FILE, usize::MAX);
    match Sample::read_from(alloc, &mut r, PAIR) {
        Ok(filter) => {
            let mut file = Vec::new(alloc);
            let written = match filter.write_to(&mut file, PAIR) {
                Ok(()) => file.as_slice() == FILE.as_slice(),
                Err(error) => error.kind() == ErrorKind::OutOfMemory,
            };
            all_hold(&rt, &[written, filter.contains(b"key")]);
        }
        Err(Unread::Failed(error)) => all_hold(&rt, &[error.kind() == ErrorKind::OutOfMemory]),
        Err(_) => all_hold(&rt, &[false]),
    }
}
