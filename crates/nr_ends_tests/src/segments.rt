//! The segments of a chunk (RFC 8166 section 3.4).

use crate::compare::same;
use nr_reduce::ChunkLengths;
use std::process::Abort;

/// The bytes of a chunk, how many segments it has, and the length of the last one. Each other one has 66048 bytes.
static CHUNKS: [(u32, usize, u32); 12] = [
    (0, 1, 0),
    (1, 1, 1),
    (66048, 1, 66048),
    (66049, 2, 1),
    (132096, 2, 66048),
    (990721, 16, 1),
    (990722, 16, 2),
    (990723, 16, 3),
    (990724, 16, 4),
    (1048576, 16, 57856),
    (1056768, 16, 66048),
    (1056769, 17, 1),
];

/// Ends the test if a chunk has other segments.
fn chunk_has(rt: &impl Abort, row: usize, len: u32, count: usize, last: u32) {
    let lengths = ChunkLengths::Own(len);
    same(rt, row, lengths.count(), count);
    for index in 0..lengths.count() {
        let want = if index + 1 < count { 66048 } else { last };
        same(rt, row, lengths.length(index), want);
    }
}

#[test]
fn chunks_have_segments(rt: HostRuntime) {
    for (row, (len, count, last)) in CHUNKS.iter().enumerate() {
        chunk_has(&rt, row, *len, *count, *last);
    }
}
