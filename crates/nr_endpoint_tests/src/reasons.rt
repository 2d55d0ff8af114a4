//! The numbers of the reasons for which a link ends, and the words of a Terminate that are no reasons.

use crate::compare::same;
use nr_link::constants::*;
use nr_wire::constants::*;

static REASONS: [(u32, u32); 29] = [
    (REASON_KEY, 1),
    (REASON_FLAGS, 2),
    (REASON_REVISION, 3),
    (REASON_PRIVATE, 4),
    (REASON_LENGTH, 5),
    (REASON_DDP_VERSION, 6),
    (REASON_RDMAP_VERSION, 7),
    (REASON_OPCODE, 8),
    (REASON_TAGGED, 9),
    (REASON_QUEUE, 10),
    (REASON_MSN, 11),
    (REASON_OFFSET, 12),
    (REASON_FORM, 13),
    (REASON_RESPONSE, 14),
    (REASON_REQUESTS, 15),
    (REASON_SHORT, 16),
    (REASON_KIND, 17),
    (REASON_HEAD, 18),
    (REASON_XID, 19),
    (REASON_CALL, 20),
    (REASON_CHUNKS, 21),
    (REASON_LONG, 22),
    (REASON_VERSION, 23),
    (REASON_INVALIDATED, 29),
    (REASON_STAGS, 30),
    (WORD_NO_STAG, 101),
    (WORD_BOUNDS, 102),
    (WORD_RIGHT, 103),
    (WORD_NO_BUFFER, 104),
];

#[test]
fn reasons(rt: HostRuntime) {
    for (row, (number, want)) in REASONS.iter().enumerate() {
        same(&rt, row, *number, *want);
    }
}
