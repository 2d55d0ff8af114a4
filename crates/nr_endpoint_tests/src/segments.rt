//! Segments of a right form that end a side by what it has ready for them, and those that don't, on each side: a Send without a receive,
//! denied Read Requests, the reasons 13, 14 and 16, a Terminate. The first FPDU lies at byte 20, after the hello.

use crate::frames::frame_rows;

static SEGMENTS: &str = "\
# Two Sends take both receives. The third finds none, also if it is long, and one that is begun has its own.\n\
224143 0 0 1 0 1*4 0 224143 0 0 2 0 1*4 0 224143 0 0 3 0 1*4 0 | NoBuffer { msn: 3 } | 164147 0 2 1 0 68 0\n\
224143 0 0 1 0 1*4 0 224143 0 0 2 0 1*4 0 124143 0 0 3 0 0 | NoBuffer { msn: 3 } | 164147 0 2 1 0 68 0\n\
224143 0 0 1 0 1*4 0 1e0143 0 0 2 0 1*3 0 164143 0 0 2 c 1 0 | |\n\
224143 0 0 1 0 1*4 0 224143 0 0 2 0 1*4 0 124143 0 0 4 0 0 | Bad { at: 100, reason: 11 } | 164147 0 2 1 0 b 0\n\
# Read Requests: 27 and 32 bytes, not the last segment, and a sink's offset and size of 2^64 + 1, also without a region.\n\
2d4141 0 1 1 0 3 0 0 4 1 0*3 | Bad { at: 20, reason: 13 } | 164147 0 2 1 0 d 0\n\
324141 0 1 1 0 3 0 0 4 1 0*4 | Bad { at: 20, reason: 13 } | 164147 0 2 1 0 d 0\n\
2e0141 0 1 1 0 3 0 0 4 9 0*3 | Bad { at: 20, reason: 13 } | 164147 0 2 1 0 d 0\n\
2e4141 0 1 1 0 3 ffffffff fffffffd 4 1 0*3 | Bad { at: 20, reason: 13 } | 164147 0 2 1 0 d 0\n\
2e4141 0 1 1 0 3 ffffffff fffffffd 4 9 0*3 | Bad { at: 20, reason: 13 } | 164147 0 2 1 0 d 0\n\
# A sum of 2^64 is answered, and so is a request for no bytes at the region's end.\n\
2e4141 0 1 1 0 3 ffffffff fffffffc 4 1 0 4 0 | | 12c142 3 ffffffff fffffffc 4f796f75 0\n\
2e4141 0 1 1 0 3 0 5 0 1 0 8 0 | | ec142 3 0 5 0\n\
# A Read Request past its region's end, of a region without the right, and without a region.\n\
2e4141 0 1 1 0 3 0 0 8 1 0 1 0 | Denied { stag: 1, offset: 1, why: Bounds } | 164147 0 2 1 0 66 0\n\
2e4141 0 1 1 0 3 0 0 8 2 0*3 | Denied { stag: 2, offset: 0, why: Right } | 164147 0 2 1 0 67 0\n\
2e4141 0 1 1 0 3 0 0 8 5 0*3 | Denied { stag: 5, offset: 0, why: NoStag } | 164147 0 2 1 0 65 0\n\
# Terminates: not the last segment, of three bytes, of four, and of more, with an MSN of its own queue.\n\
160147 0 2 1 0 5 0 | Bad { at: 20, reason: 13 } | 164147 0 2 1 0 d 0\n\
154147 0 2 1 0 5 0 | Bad { at: 20, reason: 13 } | 164147 0 2 1 0 d 0\n\
164147 0 2 1 0 5 0 | Terminated { reason: 5 } |\n\
1a4147 0 2 1 0 68 7 0 | Terminated { reason: 104 } |\n\
224143 0 0 1 0 1*4 0 164147 0 2 1 0 ffffffff 0 | Terminated { reason: 4294967295 } |\n\
# A Read Response without a Read Request, and one whose region is not for it.\n\
12c142 3 0 0 7 0 | Bad { at: 20, reason: 14 } | 164147 0 2 1 0 e 0\n\
12c142 2 0 0 7 0 | Denied { stag: 2, offset: 0, why: Right } | 164147 0 2 1 0 67 0\n\
# Sends of 15 bytes, of none, of 16, and of 15 in two segments.\n\
214143 0 0 1 0 1*4 0 | Bad { at: 20, reason: 16 } | 164147 0 2 1 0 10 0\n\
124143 0 0 1 0 0 | Bad { at: 20, reason: 16 } | 164147 0 2 1 0 10 0\n\
224143 0 0 1 0 1*4 0 | |\n\
1e0143 0 0 1 0 1*3 0 154143 0 0 1 c 1 0 | Bad { at: 56, reason: 16 } | 164147 0 2 1 0 10 0\n\
";

#[test]
fn segments(rt: HostRuntime) {
    frame_rows(&rt, rt.alloc(), SEGMENTS);
}
