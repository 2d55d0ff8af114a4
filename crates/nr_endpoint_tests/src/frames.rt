//! FPDUs that end a side by their form, and those that don't, on each side: the reasons 5 to 12. The first FPDU lies at byte 20,
//! after the hello.

use crate::script::rows;
use nr_wire::Side;
use std::alloc::Global;
use std::process::Abort;

/// An endpoint with four regions of eight bytes: 1 may be read, 2 written, 3 is for Read Responses, and 4 was released. A row has the frames
/// that it is fed, its end, and what it writes.
static FED: &str = "\
open 1 0 0\n\
fetch : 'HELLOyou = 1\n\
fill : 0 0 = 2\n\
sink : 0 0 = 3\n\
briefly : 0 0\n\
feed : peer-key 10000 $0$ = $1$\n\
rests : own-key 10000 $2$ = $1$\n\
";

static FRAMES: &str = "\
# The length of the ULPDU: 0, 1, 5, 17 untagged, 13 tagged, and with another fault after it.\n\
0 0 | Bad { at: 20, reason: 5 } | 164147 0 2 1 0 5 0\n\
14100 0 | Bad { at: 20, reason: 5 } | 164147 0 2 1 0 5 0\n\
54143 0 0 | Bad { at: 20, reason: 5 } | 164147 0 2 1 0 5 0\n\
114143 0 0 1 0 0 | Bad { at: 20, reason: 5 } | 164147 0 2 1 0 5 0\n\
dc140 1 0*3 | Bad { at: 20, reason: 5 } | 164147 0 2 1 0 5 0\n\
114144 0 0 1 0 0 | Bad { at: 20, reason: 5 } | 164147 0 2 1 0 5 0\n\
11424f 0 9*3 0 | Bad { at: 20, reason: 5 } | 164147 0 2 1 0 5 0\n\
# The versions of DDP: 0, 2, 3, and with another fault after it.\n\
124043 0 0 1 0 0 | Bad { at: 20, reason: 6 } | 164147 0 2 1 0 6 0\n\
124243 0 0 1 0 0 | Bad { at: 20, reason: 6 } | 164147 0 2 1 0 6 0\n\
ec340 2 0*3 | Bad { at: 20, reason: 6 } | 164147 0 2 1 0 6 0\n\
124044 0 0 1 0 0 | Bad { at: 20, reason: 6 } | 164147 0 2 1 0 6 0\n\
12400f 0 9*3 0 | Bad { at: 20, reason: 6 } | 164147 0 2 1 0 6 0\n\
# Those of RDMAP.\n\
124103 0 0 1 0 0 | Bad { at: 20, reason: 7 } | 164147 0 2 1 0 7 0\n\
124183 0 0 1 0 0 | Bad { at: 20, reason: 7 } | 164147 0 2 1 0 7 0\n\
ec1c0 2 0*3 | Bad { at: 20, reason: 7 } | 164147 0 2 1 0 7 0\n\
124104 0 0 1 0 0 | Bad { at: 20, reason: 7 } | 164147 0 2 1 0 7 0\n\
12410f 0 9*3 0 | Bad { at: 20, reason: 7 } | 164147 0 2 1 0 7 0\n\
# Opcodes: 5, 6, 8 and 15; and 4, which isn't agreed, also of another form and in another queue, with another number and offset.\n\
124144 0 0 1 0 0 | Bad { at: 20, reason: 8 } | 164147 0 2 1 0 8 0\n\
ec144 2 0*3 | Bad { at: 20, reason: 8 } | 164147 0 2 1 0 8 0\n\
124144 0 1 1 0 0 | Bad { at: 20, reason: 8 } | 164147 0 2 1 0 8 0\n\
124144 0 0 2 8 0 | Bad { at: 20, reason: 8 } | 164147 0 2 1 0 8 0\n\
124145 0 0 1 0 0 | Bad { at: 20, reason: 8 } | 164147 0 2 1 0 8 0\n\
124146 0 0 1 0 0 | Bad { at: 20, reason: 8 } | 164147 0 2 1 0 8 0\n\
124148 0 9*3 0 | Bad { at: 20, reason: 8 } | 164147 0 2 1 0 8 0\n\
ec14f 2 0*3 | Bad { at: 20, reason: 8 } | 164147 0 2 1 0 8 0\n\
# A tagged Send, and an untagged Write and Read Response.\n\
ec143 2 0*3 | Bad { at: 20, reason: 9 } | 164147 0 2 1 0 9 0\n\
124140 0 0 1 0 0 | Bad { at: 20, reason: 9 } | 164147 0 2 1 0 9 0\n\
124142 0 9*3 0 | Bad { at: 20, reason: 9 } | 164147 0 2 1 0 9 0\n\
# Queues: a Send in 1 and 3, a Read Request in 0, a Terminate in 1.\n\
124143 0 1 1 0 0 | Bad { at: 20, reason: 10 } | 164147 0 2 1 0 a 0\n\
124143 0 3 9 9 0 | Bad { at: 20, reason: 10 } | 164147 0 2 1 0 a 0\n\
124141 0 0 1 0 0 | Bad { at: 20, reason: 10 } | 164147 0 2 1 0 a 0\n\
164147 0 1 1 0 5 0 | Bad { at: 20, reason: 10 } | 164147 0 2 1 0 a 0\n\
# Message numbers: 0 and 2 of the first, 2 of the second segment of the first, 1 of the second, and of each queue.\n\
124143 0*5 | Bad { at: 20, reason: 11 } | 164147 0 2 1 0 b 0\n\
124143 0 0 2 9 0 | Bad { at: 20, reason: 11 } | 164147 0 2 1 0 b 0\n\
160143 0 0 1 0 7 0 124143 0 0 2 4 0 | Bad { at: 48, reason: 11 } | 164147 0 2 1 0 b 0\n\
224143 0 0 1 0 1*4 0 124143 0 0 1 0 0 | Bad { at: 60, reason: 11 } | 164147 0 2 1 0 b 0\n\
2e4141 0 1 2 0 3 0 0 4 1 0*3 | Bad { at: 20, reason: 11 } | 164147 0 2 1 0 b 0\n\
120147 0 2 2 0 0 | Bad { at: 20, reason: 11 } | 164147 0 2 1 0 b 0\n\
# Message offsets: 1 at the beginning, 0 and 8 after four bytes, and of each queue.\n\
124143 0 0 1 1 0 | Bad { at: 20, reason: 12 } | 164147 0 2 1 0 c 0\n\
160143 0 0 1 0 7 0 124143 0 0 1 0 0 | Bad { at: 48, reason: 12 } | 164147 0 2 1 0 c 0\n\
160143 0 0 1 0 7 0 124143 0 0 1 8 0 | Bad { at: 48, reason: 12 } | 164147 0 2 1 0 c 0\n\
2e4141 0 1 1 4 3 0 0 4 1 0*3 | Bad { at: 20, reason: 12 } | 164147 0 2 1 0 c 0\n\
120147 0 2 1 4 0 | Bad { at: 20, reason: 12 } | 164147 0 2 1 0 c 0\n\
";

/// Runs rows with each side, fed in one piece and byte by byte.
pub fn frame_rows(rt: &impl Abort, alloc: Global, text: &str) {
    for side in [Side::Initiator, Side::Responder] {
        rows(rt, alloc, side, &[1000, 1], FED, text);
    }
}

#[test]
fn frames(rt: HostRuntime) {
    frame_rows(&rt, rt.alloc(), FRAMES);
}
