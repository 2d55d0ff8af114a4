//! What the layers above an endpoint ask of it, at its limits.

use crate::script::{both, rows};
use nr_wire::Side;

static LIMITS: &str = "\
# A Read Request of 5000 bytes is answered in two segments.\n\
open 1 0 0\n\
feed : peer-key 10000\n\
writes : own-key 10000\n\
fetch : .7*5000 = 1\n\
feed : 2e4141 0 1 1 0 7 0 0 1388 1 0*3\n\
rests : 100e8142 7 0 0 7070707*1024 0 396c142 7 0 1000 7070707*226 0\n\
# The longest FPDU is placed: an RDMA Write of 65521 bytes.\n\
open 1 0 0\n\
feed : peer-key 10000\n\
writes : own-key 10000\n\
fill : .0*65536 = 1\n\
feed : ffffc140 1 0 0 .7*65521 .0*7\n\
release : .7*65521 .0*15\n\
";

/// Messages and reads are delivered in the order of their frames.
static TOLD: &str = "\
open 1 0 0\n\
feed : peer-key 10000\n\
writes : own-key 10000\n\
sink : '1234 = 1\n\
read 0 9 16 4\n\
read 0 9 16 4\n\
feed : 12c142 1 0 0 61626364 0\n\
feed : 224143 0 0 1 0 1 1 10 0 0\n\
feed : 224143 0 0 2 0 2 1 10 0 0\n\
feed : 12c142 1 0 0 61626364 0\n\
receives-free = 0\n\
event = Some((0, None))\n\
event = Some((1, None))\n\
event = Some((2, None))\n\
event = Some((0, None))\n\
event = None\n\
";

#[test]
fn limits(rt: HostRuntime) {
    both(&rt, rt.alloc(), &[65544, 40000], LIMITS);
    both(&rt, rt.alloc(), &[1000], TOLD);
}

/// The layer above ends a side for a reason.
static STOPS: &str = "\
open 1 0 0\n\
feed : peer-key 10000\n\
writes : own-key 10000\n\
feed : 224143 0 0 1 0 1 1 10 0 0\n\
stop $0$ = Bad { at: 20, reason: $0$ }\n\
writes : 164147 0 2 1 0 $1$ 0\n\
";

/// Its number, and the word of the Terminate.
static REASONS: &str = "17 | 11\n18 | 12\n19 | 13\n20 | 14\n21 | 15\n23 | 17\n30 | 1e\n";

#[test]
fn each_stop(rt: HostRuntime) {
    for side in [Side::Initiator, Side::Responder] {
        rows(&rt, rt.alloc(), side, &[1000], STOPS, REASONS);
    }
}
