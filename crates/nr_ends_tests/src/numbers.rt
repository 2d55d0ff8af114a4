//! The number that a client's hello says (own), and a server end that stops for an old call.

use crate::script::{rows, run};

static HEARD: &str = "\
client = 0\n\
feed-up : $0$\n\
client = $1$\n\
";

/// A hello, and the number of its client.
static NUMBERS: &str = "\
hello 10000 | 0\n\
hello 10008 4e523031 1000000 | 0\n\
hello 10010 4e523031 1010000 0 5 | 5\n\
hello 10010 4e523031 1010000 ffffffff ffffffff | 18446744073709551615\n\
hello 10010 4e523031 1010000 0 0 | 0\n\
# Without the flag, with one byte less, and behind other private data.\n\
hello 10010 4e523031 1000000 0 5 | 0\n\
hello 1000f 4e523031 1010000 0 .0*3 | 0\n\
hello 10010 4e523032 1010000 0 5 | 0\n\
";

/// NULL is ready, and counts as old: the server end stops at the last complete frame, which a second call may be, and writes a Terminate
/// (RFC 5040 section 4.8).
static STOPPED: &str = "\
feed-up : hello 10010 4e523031 1010000 0 5 564143 0 0 1 0 1 1 10 0*4 1 0 2 186a3 3 0*6\n\
client = 5\n\
stop = Bad { at: 36, reason: 28 }\n\
ends = (None, Some(Bad { at: 36, reason: 28 }))\n\
server-writes : hello-back 10008 4e523031 1000000 164147 0 2 1 0 1c 0\n\
# A part of the next frame was fed.\n\
open 16\n\
feed-up : hello 10010 4e523031 1010000 0 5 564143 0 0 1 0 1 1 10 0*4 1 0 2 186a3 3 0*6 564143 0\n\
stop = Bad { at: 36, reason: 28 }\n\
# All of it.\n\
open 16\n\
feed-up : hello 10010 4e523031 1010000 0 5 564143 0 0 1 0 1 1 10 0*4 1 0 2 186a3 3 0*6 564143 0 0 2 0 2 1 10 0*4 2 0 2 186a3 3 0*6\n\
stop = Bad { at: 128, reason: 28 }\n\
server-writes : hello-back 10008 4e523031 1000000 164147 0 2 1 0 1c 0\n\
";

#[test]
fn numbers_are_heard(rt: HostRuntime) {
    rows(&rt, rt.alloc(), &[1, 65536], HEARD, NUMBERS);
}

#[test]
fn old_calls_stop(rt: HostRuntime) {
    run(&rt, rt.alloc(), &[1, 65536], STOPPED);
}
