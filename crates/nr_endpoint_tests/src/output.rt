//! What is queued, and how it is handed on.

use crate::script::{Setting, both, rows, run};
use nr_wire::Side;

static QUEUED: &str = "\
# Eight Read Requests are open; once a response is complete, there is room for one more.\n\
open 1 0 0\n\
feed : peer-key 10000\n\
writes : own-key 10000\n\
sink : '1234 = 1\n\
read 0 9 16 4\n\
read 0 9 16 4\n\
read 0 9 16 4\n\
read 0 9 16 4\n\
read 0 9 16 4\n\
read 0 9 16 4\n\
read 0 9 16 4\n\
read 0 9 16 4\n\
read 0 9 16 4 = Full { reads: 8 }\n\
writes : 2e4141 0 1 1 0 1 0 0 4 9 0 10 0 2e4141 0 1 2 0 1 0 0 4 9 0 10 0 2e4141 0 1 3 0 1 0 0 4 9 0 10 0 2e4141 0 1 4 0 1 0 0 4 9 0 10 0 2e4141 0 1 5 0 1 0 0 4 9 0 10 0 2e4141 0 1 6 0 1 0 0 4 9 0 10 0 2e4141 0 1 7 0 1 0 0 4 9 0 10 0 2e4141 0 1 8 0 1 0 0 4 9 0 10 0\n\
feed : 12c142 1 0 0 61626364 0\n\
read 0 9 16 4\n\
read 0 9 16 4 = Full { reads: 8 }\n\
writes : 2e4141 0 1 9 0 1 0 0 4 9 0 10 0\n\
# Eight responses are owed until they are completely written. After that a ninth Read Request is answered.\n\
open 1 0 0\n\
feed : peer-key 10000\n\
writes : own-key 10000\n\
fetch : 'hello = 1\n\
feed : 2e4141 0 1 1 0 7 0 0 4 1 0*3 2e4141 0 1 2 0 7 0 0 4 1 0*3 2e4141 0 1 3 0 7 0 0 4 1 0*3 2e4141 0 1 4 0 7 0 0 4 1 0*3 2e4141 0 1 5 0 7 0 0 4 1 0*3 2e4141 0 1 6 0 7 0 0 4 1 0*3 2e4141 0 1 7 0 7 0 0 4 1 0*3 2e4141 0 1 8 0 7 0 0 4 1 0*3\n\
writes : 12c142 7 0 0 68656c6c 0 12c142 7 0 0 68656c6c 0 12c142 7 0 0 68656c6c 0 12c142 7 0 0 68656c6c 0 12c142 7 0 0 68656c6c 0 12c142 7 0 0 68656c6c 0 12c142 7 0 0 68656c6c 0 12c142 7 0 0 68656c6c 0\n\
feed : 2e4141 0 1 9 0 7 0 0 4 1 0*3\n\
rests : 12c142 7 0 0 68656c6c 0\n\
# Until then it ends the side, at byte 20 + 8 * 52.\n\
open 1 0 0\n\
feed : peer-key 10000\n\
writes : own-key 10000\n\
fetch : 'hello = 1\n\
feed : 2e4141 0 1 1 0 7 0 0 4 1 0*3 2e4141 0 1 2 0 7 0 0 4 1 0*3 2e4141 0 1 3 0 7 0 0 4 1 0*3 2e4141 0 1 4 0 7 0 0 4 1 0*3 2e4141 0 1 5 0 7 0 0 4 1 0*3 2e4141 0 1 6 0 7 0 0 4 1 0*3 2e4141 0 1 7 0 7 0 0 4 1 0*3 2e4141 0 1 8 0 7 0 0 4 1 0*3\n\
feed : 2e4141 0 1 9 0 7 0 0 4 1 0*3 = Bad { at: 436, reason: 15 }\n\
rests : 12c142 7 0 0 68656c6c 0 12c142 7 0 0 68656c6c 0 12c142 7 0 0 68656c6c 0 12c142 7 0 0 68656c6c 0 12c142 7 0 0 68656c6c 0 12c142 7 0 0 68656c6c 0 12c142 7 0 0 68656c6c 0 12c142 7 0 0 68656c6c 0 164147 0 2 1 0 f 0 = Bad { at: 436, reason: 15 }\n\
# A Write of 4097 bytes is cut into two segments, and a Send of none is one.\n\
open 1 0 0\n\
feed : peer-key 10000\n\
writes : own-key 10000\n\
write 7 18446744073709547519 : .0*4097\n\
send :\n\
writes : 100e8140 7 ffffffff ffffefff 0*1025 fc140 7 ffffffff ffffffff 0*2 124143 0 0 1 0 0\n\
";

#[test]
fn queued(rt: HostRuntime) {
    both(&rt, rt.alloc(), &[52, 1], QUEUED);
}

/// A Read Request of five bytes, to byte 2 of region 1 of eight, is answered.
static ANSWERED: &str = "\
open 1 0 0\n\
feed : peer-key 10000\n\
writes : own-key 10000\n\
sink : '12345678 = 1\n\
read 2 7 16 5\n\
writes : 2e4141 0 1 1 0 1 0 2 5 7 0 10 0\n\
feed : $0$\n\
rests :\n\
event = Some((0, None))\n\
release : '12HELLO8\n\
";

static RESPONSES: &str = "\
# In one segment; in two; in two, the first of them without bytes.\n\
13c142 1 0 2 48454c4c 4f000000 0\n\
118142 1 0 2 48454c00 0 10c142 1 0 5 4c4f0000 0\n\
e8142 1 0 2 0 13c142 1 0 2 48454c4c 4f000000 0\n\
";

/// It ends the side, by this reason.
static REFUSED: &str = "\
open 1 0 0\n\
feed : peer-key 10000\n\
writes : own-key 10000\n\
sink : '12345678 = 1\n\
read 2 7 16 5\n\
writes : 2e4141 0 1 1 0 1 0 2 5 7 0 10 0\n\
feed : $0$ = $1$\n\
rests : $2$ = $1$\n\
";

static BAD_RESPONSES: &str = "\
# Not at the next byte: one later, one earlier, and again.\n\
13c142 1 0 3 48454c4c 4f000000 0 | Bad { at: 20, reason: 14 } | 164147 0 2 1 0 e 0\n\
13c142 1 0 1 48454c4c 4f000000 0 | Bad { at: 20, reason: 14 } | 164147 0 2 1 0 e 0\n\
118142 1 0 2 48454c00 0 10c142 1 0 2 4c4f0000 0 | Bad { at: 44, reason: 14 } | 164147 0 2 1 0 e 0\n\
# Past its size, within the region.\n\
14c142 1 0 2 48454c4c 4f210000 0 | Bad { at: 20, reason: 14 } | 164147 0 2 1 0 e 0\n\
# Not the last segment at its end, and the last one before.\n\
138142 1 0 2 48454c4c 4f000000 0 | Bad { at: 20, reason: 14 } | 164147 0 2 1 0 e 0\n\
12c142 1 0 2 48454c4c 0 | Bad { at: 20, reason: 14 } | 164147 0 2 1 0 e 0\n\
ec142 1 0 2 0 | Bad { at: 20, reason: 14 } | 164147 0 2 1 0 e 0\n\
# Once more.\n\
13c142 1 0 2 48454c4c 4f000000 0 ec142 1 0 7 0 | Bad { at: 48, reason: 14 } | 164147 0 2 1 0 e 0\n\
";

#[test]
fn responses(rt: HostRuntime) {
    for side in [Side::Initiator, Side::Responder] {
        rows(&rt, rt.alloc(), side, &[1000], ANSWERED, RESPONSES);
        rows(&rt, rt.alloc(), side, &[1000], REFUSED, BAD_RESPONSES);
    }
}

/// Two Sends are queued before the peer's hello comes. Before it, only an initiator's hello is written.
static INITIATOR: &str = "\
open 1 0 0\n\
send : 1*4\n\
send : 1*4\n\
writes : own-key 10000\n\
feed : peer-key 10000\n\
sends-left = 0\n\
writes : 224143 0 0 1 0 1*4 0 224143 0 0 2 0 1*4 0\n\
sends-left = 2\n\
";

static RESPONDER: &str = "\
open 1 0 0\n\
send : 1*4\n\
send : 1*4\n\
writes :\n\
feed : peer-key 10000\n\
sends-left = 0\n\
writes : own-key 10000 224143 0 0 1 0 1*4 0 224143 0 0 2 0 1*4 0\n\
sends-left = 2\n\
";

/// What a sink took is a part of the hello and two Sends, and the rest comes next.
static DRAINED: &str = "\
# A sink that fails at its first or second write.\n\
open 1 0 0\n\
send : 1*4\n\
send : 1*4\n\
feed : peer-key 10000\n\
fails 0 : own-key 10000 224143 0 0 1 0 1*4 0 224143 0 0 2 0 1*4 0\n\
sends-left = 2\n\
open 1 0 0\n\
send : 1*4\n\
send : 1*4\n\
feed : peer-key 10000\n\
fails 1 : own-key 10000 224143 0 0 1 0 1*4 0 224143 0 0 2 0 1*4 0\n\
sends-left = 2\n\
# A sink that takes five bytes a call, and fails at one.\n\
open 1 0 0\n\
send : 1*4\n\
send : 1*4\n\
feed : peer-key 10000\n\
takes 0 0 : own-key 10000 224143 0 0 1 0 1*4 0 224143 0 0 2 0 1*4 0\n\
sends-left = 2\n\
open 1 0 0\n\
send : 1*4\n\
send : 1*4\n\
feed : peer-key 10000\n\
takes 3 15 : own-key 10000 224143 0 0 1 0 1*4 0 224143 0 0 2 0 1*4 0\n\
sends-left = 2\n\
open 1 0 0\n\
send : 1*4\n\
send : 1*4\n\
feed : peer-key 10000\n\
takes 6 30 : own-key 10000 224143 0 0 1 0 1*4 0 224143 0 0 2 0 1*4 0\n\
sends-left = 2\n\
";

#[test]
fn drained(rt: HostRuntime) {
    for (side, script) in [(Side::Initiator, INITIATOR), (Side::Responder, RESPONDER)] {
        run(&rt, rt.alloc(), Setting { side, piece: 1000 }, script);
    }
    both(&rt, rt.alloc(), &[1000], DRAINED);
}
