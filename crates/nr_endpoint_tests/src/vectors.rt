//! FPDUs spelled out in words, written by one side and fed to the other.

use crate::script::{both, rows};
use nr_wire::Side;

/// A message is sent in two parts, the fixed words of its header and the rest, and is received.
static SENT: &str = "\
open 1 0 0\n\
feed : peer-key 10000\n\
writes : own-key 10000\n\
send-parts 16 : $0$\n\
writes : $1$\n\
sends-left = 1\n\
open 1 0 0\n\
feed : peer-key 10000\n\
writes : own-key 10000\n\
feed : $1$\n\
message : $0$ = (1024, $2$)\n\
event = None\n\
rests :\n\
";

/// A message of a first Send, the words of its FPDU, and its length.
static SENDS: &str = "\
# A NULL call.\n\
1 1 10 0 0 0 0 1 0 2 186a3 3 0*5 | 564143 0 0 1 0 1 1 10 0 0 0 0 1 0 2 186a3 3 0*6 | 68\n\
# Its reply.\n\
1 1 10 0 0 0 0 1 1 0*4 | 464143 0 0 1 0 1 1 10 0 0 0 0 1 1 0*5 | 52\n\
# ERR_CHUNK.\n\
1 1 10 4 2 | 264143 0 0 1 0 1 1 10 4 2 0 | 20\n\
# The header of a reply with a write chunk of one segment (RFC 8166 section 4.1).\n\
1 1 10 0 0 1 1 1 5 0*4 | 464143 0 0 1 0 1 1 10 0 0 1 1 1 5 0*5 | 52\n\
";

#[test]
fn sends(rt: HostRuntime) {
    for side in [Side::Initiator, Side::Responder] {
        rows(&rt, rt.alloc(), side, &[1000, 1], SENT, SENDS);
    }
}

/// A Write of `hello`, a Read Request of five bytes, its response `HELLO`, and a Terminate with reason 5.
static ACCESSES: &str = "\
# The Write is fed, and goes into a region of seven bytes. After the release it is denied.\n\
open 1 0 0\n\
feed : peer-key 10000\n\
writes : own-key 10000\n\
fill : '1234567 = 1\n\
feed : 13c140 1 0 0 68656c6c 6f000000 0\n\
event = None\n\
bytes-held = 7\n\
release : 'hello67\n\
feed : 13c140 1 0 0 68656c6c 6f000000 0 = Denied { stag: 1, offset: 0, why: NoStag }\n\
# When the message of a Send after it is delivered, it was placed.\n\
open 1 0 0\n\
feed : peer-key 10000\n\
writes : own-key 10000\n\
fill : '12345 = 1\n\
feed : 13c140 1 0 0 68656c6c 6f000000 0 224143 0 0 1 0 3 1 10 0 0\n\
message : 3 1 10 0 = (1024, 16)\n\
event = None\n\
release : 'hello\n\
# The Write is sent.\n\
open 1 0 0\n\
feed : peer-key 10000\n\
writes : own-key 10000\n\
write 1 0 : 'hello\n\
rests : 13c140 1 0 0 68656c6c 6f000000 0\n\
sends-left = 0\n\
# The Read Request is sent, and answered.\n\
open 1 0 0\n\
feed : peer-key 10000\n\
writes : own-key 10000\n\
sink : '12345 = 1\n\
read 0 1 0 5\n\
rests : 2e4141 0 1 1 0 1 0 0 5 1 0*3\n\
feed : 13c142 1 0 0 48454c4c 4f000000 0\n\
event = Some((0, None))\n\
release : 'HELLO\n\
# The Read Request is fed. The response has the bytes as they stood.\n\
open 1 0 0\n\
feed : peer-key 10000\n\
writes : own-key 10000\n\
fetch : 'HELLO = 1\n\
feed : 2e4141 0 1 1 0 1 0 0 5 1 0*3\n\
release : 'HELLO\n\
rests : 13c142 1 0 0 48454c4c 4f000000 0\n\
# A Terminate is written for a frame that is too short.\n\
open 1 0 0\n\
feed : peer-key 10000\n\
writes : own-key 10000\n\
feed : 54143 0 0 = Bad { at: 20, reason: 5 }\n\
rests : 164147 0 2 1 0 5 0 = Bad { at: 20, reason: 5 }\n\
# It is fed.\n\
open 1 0 0\n\
feed : peer-key 10000\n\
writes : own-key 10000\n\
feed : 164147 0 2 1 0 5 0 = Terminated { reason: 5 }\n\
rests : = Terminated { reason: 5 }\n\
";

#[test]
fn writes_and_reads(rt: HostRuntime) {
    both(&rt, rt.alloc(), &[1000, 68, 1], ACCESSES);
}
