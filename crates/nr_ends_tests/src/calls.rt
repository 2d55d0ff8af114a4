//! Calls of several forms through both ends, in pieces of several lengths, and what goes back of calls that were not answered.

use crate::compare::same;
use crate::link::TestLink;
use crate::script::{rows, run, run_lines};
use nr_requester::{Remains, Requester};
use std::alloc::Global;
use std::process::Abort;

/// Calls, one a line. The file has handle 2. A reply of 300 words of results has 1,224 bytes, more than a Send.
pub static CALLS: &str = "\
exchange auto 0 : ; = Inline\n\
exchange inline 1 : 8 0 2 ; 46 = Inline\n\
# The data goes by a write chunk.\n\
exchange chunk 6 : 8 0 2 0 0 5 ; 0 0 5 1 5 68656c6c 6f000000 = Inline\n\
# A write chunk that is one byte too short.\n\
exchange 72/-/4/- 6 : 8 0 2 0 0 5 ; 0 0 5 1 5 68656c6c 6f000000 = Chunk\n\
exchange 72/-/3,2/- 6 : 8 0 2 0 0 5 ; 0 0 5 1 5 68656c6c 6f000000 = Inline\n\
# The data goes by a read chunk, of one segment and of nine.\n\
exchange chunk 7 : 8 0 2 0 0 9 2 9 61626364 65666768 69000000 ; 46 = Inline\n\
exchange 72/1,1,1,1,1,1,1,1,1/-/- 7 : 8 0 2 0 0 9 2 9 61626364 65666768 69000000 ; 46 = Inline\n\
# All of the call goes by a read chunk at position 0.\n\
exchange long 1 : 8 0 2 ; 46 = Inline\n\
exchange 72/-/-/4,4,4,4,4,4,4,4,4,4,4,4,4,4,4,4 1 : 8 0 2 ; 46 = Inline\n\
# A reply chunk of 16 segments, and two that hold the reply, or all but one byte of it.\n\
exchange 72/-/-/77,77,77,77,77,77,77,77,77,77,77,77,77,77,77,77 1 : 8 0 2 ; 7*300 = Long\n\
exchange 72/-/-/1224 1 : 8 0 2 ; 7*300 = Long\n\
exchange 72/-/-/1223 1 : 8 0 2 ; 7*300 = Chunk\n\
";

/// Both ends after their hellos.
static BEGIN: &str = "up\ndown\ncounts = [0, 1, 0, 0, 0, 2]\n";

/// At the end both keep at most 5,242,880 bytes for each credit and four more.
static END: &str = "counts = [0, 16, 0, 0, 0, 2]\nholds-at-most 104857600 = true\n";

#[test]
fn calls_are_answered(rt: HostRuntime) {
    for size in [1, 7, 65536] {
        let mut link = TestLink::open(&rt, rt.alloc(), 16);
        for script in [BEGIN, CALLS, END] {
            run_lines(&rt, rt.alloc(), &mut link, size, script);
        }
        link.close();
    }
}

/// A WRITE of 5 bytes into the file with handle 2 (RFC 1813 section 3.3.7), of which something is read: while it is, the server keeps this many
/// bytes. The data goes by a read chunk, of which the server keeps a buffer for the stream of 72 bytes, the data and a pad; if all of the call goes
/// by one, its 80 bytes, and a room for these and a pad. Beside them it keeps the staging buffer, 16 receives and a Read Request, and an item in
/// the lists of calls, of Read Requests and of sinks: 65544 + 16 * 1024 + 52 + 184 + 40 + 32.
static KEPT: &str = "\
up\n\
down\n\
submit chunk 7 : 8 0 2 0 0 5 2 5 68656c6c 6f000000\n\
up\n\
server-held = 82316\n\
down\n\
up\n\
executes : 1 1 0*4 46 ; 1 0 2 186a3 3 7 0*4 8 0 2 0 0 5 2 5 68656c6c 6f000000 = Inline\n\
down\n\
submit long 7 : 8 0 2 0 0 5 2 5 68656c6c 6f000000\n\
up\n\
server-held = 82399\n\
down\n\
up\n\
executes : 2 1 0*4 46 ; 2 0 2 186a3 3 7 0*4 8 0 2 0 0 5 2 5 68656c6c 6f000000 = Inline\n\
down\n\
counts = [0, 16, 0, 0, 0, 2]\n\
";

static STAGED: &str = "\
# Of a frame that isn't complete 91 bytes are staged, and of the next one ten.\n\
open 1\n\
feed-up : hello 10000\n\
feed-up : 564143 0 0 1 0 1 1 10 0*4 1 0 2 186a3 3 0*5 .0*3\n\
counts = [0, 1, 0, 0, 91, 1]\n\
staged : ; 564143 0 0 1 0 1 1 10 0*4 1 0 2 186a3 3 0*5 .0*3\n\
feed-up : .0 564143 0 .0*2\n\
counts = [0, 1, 1, 1, 10, 82]\n\
# Of a reply 27 bytes. The client end has made four marks: a call, a Wrote and two pieces.\n\
open 1\n\
submit auto 0 :\n\
client-writes : hello 10000\n\
feed-down : hello-back 10000\n\
feed-down : 464143 0 0 1 0 1 .0*3\n\
staged : 464143 0 0 1 0 1 .0*3 ;\n\
marks = 4\n\
";

static DRAINED: &str = "\
# What a sink did not take is written later: none of a hello and a call, or the hello alone was taken.\n\
open 16\n\
submit auto 0 :\n\
feed-down : hello-back 10000\n\
client-fails 0 0 : hello 10000 564143 0 0 1 0 1 1 10 0*4 1 0 2 186a3 3 0*6\n\
# The same of the server's hello and reply.\n\
open 16\n\
feed-up : hello 10000 564143 0 0 1 0 1 1 10 0*4 1 0 2 186a3 3 0*6\n\
answer : 1 1 0*4 = (40, Inline)\n\
server-fails 0 0 : hello-back 10000 464143 0 0 1 0 1 1 10 0*4 1 1 0*5\n\
counts = [0, 1, 0, 0, 0, 2]\n\
# What a sink did not take is written later: none of a hello and a call, or the hello alone was taken.\n\
open 16\n\
submit auto 0 :\n\
feed-down : hello-back 10000\n\
client-fails 1 20 : hello 10000 564143 0 0 1 0 1 1 10 0*4 1 0 2 186a3 3 0*6\n\
# The same of the server's hello and reply.\n\
open 16\n\
feed-up : hello 10000 564143 0 0 1 0 1 1 10 0*4 1 0 2 186a3 3 0*6\n\
answer : 1 1 0*4 = (40, Inline)\n\
server-fails 1 20 : hello-back 10000 464143 0 0 1 0 1 1 10 0*4 1 1 0*5\n\
counts = [0, 1, 0, 0, 0, 2]\n\
";

#[test]
fn bytes_are_kept(rt: HostRuntime) {
    run(&rt, rt.alloc(), &[65536], KEPT);
    run(&rt, rt.alloc(), &[65536], STAGED);
    run(&rt, rt.alloc(), &[65536], DRAINED);
}

/// A NULL call is answered with a credit word.
static GRANTED: &str = "\
up\n\
down\n\
submit auto 0 :\n\
up\n\
feed-down : 464143 0 0 1 0 1 1 $0$ 0*4 1 1 0*5\n\
counts = [0, $1$, 1, 1, 0, 2]\n\
";

/// The credit word of a reply, and the credits that it grants.
static GRANTS: &str = "\
0 | 1\n\
1 | 1\n\
40 | 64\n\
41 | 64\n\
";

#[test]
fn credits_are_granted(rt: HostRuntime) {
    rows(&rt, rt.alloc(), &[65536], GRANTED, GRANTS);
}

/// A call is answered, and two are not.
static AWAITING: &str = "\
up\n\
down\n\
exchange auto 0 : ; = Inline\n\
submit auto 1 : 8 0 2\n\
submit chunk 6 : 8 0 2 0 0 5\n\
";

/// The procedures of the calls that go back in order, and whether each has a buffer for a write chunk.
static LEFT: [(u32, bool); 2] = [(1, false), (6, true)];

/// A client end that awaits the answers to two calls.
fn awaiting(rt: &impl Abort, alloc: Global) -> Requester {
    let mut link = TestLink::open(rt, alloc, 16);
    run_lines(rt, alloc, &mut link, 65536, AWAITING);
    link.into_client()
}

/// The procedure of the next call that goes back, and whether it has a buffer for a write chunk.
fn next_back(remains: &mut Remains) -> Option<(u32, bool)> {
    let (call, buffers) = remains.next()?;
    Some((call.proc, buffers.write.is_some()))
}

/// A client end that is taken apart gives back what was not taken.
#[test]
fn calls_go_back(rt: HostRuntime) {
    let mut remains = awaiting(&rt, rt.alloc()).dismantle();
    for (row, (proc, writes)) in LEFT.iter().enumerate() {
        same(&rt, row, next_back(&mut remains), Some((*proc, *writes)));
    }
    same(&rt, 2, next_back(&mut remains), None);
}
