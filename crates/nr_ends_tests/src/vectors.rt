//! FPDUs spelled out in words, fed to both ends and written by them: a READ of `hello` through a write chunk, a WRITE of `HELLO` through a
//! read chunk, and a Terminate.

use crate::calling::{form, is_answered};
use crate::compare::same;
use crate::link::TestLink;
use crate::script::run;
use crate::words::{bytes_of, call};
use nr_responder::Sent;
use std::alloc::Global;
use std::process::Abort;

static VECTORS: &str = "\
# The server is fed the READ (RFC 8166 section 4.1): a write chunk of five bytes. Its reply has 136 bytes (RFC 1813 section 3.3.6): an RDMA Write,\n\
# and a Send whose stream lacks the data.\n\
open 16\n\
feed-up : hello 10000 864143 0 0 1 0 1 1 10 0 0 1*3 5 0*4 1 0 2 186a3 3 6 0*4 8 0 2 0 0 5 0\n\
answer : 1 1 0*5 1 1 1b6 1 0*3 5 0 5 0*3 1 0 2 0*6 5 1 5 68656c6c 6f000000 = (64, Inline)\n\
server-writes : hello-back 10000 13c140 1 0 0 68656c6c 6f000000 0 c64143 0 0 1 0 1 1 10 0 0 1*3 5 0*4 1 1 0*5 1 1 1b6 1 0*3 5 0 5 0*3 1 0 2 0*6 5 1 5 0\n\
# The server is fed the WRITE, with a read chunk of five bytes at byte 72, and reads its data.\n\
open 16\n\
feed-up : hello 10000 8e4143 0 0 1 0 1 1 10 0 1 48 1 5 0*5 1 0 2 186a3 3 7 0*4 8 0 2 0 0 5 2 5 0\n\
server-writes : hello-back 10000 2e4141 0 1 1 0 1 0 0 5 1 0*3\n\
feed-up : 13c142 1 0 0 48454c4c 4f000000 0\n\
executes : 0*6 ; 5 48454c4c 4f000000 = Inline\n\
# The server ends for an FPDU without a segment header.\n\
open 16\n\
feed-up : hello 10000 54143 0 0 = Bad { at: 20, reason: 5 }\n\
server-writes : hello-back 10000 164147 0 2 1 0 5 0\n\
# The client submits the WRITE, and its memory is read; and it ends for such a frame.\n\
open 16\n\
submit 72/5/-/- 7 : 8 0 2 0 0 5 2 5 48454c4c 4f000000\n\
feed-down : hello-back 10000\n\
client-writes : hello 10000 8e4143 0 0 1 0 1 1 10 0 1 48 1 5 0*5 1 0 2 186a3 3 7 0*4 8 0 2 0 0 5 2 5 0\n\
feed-down : 2e4141 0 1 1 0 1 0 0 5 1 0*3\n\
client-writes : 13c142 1 0 0 48454c4c 4f000000 0\n\
feed-down : 54143 0 0 = Bad { at: 72, reason: 5 }\n\
client-writes : 164147 0 2 1 0 5 0\n\
";

/// The client's hello and the Send of the READ.
static READ_SENT: &str = "\
hello 10000 864143 0 0 1 0 1 1 10 0 0 1*3 5 0*4 1 0 2 186a3 3 6 0*4 8 0 2 0 0 5 0\n\
";

/// The answer.
static READ_ANSWER: &str = "\
13c140 1 0 0 68656c6c 6f000000 0 c64143 0 0 1 0 1 1 10 0 0 1*3 5 0*4 1 1 0*5 1 1 1b6 1 0*3 5 0 5 0*3 1 0 2 0*6 5 1 5 0\n\
";

/// The reply.
static READ_REPLY: &str = "\
1 1 0*5 1 1 1b6 1 0*3 5 0 5 0*3 1 0 2 0*6 5 1 5 68656c6c 6f000000\n\
";

/// The client submits the READ, and takes its answer, fed in pieces of this length.
fn client_reads(rt: &impl Abort, alloc: Global, size: usize) {
    let mut link = TestLink::open(rt, alloc, 16);
    let args = bytes_of(rt, alloc, "8 0 2 0 0 5");
    let asked = call(rt, alloc, 6, args.as_slice());
    let ticket = link.submit(rt, asked, form(rt, alloc, "72/-/5/-"));
    let hello = bytes_of(rt, alloc, "hello-back 10000");
    same(rt, 0, link.pieces_down(rt, hello.as_slice(), size), Ok(()));
    let sent = bytes_of(rt, alloc, READ_SENT);
    link.client_writes(rt, alloc, 1, sent.as_slice());
    let answer = bytes_of(rt, alloc, READ_ANSWER);
    same(rt, 2, link.pieces_down(rt, answer.as_slice(), size), Ok(()));
    let reply = bytes_of(rt, alloc, READ_REPLY);
    is_answered(rt, 3, &link.take(ticket), reply.as_slice(), Sent::Inline);
    link.close();
}

#[test]
fn vectors(rt: HostRuntime) {
    run(&rt, rt.alloc(), &[1, 65536], VECTORS);
    for size in [1, 65536] {
        client_reads(&rt, rt.alloc(), size);
    }
}
