//! Calls that are given up, and their replies, which come later.

use crate::script::run;

static LATE_REPLIES: &str = "\
# A READ that is forgotten: its data is still placed, and its reply is dropped.\n\
open 16\n\
up\n\
down\n\
forget chunk 6 : 8 0 2 0 0 5\n\
answer : 1 1 0*4 0 0 5 1 5 68656c6c 6f000000 = (64, Inline)\n\
counts = [1, 1, 0, 1, 0, 2]\n\
# The RDMA Write of `hello` of 28 bytes, and a Send of a header of 52 bytes and a stream of 44.\n\
down-bytes = 148\n\
counts = [0, 16, 0, 0, 0, 2]\n\
ends = (None, None)\n\
exchange chunk 6 : 8 0 2 0 0 5 ; 0 0 5 1 5 68656c6c 6f000000 = Inline\n\
# A NULL call that is revoked: its reply is dropped.\n\
open 16\n\
up\n\
down\n\
revoke auto 0 0 0 :\n\
up\n\
answer : 1 1 0*4 = (40, Inline)\n\
counts = [1, 1, 0, 1, 0, 2]\n\
down\n\
counts = [0, 16, 0, 0, 0, 2]\n\
exchange chunk 6 : 8 0 2 0 0 5 ; 0 0 5 1 5 68656c6c 6f000000 = Inline\n\
# A READ that is revoked after its answer was queued: its buffer goes back as it was registered, and its data, which comes then, ends the link.\n\
open 16\n\
up\n\
down\n\
revoke chunk 6 0 2 : 8 0 2 0 0 5 ; .0*5\n\
down-ends = Denied { stag: 1, offset: 0, why: NoStag }\n\
counts = [1, 1, 0, 0, 0, 2]\n\
ends = (Some(Denied { stag: 1, offset: 0, why: NoStag }), None)\n\
";

#[test]
fn late_replies(rt: HostRuntime) {
    run(&rt, rt.alloc(), &[1, 65536], LATE_REPLIES);
}
