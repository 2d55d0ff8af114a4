//! The first xid of a client, and its last.

use crate::compare::same;
use crate::link::TestLink;
use crate::script::{run, run_lines};
use crate::words::call;
use nr_reduce::{Form, Refused};
use std::alloc::Global;
use std::process::Abort;

/// The first xid is the one that was asked for: that of the call that is forgotten.
static FIRST: &str = "\
open-at 7 3 1\n\
forget auto 0 :\n\
counts = [1, 1, 0, 0, 0, 2]\n\
ends = (None, None)\n\
";

/// The call with the last xid.
static LAST: &str = "\
open-at 4294967295 1 4\n\
up\n\
down\n\
exchange auto 0 : ; = Inline\n\
";

/// A call is refused, since no xid is left.
fn no_xid_is_left(rt: &impl Abort, alloc: Global, link: &mut TestLink) {
    match link.refusal(call(rt, alloc, 0, &[]), Form::Auto) {
        Some(Refused::Spent { left, need }) => same(rt, 0, (left, need), (0, 1)),
        _ => panic!(rt; "not refused as spent"),
    }
}

#[test]
fn xids_begin_and_end(rt: HostRuntime) {
    run(&rt, rt.alloc(), &[65536], FIRST);
    let mut link = TestLink::open(&rt, rt.alloc(), 16);
    run_lines(&rt, rt.alloc(), &mut link, 65536, LAST);
    no_xid_is_left(&rt, rt.alloc(), &mut link);
    link.close();
}
