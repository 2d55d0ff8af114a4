//! A session that looks a name up.

use crate::compare::same;
use crate::runs::{dialer, same_sent};
use nr_client::{Link, Session};
use nr_links::{Counted, NumberedSink, NumberedSource};
use nr_nfs_base::{Handle, Name};
use nr_outside::{MemSink, MemSource};
use std::alloc::Global;
use std::marker::Brand;
use std::process::Abort;

/// The first session over a new dialer.
type FirstSession = Session<
    Link<NumberedSource<Counted<MemSource>, Brand>, NumberedSink<Counted<MemSink>, Brand>>,
>;

/// A client of two units says them in private data of its hello, which is own. LOOKUP of `a` in file 1 is the first call.
static SENT: &str = "\
4d504120494420526571204672616d65000100084e52303101000101 \
0086414300000000000000000000000100000000000000010000000100000010000000000000000000000000000000000000000100000000\
00000002000186a30000000300000003000000010000001c00000000000000076e667372646d610000000000000000000000000000000000\
00000000000000080000000000000001000000016100000000000000\n\
";

/// Its reply has file 2.
pub(crate) static RECEIVED: &str = "\
server-hello \
0106414300000000000000000000000100000000000000010000000100000010000000000000000000000000000000000000000100000001\
00000000000000000000000000000000000000000000000800000000000000020000000100000001000001a4000000010000000000000000\
0000000000000005000000000000000500000000000000000000000000000001000000000000000200000001000000020000000100000002\
00000001000000020000000100000002000001ff000000020000000000000000000000000000000000000000000000000000000000000000\
0000000000000001000000000000000100000001000000020000000100000002000000010000000200000000\n\
";

/// Looks a name up in the root, and gives the length of the handle.
fn found(rt: &impl Abort, alloc: Global, session: &mut FirstSession) -> usize {
    let root = Handle::from_slice(alloc, &[0, 0, 0, 0, 0, 0, 0, 1]).expect(rt, "memory");
    let name = Name::from_slice(alloc, b"a").expect(rt, "memory");
    match session.look_up(&root, &name) {
        Ok(found) => found.object.as_slice().len(),
        Err(_) => 0,
    }
}

#[test]
fn a_name_that_is_looked_up(rt: HostRuntime) {
    let mut dial = dialer(&rt, rt.alloc(), RECEIVED, "");
    let Ok(mut session) = FirstSession::open(rt.alloc(), &mut dial, "here", 0, 0, 2, false) else {
        panic!(rt; "no session")
    };
    let len = found(&rt, rt.alloc(), &mut session);
    session.close(&mut dial);
    same(&rt, 0, len, 8);
    same_sent(&rt, rt.alloc(), 1, dial.ended().last(), SENT);
}
