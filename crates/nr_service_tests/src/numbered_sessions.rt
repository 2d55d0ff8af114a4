//! A session of a client with a number, whose link is lost and dialled again.

ghost use Rattle.std.specs.Prelude.{◌≤◌};

use crate::compare::same;
use crate::runs::{plan, same_sent};
use crate::sessions::RECEIVED;
use nr_client::{CallEnd, ClientEnd, Session};
use nr_links::{LinkPlan, MemDialer};
use nr_nfs_base::{Handle, Name};
use std::alloc::Global;
use std::process::Abort;
use std::sync::Wait;

/// What a complete link takes: a hello of two units whose private data has the number 5, and LOOKUP of `a` in file 1 under XID 1.
static SENT: &str = "\
4d504120494420526571204672616d65000100104e523031010101010000000000000005 \
0086414300000000000000000000000100000000000000010000000100000010000000000000000000000000000000000000000100000000\
00000002000186a30000000300000003000000010000001c00000000000000076e667372646d610000000000000000000000000000000000\
00000000000000080000000000000001000000016100000000000000\n\
";

/// How many bytes the server sends: its hello, and the reply.
const LEN: usize = 288;

/// What a lookup gives: a handle of so many bytes, or why there is none.
#[derive(Clone, Copy, PartialEq, Debug, Drop)]
enum Found {
    Handle(usize),
    Tries,
    DialFault,
    Other,
}

/// A link over which at most so many bytes come.
fn cut(rt: &impl Abort, alloc: Global, most: usize) -> LinkPlan {
    let mut plan = plan(rt, alloc, RECEIVED, "");
    plan.bytes.truncate(most);
    plan
}

/// A dialer of links over which at most so many bytes come, whose dials fail that have these numbers.
fn dialer(rt: &impl Abort, alloc: Global, lens: &[usize], failing: &[usize]) -> MemDialer {
    let mut plans = Vec::new(alloc);
    for most in lens {
        plans.push(cut(rt, alloc, *most)).expect(rt, "memory");
    }
    MemDialer::new(alloc, plans, failing.to_vec(alloc).expect(rt, "memory"))
}

/// Looks a name up in the root by a session of the client 5, and gives the dialer back.
fn look_up(
    rt: &(impl Abort + Wait),
    alloc: Global,
    dialer: MemDialer,
    tries: u32,
) -> (Found, MemDialer)
    requires { tries ≤ 16 }
{
    let root = Handle::from_slice(alloc, &[0, 0, 0, 0, 0, 0, 0, 1]).expect(rt, "memory");
    let name = Name::from_slice(alloc, b"a").expect(rt, "memory");
    let Ok(mut session) = Session::open_numbered(
        rt, alloc, dialer, "here", 0, 0, 5, tries, 2, false,
    ) else {
        panic!(rt; "no session")
    };
    let found = match session.look_up(&root, &name) {
        Ok(found) => Found::Handle(found.object.as_slice().len()),
        Err(ClientEnd::Link(CallEnd::Tries { .. })) => Found::Tries,
        Err(ClientEnd::Link(CallEnd::DialFault)) => Found::DialFault,
        Err(_) => Found::Other,
    };
    (found, session.close())
}

#[test]
fn a_link_that_is_lost_at_each_byte(rt: HostRuntime) {
    for most in 0..LEN {
        let dialer = dialer(&rt, rt.alloc(), &[most, LEN], &[]);
        let (found, dialer) = look_up(&rt, rt.alloc(), dialer, 1);
        same(&rt, most, found, Found::Handle(8));
        same(&rt, most, dialer.ended().len(), 2);
        same_sent(&rt, rt.alloc(), most, dialer.ended().last(), SENT);
    }
}

#[test]
fn a_link_that_stays(rt: HostRuntime) {
    let dialer = dialer(&rt, rt.alloc(), &[LEN, LEN], &[]);
    let (found, dialer) = look_up(&rt, rt.alloc(), dialer, 16);
    same(&rt, 0, found, Found::Handle(8));
    same(&rt, 0, dialer.ended().len(), 1);
    same_sent(&rt, rt.alloc(), 0, dialer.ended().last(), SENT);
}

#[test]
fn no_link_is_left(rt: HostRuntime) {
    // The tries, the dials that fail, and what is found: the first link ends before the server's hello.
    let rows: [(u32, &[usize], Found); 2] = [(0, &[], Found::Tries), (16, &[1], Found::DialFault)];
    for (row, (tries, failing, want)) in rows.into_iter().enumerate() {
        let dialer = dialer(&rt, rt.alloc(), &[0, LEN], failing);
        let (found, dialer) = look_up(&rt, rt.alloc(), dialer, tries.min(16));
        same(&rt, row, found, want);
        same(&rt, row, dialer.ended().len(), 1);
    }
}
