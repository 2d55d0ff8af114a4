//! Tests of `nr_shared`: NULL calls of a shared requester, over a source and a sink in memory.

ghost use Rattle.nr_shared.specs.Callers.{HasOpenCall};
ghost use Rattle.nr_shared.specs.Sharing.{SharedRests};

use crate::callers::{called, called_beside_a_read, looked, revoked};
use crate::compare::same;
use crate::held::Peer;
use crate::sharing::{
    Answer, Caller, Link, Shared, answer_of, append_words, good, null, share, share_beside,
};
use nr_outside::Source;
use nr_reduce::Form;
use nr_requester::{Done, Take, Ticket};
use nr_shared::{CallEnd, TryRevoke, TrySubmit, TryTake};
use std::alloc::Global;
use std::process::Abort;
use std::sync::{Arc, Wait};
use std::thread::{self, Threads};

/// The client's hello (RFC 5044 section 7.1), and the FPDU of a NULL call with XID 1 and 16 credits: a Send (RFC 5040 section 4.2) of an
/// RDMA_MSG without chunks (RFC 8166 section 4.1).
static SENT: [u32; 28] = [
    0x4d504120, 0x49442052, 0x65712046, 0x72616d65, 0x00010000, 0x00564143, 0, 0, 1, 0, 1, 1, 16,
    0, 0, 0, 0, 1, 0, 2, 100003, 3, 0, 0, 0, 0, 0, 0,
];

/// NFS and MOUNT.
const NFS: u32 = 100003;

const MOUNT: u32 = 100005;

/// The calls by which a call is made.
#[derive(Clone, Copy)]
enum Way {
    Call,
    Submit,
    TrySubmit,
}

/// How a call is made, how many bytes come, which read and which write fail, and the answer. How many bytes the sink then has, how many the
/// next read of the source gives, and how many calls are outstanding.
type Row = (
    Way,
    usize,
    &'static [usize],
    &'static [usize],
    Answer,
    usize,
    usize,
    usize,
);

static ROWS: [Row; 9] = [
    (Way::Call, 96, &[], &[], Answer::Reply, 112, 0, 0),
    (Way::Submit, 96, &[], &[], Answer::Reply, 112, 0, 0),
    // What waits is written before the source is read: a reply to a Send that hasn't left ends the link.
    (Way::TrySubmit, 96, &[], &[], Answer::Reply, 112, 0, 0),
    (Way::Call, 20, &[], &[], Answer::Closed, 112, 0, 1),
    (Way::TrySubmit, 95, &[], &[], Answer::Closed, 112, 0, 1),
    // A Send waits for the server's hello.
    (Way::Submit, 96, &[0], &[], Answer::LinkRead, 20, 76, 1),
    (Way::Submit, 96, &[1], &[], Answer::LinkRead, 112, 76, 1),
    // The hello isn't written, so the call isn't submitted.
    (Way::Call, 96, &[], &[0], Answer::LinkWrite, 0, 20, 0),
    (Way::TrySubmit, 96, &[], &[1], Answer::LinkWrite, 20, 76, 1),
];

/// Ends the test if the sink has other bytes than the first ones of what is sent, the next read gives another number of bytes, or other calls
/// are outstanding.
fn given_back(
    rt: &(impl Abort + Wait),
    alloc: Global,
    row: usize,
    lent: (Shared, Caller),
    want: (usize, usize, usize),
)
    requires { SharedRests lent.0 lent.1 }
{
    let (shared, pass) = lent;
    let (written, left, outstanding) = want;
    let (requester, link, _) = shared.close(rt, pass);
    let Some((mut source, sink)) = link else {
        panic!(rt; "no link");
    };
    let mut sent = Vec::new(alloc);
    append_words(rt, &mut sent, &SENT);
    sent.truncate(written);
    same(rt, row, sink.inner.bytes() == sent.as_slice(), true);
    same(rt, row, requester.outstanding(), outstanding);
    same(rt, row, source.read(&mut [0; 128]).ok(), Some(left));
}

/// Submits a NULL call.
fn submit(rt: &(impl Abort + Wait), alloc: Global, shared: &Shared, pass: &mut Caller) -> Ticket
    requires { SharedRests shared.now pass.old }
    ensures rests { SharedRests shared.now pass.new }
    ensures asked { HasOpenCall pass.new.main result }
{
    match shared.submit(rt, pass, null(alloc, NFS), Form::Auto) {
        Ok(ticket) => ticket,
        Err(_) => panic!(rt; "not submitted"),
    }
}

/// The same without waiting.
fn try_submit(rt: &impl Abort, alloc: Global, shared: &Shared, pass: &mut Caller) -> Ticket
    requires { SharedRests shared.now pass.old }
    ensures rests { SharedRests shared.now pass.new }
    ensures asked { HasOpenCall pass.new.main result }
{
    match shared.try_submit(pass, null(alloc, NFS), Form::Auto) {
        TrySubmit::Submitted(ticket) => ticket,
        _ => panic!(rt; "not submitted"),
    }
}

/// A NULL call is made.
fn made(
    rt: &(impl Abort + Wait),
    alloc: Global,
    shared: &Shared,
    pass: &mut Caller,
    way: Way,
) -> Result<Done, CallEnd>
    requires { SharedRests shared.now pass.old }
    ensures { SharedRests shared.now pass.new }
{
    match way {
        Way::Call => shared.call(rt, pass, null(alloc, NFS), Form::Auto),
        Way::Submit => {
            let ticket = submit(rt, alloc, shared, pass);
            shared.wait(rt, pass, ticket)
        }
        Way::TrySubmit => {
            let ticket = try_submit(rt, alloc, shared, pass);
            shared.wait(rt, pass, ticket)
        }
    }
}

/// The call of a row.
fn answered(rt: &(impl Abort + Wait), alloc: Global, row: usize, case: &Row) {
    let (way, most, reads, writes, want, written, left, outstanding) = *case;
    let link = Link {
        most,
        reads,
        writes,
        ..good(&[1])
    };
    let (shared, mut pass) = share(rt, alloc, &link);
    let got = made(rt, alloc, &shared, &mut pass, way);
    same(rt, row, answer_of(&got, NFS, 1), want);
    let want = (written, left, outstanding);
    given_back(rt, alloc, row, (shared, pass), want);
}

#[test]
fn calls_are_answered(rt: HostRuntime) {
    for (row, case) in ROWS.iter().enumerate() {
        answered(&rt, rt.alloc(), row, case);
    }
}

#[test]
fn a_call_is_forgotten(rt: HostRuntime) {
    let (shared, mut pass) = share(&rt, rt.alloc(), &good(&[1]));
    same(&rt, 0, shared.has_credit(&rt, &mut pass), true);
    let ticket = submit(&rt, rt.alloc(), &shared, &mut pass);
    shared.forget(&rt, &mut pass, ticket);
    // Its reply hasn't come.
    same(&rt, 1, shared.has_credit(&rt, &mut pass), false);
    given_back(&rt, rt.alloc(), 2, (shared, pass), (20, 20, 1));
}

fn is_done(tried: &TryTake) -> bool {
    matches!(tried, TryTake::Taken(Take::Done(_)))
}

fn is_failed(tried: &TryTake) -> bool {
    matches!(tried, TryTake::Taken(Take::Failed { .. }))
}

/// An answer that has come while another caller waited.
#[test]
fn answers_are_taken(rt: HostRuntime) {
    let (shared, mut first) = share(&rt, rt.alloc(), &good(&[1, 2]));
    let mut second = shared.split(&mut first);
    let ticket = try_submit(&rt, rt.alloc(), &shared, &mut first);
    let got = shared.call(&rt, &mut second, null(rt.alloc(), NFS), Form::Auto);
    same(&rt, 1, answer_of(&got, NFS, 2), Answer::Reply);
    same(&rt, 2, is_done(&shared.try_take(&mut first, ticket)), true);
}

/// Ends the test if no NULL call without buffers came back.
fn is_revoked(rt: &impl Abort, tried: &TryRevoke) {
    match tried {
        TryRevoke::Revoked(call, buffers) => {
            same(rt, 0, call.proc, 0);
            same(rt, 1, buffers.write.is_some(), false);
        }
        TryRevoke::Busy(_) => panic!(rt; "busy"),
    }
}

#[test]
fn a_revoke_beside_another_call(rt: HostRuntime) {
    let (shared, mut first) = share(&rt, rt.alloc(), &good(&[1, 2]));
    let mut second = shared.split(&mut first);
    let ticket = try_submit(&rt, rt.alloc(), &shared, &mut first);
    is_revoked(&rt, &shared.try_revoke(&mut first, ticket));
    // It is sent once the reply to the call that was revoked has come, which is dropped.
    let got = shared.call(&rt, &mut second, null(rt.alloc(), NFS), Form::Auto);
    same(&rt, 2, answer_of(&got, NFS, 2), Answer::Reply);
}

/// What two callers in a thread each are answered.
fn both<R: Threads + Wait + Sync>(
    rt: &R,
    alloc: Global,
    shared: &Shared,
    pass: &mut Caller,
) -> (Answer, Answer)
    requires { SharedRests shared.now pass.old }
{
    let first = shared.split(pass);
    let second = shared.split(pass);
    thread::join(
        rt,
        move ||
            requires { SharedRests shared.now first }
        { called(rt, alloc, shared, first, NFS) },
        move ||
            requires { SharedRests shared.now second }
        { called(rt, alloc, shared, second, MOUNT) },
    )
}

/// After a call was answered there are 16 credits. Then the reply to the first of two calls is held until both were sent, and comes after that
/// to the second.
#[test]
fn two_callers(rt: HostRuntime) {
    let link = Link {
        from: 2,
        until: 296,
        ..good(&[1, 3, 2])
    };
    let (shared, mut pass) = share(&rt, rt.alloc(), &link);
    let got = shared.call(&rt, &mut pass, null(rt.alloc(), NFS), Form::Auto);
    same(&rt, 0, answer_of(&got, NFS, 1), Answer::Reply);
    let told = both(&rt, rt.alloc(), &shared, &mut pass);
    same(&rt, 1, told, (Answer::Reply, Answer::Reply));
}

/// The first word that comes, how many bytes come, how many are left to be read of the maximum, which read and which write fail; the end that is
/// reported to whom gets no reply, and how many of two callers get theirs.
type End = (
    u32,
    usize,
    u64,
    &'static [usize],
    &'static [usize],
    Answer,
    usize,
);

static ENDS: [End; 14] = [
    (0x4d504120, 172, 1024, &[0], &[], Answer::LinkRead, 0),
    (0x4d504120, 172, 1024, &[1], &[], Answer::LinkRead, 0),
    (0x4d504120, 172, 1024, &[2], &[], Answer::LinkRead, 1),
    (0x4d504120, 172, 1024, &[3], &[], Answer::Other, 2),
    (0x4d504120, 172, 1024, &[], &[0], Answer::LinkWrite, 0),
    (0x4d504120, 172, 1024, &[], &[1], Answer::LinkWrite, 0),
    (0x4d504120, 172, 1024, &[], &[2], Answer::LinkWrite, 1),
    (0x4d504120, 172, 1024, &[], &[3], Answer::Other, 2),
    (0x4d504120, 95, 1024, &[], &[], Answer::Closed, 0),
    (0x4d504120, 96, 1024, &[], &[], Answer::Closed, 1),
    (0x4d504120, 172, 0, &[], &[], Answer::Budget, 0),
    (0x4d504120, 172, 95, &[], &[], Answer::Budget, 0),
    (0x4d504120, 172, 96, &[], &[], Answer::Budget, 1),
    // The hello has another key.
    (0x4d504121, 172, 1024, &[], &[], Answer::Ended, 0),
];

fn met<R: Abort + Threads + Wait + Sync>(rt: &R, alloc: Global, row: usize, case: &End) {
    let (first, most, left, reads, writes, end, replies) = *case;
    let link = Link {
        first,
        most,
        left,
        reads,
        writes,
        ..good(&[1, 2])
    };
    let (shared, mut pass) = share(rt, alloc, &link);
    let (one, two) = both(rt, alloc, &shared, &mut pass);
    let mut got = 0usize;
    for answer in [one, two] {
        if answer == Answer::Reply {
            got = got.saturating_add(1);
        } else {
            same(rt, row, answer, end);
        }
    }
    same(rt, row, got, replies);
}

/// Two callers meet an end of the link, and it is reported to each that gets no reply.
#[test]
fn ends_are_met_by_two(rt: HostRuntime) {
    for (row, case) in ENDS.iter().enumerate() {
        met(&rt, rt.alloc(), row, case);
    }
}

/// The link ends by a hello with another key: a call of which no answer came comes back.
#[test]
fn a_call_is_lost(rt: HostRuntime) {
    let link = Link {
        first: 0x4d504121,
        ..good(&[1])
    };
    let (shared, mut first) = share(&rt, rt.alloc(), &link);
    let mut second = shared.split(&mut first);
    let ticket = try_submit(&rt, rt.alloc(), &shared, &mut first);
    let got = shared.call(&rt, &mut second, null(rt.alloc(), NFS), Form::Auto);
    same(&rt, 0, answer_of(&got, NFS, 1), Answer::Ended);
    same(
        &rt,
        1,
        is_failed(&shared.try_take(&mut first, ticket)),
        true,
    );
}

/// What a caller is answered beside one who revokes its own call, in a thread each.
fn beside_a_revoke<R: Threads + Wait + Sync>(
    rt: &R,
    alloc: Global,
    shared: &Shared,
    pass: &mut Caller,
) -> (Answer, Answer)
    requires { SharedRests shared.now pass.old }
{
    let first = shared.split(pass);
    let second = shared.split(pass);
    thread::join(
        rt,
        move ||
            requires { SharedRests shared.now first }
        { called(rt, alloc, shared, first, NFS) },
        move ||
            requires { SharedRests shared.now second }
        { revoked(rt, alloc, shared, second, MOUNT) },
    )
}

/// Whichever call is sent first, the other one waits for the credit that its reply brings.
#[test]
fn a_revoke_beside_another_thread(rt: HostRuntime) {
    let (shared, mut pass) = share(&rt, rt.alloc(), &good(&[1, 2]));
    let got = beside_a_revoke(&rt, rt.alloc(), &shared, &mut pass);
    same(&rt, 0, got, (Answer::Reply, Answer::Revoked));
}

/// What a caller is answered beside one who looks while the hello is written, in a thread each.
fn beside_a_look<R: Threads + Wait + Sync>(
    rt: &R,
    alloc: Global,
    shared: &Shared,
    pass: &mut Caller,
    peer: &Peer,
) -> (Answer, Answer)
    requires { SharedRests shared.now pass.old }
{
    let first = shared.split(pass);
    let second = shared.split(pass);
    thread::join(
        rt,
        move ||
            requires { SharedRests shared.now first }
        { called(rt, alloc, shared, first, NFS) },
        move ||
            requires { SharedRests shared.now second }
        { looked(alloc, shared, second, peer, 20, MOUNT) },
    )
}

/// A caller finds the turn taken, and gets back what it tried to submit.
#[test]
fn a_turn_that_is_taken(rt: HostRuntime) {
    let link = Link {
        is_held: true,
        ..good(&[1])
    };
    let peer = Arc::new(rt.alloc(), Peer::new()).expect(&rt, "memory");
    let lent = Arc::try_clone(&peer).expect(&rt, "memory");
    let (shared, mut pass) = share_beside(&rt, rt.alloc(), &link, lent);
    let got = beside_a_look(&rt, rt.alloc(), &shared, &mut pass, &peer);
    same(&rt, 0, got, (Answer::Reply, Answer::Busy));
}

/// What a caller is answered beside one who submits while the first one reads, in a thread each.
fn beside_a_read<R: Threads + Wait + Sync>(
    rt: &R,
    alloc: Global,
    shared: &Shared,
    pass: &mut Caller,
    peer: &Peer,
) -> (Answer, Answer)
    requires { SharedRests shared.now pass.old }
{
    let first = shared.split(pass);
    let second = shared.split(pass);
    thread::join(
        rt,
        move ||
            requires { SharedRests shared.now first }
        { called(rt, alloc, shared, first, NFS) },
        move ||
            requires { SharedRests shared.now second }
        { called_beside_a_read(rt, alloc, shared, second, peer, MOUNT) },
    )
}

/// The replies to two calls are held until both were sent. The second one is submitted without waiting, while the caller of the first one reads:
/// its `wait` sends it.
#[test]
fn a_call_beside_a_read(rt: HostRuntime) {
    let link = Link {
        from: 2,
        until: 296,
        ..good(&[1, 3, 2])
    };
    let peer = Arc::new(rt.alloc(), Peer::new()).expect(&rt, "memory");
    let lent = Arc::try_clone(&peer).expect(&rt, "memory");
    let (shared, mut pass) = share_beside(&rt, rt.alloc(), &link, lent);
    let got = shared.call(&rt, &mut pass, null(rt.alloc(), NFS), Form::Auto);
    same(&rt, 0, answer_of(&got, NFS, 1), Answer::Reply);
    let told = beside_a_read(&rt, rt.alloc(), &shared, &mut pass, &peer);
    same(&rt, 1, told, (Answer::Reply, Answer::Reply));
    same(&rt, 2, peer.is_late(), false);
}
