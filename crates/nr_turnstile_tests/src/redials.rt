//! Tests of `nr_shared`: NULL calls of a requester with a number, whose link is lost and dialled again, over links in memory.

ghost use Rattle.std.specs.Prelude.{◌≡◌, ◌≢◌, ◌<◌, ◌≤◌, Some};
ghost use Rattle.nr_link.specs.declared.end.End.TheVariants as ends;
ghost use Rattle.nr_requester.specs.Fed.{fed_bytes};
ghost use Rattle.nr_shared.specs.Sharing.{SharedRests};

use crate::compare::same;
use crate::held::Peer;
use crate::sharing::{Answer, answer_of, append_words, null};
use nr_links::{Counted, Dialer, LinkPlan, MemDialer};
use nr_outside::{Failed, MemSink, MemSource};
use nr_reduce::Form;
use nr_requester::Requester;
use nr_shared::{AnyCall, NotShared, Pass, SharedRequester, TrySubmit};
use std::alloc::Global;
use std::process::Abort;
use std::sync::{Arc, Wait};
use std::thread::{self, Threads};

type Redialled = SharedRequester<
    Counted<MemSource>,
    Counted<MemSink>,
    AnyCall,
    HeldDialer<MemDialer>,
>;

type Caller = Pass<Counted<MemSource>, Counted<MemSink>, AnyCall, HeldDialer<MemDialer>>;

/// A dialer that makes the links of another. From this dial on it waits until another caller has looked.
#[derive(Drop)]
struct HeldDialer<D> {
    inner: D,
    peer: Arc<Peer, Global>,
    dials: u64,
    from: u64,
}

impl<D: Dialer> Dialer for HeldDialer<D> {
    type Source = D::Source;

    type Sink = D::Sink;

    ghost faults = { λ d. D.faults d.inner };

    ghost lost = { λ d. D.lost d.inner };

    ghost asked = { λ d. D.asked d.inner };

    ghost ended = { λ d. D.ended d.inner };

    ghost next = { λ d. D.next d.inner };

    fn dial(&mut self, addr: &str) -> Result<(D::Source, D::Sink), Failed> {
        if self.dials >= self.from {
            self.peer.read_begins();
            self.peer.wait_for_look();
        }
        self.dials = self.dials.saturating_add(1);
        self.inner.dial(addr)
    }

    fn hang_up(&mut self, source: D::Source, sink: D::Sink) {
        self.inner.hang_up(source, sink);
    }
}

/// The server's hello (RFC 5044 section 7.1).
static HELLO: [u32; 5] = [0x4d504120, 0x49442052, 0x65702046, 0x72616d65, 0x00010000];

/// What comes before the number of a Send (RFC 5040 section 4.2).
static SEND: [u32; 3] = [0x00464143, 0, 0];

/// An RDMA_MSG of 16 credits without chunks, after its XID (RFC 8166 section 4.1).
static MESSAGE: [u32; 6] = [1, 16, 0, 0, 0, 0];

/// The reply to a NULL call after its XID (RFC 5531 section 9), and the CRC field.
static REPLY: [u32; 6] = [1, 0, 0, 0, 0, 0];

/// NFS.
const NFS: u32 = 100003;

/// The address of the server.
const ADDR: &str = "server:20049";

/// A link: the XIDs of the replies that it gives after the server's hello, at most so many bytes, and the reads and the writes that fail.
type Cut = (&'static [u32], usize, &'static [usize], &'static [usize]);

/// The links, the dials that fail, how often a lost link may be dialled again, what two calls are answered, how many links were made and hung up,
/// and whether there is a link at the end.
type Row = (
    &'static [Cut],
    &'static [usize],
    u32,
    (Answer, Answer),
    usize,
    usize,
    bool,
);

const OK: (Answer, Answer) = (Answer::Reply, Answer::Reply);

static ROWS: [Row; 20] = [
    // Nothing is lost.
    (&[(&[1, 2], 1024, &[], &[])], &[], 1, OK, 1, 0, true),
    // Each read fails in turn: that of the hello, and that of each reply.
    (
        &[(&[1, 2], 1024, &[0], &[]), (&[1, 2], 1024, &[], &[])],
        &[],
        1,
        OK,
        2,
        1,
        true,
    ),
    (
        &[(&[1, 2], 1024, &[1], &[]), (&[1, 2], 1024, &[], &[])],
        &[],
        1,
        OK,
        2,
        1,
        true,
    ),
    (
        &[(&[1, 2], 1024, &[2], &[]), (&[2], 1024, &[], &[])],
        &[],
        1,
        OK,
        2,
        1,
        true,
    ),
    (&[(&[1, 2], 1024, &[3], &[])], &[], 1, OK, 1, 0, true),
    // Each write: that of the hello, and that of each call.
    (
        &[(&[1, 2], 1024, &[], &[0]), (&[1, 2], 1024, &[], &[])],
        &[],
        1,
        OK,
        2,
        1,
        true,
    ),
    (
        &[(&[1, 2], 1024, &[], &[1]), (&[1, 2], 1024, &[], &[])],
        &[],
        1,
        OK,
        2,
        1,
        true,
    ),
    (
        &[(&[1, 2], 1024, &[], &[2]), (&[2], 1024, &[], &[])],
        &[],
        1,
        OK,
        2,
        1,
        true,
    ),
    (&[(&[1, 2], 1024, &[], &[3])], &[], 1, OK, 1, 0, true),
    // The server ends its stream: before its hello, after it, in a frame, and after one.
    (
        &[(&[1, 2], 0, &[], &[]), (&[1, 2], 1024, &[], &[])],
        &[],
        1,
        OK,
        2,
        1,
        true,
    ),
    (
        &[(&[1, 2], 20, &[], &[]), (&[1, 2], 1024, &[], &[])],
        &[],
        1,
        OK,
        2,
        1,
        true,
    ),
    (
        &[(&[1, 2], 95, &[], &[]), (&[1, 2], 1024, &[], &[])],
        &[],
        1,
        OK,
        2,
        1,
        true,
    ),
    (
        &[(&[1, 2], 96, &[], &[]), (&[2], 1024, &[], &[])],
        &[],
        1,
        OK,
        2,
        1,
        true,
    ),
    // The next link is lost too.
    (
        &[
            (&[1, 2], 20, &[], &[]),
            (&[1, 2], 0, &[], &[]),
            (&[1, 2], 1024, &[], &[]),
        ],
        &[],
        2,
        OK,
        3,
        2,
        true,
    ),
    (
        &[(&[1, 2], 20, &[], &[]), (&[1, 2], 0, &[], &[])],
        &[],
        1,
        (Answer::Tries, Answer::Tries),
        2,
        1,
        true,
    ),
    (
        &[(&[1, 2], 1024, &[0], &[])],
        &[],
        0,
        (Answer::Tries, Answer::Tries),
        1,
        0,
        true,
    ),
    (
        &[(&[1, 2], 96, &[], &[]), (&[2], 1024, &[], &[0])],
        &[],
        1,
        (Answer::Reply, Answer::Tries),
        2,
        1,
        true,
    ),
    // Each dial but the first one fails in turn.
    (
        &[(&[1, 2], 20, &[], &[]), (&[1, 2], 0, &[], &[])],
        &[1],
        16,
        (Answer::DialFault, Answer::DialFault),
        1,
        1,
        false,
    ),
    (
        &[(&[1, 2], 20, &[], &[]), (&[1, 2], 0, &[], &[])],
        &[2],
        16,
        (Answer::DialFault, Answer::DialFault),
        2,
        2,
        false,
    ),
    (
        &[(&[1, 2], 96, &[], &[]), (&[2], 1024, &[], &[])],
        &[1],
        16,
        (Answer::Reply, Answer::DialFault),
        1,
        1,
        false,
    ),
];

/// The plan of a link.
fn plan(rt: &impl Abort, alloc: Global, cut: &Cut) -> LinkPlan {
    let (xids, most, reads, writes) = *cut;
    let mut bytes = Vec::new(alloc);
    append_words(rt, &mut bytes, &HELLO);
    let mut number = 0u32;
    for xid in xids {
        number = number.saturating_add(1);
        append_words(rt, &mut bytes, &SEND);
        append_words(rt, &mut bytes, &[number, 0, *xid]);
        append_words(rt, &mut bytes, &MESSAGE);
        append_words(rt, &mut bytes, &[*xid]);
        append_words(rt, &mut bytes, &REPLY);
    }
    bytes.truncate(most);
    LinkPlan {
        bytes,
        sizes: Vec::from_slice(alloc, &[20, 76, 76, 76]).expect(rt, "memory"),
        failing_reads: reads.to_vec(alloc).expect(rt, "memory"),
        failing_writes: writes.to_vec(alloc).expect(rt, "memory"),
    }
}

/// A dialer of these links, whose dials fail that have these numbers. From dial `from` on it waits until another caller has looked.
fn dialer(
    rt: &impl Abort,
    alloc: Global,
    cuts: &[Cut],
    failing: &[usize],
    peer: Arc<Peer, Global>,
    from: u64,
) -> HeldDialer<MemDialer> {
    let mut plans = Vec::new(alloc);
    for cut in cuts {
        plans.push(plan(rt, alloc, cut)).expect(rt, "memory");
    }
    HeldDialer {
        inner: MemDialer::new(alloc, plans, failing.to_vec(alloc).expect(rt, "memory")),
        peer,
        dials: 0,
        from,
    }
}

/// A requester of 16 credits with the number 5.
fn numbered(rt: &impl Abort, alloc: Global) -> Requester
    ensures number { 0 < result.state.side.terms.number }
    ensures memory { result.state.side.ended ≢ Some ends.Memory }
    ensures fed { fed_bytes result ≡ 0 }
{
    Requester::open_numbered(alloc, 5, 16, 1, false).expect(rt, "memory")
}

/// A requester with a number, which is shared over links of this dialer.
fn share(
    rt: &(impl Abort + Wait),
    alloc: Global,
    dialer: HeldDialer<MemDialer>,
    tries: u32,
) -> (Redialled, Caller)
    requires { tries ≤ 16 }
    ensures { SharedRests result.0 result.1 }
{
    let requester = numbered(rt, alloc);
    match Redialled::new_numbered(rt, alloc, requester, dialer, ADDR, tries) {
        Ok(opened) => opened,
        Err(_) => panic!(rt; "not shared"),
    }
}

/// Two calls, one after the other.
fn called(rt: &(impl Abort + Wait), alloc: Global, row: usize, case: &Row) {
    let (cuts, failing, tries, want, made, hung_up, has_link) = case;
    let peer = Arc::new(alloc, Peer::new()).expect(rt, "memory");
    let dialer = dialer(rt, alloc, cuts, failing, peer, 1024);
    let (shared, mut pass) = share(rt, alloc, dialer, (*tries).min(16));
    let first = shared.call(rt, &mut pass, null(alloc, NFS), Form::Auto);
    let second = shared.call(rt, &mut pass, null(alloc, NFS), Form::Auto);
    let got = (answer_of(&first, NFS, 1), answer_of(&second, NFS, 2));
    same(rt, row, got, *want);
    let (_, link, dialer) = shared.close(rt, pass);
    same(rt, row, dialer.inner.asked().len(), *made);
    for asked in dialer.inner.asked() {
        same(rt, row, asked.as_slice() == ADDR.as_bytes(), true);
    }
    same(rt, row, dialer.inner.ended().len(), *hung_up);
    same(rt, row, link.is_some(), *has_link);
}

#[test]
fn links_are_dialled_again(rt: HostRuntime) {
    for (row, case) in ROWS.iter().enumerate() {
        called(&rt, rt.alloc(), row, case);
    }
}

/// The requester and the dialer come back.
#[test]
fn the_first_dial_fails(rt: HostRuntime) {
    let requester = numbered(&rt, rt.alloc());
    let peer = Arc::new(rt.alloc(), Peer::new()).expect(&rt, "memory");
    let dialer = dialer(&rt, rt.alloc(), &[], &[0], peer, 1024);
    match Redialled::new_numbered(&rt, rt.alloc(), requester, dialer, ADDR, 3) {
        Err(NotShared::DialFault(requester, dialer)) => {
            same(&rt, 0, requester.client(), 5);
            same(&rt, 1, dialer.inner.asked().len(), 0);
        }
        _ => panic!(&rt; "shared"),
    }
}

/// A call over a link that is lost.
fn first_call(rt: &impl Wait, alloc: Global, shared: &Redialled, mut pass: Caller) -> Answer
    requires { SharedRests shared.now pass }
{
    let got = shared.call(rt, &mut pass, null(alloc, NFS), Form::Auto);
    answer_of(&got, NFS, 1)
}

/// What a caller finds that looks while the next link is dialled.
fn look(alloc: Global, shared: &Redialled, mut pass: Caller, peer: &Peer) -> Answer
    requires { SharedRests shared.now pass }
{
    peer.wait_for_read();
    let tried = shared.try_submit(&mut pass, null(alloc, NFS), Form::Auto);
    peer.look();
    match tried {
        TrySubmit::Busy(..) => Answer::Busy,
        _ => Answer::Other,
    }
}

/// What both are answered, in a thread each.
fn beside_a_dial<R: Threads + Wait + Sync>(
    rt: &R,
    alloc: Global,
    shared: &Redialled,
    pass: &mut Caller,
    peer: &Peer,
) -> (Answer, Answer)
    requires { SharedRests shared.now pass.old }
{
    let first = shared.split(pass);
    let second = shared.split(pass);
    thread::join(
        rt,
        move ||
            requires { SharedRests shared.now first }
        { first_call(rt, alloc, shared, first) },
        move ||
            requires { SharedRests shared.now second }
        { look(alloc, shared, second, peer) },
    )
}

/// The requester's turn is held while the next link is dialled: another caller finds it taken.
#[test]
fn a_dial_holds_the_turn(rt: HostRuntime) {
    let peer = Arc::new(rt.alloc(), Peer::new()).expect(&rt, "memory");
    let lent = Arc::try_clone(&peer).expect(&rt, "memory");
    let cuts = [
        (&[1][..], 20, &[][..], &[][..]),
        (&[1][..], 1024, &[][..], &[][..]),
    ];
    let dialer = dialer(&rt, rt.alloc(), &cuts, &[], lent, 1);
    let (shared, mut pass) = share(&rt, rt.alloc(), dialer, 1);
    let told = beside_a_dial(&rt, rt.alloc(), &shared, &mut pass, &peer);
    same(&rt, 0, told, (Answer::Reply, Answer::Busy));
    same(&rt, 1, peer.is_late(), false);
}
