//! One connection with a NULL call, cut and failing at several offsets.

ghost use Rattle.std.specs.Arc.{arc_value};
ghost use Rattle.nr_turnstile.specs.Passes.{Rests};

use crate::compare::same;
use nr_host::{ConnectionLimits, serve, serve_connection};
use nr_jobs::HandBack;
use nr_links::{Acceptor, Clock, LinkPlan, MemAcceptor, MemClock};
use nr_nfs_base::{Time, Verifier};
use nr_outside::{MemSink, MemSource, Moment};
use nr_plain::{Server, journal_len, share};
use nr_tree::Tree;
use nr_turnstile::{Machine, Pass, Turnstile};
use nr_xdr::Octets;
use std::alloc::Global;
use std::process::Abort;
use std::sync::{Arc, Wait};

/// The client's hello (RFC 5044 section 7.1), and the FPDUs of two NULL calls, of xids 1 and 2, with 16 credits.
static SENT: [u32; 51] = [
    0x4d504120, 0x49442052, 0x65712046, 0x72616d65, 0x00010000, 0x00564143, 0, 0, 1, 0, 1, 1, 16,
    0, 0, 0, 0, 1, 0, 2, 100003, 3, 0, 0, 0, 0, 0, 0, 0x00564143, 0, 0, 2, 0, 2, 1, 16, 0, 0, 0, 0,
    2, 0, 2, 100003, 3, 0, 0, 0, 0, 0, 0,
];

/// The server's hello, and the FPDUs of the two replies, with one credit.
static ANSWERED: [u32; 43] = [
    0x4d504120, 0x49442052, 0x65702046, 0x72616d65, 0x00010000, 0x00464143, 0, 0, 1, 0, 1, 1, 1, 0,
    0, 0, 0, 1, 1, 0, 0, 0, 0, 0, 0x00464143, 0, 0, 2, 0, 2, 1, 1, 0, 0, 0, 0, 2, 1, 0, 0, 0, 0, 0,
];

/// The moments that the clock gives, one for each call that is executed: each tells how many it gave before.
pub(crate) static MOMENTS: [Moment; 3] = [
    Moment {
        seconds: 0,
        nanos: 0,
    },
    Moment {
        seconds: 1,
        nanos: 0,
    },
    Moment {
        seconds: 2,
        nanos: 0,
    },
];

fn bytes(rt: &impl Abort, alloc: Global, words: &[u32], most: usize) -> Vec<u8> {
    let mut bytes = Vec::new(alloc);
    for word in words {
        bytes
            .extend_from_slice(&word.to_be_bytes())
            .expect(rt, "memory");
    }
    bytes.truncate(most);
    bytes
}

/// A server of an empty directory, behind a turnstile.
pub(crate) fn shared(
    rt: &impl Abort,
    alloc: Global,
) -> (Arc<Turnstile<Server>, Global>, Pass<Server>)
    ensures { Rests (arc_value result.0) result.1 }
{
    let made = Time {
        seconds: 0,
        nanoseconds: 0,
    };
    let tree = Tree::root_only(alloc, made).expect(rt, "memory");
    let export = Octets::from_slice(alloc, b"/").expect(rt, "memory");
    let server = Server::open(tree, 1 << 40, Verifier { number: 1 }, export);
    let (shared, pass) = share(alloc, server).expect(rt, "memory");
    (Arc::new(alloc, shared).expect(rt, "memory"), pass)
}

/// How many bytes the client sends, the sizes of the first pieces, the read and the write that fail, how the connection ends,
/// how many bytes the sink takes, and how many calls are executed.
type Row = (
    usize,
    &'static [usize],
    &'static [usize],
    &'static [usize],
    &'static str,
    usize,
    u32,
);

static ROWS: [Row; 14] = [
    (112, &[], &[], &[], "Closed", 96, 1),
    (112, &[1, 30, 50], &[], &[], "Closed", 96, 1),
    (0, &[], &[], &[], "Closed", 0, 0),
    (70, &[], &[], &[], "Cut { at: 70, calls: 0 }", 20, 0),
    (19, &[], &[], &[], "Cut { at: 19, calls: 0 }", 0, 0),
    // Two calls in one read: the second has the receive of the first, whose answer was written before it was fed.
    (204, &[], &[], &[], "Closed", 172, 2),
    // Each read fails in turn.
    (204, &[20, 92, 92], &[0], &[], "LinkRead", 0, 0),
    (204, &[20, 92, 92], &[1], &[], "LinkRead", 20, 0),
    (204, &[20, 92, 92], &[2], &[], "LinkRead", 96, 1),
    (204, &[20, 92, 92], &[3], &[], "LinkRead", 172, 2),
    // Each write fails in turn: what was read is executed, and no more is read.
    (204, &[], &[], &[0], "LinkWrite", 0, 2),
    (204, &[], &[], &[1], "LinkWrite", 20, 2),
    (204, &[], &[], &[2], "LinkWrite", 96, 2),
    (204, &[20, 92, 92], &[], &[1], "LinkWrite", 20, 1),
];

/// Serves a connection with these credits, of which the second are for messages while more than half of its receives are in use, and with
/// Sends of two units; and compares how it ends, what its sink takes, and how many calls are executed.
fn same_end(
    rt: &(impl Abort + Wait),
    alloc: Global,
    row: usize,
    source: &mut MemSource,
    writes: Vec<usize>,
    granted: (u32, u32),
    want: (&str, &[u8], u32),
) {
    let (credits, low) = granted;
    let limits = ConnectionLimits {
        credits,
        low,
        units: 2,
        invalidates: false,
    };
    let (end, sent, executed) = want;
    let mut sink = MemSink::new(alloc, writes);
    let (shared, mut pass) = shared(rt, alloc);
    let mut clock = MemClock::new(&MOMENTS);
    let got = serve_connection(
        rt, alloc, source, &mut sink, &shared, &mut pass, &mut clock, limits,
    );
    let text = format!(in alloc; "{got:?}").expect(rt, "memory");
    same(rt, row, text.as_str(), end);
    same(rt, row, sink.bytes() == sent, true);
    same(rt, row, clock.now().seconds, executed);
}

fn ends(rt: &(impl Abort + Wait), alloc: Global, row: usize, case: &Row) {
    let (most, sizes, reads, writes, end, sent, executed) = *case;
    let sizes = sizes.to_vec(alloc).expect(rt, "memory");
    let reads = reads.to_vec(alloc).expect(rt, "memory");
    let writes = writes.to_vec(alloc).expect(rt, "memory");
    let mut source = MemSource::new(bytes(rt, alloc, &SENT, most), sizes, reads);
    let sent = bytes(rt, alloc, &ANSWERED, sent);
    let want = (end, sent.as_slice(), executed);
    same_end(rt, alloc, row, &mut source, writes, (1, 1), want);
}

#[test]
fn ends_of_connections(rt: HostRuntime) {
    for (row, case) in ROWS.iter().enumerate() {
        ends(&rt, rt.alloc(), row, case);
    }
}

/// The hello of the client and that of the server; the FPDU of a WRITE of 5 bytes with a read chunk, under STag 1000; the server's Read Request
/// for it; and NULL as the second call.
const HELLO: [u32; 5] = [0x4d504120, 0x49442052, 0x65712046, 0x72616d65, 0x00010000];

const REPLY_HELLO: [u32; 5] = [0x4d504120, 0x49442052, 0x65702046, 0x72616d65, 0x00010000];

const WRITE: [u32; 37] = [
    0x008e4143, 0, 0, 1, 0, 1, 1, 16, 0, 1, 72, 1000, 5, 0, 0, 0, 0, 0, 1, 0, 2, 100003, 3, 7, 0,
    0, 0, 0, 8, 0, 2, 0, 0, 5, 2, 5, 0,
];

const READ_REQUEST: [u32; 13] = [0x002e4141, 0, 1, 1, 0, 1, 0, 0, 5, 1000, 0, 0, 0];

const NULL: [u32; 23] = [
    0x00564143, 0, 0, 2, 0, 2, 1, 16, 0, 0, 0, 0, 2, 0, 2, 100003, 3, 0, 0, 0, 0, 0, 0,
];

/// Words of a stream.
type Part = &'static [u32];

/// What the client sends, how the connection ends, and what the server sends. No call is executed.
static STOPS: [(&[Part], &str, &[Part]); 11] = [
    // The hello of a client of four units: both say their units in private data, which is own.
    (
        &[&[
            0x4d504120, 0x49442052, 0x65712046, 0x72616d65, 0x00010008, 0x4e523031, 0x01000303,
        ]],
        "Closed",
        &[&[
            0x4d504120, 0x49442052, 0x65702046, 0x72616d65, 0x00010008, 0x4e523031, 0x01000101,
        ]],
    ),
    // The client's stream ends while a call waits for its read chunk.
    (
        &[&HELLO, &WRITE],
        "Cut { at: 168, calls: 1 }",
        &[&REPLY_HELLO, &READ_REQUEST],
    ),
    // The hello has another key, asks for markers, or has another revision.
    (
        &[&[0x4e504120, 0x49442052, 0x65712046, 0x72616d65, 0x00010000]],
        "Protocol { end: Bad { at: 0, reason: 1 } }",
        &[],
    ),
    (
        &[&[0x4d504120, 0x49442052, 0x65712046, 0x72616d65, 0x80010000]],
        "Protocol { end: Bad { at: 0, reason: 2 } }",
        &[&[0x4d504120, 0x49442052, 0x65702046, 0x72616d65, 0x20010000]],
    ),
    (
        &[&[0x4d504120, 0x49442052, 0x65712046, 0x72616d65, 0x00020000]],
        "Protocol { end: Bad { at: 0, reason: 3 } }",
        &[],
    ),
    // An ULPDU is too short. What comes after it is not executed.
    (
        &[&HELLO, &[0x00054143, 0, 0], &NULL],
        "Protocol { end: Bad { at: 20, reason: 5 } }",
        &[&REPLY_HELLO, &[0x00164147, 0, 2, 1, 0, 5, 0]],
    ),
    // The same in a frame that is not complete: it is not judged.
    (
        &[&HELLO, &[0x00054143, 0]],
        "Cut { at: 28, calls: 0 }",
        &[&REPLY_HELLO],
    ),
    // The response to the Read Request goes past its region, or has another STag.
    (
        &[&HELLO, &WRITE, &[0x0010c142, 1, 0, 4, 0x4c4c0000, 0], &NULL],
        "Protocol { end: Denied { stag: 1, offset: 4, why: Bounds } }",
        &[
            &REPLY_HELLO,
            &READ_REQUEST,
            &[0x00164147, 0, 2, 1, 0, 102, 0],
        ],
    ),
    (
        &[&HELLO, &WRITE, &[0x0010c142, 2, 0, 0, 0x4c4c0000, 0]],
        "Protocol { end: Denied { stag: 2, offset: 0, why: NoStag } }",
        &[
            &REPLY_HELLO,
            &READ_REQUEST,
            &[0x00164147, 0, 2, 1, 0, 101, 0],
        ],
    ),
    // A second call comes while the one receive is in use.
    (
        &[&HELLO, &WRITE, &NULL],
        "Protocol { end: NoBuffer { msn: 2 } }",
        &[
            &REPLY_HELLO,
            &READ_REQUEST,
            &[0x00164147, 0, 2, 1, 0, 104, 0],
        ],
    ),
    // The client sends a Terminate.
    (
        &[&HELLO, &[0x00164147, 0, 2, 1, 0, 5, 0], &NULL],
        "Protocol { end: Terminated { reason: 5 } }",
        &[&REPLY_HELLO],
    ),
];

fn joined(rt: &impl Abort, alloc: Global, parts: &[Part]) -> Vec<u8> {
    let mut joined = Vec::new(alloc);
    for part in parts {
        for word in *part {
            joined
                .extend_from_slice(&word.to_be_bytes())
                .expect(rt, "memory");
        }
    }
    joined
}

#[test]
fn stops_of_connections(rt: HostRuntime) {
    let alloc = rt.alloc();
    for (row, (sent, end, answered)) in STOPS.iter().enumerate() {
        let sent = joined(&rt, alloc, *sent);
        let mut source = MemSource::new(sent, Vec::new(alloc), Vec::new(alloc));
        let answered = joined(&rt, alloc, *answered);
        let want = (*end, answered.as_slice(), 0);
        same_end(&rt, alloc, row, &mut source, Vec::new(alloc), (1, 1), want);
    }
}

/// The credits of a server, the most that it grants while more than half of its receives are in use, and the credit word of an answer for
/// which two of them are in use: that of a call which waits for its read chunk, and that of the answered call.
static LOW: [(u32, u32, u32); 4] = [(4, 1, 4), (3, 1, 1), (3, 3, 3), (2, 1, 1)];

/// The FPDU of the reply to that call, with this credit word.
fn null_answer(word: u32) -> [u32; 19] {
    [
        0x00464143, 0, 0, 1, 0, 2, 1, word, 0, 0, 0, 0, 2, 1, 0, 0, 0, 0, 0,
    ]
}

/// Serves a client that ends its stream behind both calls.
fn low_row(rt: &(impl Abort + Wait), alloc: Global, row: usize, terms: (u32, u32), word: u32) {
    let sent = joined(rt, alloc, &[&HELLO, &WRITE, &NULL]);
    let mut source = MemSource::new(sent, Vec::new(alloc), Vec::new(alloc));
    let mut answered = joined(rt, alloc, &[&REPLY_HELLO, &READ_REQUEST]);
    let answer = bytes(rt, alloc, &null_answer(word), 76);
    answered
        .extend_from_slice(answer.as_slice())
        .expect(rt, "memory");
    let want = ("Cut { at: 260, calls: 1 }", answered.as_slice(), 1);
    same_end(rt, alloc, row, &mut source, Vec::new(alloc), terms, want);
}

#[test]
fn low_credits_of_connections(rt: HostRuntime) {
    for (row, (credits, low, word)) in LOW.iter().enumerate() {
        low_row(&rt, rt.alloc(), row, (*credits, *low), *word);
    }
}

/// A link over which the client sends its hello and a NULL call.
pub(crate) fn plan(rt: &impl Abort, alloc: Global) -> LinkPlan {
    LinkPlan {
        bytes: bytes(rt, alloc, &SENT, 112),
        sizes: Vec::new(alloc),
        failing_reads: Vec::new(alloc),
        failing_writes: Vec::new(alloc),
    }
}

/// One call at a time, with Sends of one unit.
pub(crate) const ONE_CALL: ConnectionLimits = ConnectionLimits {
    credits: 1,
    low: 1,
    units: 1,
    invalidates: false,
};

/// This many links, over each of which the client sends its hello and a NULL call.
pub(crate) fn plans(rt: &impl Abort, alloc: Global, count: usize) -> Vec<LinkPlan> {
    let mut plans = Vec::new(alloc);
    for _ in 0..count {
        plans.push(plan(rt, alloc)).expect(rt, "memory");
    }
    plans
}

/// Two connections, whose jobs come back, so that each is served here and gets its answer; and a third that does not come.
#[test]
fn two_connections(rt: HostRuntime) {
    let alloc = rt.alloc();
    let mut acceptor = MemAcceptor::new(alloc, plans(&rt, alloc, 2), Vec::new(alloc));
    same(&rt, 0, acceptor.listen("here").is_ok(), true);
    let (shared, mut pass) = shared(&rt, alloc);
    let mut spawner = HandBack::new();
    let clock = MemClock::new(&MOMENTS);
    let Ok(ran) = serve(
        rt,
        alloc,
        &mut acceptor,
        &mut spawner,
        &shared,
        &mut pass,
        &clock,
        ONE_CALL,
        false,
        2,
    ) else {
        panic!(rt; "not served")
    };
    same(&rt, 1, ran.started, 0);
    let text = format!(in alloc; "{:?}", ran.ends.as_slice()).expect(&rt, "memory");
    same(
        &rt,
        2,
        text.as_str() == "[Rdma(Closed), Rdma(Closed)]",
        true,
    );
    let want = bytes(&rt, alloc, &ANSWERED, 96);
    for (row, link) in acceptor.ended().iter().enumerate() {
        same(
            &rt,
            3 + row,
            link.sink.inner().bytes() == want.as_slice(),
            true,
        );
    }
    same(&rt, 5, acceptor.ended().len(), 2);
    same(&rt, 6, journal_len(&rt, &shared, &mut pass), 0);
    let none = serve(
        rt,
        alloc,
        &mut acceptor,
        &mut spawner,
        &shared,
        &mut pass,
        &clock,
        ONE_CALL,
        false,
        1,
    );
    same(&rt, 7, none.is_err(), true);
}
