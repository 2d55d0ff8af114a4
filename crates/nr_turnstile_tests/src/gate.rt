//! Tests of `nr_gate`: record connections in memory, whose calls are forwarded over a shared requester.

ghost use Rattle.nr_shared.specs.Sharing.{SharedRests};

use crate::compare::same;
use crate::sharing::{Caller, Link, Shared, append_words, good, share};
use nr_gate::{GateEnd, gate_connection};
use nr_outside::{MemSink, MemSource};
use nr_shared::CallEnd;
use std::alloc::Global;
use std::process::Abort;
use std::sync::Wait;

/// Two NULL calls with xid 9, each as a record of one fragment (RFC 5531 section 11), and their replies.
static SENT: [u32; 22] = [
    0x80000028, 9, 0, 2, 100003, 3, 0, 0, 0, 0, 0, 0x80000028, 9, 0, 2, 100003, 3, 0, 0, 0, 0, 0,
];

static ANSWERED: [u32; 14] = [0x80000018, 9, 1, 0, 0, 0, 0, 0x80000018, 9, 1, 0, 0, 0, 0];

/// How a connection ended.
#[derive(Clone, Copy, Debug, PartialEq, Drop)]
enum Ended {
    Closed,
    Cut(u64),
    LinkRead,
    LinkWrite,
    Bad(u64, u32),
    RemoteClosed,
    RemoteRead,
    RemoteWrite,
    Other,
}

fn end_of(end: &GateEnd) -> Ended {
    match end {
        GateEnd::Closed => Ended::Closed,
        GateEnd::Cut { at } => Ended::Cut(*at),
        GateEnd::LinkRead => Ended::LinkRead,
        GateEnd::LinkWrite => Ended::LinkWrite,
        GateEnd::Bad { at, reason } => Ended::Bad(*at, *reason),
        GateEnd::Remote(CallEnd::Closed) => Ended::RemoteClosed,
        GateEnd::Remote(CallEnd::LinkRead) => Ended::RemoteRead,
        GateEnd::Remote(CallEnd::LinkWrite) => Ended::RemoteWrite,
        _ => Ended::Other,
    }
}

/// The words that the client sends (none: those of the two calls) and how many of their bytes, the read and the write of its link that fail, how many
/// bytes the remote link gives and which of its writes fail; the end, the words of the replies (none: those to the two
/// calls) and how many of their bytes the client's link takes, and how many bytes the remote link takes.
type Row = (
    &'static [u32],
    usize,
    &'static [usize],
    &'static [usize],
    usize,
    &'static [usize],
    Ended,
    &'static [u32],
    usize,
    usize,
);

static ROWS: [Row; 12] = [
    // Both calls go out under xids of the remote link, and both replies have xid 9.
    (&[], 88, &[], &[], 172, &[], Ended::Closed, &[], 56, 204),
    (&[], 44, &[], &[], 172, &[], Ended::Closed, &[], 28, 112),
    (&[], 0, &[], &[], 172, &[], Ended::Closed, &[], 0, 0),
    (&[], 50, &[], &[], 172, &[], Ended::Cut(50), &[], 28, 112),
    // The remote link carries nothing for a call of version 3.
    (
        &[0x8000000c, 9, 0, 3],
        16,
        &[],
        &[],
        172,
        &[],
        Ended::Closed,
        &[0x80000018, 9, 1, 1, 0, 2, 2],
        28,
        0,
    ),
    // An empty record is no call.
    (
        &[0x80000000],
        4,
        &[],
        &[],
        172,
        &[],
        Ended::Bad(0, 27),
        &[],
        0,
        0,
    ),
    (
        &[0x00102001],
        4,
        &[],
        &[],
        172,
        &[],
        Ended::Bad(0, 26),
        &[],
        0,
        0,
    ),
    (&[], 88, &[0], &[], 172, &[], Ended::LinkRead, &[], 0, 0),
    // The second call isn't forwarded after the write of the first reply failed.
    (&[], 88, &[], &[0], 172, &[], Ended::LinkWrite, &[], 0, 112),
    // The remote server ends its stream after the first reply, and before it.
    (
        &[],
        88,
        &[],
        &[],
        96,
        &[],
        Ended::RemoteClosed,
        &[],
        28,
        204,
    ),
    (&[], 88, &[], &[], 20, &[], Ended::RemoteClosed, &[], 0, 112),
    (&[], 88, &[], &[], 172, &[1], Ended::RemoteWrite, &[], 0, 20),
];

/// Reads of the remote link that fail, and the row: the read of the hello, before any call is written; and the one after the
/// first reply.
static READS: [(&'static [usize], Row); 2] = [
    (
        &[0],
        (&[], 88, &[], &[], 172, &[], Ended::RemoteRead, &[], 0, 20),
    ),
    (
        &[2],
        (&[], 88, &[], &[], 172, &[], Ended::RemoteRead, &[], 28, 204),
    ),
];

/// The first bytes of these words, or of the others if there are none.
fn first_of(rt: &impl Abort, alloc: Global, words: &[u32], others: &[u32], len: usize) -> Vec<u8> {
    let mut bytes = Vec::new(alloc);
    append_words(
        rt,
        &mut bytes,
        if words.is_empty() { others } else { words },
    );
    bytes.truncate(len);
    bytes
}

/// Ends the test if the remote link took another number of bytes.
fn carried(rt: &(impl Abort + Wait), row: usize, lent: (Shared, Caller), want: usize)
    requires { SharedRests lent.0 lent.1 }
{
    let (shared, pass) = lent;
    let (_, link, _) = shared.close(rt, pass);
    let taken = match &link {
        Some((_, sink)) => sink.inner.bytes().len(),
        None => 0,
    };
    same(rt, row, taken, want);
}

/// The connection of a row, where these reads of the remote link fail.
fn gated(
    rt: &(impl Abort + Wait),
    alloc: Global,
    row: usize,
    case: &Row,
    remote_reads: &'static [usize],
) {
    let (words, len, reads, writes, most, remote_writes, want, replies, written, sent) = *case;
    let link = Link {
        most,
        reads: remote_reads,
        writes: remote_writes,
        ..good(&[1, 2])
    };
    let (shared, mut pass) = share(rt, alloc, &link);
    let stream = first_of(rt, alloc, words, &SENT, len);
    let failing = reads.to_vec(alloc).expect(rt, "memory");
    let mut source = MemSource::new(stream, Vec::new(alloc), failing);
    let mut sink = MemSink::new(alloc, writes.to_vec(alloc).expect(rt, "memory"));
    let end = gate_connection(rt, alloc, &mut source, &mut sink, &shared, &mut pass);
    same(rt, row, end_of(&end), want);
    let expected = first_of(rt, alloc, replies, &ANSWERED, written);
    same(rt, row, sink.bytes() == expected.as_slice(), true);
    carried(rt, row, (shared, pass), sent);
}

#[test]
fn connections_are_gated(rt: HostRuntime) {
    for (row, case) in ROWS.iter().enumerate() {
        gated(&rt, rt.alloc(), row, case, &[]);
    }
}

#[test]
fn remote_reads_fail(rt: HostRuntime) {
    for (row, (remote_reads, case)) in READS.iter().enumerate() {
        gated(&rt, rt.alloc(), row, case, remote_reads);
    }
}

/// Two connections with passes of their own, whose calls have the same xid.
#[test]
fn two_connections(rt: HostRuntime) {
    let (shared, mut first) = share(&rt, rt.alloc(), &good(&[1, 2]));
    let mut second = shared.split(&mut first);
    one(&rt, rt.alloc(), 1, &shared, &mut first);
    one(&rt, rt.alloc(), 2, &shared, &mut second);
}

/// A connection with one call.
fn one(rt: &(impl Abort + Wait), alloc: Global, row: usize, shared: &Shared, pass: &mut Caller)
    requires { SharedRests shared.now pass.old }
{
    let stream = first_of(rt, alloc, &SENT, &SENT, 44);
    let mut source = MemSource::new(stream, Vec::new(alloc), Vec::new(alloc));
    let mut sink = MemSink::new(alloc, Vec::new(alloc));
    let end = gate_connection(rt, alloc, &mut source, &mut sink, shared, pass);
    same(rt, row, end_of(&end), Ended::Closed);
    let expected = first_of(rt, alloc, &ANSWERED, &ANSWERED, 28);
    same(rt, row, sink.bytes() == expected.as_slice(), true);
}
