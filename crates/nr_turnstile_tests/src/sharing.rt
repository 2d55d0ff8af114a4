//! A shared requester over a source and a sink in memory, and NULL calls of it.

ghost use Rattle.std.specs.Prelude.{◌≤◌, ◌^◌, [], ◌∷◌, None};
ghost use Rattle.nr_rpc.specs.Credential.{CanWriteCred};
ghost use Rattle.nr_shared.specs.Opening.{IsInitialHistory};
ghost use Rattle.nr_shared.specs.Sharing.{SharedRests};

use crate::held::{HeldSink, HeldSource, Peer};
use nr_links::{LinkSink, LinkSource};
use nr_outside::{MemSink, MemSource};
use nr_reduce::{Call, Outcome};
use nr_requester::{Done, Requester};
use nr_rpc::Cred;
use nr_shared::{AnyCall, Appended, CallEnd, InitialHistory, Pass, SharedRequester};
use nr_xdr::Octets;
use std::alloc::Global;
use std::marker::Brand;
use std::process::Abort;
use std::sync::{Arc, Wait};

pub type Shared = SharedRequester<HeldSource<MemSource>, HeldSink<MemSink>, AnyCall>;

pub type Caller = Pass<HeldSource<MemSource>, HeldSink<MemSink>, AnyCall>;

/// The server's hello after its first word (RFC 5044 section 7.1).
static HELLO: [u32; 4] = [0x49442052, 0x65702046, 0x72616d65, 0x00010000];

/// What comes before the number of a Send (RFC 5040 section 4.2).
static SEND: [u32; 3] = [0x00464143, 0, 0];

/// An RDMA_MSG of 16 credits without chunks, after its XID (RFC 8166 section 4.1).
static MESSAGE: [u32; 6] = [1, 16, 0, 0, 0, 0];

/// The reply to a NULL call after its XID (RFC 5531 section 9), and the CRC field.
static REPLY: [u32; 6] = [1, 0, 0, 0, 0, 0];

/// The first 20 bytes of the payload of a reply after its XID.
static ACCEPTED: [u8; 20] = [0, 0, 0, 1, 0, 0, 0, 0, 0, 0, 0, 0, 0, 0, 0, 0, 0, 0, 0, 0];

/// The maximum of bytes that are read of a connection.
const READ_MAX: u64 = 1 << 40;

/// What a link gives and takes: the replies to these XIDs, in this order, after a hello that begins with this word, at most this many bytes of
/// them; the numbers of the reads and the writes that fail; from which read on the source waits until how many bytes were sent; and whether each
/// write waits until another caller has looked; and how many bytes are left to be read of the maximum.
#[derive(Clone, Copy)]
pub struct Link {
    pub first: u32,
    pub xids: &'static [u32],
    pub most: usize,
    pub reads: &'static [usize],
    pub writes: &'static [usize],
    pub from: u64,
    pub until: u64,
    pub is_held: bool,
    pub left: u64,
}

/// A link over which all goes well, and whose replies are those to these XIDs.
pub fn good(xids: &'static [u32]) -> Link {
    Link {
        first: 0x4d504120,
        xids,
        most: 1024,
        reads: &[],
        writes: &[],
        from: 1024,
        until: 0,
        is_held: false,
        left: READ_MAX,
    }
}

/// What a call was answered.
#[derive(Clone, Copy, Debug, PartialEq, Drop)]
pub enum Answer {
    /// The reply to it.
    Reply,
    Ended,
    LinkRead,
    LinkWrite,
    Closed,
    /// The maximum of bytes was read.
    Budget,
    /// The link was lost once more than it may be dialled again.
    Tries,
    DialFault,
    /// The call was revoked.
    Revoked,
    /// The turn was taken, and the call and its form came back.
    Busy,
    Other,
}

/// Appends words (RFC 4506 section 4.1).
pub fn append_words(rt: &impl Abort, bytes: &mut Vec<u8>, words: &[u32]) {
    for word in words {
        bytes
            .extend_from_slice(&word.to_be_bytes())
            .expect(rt, "memory");
    }
}

/// The hello, and the FPDU of the reply to each of these XIDs.
fn received(rt: &impl Abort, alloc: Global, link: &Link) -> Vec<u8> {
    let mut bytes = Vec::new(alloc);
    append_words(rt, &mut bytes, &[link.first]);
    append_words(rt, &mut bytes, &HELLO);
    let mut number = 0u32;
    for xid in link.xids {
        number = number.saturating_add(1);
        append_words(rt, &mut bytes, &SEND);
        append_words(rt, &mut bytes, &[number, 0, *xid]);
        append_words(rt, &mut bytes, &MESSAGE);
        append_words(rt, &mut bytes, &[*xid]);
        append_words(rt, &mut bytes, &REPLY);
    }
    bytes.truncate(link.most);
    bytes
}

/// A NULL call of version 3 of a program, without a credential.
pub fn null(alloc: Global, prog: u32) -> Call
    ensures { CanWriteCred result.cred }
{
    Call {
        prog,
        vers: 3,
        proc: 0,
        cred: Cred::None,
        args: Octets::new(alloc),
    }
}

/// Shares a requester, of whose source `read` bytes were read before. `K` is the entry of its initial state, for the proof.
fn shared<K: Appended, I: LinkSource + Drop, O: LinkSink + Drop>(
    rt: &(impl Abort + Wait),
    alloc: Global,
    requester: Requester,
    source: I,
    sink: O,
    read: u64,
) -> (SharedRequester<I, O, AnyCall>, Pass<I, O, AnyCall>)
    requires initial { IsInitialHistory O.link O.taken O.faults requester sink None (K.entry ∷ []) }
    requires read { read ≤ 2 ^ 40 }
    ensures { SharedRests result.0 result.1 }
{
    match SharedRequester::new::<InitialHistory<K>, _>(rt, alloc, requester, source, sink, read) {
        Ok(opened) => opened,
        Err(_) => panic!(rt; "memory"),
    }
}

/// A requester of 16 credits that is shared, with a caller's pass. The source gives 20 bytes by its first read, and a reply by each later one.
pub fn share(rt: &(impl Abort + Wait), alloc: Global, link: &Link) -> (Shared, Caller)
    ensures { SharedRests result.0 result.1 }
{
    let peer = Arc::new(alloc, Peer::new()).expect(rt, "memory");
    share_beside(rt, alloc, link, peer)
}

/// The same, of a link to this peer.
pub fn share_beside(
    rt: &(impl Abort + Wait),
    alloc: Global,
    link: &Link,
    peer: Arc<Peer, Global>,
) -> (Shared, Caller)
    ensures { SharedRests result.0 result.1 }
{
    let reads = link.reads.to_vec(alloc).expect(rt, "memory");
    let writes = link.writes.to_vec(alloc).expect(rt, "memory");
    let sizes = Vec::from_slice(alloc, &[20, 76, 76, 76]).expect(rt, "memory");
    let requester = Requester::open(alloc, 16).expect(rt, "memory");
    let source = HeldSource {
        inner: MemSource::new(received(rt, alloc, link), sizes, reads),
        peer: Arc::try_clone(&peer).expect(rt, "memory"),
        reads: 0,
        from: link.from,
        until: link.until,
    };
    let sink = HeldSink {
        inner: MemSink::new(alloc, writes),
        peer,
        sent: 0,
        is_held: link.is_held,
    };
    let read = READ_MAX - link.left.min(READ_MAX);
    shared::<Brand, HeldSource<MemSource>, HeldSink<MemSink>>(
        rt, alloc, requester, source, sink, read,
    )
}

/// Whether a payload is the reply to a NULL call of this XID.
fn is_reply(payload: &[u8], xid: u32) -> bool {
    match payload.split_at_checked(4) {
        Some((head, rest)) => head == xid.to_be_bytes().as_slice() && rest == ACCEPTED.as_slice(),
        None => false,
    }
}

fn outcome_of(outcome: &Outcome, xid: u32) -> Answer {
    match outcome {
        Outcome::Reply(payload) => {
            if is_reply(payload.as_slice(), xid) {
                Answer::Reply
            } else {
                Answer::Other
            }
        }
        _ => Answer::Other,
    }
}

pub fn end_of(end: &CallEnd) -> Answer {
    match end {
        CallEnd::Ended(_) => Answer::Ended,
        CallEnd::LinkRead => Answer::LinkRead,
        CallEnd::LinkWrite => Answer::LinkWrite,
        CallEnd::Closed => Answer::Closed,
        CallEnd::Tries { .. } => Answer::Tries,
        CallEnd::DialFault => Answer::DialFault,
        CallEnd::Budget { read } => {
            if *read == READ_MAX {
                Answer::Budget
            } else {
                Answer::Other
            }
        }
        _ => Answer::Other,
    }
}

/// What a NULL call of this program, under this XID, was answered.
pub fn answer_of(got: &Result<Done, CallEnd>, prog: u32, xid: u32) -> Answer {
    match got {
        Ok(done) => {
            if done.call.prog == prog {
                outcome_of(&done.outcome, xid)
            } else {
                Answer::Other
            }
        }
        Err(end) => end_of(end),
    }
}
