//! How many bytes are kept for the marks of a call: those that the two sides wrote, once. What the sides were fed, the
//! arguments, the payload and the reply are pieces of them.

use crate::compare::same;
use nr_marks::MarkLog;
use nr_outside::Moment;
use nr_reduce::{Boxed, Call, Form, Mark, Outcome, Submission};
use nr_rpc::Cred;
use nr_wire::Side;
use nr_xdr::Octets;
use std::alloc::Global;
use std::process::Abort;

/// The bytes of the arguments and of the reply, and how many bytes are kept: 64 more than the arguments, with what
/// stands before and after them on the link, and 28 more than the reply.
static ROWS: [(usize, u128); 3] = [(32, 156), (1024, 2140), (70_000, 140_092)];

/// What stands before the arguments: an FPDU's header, and a call head.
const CALL_START: &[u8] = &[1; 20];

const CALL_HEAD: &[u8] = &[2; 40];

/// What stands before the reply.
const REPLY_START: &[u8] = &[3; 24];

/// The CRC field.
const END: &[u8] = &[0; 4];

/// A body of this many bytes, between others.
fn bytes(
    rt: &impl Abort,
    alloc: Global,
    before: [&[u8]; 2],
    body: (u8, usize),
    after: &[u8],
) -> Octets {
    let mut bytes = Vec::new(alloc);
    for part in before {
        bytes.extend_from_slice(part).expect(rt, "memory");
    }
    let (byte, len) = body;
    for _at in 0..len {
        bytes.push(byte).expect(rt, "memory");
    }
    bytes.extend_from_slice(after).expect(rt, "memory");
    Octets::from_vec(bytes)
}

/// The call line.
fn submit(rt: &impl Abort, alloc: Global, len: usize) -> Mark {
    let call = Call {
        prog: 100_003,
        vers: 3,
        proc: 7,
        cred: Cred::None,
        args: bytes(rt, alloc, [b"", b""], (7, len), b""),
    };
    Mark::Submit {
        link: 1,
        call: Boxed::new(alloc, call).expect(rt, "memory"),
        form: Boxed::new(alloc, Form::Auto).expect(rt, "memory"),
        answer: Submission::Accepted { xid: 1 },
    }
}

/// What the client wrote, and the server was fed; or the other way round.
fn crossed(rt: &impl Abort, alloc: Global, is_call: bool, len: usize) -> Octets {
    if is_call {
        bytes(rt, alloc, [CALL_START, CALL_HEAD], (7, len), END)
    } else {
        bytes(rt, alloc, [REPLY_START, b""], (9, len), END)
    }
}

/// The execution.
fn execute(rt: &impl Abort, alloc: Global, len: usize) -> Mark {
    Mark::Execute {
        link: 1,
        xid: 1,
        moment: Moment {
            seconds: 0,
            nanos: 0,
        },
        payload: bytes(rt, alloc, [CALL_HEAD, b""], (7, len), b""),
        place: 0,
        reply: bytes(rt, alloc, [b"", b""], (9, len), b""),
    }
}

/// The mark at a place of the run of one call.
fn mark_at(rt: &impl Abort, alloc: Global, at: usize, len: usize) -> Mark {
    let (link, xid) = (1, 1);
    let (client, server) = (Side::Initiator, Side::Responder);
    match at {
        0 => submit(rt, alloc, len),
        1 => Mark::Wrote {
            link,
            side: client,
            bytes: crossed(rt, alloc, true, len),
        },
        2 => Mark::Fed {
            link,
            side: server,
            bytes: crossed(rt, alloc, true, len),
        },
        3 => execute(rt, alloc, len),
        4 => Mark::Wrote {
            link,
            side: server,
            bytes: crossed(rt, alloc, false, len),
        },
        5 => Mark::Fed {
            link,
            side: client,
            bytes: crossed(rt, alloc, false, len),
        },
        _ => {
            let reply = bytes(rt, alloc, [b"", b""], (9, len), b"");
            Mark::Done {
                link,
                xid,
                outcome: Outcome::Reply(reply),
            }
        }
    }
}

/// How many bytes are kept for the marks of a call.
fn held(rt: &impl Abort, alloc: Global, len: usize) -> u128 {
    let mut marks = MarkLog::new(alloc);
    for at in 0..7 {
        marks.push(mark_at(rt, alloc, at, len)).expect(rt, "memory");
    }
    marks.held()
}

#[test]
fn bytes_are_kept_once(rt: HostRuntime) {
    for (row, (len, want)) in ROWS.iter().enumerate() {
        same(&rt, row, held(&rt, rt.alloc(), *len), *want);
    }
}
