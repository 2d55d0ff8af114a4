//! Calls of clients that have a number: what is executed, what is answered again, and what is old.

use crate::calls::{called, opened};
use crate::compare::same;
use nr_outside::Moment;
use nr_plain::{Fault, Server};
use std::alloc::Global;
use std::process::Abort;

/// A capacity for all these calls.
const AMPLE: u64 = 1_000_000;

/// What a call gets.
#[derive(Clone, Copy, Debug, PartialEq, Drop)]
enum Want {
    /// It is executed at this place, and the journal then has this length.
    Executed(u64, u64),
    /// The reply of the row with this number, at this place.
    Again(usize, u64),
    /// Nothing: the largest xid of its client is this.
    Old(u32),
}

use Want::{Again, Executed, Old};

/// A call: the number of its client, its xid, the call as in the other tables, and what it gets.
type Row = (u64, u32, &'static str, Want);

const CREATE_A: &str = "0 CREATE 8 0 1 1 61000000 0*7";

const MAKE_B: &str = "0 MKDIR 8 0 1 1 62000000 0*6";

const CREATE_C: &str = "0 CREATE 8 0 1 1 63000000 0*7";

/// CREATE of a file that may not be there yet (RFC 1813 section 3.3.8, GUARDED).
const CREATE_NEW_C: &str = "0 CREATE 8 0 1 1 63000000 1 0*6";

/// READ of `hello` (RFC 1813 section 3.3.6).
const READ: &str = "0 6 8 0 2 0 0 64";

static ROWS: [Row; 21] = [
    (5, 1, CREATE_A, Executed(0, 1)),
    (5, 1, CREATE_A, Again(0, 0)),
    (5, 65, MAKE_B, Executed(1, 2)),
    (5, 1, CREATE_A, Old(65)),
    // a READ adds no entry, so it is executed again, and its xid stays new
    (5, 2, READ, Executed(2, 2)),
    (5, 2, READ, Executed(2, 2)),
    (5, 1, READ, Old(65)),
    (5, 65, MAKE_B, Again(2, 1)),
    (5, 2, CREATE_C, Executed(2, 3)),
    (5, 2, CREATE_C, Again(8, 2)),
    // whatever is asked for under the xid of a change
    (5, 2, READ, Again(8, 2)),
    // a change that fails adds no entry
    (5, 3, CREATE_NEW_C, Executed(3, 3)),
    (5, 3, CREATE_NEW_C, Executed(3, 3)),
    // without a number
    (0, 65, CREATE_A, Executed(3, 4)),
    (0, 65, CREATE_A, Executed(4, 5)),
    (0, 1, CREATE_A, Executed(5, 6)),
    // of another client
    (0xffff_ffff_ffff_ffff, 65, CREATE_A, Executed(6, 7)),
    (0xffff_ffff_ffff_ffff, 65, CREATE_A, Again(16, 6)),
    (5, 66, CREATE_A, Executed(7, 8)),
    (5, 2, CREATE_C, Old(66)),
    (5, 65, MAKE_B, Again(2, 1)),
];

/// What the server answers to a call: the place, and the payload of the reply. If memory runs out it is asked once more.
fn answered(
    alloc: Global,
    server: &mut Server,
    client: u64,
    payload: &[u8],
) -> Result<(u64, Vec<u8>), Fault> {
    let now = Moment {
        seconds: 7,
        nanos: 5,
    };
    let reply = match server.execute_for(alloc, client, now, payload) {
        Err(Fault::Memory) => server.execute_for(alloc, client, now, payload)?,
        first => first?,
    };
    Ok((reply.place, reply.payload.into_vec()))
}

/// The payload of a reply, or nothing.
fn payload_of(alloc: Global, got: Result<(u64, Vec<u8>), Fault>) -> Vec<u8> {
    match got {
        Ok((_, payload)) => payload,
        Err(_) => Vec::new(alloc),
    }
}

/// What a call got, but for the payload.
fn outcome(got: &Result<(u64, Vec<u8>), Fault>) -> Result<u64, Fault> {
    match got {
        Ok((place, _)) => Ok(*place),
        Err(fault) => Err(*fault),
    }
}

/// What a row asks for: the place or the fault, and the length of the journal after it.
fn wanted(want: Want, before: u64) -> (Result<u64, Fault>, u64) {
    match want {
        Executed(place, after) => (Ok(place), after),
        Again(_, place) => (Ok(place), before),
        Old(top) => (Err(Fault::Old { top }), before),
    }
}

/// Whether a reply is that of the earlier row which a row names, if it names one.
fn is_again(want: Want, replies: &[Vec<u8>], payload: &[u8]) -> bool {
    match want {
        Again(row, _) => match replies.get(row) {
            Some(reply) => reply.as_slice() == payload,
            None => false,
        },
        Executed(_, _) => true,
        Old(_) => true,
    }
}

#[test]
fn changes_take_effect_once(rt: HostRuntime) {
    let mut server = opened(&rt, rt.alloc(), AMPLE);
    let mut replies: Vec<Vec<u8>> = Vec::new(rt.alloc());
    for (row, (client, xid, call, want)) in ROWS.iter().enumerate() {
        let payload = called(&rt, rt.alloc(), *xid, call);
        let before = server.journal_len();
        let got = answered(rt.alloc(), &mut server, *client, payload.as_slice());
        let len = server.journal_len();
        same(&rt, row, (outcome(&got), len), wanted(*want, before));
        let reply = payload_of(rt.alloc(), got);
        let again = is_again(*want, replies.as_slice(), reply.as_slice());
        same(&rt, row, again, true);
        replies.push(reply).expect(&rt, "memory");
    }
}

#[test]
fn payload_without_a_head(rt: HostRuntime) {
    let mut server = opened(&rt, rt.alloc(), AMPLE);
    for client in [0, 5] {
        let got = answered(rt.alloc(), &mut server, client, &[0; 3]);
        same(&rt, 0, outcome(&got), Err(Fault::NotCall { at: 0 }));
    }
}
