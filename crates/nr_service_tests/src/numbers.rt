//! Connections of clients that have numbers, one after another, to one server.

ghost use Rattle.nr_turnstile.specs.Passes.{Rests};

use crate::compare::same;
use crate::connections::{MOMENTS, ONE_CALL};
use crate::turns::{bytes, drill};
use nr_host::serve_connection;
use nr_links::{Clock, MemClock};
use nr_outside::{MemSink, MemSource};
use nr_plain::{Server, journal_len};
use nr_turnstile::{Machine, Pass, Turnstile};
use std::alloc::Global;
use std::process::Abort;
use std::sync::Wait;

/// The hello of a client with this number, 0 for none, and the FPDU of a WRITE of HELLO to file 2 under this xid.
fn sent_by(rt: &impl Abort, alloc: Global, number: u32, xid: u32) -> Vec<u8> {
    let words = [
        0x4d504120, 0x49442052, 0x65712046, 0x72616d65, 0x00010010, 0x4e523031, 0x01010000, 0,
        number, 0x007e4143, 0, 0, 1, 0, xid, 1, 16, 0, 0, 0, 0, xid, 0, 2, 100003, 3, 7, 0, 0, 0,
        0, 8, 0, 2, 0, 0, 5, 2, 5, 0x48454c4c, 0x4f000000, 0,
    ];
    bytes(rt, alloc, &words)
}

/// The server's hello, and its Terminate for reason 28.
static REFUSED: [u32; 14] = [
    0x4d504120, 0x49442052, 0x65702046, 0x72616d65, 0x00010008, 0x4e523031, 0x01000000, 0x00164147,
    0, 2, 1, 0, 28, 0,
];

/// The length of the server's hello and of a reply to WRITE in one FPDU.
const ANSWERED_LEN: usize = 240;

/// Serves a connection of the client with a number, over which it sends a WRITE under an xid, and compares how it ends and how many
/// entries the journal has then. The clock gives one moment, also for a call that is kept or old. What the server sends.
fn served<R: Abort + Wait>(
    rt: &R,
    alloc: Global,
    row: usize,
    shared: &Turnstile<Server>,
    pass: &mut Pass<Server>,
    call: (u32, u32),
    want: (&str, u64),
) -> Vec<u8>
    requires { Rests shared.now pass.old }
    ensures { Rests shared.now pass.new }
{
    let (number, xid) = call;
    let (end, journal) = want;
    let mut source = MemSource::new(
        sent_by(rt, alloc, number, xid),
        Vec::new(alloc),
        Vec::new(alloc),
    );
    let mut sink = MemSink::new(alloc, Vec::new(alloc));
    let mut clock = MemClock::new(&MOMENTS);
    let got = serve_connection(
        rt,
        alloc,
        &mut source,
        &mut sink,
        shared,
        pass,
        &mut clock,
        ONE_CALL,
    );
    let text = format!(in alloc; "{got:?}").expect(rt, "memory");
    same(rt, row, text.as_str(), end);
    same(rt, row, clock.now().seconds, 1);
    same(rt, row, journal_len(rt, shared, pass), journal);
    Vec::from_slice(alloc, sink.bytes()).expect(rt, "memory")
}

/// A WRITE that a client with a number sends again is made once, also over another connection, and has the same answer; one whose xid is 64
/// below the largest one ends the connection at its FPDU. Without a number each is made.
#[test]
fn changes_of_numbered_clients(rt: HostRuntime) {
    let alloc = rt.alloc();
    let (shared, mut pass) = drill(&rt, alloc);
    let first = served(&rt, alloc, 0, &shared, &mut pass, (5, 1), ("Closed", 1));
    same(&rt, 0, first.len(), ANSWERED_LEN);
    let again = served(&rt, alloc, 1, &shared, &mut pass, (5, 1), ("Closed", 1));
    same(&rt, 1, again.as_slice() == first.as_slice(), true);
    let other = served(&rt, alloc, 2, &shared, &mut pass, (6, 1), ("Closed", 2));
    same(&rt, 2, other.len(), ANSWERED_LEN);
    let later = served(&rt, alloc, 3, &shared, &mut pass, (5, 65), ("Closed", 3));
    same(&rt, 3, later.len(), ANSWERED_LEN);
    let old_end = "Protocol { end: Bad { at: 36, reason: 28 } }";
    let old = served(&rt, alloc, 4, &shared, &mut pass, (5, 1), (old_end, 3));
    let refused = bytes(&rt, alloc, &REFUSED);
    same(&rt, 4, old.as_slice() == refused.as_slice(), true);
    let new = served(&rt, alloc, 5, &shared, &mut pass, (5, 2), ("Closed", 4));
    same(&rt, 5, new.len(), ANSWERED_LEN);
    let none = served(&rt, alloc, 6, &shared, &mut pass, (0, 1), ("Closed", 5));
    same(&rt, 6, none.len(), ANSWERED_LEN);
    let executed = served(&rt, alloc, 7, &shared, &mut pass, (0, 1), ("Closed", 6));
    same(&rt, 7, executed.len(), ANSWERED_LEN);
}
