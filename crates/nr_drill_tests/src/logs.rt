//! What crossed a link, by marks.

use crate::compare::same;
use nr_drill::{LinkLog, link_log};
use nr_marks::MarkLog;
use nr_reduce::Mark;
use nr_wire::Side;
use nr_xdr::Octets;
use std::alloc::Global;
use std::process::Abort;

/// Bytes that a side of a link was fed, or wrote.
static ROWS: [(u32, bool, Side, &[u8]); 6] = [
    (1, false, Side::Initiator, b"ab"),
    (2, false, Side::Initiator, b"z"),
    (1, true, Side::Responder, b"ab"),
    (1, false, Side::Responder, b"x"),
    (1, false, Side::Initiator, b"c"),
    (1, true, Side::Initiator, b"x"),
];

/// What the client of link 1 wrote, what its server wrote, and what each of them was fed.
static PARTS: [&[u8]; 4] = [b"abc", b"x", b"x", b"ab"];

fn mark_of(link: u32, is_fed: bool, side: Side, bytes: Octets) -> Mark {
    if is_fed {
        Mark::Fed { link, side, bytes }
    } else {
        Mark::Wrote { link, side, bytes }
    }
}

fn log_of(rt: &impl Abort, alloc: Global, link: u32) -> LinkLog {
    let mut marks = MarkLog::new(alloc);
    for (link, is_fed, side, bytes) in ROWS.iter() {
        let bytes = Octets::from_slice(alloc, bytes).expect(rt, "memory");
        marks
            .push(mark_of(*link, *is_fed, *side, bytes))
            .expect(rt, "memory");
    }
    let marks = marks.finish().expect(rt, "memory");
    link_log(alloc, &marks, link).expect(rt, "memory")
}

fn part_of(rt: &impl Abort, alloc: Global, part: usize) -> Vec<u8> {
    let LinkLog {
        client_wrote,
        server_wrote,
        client_was_fed,
        server_was_fed,
    } = log_of(rt, alloc, 1);
    match part {
        0 => client_wrote.into_vec(),
        1 => server_wrote.into_vec(),
        2 => client_was_fed.into_vec(),
        _ => server_was_fed.into_vec(),
    }
}

#[test]
fn parts_of_a_log(rt: HostRuntime) {
    for (part, want) in PARTS.iter().enumerate() {
        let want = want.to_vec(rt.alloc()).expect(&rt, "memory");
        same(&rt, part, part_of(&rt, rt.alloc(), part), want);
    }
}
