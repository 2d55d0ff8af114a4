//! Terms: what hellos say in their private data, and what both sides agree on. What private data says is this project's own
//! (RFC 5044 section 7.1 leaves it to the sides).

use crate::compare::same;
use nr_link::{Agreement, SideTerms};
use nr_wire::read_terms;
use std::process::Abort;

/// The private data of an initiator and of a responder; the maximum length of a Send from each in bytes, and whether a reply is
/// a Send with Invalidate.
type Agreed = (&'static [u8], &'static [u8], (u32, u32, bool));

static AGREED: [Agreed; 13] = [
    // A side has no terms: no private data, seven bytes, another name, another version.
    (b"", b"NR01\x01\x00\x01\x01", (1024, 1024, false)),
    (b"NR01\x01\x00\x01\x01", b"", (1024, 1024, false)),
    (
        b"NR01\x01\x00\x01",
        b"NR01\x01\x00\x01\x01",
        (1024, 1024, false),
    ),
    (
        b"NR01\x01\x00\x01\x01",
        b"NR02\x01\x00\x01\x01",
        (1024, 1024, false),
    ),
    (
        b"NR01\x00\x00\x01\x01",
        b"NR01\x01\x00\x01\x01",
        (1024, 1024, false),
    ),
    (
        b"NR01\x01\x00\x01\x01",
        b"NR01\x02\x00\x01\x01",
        (1024, 1024, false),
    ),
    // The least of what one side sends and the other receives.
    (
        b"NR01\x01\x00\x03\x03",
        b"NR01\x01\x00\x01\x01",
        (2048, 2048, false),
    ),
    (
        b"NR01\x01\x00\x03\x00",
        b"NR01\x01\x00\x01\x0f",
        (4096, 1024, false),
    ),
    // 15, 16, 17 and 256 units: 16 is the maximum.
    (
        b"NR01\x01\x00\x0e\x0f",
        b"NR01\x01\x00\x0f\x0f",
        (15360, 16384, false),
    ),
    (
        b"NR01\x01\x00\x10\xff",
        b"NR01\x01\x00\xff\x10",
        (16384, 16384, false),
    ),
    // Sends with Invalidate: both sides have to say so. Unknown flags are ignored.
    (
        b"NR01\x01\x02\x00\x00",
        b"NR01\x01\x00\x00\x00",
        (1024, 1024, false),
    ),
    (
        b"NR01\x01\xfc\x00\x00",
        b"NR01\x01\x02\x00\x00",
        (1024, 1024, false),
    ),
    (
        b"NR01\x01\xfe\x00\x00\xff",
        b"NR01\x01\x02\x00\x00",
        (1024, 1024, true),
    ),
];

#[test]
fn both_agree(rt: HostRuntime) {
    for (row, (initiator, responder, want)) in AGREED.iter().enumerate() {
        let agreed = Agreement::new(initiator, responder);
        same(
            &rt,
            row,
            (agreed.up, agreed.down, agreed.invalidates),
            *want,
        );
    }
    let default = Agreement::default_agreement();
    same(
        &rt,
        0,
        (default.up, default.down, default.invalidates),
        (1024, 1024, false),
    );
}

/// What a side is opened with: its units, its number, whether it makes or takes Sends with Invalidate; its private data as an
/// initiator, and as a responder to a request with terms.
type Said = ((u8, u64, bool), &'static [u8], &'static [u8]);

static SAID: [Said; 6] = [
    ((1, 0, false), b"", b"NR01\x01\x00\x00\x00"),
    (
        (2, 0, false),
        b"NR01\x01\x00\x01\x01",
        b"NR01\x01\x00\x01\x01",
    ),
    (
        (16, 0, true),
        b"NR01\x01\x02\x0f\x0f",
        b"NR01\x01\x02\x0f\x0f",
    ),
    (
        (17, 0, false),
        b"NR01\x01\x00\x0f\x0f",
        b"NR01\x01\x00\x0f\x0f",
    ),
    // A responder says no number.
    (
        (1, 5, false),
        b"NR01\x01\x01\x00\x00\x00\x00\x00\x00\x00\x00\x00\x05",
        b"NR01\x01\x00\x00\x00",
    ),
    (
        (2, 0x0102_0304_0506_0708, true),
        b"NR01\x01\x03\x01\x01\x01\x02\x03\x04\x05\x06\x07\x08",
        b"NR01\x01\x02\x01\x01",
    ),
];

/// Ends the test if a side says something else.
fn says(rt: &impl Abort, row: usize, opened: (u8, u64, bool), initiator: &[u8], responder: &[u8]) {
    let (units, number, invalidates) = opened;
    let terms = SideTerms {
        units,
        number,
        invalidates,
    };
    let request = terms.initiator_private();
    same(rt, row, request.as_slice(), initiator);
    let reply = terms.responder_private(b"NR01\x01\x00\x03\x03");
    same(rt, row, reply.as_slice(), responder);
    same(rt, row, terms.responder_private(b"NR01").is_empty(), true);
}

#[test]
fn sides_say_their_terms(rt: HostRuntime) {
    for (row, (opened, initiator, responder)) in SAID.iter().enumerate() {
        says(&rt, row, *opened, initiator, responder);
    }
    same(
        &rt,
        0,
        SideTerms::default_terms().initiator_private().is_empty(),
        true,
    );
}

/// Private data with terms, and the number of a client that it says.
static NUMBERS: [(&[u8], u64); 4] = [
    (b"NR01\x01\x00\x00\x00\x00\x00\x00\x00\x00\x00\x00\x05", 0),
    (b"NR01\x01\x01\x00\x00\x00\x00\x00\x00\x00\x00\x00", 0),
    (b"NR01\x01\x01\x00\x00\x00\x00\x00\x00\x00\x00\x00\x05", 5),
    (
        b"NR01\x01\x01\x00\x00\x00\x00\x00\x00\x00\x00\x01\x00\xff",
        256,
    ),
];

#[test]
fn numbers_are_read(rt: HostRuntime) {
    for (row, (private, number)) in NUMBERS.iter().enumerate() {
        same(
            &rt,
            row,
            read_terms(private).map(|terms| terms.number),
            Some(*number),
        );
    }
}
