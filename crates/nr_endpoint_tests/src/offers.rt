//! Several calls of an owner at once, at sizes at which a body that answers out of memory is seen.

use crate::compare::same;
use crate::words::{bytes_of, put_byte};
use bytes::Bytes;
use nr_endpoint::{Claims, Endpoint, Offered, RemoteWrite, SharedWrite};
use nr_link::{End, SideTerms};
use nr_outside::MemSink;
use nr_regions::{Registration, Right};
use nr_wire::Side;
use nr_xdr::Octets;
use std::alloc::Global;
use std::process::Abort;

/// A buffer of `len` bytes, all 7.
fn sevens(rt: &impl Abort, alloc: Global, len: usize) -> Octets {
    let mut bytes = Vec::new(alloc);
    put_byte(rt, &mut bytes, 7, len);
    Octets::from_vec(bytes)
}

/// Three regions to be read, and filled by a write chunk and a reply chunk.
fn three(rt: &impl Abort, alloc: Global) -> Offered {
    Offered {
        read: Some(sevens(rt, alloc, 65536)),
        write: Some(sevens(rt, alloc, 8)),
        reply: Some(sevens(rt, alloc, 16)),
    }
}

fn stag_of(registration: &Option<Registration>) -> u32 {
    match registration {
        None => 0,
        Some(registration) => registration.stag(),
    }
}

/// The STags of what was offered, or 0.
fn stags_of(claims: &Claims) -> (u32, u32, u32) {
    (
        stag_of(&claims.read),
        stag_of(&claims.write),
        stag_of(&claims.reply),
    )
}

/// A side with 64 receives offers three regions with a Send: they have the STags 1, 2 and 3.
fn offer_three(rt: &impl Abort, alloc: Global, endpoint: &mut Endpoint) {
    if endpoint.regions().stags_left() < 3 {
        panic!(rt; "STags are left");
    }
    match endpoint.offer_parts(&[7; 24], &[7; 1000], three(rt, alloc)) {
        Err(_) => panic!(rt; "the regions are registered"),
        Ok(claims) => {
            same(rt, 1, stags_of(&claims), (1, 2, 3));
            if let Some(write) = &claims.write {
                same(rt, 2, endpoint.regions().bytes(write), &[7; 8]);
            }
        }
    }
}

/// After the layer above ran out of memory, a region is still registered, and nothing more is queued.
fn runs_out(rt: &impl Abort, alloc: Global, endpoint: &mut Endpoint) {
    same(rt, 4, endpoint.run_out(), End::Memory);
    match endpoint.register(sevens(rt, alloc, 8), Right::Fill) {
        Err(_) => panic!(rt; "a region is registered"),
        Ok(registration) => same(rt, 5, registration.stag(), 4),
    }
    same(rt, 6, endpoint.run_out(), End::Memory);
    same(rt, 7, endpoint.end(), Some(End::Memory));
}

/// What is kept: the staging buffer, 64 receives, three regions, the hello, and a Send of 1024 bytes in an FPDU of 1048.
const HELD: u128 = 65544 + 65536 + 65560 + 20 + 1048;

#[test]
fn offers(rt: HostRuntime) {
    let alloc = rt.alloc();
    let terms = SideTerms::default_terms();
    let mut endpoint = Endpoint::open(alloc, Side::Initiator, 64, 1, terms).expect(&rt, "memory");
    same(&rt, 0, endpoint.receives_free(), 64);
    endpoint.facts();
    let begun = (endpoint.has_hello(), endpoint.is_send_begun());
    same(&rt, 0, begun, (false, false));
    same(&rt, 0, endpoint.make_room(3), Ok(()));
    offer_three(&rt, alloc, &mut endpoint);
    same(&rt, 2, endpoint.regions().bytes_held(), 65560);
    same(&rt, 3, endpoint.held(), HELD);
    runs_out(&rt, alloc, &mut endpoint);
    same(&rt, 8, endpoint.held(), HELD + 8);
    drop(endpoint);
}

/// An initiator that was fed its peer's hello.
#[tactic(auto, using(nr_endpoint::proofs::FedBytes::open_fed))]
fn fed_hello(rt: &impl Abort, alloc: Global) -> Endpoint {
    let hello = bytes_of(rt, alloc, Side::Initiator, "peer-key 10000");
    if hello.len() > 100 {
        panic!(rt; "a hello has 20 bytes");
    }
    let terms = SideTerms::default_terms();
    let mut endpoint = Endpoint::open(alloc, Side::Initiator, 1, 1, terms).expect(rt, "memory");
    same(rt, 0, endpoint.feed(hello.as_slice()), Ok(()));
    endpoint
}

/// Ends the test if an initiator has other bytes to write than its hello and these, which are one Send at the end.
fn writes(rt: &impl Abort, alloc: Global, endpoint: &mut Endpoint, text: &str) {
    let mut sink = MemSink::new(alloc, Vec::new(alloc));
    same(rt, 2, endpoint.drain_into(&mut sink), Ok(()));
    let mut want = bytes_of(rt, alloc, Side::Initiator, "own-key 10000");
    let after = bytes_of(rt, alloc, Side::Initiator, text);
    want.extend_from_slice(after.as_slice())
        .expect(rt, "memory");
    same(rt, 3, sink.bytes(), want.as_slice());
    same(rt, 4, endpoint.sends_left(), 1);
}

/// Two RDMA Writes of four bytes and a Send of 16.
static ANSWER: &str = "12c140 9 0 10 1010101 0 12c140 a 0 0 2020202 0 224143 0 0 1 0 3030303*4 0";

/// Queues them in their order, with the message in one part or in two.
fn queue_answer(rt: &impl Abort, endpoint: &mut Endpoint, in_parts: bool) {
    let writes = [
        RemoteWrite {
            stag: 9,
            to: 16,
            bytes: &[1; 4],
        },
        RemoteWrite {
            stag: 10,
            to: 0,
            bytes: &[2; 4],
        },
    ];
    let queued = if in_parts {
        endpoint.answer_parts(&writes, None, &[3; 4], &[3; 12])
    } else {
        endpoint.answer(&writes, None, &[3; 16])
    };
    same(rt, 1, queued, Ok(()));
}

/// An RDMA Write of 5000 bytes, and a Send of 16.
static LONG_ANSWER: &str =
    "100e8140 9 0 0 7070707*1024 0 396c140 9 0 1000 7070707*226 0 224143 0 0 1 0 3030303*4 0";

/// Queues them, with bytes of the RDMA Write that are shared.
fn queue_shared(rt: &impl Abort, alloc: Global, endpoint: &mut Endpoint) {
    let bytes = Bytes::copy_from_slice(alloc, sevens(rt, alloc, 5000).as_slice());
    let bytes = bytes.expect(rt, "memory");
    same(rt, 0, bytes.len(), 5000);
    let writes = [SharedWrite {
        stag: 9,
        to: 0,
        bytes,
    }];
    let queued = endpoint.answer_shared(&writes, None, &[3; 4], &[3; 12]);
    same(rt, 1, queued, Ok(()));
}

#[test]
fn answers(rt: HostRuntime) {
    let alloc = rt.alloc();
    for in_parts in [false, true] {
        let mut endpoint = fed_hello(&rt, alloc);
        queue_answer(&rt, &mut endpoint, in_parts);
        writes(&rt, alloc, &mut endpoint, ANSWER);
        drop(endpoint);
    }
}

#[test]
fn shared_answers(rt: HostRuntime) {
    let mut endpoint = fed_hello(&rt, rt.alloc());
    queue_shared(&rt, rt.alloc(), &mut endpoint);
    writes(&rt, rt.alloc(), &mut endpoint, LONG_ANSWER);
    drop(endpoint);
}

/// A Send that offers nothing is queued.
#[test]
fn offers_nothing(rt: HostRuntime) {
    let mut endpoint = fed_hello(&rt, rt.alloc());
    let nothing = Offered {
        read: None,
        write: None,
        reply: None,
    };
    if endpoint.regions().stags_left() < 1 {
        panic!(rt; "STags are left");
    }
    same(&rt, 1, endpoint.offer(&[4; 16], nothing).is_ok(), true);
    same(&rt, 2, endpoint.sends_waiting(), 1);
    drop(endpoint);
}
