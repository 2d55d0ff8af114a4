//! An endpoint of a test. Its calls check at run time what an endpoint asks of its owner, and end the test if it doesn't hold.

ghost use Rattle.std.specs.Prelude.{◌≡◌, ◌+◌, ◌^◌, ◌≤◌, length, true};
ghost use Rattle.nr_endpoint.specs.Calls.{IsStopReason};

use crate::short_sink::ShortSink;
use nr_endpoint::{DrainFault, Endpoint, Event, ReadRefused};
use nr_link::{Agreement, End, SideTerms};
use nr_outside::MemSink;
use nr_regions::{Denied, Registration, Right};
use nr_wire::Side;
use nr_xdr::{Memory, Octets};
use std::alloc::Global;
use std::marker::Model;
use std::process::Abort;

/// More bytes than a test feeds.
const MANY: usize = 1 << 32;

/// An endpoint; how many bytes it was fed at most, and, until it ends, at least; and the region that was registered last, until it is
/// released.
#[derive(Drop)]
pub struct TestEndpoint {
    endpoint: Endpoint,
    most: u64,
    least: u64,
    region: Option<Registration>,
}

impl Model for TestEndpoint {
    ghost use Rattle.nr_endpoint_tests.specs.Counts.{IsCounted};
    ghost use Rattle.std.specs.Prelude.{ℕ};

    ghost Value = { ℕ };

    ghost view = { λ e. e.most };

    ghost invariant = { λ e. IsCounted e.endpoint.link e.most e.least e.region };
}

/// Ends the test if a call may not be made.
fn check(rt: &impl Abort, holds: bool)
    ensures { holds ≡ true }
{
    if !holds {
        panic!(rt; "a call that may not be made");
    }
}

/// A number of bytes with those of a piece.
fn with_piece(rt: &impl Abort, fed: u64, piece: &[u8]) -> u64
    ensures sum { result ≡ fed + length piece.now }
    ensures most { result ≤ 2 ^ 61 }
{
    check(rt, fed <= MANY as u64);
    check(rt, piece.len() <= MANY);
    fed + piece.len() as u64
}

/// A reason for which the layer above may end a side.
#[tactic(auto, using(crate::proofs::StopReasons::stop_17, crate::proofs::StopReasons::stop_18, crate::proofs::StopReasons::stop_19, crate::proofs::StopReasons::stop_20, crate::proofs::StopReasons::stop_21, crate::proofs::StopReasons::stop_23, crate::proofs::StopReasons::stop_29, crate::proofs::StopReasons::stop_30))]
fn stop_reason(rt: &impl Abort, reason: u32) -> u32
    ensures same { result ≡ reason }
    ensures reason { IsStopReason result }
{
    if reason == 17 {
        return 17;
    }
    if reason == 18 {
        return 18;
    }
    if reason == 19 {
        return 19;
    }
    if reason == 20 {
        return 20;
    }
    if reason == 21 {
        return 21;
    }
    if reason == 23 {
        return 23;
    }
    if reason == 29 {
        return 29;
    }
    check(rt, reason == 30);
    30
}

impl TestEndpoint {
    /// An endpoint with two receives, whose first region has STag 1, and which has one unit.
    pub fn open(rt: &impl Abort, alloc: Global, side: Side) -> TestEndpoint {
        TestEndpoint::open_with(rt, alloc, side, SideTerms::default_terms())
    }

    /// The same with these terms.
    pub fn open_with(rt: &impl Abort, alloc: Global, side: Side, terms: SideTerms) -> TestEndpoint {
        TestEndpoint {
            endpoint: Endpoint::open(alloc, side, 2, 1, terms).expect(rt, "memory"),
            most: 0,
            least: 0,
            region: None,
        }
    }

    /// An initiator of a next link, with what an earlier hello agreed on.
    pub fn open_again(
        rt: &impl Abort,
        alloc: Global,
        terms: SideTerms,
        earlier: Agreement,
    ) -> TestEndpoint {
        TestEndpoint {
            endpoint: Endpoint::open_again(alloc, 2, 1, terms, Some(earlier)).expect(rt, "memory"),
            most: 0,
            least: 0,
            region: None,
        }
    }

    /// The endpoint, for all that changes nothing.
    pub fn endpoint(&self) -> &Endpoint {
        &self.endpoint
    }

    /// Feeds a piece, as [`Endpoint::feed`] does.
    pub fn feed(&mut self, rt: &impl Abort, piece: &[u8]) -> Result<(), End> {
        self.most = with_piece(rt, self.most, piece);
        self.least = with_piece(rt, self.least, piece);
        self.endpoint.feed(piece)
    }

    /// Feeds a piece up to the end of a frame, as [`Endpoint::feed_one`] does.
    pub fn feed_one(&mut self, rt: &impl Abort, piece: &[u8]) -> Result<usize, End> {
        self.most = with_piece(rt, self.most, piece);
        self.least = 0;
        self.endpoint.feed_one(piece)
    }

    /// Ends the side for what the layer above made of a message, after a complete frame of the peer.
    pub fn stop(&mut self, rt: &impl Abort, reason: u32) -> End {
        let staged = self.endpoint.staged() as u64;
        check(rt, self.endpoint.end().is_none());
        check(rt, self.least > staged);
        self.endpoint.stop(stop_reason(rt, reason))
    }

    /// Takes the next event. A buffer in it is no receive again.
    pub fn next_event(&mut self) -> Option<Event> {
        self.endpoint.next_event()
    }

    /// The next event, which is a message: the bytes of its buffer, and how many of them the message has. The buffer is a receive again.
    #[tactic(auto, using(nr_endpoint::proofs::FedBytes::message_lent))]
    pub fn message(&mut self, rt: &impl Abort, alloc: Global) -> (Vec<u8>, usize) {
        match self.endpoint.next_event() {
            Some(Event::Message { buf, len, .. }) => {
                let bytes = Vec::from_slice(alloc, buf.as_slice()).expect(rt, "memory");
                self.endpoint.post(buf);
                (bytes, len)
            }
            Some(Event::ReadDone) | None => panic!(rt; "a message came"),
        }
    }

    /// Queues a Send.
    pub fn send(&mut self, rt: &impl Abort, message: &[u8]) -> Result<(), Memory> {
        check(rt, message.len() < MANY);
        self.endpoint.send(message)
    }

    /// Queues the Send of a message in two parts.
    pub fn send_parts(
        &mut self,
        rt: &impl Abort,
        front: &[u8],
        stream: &[u8],
    ) -> Result<(), Memory> {
        check(rt, front.len() + stream.len() < MANY);
        self.endpoint.send_parts(front, stream)
    }

    /// Holds a Send back.
    pub fn hold(&mut self, rt: &impl Abort, alloc: Global, message: &[u8]) -> Result<(), Memory> {
        check(rt, message.len() < MANY);
        let message = Octets::from_slice(alloc, message).expect(rt, "memory");
        self.endpoint.hold(message)
    }

    /// Queues the first Send that is held back.
    pub fn send_held(&mut self) {
        self.endpoint.send_held();
    }

    /// Queues a Send with Invalidate of the peer's region.
    pub fn send_invalidate(
        &mut self,
        rt: &impl Abort,
        message: &[u8],
        stag: u32,
    ) -> Result<(), Memory> {
        check(rt, message.len() < MANY);
        self.endpoint.send_invalidate(message, stag)
    }

    /// Lets the region under an STag die.
    pub fn invalidate(&mut self, stag: u32) -> Result<(), Denied> {
        self.endpoint.invalidate(stag)
    }

    /// Queues an RDMA Write of some bytes into the peer's region, from byte `to` on.
    pub fn write_remote(
        &mut self,
        rt: &impl Abort,
        stag: u32,
        to: u64,
        bytes: &[u8],
    ) -> Result<(), Memory> {
        check(rt, u128::from(to) + bytes.len() as u128 <= 1 << 64);
        self.endpoint.write_remote(stag, to, bytes)
    }

    /// Queues a Read Request for `len` bytes of the peer's region, from byte `to` on, into the region that is kept, from byte `at` on.
    pub fn read_remote(
        &mut self,
        rt: &impl Abort,
        at: u64,
        stag: u32,
        to: u64,
        len: u64,
    ) -> Result<(), ReadRefused> {
        let Some(sink) = &self.region else {
            panic!(rt; "no region is kept");
        };
        check(rt, at <= MANY as u64);
        check(rt, len < MANY as u64);
        check(rt, at + len <= sink.len());
        check(rt, to <= MANY as u64);
        self.endpoint.read_remote(sink, at, stag, to, len)
    }

    /// Hands the output to a sink.
    pub fn drain_into(&mut self, sink: &mut MemSink) -> Result<(), DrainFault> {
        self.endpoint.drain_into(sink)
    }

    /// Hands the output to a sink that takes a few bytes a call.
    pub fn drain_in_parts(&mut self, sink: &mut ShortSink) -> Result<(), DrainFault> {
        self.endpoint.drain_into(sink)
    }

    /// Registers a region of these bytes, which is the one that is kept. Gives its STag.
    pub fn register(&mut self, rt: &impl Abort, alloc: Global, bytes: &[u8], right: Right) -> u32 {
        let buf = Octets::from_slice(alloc, bytes).expect(rt, "memory");
        match self.endpoint.register(buf, right) {
            Ok(registration) => {
                let stag = registration.stag();
                self.region = Some(registration);
                stag
            }
            Err(_) => panic!(rt; "a region is registered"),
        }
    }

    /// Registers a region of these bytes, and releases it.
    pub fn register_briefly(&mut self, rt: &impl Abort, alloc: Global, bytes: &[u8], right: Right) {
        let buf = Octets::from_slice(alloc, bytes).expect(rt, "memory");
        match self.endpoint.register_window(buf, 0, bytes.len(), right) {
            Ok(registration) => {
                let buf = self.endpoint.release_buffer(registration);
                check(rt, buf.len() == bytes.len());
            }
            Err(_) => panic!(rt; "a region is registered"),
        }
    }

    /// Releases the region that is kept.
    pub fn release(&mut self, rt: &impl Abort) -> Octets {
        match self.region.take() {
            Some(registration) => self.endpoint.release(registration),
            None => panic!(rt; "no region is kept"),
        }
    }
}
