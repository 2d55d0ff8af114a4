//! Why a segment ends a side of a link (RFC 5041 section 7; RFC 5040 section 7). The order is own.

ghost use Rattle.std.specs.Prelude.{◌≡◌, ◌+◌, ◌^◌, ◌<◌, ◌≤◌, length, Some};
ghost use Rattle.nr_wire.specs.Segment.{IsSupported, payload_in};
ghost use Rattle.nr_wire.specs.View.{segment as plain};
ghost use Rattle.nr_link.specs.ReceiveState.{is_send, read_request_in};
ghost use Rattle.nr_link.specs.declared.end.End.TheVariants as ends;
ghost use Rattle.nr_link.specs.SegmentFaults.{is_malformed, next_msn, next_offset};
ghost use Rattle.nr_link.specs.Frames.{Frame};
ghost use Rattle.nr_regions.specs.RegisteredMemory.{denial, right_for};
ghost use Rattle.nr_endpoint.specs.SegmentEnds.{IsUntagged, denied_if, message_end, send_end, request_end, terminate_end};
ghost use Rattle.nr_link.specs.Ending.{kind_of};
ghost use Rattle.nr_endpoint.specs.Judging.{segment_end};
ghost use Rattle.nr_endpoint.specs.Views.{read_request_view};

use crate::constants::{OPEN_READS_MAX, READ_REQUEST_LEN, SEND_MIN, TERMINATE_MIN};
use crate::link::LinkSide;
use nr_link::End;
use nr_link::constants::{
    REASON_FORM, REASON_LONG, REASON_MSN, REASON_OFFSET, REASON_REQUESTS, REASON_RESPONSE,
    REASON_SHORT,
};
use nr_regions::Kind;
use nr_wire::constants::{
    OPCODE_READ_REQUEST, OPCODE_READ_RESPONSE, OPCODE_SEND, OPCODE_SEND_INVALIDATE,
    QUEUE_READ_REQUEST, QUEUE_SEND,
};
use nr_wire::{Segment, hyper_at};
use nr_xdr::word_at;

/// A Read Request's fields (RFC 5040 section 4.4): `size` bytes of the region `stag`, from `to` on, are asked for, for the region
/// `sink` of the peer, from `sink_to` on.
#[derive(Clone, Copy)]
pub struct ReadRequest {
    /// The STag of the sink (Data Sink STag).
    pub sink: u32,
    /// The offset in the sink (Data Sink Tagged Offset).
    pub sink_to: u64,
    /// In bytes (RDMA Read Message Size).
    pub size: u32,
    /// The STag of the source (Data Source STag).
    pub stag: u32,
    /// The offset in the source (Data Source Tagged Offset).
    pub to: u64,
}

/// The fields in the payload of a Read Request.
pub fn read_request(payload: &[u8]) -> ReadRequest
    requires { length payload.now ≡ 28 }
    ensures { read_request_view result ≡ read_request_in payload.now }
{
    ReadRequest {
        sink: word_at(payload, 0),
        sink_to: hyper_at(payload, 4),
        size: word_at(payload, 12),
        stag: word_at(payload, 16),
        to: hyper_at(payload, 20),
    }
}

/// Whether an opcode is that of a Send.
pub fn is_send(opcode: u8) -> bool
    ensures { result ≡ is_send opcode }
{
    opcode == OPCODE_SEND || opcode == OPCODE_SEND_INVALIDATE
}

/// The kind of a tagged segment.
pub fn kind_of(opcode: u8) -> Kind
    ensures { result ≡ kind_of opcode }
{
    if opcode == OPCODE_READ_RESPONSE {
        Kind::Response
    } else {
        Kind::Write
    }
}

/// Whether a Read Request isn't one segment of its length, or its offset and size in the peer's region pass 2^64.
fn is_bad_request(last: bool, payload: &[u8]) -> bool
    ensures { result ≡ is_malformed OPCODE_READ_REQUEST last payload.now }
{
    if !last || payload.len() != READ_REQUEST_LEN {
        return true;
    }
    let request = read_request(payload);
    u128::from(request.sink_to) + u128::from(request.size) > 1 << 64
}

impl LinkSide {
    /// Why an untagged segment ends the side, if it does: the first fault that applies.
    pub fn fault(&self, segment: &Segment) -> Option<End>
        requires untagged { IsUntagged (plain segment.now) }
        requires supported { IsSupported (plain segment.now) }
        requires size { length (payload_in (plain segment.now)) < 2 ^ 16 }
        requires place { self.now.state.place ≤ 2 ^ 62 }
        ensures { (frame : Frame) → frame.at ≡ self.now.state.place → result ≡ segment_end self.now.state frame (plain segment.now) }
    {
        match *segment {
            Segment::Tagged { .. } => unreachable!(),
            Segment::Untagged {
                last,
                opcode,
                queue,
                msn,
                offset,
                payload,
                ..
            } => {
                let fault = self.message_fault(queue, msn, offset);
                if fault.is_some() {
                    return fault;
                }
                if is_send(opcode) {
                    return self.send_fault(last, msn, payload);
                }
                if opcode == OPCODE_READ_REQUEST {
                    return self.request_fault(last, payload);
                }
                self.terminate_fault(last, payload)
            }
        }
    }

    /// The end for a reason, at the frame that is judged.
    fn bad(&self, reason: u32) -> Option<End>
        ensures { result ≡ Some (ends.Bad self.now.state.place reason) }
    {
        Some(End::Bad {
            at: self.place,
            reason,
        })
    }

    /// The end for a Read Response that isn't expected: its access, if that isn't allowed.
    pub fn unexpected(&self, opcode: u8, stag: u32, to: u64, len: u64) -> End
        ensures { Some result ≡ denied_if stag to (denial self.now.state.memory (record { right = right_for (kind_of opcode); stag = stag; to = to; len = len }))
            (Some (ends.Bad self.now.state.place REASON_RESPONSE)) }
    {
        match self.regions.denial(kind_of(opcode), stag, to, len) {
            Some(why) => End::Denied {
                stag,
                offset: to,
                why,
            },
            None => End::Bad {
                at: self.place,
                reason: REASON_RESPONSE,
            },
        }
    }

    /// The number of the next message of a queue (RFC 5041 section 4.3).
    fn next_msn(&self, queue: u32) -> u32
        requires { self.now.state.place ≤ 2 ^ 62 }
        ensures { result ≡ next_msn self.now.state.receive_queue.received queue }
    {
        let count = if queue == QUEUE_SEND {
            self.receive_queue.sends()
        } else if queue == QUEUE_READ_REQUEST {
            self.receive_queue.requests()
        } else {
            return 1;
        };
        ((count + 1) % 0x1_0000_0000) as u32
    }

    /// The next offset in a queue's message.
    fn next_offset(&self, queue: u32) -> u64
        ensures { result ≡ next_offset self.now.state.receive_queue.received queue }
    {
        if queue == QUEUE_SEND {
            self.receive_queue.begun_len()
        } else {
            0
        }
    }

    /// A message number that isn't the next of its queue, or an offset that isn't the number of bytes of its message so far.
    #[tactic(auto, unfolding(crate::specs::SegmentEnds::message_end))]
    fn message_fault(&self, queue: u32, msn: u32, offset: u32) -> Option<End>
        requires { self.now.state.place ≤ 2 ^ 62 }
        ensures { result ≡ message_end self.now.state queue msn offset }
    {
        if msn != self.next_msn(queue) {
            return self.bad(REASON_MSN);
        }
        if u64::from(offset) != self.next_offset(queue) {
            return self.bad(REASON_OFFSET);
        }
        None
    }

    /// A Send that finds no receive, or one that is complete and too long or too short.
    #[tactic(auto, unfolding(crate::specs::SegmentEnds::send_end))]
    fn send_fault(&self, last: bool, msn: u32, payload: &[u8]) -> Option<End>
        requires place { self.now.state.place ≤ 2 ^ 62 }
        requires size { length payload.now < 2 ^ 16 }
        ensures { result ≡ send_end self.now.state last msn payload.now }
    {
        if !(self.receive_queue.is_begun() || self.receive_queue.has_free()) {
            return Some(End::NoBuffer { msn });
        }
        let len = self.receive_queue.begun_len() + payload.len() as u64;
        if last && len > self.message_max {
            return self.bad(REASON_LONG);
        }
        if last && len < SEND_MIN {
            return self.bad(REASON_SHORT);
        }
        None
    }

    /// A Read Request of another form, of bytes that the peer may not read, or while too many responses are owed.
    #[tactic(auto, unfolding(crate::specs::SegmentEnds::request_end))]
    fn request_fault(&self, last: bool, payload: &[u8]) -> Option<End>
        ensures { result ≡ request_end self.now.state last payload.now }
    {
        if is_bad_request(last, payload) {
            return self.bad(REASON_FORM);
        }
        let request = read_request(payload);
        let fetched = self
            .regions
            .fetch(request.stag, request.to, u64::from(request.size));
        if let Err(why) = fetched {
            return Some(End::Denied {
                stag: request.stag,
                offset: request.to,
                why,
            });
        }
        if self.send_queue.responses() >= OPEN_READS_MAX {
            return self.bad(REASON_REQUESTS);
        }
        None
    }

    /// The peer's Terminate, or one of another form.
    #[tactic(auto, unfolding(crate::specs::SegmentEnds::terminate_end))]
    fn terminate_fault(&self, last: bool, payload: &[u8]) -> Option<End>
        ensures { result ≡ terminate_end self.now.state last payload.now }
    {
        if !last || payload.len() < TERMINATE_MIN {
            return self.bad(REASON_FORM);
        }
        Some(End::Terminated {
            reason: word_at(payload, 0),
        })
    }
}
