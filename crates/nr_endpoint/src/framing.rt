//! FPDUs at the end of some bytes: segments, and messages and accesses cut into segments.

ghost use Rattle.std.specs.Prelude.{◌≡◌, ◌+◌, ◌*◌, ◌^◌, ◌<◌, ◌≤◌, ◌++◌, if◌then◌else◌, length, true, All, IfOk, OnOk, OnErr};
ghost use Rattle.nr_wire.specs.Segment.{IsWritable, encoding, payload_in};
ghost use Rattle.nr_wire.specs.Segment.Segment.{Untagged};
ghost use Rattle.nr_wire.specs.View.{segment as plain};
ghost use Rattle.nr_link.specs.Output.{cut, segment_count, segment_payload, terminate_message};
ghost use Rattle.nr_endpoint.specs.OperationSegments.{operation_segment, cut_room, send_opcode, send_word, sender, writes_room, FitsAt, FitsOperation};
ghost use Rattle.nr_endpoint.specs.Offering.{FitsRegion, writes_output};

use crate::constants::{FRAMING_MAX, SEGMENT_MAX};
use crate::output::Output;
use nr_wire::constants::{
    OPCODE_READ_RESPONSE, OPCODE_SEND, OPCODE_SEND_INVALIDATE, OPCODE_TERMINATE, OPCODE_WRITE,
    QUEUE_SEND, QUEUE_TERMINATE, UNTAGGED_LEN,
};
use nr_wire::{Segment, payload_in, segment_header, segment_tail, ulpdu_size, untagged_header};
use nr_xdr::{Memory, Octets};
use std::alloc::Global;

/// What carries some bytes that are cut into segments: the Send with a number, or an RDMA Write or Read Response from byte `to` of a
/// region on.
#[derive(Clone, Copy)]
pub enum Operation {
    /// The Send with this message sequence number, from 1 on (RFC 5041 section 5.2).
    Send { msn: u32 },
    /// The Send with Invalidate with this message sequence number, whose last segment names the STag (RFC 5040 section 4).
    SendInvalidate { msn: u32, stag: u32 },
    /// An RDMA Write into the peer's region `stag`, from byte `to` on (RFC 5040 section 4).
    Write { stag: u32, to: u64 },
    /// A Read Response into the peer's region `stag`, from byte `to` on (RFC 5040 section 4).
    Response { stag: u32, to: u64 },
}

/// An RDMA Write: some bytes into the peer's region `stag`, from byte `to` on.
#[derive(Clone, Copy)]
pub struct RemoteWrite<'a> {
    /// The peer's region.
    pub stag: u32,
    /// The offset of the first byte in that region.
    pub to: u64,
    /// What is written. Offset and length stay within 2^64 in sum.
    pub bytes: &'a [u8],
}

/// The Send with a number, with Invalidate if it names an STag.
pub fn sender(named: Option<u32>, msn: u32) -> Operation
    ensures { result ≡ sender named msn }
{
    match named {
        None => Operation::Send { msn },
        Some(stag) => Operation::SendInvalidate { msn, stag },
    }
}

/// The opcode of a Send, and the word that the header of its last segment has before the queue (RFC 5040 sections 4.6 and 4.7).
fn send_opening(named: Option<u32>) -> (u8, u32)
    ensures opcode { result.0 ≡ send_opcode named }
    ensures word { result.1 ≡ send_word named }
{
    match named {
        None => (OPCODE_SEND, 0),
        Some(stag) => (OPCODE_SEND_INVALIDATE, stag),
    }
}

/// The word of a segment of a Send with Invalidate: the last one has the STag (RFC 5040 section 4.7), the others 0.
fn last_word(last: bool, stag: u32) -> u32
    ensures { result ≡ (if last then stag else 0) }
{
    if last { stag } else { 0 }
}

/// A segment of a Send with this opcode.
fn send_segment(
    last: bool,
    opcode: u8,
    word: u32,
    msn: u32,
    offset: usize,
    payload: &[u8],
) -> Segment<'_>
    requires { offset < 2 ^ 32 }
    ensures { plain result ≡ Untagged last opcode word QUEUE_SEND msn offset payload.now }
{
    Segment::Untagged {
        last,
        opcode,
        word,
        queue: QUEUE_SEND,
        msn,
        offset: offset as u32,
        payload,
    }
}

/// The segment with these bytes, which lie at `offset` of all.
pub fn segment(operation: Operation, last: bool, offset: usize, payload: &[u8]) -> Segment<'_>
    requires { FitsAt operation offset }
    ensures { plain result ≡ operation_segment operation last offset payload.now }
{
    match operation {
        Operation::Send { msn } => send_segment(last, OPCODE_SEND, 0, msn, offset, payload),
        Operation::SendInvalidate { msn, stag } => {
            let word = last_word(last, stag);
            send_segment(last, OPCODE_SEND_INVALIDATE, word, msn, offset, payload)
        }
        Operation::Write { stag, to } => Segment::Tagged {
            last,
            opcode: OPCODE_WRITE,
            stag,
            to: to + offset as u64,
            payload,
        },
        Operation::Response { stag, to } => Segment::Tagged {
            last,
            opcode: OPCODE_READ_RESPONSE,
            stag,
            to: to + offset as u64,
            payload,
        },
    }
}

/// Puts a segment at the end, for which there is room.
pub fn append_segment(out: &mut Output, segment: &Segment)
    requires writable { IsWritable (plain segment.now) }
    requires room { length (payload_in (plain segment.now)) + FRAMING_MAX ≤ out.old.spare }
    ensures bytes { out.new.items ≡ out.old.items ++ encoding (plain segment.now) }
    ensures spare { out.old.spare ≤ out.new.spare + (length (payload_in (plain segment.now)) + FRAMING_MAX) }
    ensures kept { out.new.kept ≡ out.old.kept }
{
    out.append(segment_header(segment).as_slice());
    out.append(payload_in(segment));
    out.append(segment_tail(ulpdu_size(segment)));
}

/// Puts a segment at the end. An `Err` leaves the bytes as they were.
pub fn push_segment(out: &mut Output, segment: &Segment) -> Result<(), Memory>
    requires { IsWritable (plain segment.now) }
    ensures ok { OnOk result (out.new.items ≡ out.old.items ++ encoding (plain segment.now)) }
    ensures err { OnErr result (out.new.items ≡ out.old.items) }
    ensures kept { out.new.kept ≡ out.old.kept }
{
    out.reserve(payload_in(segment).len() + FRAMING_MAX)?;
    append_segment(out, segment);
    Ok(())
}

/// How many segments the bytes take.
pub fn segment_count(bytes: &[u8]) -> usize
    ensures { result ≡ segment_count bytes.now }
{
    bytes.len().div_ceil(SEGMENT_MAX).max(1)
}

/// The bytes of the segment with this number, from 0 on.
fn segment_payload(bytes: &[u8], i: usize) -> &[u8]
    requires { i < 2 ^ 51 }
    ensures { result.now ≡ segment_payload bytes.now i }
{
    let (_, rest) = bytes.split_at(bytes.len().min(SEGMENT_MAX * i));
    let (payload, _) = rest.split_at(rest.len().min(SEGMENT_MAX));
    payload
}

/// Puts the segments of some bytes at the end, for which there is room.
pub fn append_segments(out: &mut Output, operation: Operation, bytes: &[u8])
    requires fits { FitsOperation operation (length bytes.now) }
    requires room { cut_room FRAMING_MAX bytes.now ≤ out.old.spare }
    ensures bytes { out.new.items ≡ out.old.items ++ cut (operation_segment operation) bytes.now }
    ensures spare { out.old.spare ≤ out.new.spare + cut_room FRAMING_MAX bytes.now }
    ensures kept { out.new.kept ≡ out.old.kept }
{
    let count = segment_count(bytes);
    for i in 0..count {
        let payload = segment_payload(bytes, i);
        append_segment(
            out,
            &segment(operation, i + 1 == count, SEGMENT_MAX * i, payload),
        );
    }
}

/// The room that the segments of some bytes take.
pub fn cut_room(bytes: &[u8]) -> usize
    ensures { result ≡ cut_room FRAMING_MAX bytes.now }
{
    bytes.len() + FRAMING_MAX * segment_count(bytes)
}

/// Puts the segments of some bytes at the end. An `Err` leaves the bytes as they were.
pub fn push_cut(out: &mut Output, operation: Operation, bytes: &[u8]) -> Result<(), Memory>
    requires { FitsOperation operation (length bytes.now) }
    ensures ok { OnOk result (out.new.items ≡ out.old.items ++ cut (operation_segment operation) bytes.now) }
    ensures err { OnErr result (out.new.items ≡ out.old.items) }
    ensures kept { out.new.kept ≡ out.old.kept }
{
    out.reserve(cut_room(bytes))?;
    append_segments(out, operation, bytes);
    Ok(())
}

/// Puts the Send of a message in two parts at the end, which is one segment, and for which there is room.
fn append_send(out: &mut Output, named: Option<u32>, msn: u32, front: &[u8], stream: &[u8])
    requires size { length front.now + length stream.now ≤ SEGMENT_MAX }
    requires room { length front.now + length stream.now + FRAMING_MAX ≤ out.old.spare }
    ensures bytes { out.new.items ≡ out.old.items ++ cut (operation_segment (sender named msn)) (front.now ++ stream.now) }
    ensures kept { out.new.kept ≡ out.old.kept }
{
    let len = front.len() + stream.len();
    let (opcode, word) = send_opening(named);
    let header = untagged_header(true, opcode, (word, QUEUE_SEND), (msn, 0), len);
    out.append(header.as_slice());
    out.append(front);
    out.append(stream);
    out.append(segment_tail((UNTAGGED_LEN + len) as u16));
}

/// Puts the Send of a message in two parts at the end, which is one segment. An `Err` leaves the bytes as they were.
pub fn push_send(
    out: &mut Output,
    named: Option<u32>,
    msn: u32,
    front: &[u8],
    stream: &[u8],
) -> Result<(), Memory>
    requires { length front.now + length stream.now ≤ SEGMENT_MAX }
    ensures ok { OnOk result (out.new.items ≡ out.old.items ++ cut (operation_segment (sender named msn)) (front.now ++ stream.now)) }
    ensures err { OnErr result (out.new.items ≡ out.old.items) }
    ensures kept { out.new.kept ≡ out.old.kept }
{
    out.reserve(front.len() + stream.len() + FRAMING_MAX)?;
    append_send(out, named, msn, front, stream);
    Ok(())
}

/// The room that RDMA Writes take, and `more`. `Err` if no memory has so much.
fn writes_room(writes: &[RemoteWrite<'_>], more: usize) -> Result<usize, Memory>
    ensures { IfOk result (λ room. room ≡ more + writes_room FRAMING_MAX writes.now) }
{
    let mut room = more;
    for write in writes {
        let one = cut_room(write.bytes);
        if one > usize::MAX - room {
            return Err(Memory);
        }
        room += one;
    }
    Ok(room)
}

/// Puts RDMA Writes at the end, for which there is room.
fn append_writes(out: &mut Output, writes: &[RemoteWrite<'_>])
    requires fits { All FitsRegion writes.now }
    requires room { writes_room FRAMING_MAX writes.now ≤ out.old.spare }
    ensures bytes { out.new.items ≡ out.old.items ++ writes_output writes.now }
    ensures spare { out.old.spare ≤ out.new.spare + writes_room FRAMING_MAX writes.now }
    ensures kept { out.new.kept ≡ out.old.kept }
{
    for write in writes {
        append_segments(
            out,
            Operation::Write {
                stag: write.stag,
                to: write.to,
            },
            write.bytes,
        );
    }
}

/// Puts RDMA Writes and then the Send of a message in two parts at the end, which is one segment. An `Err` leaves the bytes as they
/// were.
pub fn push_answer(
    out: &mut Output,
    writes: &[RemoteWrite<'_>],
    named: Option<u32>,
    msn: u32,
    front: &[u8],
    stream: &[u8],
) -> Result<(), Memory>
    requires fits { All FitsRegion writes.now }
    requires size { length front.now + length stream.now ≤ SEGMENT_MAX }
    ensures ok { OnOk result (out.new.items ≡ (out.old.items ++ writes_output writes.now) ++ cut (operation_segment (sender named msn)) (front.now ++ stream.now)) }
    ensures err { OnErr result (out.new.items ≡ out.old.items) }
    ensures kept { out.new.kept ≡ out.old.kept }
{
    let room = writes_room(writes, front.len() + stream.len() + FRAMING_MAX)?;
    out.reserve(room)?;
    append_writes(out, writes);
    append_send(out, named, msn, front, stream);
    Ok(())
}

/// Puts RDMA Writes and then the Send of a message at the end. An `Err` leaves the bytes as they were.
pub fn push_long_answer(
    out: &mut Output,
    writes: &[RemoteWrite<'_>],
    named: Option<u32>,
    msn: u32,
    message: &[u8],
) -> Result<(), Memory>
    requires fits { All FitsRegion writes.now }
    requires size { length message.now < 2 ^ 32 }
    ensures ok { OnOk result (out.new.items ≡ (out.old.items ++ writes_output writes.now) ++ cut (operation_segment (sender named msn)) message.now) }
    ensures err { OnErr result (out.new.items ≡ out.old.items) }
    ensures kept { out.new.kept ≡ out.old.kept }
{
    let room = writes_room(writes, cut_room(message))?;
    out.reserve(room)?;
    append_writes(out, writes);
    append_segments(out, sender(named, msn), message);
    Ok(())
}

/// A message of several segments that comes in two parts.
pub fn joined(alloc: Global, front: &[u8], stream: &[u8]) -> Result<Octets, Memory>
    ensures { IfOk result (λ o. o ≡ front.now ++ stream.now) }
{
    let mut message = Vec::with_capacity(alloc, front.len() + stream.len())?;
    message.extend_from_slice(front)?;
    message.extend_from_slice(stream)?;
    Ok(Octets::from_vec(message))
}

/// The Terminate with this payload (RFC 5040 section 4.8).
pub fn terminate(payload: &[u8]) -> Segment<'_>
    ensures { plain result ≡ Untagged true OPCODE_TERMINATE 0 QUEUE_TERMINATE 1 0 payload.now }
{
    Segment::Untagged {
        last: true,
        opcode: OPCODE_TERMINATE,
        word: 0,
        queue: QUEUE_TERMINATE,
        msn: 1,
        offset: 0,
        payload,
    }
}

/// Puts a Terminate with this word at the end (RFC 5040 section 4.8). An `Err` leaves the bytes as they were.
#[tactic(auto, unfolding(nr_link::specs::Output::terminate_message, nr_xdr::specs::Item::word))]
pub fn push_terminate(out: &mut Output, word: u32) -> Result<(), Memory>
    ensures ok { OnOk result (out.new.items ≡ out.old.items ++ terminate_message word) }
    ensures err { OnErr result (out.new.items ≡ out.old.items) }
    ensures kept { out.new.kept ≡ out.old.kept }
{
    let payload = word.to_be_bytes();
    push_segment(out, &terminate(&payload))
}
