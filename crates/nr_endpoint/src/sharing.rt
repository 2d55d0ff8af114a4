//! RDMA Writes of bytes that are shared with the owner of an endpoint.

ghost use Rattle.std.specs.Prelude.{◌≡◌, ◌+◌, ◌^◌, ◌<◌, ◌≤◌, ◌++◌, length, All, IfOk, OnOk, OnErr};
ghost use Rattle.nr_wire.specs.Segment.{encoding};
ghost use Rattle.nr_link.specs.Output.{cut, segment_payload};
ghost use Rattle.nr_endpoint.specs.OperationSegments.{operation_segment, sender, FitsAt, FitsOperation};
ghost use Rattle.nr_endpoint.specs.Offering.{FitsSharedRegion, shared_output};

use crate::constants::{FRAMING_MAX, SEGMENT_MAX, SHARED_MIN};
use crate::framing::{Operation, joined, push_cut, push_send, segment, segment_count, sender};
use crate::output::Output;
use bytes::Bytes;
use nr_wire::{segment_header, segment_tail, ulpdu_size};
use nr_xdr::Memory;
use std::alloc::Global;

/// An RDMA Write: some bytes into the peer's region `stag`, from byte `to` on. Many bytes are not copied until they are written.
#[derive(Drop)]
pub struct SharedWrite {
    /// The peer's region.
    pub stag: u32,
    /// The offset of the first byte in that region.
    pub to: u64,
    /// What is written. Offset and length stay within 2^64 in sum.
    pub bytes: Bytes,
}

/// The bytes of the segment with this number, from 0 on.
fn segment_bytes(bytes: &Bytes, i: usize) -> Result<Bytes, Memory>
    requires { i < 2 ^ 51 }
    ensures { IfOk result (λ part. part ≡ segment_payload bytes.now i) }
{
    let len = bytes.len();
    let from = len.min(SEGMENT_MAX * i);
    let to = from + (len - from).min(SEGMENT_MAX);
    Ok(bytes.slice(from..to)?)
}

/// Puts a segment at the end, without a copy of its payload. There is room for its framing.
fn push_shared_segment(
    out: &mut Output,
    operation: Operation,
    last: bool,
    offset: usize,
    payload: Bytes,
) -> Result<(), Memory>
    requires offset { FitsAt operation offset }
    requires len { length payload ≤ SEGMENT_MAX }
    requires room { FRAMING_MAX ≤ out.old.spare }
    ensures items { OnOk result (out.new.items ≡ out.old.items ++ encoding (operation_segment operation last offset payload)) }
    ensures spare { OnOk result (out.old.spare ≤ out.new.spare + FRAMING_MAX) }
{
    let framed = segment(operation, last, offset, payload.as_slice());
    let header = segment_header(&framed);
    let size = ulpdu_size(&framed);
    out.append(header.as_slice());
    out.push(payload)?;
    out.append(segment_tail(size));
    Ok(())
}

/// Puts the segments of some bytes at the end, without a copy of them. The room for their framing is taken once.
fn push_shared(out: &mut Output, operation: Operation, bytes: &Bytes) -> Result<(), Memory>
    requires { FitsOperation operation (length bytes.now) }
    ensures { OnOk result (out.new.items ≡ out.old.items ++ cut (operation_segment operation) bytes.now) }
{
    let count = segment_count(bytes.as_slice());
    out.reserve(FRAMING_MAX * count)?;
    for i in 0..count {
        let payload = segment_bytes(bytes, i)?;
        push_shared_segment(out, operation, i + 1 == count, SEGMENT_MAX * i, payload)?;
    }
    Ok(())
}

/// Puts an RDMA Write at the end. Only few bytes are copied.
fn push_write(out: &mut Output, write: &SharedWrite) -> Result<(), Memory>
    requires { FitsSharedRegion write.now }
    ensures { OnOk result (out.new.items ≡ out.old.items ++ cut (operation_segment (Operation.Write write.now.stag write.now.to)) write.now.bytes) }
{
    let operation = Operation::Write {
        stag: write.stag,
        to: write.to,
    };
    if write.bytes.len() < SHARED_MIN {
        return push_cut(out, operation, write.bytes.as_slice());
    }
    push_shared(out, operation, &write.bytes)
}

/// Puts RDMA Writes at the end. After an `Err` some of them are there.
fn push_shared_writes(out: &mut Output, writes: &[SharedWrite]) -> Result<(), Memory>
    requires { All FitsSharedRegion writes.now }
    ensures { OnOk result (out.new.items ≡ out.old.items ++ shared_output writes.now) }
{
    for write in writes {
        push_write(out, write)?;
    }
    Ok(())
}

/// Puts the Send of a message in two parts at the end, which are not joined before if they take one segment.
fn push_message(
    out: &mut Output,
    alloc: Global,
    named: Option<u32>,
    msn: u32,
    front: &[u8],
    stream: &[u8],
) -> Result<(), Memory>
    requires { length front.now + length stream.now < 2 ^ 32 }
    ensures { OnOk result (out.new.items ≡ out.old.items ++ cut (operation_segment (sender named msn)) (front.now ++ stream.now)) }
{
    if front.len() + stream.len() <= SEGMENT_MAX {
        return push_send(out, named, msn, front, stream);
    }
    let message = joined(alloc, front, stream)?;
    push_cut(out, sender(named, msn), message.as_slice())
}

/// RDMA Writes and then the Send of a message in two parts, apart from other output.
fn shared_answer(
    alloc: Global,
    writes: &[SharedWrite],
    named: Option<u32>,
    msn: u32,
    front: &[u8],
    stream: &[u8],
) -> Result<Output, Memory>
    requires size { length front.now + length stream.now < 2 ^ 32 }
    requires fits { All FitsSharedRegion writes.now }
    ensures { IfOk result (λ output. output.items ≡ shared_output writes.now ++ cut (operation_segment (sender named msn)) (front.now ++ stream.now)) }
{
    let mut output = Output::new(alloc);
    push_shared_writes(&mut output, writes)?;
    push_message(&mut output, alloc, named, msn, front, stream)?;
    Ok(output)
}

/// Puts RDMA Writes and then the Send of a message in two parts at the end. An `Err` leaves the bytes as they were.
pub fn push_shared_answer(
    out: &mut Output,
    alloc: Global,
    writes: &[SharedWrite],
    named: Option<u32>,
    msn: u32,
    front: &[u8],
    stream: &[u8],
) -> Result<(), Memory>
    requires size { length front.now + length stream.now < 2 ^ 32 }
    requires fits { All FitsSharedRegion writes.now }
    ensures ok { OnOk result (out.new.items ≡ (out.old.items ++ shared_output writes.now) ++ cut (operation_segment (sender named msn)) (front.now ++ stream.now)) }
    ensures err { OnErr result (out.new.items ≡ out.old.items) }
    ensures kept { out.new.kept ≡ out.old.kept }
{
    let mut more = shared_answer(alloc, writes, named, msn, front, stream)?;
    out.absorb(&mut more)
}
