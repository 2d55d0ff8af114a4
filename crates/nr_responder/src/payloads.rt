//! The payload of a call whose chunks are read (RFC 8166 section 3.4.5).

ghost use Rattle.std.specs.Prelude.{◌≡◌, ℕ, ◌+◌, ◌*◌, ◌^◌, ◌<◌, ◌≤◌, ◌==◌, ◌||◌, length, take, drop, is_some, true, Some, None, IfErr, IfSome, List, [], Option, option_map, slice_get, if◌then◌else◌};
ghost use Rattle.nr_xdr.specs.Item.{IsBytes, pad_len};
ghost use Rattle.nr_wire.specs.Constants.{UNITS_MAX};
ghost use Rattle.nr_link.specs.Limits.{send_unit};
ghost use Rattle.nr_rpc.specs.Reading.{call_of, target_of};
ghost use Rattle.nr_endpoint.specs.Calls.{IsStopReason};
ghost use Rattle.nr_reduce.specs.Chunks.{call_moved, call_stream, item_position, whole};
ghost use Rattle.nr_reduce.specs.declared.item.Of.TheVariants as of;
ghost use Rattle.nr_reduce.specs.ServerState.{PendingCall};
ghost use Rattle.nr_reduce.specs.ServerMessages.{by_payload};
ghost use Rattle.nr_reduce.specs.ServerMessages.CallVerdict.{Refuses};
ghost use Rattle.nr_responder.specs.private.CallsRead.{payload_at_once, verdict_by, verdict_of, IsStreamAlone};
ghost use Rattle.nr_responder.specs.private.DoneReads.{JudgesPlaced};
ghost use Rattle.nr_responder.specs.Rooms.{payload_room};
ghost use Rattle.nr_responder.specs.Sound.{payloads_of, InBuffer};
ghost use Rattle.nr_responder.specs.Answering.{IsPayload};
ghost use Rattle.nr_reduce.specs.Items.{call_item};
ghost use Rattle.nr_responder.specs.Views.{call_view, IsHeadOf};

use crate::call::{Pending, Ready, stream_of};
use crate::heads::{StreamHead, head_of};
use crate::room::{Payload, Room};
use crate::server_end::stream_xid;
use nr_header::ReadSegment;
use nr_link::constants::{REASON_HEAD, REASON_XID};
use nr_reduce::{Item, Of, item_position, rebuild_in_place, rebuild_item_into};
use nr_rpc::CallTarget;
use nr_xdr::{Octets, pad_len};
use std::collections::VecDeque;

/// A payload that is a stream alone, whose head asks for this.
pub(crate) fn stream_alone(room: Room, stream: &[u8], target: Option<CallTarget>) -> Payload
    requires room { length stream.now ≤ room }
    requires target { target ≡ target_of (call_of stream.now) }
    ensures { result ≡ stream.now }
{
    let mut buffer = room.into_buffer();
    buffer.put(0, stream);
    Payload::of(buffer, stream.len(), target)
}

/// The payload of a stream with this head and of the content of its item; `None` if it has no item of that length.
pub(crate) fn with_item(
    room: Room,
    head: StreamHead,
    stream: &[u8],
    moved: &[u8],
) -> Option<Payload>
    requires room { length stream.now + length moved.now + 3 ≤ room }
    requires small { length stream.now < 2 ^ 32 }
    requires head { IsHeadOf head stream.now }
    ensures { result ≡ whole of.Call stream.now (Some moved.now) }
{
    let item = head.item?;
    let mut buffer = room.into_buffer();
    match rebuild_item_into(
        &mut buffer,
        &Of::Call,
        Some(item),
        stream,
        item.pos as u32,
        moved,
    ) {
        Ok(len) => Some(Payload::of(buffer, len, head.target)),
        Err(_) => None,
    }
}

/// Completes the payload of a stream with this item in the buffer that has the bytes of the item, of which there are `moved`, at its position.
pub(crate) fn in_place(
    buffer: Octets,
    stream: &[u8],
    target: Option<CallTarget>,
    item: Item,
    moved: usize,
) -> Payload
    requires item { call_item stream.now ≡ Some item }
    requires target { target ≡ target_of (call_of stream.now) }
    requires room { length stream.now + moved + 3 ≤ length buffer }
    requires most { length buffer ≤ payload_room }
    requires small { item.pos ≤ length stream.now }
    requires whole { is_some (whole of.Call stream.now (Some (take moved (drop item.pos buffer)))) ≡ true }
    ensures { whole of.Call stream.now (Some (take moved (drop item.pos buffer))) ≡ Some result }
{
    let mut buffer = buffer;
    are_bytes(buffer.as_slice());
    match rebuild_in_place(
        &mut buffer,
        &Of::Call,
        Some(item),
        stream,
        item.pos as u32,
        moved,
    ) {
        Ok(len) => Payload::in_front(buffer, len, target),
        Err(_) => unreachable!(),
    }
}

/// Why the link ends if a call has this payload, or another with the same head, and that asks for this: it is no RPC call with this xid.
fn judge_bytes(payload: &[u8], target: Option<CallTarget>, xid: u32) -> Option<u32>
    requires { target ≡ target_of (call_of payload.now) }
    ensures verdict { (c : PendingCall) (p : List ℕ) → c.xid ≡ xid → call_of p ≡ call_of payload.now → by_payload c (Some p) ≡ verdict_by c p result }
    ensures reason { IfSome result (λ reason. IsStopReason reason × (5 ≤ reason)) }
{
    match stream_xid(payload, target) {
        None => Some(REASON_HEAD),
        Some(found) => {
            if found != xid {
                return Some(REASON_XID);
            }
            None
        }
    }
}

/// Whether these are as many bytes as an item has, with or without its pad.
fn has_length(len: u32, moved: &[u8]) -> bool
    ensures { result ≡ (length moved.now == len || length moved.now == len + pad_len len) }
{
    let all = len as usize;
    moved.len() == all || moved.len() == all + pad_len(all)
}

/// Elements of a byte slice are bytes. Only contracts speak of it.
fn are_bytes(bytes: &[u8])
    ensures { IsBytes bytes.now }
{
    let _bytes = bytes.len();
}

/// Why the link ends if these bytes of the item of a call's stream were read: the item has another length, or the stream is no RPC call with
/// the call's xid.
pub(crate) fn judge_in_place(call: &Pending, item: Item, moved: &[u8]) -> Option<u32>
    requires call { InBuffer call.now }
    requires item { call.now.item ≡ Some (Some item) }
    ensures verdict { JudgesPlaced (call_view call.now) (drop call.now.stream_at (take call.now.len call.now.buf)) moved.now result }
    ensures reason { IfSome result (λ reason. IsStopReason reason × (5 ≤ reason)) }
{
    if !has_length(item.len, moved) {
        return Some(REASON_HEAD);
    }
    let stream = stream_of(&call.buf, call.len, call.stream_at);
    are_bytes(stream);
    judge_bytes(stream, head_of(call, stream).target, call.xid)
}

/// The payload of a call, or why the link ends: it is no RPC call with this xid.
pub(crate) fn judge_payload(payload: Option<Payload>, xid: u32) -> Result<Payload, u32>
    ensures verdict { (c : PendingCall) → c.xid ≡ xid → by_payload c payload ≡ verdict_of c result }
    ensures reason { IfErr result (λ reason. IsStopReason reason × (5 ≤ reason)) }
{
    let Some(payload) = payload else {
        return Err(REASON_HEAD);
    };
    match judge_bytes(payload.as_slice(), payload.target(), xid) {
        None => Ok(payload),
        Some(reason) => Err(reason),
    }
}

/// The stream of a call, if it is in its message; else none.
pub(crate) fn inline_stream(call: &Pending) -> &[u8]
    requires { InBuffer call.now }
    ensures stream { result.now ≡ call_stream (call_view call.now).inline (λ position. []) }
    ensures small { length result.now ≤ send_unit * UNITS_MAX }
{
    if call.inline {
        return stream_of(&call.buf, call.len, call.stream_at);
    }
    &[]
}

/// Whether a stream is the payload of a call with this read list, each of whose chunks is empty: it has no item, or one of no bytes.
fn is_stream_alone(stream: &[u8], item: Option<Item>, read: &[ReadSegment]) -> bool
    requires { item ≡ call_item stream.now }
    ensures { whole of.Call stream.now (call_moved (item_position read.now) (λ position. [])) ≡ (if result then Some stream.now else None) }
{
    match item_position(read) {
        Some(_) => {
            let _stream = stream;
            match item {
                Some(item) => item.len == 0,
                None => false,
            }
        }
        None => true,
    }
}

/// Why the link ends for a call of which nothing is read; if it doesn't, the call's payload is the stream of its Send.
pub(crate) fn judge_at_once(call: &Pending, read: &[ReadSegment]) -> Option<u32>
    requires call { InBuffer call.now }
    requires read { read.now ≡ (call_view call.now).lists.read }
    ensures alone { result ≡ None → IsStreamAlone (call_view call.now) }
    ensures ends { IfSome result (λ reason. by_payload (call_view call.now) (payload_at_once (call_view call.now)) ≡ Refuses reason) }
    ensures reason { IfSome result (λ reason. IsStopReason reason × (5 ≤ reason)) }
{
    if !call.inline {
        return Some(REASON_HEAD);
    }
    let stream = stream_of(&call.buf, call.len, call.stream_at);
    let head = head_of(call, stream);
    if !is_stream_alone(stream, head.item, read) {
        return Some(REASON_HEAD);
    }
    judge_bytes(stream, head.target, call.xid)
}

/// The payload of the first call that is ready, if it was read with its chunks.
pub(crate) fn first_payload(ready: &VecDeque<Ready>) -> Option<&Payload>
    requires { 0 < length ready.now.items }
    ensures { slice_get (payloads_of ready.now.items) 0 ≡ Some (option_map (λ p. p.now) result) }
{
    match ready.front() {
        Some(first) => first.payload.as_ref(),
        None => None,
    }
}

/// The payload of this call, which is the first that is ready, and what its head asks for, if that was read.
pub(crate) fn ready_payload<'a>(
    ready: &'a VecDeque<Ready>,
    call: &'a Pending,
) -> (&'a [u8], Option<Option<CallTarget>>)
    requires ready { 0 < length ready.now.items }
    requires call { InBuffer call.now }
    requires inline { slice_get (payloads_of ready.now.items) 0 ≡ Some None → call.now.inline ≡ true }
    ensures payload { (p : Option (List ℕ)) × ((slice_get (payloads_of ready.now.items) 0 ≡ Some p) × IsPayload (call_view call.now) p result.0.now) }
    ensures target { IfSome result.1 (λ t. t ≡ target_of (call_of result.0.now)) }
{
    if let Some(payload) = first_payload(ready) {
        return (payload.as_slice(), Some(payload.target()));
    }
    (stream_of(&call.buf, call.len, call.stream_at), call.target)
}
