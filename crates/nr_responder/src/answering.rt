//! The answer to a call: its message and its RDMA Writes (RFC 8166 sections 3.4.6, 3.5).

ghost use Rattle.std.specs.Prelude.{◌≡◌, ◌+◌, ◌≤◌, ◌<◌, ◌^◌, length, drop, take, IfOk, OnOk, OnErr, All, option_map, [], ◌++◌, IfSome, ◌==◌, if◌then◌else◌};
ghost use Rattle.std.specs.List.{flat_map};
ghost use Rattle.nr_header.specs.Slices.{lists_of_slices};
ghost use Rattle.nr_header.specs.WithinLimits.{ListsWithin, SegmentsEnd};
ghost use Rattle.nr_endpoint.specs.Offering.{FitsRegion, writes_output};
ghost use Rattle.nr_link.specs.Agreement.{IsSendLimit};
ghost use Rattle.nr_link.specs.Output.{write};
ghost use Rattle.nr_rpc.specs.Reading.{call_of, target_of};
ghost use Rattle.nr_reduce.specs.Server.{answer_of_target};
ghost use Rattle.nr_reduce.specs.Holds.{chunk_error, version_error, writes_into, first_chunk, no_segments};
ghost use Rattle.nr_reduce.specs.CodeViews.{answer_view};
ghost use Rattle.nr_reduce.specs.Server.{first_handle, read_handle, named_stag};
ghost use Rattle.nr_responder.specs.Answering.{answer_to, message_for, name_for, writes_for, sent_as, Queues};
ghost use Rattle.nr_responder.specs.Views.{call_view};
ghost use Rattle.nr_responder.specs.Sound.{InBuffer};

use crate::call::{Pending, Sent, lists_again};
use nr_endpoint::{Endpoint, RemoteWrite};
use nr_header::{
    Chunk, ListSlices, ListsRoom, RdmaSegment, ReadSegment, TransportError, VERSION, write_error,
};
use nr_reduce::{Answer, answer_for, answer_message};
use nr_rpc::{CallTarget, call_target};
use nr_xdr::{Memory, Octets};
use std::alloc::Global;

/// The most bytes of a message that an endpoint sends.
pub(crate) const SENDABLE: usize = 4294967295;

/// ERR_CHUNK, as the answer to a message with this xid (RFC 8166 sections 4.5.2, 4.5.3).
#[tactic(auto, unfolding(nr_reduce::specs::Holds::chunk_error))]
pub(crate) fn chunk_error(alloc: Global, xid: u32, credits: u32) -> Result<Octets, Memory>
    ensures bytes { IfOk result (λ m. m ≡ chunk_error xid credits) }
{
    write_error(alloc, xid, VERSION, credits, TransportError::Chunk)
}

/// ERR_VERS, as the answer to a message with these words (RFC 8166 section 4.5.1).
#[tactic(auto, unfolding(nr_reduce::specs::Holds::version_error))]
pub(crate) fn version_error(
    alloc: Global,
    xid: u32,
    version: u32,
    credits: u32,
) -> Result<Octets, Memory>
    ensures bytes { IfOk result (λ m. m ≡ version_error xid version credits) }
{
    let error = TransportError::Vers {
        low: VERSION,
        high: VERSION,
    };
    write_error(alloc, xid, version, credits, error)
}

/// What the head of a stream asks for, which may have been read.
fn target_of(stream: &[u8], known: Option<Option<CallTarget>>) -> Option<CallTarget>
    requires { IfSome known (λ t. t ≡ target_of (call_of stream.now)) }
    ensures { result ≡ target_of (call_of stream.now) }
{
    match known {
        Some(target) => target,
        None => call_target(stream),
    }
}

/// How the reply to a call whose head asks for this is sent back, by what it offered, if a Send has at most `down` bytes; `None` if the offer
/// doesn't hold it.
fn answer_to<'a>(
    lists: ListSlices<'_>,
    target: Option<CallTarget>,
    reply: &'a [u8],
    down: u32,
) -> Option<Answer<'a>>
    ensures { option_map answer_view result ≡ answer_of_target (lists_of_slices lists.entry) down reply.now target }
{
    match target {
        Some(target) => answer_for(lists, target.prog, target.vers, target.proc, reply, down),
        None => answer_for(lists, 0, 0, 0, reply, down),
    }
}

/// By which message a call is answered.
fn sent_as(answer: &Option<Answer<'_>>) -> Sent
    ensures { result ≡ sent_as (option_map answer_view answer.now) }
{
    match answer {
        Some(answer) => {
            if answer.long {
                Sent::Long
            } else {
                Sent::Inline
            }
        }
        None => Sent::Chunk,
    }
}

/// The STag of the first read entry, if there is one.
fn read_handle(read: &[ReadSegment]) -> Option<u32>
    ensures { result ≡ read_handle read.now }
{
    if read.is_empty() {
        return None;
    }
    Some(read[0].handle)
}

/// The STag of the first segment of a chunk, if there is one.
fn first_handle(chunk: &[RdmaSegment]) -> Option<u32>
    ensures { result ≡ first_handle chunk.now }
{
    if chunk.is_empty() {
        return None;
    }
    Some(chunk[0].handle)
}

/// The STag of the first segment of these chunks, if there is one.
fn write_handle(chunks: &[Chunk]) -> Option<u32>
    ensures { result ≡ first_handle (flat_map (λ chunk. chunk) chunks.now) }
{
    let mut at = 0;
    while at < chunks.len() {
        if let Some(stag) = first_handle(chunks[at].as_slice()) {
            return Some(stag);
        }
        at += 1;
    }
    None
}

/// The STag of the first segment of a reply chunk, if there is one.
fn reply_handle(reply: Option<&[RdmaSegment]>) -> Option<u32>
    ensures { result ≡ first_handle (no_segments (option_map (λ chunk. chunk.now) reply.entry)) }
{
    match reply {
        Some(chunk) => first_handle(chunk),
        None => None,
    }
}

/// The STag that a reply with Invalidate names, if these lists have a segment: of the first read entry, else of the first segment of the write
/// list, else of the first segment of the reply chunk. Which one is own.
#[tactic(auto, unfolding(nr_reduce::specs::Server::named_stag))]
fn named_stag(lists: ListSlices<'_>) -> Option<u32>
    ensures { result ≡ named_stag (lists_of_slices lists.entry) }
{
    if let Some(stag) = read_handle(lists.read) {
        return Some(stag);
    }
    if let Some(stag) = write_handle(lists.write) {
        return Some(stag);
    }
    reply_handle(lists.reply)
}

/// The STag that the Send of an answer names, if Sends with Invalidate are agreed: ERR_CHUNK names none.
fn name_for(invalidates: bool, lists: ListSlices<'_>, answer: &Option<Answer<'_>>) -> Option<u32>
    ensures { result ≡ name_for invalidates (lists_of_slices lists.entry) (option_map answer_view answer.now) }
{
    match answer {
        Some(_) => { if invalidates { named_stag(lists) } else { None } }
        None => None,
    }
}

/// The message of an answer to a call with this xid and these lists.
fn message_for(
    alloc: Global,
    xid: u32,
    credits: u32,
    lists: ListSlices<'_>,
    answer: Option<Answer<'_>>,
) -> Result<Octets, Memory>
    requires { ListsWithin (lists_of_slices lists) }
    ensures { IfOk result (λ m. m ≡ message_for xid credits (lists_of_slices lists.entry) (option_map answer_view answer.entry)) }
{
    match answer {
        Some(answer) => answer_message(alloc, xid, credits, lists, answer),
        None => chunk_error(alloc, xid, credits),
    }
}

/// The first `length` of some bytes, or all, and the rest.
fn part(bytes: &[u8], length: u32) -> (&[u8], &[u8])
    ensures first { result.0.now ≡ take length bytes.now }
    ensures rest { result.1.now ≡ drop length bytes.now }
{
    if bytes.len() < length as usize {
        return bytes.split_at(bytes.len());
    }
    bytes.split_at(length as usize)
}

/// Puts the RDMA Write of some bytes into a segment, if there are any.
fn push_some<'a>(
    writes: &mut Vec<RemoteWrite<'a>>,
    segment: RdmaSegment,
    bytes: &'a [u8],
) -> Result<(), Memory>
    requires ends { segment.offset + length bytes.now ≤ 2 ^ 64 }
    requires fits { All FitsRegion writes.old.items }
    ensures output { OnOk result (writes_output writes.new.items ≡ writes_output writes.old.items ++ (if length bytes.now == 0 then [] else write segment.handle segment.offset bytes.now)) }
    ensures fits { OnOk result (All FitsRegion writes.new.items) }
{
    if bytes.is_empty() {
        return Ok(());
    }
    writes.push(RemoteWrite {
        stag: segment.handle,
        to: segment.offset,
        bytes,
    })?;
    Ok(())
}

/// Puts the RDMA Writes of some bytes into a chunk, one for each segment that gets bytes.
fn push_writes<'a>(
    writes: &mut Vec<RemoteWrite<'a>>,
    chunk: &[RdmaSegment],
    bytes: &'a [u8],
) -> Result<(), Memory>
    requires ends { SegmentsEnd chunk.now }
    requires fits { All FitsRegion writes.old.items }
    ensures output { OnOk result (writes_output writes.new.items ≡ writes_output writes.old.items ++ writes_into chunk.now bytes.now) }
    ensures fits { OnOk result (All FitsRegion writes.new.items) }
{
    let mut left = bytes;
    'segments: for segment in chunk {
        let (first, rest) = part(left, segment.length);
        push_some(writes, *segment, first)?;
        left = rest;
    }
    Ok(())
}

/// Puts the RDMA Writes of what moves into the first chunk of a write list.
fn push_moved<'a>(
    writes: &mut Vec<RemoteWrite<'a>>,
    chunks: &[Chunk],
    moved: &'a [u8],
) -> Result<(), Memory>
    requires ends { All SegmentsEnd chunks.now }
    requires fits { All FitsRegion writes.old.items }
    ensures output { OnOk result (writes_output writes.new.items ≡ writes_output writes.old.items ++ writes_into (first_chunk chunks.now) moved.now) }
    ensures fits { OnOk result (All FitsRegion writes.new.items) }
{
    if chunks.is_empty() {
        return Ok(());
    }
    push_writes(writes, chunks[0].as_slice(), moved)
}

/// Puts the RDMA Writes of a long stream into the reply chunk.
fn push_stream<'a>(
    writes: &mut Vec<RemoteWrite<'a>>,
    reply: Option<&[RdmaSegment]>,
    stream: &'a [u8],
) -> Result<(), Memory>
    requires ends { IfSome reply (λ chunk. SegmentsEnd chunk.now) }
    requires fits { All FitsRegion writes.old.items }
    ensures output { OnOk result (writes_output writes.new.items ≡ writes_output writes.old.items ++ writes_into (no_segments (option_map (λ chunk. chunk.now) reply.entry)) stream.now) }
    ensures fits { OnOk result (All FitsRegion writes.new.items) }
{
    match reply {
        Some(chunk) => push_writes(writes, chunk, stream),
        None => Ok(()),
    }
}

/// Puts the RDMA Writes of an answer: what moves goes into the first write chunk, and a long stream into the reply chunk.
fn push_answer<'a>(
    writes: &mut Vec<RemoteWrite<'a>>,
    lists: ListSlices<'_>,
    answer: Option<Answer<'a>>,
) -> Result<(), Memory>
    requires lists { ListsWithin (lists_of_slices lists) }
    requires none { writes.old.items ≡ [] }
    ensures output { OnOk result (writes_output writes.new.items ≡ writes_for (lists_of_slices lists.entry) (option_map answer_view answer.entry)) }
    ensures fits { OnOk result (All FitsRegion writes.new.items) }
{
    let Some(answer) = answer else {
        return Ok(());
    };
    push_moved(writes, lists.write, answer.moved)?;
    if !answer.long {
        return Ok(());
    }
    push_stream(writes, lists.reply, answer.stream)?;
    Ok(())
}

/// Queues the answer to a call with these lists and this payload: its RDMA Writes and its message, whose Send names an STag if that is agreed.
/// `target` is what the payload's head asks for, if that was read. An `Err` changes nothing: memory ran out.
fn queue_with(
    endpoint: &mut Endpoint,
    alloc: Global,
    call: &Pending,
    lists: ListSlices<'_>,
    stream: &[u8],
    target: Option<Option<CallTarget>>,
    credits: u32,
    reply: &[u8],
) -> Result<Sent, Memory>
    requires call { InBuffer call.now }
    requires lists { lists_of_slices lists ≡ (call_view call.now).lists }
    requires limit { IsSendLimit endpoint.old.link.state.agreed.down }
    requires target { IfSome target (λ t. t ≡ target_of (call_of stream.now)) }
    ensures queued { IfOk result (Queues (call_view call.now) stream.now reply.now credits endpoint.old.link endpoint.new.link) }
    ensures err { OnErr result (endpoint.new.link ≡ endpoint.old.link) }
    ensures staging { endpoint.new.staging ≡ endpoint.old.staging }
    ensures outside { endpoint.new.outside ≡ endpoint.old.outside }
{
    let (_, down) = endpoint.agreed();
    let answer = answer_to(lists, target_of(stream, target), reply, down);
    let sent = sent_as(&answer);
    let named = name_for(endpoint.invalidates(), lists, &answer);
    let message = message_for(alloc, call.xid, credits, lists, answer)?;
    let mut writes = Vec::new(alloc);
    push_answer(&mut writes, lists, answer)?;
    endpoint.answer(writes.as_slice(), named, message.as_slice())?;
    Ok(sent)
}

/// The same of a call whose lists are read again.
pub(crate) fn queue_answer(
    endpoint: &mut Endpoint,
    alloc: Global,
    call: &Pending,
    stream: &[u8],
    target: Option<Option<CallTarget>>,
    credits: u32,
    reply: &[u8],
) -> Result<Sent, Memory>
    requires call { InBuffer call.now }
    requires limit { IsSendLimit endpoint.old.link.state.agreed.down }
    requires target { IfSome target (λ t. t ≡ target_of (call_of stream.now)) }
    ensures queued { IfOk result (Queues (call_view call.now) stream.now reply.now credits endpoint.old.link endpoint.new.link) }
    ensures err { OnErr result (endpoint.new.link ≡ endpoint.old.link) }
    ensures staging { endpoint.new.staging ≡ endpoint.old.staging }
    ensures outside { endpoint.new.outside ≡ endpoint.old.outside }
{
    let mut room = ListsRoom::new();
    lists_again(call, &mut room);
    let lists = room.as_slices();
    let sent = queue_with(endpoint, alloc, call, lists, stream, target, credits, reply);
    drop(room);
    sent
}
