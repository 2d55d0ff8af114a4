//! The reads of a call begin (RFC 8166 section 3.4.5).

ghost use Rattle.std.specs.Prelude.{◌≡◌, ℕ, ◌+◌, ◌*◌, ◌^◌, ◌<◌, ◌≤◌, ◌++◌, ◌∷◌, [], length, take, None, All, IfOk, OnOk, OnErr, map, replicate, vec_capacity};
ghost use Rattle.std.specs.FinMap.{get};
ghost use Rattle.nr_wire.specs.Constants.{UNITS_MAX};
ghost use Rattle.nr_link.specs.Limits.{send_unit};
ghost use Rattle.nr_header.specs.Constants.{PAYLOAD_MAX};
ghost use Rattle.nr_header.specs.WithinLimits.{read_total};
ghost use Rattle.nr_regions.specs.RegisteredMemory.{AreHeldFrom};
ghost use Rattle.nr_responder.specs.Sound.{HasOutside, claims_of};
ghost use Rattle.nr_responder.specs.private.CallsRead.{sink_buffer};
ghost use Rattle.nr_responder.specs.private.Starting.{BeginsOutside, BeginsReads, OpensReads, with_around, with_room};

use crate::call::{OpenSink, Pending, ReadEntry};
use crate::opening::{open_count, open_reads};
use crate::read_lists::{push_reads, sink_buffers, sink_of_zeros};
use crate::registering::{register_part, register_sinks};
use crate::room::Room;
use nr_endpoint::Endpoint;
use nr_header::ReadSegment;
use nr_reduce::total_at;
use nr_xdr::{Memory, Octets};
use std::alloc::Global;

/// Puts the reads of a read list into a list, and opens those that may open. An `Err` may have put some.
fn push_and_open(
    endpoint: &mut Endpoint,
    alloc: Global,
    reads: &mut Vec<ReadEntry>,
    first: (u64, u64),
    chunks: &[u32],
    read: &[ReadSegment],
) -> Result<(), Memory>
    requires live { endpoint.old.link.state.ended ≡ None }
    requires stags { first.1 + length chunks.now ≤ 2 ^ 32 }
    requires total { read_total read.now ≤ PAYLOAD_MAX }
    ensures ok { OnOk result (OpensReads first.0 first.1 read.now chunks.now reads.old.items reads.new.items endpoint.old.link endpoint.new.link) }
    ensures err { OnErr result (endpoint.new.link ≡ endpoint.old.link) }
    ensures front { take (length reads.old.items) reads.new.items ≡ reads.old.items }
    ensures room { endpoint.new.room ≡ endpoint.old.room }
    ensures outside { endpoint.new.outside ≡ endpoint.old.outside }
    ensures staging { endpoint.new.staging ≡ endpoint.old.staging }
{
    let (number, next) = first;
    let kept = open_count(reads.as_slice().len());
    match push_reads(reads, number, next, chunks, read) {
        Ok(()) => open_reads(endpoint, alloc, reads.as_slice(), kept),
        Err(memory) => Err(memory),
    }
}

/// Begins the reads of a read list, whose sinks get the next STags. An `Err` changes nothing.
fn open_new(
    endpoint: &mut Endpoint,
    alloc: Global,
    reads: &mut Vec<ReadEntry>,
    number: u64,
    chunks: &[u32],
    read: &[ReadSegment],
) -> Result<(), Memory>
    requires live { endpoint.old.link.state.ended ≡ None }
    requires stags { endpoint.old.link.state.memory.next + length chunks.now ≤ 2 ^ 32 }
    requires total { read_total read.now ≤ PAYLOAD_MAX }
    ensures ok { OnOk result (OpensReads number endpoint.old.link.state.memory.next read.now chunks.now reads.old.items reads.new.items endpoint.old.link endpoint.new.link) }
    ensures err { OnErr result ((endpoint.new.link ≡ endpoint.old.link) × (reads.new.items ≡ reads.old.items)) }
    ensures room { endpoint.new.room ≡ endpoint.old.room }
    ensures outside { endpoint.new.outside ≡ endpoint.old.outside }
    ensures staging { endpoint.new.staging ≡ endpoint.old.staging }
{
    let before = reads.as_slice().len();
    let next = 0x1_0000_0000 - endpoint.regions().stags_left();
    match push_and_open(endpoint, alloc, reads, (number, next), chunks, read) {
        Ok(()) => Ok(()),
        Err(memory) => {
            reads.truncate(before);
            Err(memory)
        }
    }
}

/// How many bytes a read list offers.
fn read_len(read: &[ReadSegment]) -> usize
    requires { read_total read.now ≤ PAYLOAD_MAX }
    ensures { result ≡ read_total read.now }
{
    let mut total: u128 = 0;
    for entry in read {
        total += u128::from(entry.length);
    }
    total as usize
}

/// Takes the memory for the reads of a call but for what is queued: the room of its payload, of whose stream this many bytes stand in its message, and
/// the buffers of its sinks. An `Err` changes nothing.
fn take_memory(
    endpoint: &mut Endpoint,
    alloc: Global,
    sinks: &mut Vec<OpenSink>,
    inline: usize,
    chunks: &[u32],
    read: &[ReadSegment],
) -> Result<(Room, Vec<Octets>), Memory>
    requires inline { inline ≤ send_unit * UNITS_MAX }
    requires total { read_total read.now ≤ PAYLOAD_MAX }
    ensures payload { IfOk result (λ taken. taken.0 ≡ inline + read_total read.now + 3) }
    ensures buffers { IfOk result (λ taken. taken.1.items ≡ map (sink_buffer read.now) chunks.now) }
    ensures capacity { OnOk result (length sinks.old.items + length chunks.now ≤ vec_capacity sinks.new) }
    ensures room { OnOk result (length chunks.now ≤ endpoint.new.room) }
    ensures sinks { sinks.new.items ≡ sinks.old.items }
    ensures link { endpoint.new.link ≡ endpoint.old.link }
    ensures outside { endpoint.new.outside ≡ endpoint.old.outside }
    ensures staging { endpoint.new.staging ≡ endpoint.old.staging }
{
    let room = Room::new(alloc, inline + read_len(read) + 3)?;
    let buffers = sink_buffers(alloc, chunks, read)?;
    sinks.reserve(chunks.len())?;
    endpoint.make_room(chunks.len())?;
    Ok((room, buffers))
}

/// Begins the reads of a call of whose stream this many bytes stand in its message, and gives the room of its payload. An `Err` changes nothing.
#[tactic(none)]
pub(crate) fn begin_reads(
    endpoint: &mut Endpoint,
    alloc: Global,
    reads: &mut Vec<ReadEntry>,
    sinks: &mut Vec<OpenSink>,
    number: u64,
    inline: usize,
    chunks: &[u32],
    read: &[ReadSegment],
) -> Result<Room, Memory>
    requires live { endpoint.old.link.state.ended ≡ None }
    requires held { AreHeldFrom endpoint.old.link.state.memory 0 (claims_of sinks.old.items) }
    requires short { All (λ s. s.registration.len ≤ PAYLOAD_MAX) sinks.old.items }
    requires stags { endpoint.old.link.state.memory.next + length chunks.now ≤ 2 ^ 32 }
    requires inline { inline ≤ send_unit * UNITS_MAX }
    requires total { read_total read.now ≤ PAYLOAD_MAX }
    ensures room { IfOk result (λ room. room ≡ inline + read_total read.now + 3) }
    ensures ok { OnOk result (BeginsReads number read.now chunks.now reads.old.items reads.new.items sinks.old.items sinks.new.items endpoint.old.link endpoint.new.link) }
    ensures err { OnErr result ((endpoint.new.link ≡ endpoint.old.link) × ((reads.new.items ≡ reads.old.items) × (sinks.new.items ≡ sinks.old.items))) }
    ensures held { AreHeldFrom endpoint.new.link.state.memory 0 (claims_of sinks.new.items) }
    ensures short { All (λ s. s.registration.len ≤ PAYLOAD_MAX) sinks.new.items }
    ensures outside { (n : ℕ) → HasOutside endpoint.old n → HasOutside endpoint.new n }
    ensures kept { (stag : ℕ) → stag < endpoint.old.link.state.memory.next → get endpoint.new.outside stag ≡ get endpoint.old.outside stag }
    ensures outside_err { OnErr result (endpoint.new.outside ≡ endpoint.old.outside) }
    ensures staging { endpoint.new.staging ≡ endpoint.old.staging }
{
    match take_memory(endpoint, alloc, sinks, inline, chunks, read) {
        Ok((room, buffers)) => match open_new(endpoint, alloc, reads, number, chunks, read) {
            Ok(()) => {
                register_sinks(endpoint, sinks, number, chunks, read, buffers);
                Ok(room)
            }
            Err(memory) => Err(memory),
        },
        Err(memory) => Err(memory),
    }
}

/// Takes the memory for the reads of a call with one chunk but for what is queued: a buffer of `len` zeros. An `Err` changes nothing.
fn take_buffer(
    endpoint: &mut Endpoint,
    alloc: Global,
    sinks: &mut Vec<OpenSink>,
    len: usize,
) -> Result<Octets, Memory>
    ensures buffer { IfOk result (λ b. b ≡ replicate len 0) }
    ensures capacity { OnOk result (length sinks.old.items < vec_capacity sinks.new) }
    ensures room { OnOk result (0 < endpoint.new.room) }
    ensures sinks { sinks.new.items ≡ sinks.old.items }
    ensures link { endpoint.new.link ≡ endpoint.old.link }
    ensures outside { endpoint.new.outside ≡ endpoint.old.outside }
    ensures staging { endpoint.new.staging ≡ endpoint.old.staging }
{
    let buffer = sink_of_zeros(alloc, len)?;
    sinks.reserve(1)?;
    endpoint.make_room(1)?;
    Ok(buffer)
}

/// Begins the reads of a call with one chunk, into the middle of a buffer that has `window.1` bytes outside of its region, `window.0` of them before
/// it. An `Err` changes nothing.
pub(crate) fn begin_in_place(
    endpoint: &mut Endpoint,
    alloc: Global,
    reads: &mut Vec<ReadEntry>,
    sinks: &mut Vec<OpenSink>,
    number: u64,
    chunks: &[u32],
    read: &[ReadSegment],
    window: (usize, usize),
) -> Result<(), Memory>
    requires live { endpoint.old.link.state.ended ≡ None }
    requires held { AreHeldFrom endpoint.old.link.state.memory 0 (claims_of sinks.old.items) }
    requires short { All (λ s. s.registration.len ≤ PAYLOAD_MAX) sinks.old.items }
    requires one { length chunks.now ≡ 1 }
    requires window { (window.0 ≤ window.1) × (window.1 ≤ send_unit * UNITS_MAX + 3) }
    requires stags { endpoint.old.link.state.memory.next + 1 ≤ 2 ^ 32 }
    requires total { read_total read.now ≤ PAYLOAD_MAX }
    ensures ok { OnOk result (BeginsReads number read.now chunks.now reads.old.items reads.new.items sinks.old.items sinks.new.items endpoint.old.link endpoint.new.link) }
    ensures err { OnErr result ((endpoint.new.link ≡ endpoint.old.link) × ((reads.new.items ≡ reads.old.items) × (sinks.new.items ≡ sinks.old.items))) }
    ensures held { AreHeldFrom endpoint.new.link.state.memory 0 (claims_of sinks.new.items) }
    ensures short { All (λ s. s.registration.len ≤ PAYLOAD_MAX) sinks.new.items }
    ensures outside { OnOk result (BeginsOutside endpoint.old endpoint.new window.0 window.1) }
    ensures outside_err { OnErr result (endpoint.new.outside ≡ endpoint.old.outside) }
    ensures staging { endpoint.new.staging ≡ endpoint.old.staging }
{
    let (start, around) = window;
    let len = total_at(chunks[0], read) as usize;
    match take_buffer(endpoint, alloc, sinks, around + len) {
        Ok(buffer) => match open_new(endpoint, alloc, reads, number, chunks, read) {
            Ok(()) => {
                register_part(endpoint, sinks, number, chunks[0], buffer, (start, len));
                Ok(())
            }
            Err(memory) => Err(memory),
        },
        Err(memory) => Err(memory),
    }
}

/// A call of which something is left to be read, with the room of its payload. There is room for it.
pub(crate) fn push_reading(calls: &mut Vec<Pending>, call: Pending, room: Room)
    requires { length calls.old.items < vec_capacity calls.old }
    ensures items { calls.new.items ≡ calls.old.items ++ with_room call room ∷ [] }
    ensures capacity { vec_capacity calls.new ≡ vec_capacity calls.old }
{
    let mut call = call;
    call.room = Some(room);
    calls.push_reserved(call);
}

/// A call of which something is left to be read, whose sink's buffer has this many bytes outside of the region. There is room for it.
pub(crate) fn push_around(calls: &mut Vec<Pending>, call: Pending, around: usize)
    requires { length calls.old.items < vec_capacity calls.old }
    ensures items { calls.new.items ≡ calls.old.items ++ with_around call around ∷ [] }
    ensures capacity { vec_capacity calls.new ≡ vec_capacity calls.old }
{
    let mut call = call;
    call.around = around;
    calls.push_reserved(call);
}
