//! Reads that are done (RFC 8166 section 3.4.5): their call waits for more, is ready, is refused, or ends the link.

ghost use Rattle.std.specs.Prelude.{◌≡◌, ◌≢◌, ℕ, ◌+◌, ◌<◌, ◌≤◌, List, [], ◌∷◌, ◌++◌, take, drop, true, false, All, ◌==◌, not, length, map, get_or, None, IfSome, OnOk, OnErr};
ghost use Rattle.std.specs.List.{filter};
ghost use Rattle.nr_header.specs.Constants.{PAYLOAD_MAX};
ghost use Rattle.nr_link.specs.Limits.{send_unit};
ghost use Rattle.nr_reduce.specs.Holds.{chunk_error};
ghost use Rattle.nr_reduce.specs.ServerState.{PendingRead};
ghost use Rattle.nr_reduce.specs.ServerReads.{is_read};
ghost use Rattle.nr_reduce.specs.Chunks.{call_conveyed, call_stream, is_read_chunk_of_item, item_position};
ghost use Rattle.nr_responder.specs.private.Reading.{opening, sink_bytes, with_opened_after};
ghost use Rattle.nr_responder.specs.private.ReadsDone.{has_bad_chunk, reads_without, still_open, HandlesRead, NothingReady};
ghost use Rattle.nr_responder.specs.private.DoneReads.{IsOfCall, ReadsOn, ReadyMade};
ghost use Rattle.nr_responder.specs.HeldBytes.{sinks_share};
ghost use Rattle.nr_regions.specs.RegisteredMemory.{AreHeldFrom};
ghost use Rattle.nr_responder.specs.Sound.{claims_of, state_of, HasSpace, InBuffer, IsRoom, ServerEndInvariant, SameInput, OthersAreRead, WindowsAreRead, WindowsInvariant, room_for};
ghost use Rattle.nr_responder.specs.Views.{call_view, read_view, sink_view};

use crate::answering::chunk_error;
use crate::call::{OpenSink, Pending, ReadEntry, Ready, is_read, lists_again, take_receive};
use crate::heads::head_of;
use crate::opening::{open_count, open_reads, send_and_open};
use crate::payloads::{inline_stream, judge_payload, stream_alone, with_item};
use crate::room::{Payload, Room};
use crate::server_end::ServerEnd;
use crate::sink_regions::{close_over, is_read_at, sink_bytes};
use nr_endpoint::Endpoint;
use nr_header::ListsRoom;
use nr_reduce::{is_read_chunk_of_item, item_position};
use nr_xdr::Memory;
use std::alloc::Global;

/// The place of the call whose Send has this number.
fn number_place(calls: &[Pending], number: u64) -> Option<usize>
    ensures some { IfSome result (λ at. (at < length calls.now) × ((d : Pending) → (get_or calls.now at d).number ≡ number)) }
    ensures none { result ≡ None → (k : ℕ) (d : Pending) → k < length calls.now → (get_or calls.now k d).number ≢ number }
    ensures first { IfSome result (λ at. (k : ℕ) (d : Pending) → k < at → (get_or calls.now k d).number ≢ number) }
{
    'calls: for i in 0..calls.len() {
        if calls[i].number == number {
            return Some(i);
        }
    }
    None
}

/// The stream of a call, in its message or in the sink at position 0.
fn stream_read<'a>(call: &'a Pending, endpoint: &'a Endpoint, sinks: &'a [OpenSink]) -> &'a [u8]
    requires call { InBuffer call.now }
    requires held { AreHeldFrom endpoint.now.link.state.memory 0 (claims_of sinks.now) }
    requires short { All (λ s. s.registration.len ≤ PAYLOAD_MAX) sinks.now }
    ensures stream { result.now ≡ call_stream (call_view call.now).inline (sink_bytes endpoint.now.link.state.memory (map sink_view sinks.now) call.now.number) }
    ensures small { length result.now ≤ send_unit + PAYLOAD_MAX }
{
    if call.inline {
        return inline_stream(call);
    }
    sink_bytes(endpoint, sinks, call.number, 0)
}

/// The position of the item of a call in its read list, if it has one.
fn position_of(call: &Pending) -> Option<u32>
    requires { InBuffer call.now }
    ensures { result ≡ item_position (call_view call.now).lists.read }
{
    let mut room = ListsRoom::new();
    lists_again(call, &mut room);
    let position = item_position(room.as_slices().read);
    drop(room);
    position
}

/// Whether the read chunk of a call is that of the item of a stream.
fn has_own_chunk(call: &Pending, stream: &[u8]) -> bool
    requires { InBuffer call.now }
    ensures { result ≡ is_read_chunk_of_item stream.now (call_view call.now).lists.read }
{
    let mut room = ListsRoom::new();
    lists_again(call, &mut room);
    let is_own = is_read_chunk_of_item(stream, room.as_slices().read);
    drop(room);
    is_own
}

/// The payload of a call of which all chunks are read, if they convey one.
fn payload_read(
    room: Room,
    call: &Pending,
    endpoint: &Endpoint,
    sinks: &[OpenSink],
) -> Option<Payload>
    requires room { room_for (call_view call.now) (sinks_share call.now.number (map sink_view sinks.now)) ≤ room }
    requires call { InBuffer call.now }
    requires held { AreHeldFrom endpoint.now.link.state.memory 0 (claims_of sinks.now) }
    requires short { All (λ s. s.registration.len ≤ PAYLOAD_MAX) sinks.now }
    ensures { result ≡ call_conveyed (call_view call.now).inline (call_view call.now).lists.read (sink_bytes endpoint.now.link.state.memory (map sink_view sinks.now) call.now.number) }
{
    let stream = stream_read(call, endpoint, sinks);
    let head = head_of(call, stream);
    match position_of(call) {
        Some(position) => {
            let moved = sink_bytes(endpoint, sinks, call.number, position);
            with_item(room, head, stream, moved)
        }
        None => Some(stream_alone(room, stream, head.target)),
    }
}

/// Takes the room of a call's payload out of it.
fn take_out_room(call: &mut Pending) -> Option<Room>
    ensures room { result ≡ call.old.room }
    ensures call { call.new ≡ record call.old { room = None } }
{
    call.room.take()
}

/// Drops the reads of a call that wait, after the first `kept`.
fn drop_waiting(reads: &mut Vec<ReadEntry>, number: u64, kept: usize)
    ensures { map read_view reads.new.items ≡ reads_without number kept (map read_view reads.old.items) }
{
    let mut at = kept;
    'reads: for _ in kept..reads.len() {
        at = drop_at(reads, number, at);
    }
}

/// Drops the read at this place if it is of this call, and answers the place of the next one.
fn drop_at(reads: &mut Vec<ReadEntry>, number: u64, at: usize) -> usize
    requires at { at < length reads.old.items }
    ensures left { take result (map read_view reads.new.items) ++ filter (λ r. not (r.number == number)) (drop result (map read_view reads.new.items))
        ≡ take at (map read_view reads.old.items) ++ filter (λ r. not (r.number == number)) (drop at (map read_view reads.old.items)) }
    ensures count { length reads.new.items + (at + 1) ≡ result + length reads.old.items }
{
    if reads[at].number != number {
        return at + 1;
    }
    let _ = reads.remove(at);
    at
}

/// Queues ERR_CHUNK for a call, and opens the reads that may open then. An `Err` changes nothing.
fn queue_refusal(
    endpoint: &mut Endpoint,
    alloc: Global,
    xid: u32,
    credits: u32,
    reads: &[ReadEntry],
    kept: usize,
) -> Result<(), Memory>
    requires live { endpoint.old.link.state.ended ≡ None }
    ensures ok { OnOk result (endpoint.new.link ≡ with_opened_after (chunk_error xid credits) (opening kept (map read_view reads.now)) endpoint.old.link) }
    ensures err { OnErr result (endpoint.new.link ≡ endpoint.old.link) }
    ensures outside { endpoint.new.outside ≡ endpoint.old.outside }
    ensures staging { endpoint.new.staging ≡ endpoint.old.staging }
{
    let message = chunk_error(alloc, xid, credits)?;
    send_and_open(endpoint, alloc, &message, reads, kept)
}

impl ServerEnd {
    /// Opens the reads that may open, and closes the sinks that are over. An `Err` changes nothing: some may open, and memory ran out.
    fn read_on(&mut self, kept: usize) -> Result<(), Memory>
        requires sound { ServerEndInvariant self.old }
        requires windows { WindowsAreRead self.old.calls.items self.old.reads.items }
        requires live { self.old.endpoint.link.state.ended ≡ None }
        ensures ok { OnOk result (ReadsOn self.old.endpoint.link.state kept self.old self.new) }
        ensures err { OnErr result (state_of self.new ≡ state_of self.old) }
        ensures some { OnErr result (opening kept (map read_view self.old.reads.items) ≢ []) }
        ensures ready { self.new.ready ≡ self.old.ready }
        ensures count { length self.new.calls.items ≡ length self.old.calls.items }
        ensures live { OnErr result (self.new.endpoint.link.state.ended ≡ None) }
        ensures windows { WindowsInvariant self.new }
        ensures sound { ServerEndInvariant self.new }
        ensures staging { self.new.endpoint.staging ≡ self.old.endpoint.staging }
    {
        open_reads(&mut self.endpoint, self.alloc, self.reads.as_slice(), kept)?;
        close_over(
            &mut self.endpoint,
            &mut self.sinks,
            self.calls.as_slice(),
            self.reads.as_slice(),
        );
        Ok(())
    }

    /// The call of the read that is done waits for more, or was answered or refused before.
    fn go_on(&mut self, done: ReadEntry, kept: usize)
        requires sound { ServerEndInvariant self.old }
        requires windows { WindowsAreRead self.old.calls.items self.old.reads.items }
        requires live { self.old.endpoint.link.state.ended ≡ None }
        requires kept { kept ≡ still_open (read_view done) (map read_view self.old.reads.items) }
        requires nothing { NothingReady (state_of self.old) (read_view done) (map read_view self.old.reads.items) }
        ensures handled { HandlesRead (state_of self.old) (read_view done) (map read_view self.old.reads.items) (state_of self.new) }
        ensures windows { WindowsInvariant self.new }
        ensures sound { ServerEndInvariant self.new }
        ensures input { SameInput self.old.endpoint.link self.new.endpoint.link }
        ensures staging { self.new.endpoint.staging ≡ self.old.endpoint.staging }
    {
        // Only the contract speaks of it.
        let _done = done;
        match self.read_on(kept) {
            Ok(()) => (),
            Err(_) => self.run_out(),
        }
    }

    /// A call is ready with this payload.
    fn make_ready(&mut self, xid: u32, payload: Payload, kept: usize)
        requires sound { ServerEndInvariant self.old }
        requires windows { WindowsAreRead self.old.calls.items self.old.reads.items }
        requires live { self.old.endpoint.link.state.ended ≡ None }
        requires few { length self.old.ready.items < length self.old.calls.items }
        ensures made { ReadyMade (state_of self.old) kept xid payload (state_of self.new) }
        ensures windows { WindowsInvariant self.new }
        ensures sound { ServerEndInvariant self.new }
        ensures input { SameInput self.old.endpoint.link self.new.endpoint.link }
        ensures staging { self.new.endpoint.staging ≡ self.old.endpoint.staging }
    {
        self.endpoint.facts();
        match self.read_on(kept) {
            Ok(()) => self.ready.push_back_reserved(Ready {
                xid,
                payload: Some(payload),
            }),
            Err(_) => self.run_out(),
        }
    }

    /// The room of the payload of the call at this place, which is read.
    fn take_room_at(&mut self, at: usize) -> Room
        requires sound { ServerEndInvariant self.old }
        requires windows { WindowsAreRead self.old.calls.items self.old.reads.items }
        requires at { at < length self.old.calls.items }
        requires read { (d : Pending) → is_read (map read_view self.old.reads.items) (get_or self.old.calls.items at d).number ≡ true }
        requires empty { (d : Pending) → (get_or self.old.calls.items at d).around ≡ 0 }
        requires room { (d : Pending) → IsRoom (map sink_view self.old.sinks.items) (call_view (get_or self.old.calls.items at d)) (get_or self.old.calls.items at d).room }
        ensures room { (d : Pending) → room_for (call_view (get_or self.old.calls.items at d)) (sinks_share (get_or self.old.calls.items at d).number (map sink_view self.old.sinks.items)) ≤ result }
        ensures call { (d : Pending) → call_view (get_or self.new.calls.items at d) ≡ call_view (get_or self.old.calls.items at d) }
        ensures whole { (d : Pending) → InBuffer (get_or self.new.calls.items at d) }
        ensures count { length self.new.calls.items ≡ length self.old.calls.items }
        ensures same { state_of self.new ≡ state_of self.old }
        ensures endpoint { self.new.endpoint ≡ self.old.endpoint }
        ensures ready { self.new.ready ≡ self.old.ready }
        ensures windows { WindowsAreRead self.new.calls.items self.new.reads.items }
        ensures sound { ServerEndInvariant self.new }
    {
        match take_out_room(&mut self.calls[at]) {
            Some(room) => room,
            None => unreachable!(),
        }
    }

    /// The call at this place is complete by the read that is done: it is ready, or ends the link.
    fn complete(&mut self, at: usize, done: ReadEntry, kept: usize)
        requires sound { ServerEndInvariant self.old }
        requires windows { OthersAreRead done.number self.old.calls.items self.old.reads.items }
        requires live { self.old.endpoint.link.state.ended ≡ None }
        requires frame { 0 < self.old.endpoint.link.state.place }
        requires at { at < length self.old.calls.items }
        requires call { (d : Pending) → IsOfCall (state_of self.old) (read_view done) kept at (call_view (get_or self.old.calls.items at d)) }
        requires few { length self.old.ready.items < length self.old.calls.items }
        requires fine { (d : Pending) → has_bad_chunk (state_of self.old) (call_view (get_or self.old.calls.items at d)) (read_view done) (map read_view self.old.reads.items) ≡ false }
        requires read { (d : Pending) → is_read (map read_view self.old.reads.items) (get_or self.old.calls.items at d).number ≡ true }
        requires space { (d : Pending) → HasSpace self.old.endpoint.outside self.old.sinks.items (get_or self.old.calls.items at d) }
        ensures handled { HandlesRead (state_of self.old) (read_view done) (map read_view self.old.reads.items) (state_of self.new) }
        ensures windows { WindowsInvariant self.new }
        ensures sound { ServerEndInvariant self.new }
        ensures input { SameInput self.old.endpoint.link self.new.endpoint.link }
        ensures staging { self.new.endpoint.staging ≡ self.old.endpoint.staging }
    {
        if self.calls[at].around == 0 {
            self.complete_in_room(at, done, kept);
        } else {
            self.complete_in_place(at, done, kept);
        }
    }

    /// The same, if its payload is put together in a room of its own.
    fn complete_in_room(&mut self, at: usize, done: ReadEntry, kept: usize)
        requires sound { ServerEndInvariant self.old }
        requires windows { OthersAreRead done.number self.old.calls.items self.old.reads.items }
        requires live { self.old.endpoint.link.state.ended ≡ None }
        requires frame { 0 < self.old.endpoint.link.state.place }
        requires at { at < length self.old.calls.items }
        requires call { (d : Pending) → IsOfCall (state_of self.old) (read_view done) kept at (call_view (get_or self.old.calls.items at d)) }
        requires few { length self.old.ready.items < length self.old.calls.items }
        requires fine { (d : Pending) → has_bad_chunk (state_of self.old) (call_view (get_or self.old.calls.items at d)) (read_view done) (map read_view self.old.reads.items) ≡ false }
        requires read { (d : Pending) → is_read (map read_view self.old.reads.items) (get_or self.old.calls.items at d).number ≡ true }
        requires empty { (d : Pending) → (get_or self.old.calls.items at d).around ≡ 0 }
        requires room { (d : Pending) → IsRoom (map sink_view self.old.sinks.items) (call_view (get_or self.old.calls.items at d)) (get_or self.old.calls.items at d).room }
        ensures handled { HandlesRead (state_of self.old) (read_view done) (map read_view self.old.reads.items) (state_of self.new) }
        ensures windows { WindowsInvariant self.new }
        ensures sound { ServerEndInvariant self.new }
        ensures input { SameInput self.old.endpoint.link self.new.endpoint.link }
        ensures staging { self.new.endpoint.staging ≡ self.old.endpoint.staging }
    {
        // Only the contract speaks of it.
        let _done = done;
        let room = self.take_room_at(at);
        let call = &self.calls[at];
        let payload = payload_read(room, call, &self.endpoint, self.sinks.as_slice());
        let xid = call.xid;
        match judge_payload(payload, xid) {
            Ok(payload) => self.make_ready(xid, payload, kept),
            Err(reason) => self.end_for(reason),
        }
    }

    /// Whether the stream of the call at this place is there by the read that is done, and its read chunk isn't that of its item.
    fn has_bad_chunk(&self, at: usize, done: ReadEntry) -> bool
        requires sound { ServerEndInvariant self.now }
        requires at { at < length self.now.calls.items }
        ensures { (d : Pending) → result ≡ has_bad_chunk (state_of self.now) (call_view (get_or self.now.calls.items at d)) (read_view done) (map read_view self.now.reads.items) }
    {
        let call = &self.calls[at];
        if done.position != 0 || !is_read_at(self.reads.as_slice(), call.number, 0) {
            return false;
        }
        let stream = sink_bytes(&self.endpoint, self.sinks.as_slice(), call.number, 0);
        !has_own_chunk(call, stream)
    }

    /// The call at this place is refused by ERR_CHUNK (RFC 8166 section 4.5.3), and its reads that wait are dropped.
    fn refuse_read(&mut self, at: usize, done: ReadEntry, kept: usize)
        requires sound { ServerEndInvariant self.old }
        requires windows { OthersAreRead done.number self.old.calls.items self.old.reads.items }
        requires live { self.old.endpoint.link.state.ended ≡ None }
        requires at { at < length self.old.calls.items }
        requires call { (d : Pending) → IsOfCall (state_of self.old) (read_view done) kept at (call_view (get_or self.old.calls.items at d)) }
        requires few { length self.old.ready.items < length self.old.calls.items }
        requires empty { (d : Pending) → (get_or self.old.calls.items at d).around ≡ 0 }
        requires bad { (d : Pending) → has_bad_chunk (state_of self.old) (call_view (get_or self.old.calls.items at d)) (read_view done) (map read_view self.old.reads.items) ≡ true }
        ensures handled { HandlesRead (state_of self.old) (read_view done) (map read_view self.old.reads.items) (state_of self.new) }
        ensures windows { WindowsInvariant self.new }
        ensures sound { ServerEndInvariant self.new }
        ensures input { SameInput self.old.endpoint.link self.new.endpoint.link }
        ensures staging { self.new.endpoint.staging ≡ self.old.endpoint.staging }
    {
        self.endpoint.facts();
        let xid = self.calls[at].xid;
        drop_waiting(&mut self.reads, done.number, kept);
        match queue_refusal(
            &mut self.endpoint,
            self.alloc,
            xid,
            self.credits.word,
            self.reads.as_slice(),
            kept,
        ) {
            Err(_) => self.run_out(),
            Ok(()) => {
                let buf = take_receive(&mut self.calls, at);
                self.used.push_back_reserved(buf);
                close_over(
                    &mut self.endpoint,
                    &mut self.sinks,
                    self.calls.as_slice(),
                    self.reads.as_slice(),
                );
            }
        }
    }

    /// The read that is done is of the call at this place.
    fn read_of_call(&mut self, at: usize, done: ReadEntry, kept: usize)
        requires sound { ServerEndInvariant self.old }
        requires windows { OthersAreRead done.number self.old.calls.items self.old.reads.items }
        requires live { self.old.endpoint.link.state.ended ≡ None }
        requires frame { 0 < self.old.endpoint.link.state.place }
        requires at { at < length self.old.calls.items }
        requires call { (d : Pending) → IsOfCall (state_of self.old) (read_view done) kept at (call_view (get_or self.old.calls.items at d)) }
        requires space { (d : Pending) → HasSpace self.old.endpoint.outside self.old.sinks.items (get_or self.old.calls.items at d) }
        requires apart { (d : Pending) → (get_or self.old.calls.items at d).around ≢ 0 → done.position ≢ 0 }
        ensures handled { HandlesRead (state_of self.old) (read_view done) (map read_view self.old.reads.items) (state_of self.new) }
        ensures windows { WindowsInvariant self.new }
        ensures sound { ServerEndInvariant self.new }
        ensures input { SameInput self.old.endpoint.link self.new.endpoint.link }
        ensures staging { self.new.endpoint.staging ≡ self.old.endpoint.staging }
    {
        if self.calls.len() <= self.ready.len() {
            // Each call that is ready is pending, and this one isn't ready.
            self.run_out();
            return;
        }
        if self.has_bad_chunk(at, done) {
            self.refuse_read(at, done, kept);
        } else if is_read(self.reads.as_slice(), done.number) {
            self.complete(at, done, kept);
        } else {
            self.go_on(done, kept);
        }
    }

    /// The oldest read is done.
    pub(crate) fn read_done(&mut self)
        requires sound { ServerEndInvariant self.old }
        requires windows { WindowsAreRead self.old.calls.items self.old.reads.items }
        requires live { self.old.endpoint.link.state.ended ≡ None }
        requires frame { 0 < self.old.endpoint.link.state.place }
        ensures handled { (r : PendingRead) (rest : List PendingRead) → map read_view self.old.reads.items ≡ r ∷ rest → HandlesRead (state_of self.old) r rest (state_of self.new) }
        ensures windows { WindowsInvariant self.new }
        ensures sound { ServerEndInvariant self.new }
        ensures input { SameInput self.old.endpoint.link self.new.endpoint.link }
        ensures staging { self.new.endpoint.staging ≡ self.old.endpoint.staging }
    {
        if self.reads.is_empty() {
            return;
        }
        let kept = open_count(self.reads.len()) - 1;
        let done = self.reads.remove(0);
        match number_place(self.calls.as_slice(), done.number) {
            Some(at) => self.read_of_call(at, done, kept),
            None => self.go_on(done, kept),
        }
    }
}
