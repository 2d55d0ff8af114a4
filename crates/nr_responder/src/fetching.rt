//! Calls with a read list: their chunks are read before they are ready (RFC 8166 section 3.4.5).

ghost use Rattle.std.specs.Prelude.{◌≡◌, ◌≢◌, ◌⊎◌, ◌+◌, ◌^◌, ◌==◌, ◌<◌, ◌≤◌, [], ◌∷◌, None, Some, IfSome, length, map, true, false};
ghost use Rattle.std.specs.List.{list_all, list_any};
ghost use Rattle.nr_header.specs.Constants.{PAYLOAD_MAX};
ghost use Rattle.nr_header.specs.WithinLimits.{read_total};
ghost use Rattle.nr_responder.specs.private.Handling.{FetchesCall, out};
ghost use Rattle.nr_responder.specs.Sound.{state_of, InBuffer, ServerEndInvariant, SameInput, WindowsInvariant};
ghost use Rattle.nr_reduce.specs.ServerReads.{is_read};
ghost use Rattle.nr_responder.specs.Fetching.{has_bytes, HasBytes};
ghost use Rattle.nr_reduce.specs.Chunks.{item_position};
ghost use Rattle.nr_responder.specs.private.Starting.{FitsWindow, IsNewCall};
ghost use Rattle.nr_responder.specs.private.CallsRead.{chunk_positions, HasNoBytes, reading_call};
ghost use Rattle.nr_responder.specs.Views.{call_view, read_view};

use crate::call::{OpenSink, Pending, has_number, inline_item};
use crate::payloads::{inline_stream, judge_at_once};
use crate::read_lists::chunk_positions;
use crate::server_end::ServerEnd;
use crate::sink_regions::{has_sink, sink_place};
use crate::starting::{begin_in_place, begin_reads, push_around, push_reading};
use nr_header::ReadSegment;
use nr_link::constants::REASON_STAGS;
use nr_reduce::item_position;

/// Whether some entry of a read list has bytes.
fn has_bytes(read: &[ReadSegment]) -> bool
    ensures { result ≡ has_bytes read.now }
{
    read.iter().any(|r| r.length != 0)
}

/// The position of a call's only chunk that has bytes.
fn only_chunk(chunks: &[u32]) -> Option<u32>
    ensures { IfSome result (λ p. chunks.now ≡ p ∷ []) }
{
    if chunks.len() != 1 {
        return None;
    }
    Some(chunks[0])
}

/// Whether all entries of a read list have this position.
fn are_at(read: &[ReadSegment], position: u32) -> bool
    ensures { result ≡ list_all (λ r. r.position == position) read.now }
{
    read.iter().all(|r| r.position == position)
}

/// Whether all entries of a read list have this position, which isn't 0.
fn has_one_position(read: &[ReadSegment], position: u32) -> bool
    ensures { result ≡ true → (list_all (λ r. r.position == position) read.now ≡ true) × ((position ≢ 0) × (item_position read.now ≡ Some position)) }
{
    if position == 0 {
        return false;
    }
    if !are_at(read, position) {
        return false;
    }
    match item_position(read) {
        Some(found) => found == position,
        None => false,
    }
}

/// The offset of the region in the buffer of a call's sink, if the call's payload can be completed in that buffer.
fn window_start(
    call: &Pending,
    sinks: &[OpenSink],
    chunks: &[u32],
    read: &[ReadSegment],
) -> Option<usize>
    requires { InBuffer call.now }
    ensures { IfSome result (λ start. FitsWindow sinks.now read.now chunks.now call.now start) }
{
    let Some(item) = inline_item(call) else {
        return None;
    };
    let Some(position) = only_chunk(chunks) else {
        return None;
    };
    if item.pos != position as usize || item.pos > call.len - call.stream_at {
        return None;
    }
    if !has_one_position(read, position) {
        return None;
    }
    match sink_place(sinks, call.number, position) {
        Some(_) => None,
        None => Some(item.pos),
    }
}

impl ServerEnd {
    /// A call with a read list.
    pub(crate) fn fetch(&mut self, call: Pending, read: &[ReadSegment])
        requires call { IsNewCall self.old call read.now }
        requires frame { 0 < self.old.endpoint.link.state.place }
        requires reads { read_total read.now ≤ PAYLOAD_MAX }
        requires fresh { is_read (map read_view self.old.reads.items) call.number ≡ true }
        ensures fetched { FetchesCall (state_of self.old) (state_of self.new) (call_view call) }
        ensures windows { WindowsInvariant self.new }
        ensures sound { ServerEndInvariant self.new }
        ensures input { SameInput self.old.endpoint.link self.new.endpoint.link }
        ensures staging { self.new.endpoint.staging ≡ self.old.endpoint.staging }
    {
        if has_bytes(read) {
            self.fetch_chunks(call, read);
        } else {
            self.complete_at_once(call, read);
        }
    }

    /// A call whose read list has bytes.
    fn fetch_chunks(&mut self, call: Pending, read: &[ReadSegment])
        requires call { IsNewCall self.old call read.now }
        requires frame { 0 < self.old.endpoint.link.state.place }
        requires reads { read_total read.now ≤ PAYLOAD_MAX }
        requires bytes { HasBytes read.now }
        requires fresh { is_read (map read_view self.old.reads.items) call.number ≡ true }
        ensures fetched { FetchesCall (state_of self.old) (state_of self.new) (call_view call) }
        ensures windows { WindowsInvariant self.new }
        ensures sound { ServerEndInvariant self.new }
        ensures input { SameInput self.old.endpoint.link self.new.endpoint.link }
        ensures staging { self.new.endpoint.staging ≡ self.old.endpoint.staging }
    {
        match chunk_positions(self.alloc, read) {
            Ok(chunks) => self.fetch_into(call, chunks.as_slice(), read),
            Err(_) => {
                drop(call);
                self.run_out();
            }
        }
    }

    /// A call with these chunks that have bytes.
    fn fetch_into(&mut self, call: Pending, chunks: &[u32], read: &[ReadSegment])
        requires call { IsNewCall self.old call read.now }
        requires frame { 0 < self.old.endpoint.link.state.place }
        requires reads { read_total read.now ≤ PAYLOAD_MAX }
        requires bytes { HasBytes (call_view call).lists.read }
        requires chunks { chunks.now ≡ chunk_positions (call_view call).lists.read }
        requires fresh { is_read (map read_view self.old.reads.items) call.number ≡ true }
        ensures fetched { FetchesCall (state_of self.old) (state_of self.new) (call_view call) }
        ensures windows { WindowsInvariant self.new }
        ensures sound { ServerEndInvariant self.new }
        ensures input { SameInput self.old.endpoint.link self.new.endpoint.link }
        ensures staging { self.new.endpoint.staging ≡ self.old.endpoint.staging }
    {
        if chunks.len() as u64 > self.endpoint.regions().stags_left() {
            drop(call);
            self.end_for(REASON_STAGS);
            return;
        }
        // A read list with bytes has such a chunk, and no other call and no sink has the number of its Send.
        if chunks.is_empty() || has_number(self.calls.as_slice(), call.number) {
            drop(call);
            self.run_out();
            return;
        }
        if has_sink(self.sinks.as_slice(), call.number) {
            drop(call);
            self.run_out();
            return;
        }
        self.start(call, chunks, read);
    }

    /// A call whose reads may begin: its payload is completed in the buffer of its sink if it can be.
    fn start(&mut self, call: Pending, chunks: &[u32], read: &[ReadSegment])
        requires call { IsNewCall self.old call read.now }
        requires reads { read_total read.now ≤ PAYLOAD_MAX }
        requires chunks { chunks.now ≡ chunk_positions (call_view call).lists.read }
        requires stags { self.old.endpoint.link.state.memory.next + length chunks.now ≤ 2 ^ 32 }
        requires own { list_any (λ c. c.number == call.number) self.old.calls.items ≡ false }
        requires no_sink { list_any (λ s. s.number == call.number) self.old.sinks.items ≡ false }
        requires fresh { is_read (map read_view self.old.reads.items) call.number ≡ true }
        ensures started { (state_of self.new ≡ reading_call (state_of self.old) (call_view call)) ⊎ (state_of self.new ≡ out (state_of self.old)) }
        ensures windows { WindowsInvariant self.new }
        ensures sound { ServerEndInvariant self.new }
        ensures input { SameInput self.old.endpoint.link self.new.endpoint.link }
        ensures staging { self.new.endpoint.staging ≡ self.old.endpoint.staging }
    {
        match window_start(&call, self.sinks.as_slice(), chunks, read) {
            Some(start) => self.start_in_place(call, chunks, read, start),
            None => self.start_reads(call, chunks, read),
        }
    }

    /// A call whose reads may begin.
    #[tactic(none)]
    fn start_reads(&mut self, call: Pending, chunks: &[u32], read: &[ReadSegment])
        requires call { IsNewCall self.old call read.now }
        requires reads { read_total read.now ≤ PAYLOAD_MAX }
        requires chunks { chunks.now ≡ chunk_positions (call_view call).lists.read }
        requires stags { self.old.endpoint.link.state.memory.next + length chunks.now ≤ 2 ^ 32 }
        requires own { list_any (λ c. c.number == call.number) self.old.calls.items ≡ false }
        requires no_sink { list_any (λ s. s.number == call.number) self.old.sinks.items ≡ false }
        ensures started { (state_of self.new ≡ reading_call (state_of self.old) (call_view call)) ⊎ (state_of self.new ≡ out (state_of self.old)) }
        ensures windows { WindowsInvariant self.new }
        ensures sound { ServerEndInvariant self.new }
        ensures input { SameInput self.old.endpoint.link self.new.endpoint.link }
        ensures staging { self.new.endpoint.staging ≡ self.old.endpoint.staging }
    {
        self.endpoint.facts();
        let inline = inline_stream(&call).len();
        match begin_reads(
            &mut self.endpoint,
            self.alloc,
            &mut self.reads,
            &mut self.sinks,
            call.number,
            inline,
            chunks,
            read,
        ) {
            Ok(room) => push_reading(&mut self.calls, call, room),
            Err(_) => self.run_out(),
        }
    }

    /// A call whose reads may begin, and whose payload is completed in the buffer of its sink.
    fn start_in_place(&mut self, call: Pending, chunks: &[u32], read: &[ReadSegment], start: usize)
        requires call { IsNewCall self.old call read.now }
        requires reads { read_total read.now ≤ PAYLOAD_MAX }
        requires chunks { chunks.now ≡ chunk_positions (call_view call).lists.read }
        requires stags { self.old.endpoint.link.state.memory.next + length chunks.now ≤ 2 ^ 32 }
        requires own { list_any (λ c. c.number == call.number) self.old.calls.items ≡ false }
        requires fresh { is_read (map read_view self.old.reads.items) call.number ≡ true }
        requires window { FitsWindow self.old.sinks.items read.now chunks.now call start }
        ensures started { (state_of self.new ≡ reading_call (state_of self.old) (call_view call)) ⊎ (state_of self.new ≡ out (state_of self.old)) }
        ensures windows { WindowsInvariant self.new }
        ensures sound { ServerEndInvariant self.new }
        ensures input { SameInput self.old.endpoint.link self.new.endpoint.link }
        ensures staging { self.new.endpoint.staging ≡ self.old.endpoint.staging }
    {
        self.endpoint.facts();
        let around = call.len - call.stream_at + 3;
        match begin_in_place(
            &mut self.endpoint,
            self.alloc,
            &mut self.reads,
            &mut self.sinks,
            call.number,
            chunks,
            read,
            (start, around),
        ) {
            Ok(()) => push_around(&mut self.calls, call, around),
            Err(_) => self.run_out(),
        }
    }

    /// A call whose read list has no bytes: it is ready, or ends the link. Takes memory for a Terminate alone.
    fn complete_at_once(&mut self, call: Pending, read: &[ReadSegment])
        requires call { IsNewCall self.old call read.now }
        requires frame { 0 < self.old.endpoint.link.state.place }
        requires none { HasNoBytes read.now }
        requires fresh { is_read (map read_view self.old.reads.items) call.number ≡ true }
        ensures fetched { FetchesCall (state_of self.old) (state_of self.new) (call_view call) }
        ensures windows { WindowsInvariant self.new }
        ensures sound { ServerEndInvariant self.new }
        ensures input { SameInput self.old.endpoint.link self.new.endpoint.link }
        ensures staging { self.new.endpoint.staging ≡ self.old.endpoint.staging }
    {
        match judge_at_once(&call, read) {
            None => self.push(call, None),
            Some(reason) => {
                drop(call);
                self.end_for(reason);
            }
        }
    }
}
