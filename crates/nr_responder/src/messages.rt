//! What a message makes of a responder (RFC 8166 sections 4.2 to 4.5).

ghost use Rattle.std.specs.Prelude.{◌≡◌, ◌+◌, ◌<◌, ◌≤◌, [], ◌∷◌, ◌++◌, length, take, map, Option, None, option_map, IfOk, IsOk, true, ◌⊎◌};
ghost use Rattle.nr_header.specs.Constants.{FIXED_LEN};
ghost use Rattle.nr_header.specs.Header.{no_lists};
ghost use Rattle.nr_header.specs.ReadInto.{lists_in};
ghost use Rattle.nr_endpoint.specs.Receives.{IsReceive};
ghost use Rattle.nr_endpoint.specs.Calls.{after_call, IsStopReason};
ghost use Rattle.nr_endpoint.specs.Calls.Call.{Stop, Send, OutOfMemory};
ghost use Rattle.nr_responder.specs.private.Handling.{out, Begins, Makes, OrOut};
ghost use Rattle.nr_reduce.specs.ServerReads.{is_read};
ghost use Rattle.nr_responder.specs.Sound.{state_of, HasRoom, InBuffer, ServerEndInvariant, ServerEndInvariantWith, SameInput, WindowsAreRead, WindowsInvariant};
ghost use Rattle.nr_responder.specs.Views.{read_view, HasLists};

use crate::answering::{chunk_error, version_error};
use crate::call::{Pending, Ready, is_read, stream_of};
use crate::heads::StreamHead;
use crate::judging::{Judged, judge};
use crate::room::Payload;
use crate::server_end::{ServerEnd, own_xid, send_error, stop};
use nr_header::ListsRoom;
use nr_link::constants::{REASON_CALL, REASON_KIND};
use nr_reduce::Item;
use nr_rpc::{CallTarget, call_target};
use nr_xdr::{Memory, Octets, word_at};

/// What a head that was read asks for.
fn target_read(head: Option<StreamHead>) -> Option<Option<CallTarget>>
    ensures { result ≡ option_map (λ h. h.target) head }
{
    match head {
        Some(head) => Some(head.target),
        None => None,
    }
}

/// The item of a stream whose head was read.
fn item_read(head: Option<StreamHead>) -> Option<Option<Item>>
    ensures { result ≡ option_map (λ h. h.item) head }
{
    match head {
        Some(head) => Some(head.item),
        None => None,
    }
}

impl ServerEnd {
    /// Ends the side because memory ran out.
    pub(crate) fn run_out(&mut self)
        requires sound { ServerEndInvariant self.old }
        ensures out { state_of self.new ≡ out (state_of self.old) }
        ensures windows { WindowsInvariant self.new }
        ensures sound { ServerEndInvariant self.new }
        ensures input { SameInput self.old.endpoint.link self.new.endpoint.link }
        ensures staging { self.new.endpoint.staging ≡ self.old.endpoint.staging }
    {
        let _ = self.endpoint.run_out();
    }

    /// Ends the side for a reason that a call gives, or because memory ran out for its Terminate.
    pub(crate) fn end_for(&mut self, reason: u32)
        requires sound { ServerEndInvariant self.old }
        requires live { self.old.endpoint.link.state.ended ≡ None }
        requires frame { 0 < self.old.endpoint.link.state.place }
        requires reason { IsStopReason reason }
        ensures ended { OrOut (state_of self.old) (after_call self.old.endpoint.link (Stop reason)) (state_of self.new) }
        ensures windows { WindowsInvariant self.new }
        ensures sound { ServerEndInvariant self.new }
        ensures input { SameInput self.old.endpoint.link self.new.endpoint.link }
        ensures staging { self.new.endpoint.staging ≡ self.old.endpoint.staging }
    {
        stop(&mut self.endpoint, reason);
    }

    /// A message, which may make a call.
    pub(crate) fn message(&mut self, number: u64, buf: Octets, len: usize)
        requires sound { ServerEndInvariantWith 1 self.old }
        requires windows { WindowsAreRead self.old.calls.items self.old.reads.items }
        requires live { self.old.endpoint.link.state.ended ≡ None }
        requires frame { 0 < self.old.endpoint.link.state.place }
        requires buf { IsReceive self.old.endpoint.link.state.receive_queue.receive_length buf }
        requires len { (FIXED_LEN ≤ len) × (len ≤ length buf) }
        ensures made { Makes (state_of self.old) number (take len buf) (state_of self.new) }
        ensures windows { WindowsInvariant self.new }
        ensures sound { ServerEndInvariant self.new }
        ensures input { SameInput self.old.endpoint.link self.new.endpoint.link }
        ensures staging { self.new.endpoint.staging ≡ self.old.endpoint.staging }
    {
        let mut room = ListsRoom::new();
        self.message_into(number, buf, len, &mut room);
        drop(room);
    }

    /// The same, with room for its lists.
    fn message_into(&mut self, number: u64, buf: Octets, len: usize, room: &mut ListsRoom)
        requires room { room.old ≡ no_lists }
        requires sound { ServerEndInvariantWith 1 self.old }
        requires windows { WindowsAreRead self.old.calls.items self.old.reads.items }
        requires live { self.old.endpoint.link.state.ended ≡ None }
        requires frame { 0 < self.old.endpoint.link.state.place }
        requires buf { IsReceive self.old.endpoint.link.state.receive_queue.receive_length buf }
        requires len { (FIXED_LEN ≤ len) × (len ≤ length buf) }
        ensures made { Makes (state_of self.old) number (take len buf) (state_of self.new) }
        ensures windows { WindowsInvariant self.new }
        ensures sound { ServerEndInvariant self.new }
        ensures input { SameInput self.old.endpoint.link self.new.endpoint.link }
        ensures staging { self.new.endpoint.staging ≡ self.old.endpoint.staging }
    {
        self.endpoint.facts();
        if !is_read(self.reads.as_slice(), number) {
            // No read is left from before a call's Send.
            self.run_out();
            return;
        }
        let message = stream_of(&buf, len, 0);
        let xid = word_at(message, 0);
        let version = word_at(message, 4);
        match judge(message, self.calls.as_slice(), room) {
            Judged::Kind => self.end_for(REASON_KIND),
            Judged::Open => self.end_for(REASON_CALL),
            Judged::OtherVersion => {
                let made = version_error(self.alloc, xid, version, self.credits.word);
                self.refuse(buf, made);
            }
            Judged::BadChunks => {
                let made = chunk_error(self.alloc, xid, self.credits.word);
                self.refuse(buf, made);
            }
            Judged::Call { stream_at } => self.begin(number, buf, len, stream_at),
            Judged::Reads {
                stream_at,
                inline,
                head,
            } => self.fetch(
                Pending {
                    number,
                    xid,
                    buf,
                    len,
                    stream_at,
                    inline,
                    room: None,
                    around: 0,
                    target: target_read(head),
                    item: item_read(head),
                },
                room.as_slices().read,
            ),
        }
    }

    /// Queues an error message for the message in this receive.
    fn refuse(&mut self, buf: Octets, made: Result<Octets, Memory>)
        requires sound { ServerEndInvariantWith 1 self.old }
        requires windows { WindowsAreRead self.old.calls.items self.old.reads.items }
        requires live { self.old.endpoint.link.state.ended ≡ None }
        requires buf { IsReceive self.old.endpoint.link.state.receive_queue.receive_length buf }
        ensures link { (IfOk made (λ m. self.new.endpoint.link ≡ after_call self.old.endpoint.link (Send m)) × IsOk made) ⊎ (self.new.endpoint.link ≡ after_call self.old.endpoint.link OutOfMemory) }
        ensures same { (self.new.calls ≡ self.old.calls) × (self.new.ready ≡ self.old.ready) × (self.new.credits ≡ self.old.credits) }
        ensures reads { (self.new.reads.items ≡ self.old.reads.items) × (self.new.sinks.items ≡ self.old.sinks.items) }
        ensures staging { self.new.endpoint.staging ≡ self.old.endpoint.staging }
        ensures windows { WindowsInvariant self.new }
        ensures sound { ServerEndInvariant self.new }
    {
        self.endpoint.facts();
        if send_error(&mut self.endpoint, made) {
            self.used.push_back_reserved(buf);
        }
    }

    /// A call whose stream stands in its message: it is ready if that is an RPC call of its xid, else it ends the link.
    fn begin(&mut self, number: u64, buf: Octets, len: usize, stream_at: usize)
        requires sound { ServerEndInvariantWith 1 self.old }
        requires windows { WindowsAreRead self.old.calls.items self.old.reads.items }
        requires live { self.old.endpoint.link.state.ended ≡ None }
        requires frame { 0 < self.old.endpoint.link.state.place }
        requires buf { IsReceive self.old.endpoint.link.state.receive_queue.receive_length buf }
        requires len { (FIXED_LEN ≤ len) × (len ≤ length buf) }
        requires stream { stream_at ≤ len }
        requires lists { HasLists (take len buf) }
        requires fresh { is_read (map read_view self.old.reads.items) number ≡ true }
        ensures begun { Begins (state_of self.old) (state_of self.new) number (take len buf) (lists_in (take len buf)) stream_at }
        ensures windows { WindowsInvariant self.new }
        ensures sound { ServerEndInvariant self.new }
        ensures input { SameInput self.old.endpoint.link self.new.endpoint.link }
        ensures staging { self.new.endpoint.staging ≡ self.old.endpoint.staging }
    {
        let target = call_target(stream_of(&buf, len, stream_at));
        match own_xid(&buf, len, stream_at, target) {
            Err(reason) => self.end_for(reason),
            Ok(xid) => {
                let call = Pending {
                    number,
                    xid,
                    buf,
                    len,
                    stream_at,
                    inline: true,
                    room: None,
                    around: 0,
                    target: Some(target),
                    item: None,
                };
                self.push(call, None);
            }
        }
    }

    /// A call that is ready, with its payload if that was read. There is room for it.
    pub(crate) fn push(&mut self, call: Pending, payload: Option<Payload>)
        requires sound { ServerEndInvariantWith 1 self.old }
        requires windows { WindowsAreRead self.old.calls.items self.old.reads.items }
        requires read { (call.around ≡ 0) × (is_read (map read_view self.old.reads.items) call.number ≡ true) }
        requires call { InBuffer call }
        requires receive { IsReceive self.old.endpoint.link.state.receive_queue.receive_length call.buf }
        requires room { HasRoom self.old.endpoint.outside self.old.sinks.items self.old.reads.items call }
        ensures pushed { (self.new.calls.items ≡ self.old.calls.items ++ call ∷ []) × (self.new.ready.items ≡ self.old.ready.items ++ record { xid = call.xid; payload = payload } ∷ []) }
        ensures same { (self.new.endpoint ≡ self.old.endpoint) × (self.new.credits ≡ self.old.credits) }
        ensures reads { (self.new.reads.items ≡ self.old.reads.items) × (self.new.sinks.items ≡ self.old.sinks.items) }
        ensures windows { WindowsInvariant self.new }
        ensures sound { ServerEndInvariant self.new }
    {
        self.endpoint.facts();
        let xid = call.xid;
        self.calls.push_reserved(call);
        self.ready.push_back_reserved(Ready { xid, payload });
    }
}
