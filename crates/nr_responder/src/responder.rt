//! The responder: what contracts see of the server end of a link, and its calls.

ghost use Rattle.std.specs.Prelude.{◌≡◌, ◌≢◌, ℕ, ◌+◌, ◌*◌, ◌<◌, ◌≤◌, ◌^◌, List, [], ◌∷◌, ◌++◌, length, take, None, Some, Ok, Err, IfOk, OnOk, IfErr, IfSome, is_some, MatchOption, MatchResult, true, nat_lt, OnErr, ◌⊎◌};
ghost use Rattle.std.specs.Result.{result_err};
ghost use Rattle.nr_outside.specs.Faults.{Rises};
ghost use Rattle.nr_wire.specs.declared.hello.Side.TheVariants.{Initiator, Responder as ResponderSide};
ghost use Rattle.nr_wire.specs.Constants.{FPDU_MAX};
ghost use Rattle.nr_wire.specs.Feeding.{bytes_taken};
ghost use Rattle.nr_wire.specs.Stream.{bytes_needed};
ghost use Rattle.nr_endpoint.specs.declared.fault.DrainFault.TheVariants as drains;
ghost use Rattle.nr_endpoint.specs.FedBytes.{fed_bytes};
ghost use Rattle.nr_reduce.specs.Opening.{ServerOpened};
ghost use Rattle.nr_reduce.specs.declared.mark.LinkParameters.{LinkParameters};
ghost use Rattle.nr_reduce.specs.declared.mark.Mark.{Mark};
ghost use Rattle.nr_reduce.specs.declared.mark.Mark.TheVariants as marks;
ghost use Rattle.nr_reduce.specs.declared.mark.Told.TheVariants.{Granted, Old};
ghost use Rattle.nr_outside.specs.declared.moment.Moment.{Moment};
ghost use Rattle.nr_reduce.specs.History.{bytes_received};
ghost use Rattle.nr_reduce.specs.NumberedJournal.{number_heard};
ghost use Rattle.nr_reduce.specs.Served.{last_frame_at, next_call, IsExecuted};
ghost use Rattle.nr_responder.specs.Answering.{Answers};
ghost use Rattle.nr_responder.specs.Draining.{Drains};
ghost use Rattle.nr_link.specs.declared.end.End.TheVariants as ends;
ghost use Rattle.nr_header.specs.Constants.{PAYLOAD_MAX};
ghost use Rattle.nr_link.specs.Agreement.{default_terms, terms_with, IsSendLimit};
ghost use Rattle.nr_link.specs.Limits.{open_reads_max};
ghost use Rattle.nr_link.specs.Frames.{frames_of};
ghost use Rattle.nr_link.specs.Reasons.{REASON_OLD};
ghost use Rattle.nr_link.specs.SegmentFaults.{is_begun};
ghost use Rattle.nr_regions.specs.RegisteredMemory.{bytes_held};
ghost use Rattle.nr_reduce.specs.Plans.{one_if};
ghost use Rattle.nr_reduce.specs.Run.{server};
ghost use Rattle.nr_reduce.specs.ServerState.{receives_in_use};
ghost use Rattle.nr_responder.specs.HeldBytes.{held_unit, sent_reply_max, ListsFit};
ghost use Rattle.nr_responder.specs.ResponderState.{bytes_held_by, end_of, granting, may_write, opened_side, unsent, KeepsStaging};
ghost use Rattle.nr_responder.specs.Rooms.{payload_room};
ghost use Rattle.nr_responder.specs.Sound.{IsNext};
ghost use Rattle.nr_responder.specs.Standing.{CountsCalls, ResponderRepresents};
ghost use Rattle.nr_responder.specs.Steps.{Fed, taken_of};

use crate::call::{CallId, Sent};
use crate::server_end::ServerEnd;
use nr_endpoint::DrainFault;
use nr_link::{End, SideTerms};
use nr_outside::Sink;
use nr_xdr::Memory;
use std::alloc::Global;
use std::marker::Model;

/// The server end of a link.
#[derive(Drop)]
pub struct Responder {
    end: ServerEnd,
}

impl Model for Responder {
    ghost use Rattle.nr_responder.specs.ResponderState.{ResponderState};
    ghost use Rattle.nr_responder.specs.Codes.{responder_code};

    ghost Value = { ResponderState };

    ghost coded = { responder_code };

    ghost use Rattle.nr_responder.specs.Sound.{rooms_of, state_of, with_staging, ServerEndInvariant, WindowsInvariant};
    ghost use Rattle.nr_responder.specs.Standing.{RepresentsSome};
    ghost use Rattle.nr_responder.specs.HeldBytes.{IsBounded};

    ghost view = { λ r. record { side = state_of r.end; staging = r.end.endpoint.staging; rooms = rooms_of r.end.calls.items r.end.ready.items r.end.endpoint.outside } };

    // It stands for some marks, and what it keeps is within bounds. Of a call of which nothing is left to be read no bytes are outside of a
    // region.
    ghost invariant = { λ r. (ServerEndInvariant r.end × WindowsInvariant r.end) × (RepresentsSome (state_of r.end) × IsBounded (with_staging r.end)) };
}

impl Responder {
    /// The server end of a link that grants this many credits, with one unit: [`Responder::open_sized`].
    pub fn open(alloc: Global, credits: u32) -> Result<Responder, Memory>
        ensures state { IfOk result (λ r. r.side ≡ opened_side credits credits default_terms) }
        ensures live { IfOk result (λ r. end_of r.side ≡ None) }
        ensures fed { IfOk result (λ r. fed_bytes r.side.link ≡ 0) }
        ensures staging { IfOk result (λ r. length r.staging ≡ FPDU_MAX) }
        ensures stands { IfOk result (λ r. (opened : LinkParameters) (link : ℕ) → ServerOpened opened credits credits default_terms → ResponderRepresents opened link [] r.side) }
    {
        Responder::open_sized(alloc, credits, credits, 1, false)
    }

    /// The server end of a link that grants this many credits, until others are set, and at most `low` in a message that is due
    /// while more than half of its receives are in use, as it is before the frame or the answer for which the message is due
    /// (RFC 8166 section 3.3). It writes and takes Sends of at most this many units of 1,024 bytes, from 1 to 16 (0 counts as 1,
    /// and more than 16 as 16): if the client's hello says its terms, so does its own, and the lesser of both is agreed for each
    /// direction ([`Responder::agreed`]). Takes the staging buffer, a receive of these units for each credit, and room for a call
    /// of each; not its hello, whose room is taken when the client's is accepted. `Err`: memory ran out, and nothing was made.
    ///
    /// If `invalidates`, its hello says that it makes Sends with Invalidate (RFC 5040 section 4.7). If the client's says that it takes them,
    /// each reply to a call that offers memory is one: it names the first STag of the call's read list, else of its write list, else of its
    /// reply chunk ([`Responder::invalidates`]).
    pub fn open_sized(
        alloc: Global,
        credits: u32,
        low: u32,
        units: u8,
        invalidates: bool,
    ) -> Result<Responder, Memory>
        ensures state { IfOk result (λ r. r.side ≡ opened_side credits low (terms_with units invalidates)) }
        ensures live { IfOk result (λ r. end_of r.side ≡ None) }
        ensures fed { IfOk result (λ r. fed_bytes r.side.link ≡ 0) }
        ensures staging { IfOk result (λ r. length r.staging ≡ FPDU_MAX) }
        ensures stands { IfOk result (λ r. (opened : LinkParameters) (link : ℕ) → ServerOpened opened credits low (terms_with units invalidates) → ResponderRepresents opened link [] r.side) }
    {
        let terms = SideTerms {
            units,
            number: 0,
            invalidates,
        };
        Ok(Responder {
            end: ServerEnd::open(alloc, credits, low, terms)?,
        })
    }

    /// The maximum length of a Send in bytes: from the client, and from this side. The hellos of both sides agree on it; until the client's was
    /// accepted, and if it says no terms, it is 1,024 in both directions. Takes no memory.
    pub fn agreed(&self) -> (u32, u32)
        ensures up { result.0 ≡ self.now.side.link.state.agreed.up }
        ensures down { result.1 ≡ self.now.side.link.state.agreed.down }
        // From 1,024 to 16,384.
        ensures limits { IsSendLimit result.0 × IsSendLimit result.1 }
        // Once the side has ended, it is what was agreed as it ended.
        ensures of_run { end_of self.now.side ≢ Some ends.Memory → (opened : LinkParameters) (link : ℕ) (run : List Mark) → ResponderRepresents opened link run self.now.side →
            (result.0 ≡ (server opened link run).state.up_max) × (result.1 ≡ (server opened link run).state.down_max) }
    {
        self.end.agreed()
    }

    /// Whether a reply may be a Send with Invalidate (RFC 5040 section 4.7), as the hellos of both sides agree. Takes no memory.
    pub fn invalidates(&self) -> bool
        ensures exact { result ≡ self.now.side.link.state.agreed.invalidates }
        // Once the side has ended, it is what was agreed as it ended.
        ensures of_run { end_of self.now.side ≢ Some ends.Memory → (opened : LinkParameters) (link : ℕ) (run : List Mark) → ResponderRepresents opened link run self.now.side →
            result ≡ (server opened link run).state.invalidates }
    {
        self.end.invalidates()
    }

    /// Takes a piece of the client's stream. `Err` if and only if the side has ended, with why; a side that has ended takes no more.
    /// `End::Memory`: memory ran out at a frame, which the piece completed, for output of the server's own (its hello, an error message, a Read
    /// Request, what it writes last), or at the Send of a call of which something is to be read; its calls and its queue are as before that
    /// frame, and what was queued until then is still written.
    pub fn feed(&mut self, piece: &[u8]) -> Result<(), End>
        requires { fed_bytes self.old.side.link + length piece.now ≤ 2 ^ 62 }
        ensures ended { result_err result ≡ end_of self.new.side }
        ensures goes { Fed self.old.side piece.now self.new.side }
        ensures stands { (opened : LinkParameters) (link : ℕ) (run : List Mark) → ResponderRepresents opened link run self.old.side →
            ResponderRepresents opened link (run ++ marks.Fed link ResponderSide piece.now ∷ []) self.new.side }
        ensures kept { is_some (end_of self.old.side) ≡ true → self.new ≡ self.old }
        ensures within { fed_bytes self.new.side.link ≤ fed_bytes self.old.side.link + length piece.now }
        ensures staging { KeepsStaging self.old self.new piece.now }
    {
        self.end.feed(piece)
    }

    /// Takes a piece up to the end of the frame that it completes, or all of it. `Ok` has the number of bytes taken. `Err` as [`Responder::feed`].
    pub fn feed_one(&mut self, piece: &[u8]) -> Result<usize, End>
        requires { fed_bytes self.old.side.link + length piece.now ≤ 2 ^ 62 }
        ensures ended { result_err result ≡ end_of self.new.side }
        ensures taken { IfOk result (λ n. n ≡ bytes_taken self.old.side.link.awaited self.old.side.link.rest piece.now) }
        ensures goes { Fed self.old.side (taken_of result piece.now) self.new.side }
        // If the side ends, it does so in the first frame.
        ensures first { Fed self.old.side (take (bytes_taken self.old.side.link.awaited self.old.side.link.rest piece.now) piece.now) self.new.side }
        ensures stands { (opened : LinkParameters) (link : ℕ) (run : List Mark) → ResponderRepresents opened link run self.old.side →
            ResponderRepresents opened link (run ++ marks.Fed link ResponderSide (taken_of result piece.now) ∷ []) self.new.side }
        ensures kept { is_some (end_of self.old.side) ≡ true → self.new ≡ self.old }
        ensures within { fed_bytes self.new.side.link ≤ fed_bytes self.old.side.link + length piece.now }
        ensures staging { KeepsStaging self.old self.new piece.now }
    {
        self.end.feed_one(piece)
    }

    /// Why the side takes no more input, once it has ended. Takes no memory.
    pub fn end(&self) -> Option<End>
        ensures { result ≡ end_of self.now.side }
    {
        self.end.endpoint.end()
    }

    /// The first call that is ready and isn't executed; `None` if and only if none is, or the side has ended. Takes no memory.
    pub fn next_ready(&self) -> Option<CallId>
        ensures next { IfSome result (λ xid. IsNext self.now.side xid) }
        ensures live { is_some result ≡ true → end_of self.now.side ≡ None }
        ensures none { result ≡ None → (is_some (end_of self.now.side) ≡ true) ⊎ (self.now.side.ready ≡ []) }
        // It is the next call of the server of a run, unless memory ran out: then nothing more is executed.
        ensures exact { end_of self.now.side ≢ Some ends.Memory → (opened : LinkParameters) (link : ℕ) (run : List Mark) → ResponderRepresents opened link run self.now.side →
            MatchOption result (next_call opened link run ≡ None) (λ xid. IfSome (next_call opened link run) (λ r. xid ≡ r.xid) × (is_some (next_call opened link run) ≡ true)) }
    {
        match self.end.next_ready() {
            Some(xid) => Some(CallId::new(xid)),
            None => None,
        }
    }

    /// The payload of the next call, as its Send conveyed it. Takes no memory.
    pub fn payload(&self, call: &CallId) -> &[u8]
        requires live { end_of self.now.side ≡ None }
        requires next { IsNext self.now.side call.now }
        ensures exact { (opened : LinkParameters) (link : ℕ) (run : List Mark) → ResponderRepresents opened link run self.now.side → IsExecuted opened link run call.now result.now }
    {
        self.end.payload(call.xid())
    }

    /// Queues the answer to the next call: RDMA Writes into what it offered and one Send, or ERR_CHUNK if its offer doesn't hold the reply
    /// (RFC 8166 sections 3.4.6, 3.5). The reply has at most 1056768 bytes. An `Err` changes nothing and gives the call back: memory ran out.
    pub fn answer(&mut self, call: CallId, reply: &[u8]) -> Result<Sent, (CallId, Memory)>
        requires live { end_of self.old.side ≡ None }
        requires next { IsNext self.old.side call }
        requires short { length reply.now ≤ sent_reply_max }
        ensures answers { IfOk result (λ sent. Answers self.old.side self.new.side call reply.now sent) }
        ensures stands { OnOk result ((opened : LinkParameters) (link : ℕ) (run : List Mark) (moment : Moment) (payload : List ℕ) (place : ℕ) → ResponderRepresents opened link run self.old.side →
            IsExecuted opened link run call payload → ResponderRepresents opened link (run ++ marks.Execute link call moment payload place reply.now ∷ []) self.new.side) }
        ensures err { OnErr result (self.new ≡ self.old) }
        ensures fed { fed_bytes self.new.side.link ≡ fed_bytes self.old.side.link }
        ensures staging { self.new.staging ≡ self.old.staging }
        ensures returned { IfErr result (λ e. e.0 ≡ call) }
    {
        match self.end.answer(call.xid(), reply) {
            Ok(sent) => Ok(sent),
            Err(memory) => Err((call, memory)),
        }
    }

    /// Hands the output to a sink, in order: for `Ok` all that may be written, else some of it from the front, and the rest stays. The receive
    /// of each message whose answer has left is posted again. `Err`: the sink failed. Takes no memory.
    pub fn drain_into<K: Sink>(&mut self, sink: &mut K) -> Result<(), DrainFault>
        ensures taken { (n : ℕ) × (Drains self.old.side self.new.side (K.taken sink.old) (K.taken sink.new) n × OnOk result (n ≡ length (may_write self.old.side))) }
        ensures counted { MatchResult result
            (λ _. K.faults sink.new ≡ K.faults sink.old) (λ e. (e ≡ drains.LinkWrite) × Rises (K.faults sink.old) (K.faults sink.new)) }
        ensures never_falls { K.faults sink.old ≤ K.faults sink.new }
        ensures fed { fed_bytes self.new.side.link ≡ fed_bytes self.old.side.link }
        ensures staging { self.new.staging ≡ self.old.staging }
    {
        self.end.drain_into(sink)
    }

    /// How many bytes are kept: the staging buffer, the receives, the regions, the output, the buffers of payloads that are read or were, with the
    /// bytes of buffers outside their regions, and the lists: of calls, of Sends that haven't left, of Read Requests and of sinks, each item by the size of
    /// its type. At most 5,242,880 for each credit, and four times that. Takes no memory.
    pub fn held(&self) -> u128
        ensures is { result ≡ bytes_held_by self.now }
        ensures bound { result ≤ held_unit * (self.now.side.credits.receives + 4) }
        // The rooms of payloads: at most two for each call that isn't answered.
        ensures rooms { self.now.rooms ≤ payload_room * (2 * length self.now.side.calls) }
        // The regions: the payload of each of these calls, and for each Read Request that may be open.
        ensures regions { bytes_held self.now.side.link.state.memory ≤ PAYLOAD_MAX * (length self.now.side.calls + open_reads_max) }
        // The lists have a maximum number of items.
        ensures lists { ListsFit self.now.side }
    {
        self.end.held()
    }

    /// The credits that it was opened with: it has a receive for each. Takes no memory.
    pub fn opened(&self) -> u32
        ensures exact { result ≡ self.now.side.credits.receives }
        ensures of_run { (opened : LinkParameters) (link : ℕ) (run : List Mark) → ResponderRepresents opened link run self.now.side → result ≡ opened.receives }
    {
        self.end.opened()
    }

    /// Grants this many credits, from 1 to those that it was opened with: this is the credit word of every message that is queued from now on,
    /// but that it is at most `low` while more than half of the receives are in use, if it was opened so (RFC 8166 section 3.3). Receives stay
    /// as they are, and nothing changes if the side has ended. Takes no memory.
    pub fn set_credits(&mut self, credits: u32)
        requires some { 1 ≤ credits }
        requires few { credits ≤ self.old.side.credits.receives }
        ensures is { self.new ≡ granting credits self.old }
        ensures end { end_of self.new.side ≡ end_of self.old.side }
        ensures fed { fed_bytes self.new.side.link ≡ fed_bytes self.old.side.link }
        ensures staging { self.new.staging ≡ self.old.staging }
        ensures stands { (opened : LinkParameters) (link : ℕ) (run : List Mark) → ResponderRepresents opened link run self.old.side →
            ResponderRepresents opened link (run ++ marks.Told link (Granted credits) ∷ []) self.new.side }
    {
        self.end.set_credits(credits)
    }

    /// The number of the link's client, by its hello: 0 until that was accepted, and if it says none (the number is own). Takes no memory.
    pub fn client(&self) -> u64
        ensures exact { result ≡ self.now.side.link.state.client }
        ensures of_run { end_of self.now.side ≡ None → (opened : LinkParameters) (link : ℕ) (run : List Mark) → ResponderRepresents opened link run self.now.side → result ≡ number_heard run link }
        // A call is ready only after the client's hello was received.
        ensures heard { end_of self.now.side ≡ None → self.now.side.ready ≢ [] → (opened : LinkParameters) (link : ℕ) (run : List Mark) → ResponderRepresents opened link run self.now.side →
            frames_of Initiator (bytes_received link ResponderSide run) ≢ [] }
    {
        self.end.client()
    }

    /// Ends the side for reason 28: the next call is old, its xid being 64 or more below the largest one of its client's changes. Whether it is so
    /// is for the owner to know. It ends at the last complete frame of the client's stream, and a Terminate with the reason is queued; or
    /// `End::Memory`: memory ran out for that. Answers which. The call is neither executed nor answered.
    pub fn stop(&mut self, reason: u32) -> End
        requires live { end_of self.old.side ≡ None }
        requires next { self.old.side.ready ≢ [] }
        requires reason { reason ≡ REASON_OLD }
        ensures ended { end_of self.new.side ≡ Some result }
        ensures end { result ≢ ends.Memory → result ≡ ends.Bad self.old.side.link.state.last reason }
        ensures last { (opened : LinkParameters) (link : ℕ) (run : List Mark) → ResponderRepresents opened link run self.old.side → self.old.side.link.state.last ≡ last_frame_at link run }
        ensures stands { (opened : LinkParameters) (link : ℕ) (run : List Mark) (xid : ℕ) → ResponderRepresents opened link run self.old.side →
            ResponderRepresents opened link (run ++ marks.Told link (Old xid (last_frame_at link run)) ∷ []) self.new.side }
        ensures within { fed_bytes self.new.side.link ≤ fed_bytes self.old.side.link }
        ensures staging { self.new.staging ≡ self.old.staging }
    {
        self.end.stop(reason)
    }

    /// How many calls are pending: their Send is complete, and they aren't answered. Once the side has ended, how many were so as it ended.
    /// Takes no memory.
    pub fn unanswered(&self) -> usize
        ensures exact { result ≡ length self.now.side.calls }
        ensures of_run { end_of self.now.side ≢ Some ends.Memory → CountsCalls self.now.side result }
    {
        self.end.unanswered()
    }

    /// How many receives are in use: one for each Send that is begun, until its answer has completely left. Takes no memory.
    pub fn in_use(&self) -> usize
        ensures exact { result ≡ length self.now.side.calls + (unsent self.now.side.link.state + one_if (is_begun self.now.side.link.state.receive_queue.received.begun)) }
        ensures of_run { end_of self.now.side ≡ None → (opened : LinkParameters) (link : ℕ) (run : List Mark) → ResponderRepresents opened link run self.now.side → result ≡ receives_in_use (server opened link run).state }
    {
        self.end.in_use()
    }

    /// How many bytes the frame that is begun still needs, as far as its length fields are there; if none is begun, those up to the end of
    /// the next one's length fields. At least 1. Takes no memory.
    pub fn wants(&self) -> usize
        ensures exact { result ≡ bytes_needed self.now.side.link.awaited self.now.side.link.rest }
        ensures some { 0 < result }
    {
        self.end.endpoint.wants()
    }

    /// Whether a frame is begun and not complete. Takes no memory.
    pub fn begun(&self) -> bool
        ensures { result ≡ nat_lt 0 (length self.now.side.link.rest) }
    {
        self.end.endpoint.begun()
    }

    /// The staging buffer, of which the first bytes are those of the frame that isn't complete. Takes no memory.
    pub fn staging(&self) -> &[u8]
        ensures bytes { result.now ≡ self.now.staging }
        ensures begins { take (length self.now.side.link.rest) result.now ≡ self.now.side.link.rest }
    {
        self.end.endpoint.staging()
    }

    /// How many bytes of the frame that isn't complete are staged; 0 once the side has ended. Takes no memory.
    pub fn staged(&self) -> usize
        ensures rest { result ≡ length self.now.side.link.rest }
        ensures ended { is_some (end_of self.now.side) ≡ true → result ≡ 0 }
    {
        self.end.endpoint.staged()
    }
}
