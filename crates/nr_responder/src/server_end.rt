//! What a responder keeps: its endpoint, the calls that it has not answered, and the receives of answers that haven't left.

ghost use Rattle.std.specs.Prelude.{◌≡◌, ◌≢◌, ℕ, ◌+◌, ◌-◌, ◌<◌, ◌≤◌, ◌^◌, List, [], ◌∷◌, ◌++◌, length, take, drop, get_or, slice_get, Option, None, Some, IfOk, OnOk, OnErr, IfSome, IsOk, is_some, All, MatchOption, MatchResult, true, false, if◌then◌else◌, ◌⊎◌};
ghost use Rattle.std.specs.VecDeque.{deque_capacity};
ghost use Rattle.nr_outside.specs.Faults.{Rises};
ghost use Rattle.nr_endpoint.specs.declared.fault.DrainFault.TheVariants as drains;
ghost use Rattle.nr_wire.specs.Constants.{FPDU_MAX};
ghost use Rattle.nr_wire.specs.Feeding.{bytes_taken};
ghost use Rattle.nr_link.specs.Agreement.{IsSendLimit};
ghost use Rattle.nr_rpc.specs.Reading.{call_of, target_of, xid_of_call};
ghost use Rattle.nr_header.specs.Constants.{FIXED_LEN};
ghost use Rattle.nr_endpoint.specs.FedBytes.{fed_bytes};
ghost use Rattle.nr_endpoint.specs.Receives.{IsReceive};
ghost use Rattle.nr_endpoint.specs.Calls.{after_call, IsStopReason};
ghost use Rattle.nr_endpoint.specs.Calls.Call.{Stop, Send, OutOfMemory};
ghost use Rattle.std.specs.Result.{result_err};
ghost use Rattle.nr_wire.specs.declared.hello.Side.TheVariants.{Responder as ResponderSide};
ghost use Rattle.nr_link.specs.declared.end.End.TheVariants as ends;
ghost use Rattle.nr_reduce.specs.Opening.{ServerOpened};
ghost use Rattle.nr_reduce.specs.declared.mark.LinkParameters.{LinkParameters};
ghost use Rattle.nr_reduce.specs.declared.mark.Mark.{Mark};
ghost use Rattle.nr_reduce.specs.declared.mark.Mark.TheVariants as marks;
ghost use Rattle.nr_outside.specs.declared.moment.Moment.{Moment};
ghost use Rattle.nr_reduce.specs.Served.{next_call, IsExecuted};
ghost use Rattle.nr_responder.specs.Answering.{Answers};
ghost use Rattle.nr_responder.specs.Draining.{Drains};
ghost use Rattle.nr_responder.specs.private.Handling.{out, IsTaken, ReadsXid};
ghost use Rattle.nr_responder.specs.Heard.{SameHeard};
ghost use Rattle.nr_responder.specs.ResponderState.{end_of, opened_side, posted_times, present_word, may_write, KeepsStaging};
ghost use Rattle.nr_responder.specs.Sound.{state_of, with_staging, payloads_of, IsNext, ServerEndInvariant, WindowsAreRead, WindowsInvariant};
ghost use Rattle.nr_responder.specs.HeldBytes.{KeptFits, sent_reply_max};
ghost use Rattle.nr_responder.specs.Standing.{RepresentsSome, ResponderRepresents, StaysBounded};
ghost use Rattle.nr_responder.specs.Steps.{Fed, taken_of};

use crate::answering::{SENDABLE, queue_answer};
use crate::call::{OpenSink, Pending, ReadEntry, Ready, Sent, place_of, stream_of, take_receive};
use crate::granting::Credits;
use crate::payloads::{first_payload, ready_payload};
use nr_endpoint::{DrainFault, Endpoint, Event};
use nr_link::constants::{REASON_HEAD, REASON_XID};
use nr_link::{End, SideTerms};
use nr_outside::Sink;
use nr_rpc::{CallTarget, call_xid};
use nr_wire::Side;
use nr_xdr::{Memory, Octets, word_at};
use std::alloc::Global;
use std::collections::VecDeque;

/// The server end of a link. A pending call keeps the receive buffer of its message; `used` has those of messages that were answered or
/// refused, whose answer hasn't left the queue. `reads` are the Read Requests that are open and those that wait, the oldest first, and `sinks` the
/// regions into which calls are read.
#[derive(Drop)]
pub struct ServerEnd {
    pub(crate) endpoint: Endpoint,
    pub(crate) calls: Vec<Pending>,
    pub(crate) ready: VecDeque<Ready>,
    pub(crate) reads: Vec<ReadEntry>,
    pub(crate) sinks: Vec<OpenSink>,
    pub(crate) used: VecDeque<Octets>,
    pub(crate) credits: Credits,
    pub(crate) alloc: Global,
}

/// The xid of the call head with which a stream begins, if it does. What such a head of RPC version 2 asks for was read.
pub(crate) fn stream_xid(stream: &[u8], target: Option<CallTarget>) -> Option<u32>
    requires { target ≡ target_of (call_of stream.now) }
    ensures { result ≡ xid_of_call (call_of stream.now) }
{
    match target {
        Some(target) => Some(target.xid),
        None => call_xid(stream),
    }
}

/// The xid of a call whose stream stands in its message, or the reason for which the link ends.
pub(crate) fn own_xid(
    buf: &Octets,
    len: usize,
    stream_at: usize,
    target: Option<CallTarget>,
) -> Result<u32, u32>
    requires len { (FIXED_LEN ≤ len) × (len ≤ length buf.now) }
    requires stream { stream_at ≤ len }
    requires target { target ≡ target_of (call_of (drop stream_at (take len buf.now))) }
    ensures xid { ReadsXid (take len buf.now) stream_at result }
{
    let xid = word_at(stream_of(buf, len, 0), 0);
    match stream_xid(stream_of(buf, len, stream_at), target) {
        None => Err(REASON_HEAD),
        Some(found) => {
            if found != xid {
                return Err(REASON_XID);
            }
            Ok(xid)
        }
    }
}

/// Ends a side for a reason that a message gives, or because memory ran out for its Terminate.
pub(crate) fn stop(endpoint: &mut Endpoint, reason: u32)
    requires live { endpoint.old.link.state.ended ≡ None }
    requires frame { 0 < endpoint.old.link.state.place }
    requires reason { IsStopReason reason }
    ensures link { (endpoint.new.link ≡ after_call endpoint.old.link (Stop reason)) ⊎ (endpoint.new.link ≡ after_call endpoint.old.link OutOfMemory) }
    ensures staging { endpoint.new.staging ≡ endpoint.old.staging }
    ensures outside { endpoint.new.outside ≡ endpoint.old.outside }
{
    match endpoint.stop(reason) {
        End::Memory => (),
        _ => (),
    }
}

/// Queues an error message, and answers whether memory sufficed. If it didn't, the side ends.
pub(crate) fn send_error(endpoint: &mut Endpoint, made: Result<Octets, Memory>) -> bool
    requires live { endpoint.old.link.state.ended ≡ None }
    ensures sent { result ≡ true → IfOk made (λ m. endpoint.new.link ≡ after_call endpoint.old.link (Send m)) × IsOk made }
    ensures out { result ≡ false → endpoint.new.link ≡ after_call endpoint.old.link OutOfMemory }
    ensures staging { endpoint.new.staging ≡ endpoint.old.staging }
    ensures outside { endpoint.new.outside ≡ endpoint.old.outside }
{
    if let Ok(message) = made {
        if message.len() <= SENDABLE && endpoint.send(message.as_slice()).is_ok() {
            return true;
        }
    }
    let _ = endpoint.run_out();
    false
}

/// Posts the last of these receives again until only `left` are left.
fn post_until(endpoint: &mut Endpoint, used: &mut VecDeque<Octets>, left: usize)
    requires left { left ≤ length used.old.items }
    requires lent { length used.old.items ≤ endpoint.old.link.state.receive_queue.lent + left }
    requires bufs { All (IsReceive endpoint.old.link.state.receive_queue.receive_length) used.old.items }
    ensures posted { endpoint.new.link ≡ posted_times (length used.old.items - left) endpoint.old.link }
    ensures left { length used.new.items ≡ left }
    ensures bufs { All (IsReceive endpoint.old.link.state.receive_queue.receive_length) used.new.items }
    ensures room { deque_capacity used.new ≡ deque_capacity used.old }
    ensures staging { endpoint.new.staging ≡ endpoint.old.staging }
    ensures outside { endpoint.new.outside ≡ endpoint.old.outside }
{
    let count = used.len() - left;
    'posts: for i in 0..count {
        match used.pop_front() {
            Some(buf) => endpoint.post(buf),
            None => unreachable!(),
        }
    }
}

/// How many bytes of a piece are taken: all of them if the side has ended.
fn taken_at(end: Option<End>, all: usize, part: usize) -> usize
    ensures { result ≡ (if is_some end then all else part) }
{
    match end {
        Some(_) => all,
        None => part,
    }
}

impl ServerEnd {
    /// The server end of a link that grants this number of credits, at most `low` while more than half of its receives are in use, with these terms.
    pub fn open(
        alloc: Global,
        credits: u32,
        low: u32,
        terms: SideTerms,
    ) -> Result<ServerEnd, Memory>
        ensures sound { IfOk result ServerEndInvariant }
        ensures windows { IfOk result WindowsInvariant }
        ensures state { IfOk result (λ r. state_of r ≡ opened_side credits low terms) }
        ensures live { IfOk result (λ r. end_of (state_of r) ≡ None) }
        ensures fed { IfOk result (λ r. fed_bytes r.endpoint.link ≡ 0) }
        ensures staging { IfOk result (λ r. length r.endpoint.staging ≡ FPDU_MAX) }
        ensures stands { IfOk result (λ r. (opened : LinkParameters) (link : ℕ) → ServerOpened opened credits low terms → ResponderRepresents opened link [] (state_of r)) }
        ensures bounded { IfOk result (λ r. KeptFits (state_of r)) }
    {
        let ready = VecDeque::with_capacity(alloc, credits as usize)?;
        let used = VecDeque::with_capacity(alloc, credits as usize)?;
        let calls = Vec::with_capacity(alloc, credits as usize)?;
        let endpoint = Endpoint::open(alloc, Side::Responder, credits, 1, terms)?;
        Ok(ServerEnd {
            endpoint,
            calls,
            ready,
            reads: Vec::new(alloc),
            sinks: Vec::new(alloc),
            used,
            credits: Credits::opened(credits, low),
            alloc,
        })
    }

    /// Takes a piece of the client's stream. Once the side has ended it takes no more.
    pub fn feed(&mut self, piece: &[u8]) -> Result<(), End>
        requires sound { ServerEndInvariant self.old }
        requires windows { WindowsInvariant self.old }
        requires within { fed_bytes self.old.endpoint.link + length piece.now ≤ 2 ^ 62 }
        ensures ended { result_err result ≡ end_of (state_of self.new) }
        ensures goes { Fed (state_of self.old) piece.now (state_of self.new) }
        ensures stands { (opened : LinkParameters) (link : ℕ) (run : List Mark) → ResponderRepresents opened link run (state_of self.old) →
            ResponderRepresents opened link (run ++ marks.Fed link ResponderSide piece.now ∷ []) (state_of self.new) }
        ensures kept { is_some (end_of (state_of self.old)) ≡ true → with_staging self.new ≡ with_staging self.old }
        ensures within { fed_bytes self.new.endpoint.link ≤ fed_bytes self.old.endpoint.link + length piece.now }
        ensures staging { (opened : LinkParameters) (link : ℕ) (run : List Mark) → ResponderRepresents opened link run (state_of self.old) → KeepsStaging (with_staging self.old) (with_staging self.new) piece.now }
        ensures windows { WindowsInvariant self.new }
        ensures sound { ServerEndInvariant self.new }
        ensures bounded { (opened : LinkParameters) (link : ℕ) (run : List Mark) → ResponderRepresents opened link run (state_of self.old) → KeptFits (state_of self.old) → KeptFits (state_of self.new) }
    {
        if let Some(end) = self.endpoint.end() {
            return Err(end);
        }
        self.endpoint.facts();
        let mut at = 0;
        'pieces: while at < piece.len() {
            at += self.step(&piece[at..]);
        }
        if let Some(end) = self.endpoint.end() {
            return Err(end);
        }
        Ok(())
    }

    /// Takes a piece up to the end of the frame that it completes, or all of it. Once the side has ended it takes no more.
    pub fn feed_one(&mut self, piece: &[u8]) -> Result<usize, End>
        requires sound { ServerEndInvariant self.old }
        requires windows { WindowsInvariant self.old }
        requires within { fed_bytes self.old.endpoint.link + length piece.now ≤ 2 ^ 62 }
        ensures ended { result_err result ≡ end_of (state_of self.new) }
        ensures taken { IfOk result (λ n. n ≡ bytes_taken self.old.endpoint.link.awaited self.old.endpoint.link.rest piece.now) }
        ensures goes { Fed (state_of self.old) (taken_of result piece.now) (state_of self.new) }
        // If the side ends, it does so in the first frame.
        ensures first { Fed (state_of self.old) (take (bytes_taken self.old.endpoint.link.awaited self.old.endpoint.link.rest piece.now) piece.now) (state_of self.new) }
        ensures stands { (opened : LinkParameters) (link : ℕ) (run : List Mark) → ResponderRepresents opened link run (state_of self.old) →
            ResponderRepresents opened link (run ++ marks.Fed link ResponderSide (taken_of result piece.now) ∷ []) (state_of self.new) }
        ensures kept { is_some (end_of (state_of self.old)) ≡ true → with_staging self.new ≡ with_staging self.old }
        ensures within { fed_bytes self.new.endpoint.link ≤ fed_bytes self.old.endpoint.link + length piece.now }
        ensures staging { (opened : LinkParameters) (link : ℕ) (run : List Mark) → ResponderRepresents opened link run (state_of self.old) → KeepsStaging (with_staging self.old) (with_staging self.new) piece.now }
        ensures windows { WindowsInvariant self.new }
        ensures sound { ServerEndInvariant self.new }
        ensures bounded { (opened : LinkParameters) (link : ℕ) (run : List Mark) → ResponderRepresents opened link run (state_of self.old) → KeptFits (state_of self.old) → KeptFits (state_of self.new) }
    {
        if let Some(end) = self.endpoint.end() {
            return Err(end);
        }
        let taken = self.step(piece);
        if let Some(end) = self.endpoint.end() {
            return Err(end);
        }
        Ok(taken)
    }

    /// The first call that is ready and isn't executed, unless the side has ended.
    pub fn next_ready(&self) -> Option<u32>
        ensures next { IfSome result (IsNext (state_of self.now)) }
        ensures live { is_some result ≡ true → end_of (state_of self.now) ≡ None }
        ensures none { result ≡ None → (is_some (end_of (state_of self.now)) ≡ true) ⊎ ((state_of self.now).ready ≡ []) }
        ensures exact { end_of (state_of self.now) ≢ Some ends.Memory → (opened : LinkParameters) (link : ℕ) (run : List Mark) → ResponderRepresents opened link run (state_of self.now) →
            MatchOption result (next_call opened link run ≡ None) (λ xid. IfSome (next_call opened link run) (λ r. xid ≡ r.xid) × (is_some (next_call opened link run) ≡ true)) }
    {
        if self.endpoint.end().is_some() {
            return None;
        }
        match self.ready.front() {
            Some(first) => Some(first.xid),
            None => None,
        }
    }

    /// The payload of the next call.
    pub fn payload(&self, xid: u32) -> &[u8]
        requires sound { ServerEndInvariant self.now }
        requires live { end_of (state_of self.now) ≡ None }
        requires next { IsNext (state_of self.now) xid }
        ensures exact { (opened : LinkParameters) (link : ℕ) (run : List Mark) → ResponderRepresents opened link run (state_of self.now) → IsExecuted opened link run xid result.now }
    {
        match first_payload(&self.ready) {
            Some(payload) => payload.as_slice(),
            None => self.inline_payload(xid),
        }
    }

    /// The payload of the next call, if that is the stream of its Send.
    fn inline_payload(&self, xid: u32) -> &[u8]
        requires sound { ServerEndInvariant self.now }
        requires live { end_of (state_of self.now) ≡ None }
        requires next { IsNext (state_of self.now) xid }
        requires inline { slice_get (payloads_of self.now.ready.items) 0 ≡ Some None }
        ensures exact { (opened : LinkParameters) (link : ℕ) (run : List Mark) → ResponderRepresents opened link run (state_of self.now) → IsExecuted opened link run xid result.now }
    {
        match place_of(self.calls.as_slice(), xid) {
            Some(at) => {
                let pending = &self.calls[at];
                stream_of(&pending.buf, pending.len, pending.stream_at)
            }
            None => &[],
        }
    }

    /// Takes a piece up to the end of the frame that it completes, and all of it if the side ends; answers the bytes taken. The
    /// messages that are due for that frame have the present credit word.
    fn step(&mut self, piece: &[u8]) -> usize
        requires sound { ServerEndInvariant self.old }
        requires windows { WindowsInvariant self.old }
        requires live { self.old.endpoint.link.state.ended ≡ None }
        requires within { fed_bytes self.old.endpoint.link + length piece.now ≤ 2 ^ 62 }
        ensures taken { result ≡ (if is_some self.new.endpoint.link.state.ended then length piece.now else bytes_taken self.old.endpoint.link.awaited self.old.endpoint.link.rest piece.now) }
        ensures most { result ≤ length piece.now }
        ensures some { 0 < length piece.now → 0 < result }
        ensures goes { Fed (state_of self.old) (take result piece.now) (state_of self.new) }
        ensures first { Fed (state_of self.old) (take (bytes_taken self.old.endpoint.link.awaited self.old.endpoint.link.rest piece.now) piece.now) (state_of self.new) }
        ensures staging { self.old.endpoint.link.state.receive_queue.deliveries ≡ [] → KeepsStaging (with_staging self.old) (with_staging self.new) piece.now }
        ensures rest { (self.new.endpoint.link.rest ≡ []) ⊎ (result ≡ length piece.now) }
        ensures windows { WindowsInvariant self.new }
        ensures sound { ServerEndInvariant self.new }
        ensures within { fed_bytes self.new.endpoint.link ≤ fed_bytes self.old.endpoint.link + result }
        ensures bounded { (opened : LinkParameters) (link : ℕ) (run : List Mark) → ResponderRepresents opened link run (state_of self.old) → KeptFits (state_of self.old) → KeptFits (state_of self.new) }
    {
        let word = self.present_word();
        self.credits.word = word;
        self.take_piece(piece)
    }

    /// Takes a piece up to the end of the frame that it completes, and all of it if the side ends; answers the bytes taken. Its
    /// credit word is that of before the frame.
    fn take_piece(&mut self, piece: &[u8]) -> usize
        requires sound { ServerEndInvariant self.old }
        requires windows { WindowsInvariant self.old }
        requires live { self.old.endpoint.link.state.ended ≡ None }
        requires word { self.old.credits.word ≡ present_word (state_of self.old) }
        requires within { fed_bytes self.old.endpoint.link + length piece.now ≤ 2 ^ 62 }
        ensures taken { result ≡ (if is_some self.new.endpoint.link.state.ended then length piece.now else bytes_taken self.old.endpoint.link.awaited self.old.endpoint.link.rest piece.now) }
        ensures most { result ≤ length piece.now }
        ensures some { 0 < length piece.now → 0 < result }
        ensures goes { Fed (state_of self.old) (take result piece.now) (state_of self.new) }
        ensures first { Fed (state_of self.old) (take (bytes_taken self.old.endpoint.link.awaited self.old.endpoint.link.rest piece.now) piece.now) (state_of self.new) }
        ensures staging { self.old.endpoint.link.state.receive_queue.deliveries ≡ [] → KeepsStaging (with_staging self.old) (with_staging self.new) piece.now }
        ensures rest { (self.new.endpoint.link.rest ≡ []) ⊎ (result ≡ length piece.now) }
        ensures windows { WindowsInvariant self.new }
        ensures sound { ServerEndInvariant self.new }
        ensures within { fed_bytes self.new.endpoint.link ≤ fed_bytes self.old.endpoint.link + result }
        ensures bounded { (opened : LinkParameters) (link : ℕ) (run : List Mark) → ResponderRepresents opened link run (state_of self.old) → KeptFits (state_of self.old) → KeptFits (state_of self.new) }
    {
        self.endpoint.facts();
        let all = piece.len();
        match self.endpoint.feed_one(piece) {
            Ok(taken) => {
                self.take_event();
                taken_at(self.endpoint.end(), all, taken)
            }
            Err(end) => {
                let _ = end;
                all
            }
        }
    }

    /// Takes what the link delivered, if anything.
    fn take_event(&mut self)
        requires sound { ServerEndInvariant self.old }
        requires windows { WindowsAreRead self.old.calls.items self.old.reads.items }
        requires live { self.old.endpoint.link.state.ended ≡ None }
        ensures taken { IsTaken (state_of self.old) (state_of self.new) }
        ensures windows { WindowsInvariant self.new }
        ensures sound { ServerEndInvariant self.new }
        ensures fed { fed_bytes self.new.endpoint.link ≤ fed_bytes self.old.endpoint.link }
        ensures rest { (self.new.endpoint.link.rest ≡ self.old.endpoint.link.rest) ⊎ (self.new.endpoint.link.rest ≡ []) }
        ensures heard { SameHeard self.old.endpoint.link self.new.endpoint.link }
        ensures staging { self.new.endpoint.staging ≡ self.old.endpoint.staging }
    {
        match self.endpoint.next_event() {
            None => (),
            Some(
                Event::Message {
                    number,
                    buf,
                    len,
                    ..
                },
            ) => self.message(number, buf, len),
            Some(Event::ReadDone) => self.read_done(),
        }
    }

    /// Queues the answer to the call at this place, which has this xid and is the first that is ready, with the present credit word. An `Err`
    /// changes nothing.
    fn answer_at(&mut self, at: usize, xid: u32, word: u32, reply: &[u8]) -> Result<Sent, Memory>
        requires sound { ServerEndInvariant self.old }
        requires windows { WindowsAreRead self.old.calls.items self.old.reads.items }
        requires none { (d : Pending) → (get_or self.old.calls.items at d).around ≡ 0 }
        requires live { self.old.endpoint.link.state.ended ≡ None }
        requires at { at < length self.old.calls.items }
        requires own { (d : Pending) → (get_or self.old.calls.items at d).xid ≡ xid }
        requires word { word ≡ present_word (state_of self.old) }
        requires next { 0 < length self.old.ready.items }
        requires inline { (d : Pending) → slice_get (payloads_of self.old.ready.items) 0 ≡ Some None → (get_or self.old.calls.items at d).inline ≡ true }
        requires short { length reply.now ≤ sent_reply_max }
        requires limit { IsSendLimit self.old.endpoint.link.state.agreed.down }
        ensures answers { IfOk result (λ sent. Answers (state_of self.old) (state_of self.new) xid reply.now sent) }
        ensures err { OnErr result (with_staging self.new ≡ with_staging self.old) }
        ensures fed { fed_bytes self.new.endpoint.link ≡ fed_bytes self.old.endpoint.link }
        ensures staging { self.new.endpoint.staging ≡ self.old.endpoint.staging }
        ensures windows { WindowsInvariant self.new }
        ensures sound { ServerEndInvariant self.new }
    {
        self.endpoint.facts();
        let (stream, target) = ready_payload(&self.ready, &self.calls[at]);
        let sent = queue_answer(
            &mut self.endpoint,
            self.alloc,
            &self.calls[at],
            stream,
            target,
            word,
            reply,
        )?;
        let buf = take_receive(&mut self.calls, at);
        self.used.push_back_reserved(buf);
        let _ = self.ready.pop_front();
        Ok(sent)
    }

    /// Queues the answer to the call with this xid, which is the first that is ready. An `Err` changes nothing.
    pub fn answer(&mut self, xid: u32, reply: &[u8]) -> Result<Sent, Memory>
        requires sound { ServerEndInvariant self.old }
        requires windows { WindowsInvariant self.old }
        requires live { self.old.endpoint.link.state.ended ≡ None }
        requires next { IsNext (state_of self.old) xid }
        requires stands { RepresentsSome (state_of self.old) }
        requires short { length reply.now ≤ sent_reply_max }
        ensures answers { IfOk result (λ sent. Answers (state_of self.old) (state_of self.new) xid reply.now sent) }
        ensures stands { OnOk result ((opened : LinkParameters) (link : ℕ) (run : List Mark) (moment : Moment) (payload : List ℕ) (place : ℕ) → ResponderRepresents opened link run (state_of self.old) →
            IsExecuted opened link run xid payload → ResponderRepresents opened link (run ++ marks.Execute link xid moment payload place reply.now ∷ []) (state_of self.new)) }
        ensures err { OnErr result (with_staging self.new ≡ with_staging self.old) }
        ensures bounded { StaysBounded (state_of self.old) (state_of self.new) }
        ensures fed { fed_bytes self.new.endpoint.link ≡ fed_bytes self.old.endpoint.link }
        ensures staging { self.new.endpoint.staging ≡ self.old.endpoint.staging }
        ensures windows { WindowsInvariant self.new }
        ensures sound { ServerEndInvariant self.new }
    {
        match place_of(self.calls.as_slice(), xid) {
            Some(at) => {
                let word = self.present_word();
                self.answer_at(at, xid, word, reply)
            }
            // A call that is ready is pending.
            None => unreachable!(),
        }
    }

    /// Hands the output to a sink, in order, and posts the receives of the answers that left.
    pub fn drain_into<K: Sink>(&mut self, sink: &mut K) -> Result<(), DrainFault>
        requires sound { ServerEndInvariant self.old }
        requires windows { WindowsInvariant self.old }
        ensures taken { (n : ℕ) × (Drains (state_of self.old) (state_of self.new) (K.taken sink.old) (K.taken sink.new) n × OnOk result (n ≡ length (may_write (state_of self.old)))) }
        ensures counted { MatchResult result
            (λ _. K.faults sink.new ≡ K.faults sink.old) (λ e. (e ≡ drains.LinkWrite) × Rises (K.faults sink.old) (K.faults sink.new)) }
        ensures never_falls { K.faults sink.old ≤ K.faults sink.new }
        ensures fed { fed_bytes self.new.endpoint.link ≡ fed_bytes self.old.endpoint.link }
        ensures windows { WindowsInvariant self.new }
        ensures sound { ServerEndInvariant self.new }
        ensures bounded { KeptFits (state_of self.old) → KeptFits (state_of self.new) }
        ensures staging { self.new.endpoint.staging ≡ self.old.endpoint.staging }
    {
        let result = self.endpoint.drain_into(sink);
        let left = self.endpoint.sends_waiting();
        post_until(&mut self.endpoint, &mut self.used, left);
        result
    }
}
