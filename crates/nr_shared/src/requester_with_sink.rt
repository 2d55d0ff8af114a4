//! A requester with its sink. Each call of it adds entries to one history.

ghost use Rattle.std.specs.Prelude.{◌≡◌, ◌≢◌, ℕ, ◌+◌, ◌<◌, ◌≤◌, length, take, None, Some, true, is_some, [], ◌∷◌, ◌++◌, List, IfOk, IfErr, IfSome, OnErr, OnOk, MatchResult};
ghost use Rattle.std.specs.Io.KnownBytes.{Appends};
ghost use Rattle.nr_outside.specs.Faults.{Rises};
ghost use Rattle.nr_wire.specs.declared.hello.Side.TheVariants.{Initiator};
ghost use Rattle.nr_endpoint.specs.declared.fault.DrainFault.TheVariants as drains;
ghost use Rattle.nr_reduce.specs.declared.mark.Mark.TheVariants as marks;
ghost use Rattle.nr_requester.specs.AfterCalls.{after_drain};
ghost use Rattle.nr_requester.specs.Fed.{fed_bytes};
ghost use Rattle.nr_requester.specs.ReopenedLinks.{KeepsOn, StopsOn};
ghost use Rattle.nr_requester.specs.RequesterState.{queue_of};
ghost use Rattle.nr_rpc.specs.Credential.{CanWriteCred};
ghost use Rattle.nr_reduce.specs.declared.call.Submission.TheVariants as submissions;
ghost use Rattle.nr_reduce.specs.declared.call.Refused.TheVariants as refusals;
ghost use Rattle.nr_reduce.specs.declared.call.Call.{Call};
ghost use Rattle.nr_requester.specs.Answers.{answer_of};
ghost use Rattle.nr_requester.specs.MaySubmit.{may_submit};
ghost use Rattle.nr_requester.specs.OpenCalls.{KeepsTickets, found_answer};

use crate::call_end::CallEnd;
use crate::call_rule::CallRule;
use crate::caller_turns::Need;
use crate::entry::{Entry, Stop};
use nr_endpoint::DrainFault;
use nr_link::End;
use nr_links::{LinkNumber, LinkSink, NumberedSink, READ_MAX};
use nr_reduce::{Call, Form, Refused};
use nr_requester::{Buffers, Done, Requester, Take, Ticket};
use nr_turnstile::{Machine, Pass, Turn};
use std::marker::{Brand, PhantomData};

/// What a drain did.
#[derive(Clone, Copy)]
pub enum Drained {
    /// Nothing.
    Nothing,
    /// The sink took all that was pending.
    Wrote,
    /// The sink took the first bytes of it, and a write failed.
    WriteFailed,
}

/// Hands the output of a requester to the sink of a link. The type of the sink has the number of its link meanwhile, so the sink that comes back is
/// of that link.
fn drain_numbered<N: LinkNumber, O: LinkSink>(
    requester: &mut Requester,
    sink: O,
) -> (O, Result<(), DrainFault>)
    requires { O.link sink ≡ N.number }
    ensures link { O.link result.0 ≡ O.link sink }
    ensures taken { (n : ℕ) × (n ≤ length (queue_of requester.old.state))
        × Appends (O.taken sink) (O.taken result.0) (take n (queue_of requester.old.state))
        × (requester.new ≡ after_drain n requester.old)
        × KeepsOn requester.old (λ link. marks.Wrote link Initiator (take n (queue_of requester.old.state))) requester.new
        × StopsOn requester.old (λ link. marks.Wrote link Initiator (take n (queue_of requester.old.state))) requester.new
        × OnOk result.1 (n ≡ length (queue_of requester.old.state)) }
    ensures tickets { KeepsTickets requester.old.state requester.new.state }
    ensures fed { fed_bytes requester.new ≡ fed_bytes requester.old }
    ensures counted { MatchResult result.1 (λ _. O.faults result.0 ≡ O.faults sink) (λ e. (e ≡ drains.LinkWrite) × Rises (O.faults sink) (O.faults result.0)) }
    ensures never_falls { O.faults sink ≤ O.faults result.0 }
{
    let mut numbered = NumberedSink::<O, N>::new(sink);
    let drained = requester.drain_into(&mut numbered);
    (numbered.into_inner(), drained)
}

/// A requester with its sink.
#[derive(Drop)]
pub struct RequesterWithSink<O, C> {
    pub(crate) requester: Requester,
    // There is none once a dial failed.
    pub(crate) sink: Option<O>,
    // How often a lost link may be dialled again: never, if that isn't told; and how often one was.
    pub(crate) tries: Option<u32>,
    pub(crate) rejoined: u32,
    // The length of the history.
    pub(crate) entries: u64,
    // Whether output may be pending.
    pub(crate) pending: bool,
    // Whether a write failed.
    pub(crate) write_failed: bool,
    // Why no more is fed.
    pub(crate) stopped: Option<Stop>,
    pub(crate) rule: PhantomData<C>,
}

/// A turn of a caller, and what it takes turns with.
pub(crate) type MainTurn<'a, O, C> = Turn<'a, RequesterWithSink<O, C>>;

pub(crate) type MainPass<O, C> = Pass<RequesterWithSink<O, C>>;

impl<O: LinkSink, C: CallRule> Machine for RequesterWithSink<O, C> {
    ghost use Rattle.nr_shared.specs.Standing.{Stands};
    ghost use Rattle.nr_shared.specs.Histories.{closes_of};

    type Entry = Entry;

    ghost stands = { Stands O.link O.taken O.faults C.allows };

    ghost closes = { closes_of };

    fn entries(&self) -> u64 {
        self.entries
    }
}

impl<O: LinkSink + Drop, C: CallRule> RequesterWithSink<O, C> {
    ghost use Rattle.nr_shared.specs.declared.entry.Entry.{Entry};
    ghost use Rattle.nr_shared.specs.declared.entry.Entry.TheVariants as entries;
    ghost use Rattle.nr_shared.specs.Standing.{Stands, Becomes};
    ghost use Rattle.nr_shared.specs.Histories.{IsCallAt, IsUnclosed, bytes_fed, is_lost_by, last_feeding};
    ghost use Rattle.nr_shared.specs.Draining.{drained_entries, fed_entry};
    ghost use Rattle.nr_shared.specs.private.Flushed.{IsFlushed};
    ghost use Rattle.nr_shared.specs.private.Taking.{IsDone, TakenBy};
    ghost use Rattle.nr_shared.specs.declared.entry.Stop.TheVariants as causes;
    ghost use Rattle.nr_links.specs.Limits.{read_max};
    ghost use Rattle.nr_requester.specs.Buffers.{bytes_of_buffers};
    ghost use Rattle.nr_shared.specs.Ending.{LinkEnded, LossEnds};
    ghost use Rattle.nr_shared.specs.Opening.{IsInitialHistory};
    ghost use Rattle.nr_shared.specs.Output.{IsCallOutstanding, IsTryLeft, MayStop};
    ghost use Rattle.nr_shared.specs.private.Needs.{GoesOn, IsNeeded};

    /// A requester that is shared, with its sink. Output may be pending.
    pub(crate) fn of_parts(
        requester: Requester,
        sink: O,
        tries: Option<u32>,
    ) -> RequesterWithSink<O, C>
        ensures { (history : List Entry) → IsInitialHistory O.link O.taken O.faults requester sink tries history → Stands O.link O.taken O.faults C.allows result history }
    {
        requester.facts();
        RequesterWithSink {
            requester,
            sink: Some(sink),
            tries,
            rejoined: 0,
            entries: 1,
            pending: true,
            write_failed: false,
            stopped: None,
            rule: PhantomData,
        }
    }

    /// Why no answer comes any more, if so.
    pub(crate) fn end(&self) -> Option<CallEnd>
        ensures some { IfSome result (λ end. (history : List Entry) → Stands O.link O.taken O.faults C.allows self.now history → LinkEnded end history) }
        ensures none { result ≡ None → (self.now.requester.state.side.ended ≡ None) × GoesOn self.now }
    {
        if let Some(end) = self.requester.end() {
            return Some(CallEnd::Ended(end));
        }
        match self.stopped {
            Some(Stop::Budget) => Some(CallEnd::Budget { read: READ_MAX }),
            Some(Stop::Memory) => Some(CallEnd::Ended(End::Memory)),
            Some(Stop::NotReopened) => Some(CallEnd::Memory),
            Some(Stop::DialFault) => Some(CallEnd::DialFault),
            Some(Stop::Spent { left, need }) => Some(CallEnd::Spent { left, need }),
            Some(Stop::LinkRead) | Some(Stop::Closed) | None => self.end_of_loss(),
        }
    }

    /// A loss is an end, unless the link may be dialled again.
    fn end_of_loss(&self) -> Option<CallEnd>
        ensures some { IfSome result (λ end. (history : List Entry) → Stands O.link O.taken O.faults C.allows self.now history → LinkEnded end history) }
        ensures none { result ≡ None → is_lost_by self.now.write_failed self.now.stopped ≡ true → IsTryLeft self.now.tries self.now.rejoined }
    {
        let Some(loss) = self.loss() else {
            return None;
        };
        match self.tries {
            None => Some(loss),
            Some(n) => {
                if self.rejoined < n {
                    None
                } else {
                    Some(CallEnd::Tries { n })
                }
            }
        }
    }

    /// How the link at hand was lost, if it was.
    fn loss(&self) -> Option<CallEnd>
        ensures lost { is_some result ≡ is_lost_by self.now.write_failed self.now.stopped }
        ensures how { IfSome result (λ loss. (history : List Entry) → Stands O.link O.taken O.faults C.allows self.now history → LossEnds None loss history) }
    {
        let read_end = match self.stopped {
            None => None,
            Some(Stop::LinkRead) => Some(CallEnd::LinkRead),
            Some(Stop::Closed) => Some(CallEnd::Closed),
            Some(_) => return None,
        };
        if self.write_failed {
            return Some(CallEnd::LinkWrite);
        }
        read_end
    }

    /// Whether the link at hand is lost.
    pub(crate) fn is_lost(&self) -> bool
        ensures { result ≡ is_lost_by self.now.write_failed self.now.stopped }
    {
        self.loss().is_some()
    }

    /// What a caller needs that waits for the answer of a call, or to submit one: nothing, if no answer comes any more, no call is outstanding, or it
    /// can go on.
    pub(crate) fn need(&self, ticket: Option<&Ticket>) -> Need
        ensures { (history : List Entry) → Stands O.link O.taken O.faults C.allows self.now history → IsNeeded result history }
    {
        if self.end().is_some() {
            return Need::Nothing;
        }
        if self.requester.outstanding() == 0 {
            return Need::Nothing;
        }
        if self.has_enough(ticket) {
            return Need::Nothing;
        }
        if self.is_lost() {
            Need::Link
        } else {
            Need::Input
        }
    }

    /// Whether the answer of this call is there; or, without a call, whether one may be submitted.
    fn has_enough(&self, ticket: Option<&Ticket>) -> bool {
        match ticket {
            Some(ticket) => self.requester.has_outcome(ticket),
            None => self.has_credit(),
        }
    }

    /// Whether a credit is left, and the next xid isn't too far above the least one.
    pub(crate) fn has_credit(&self) -> bool
        ensures { result ≡ may_submit self.now.requester.state }
    {
        self.requester.may_submit()
    }

    /// Submits a call.
    pub(crate) fn submit(&mut self, call: Call, form: Form) -> Result<Ticket, (Call, Refused)>
        requires writable { CanWriteCred call.cred }
        requires allowed { C.allows call form }
        requires stands { (history : List Entry) × Stands O.link O.taken O.faults C.allows self.old history }
        ensures accepted { IfOk result (λ xid. Becomes O.link O.taken O.faults C.allows self.old self.new (entries.Submit call form xid ∷ [])) }
        ensures refused { IfErr result (λ e. e.1 ≢ refusals.Memory → answer_of self.old.requester.state call form ≡ submissions.Refused e.1) }
        ensures returned { IfErr result (λ e. e.0 ≡ call) }
        ensures err { OnErr result (self.new ≡ self.old) }
    {
        match self.requester.submit(call, form) {
            Ok(ticket) => {
                self.entries += 1;
                self.pending = true;
                Ok(ticket)
            }
            Err(refused) => Err(refused),
        }
    }

    /// Hands the output to the sink, unless a write failed before.
    pub(crate) fn drain(&mut self) -> Drained
        requires stands { (history : List Entry) × Stands O.link O.taken O.faults C.allows self.old history }
        ensures drained { Becomes O.link O.taken O.faults C.allows self.old self.new (drained_entries self.old.requester.state self.new.requester.state result) }
        ensures tickets { KeepsTickets self.old.requester.state self.new.requester.state }
        ensures stopped { self.new.stopped ≡ self.old.stopped }
        ensures flushed { IsFlushed self.new }
    {
        if self.write_failed {
            return Drained::Nothing;
        }
        if !self.pending {
            return Drained::Nothing;
        }
        if self.sink.is_none() {
            return Drained::Nothing;
        }
        let Some(sink) = self.sink.take() else {
            unreachable!();
        };
        let (sink, drained) = drain_numbered::<Brand, O>(&mut self.requester, sink);
        self.sink = Some(sink);
        match drained {
            Ok(()) => {
                self.pending = false;
                self.entries += 1;
                Drained::Wrote
            }
            Err(_) => {
                self.write_failed = true;
                self.entries += 2;
                Drained::WriteFailed
            }
        }
    }

    /// Feeds a piece that was read, after a drain, while a call is outstanding. Answers whether memory ran out for a frame of it.
    pub(crate) fn feed(&mut self, piece: &[u8]) -> bool
        requires some { 0 < length piece.now }
        requires goes { self.old.stopped ≡ None }
        requires flushed { IsFlushed self.old }
        requires stands { (history : List Entry) × (Stands O.link O.taken O.faults C.allows self.old history × (length (bytes_fed history) + length piece.now ≤ read_max)) }
        ensures fed { (history : List Entry) (last : ℕ) → Stands O.link O.taken O.faults C.allows self.old history → last_feeding history ≡ Some last → length (bytes_fed history) + length piece.now ≤ read_max → IsCallOutstanding history →
            Stands O.link O.taken O.faults C.allows self.new (history ++ fed_entry result piece.now last ∷ []) }
        ensures tickets { KeepsTickets self.old.requester.state self.new.requester.state }
    {
        self.entries += 1;
        self.pending = true;
        match self.requester.feed(piece) {
            Ok(()) => false,
            Err(end) => match end {
                End::Memory => {
                    self.stopped = Some(Stop::Memory);
                    true
                }
                _ => false,
            },
        }
    }

    /// No more is fed over the link at hand, though a call is outstanding.
    pub(crate) fn stop(&mut self, cause: Stop)
        requires cause { cause ≢ causes.Memory }
        requires stands { (history : List Entry) × (Stands O.link O.taken O.faults C.allows self.old history × MayStop cause history) }
        ensures stopped { (history : List Entry) (last : ℕ) → Stands O.link O.taken O.faults C.allows self.old history → last_feeding history ≡ Some last → MayStop cause history →
            Stands O.link O.taken O.faults C.allows self.new (history ++ entries.Stopped cause last ∷ []) }
    {
        self.stopped = Some(cause);
        self.entries += 1;
    }

    /// Takes the answer of a call; or the call comes back with its buffers, if the requester has ended before.
    pub(crate) fn try_take(&mut self, ticket: Ticket) -> Take
        requires has_call { (history : List Entry) × (k : ℕ) × (call : Call) × (Stands O.link O.taken O.faults C.allows self.old history × (IsCallAt history ticket k call × IsUnclosed history k)) }
        ensures taken { (history : List Entry) (k : ℕ) (call : Call) → Stands O.link O.taken O.faults C.allows self.old history → IsCallAt history ticket k call → IsUnclosed history k →
            TakenBy O.link O.taken O.faults C.allows history ticket k call result self.new }
        ensures there { is_some (found_answer ticket self.old.requester.state) ≡ true → IsDone result }
    {
        match self.requester.try_take(ticket) {
            Take::NotYet(ticket) => Take::NotYet(ticket),
            Take::Done(done) => {
                self.entries += 1;
                Take::Done(done)
            }
            Take::Failed { call, buffers, end } => {
                self.entries += 1;
                Take::Failed { call, buffers, end }
            }
        }
    }

    /// Forgets a call.
    pub(crate) fn forget(&mut self, ticket: Ticket)
        requires has_call { (history : List Entry) × (k : ℕ) × (call : Call) × (Stands O.link O.taken O.faults C.allows self.old history × (IsCallAt history ticket k call × IsUnclosed history k)) }
        ensures forgotten { (history : List Entry) (k : ℕ) (call : Call) → Stands O.link O.taken O.faults C.allows self.old history → IsCallAt history ticket k call → IsUnclosed history k →
            Stands O.link O.taken O.faults C.allows self.new (history ++ entries.Forget ticket k ∷ []) }
    {
        self.requester.forget(ticket);
        self.entries += 1;
    }

    /// Revokes the memory of a call. The call and its buffers come back.
    pub(crate) fn revoke(&mut self, ticket: Ticket) -> (Call, Buffers)
        requires has_call { (history : List Entry) × (k : ℕ) × (call : Call) × (Stands O.link O.taken O.faults C.allows self.old history × (IsCallAt history ticket k call × IsUnclosed history k)) }
        ensures revoked { (history : List Entry) (k : ℕ) (call : Call) → Stands O.link O.taken O.faults C.allows self.old history → IsCallAt history ticket k call → IsUnclosed history k →
            Stands O.link O.taken O.faults C.allows self.new (history ++ entries.Revoke ticket (bytes_of_buffers result.1) k ∷ []) × (result.0 ≡ call) }
    {
        let given = self.requester.revoke(ticket);
        self.entries += 1;
        given
    }
}
