//! What a caller does with the requester and its sink under one turn.

ghost use Rattle.std.specs.Prelude.{◌≡◌, ◌≢◌, ◌+◌, ◌<◌, ◌≤◌, length, None, true, is_some, [], ◌∷◌, ◌++◌, IfOk, IfErr, OnErr};
ghost use Rattle.nr_rpc.specs.Credential.{CanWriteCred};
ghost use Rattle.nr_requester.specs.OpenCalls.{found_answer};
ghost use Rattle.nr_turnstile.specs.Passes.{mine_of, seen_by};
ghost use Rattle.nr_turnstile.specs.Rule.{IsOpen};
ghost use Rattle.nr_turnstile.specs.Turns.{pass_of, Has, IsSameTurn};
ghost use Rattle.nr_shared.specs.declared.requester_with_sink.RequesterWithSink.{RequesterWithSink};
ghost use Rattle.nr_shared.specs.Histories.{bytes_fed, closes_of, forget_by};
ghost use Rattle.nr_shared.specs.Ending.{HasCredit, IsRefused};
ghost use Rattle.nr_shared.specs.private.CreditState.{LeavesCredit};
ghost use Rattle.nr_shared.specs.private.Flushed.{HasFlushed};
ghost use Rattle.nr_shared.specs.private.Taking.{IsDone};
ghost use Rattle.nr_shared.specs.declared.entry.Entry.TheVariants as entries;
ghost use Rattle.nr_shared.specs.Callers.{HasOpenCall, IsFeeding, IsReady, KeepsOpen};
ghost use Rattle.nr_shared.specs.Adding.{Adds};
ghost use Rattle.nr_shared.specs.Callers.{Writes};
ghost use Rattle.nr_shared.specs.Waiting.{ForgetsCall, IsTakeTurn, RevokesCall};
ghost use Rattle.nr_shared.specs.Draining.{fed_after, stopped_after};
ghost use Rattle.nr_shared.specs.Output.{IsCallOutstanding, MayStop};
ghost use Rattle.nr_shared.specs.declared.entry.Stop.TheVariants as causes;
ghost use Rattle.nr_links.specs.Limits.{read_max};

use crate::appending::{
    append_done, append_fed, append_forget, append_lost, append_revoke, append_stopped,
    append_submit, append_write_failed, append_wrote,
};
use crate::call_rule::CallRule;
use crate::entry::Stop;
use crate::requester_with_sink::{Drained, MainTurn};
use nr_links::LinkSink;
use nr_reduce::{Call, Form, Refused};
use nr_requester::{Buffers, Take, Ticket};
use std::marker::Brand;
use std::snapshot::Snapshot;

/// Submits a call.
pub(crate) fn submit_under<O: LinkSink + Drop, C: CallRule>(
    turn: &mut MainTurn<'_, O, C>,
    call: Call,
    form: Form,
) -> Result<Ticket, (Call, Refused)>
    requires writable { CanWriteCred call.cred }
    requires allowed { C.allows call form }
    requires ready { IsReady O.link O.taken O.faults C.allows turn.old }
    ensures same { IsSameTurn turn.old turn.new }
    ensures ready { IsReady O.link O.taken O.faults C.allows turn.new }
    ensures accepted { IfOk result (λ xid. Adds (pass_of turn.old) (pass_of turn.new) (entries.Submit call form xid ∷ []) × HasOpenCall (pass_of turn.new) xid) }
    ensures refused { OnErr result (Adds (pass_of turn.old) (pass_of turn.new) []) }
    ensures returned { IfErr result (λ e. e.0 ≡ call) }
    ensures keeps { KeepsOpen (pass_of turn.old) (pass_of turn.new) }
    ensures opened { IfOk result (λ xid. IsOpen closes_of (seen_by (pass_of turn.new)) (mine_of (pass_of turn.new)) (length (seen_by (pass_of turn.old)))) }
    ensures why { IfErr result (λ e. IsRefused e.1 call form (seen_by (pass_of turn.old))) }
    ensures credit { IfErr result (λ e. LeavesCredit turn.old → HasCredit e.1) }
    ensures seen { IfOk result (λ xid. seen_by (pass_of turn.new) ≡ seen_by (pass_of turn.old) ++ entries.Submit call form xid ∷ []) }
    ensures kept { OnErr result (seen_by (pass_of turn.new) ≡ seen_by (pass_of turn.old)) }
{
    let asked = Snapshot::of(&call);
    let asked_in = Snapshot::of(&form);
    let with_sink = turn.value();
    match with_sink.submit(call, form) {
        Ok(ticket) => {
            append_submit::<O, C, Brand>(turn, &asked, &asked_in, &ticket);
            Ok(ticket)
        }
        Err(refused) => Err(refused),
    }
}

/// Takes the answer of a call of the pass's own; or the call comes back with its buffers, if the requester has ended before.
pub(crate) fn try_take_under<O: LinkSink + Drop, C: CallRule>(
    turn: &mut MainTurn<'_, O, C>,
    ticket: Ticket,
) -> Take
    requires ready { IsReady O.link O.taken O.faults C.allows turn.old }
    requires has_call { HasOpenCall (pass_of turn.old) ticket }
    ensures same { IsSameTurn turn.old turn.new }
    ensures ready { IsReady O.link O.taken O.faults C.allows turn.new }
    ensures taken { IsTakeTurn (pass_of turn.old) (pass_of turn.new) ticket result }
    ensures there { ((y : RequesterWithSink O C) → Has turn.old y → is_some (found_answer ticket y.requester.state) ≡ true) → IsDone result }
{
    let xid = ticket.xid();
    let with_sink = turn.value();
    match with_sink.try_take(ticket) {
        Take::NotYet(ticket) => Take::NotYet(ticket),
        Take::Done(done) => {
            let outcome = Snapshot::of(&done.outcome);
            append_done::<O, C, Brand>(turn, xid, &outcome);
            Take::Done(done)
        }
        Take::Failed { call, buffers, end } => {
            let held = Snapshot::of(&buffers);
            append_lost::<O, C, Brand>(turn, end, xid, &held);
            Take::Failed { call, buffers, end }
        }
    }
}

/// Forgets a call of the pass's own.
pub(crate) fn forget_under<O: LinkSink + Drop, C: CallRule>(
    turn: &mut MainTurn<'_, O, C>,
    ticket: Ticket,
)
    requires ready { IsReady O.link O.taken O.faults C.allows turn.old }
    requires has_call { HasOpenCall (pass_of turn.old) ticket }
    ensures same { IsSameTurn turn.old turn.new }
    ensures ready { IsReady O.link O.taken O.faults C.allows turn.new }
    ensures forgotten { ForgetsCall (pass_of turn.old) (pass_of turn.new) ticket }
    ensures seen { seen_by (pass_of turn.new) ≡ seen_by (pass_of turn.old) ++ forget_by (seen_by (pass_of turn.old)) ticket ∷ [] }
{
    let xid = ticket.xid();
    let with_sink = turn.value();
    with_sink.forget(ticket);
    append_forget::<O, C, Brand>(turn, xid);
}

/// Hands the output to the sink, unless a write failed before.
pub(crate) fn drain_under<O: LinkSink + Drop, C: CallRule>(turn: &mut MainTurn<'_, O, C>)
    requires ready { IsReady O.link O.taken O.faults C.allows turn.old }
    ensures same { IsSameTurn turn.old turn.new }
    ensures ready { IsReady O.link O.taken O.faults C.allows turn.new }
    ensures wrote { Writes (pass_of turn.old) (pass_of turn.new) }
    ensures flushed { HasFlushed turn.new }
{
    let with_sink = turn.value();
    let before = Snapshot::of(&with_sink.requester);
    let drained = with_sink.drain();
    let after = Snapshot::of(&with_sink.requester);
    match drained {
        Drained::Nothing => {}
        Drained::Wrote => append_wrote::<O, C, Brand>(turn, &before, &after),
        Drained::WriteFailed => {
            append_wrote::<O, C, Brand>(turn, &before, &after);
            append_write_failed::<O, C, Brand>(turn);
        }
    }
}

/// Revokes the memory of a call of the pass's own.
pub(crate) fn revoke_under<O: LinkSink + Drop, C: CallRule>(
    turn: &mut MainTurn<'_, O, C>,
    ticket: Ticket,
) -> (Call, Buffers)
    requires ready { IsReady O.link O.taken O.faults C.allows turn.old }
    requires has_call { HasOpenCall (pass_of turn.old) ticket }
    ensures same { IsSameTurn turn.old turn.new }
    ensures ready { IsReady O.link O.taken O.faults C.allows turn.new }
    ensures revoked { RevokesCall (pass_of turn.old) (pass_of turn.new) ticket result.0 result.1 }
{
    let xid = ticket.xid();
    let with_sink = turn.value();
    let given = with_sink.revoke(ticket);
    let buffers = Snapshot::of(&given.1);
    append_revoke::<O, C, Brand>(turn, xid, &buffers);
    given
}

/// Feeds a piece that was read, after a drain. Answers whether memory ran out for a frame of it.
pub(crate) fn feed_under<O: LinkSink + Drop, C: CallRule>(
    turn: &mut MainTurn<'_, O, C>,
    piece: &[u8],
) -> bool
    requires ready { IsReady O.link O.taken O.faults C.allows turn.old }
    requires feeding { IsFeeding (pass_of turn.old) }
    requires goes { (y : RequesterWithSink O C) → Has turn.old y → y.stopped ≡ None }
    requires flushed { HasFlushed turn.old }
    requires outstanding { IsCallOutstanding (seen_by (pass_of turn.old)) }
    requires some { 0 < length piece.now }
    requires room { length (bytes_fed (seen_by (pass_of turn.old))) + length piece.now ≤ read_max }
    ensures same { IsSameTurn turn.old turn.new }
    ensures ready { IsReady O.link O.taken O.faults C.allows turn.new }
    ensures feeding { IsFeeding (pass_of turn.new) }
    ensures seen { seen_by (pass_of turn.new) ≡ seen_by (pass_of turn.old) ++ fed_after (seen_by (pass_of turn.old)) result piece.now ∷ [] }
    ensures fed { Adds (pass_of turn.old) (pass_of turn.new) (fed_after (seen_by (pass_of turn.old)) result piece.now ∷ []) }
{
    let with_sink = turn.value();
    let out_of_memory = with_sink.feed(piece);
    append_fed::<O, C, Brand>(turn, out_of_memory, piece);
    out_of_memory
}

/// No more is fed over the link at hand.
pub(crate) fn stop_under<O: LinkSink + Drop, C: CallRule>(
    turn: &mut MainTurn<'_, O, C>,
    cause: Stop,
)
    requires ready { IsReady O.link O.taken O.faults C.allows turn.old }
    requires feeding { IsFeeding (pass_of turn.old) }
    requires cause { cause ≢ causes.Memory }
    requires may { MayStop cause (seen_by (pass_of turn.old)) }
    ensures same { IsSameTurn turn.old turn.new }
    ensures ready { IsReady O.link O.taken O.faults C.allows turn.new }
    ensures feeding { IsFeeding (pass_of turn.new) }
    ensures seen { seen_by (pass_of turn.new) ≡ seen_by (pass_of turn.old) ++ stopped_after (seen_by (pass_of turn.old)) cause ∷ [] }
    ensures stopped { Adds (pass_of turn.old) (pass_of turn.new) (stopped_after (seen_by (pass_of turn.old)) cause ∷ []) }
{
    let with_sink = turn.value();
    with_sink.stop(cause);
    append_stopped::<O, C, Brand>(turn, cause);
}
