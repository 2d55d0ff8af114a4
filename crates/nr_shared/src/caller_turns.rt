//! What a caller finds and does under one turn.

ghost use Rattle.std.specs.Prelude.{◌≡◌};
ghost use Rattle.nr_rpc.specs.Credential.{CanWriteCred};
ghost use Rattle.nr_turnstile.specs.Passes.{seen_by, mine_of};
ghost use Rattle.nr_turnstile.specs.Turns.{pass_of, IsSameTurn};
ghost use Rattle.nr_shared.specs.Callers.{HasOpenCall, IsReady};
ghost use Rattle.nr_shared.specs.private.CreditState.{IsCreditState};
ghost use Rattle.nr_shared.specs.private.Needs.{IsNeeded};
ghost use Rattle.nr_shared.specs.Sharing.{SaysCredit, SaysCreditOutOfMemory};
ghost use Rattle.nr_shared.specs.Waiting.{IsSubmitTurn, IsPollTurn};

use crate::call_end::CallEnd;
use crate::call_rule::CallRule;
use crate::requester_with_sink::MainTurn;
use crate::turns::{drain_under, forget_under, submit_under, try_take_under};
use nr_links::LinkSink;
use nr_reduce::{Call, Form};
use nr_requester::{Done, Take, Ticket};

/// What a turn of a caller that waits finds.
#[derive(Drop)]
pub enum PollTurn {
    /// The answer.
    Answered(Done),
    /// Neither an answer nor an end.
    NotYet(Ticket),
    /// An end: the call was forgotten.
    Ended(CallEnd),
}

/// What a turn of a caller that submits finds.
#[derive(Drop)]
pub enum SubmitTurn {
    /// The call was accepted.
    Accepted(Ticket),
    /// No credit is left, or the next xid is too far above the least one.
    NoCredit(Call, Form),
    /// The call isn't accepted.
    Ended(CallEnd),
}

/// What a caller that waits needs of the link.
#[derive(Clone, Copy)]
pub enum Need {
    /// Nothing: an end or the answer has come, or a call may be submitted.
    Nothing,
    /// More of the server's stream.
    Input,
    /// The next link: that at hand is lost, and may be dialled again.
    Link,
}

/// Whether a call can be submitted.
#[derive(Clone, Copy)]
pub enum CreditState {
    /// A credit is left, and the next xid isn't too far above the least one.
    Left,
    /// No credit is left, or it is.
    NoCredit,
    /// The link has ended.
    Ended(CallEnd),
}

/// Takes the answer of a call of the pass's own, if it is there. If none comes any more, writes the output that is due, and forgets the call.
pub(crate) fn poll_under<O: LinkSink + Drop, C: CallRule>(
    turn: &mut MainTurn<'_, O, C>,
    ticket: Ticket,
) -> PollTurn
    requires ready { IsReady O.link O.taken O.faults C.allows turn.old }
    requires has_call { HasOpenCall (pass_of turn.old) ticket }
    ensures same { IsSameTurn turn.old turn.new }
    ensures ready { IsReady O.link O.taken O.faults C.allows turn.new }
    ensures polled { IsPollTurn (pass_of turn.old) (pass_of turn.new) ticket result }
{
    let with_sink = turn.value();
    let there = with_sink.requester.has_outcome(&ticket);
    let end = with_sink.end();
    if there {
        match try_take_under(turn, ticket) {
            Take::Done(done) => return PollTurn::Answered(done),
            Take::NotYet(_) => unreachable!(),
            Take::Failed { .. } => unreachable!(),
        }
    }
    match end {
        None => PollTurn::NotYet(ticket),
        Some(end) => {
            drain_under(turn);
            forget_under(turn, ticket);
            PollTurn::Ended(end)
        }
    }
}

/// Whether a call may be submitted, or the link has ended.
fn credit_state_under<O: LinkSink + Drop, C: CallRule>(turn: &mut MainTurn<'_, O, C>) -> CreditState
    requires ready { IsReady O.link O.taken O.faults C.allows turn.old }
    ensures same { IsSameTurn turn.old turn.new }
    ensures ready { IsReady O.link O.taken O.faults C.allows turn.new }
    ensures seen { seen_by (pass_of turn.new) ≡ seen_by (pass_of turn.old) }
    ensures mine { mine_of (pass_of turn.new) ≡ mine_of (pass_of turn.old) }
    ensures found { IsCreditState turn.new result }
{
    let with_sink = turn.value();
    if let Some(end) = with_sink.end() {
        return CreditState::Ended(end);
    }
    if with_sink.has_credit() {
        CreditState::Left
    } else {
        CreditState::NoCredit
    }
}

/// Writes the output that is due. Then, if a call may be submitted, submits this one and writes it.
pub(crate) fn submit_if_credit_under<O: LinkSink + Drop, C: CallRule>(
    turn: &mut MainTurn<'_, O, C>,
    call: Call,
    form: Form,
) -> SubmitTurn
    requires writable { CanWriteCred call.cred }
    requires allowed { C.allows call form }
    requires ready { IsReady O.link O.taken O.faults C.allows turn.old }
    ensures same { IsSameTurn turn.old turn.new }
    ensures ready { IsReady O.link O.taken O.faults C.allows turn.new }
    ensures submitted { IsSubmitTurn (pass_of turn.old) (pass_of turn.new) call form result }
{
    drain_under(turn);
    match credit_state_under(turn) {
        CreditState::Ended(end) => return SubmitTurn::Ended(end),
        CreditState::NoCredit => return SubmitTurn::NoCredit(call, form),
        CreditState::Left => {}
    }
    match submit_under(turn, call, form) {
        Ok(ticket) => {
            drain_under(turn);
            SubmitTurn::Accepted(ticket)
        }
        Err((call, refused)) => {
            drop(call);
            SubmitTurn::Ended(CallEnd::of_refused(refused))
        }
    }
}

/// What a caller needs that waits for the answer of a call, or to submit one.
pub(crate) fn need_under<O: LinkSink + Drop, C: CallRule>(
    turn: &mut MainTurn<'_, O, C>,
    ticket: Option<&Ticket>,
) -> Need
    requires ready { IsReady O.link O.taken O.faults C.allows turn.old }
    ensures same { IsSameTurn turn.old turn.new }
    ensures ready { IsReady O.link O.taken O.faults C.allows turn.new }
    ensures seen { seen_by (pass_of turn.new) ≡ seen_by (pass_of turn.old) }
    ensures mine { mine_of (pass_of turn.new) ≡ mine_of (pass_of turn.old) }
    ensures need { IsNeeded result (seen_by (pass_of turn.old)) }
{
    let with_sink = turn.value();
    with_sink.need(ticket)
}

/// Whether a call may be submitted.
pub(crate) fn credit_under<O: LinkSink + Drop, C: CallRule>(turn: &mut MainTurn<'_, O, C>) -> bool
    requires ready { IsReady O.link O.taken O.faults C.allows turn.old }
    ensures same { IsSameTurn turn.old turn.new }
    ensures ready { IsReady O.link O.taken O.faults C.allows turn.new }
    ensures seen { seen_by (pass_of turn.new) ≡ seen_by (pass_of turn.old) }
    ensures mine { mine_of (pass_of turn.new) ≡ mine_of (pass_of turn.old) }
    ensures credit { SaysCredit result (seen_by (pass_of turn.old)) }
    ensures credit_out_of_memory { SaysCreditOutOfMemory result (seen_by (pass_of turn.old)) }
{
    let with_sink = turn.value();
    with_sink.has_credit()
}
