//! A call over a link.

ghost use Rattle.std.specs.Prelude.{◌≡◌, ◌≢◌, ◌<◌, true, false, Some, None, is_some, [], length, Option, List, ℕ, IfOk, IfErr, OnOk, OnErr};
ghost use Rattle.nr_rpc.specs.Credential.{CanWriteCred};
ghost use Rattle.nr_link.specs.declared.end.End.TheVariants as ends;
ghost use Rattle.nr_requester.specs.Fed.{fed_bytes};
ghost use Rattle.nr_requester.specs.OpenCalls.{ClosesTicket, KeepsTickets, OpensTicket, found_answer, open_call};
ghost use Rattle.nr_requester.specs.RequesterState.{queue_of};
ghost use Rattle.nr_client.specs.Calls.{Answers, Completes, Forgets, GivesUp, HandsOver, IsSent, RefusesToSubmit, Submits};
ghost use Rattle.nr_client.specs.Ending.{HasCredit, IsCause, IsEndOf, LinkCause, SinkCount, SourceCount};
ghost use Rattle.nr_client.specs.Steps.{Fits, GoesOn, GoesTo, HasCreditLeft, LacksAnswer, LacksCredit, ReadsNone};
ghost use Rattle.nr_client.specs.Transfers.{link_bytes};
ghost use Rattle.nr_client.specs.Views.{link_view};

use crate::transfer::{transfer, write_due};
use nr_outside::{Sink, Source};
use nr_reduce::{Call, Form, Outcome, Refused};
use nr_requester::{Done, Requester, Take, Ticket};
use nr_shared::CallEnd;

/// Whether no credit is left, or the next xid is too far above the least one. Then a call is outstanding.
fn lacks_credit(requester: &Requester) -> bool
    ensures lacks { result ≡ true → LacksCredit requester.now }
    ensures waits { result ≡ true → 0 < length requester.now.state.outstanding }
    ensures credit { result ≡ false → HasCreditLeft requester.now }
{
    !requester.may_submit()
}

/// Writes and reads until a call may be submitted, and writes what is due. If one may be at first, nothing is read. Fails if the client's
/// side has ended.
fn wait_for_credit<I: Source, O: Sink>(
    requester: &mut Requester,
    source: &mut I,
    sink: &mut O,
    read: &mut u64,
    buf: &mut [u8],
) -> Result<(), CallEnd>
    requires fits { Fits requester.old read.old (length buf.old) }
    ensures fits { Fits requester.new read.new (length buf.new) }
    ensures credit { OnOk result (HasCreditLeft requester.new) }
    ensures started { OnOk result (requester.old.state.side.ended ≡ None) }
    ensures live { OnOk result (requester.new.state.side.ended ≡ None) }
    ensures drained { OnOk result (queue_of requester.new.state ≡ []) }
    ensures at_once { HasCreditLeft requester.old → ReadsNone (link_bytes (I.left source.old) (I.given source.old) (O.taken sink.old) read.old)
        (link_bytes (I.left source.new) (I.given source.new) (O.taken sink.new) read.new) }
    ensures ok { OnOk result (GoesOn (link_bytes (I.left source.old) (I.given source.old) (O.taken sink.old) read.old)
        (link_bytes (I.left source.new) (I.given source.new) (O.taken sink.new) read.new) requester.old requester.new) }
    ensures err { IfErr result (λ end. GoesTo end (link_bytes (I.left source.old) (I.given source.old) (O.taken sink.old) read.old)
        (link_bytes (I.left source.new) (I.given source.new) (O.taken sink.new) read.new) requester.old requester.new) }
    ensures cause { IfErr result (λ end. LinkCause end (I.left source.new) read.new requester.new) }
    ensures tickets { KeepsTickets requester.old.state requester.new.state }
    ensures source_count { SourceCount result (I.faults source.old) (I.faults source.new) }
    ensures sink_count { SinkCount result (O.faults sink.old) (O.faults sink.new) }
{
    while lacks_credit(requester) {
        match transfer(requester, source, sink, read, buf) {
            Ok(()) => {}
            Err(end) => return Err(end),
        }
    }
    match write_due(requester, sink) {
        Ok(()) => Ok(()),
        Err(end) => Err(end),
    }
}

/// Writes and reads until the answer to a call has come.
fn wait_for_answer<I: Source, O: Sink>(
    requester: &mut Requester,
    source: &mut I,
    sink: &mut O,
    read: &mut u64,
    buf: &mut [u8],
    ticket: &Ticket,
) -> Result<(), CallEnd>
    requires fits { Fits requester.old read.old (length buf.old) }
    requires open { is_some (open_call ticket.now requester.old.state) ≡ true }
    ensures fits { Fits requester.new read.new (length buf.new) }
    ensures there { OnOk result (is_some (found_answer ticket.now requester.new.state) ≡ true) }
    ensures memory { OnOk result (requester.old.state.side.ended ≢ Some ends.Memory → requester.new.state.side.ended ≢ Some ends.Memory) }
    ensures ok { OnOk result (GoesOn (link_bytes (I.left source.old) (I.given source.old) (O.taken sink.old) read.old)
        (link_bytes (I.left source.new) (I.given source.new) (O.taken sink.new) read.new) requester.old requester.new) }
    ensures err { IfErr result (λ end. GoesTo end (link_bytes (I.left source.old) (I.given source.old) (O.taken sink.old) read.old)
        (link_bytes (I.left source.new) (I.given source.new) (O.taken sink.new) read.new) requester.old requester.new) }
    ensures cause { IfErr result (λ end. LinkCause end (I.left source.new) read.new requester.new) }
    ensures unanswered { IfErr result (λ end. LacksAnswer end ticket.now requester.new) }
    ensures tickets { KeepsTickets requester.old.state requester.new.state }
    ensures source_count { SourceCount result (I.faults source.old) (I.faults source.new) }
    ensures sink_count { SinkCount result (O.faults sink.old) (O.faults sink.new) }
{
    while !requester.has_outcome(ticket) {
        match transfer(requester, source, sink, read, buf) {
            Ok(()) => {}
            Err(end) => return Err(end),
        }
    }
    Ok(())
}

/// The end of a call that was refused so, though it might be submitted.
fn end_of_refused(refused: Refused) -> CallEnd
    requires { HasCredit refused }
    ensures { IsEndOf refused result }
{
    match refused {
        Refused::Ended(end) => CallEnd::Ended(end),
        Refused::TooLarge { need, room } => CallEnd::TooLarge { need, room },
        Refused::NoCredit { .. } | Refused::Window { .. } => unreachable!(),
        Refused::Spent { left, need } => CallEnd::Spent { left, need },
        Refused::Memory => CallEnd::Memory,
    }
}

/// Submits a call that may be submitted.
fn submit(requester: &mut Requester, call: Call) -> Result<Ticket, CallEnd>
    requires writable { CanWriteCred call.cred }
    requires credit { HasCreditLeft requester.old }
    ensures sent { IfOk result (λ xid. IsSent xid call requester.old requester.new) }
    ensures live { OnOk result (requester.new.state.side.ended ≡ None) }
    ensures tickets { IfOk result (λ xid. OpensTicket xid call requester.old.state requester.new.state) }
    ensures err { OnErr result (requester.new ≡ requester.old) }
    ensures fed { fed_bytes requester.new ≡ fed_bytes requester.old }
    ensures cause { IfErr result (λ end. (left : Option (List ℕ)) (read : ℕ) → IsCause end left read requester.new call) }
    ensures source_count { (count : ℕ) → SourceCount result count count }
    ensures sink_count { (count : ℕ) → SinkCount result count count }
{
    match requester.submit(call, Form::Auto) {
        Ok(ticket) => Ok(ticket),
        Err((call, refused)) => {
            drop(call);
            Err(end_of_refused(refused))
        }
    }
}

/// Takes the outcome of a call, whose answer has come.
fn take_outcome(requester: &mut Requester, ticket: Ticket) -> Outcome
    requires there { is_some (found_answer ticket requester.old.state) ≡ true }
    requires open { is_some (open_call ticket requester.old.state) ≡ true }
    ensures completes { HandsOver ticket result requester.old requester.new }
    ensures ended { requester.new.state.side.ended ≡ requester.old.state.side.ended }
    ensures tickets { ClosesTicket ticket requester.old.state requester.new.state }
    ensures fed { fed_bytes requester.new ≡ fed_bytes requester.old }
{
    let done = match requester.try_take(ticket) {
        Take::Done(done) => done,
        Take::NotYet(_) => unreachable!(),
        Take::Failed { .. } => unreachable!(),
    };
    let Done {
        call,
        buffers,
        outcome,
    } = done;
    drop(call);
    drop(buffers);
    outcome
}

/// Waits for the answer to a call that was submitted. If there is none, the call is forgotten.
pub(crate) fn complete<I: Source, O: Sink>(
    requester: &mut Requester,
    source: &mut I,
    sink: &mut O,
    read: &mut u64,
    buf: &mut [u8],
    ticket: Ticket,
) -> Result<Outcome, CallEnd>
    requires fits { Fits requester.old read.old (length buf.old) }
    requires open { is_some (open_call ticket requester.old.state) ≡ true }
    ensures fits { Fits requester.new read.new (length buf.new) }
    ensures memory { OnOk result (requester.old.state.side.ended ≢ Some ends.Memory → requester.new.state.side.ended ≢ Some ends.Memory) }
    ensures ok { IfOk result (λ outcome. Completes ticket outcome (link_view (I.left source.old) (I.given source.old) (O.taken sink.old) read.old requester.old (I.faults source.old) (O.faults sink.old))
        (link_view (I.left source.new) (I.given source.new) (O.taken sink.new) read.new requester.new (I.faults source.new) (O.faults sink.new))) }
    ensures err { IfErr result (λ end. Forgets ticket end (link_view (I.left source.old) (I.given source.old) (O.taken sink.old) read.old requester.old (I.faults source.old) (O.faults sink.old))
        (link_view (I.left source.new) (I.given source.new) (O.taken sink.new) read.new requester.new (I.faults source.new) (O.faults sink.new))) }
    ensures cause { IfErr result (λ end. LinkCause end (I.left source.new) read.new requester.new) }
    ensures tickets { ClosesTicket ticket requester.old.state requester.new.state }
    ensures source_count { SourceCount result (I.faults source.old) (I.faults source.new) }
    ensures sink_count { SinkCount result (O.faults sink.old) (O.faults sink.new) }
{
    match wait_for_answer(requester, source, sink, read, buf, &ticket) {
        Ok(()) => Ok(take_outcome(requester, ticket)),
        Err(end) => {
            requester.forget(ticket);
            Err(end)
        }
    }
}

/// Submits a call once a credit is left.
pub(crate) fn submit_over<I: Source, O: Sink>(
    requester: &mut Requester,
    source: &mut I,
    sink: &mut O,
    read: &mut u64,
    buf: &mut [u8],
    call: Call,
) -> Result<Ticket, CallEnd>
    requires writable { CanWriteCred call.cred }
    requires fits { Fits requester.old read.old (length buf.old) }
    ensures fits { Fits requester.new read.new (length buf.new) }
    ensures live { OnOk result (requester.new.state.side.ended ≡ None) }
    ensures ok { IfOk result (λ xid. Submits (link_view (I.left source.old) (I.given source.old) (O.taken sink.old) read.old requester.old (I.faults source.old) (O.faults sink.old))
        (link_view (I.left source.new) (I.given source.new) (O.taken sink.new) read.new requester.new (I.faults source.new) (O.faults sink.new)) call xid) }
    ensures err { IfErr result (λ end. RefusesToSubmit (link_view (I.left source.old) (I.given source.old) (O.taken sink.old) read.old requester.old (I.faults source.old) (O.faults sink.old))
        (link_view (I.left source.new) (I.given source.new) (O.taken sink.new) read.new requester.new (I.faults source.new) (O.faults sink.new)) call end) }
    ensures cause { IfErr result (λ end. IsCause end (I.left source.new) read.new requester.new call) }
    ensures opens { IfOk result (λ xid. OpensTicket xid call requester.old.state requester.new.state) }
    ensures keeps { OnErr result (KeepsTickets requester.old.state requester.new.state) }
    ensures source_count { SourceCount result (I.faults source.old) (I.faults source.new) }
    ensures sink_count { SinkCount result (O.faults sink.old) (O.faults sink.new) }
{
    match wait_for_credit(requester, source, sink, read, buf) {
        Ok(()) => {}
        Err(end) => {
            drop(call);
            return Err(end);
        }
    }
    match submit(requester, call) {
        Ok(ticket) => Ok(ticket),
        Err(end) => Err(end),
    }
}

/// Makes a call: submits it once a credit is left, and writes and reads until its answer has come.
pub(crate) fn call_over<I: Source, O: Sink>(
    requester: &mut Requester,
    source: &mut I,
    sink: &mut O,
    read: &mut u64,
    buf: &mut [u8],
    call: Call,
) -> Result<Outcome, CallEnd>
    requires writable { CanWriteCred call.cred }
    requires fits { Fits requester.old read.old (length buf.old) }
    ensures fits { Fits requester.new read.new (length buf.new) }
    ensures memory { OnOk result (requester.new.state.side.ended ≢ Some ends.Memory) }
    ensures ok { IfOk result (λ outcome. Answers (link_view (I.left source.old) (I.given source.old) (O.taken sink.old) read.old requester.old (I.faults source.old) (O.faults sink.old))
        (link_view (I.left source.new) (I.given source.new) (O.taken sink.new) read.new requester.new (I.faults source.new) (O.faults sink.new)) call outcome) }
    ensures err { IfErr result (λ end. GivesUp (link_view (I.left source.old) (I.given source.old) (O.taken sink.old) read.old requester.old (I.faults source.old) (O.faults sink.old))
        (link_view (I.left source.new) (I.given source.new) (O.taken sink.new) read.new requester.new (I.faults source.new) (O.faults sink.new)) call end) }
    ensures cause { IfErr result (λ end. IsCause end (I.left source.new) read.new requester.new call) }
    ensures tickets { KeepsTickets requester.old.state requester.new.state }
    ensures source_count { SourceCount result (I.faults source.old) (I.faults source.new) }
    ensures sink_count { SinkCount result (O.faults sink.old) (O.faults sink.new) }
{
    let ticket = match submit_over(requester, source, sink, read, buf, call) {
        Ok(ticket) => ticket,
        Err(end) => return Err(end),
    };
    match complete(requester, source, sink, read, buf, ticket) {
        Ok(outcome) => Ok(outcome),
        Err(end) => Err(end),
    }
}
