//! Calls that are made and given up.

ghost use Rattle.std.specs.Prelude.{◌≡◌, ◌≢◌, ℕ, ◌<◌, ◌-◌, ◌++◌, [], map, length, get_or, true, is_some, None, IfOk, IfErr, IfSome, OnOk, OnErr};
ghost use Rattle.nr_rpc.specs.Credential.{CanWriteCred};
ghost use Rattle.nr_reduce.specs.declared.call.Refused.TheVariants as refusals;
ghost use Rattle.nr_reduce.specs.declared.call.Submission.TheVariants as submissions;
ghost use Rattle.nr_reduce.specs.declared.mark.Mark.TheVariants as marks;
ghost use Rattle.nr_requester.specs.AfterCalls.{after_revoke as revoked};
ghost use Rattle.nr_requester.specs.Answers.{answer_of};
ghost use Rattle.nr_requester.specs.Fed.{fed_bytes};
ghost use Rattle.nr_requester.specs.Buffers.{buffer_bytes, bytes_of_buffers};
ghost use Rattle.nr_requester.specs.OpenCalls.{open_call, buffers_of, OpensTicket};
ghost use Rattle.nr_requester.specs.ReopenedLinks.{KeepsOn};
ghost use Rattle.nr_drill.specs.Drill.{after_submit, after_forget, after_revoke};
ghost use Rattle.nr_world.specs.OpenTickets.{AreApart, LinesOpen, TakesCall, TakesLine, SubmitsLine, AnswersCall};
ghost use Rattle.nr_world.specs.Views.{call_view, line_view};
ghost use Rattle.nr_world.specs.Steps.{Goes};

use crate::awaited::AwaitedCall;
use crate::copying::{copy_call, copy_form};
use crate::draining::{add_mark, add_submit};
use crate::link::DrillLink;
use nr_marks::MarkLog;
use nr_reduce::{Call, Form, Mark, Refused, Submission};
use nr_requester::{Buffers, Requester, Ticket};
use nr_xdr::{Memory, Octets};
use std::alloc::Global;

/// Which of these calls is the one of a call line.
fn place_of(calls: &[AwaitedCall], index: usize) -> Option<usize>
    ensures some { IfSome result (λ at. (at < length calls.now) × ((d : AwaitedCall) → (get_or calls.now at d).index ≡ index)) }
    ensures none { result ≡ None → (k : ℕ) (d : AwaitedCall) → k < length calls.now → (get_or calls.now k d).index ≢ index }
{
    'calls: for i in 0..calls.len() {
        if calls[i].index == index {
            return Some(i);
        }
    }
    None
}

/// Takes out the ticket of a call line, if its call is awaited. Lines are numbered from 1.
fn take_line(awaited: &mut Vec<AwaitedCall>, number: u32) -> Option<Ticket>
    ensures lines { TakesLine (number - 1) result (map line_view awaited.old.items) (map line_view awaited.new.items) }
    ensures calls { AreApart awaited.old.items → TakesCall result (map call_view awaited.old.items) (map call_view awaited.new.items) }
{
    let Some(at) = place_of(awaited.as_slice(), number.saturating_sub(1) as usize) else {
        return None;
    };
    let AwaitedCall { ticket, .. } = awaited.remove(at);
    Some(ticket)
}

/// A refusal as the answer to a call, unless memory ran out.
fn refusal(refused: Refused) -> Result<Submission, Memory>
    ensures { IfOk result (λ answer. (answer ≡ submissions.Refused refused) × (refused ≢ refusals.Memory)) }
{
    match refused {
        Refused::Memory => Err(Memory),
        _ => Ok(Submission::Refused(refused)),
    }
}

/// Submits a copy of a call.
fn submit_copy(
    alloc: Global,
    client: &mut Requester,
    call: &Call,
    form: &Form,
) -> Result<Ticket, Refused>
    requires { CanWriteCred call.now.cred }
    ensures accepted { IfOk result (λ xid. answer_of client.old.state call.now form.now ≡ submissions.Accepted xid) }
    ensures refused { IfErr result (λ e. e ≢ refusals.Memory → answer_of client.old.state call.now form.now ≡ submissions.Refused e) }
    ensures err { OnErr result (client.new ≡ client.old) }
    ensures stands { IfOk result (λ xid. KeepsOn client.old (λ link. marks.Submit link call.now form.now (submissions.Accepted xid)) client.new) }
    ensures tickets { IfOk result (λ xid. OpensTicket xid call.now client.old.state client.new.state) }
    ensures fed { fed_bytes client.new ≡ fed_bytes client.old }
{
    let Ok(form) = copy_form(alloc, form) else {
        return Err(Refused::Memory);
    };
    let Ok(call) = copy_call(alloc, call) else {
        drop(form);
        return Err(Refused::Memory);
    };
    match client.submit(call, form) {
        Ok(ticket) => Ok(ticket),
        Err((call, refused)) => {
            drop(call);
            Err(refused)
        }
    }
}

/// Submits a copy of a call, and keeps its ticket as that of this line.
fn submit_line(
    alloc: Global,
    client: &mut Requester,
    awaited: &mut Vec<AwaitedCall>,
    index: usize,
    call: &Call,
    form: &Form,
) -> Result<Submission, Memory>
    requires { CanWriteCred call.now.cred }
    ensures submits { IfOk result (λ answer. SubmitsLine call.now form.now index answer client.old client.new (map line_view awaited.old.items) (map line_view awaited.new.items) (map call_view awaited.old.items) (map call_view awaited.new.items)) }
    ensures tickets { LinesOpen client.old.state (map line_view awaited.old.items) → LinesOpen client.new.state (map line_view awaited.new.items) }
    ensures fed { fed_bytes client.new ≡ fed_bytes client.old }
{
    if awaited.reserve(1).is_err() {
        return Err(Memory);
    }
    let Ok(own_form) = copy_form(alloc, form) else {
        return Err(Memory);
    };
    let Ok(own_call) = copy_call(alloc, call) else {
        drop(own_form);
        return Err(Memory);
    };
    match submit_copy(alloc, client, call, form) {
        Ok(ticket) => {
            let xid = ticket.xid();
            awaited.push_reserved(AwaitedCall {
                ticket,
                index,
                call: own_call,
                form: own_form,
            });
            Ok(Submission::Accepted { xid })
        }
        Err(refused) => {
            drop(own_call);
            drop(own_form);
            refusal(refused)
        }
    }
}

/// The bytes of a buffer, if there is one.
fn slice_of(buffer: &Option<Octets>) -> &[u8]
    ensures { result.now ≡ buffer_bytes buffer.now }
{
    match buffer {
        None => &[],
        Some(bytes) => bytes.as_slice(),
    }
}

fn append(bytes: &mut Vec<u8>, more: &[u8]) -> Result<(), Memory>
    ensures { OnOk result (bytes.new.items ≡ bytes.old.items ++ more.now) }
{
    match bytes.extend_from_slice(more) {
        Ok(()) => Ok(()),
        Err(_) => Err(Memory),
    }
}

/// The bytes of the buffers of a call.
fn bytes_of(alloc: Global, buffers: &Buffers) -> Result<Octets, Memory>
    ensures { IfOk result (λ bytes. bytes ≡ bytes_of_buffers buffers.now) }
{
    let mut bytes = Vec::new(alloc);
    append(&mut bytes, slice_of(&buffers.read))?;
    append(&mut bytes, slice_of(&buffers.write))?;
    append(&mut bytes, slice_of(&buffers.reply))?;
    Ok(Octets::from_vec(bytes))
}

/// Revokes the memory of a call whose ticket is open, also if its outcome has come. What its buffers hold is the answer.
fn revoke_call(alloc: Global, client: &mut Requester, ticket: Ticket) -> Result<Octets, Memory>
    requires { is_some (open_call ticket client.old.state) ≡ true }
    ensures bytes { IfOk result (λ bytes. bytes ≡ bytes_of_buffers (buffers_of ticket client.old.state)) }
    ensures state { OnOk result (client.new ≡ revoked client.old ticket) }
    ensures stands { OnOk result (KeepsOn client.old (λ link. marks.Revoke link ticket (bytes_of_buffers (buffers_of ticket client.old.state))) client.new) }
    ensures others { (xid : ℕ) → xid ≢ ticket → open_call xid client.new.state ≡ open_call xid client.old.state }
    ensures fed { fed_bytes client.new ≡ fed_bytes client.old }
{
    let (call, buffers) = client.revoke(ticket);
    drop(call);
    bytes_of(alloc, &buffers)
}

impl DrillLink {
    /// Answers a call: on a dropped link with Dropped, else as its client does.
    #[tactic(none)]
    fn answer(&mut self, call: &Call, form: &Form) -> Result<Submission, Memory>
        requires { CanWriteCred call.now.cred }
        ensures { IfOk result (λ answer. AnswersCall call.now form.now answer self.old self.new) }
    {
        if self.lines == usize::MAX {
            return Err(Memory);
        }
        if self.dropped {
            self.lines += 1;
            return Ok(Submission::Dropped);
        }
        let index = self.lines;
        self.lines += 1;
        submit_line(
            self.alloc,
            &mut self.client,
            &mut self.awaited,
            index,
            call,
            form,
        )
    }

    /// Submits a call, and writes what is due. On a dropped link it is answered with Dropped.
    #[tactic(none)]
    pub fn submit(&mut self, marks: &mut MarkLog, call: Call, form: Form) -> Result<(), Memory>
        requires { CanWriteCred call.cred }
        ensures { OnOk result (Goes (λ s link. after_submit s link call form) self.old self.new marks.old marks.new) }
    {
        let answer = match self.answer(&call, &form) {
            Ok(answer) => answer,
            Err(memory) => return Err(memory),
        };
        match add_submit(self.alloc, marks, self.number, call, form, answer) {
            Ok(()) => self.settle(marks),
            Err(memory) => Err(memory),
        }
    }

    /// Gives up the answer to the call of this call line, if it is open.
    pub fn forget(&mut self, marks: &mut MarkLog, number: u32) -> Result<(), Memory>
        ensures { OnOk result (Goes (λ s link. after_forget s link number) self.old self.new marks.old marks.new) }
    {
        if self.dropped {
            return Ok(());
        }
        if self.client.end().is_some() {
            return Ok(());
        }
        let Some(ticket) = take_line(&mut self.awaited, number) else {
            return Ok(());
        };
        let xid = ticket.xid();
        self.client.forget(ticket);
        add_mark(
            marks,
            Mark::Forget {
                link: self.number,
                xid,
            },
        )
    }

    /// Revokes the memory of the call of this call line, if it is open; then what is due is written.
    pub fn revoke(&mut self, marks: &mut MarkLog, number: u32) -> Result<(), Memory>
        ensures { OnOk result (Goes (λ s link. after_revoke s link number) self.old self.new marks.old marks.new) }
    {
        if self.dropped {
            return Ok(());
        }
        if self.client.end().is_some() {
            return Ok(());
        }
        let Some(ticket) = take_line(&mut self.awaited, number) else {
            return Ok(());
        };
        let xid = ticket.xid();
        let bytes = match revoke_call(self.alloc, &mut self.client, ticket) {
            Ok(bytes) => bytes,
            Err(memory) => return Err(memory),
        };
        let revoked = Mark::Revoke {
            link: self.number,
            xid,
            bytes,
        };
        match add_mark(marks, revoked) {
            Ok(()) => self.settle(marks),
            Err(memory) => Err(memory),
        }
    }
}
