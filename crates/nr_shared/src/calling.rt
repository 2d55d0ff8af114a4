//! Calls, each of which waits for its own answer.

ghost use Rattle.std.specs.Prelude.{◌≡◌, []};
ghost use Rattle.nr_rpc.specs.Credential.{CanWriteCred};
ghost use Rattle.nr_turnstile.specs.Passes.{Rests, mine_of, seen_by};
ghost use Rattle.nr_turnstile.specs.Rule.{Lies};
ghost use Rattle.nr_shared.specs.Adding.{Adds};
ghost use Rattle.nr_shared.specs.Callers.{HasOpenCall, KeepsLaw, KeepsOpen};
ghost use Rattle.nr_shared.specs.Sharing.{SaysCredit, SaysCreditOutOfMemory, SharedRests};
ghost use Rattle.nr_shared.specs.Waiting.{Awaits, Calls, ForgetsCall, IsPollTurn, IsSubmitTurn, Submits, Waits, WritesDue};

use crate::call_end::CallEnd;
use crate::call_rule::CallRule;
use crate::caller_turns::{PollTurn, SubmitTurn, credit_under, poll_under, submit_if_credit_under};
use crate::requester_with_sink::MainPass;
use crate::shared::{Pass, SharedRequester};
use crate::turns::{drain_under, forget_under};
use nr_links::{Dialer, LinkSink, LinkSource};
use nr_reduce::{Call, Form};
use nr_requester::{Done, Ticket};
use std::sync::Wait;

impl<
    I: LinkSource + Drop,
    O: LinkSink + Drop,
    C: CallRule,
    D: Dialer<Source = I, Sink = O>,
> SharedRequester<I, O, C, D> {
    /// Makes a call that the rule allows, and waits for its outcome. It is submitted once a credit is left, and, if the client has a
    /// number, its xid is less than 64 above the least one of an outstanding call. If there is no outcome, a call that was submitted is forgotten.
    pub fn call<R: Wait>(
        &self,
        rt: &R,
        pass: &mut Pass<I, O, C, D>,
        call: Call,
        form: Form,
    ) -> Result<Done, CallEnd>
        requires writable { CanWriteCred call.cred }
        requires allowed { C.allows call form }
        requires rests { SharedRests self.now pass.old }
        ensures rests { SharedRests self.now pass.new }
        ensures source { seen_by pass.new.source ≡ seen_by pass.old.source }
        ensures called { Calls pass.old.main pass.new.main call form result }
    {
        let ticket = match self.submit(rt, pass, call, form) {
            Ok(ticket) => ticket,
            Err(end) => return Err(end),
        };
        match self.wait(rt, pass, ticket) {
            Ok(done) => Ok(done),
            Err(end) => Err(end),
        }
    }

    /// Submits a call that the rule allows, once it can be, as `call` does. `wait`, `forget` or `try_revoke` takes its ticket.
    pub fn submit<R: Wait>(
        &self,
        rt: &R,
        pass: &mut Pass<I, O, C, D>,
        call: Call,
        form: Form,
    ) -> Result<Ticket, CallEnd>
        requires writable { CanWriteCred call.cred }
        requires allowed { C.allows call form }
        requires rests { SharedRests self.now pass.old }
        ensures rests { SharedRests self.now pass.new }
        ensures source { seen_by pass.new.source ≡ seen_by pass.old.source }
        ensures submitted { Submits pass.old.main pass.new.main call form result }
    {
        let mut unsent_call = call;
        let mut unsent_form = form;
        for _ in rt.forever() {
            match self.submit_turn(rt, &mut pass.main, unsent_call, unsent_form) {
                SubmitTurn::Accepted(ticket) => return Ok(ticket),
                SubmitTurn::Ended(end) => return Err(end),
                SubmitTurn::NoCredit(call, form) => {
                    unsent_call = call;
                    unsent_form = form;
                }
            }
            self.receive(rt, &mut pass.source, None);
        }
        unreachable!()
    }

    /// Writes the output that is due, also what `try_submit` left, and waits for the outcome of a call of the pass's own. If there is none, the
    /// call is forgotten.
    pub fn wait<R: Wait>(
        &self,
        rt: &R,
        pass: &mut Pass<I, O, C, D>,
        ticket: Ticket,
    ) -> Result<Done, CallEnd>
        requires rests { SharedRests self.now pass.old }
        requires has_call { HasOpenCall pass.old.main ticket }
        ensures rests { SharedRests self.now pass.new }
        ensures source { seen_by pass.new.source ≡ seen_by pass.old.source }
        ensures waited { Waits pass.old.main pass.new.main ticket result }
    {
        self.drain_turn(rt, &mut pass.main);
        self.await_outcome(rt, pass, ticket)
    }

    // Waits for the outcome, turn after turn.
    fn await_outcome<R: Wait>(
        &self,
        rt: &R,
        pass: &mut Pass<I, O, C, D>,
        ticket: Ticket,
    ) -> Result<Done, CallEnd>
        requires rests { SharedRests self.now pass.old }
        requires has_call { HasOpenCall pass.old.main ticket }
        ensures rests { SharedRests self.now pass.new }
        ensures source { seen_by pass.new.source ≡ seen_by pass.old.source }
        ensures waited { Awaits pass.old.main pass.new.main ticket result }
    {
        let mut waiting = ticket;
        for _ in rt.forever() {
            match self.poll_turn(rt, &mut pass.main, waiting) {
                PollTurn::Answered(done) => return Ok(done),
                PollTurn::Ended(end) => return Err(end),
                PollTurn::NotYet(ticket) => waiting = ticket,
            }
            self.receive(rt, &mut pass.source, Some(&waiting));
        }
        unreachable!()
    }

    /// Forgets a call of the pass's own, whether or not its answer has come.
    pub fn forget<R: Wait>(&self, rt: &R, pass: &mut Pass<I, O, C, D>, ticket: Ticket)
        requires rests { SharedRests self.now pass.old }
        requires has_call { HasOpenCall pass.old.main ticket }
        ensures rests { SharedRests self.now pass.new }
        ensures source { seen_by pass.new.source ≡ seen_by pass.old.source }
        ensures forgotten { ForgetsCall pass.old.main pass.new.main ticket }
    {
        self.forget_turn(rt, &mut pass.main, ticket);
    }

    /// Whether at this moment a credit is left and, if the client has a number, the next xid is less than 64 above the least one of an
    /// outstanding call. If it has ended, only whether a credit is left.
    pub fn has_credit<R: Wait>(&self, rt: &R, pass: &mut Pass<I, O, C, D>) -> bool
        requires { SharedRests self.now pass.old }
        ensures rests { SharedRests self.now pass.new }
        ensures source { seen_by pass.new.source ≡ seen_by pass.old.source }
        ensures added { Adds pass.old.main pass.new.main [] }
        ensures keeps { KeepsOpen pass.old.main pass.new.main }
        ensures credit { SaysCredit result (seen_by pass.new.main) }
        ensures credit_out_of_memory { SaysCreditOutOfMemory result (seen_by pass.new.main) }
    {
        self.credit_turn(rt, &mut pass.main)
    }

    // One turn in which the output that is due is written.
    fn drain_turn<R: Wait>(&self, rt: &R, main: &mut MainPass<O, C>)
        requires rests { Rests self.now.main main.old }
        requires lies { Lies (seen_by main.old) (mine_of main.old) }
        ensures rests { Rests self.now.main main.new }
        ensures law { KeepsLaw (seen_by main.new) }
        ensures wrote { WritesDue main.old main.new }
    {
        let mut turn = self.main.take_turn(rt, main);
        drain_under(&mut turn);
        turn.put_back();
    }

    // One turn of a caller that submits.
    fn submit_turn<R: Wait>(
        &self,
        rt: &R,
        main: &mut MainPass<O, C>,
        call: Call,
        form: Form,
    ) -> SubmitTurn
        requires writable { CanWriteCred call.cred }
        requires allowed { C.allows call form }
        requires rests { Rests self.now.main main.old }
        requires lies { Lies (seen_by main.old) (mine_of main.old) }
        ensures rests { Rests self.now.main main.new }
        ensures law { KeepsLaw (seen_by main.new) }
        ensures submitted { IsSubmitTurn main.old main.new call form result }
    {
        let mut turn = self.main.take_turn(rt, main);
        let tried = submit_if_credit_under(&mut turn, call, form);
        turn.put_back();
        tried
    }

    // One turn of a caller that gives a call up.
    fn forget_turn<R: Wait>(&self, rt: &R, main: &mut MainPass<O, C>, ticket: Ticket)
        requires rests { Rests self.now.main main.old }
        requires has_call { HasOpenCall main.old ticket }
        ensures rests { Rests self.now.main main.new }
        ensures law { KeepsLaw (seen_by main.new) }
        ensures forgotten { ForgetsCall main.old main.new ticket }
    {
        let mut turn = self.main.take_turn(rt, main);
        forget_under(&mut turn, ticket);
        turn.put_back();
    }

    // One turn of a caller that asks for a credit.
    fn credit_turn<R: Wait>(&self, rt: &R, main: &mut MainPass<O, C>) -> bool
        requires rests { Rests self.now.main main.old }
        requires lies { Lies (seen_by main.old) (mine_of main.old) }
        ensures rests { Rests self.now.main main.new }
        ensures law { KeepsLaw (seen_by main.new) }
        ensures added { Adds main.old main.new [] }
        ensures keeps { KeepsOpen main.old main.new }
        ensures credit { SaysCredit result (seen_by main.new) }
        ensures credit_out_of_memory { SaysCreditOutOfMemory result (seen_by main.new) }
    {
        let mut turn = self.main.take_turn(rt, main);
        let has = credit_under(&mut turn);
        turn.put_back();
        has
    }

    // One turn of a caller that waits.
    fn poll_turn<R: Wait>(&self, rt: &R, main: &mut MainPass<O, C>, ticket: Ticket) -> PollTurn
        requires rests { Rests self.now.main main.old }
        requires has_call { HasOpenCall main.old ticket }
        ensures rests { Rests self.now.main main.new }
        ensures law { KeepsLaw (seen_by main.new) }
        ensures polled { IsPollTurn main.old main.new ticket result }
    {
        let mut turn = self.main.take_turn(rt, main);
        let found = poll_under(&mut turn, ticket);
        turn.put_back();
        found
    }
}
