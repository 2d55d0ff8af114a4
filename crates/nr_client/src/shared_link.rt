//! A link of one caller of a shared requester, which is dialled again if it is lost.

ghost use Rattle.std.specs.Prelude.{◌≡◌, ◌<◌, ◌≤◌, Ok, Err, IfOk, IfErr, IfSome};
ghost use Rattle.nr_links.specs.Links.{HasOpenLink};
ghost use Rattle.nr_requester.specs.AfterCalls.{numbered_terms};
ghost use Rattle.nr_shared.specs.Standing.{tries_max};
ghost use Rattle.nr_client.specs.Numbered.{ClosesNumbered, HangsUpLast, NumberedFails, OpensNumbered};

use crate::client_end::ClientEnd;
use crate::limits::CREDITS;
use crate::link_calls::Calls;
use nr_links::{Dialer, LinkSink, LinkSource};
use nr_reduce::{Call, Form, Outcome};
use nr_requester::{Done, Requester, Ticket};
use nr_shared::{AnyCall, CallEnd, NotShared, Pass, SharedRequester};
use std::alloc::Global;
use std::marker::Model;
use std::sync::Wait;

/// A requester of a client with a number, which is shared over a link, and a pass of it. If the link is lost, it is hung up and the next one is
/// dialled, and the calls that weren't answered are sent again. Contracts see the requester and the pass.
pub struct SharedLink<'a, R, I: LinkSource, O: LinkSink, D: Dialer<Source = I, Sink = O>> {
    rt: &'a R,
    shared: SharedRequester<I, O, AnyCall, D>,
    pass: Pass<I, O, AnyCall, D>,
}

impl<'a, R, I: LinkSource, O: LinkSink, D: Dialer<Source = I, Sink = O>> Model
    for SharedLink<'a, R, I, O, D> {
    ghost use Rattle.std.specs.Coded.{codes};
    ghost use Rattle.nr_endpoint.specs.Codes.{state_code};
    ghost use Rattle.nr_client.specs.SharedParts.{IsAtRest, SharedParts};

    ghost Value = { SharedParts I O D };

    ghost coded = { Prim.hlevel (codes, state_code) };

    ghost view = { λ l. record { shared = l.shared; pass = l.pass } };

    ghost invariant = { λ l. IsAtRest D.ended l.shared l.pass };
}

/// The outcome of a call, if it was answered. The call and its buffers are dropped.
fn outcome_of(answered: Result<Done, CallEnd>) -> Result<Outcome, CallEnd>
    ensures ok { IfOk answered (λ done. result ≡ Ok done.outcome) }
    ensures err { IfErr answered (λ end. result ≡ Err end) }
{
    match answered {
        Ok(done) => {
            let Done {
                call,
                buffers,
                outcome,
            } = done;
            drop(call);
            drop(buffers);
            Ok(outcome)
        }
        Err(end) => Err(end),
    }
}

/// Hangs up the link at hand, if there is one.
fn hang_up_last<I: LinkSource, O: LinkSink, D: Dialer<Source = I, Sink = O>>(
    link: Option<(I, O)>,
    dialer: &mut D,
)
    requires { IfSome link (λ halves. (I.link halves.0 ≡ O.link halves.1) × HasOpenLink (D.ended dialer.old)) }
    ensures { HangsUpLast I.link I.left I.given I.faults O.taken O.faults D.asked D.ended D.lost D.faults link dialer.old dialer.new }
{
    match link {
        Some((source, sink)) => dialer.hang_up(source, sink),
        None => {}
    }
}

impl<
    'a,
    R: Wait,
    I: LinkSource + Drop,
    O: LinkSink + Drop,
    D: Dialer<Source = I, Sink = O>,
> SharedLink<'a, R, I, O, D> {
    /// Dials a link to this address for a client with this number, which isn't 0. If it is lost, the next one is dialled to the same address, at most
    /// `tries` times in all. It has this many units for its Sends in each direction, of 1,024 bytes each, 1 to 16 (0 counts as 1, and more than 16 as
    /// 16), and says whether it takes Sends with Invalidate (RFC 5040 section 4.7).
    ///
    /// # Errors
    ///
    /// `DialFault` if the dialer failed, `Memory` if memory ran out: then a link that was made is hung up. The dialer comes back.
    pub fn open(
        rt: &'a R,
        alloc: Global,
        dialer: D,
        addr: &str,
        client: u64,
        tries: u32,
        units: u8,
        invalidates: bool,
    ) -> Result<SharedLink<'a, R, I, O, D>, (ClientEnd, D)>
    where
        D: Drop,
        requires client { 0 < client }
        requires tries { tries ≤ tries_max }
        ensures opened { IfOk result (λ l. OpensNumbered I.link I.left I.given I.faults D.asked D.ended D.faults tries (numbered_terms client units invalidates) addr.now dialer l.pass) }
        ensures err { IfErr result (λ back. NumberedFails I.link I.left I.given I.faults O.link O.taken O.faults D.asked D.ended D.faults tries (numbered_terms client units invalidates) addr.now dialer back.0 back.1) }
    {
        let Ok(requester) = Requester::open_numbered(alloc, client, CREDITS, units, invalidates)
        else {
            return Err((ClientEnd::Memory, dialer));
        };
        match SharedRequester::<I, O, AnyCall, D>::new_numbered::<R>(
            rt, alloc, requester, dialer, addr, tries,
        ) {
            Ok((shared, pass)) => Ok(SharedLink { rt, shared, pass }),
            Err(NotShared::DialFault(requester, dialer)) => {
                drop(requester);
                Err((ClientEnd::DialFault, dialer))
            }
            Err(NotShared::Memory(requester, dialer)) => {
                drop(requester);
                Err((ClientEnd::Memory, dialer))
            }
        }
    }

    /// Hangs up the link at hand, if there is one: there is none if the last dial failed. The dialer comes back.
    pub fn close(self) -> D
        ensures { ClosesNumbered I.link I.left I.given I.faults O.link O.taken O.faults D.asked D.ended D.lost D.faults self.entry.pass result }
    {
        let SharedLink { rt, shared, pass } = self;
        let (requester, link, mut dialer) = shared.close(rt, pass);
        drop(requester);
        hang_up_last(link, &mut dialer);
        dialer
    }
}

impl<'a, R: Wait, I: LinkSource + Drop, O: LinkSink + Drop, D: Dialer<Source = I, Sink = O>> Calls
    for SharedLink<'a, R, I, O, D> {
    ghost use Rattle.nr_client.specs.CallerViews.{CallerView, caller_view, shared_relations};

    ghost View = { CallerView };

    ghost relations = { shared_relations };

    ghost at = { λ l. caller_view I.link I.left I.given I.faults D.asked D.ended D.faults l.pass };

    fn call(&mut self, call: Call) -> Result<Outcome, CallEnd> {
        outcome_of(self.shared.call(self.rt, &mut self.pass, call, Form::Auto))
    }

    fn submit(&mut self, call: Call) -> Result<Ticket, CallEnd> {
        self.shared
            .submit(self.rt, &mut self.pass, call, Form::Auto)
    }

    fn wait(&mut self, ticket: Ticket) -> Result<Outcome, CallEnd> {
        outcome_of(self.shared.wait(self.rt, &mut self.pass, ticket))
    }

    fn forget(&mut self, ticket: Ticket) {
        self.shared.forget(self.rt, &mut self.pass, ticket);
    }

    fn has_credit(&mut self) -> bool {
        self.shared.has_credit(self.rt, &mut self.pass)
    }
}
