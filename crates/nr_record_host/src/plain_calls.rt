//! Calls of a connection that the shared plain server executes.

ghost use Rattle.std.specs.Prelude.{◌≡◌};
ghost use Rattle.nr_turnstile.specs.Passes.{Rests};
ghost use Rattle.nr_plain.specs.History.{pass_view};
ghost use Rattle.nr_record_host.specs.private.PlainCalls.{PlainDid};

use nr_links::Clock;
use nr_plain::{Fault, Server, execute};
use nr_record_loop::{Answers, NoReply};
use nr_turnstile::{Machine, Pass, Turnstile};
use nr_xdr::Octets;
use std::alloc::Global;
use std::sync::Wait;

/// The shared server, with the pass and the clock of a connection.
#[derive(Drop)]
pub(crate) struct PlainCalls<'a, C, R> {
    pub(crate) rt: &'a R,
    pub(crate) shared: &'a Turnstile<Server>,
    pub(crate) pass: &'a mut Pass<Server>,
    pub(crate) clock: &'a mut C,
}

impl<'a, C: Clock, R: Wait> Answers for PlainCalls<'a, C, R> {
    ghost did = { λ p q xs more. PlainDid (C.gave p.clock.now) (C.gave q.clock.now) (pass_view p.pass.now) (pass_view q.pass.now) xs more };

    ghost rests = { λ p. Rests p.shared.now p.pass.now };

    ghost same = { λ p q. (q.shared.now ≡ p.shared.now) × ((q.pass.ghost_name ≡ p.pass.ghost_name) × (q.clock.ghost_name ≡ p.clock.ghost_name)) };

    /// Executes the call at the clock's moment, under one turn, and holds no turn then.
    fn reply(&mut self, alloc: Global, call: &[u8]) -> Result<Octets, NoReply> {
        let moment = self.clock.now();
        match execute(self.rt, alloc, self.shared, self.pass, moment, call) {
            Ok(reply) => Ok(reply.payload),
            Err(Fault::NotCall { .. }) => Err(NoReply::NotCall),
            Err(Fault::Memory) => Err(NoReply::Memory),
            Err(Fault::Old { .. }) => unreachable!(),
        }
    }
}
