//! A lost link is left, and the next one is dialled.

ghost use Rattle.std.specs.Prelude.{◌≡◌, ◌⊎◌, ℕ, [], ◌∷◌, ◌++◌, List, Some, true, false, IfErr, OnOk, OnErr};
ghost use Rattle.nr_turnstile.specs.Passes.{seen_by};
ghost use Rattle.nr_turnstile.specs.Turns.{IsSameTurn, pass_of};
ghost use Rattle.nr_shared.specs.declared.entry.Entry.{Entry};
ghost use Rattle.nr_shared.specs.declared.entry.Entry.TheVariants as entries;
ghost use Rattle.nr_shared.specs.Callers.{IsFeeding, IsReady};
ghost use Rattle.nr_shared.specs.Draining.{initial_sink};
ghost use Rattle.nr_shared.specs.Histories.{last_feeding, stopped_by_dial};
ghost use Rattle.nr_shared.specs.Output.{MayFeed, MayRejoin, MayStop};
ghost use Rattle.nr_shared.specs.Dialing.{CannotReopen, DialsNext, HasLink, LinkHungUp};
ghost use Rattle.nr_shared.specs.private.Reading.{CanHangUp, IsUnmoved, Redials, cause_of_refusal};
ghost use Rattle.nr_shared.specs.Standing.{Stands};

use crate::appending::append_rejoin;
use crate::call_rule::CallRule;
use crate::caller_turns::{Need, need_under};
use crate::entry::Stop;
use crate::requester_with_sink::{MainTurn, RequesterWithSink};
use crate::turns::stop_under;
use nr_links::{Dialer, LinkSink, LinkSource};
use nr_reduce::Refused;
use nr_requester::Ticket;
use std::marker::Brand;
use std::snapshot::Snapshot;

impl Stop {
    /// Why a lost link is the last one: too few STags are left for the calls that would be sent again, or memory ran out.
    fn of_reopening(refused: Refused) -> Stop
        ensures { result ≡ cause_of_refusal refused }
    {
        match refused {
            Refused::Spent { left, need } => Stop::Spent { left, need },
            _ => Stop::NotReopened,
        }
    }
}

/// Hangs up a link, if there is one.
fn hang_up_link<I: LinkSource, O: LinkSink, D: Dialer<Source = I, Sink = O>>(
    source: Option<I>,
    sink: Option<O>,
    dialer: &mut D,
)
    requires { HasLink I.link O.link D.ended source sink dialer.old }
    ensures hung_up { LinkHungUp I.link I.left I.given O.taken source sink (D.ended dialer.old) (D.ended dialer.new) }
    ensures asked { D.asked dialer.new ≡ D.asked dialer.old }
    ensures faults { D.faults dialer.new ≡ D.faults dialer.old }
{
    match (source, sink) {
        (Some(source), Some(sink)) => dialer.hang_up(source, sink),
        (None, None) => {}
        (Some(_), None) => unreachable!(),
        (None, Some(_)) => unreachable!(),
    }
}

/// Hangs up a link, if there is one, and dials the next.
fn next_link<I: LinkSource + Drop, O: LinkSink + Drop, D: Dialer<Source = I, Sink = O>>(
    source: &mut Option<I>,
    sink: &mut Option<O>,
    dialer: &mut D,
    addr: &str,
)
    requires { HasLink I.link O.link D.ended source.old sink.old dialer.old }
    ensures { DialsNext I.link I.left I.given I.faults O.link O.taken O.faults D.asked D.ended D.faults source.old source.new sink.old sink.new dialer.old dialer.new addr.now }
{
    hang_up_link(source.take(), sink.take(), dialer);
    match dialer.dial(addr) {
        Ok((next_source, next_sink)) => {
            *source = Some(next_source);
            *sink = Some(next_sink);
        }
        Err(_) => {}
    }
}

/// Why no more is fed over a link whose dial made this sink, or none.
fn stop_of_dial<O: LinkSink>(sink: &Option<O>) -> Option<Stop>
    ensures { result ≡ stopped_by_dial (initial_sink O.link O.taken O.faults sink.now) }
{
    match sink {
        Some(_) => None,
        None => Some(Stop::DialFault),
    }
}

impl<O: LinkSink + Drop, C: CallRule> RequesterWithSink<O, C> {
    /// Leaves the lost link, and dials the next one. Nothing changes if the requester can't be reopened.
    fn redial<I: LinkSource + Drop, D: Dialer<Source = I, Sink = O>>(
        &mut self,
        source: &mut Option<I>,
        dialer: &mut D,
        addr: &str,
    ) -> Result<(), Stop>
        requires stands { (history : List Entry) × (Stands O.link O.taken O.faults C.allows self.old history × MayRejoin history) }
        requires link { HasLink I.link O.link D.ended source.old self.old.sink dialer.old }
        ensures rejoined { OnOk result ((history : List Entry) (last : ℕ) → Stands O.link O.taken O.faults C.allows self.old history → last_feeding history ≡ Some last → MayRejoin history →
            Stands O.link O.taken O.faults C.allows self.new (history ++ entries.Rejoin (initial_sink O.link O.taken O.faults self.new.sink) last ∷ [])) }
        ensures next { OnOk result (DialsNext I.link I.left I.given I.faults O.link O.taken O.faults D.asked D.ended D.faults source.old source.new self.old.sink self.new.sink dialer.old dialer.new addr.now) }
        ensures refused { IfErr result (λ cause. CannotReopen cause × ((history : List Entry) → Stands O.link O.taken O.faults C.allows self.old history → MayRejoin history → MayStop cause history)) }
        ensures unchanged { OnErr result ((self.new ≡ self.old) × ((source.new ≡ source.old) × (dialer.new ≡ dialer.old))) }
    {
        if let Err(refused) = self.requester.reopen() {
            return Err(Stop::of_reopening(refused));
        }
        next_link(source, &mut self.sink, dialer, addr);
        self.rejoined += 1;
        self.write_failed = false;
        self.stopped = stop_of_dial(&self.sink);
        self.pending = true;
        self.entries += 1;
        Ok(())
    }
}

/// Leaves the lost link, and dials the next one, under both turns; or the link is the last one, since the requester can't be reopened.
fn redial_under<
    I: LinkSource + Drop,
    O: LinkSink + Drop,
    C: CallRule,
    D: Dialer<Source = I, Sink = O>,
>(turn: &mut MainTurn<'_, O, C>, source: &mut Option<I>, dialer: &mut D, addr: &str)
    requires ready { IsReady O.link O.taken O.faults C.allows turn.old }
    requires feeding { IsFeeding (pass_of turn.old) }
    requires may { MayRejoin (seen_by (pass_of turn.old)) }
    requires link { CanHangUp I.link O.link O.taken O.faults D.ended (seen_by (pass_of turn.old)) source.old dialer.old }
    ensures same { IsSameTurn turn.old turn.new }
    ensures ready { IsReady O.link O.taken O.faults C.allows turn.new }
    ensures feeding { IsFeeding (pass_of turn.new) }
    ensures redialled { Redials I.link I.left I.given I.faults O.link O.taken O.faults D.asked D.ended D.faults (seen_by (pass_of turn.old)) (seen_by (pass_of turn.new)) source.old source.new dialer.old dialer.new addr.now }
{
    let with_sink = turn.value();
    match with_sink.redial(source, dialer, addr) {
        Ok(()) => {
            let sink = Snapshot::of(&with_sink.sink);
            append_rejoin::<O, C, Brand>(turn, &sink);
        }
        Err(cause) => stop_under(turn, cause),
    }
}

/// What is needed: whether more of the server's stream. If the next link is needed, dials it.
pub(crate) fn input_or_link_under<
    I: LinkSource + Drop,
    O: LinkSink + Drop,
    C: CallRule,
    D: Dialer<Source = I, Sink = O>,
>(
    turn: &mut MainTurn<'_, O, C>,
    ticket: Option<&Ticket>,
    source: &mut Option<I>,
    dialer: &mut D,
    addr: &str,
) -> bool
    requires ready { IsReady O.link O.taken O.faults C.allows turn.old }
    requires feeding { IsFeeding (pass_of turn.old) }
    requires link { CanHangUp I.link O.link O.taken O.faults D.ended (seen_by (pass_of turn.old)) source.old dialer.old }
    ensures same { IsSameTurn turn.old turn.new }
    ensures ready { IsReady O.link O.taken O.faults C.allows turn.new }
    ensures feeding { IsFeeding (pass_of turn.new) }
    ensures input { result ≡ true → IsUnmoved (seen_by (pass_of turn.old)) (seen_by (pass_of turn.new)) source.old source.new dialer.old dialer.new × MayFeed (seen_by (pass_of turn.new)) }
    ensures other { result ≡ false → IsUnmoved (seen_by (pass_of turn.old)) (seen_by (pass_of turn.new)) source.old source.new dialer.old dialer.new
        ⊎ Redials I.link I.left I.given I.faults O.link O.taken O.faults D.asked D.ended D.faults (seen_by (pass_of turn.old)) (seen_by (pass_of turn.new)) source.old source.new dialer.old dialer.new addr.now }
{
    match need_under(turn, ticket) {
        Need::Nothing => false,
        Need::Input => true,
        Need::Link => {
            redial_under(turn, source, dialer, addr);
            false
        }
    }
}
