//! A link: how it is opened, and what is reported of it.

ghost use Rattle.std.specs.Prelude.{◌≡◌, ◌+◌, ◌*◌, ◌≤◌, ◌^◌, ℕ, List, [], map, length, None, IfOk, OnOk, true, false};
ghost use Rattle.nr_wire.specs.declared.hello.Side.TheVariants.{Initiator, Responder as ResponderSide};
ghost use Rattle.nr_reduce.specs.declared.mark.Mark.{Mark};
ghost use Rattle.nr_reduce.specs.Run.{end_of_side};
ghost use Rattle.nr_reduce.specs.History.{is_dropped as is_dropped_after};
ghost use Rattle.nr_drill.specs.Drill.{Setting, Drill, after_drop, after_grant, after_opening, after_raw};
ghost use Rattle.nr_drill.specs.Follows.{is_still as is_still_in};
ghost use Rattle.nr_world.specs.LinkStands.{LinkStands};
ghost use Rattle.nr_link.specs.Agreement.{terms_with};
ghost use Rattle.nr_endpoint.specs.FedBytes.{fed_bytes};
ghost use Rattle.nr_reduce.specs.declared.mark.LinkParameters.{LinkParameters};
ghost use Rattle.nr_reduce.specs.Opening.{ClientOpened, ServerOpened};
ghost use Rattle.nr_requester.specs.Fed.{fed_bytes as client_fed_bytes};
ghost use Rattle.nr_requester.specs.Standing.{RequesterRepresents};
ghost use Rattle.nr_responder.specs.ResponderState.{end_of};
ghost use Rattle.nr_responder.specs.Standing.{ResponderRepresents};
ghost use Rattle.nr_drill.specs.Follows.{client_terms};
ghost use Rattle.nr_world.specs.OpenTickets.{AreOpen};
ghost use Rattle.nr_world.specs.Steps.{Goes, IsFresh, Opens, Reopens};
ghost use Rattle.nr_world.specs.Views.{held_view};
ghost use Rattle.nr_world.specs.private.Working.{begun_link};

use crate::awaited::{AwaitedCall, HeldCall};
use crate::draining::add_mark;
use crate::resending::held_calls;
use crate::transit::Transit;
use nr_link::End;
use nr_marks::MarkLog;
use nr_reduce::{Mark, Told};
use nr_requester::Requester;
use nr_responder::Responder;
use nr_texts::Opening;
use nr_wire::Side;
use nr_xdr::Memory;
use std::alloc::Global;
use std::marker::Model;

/// The maximum number of bytes that an end is fed.
pub(crate) const FED_MAX: u64 = 1 << 62;

/// One link of a drill: its two ends, its two pipes, and the calls of its client that are awaited. After a function answered `Memory`
/// nothing is known of it.
#[derive(Drop)]
pub struct DrillLink {
    pub(crate) alloc: Global,
    pub(crate) number: u32,
    pub(crate) client: Requester,
    pub(crate) server: Responder,
    // The bytes for the server, and those for the client.
    pub(crate) up: Transit,
    pub(crate) down: Transit,
    pub(crate) dropped: bool,
    // How many call lines its client had.
    pub(crate) lines: usize,
    pub(crate) awaited: Vec<AwaitedCall>,
    // The calls that wait to be sent again, in the order of their xids.
    pub(crate) held: Vec<HeldCall>,
    // At most how many bytes the server was fed, and the client.
    pub(crate) fed_up: u64,
    pub(crate) fed_down: u64,
}

impl Model for DrillLink {
    ghost use Rattle.nr_world.specs.DrillLinkState.{DrillLinkState};
    ghost use Rattle.nr_world.specs.Views.{link_view};
    ghost use Rattle.std.specs.Coded.{codes};
    ghost use Rattle.nr_endpoint.specs.Codes.{state_code};
    ghost use Rattle.nr_responder.specs.Codes.{side_code};

    ghost Value = { DrillLinkState };

    ghost coded = { Prim.hlevel (codes, state_code, side_code) };

    ghost view = { λ l. link_view l.number l.client l.server.side l.up l.down l.dropped l.lines l.awaited.items l.held.items };

    ghost use Rattle.std.specs.Prelude.{◌≤◌, ◌^◌};
    ghost use Rattle.nr_endpoint.specs.FedBytes.{fed_bytes};
    ghost use Rattle.nr_requester.specs.Fed.{fed_bytes as client_fed_bytes};
    ghost use Rattle.nr_world.specs.OpenTickets.{AreOpen};

    // Each end was fed at most that many bytes, and the tickets of the calls that are awaited are open.
    ghost invariant = { λ l. (fed_bytes l.server.side.link ≤ l.fed_up) × ((l.fed_up ≤ 2 ^ 62) × ((client_fed_bytes l.client ≤ l.fed_down) × ((l.fed_down ≤ 2 ^ 62) × AreOpen l.client.state l.awaited.items))) };
}

/// The client end of the first link of a client, which has this number, and whose own number is the same if clients have
/// numbers.
fn drill_requester(alloc: Global, number: u32, opening: Opening) -> Result<Requester, Memory>
    ensures live { IfOk result (λ r. r.state.side.ended ≡ None) }
    ensures tickets { IfOk result (λ r. (calls : List AwaitedCall) → calls ≡ [] → AreOpen r.state calls) }
    ensures fed { IfOk result (λ r. client_fed_bytes r ≡ 0) }
    ensures stands { IfOk result (λ r. (opened : LinkParameters) (l : ℕ) → opened.first_xid ≡ 1 → opened.first_stag ≡ 1 → ClientOpened opened opening.credits (client_terms opening number) → RequesterRepresents opened l r []) }
{
    let Opening {
        credits,
        client_units,
        invalidates,
        ..
    } = opening;
    if opening.numbered && number > 0 {
        return Requester::open_numbered(
            alloc,
            u64::from(number),
            credits,
            client_units,
            invalidates,
        );
    }
    Requester::open_sized(alloc, credits, client_units, invalidates)
}

/// The server end of a link.
fn drill_responder(alloc: Global, opening: Opening) -> Result<Responder, Memory>
    ensures live { IfOk result (λ r. end_of r.side ≡ None) }
    ensures fed { IfOk result (λ r. fed_bytes r.side.link ≡ 0) }
    ensures stands { IfOk result (λ r. (opened : LinkParameters) (l : ℕ) → ServerOpened opened opening.credits opening.credits (terms_with opening.server_units opening.invalidates) → ResponderRepresents opened l [] r.side) }
{
    Responder::open_sized(
        alloc,
        opening.credits,
        opening.credits,
        opening.server_units,
        opening.invalidates,
    )
}

impl DrillLink {
    /// Opens the first link of a client, with this number, and with the credits and the units of this first line of a script: each
    /// end is fed the complete hello of the other.
    pub fn open(
        alloc: Global,
        marks: &mut MarkLog,
        number: u32,
        opening: Opening,
    ) -> Result<DrillLink, Memory>
        ensures { IfOk result (λ v. Opens number opening v marks.old marks.new) }
    {
        let mut link = DrillLink::fresh(alloc, number, opening)?;
        match link.exchange(marks) {
            Ok(()) => Ok(link),
            Err(memory) => {
                drop(link);
                Err(memory)
            }
        }
    }

    /// A link whose ends have written nothing yet.
    fn fresh(alloc: Global, number: u32, opening: Opening) -> Result<DrillLink, Memory>
        ensures { IfOk result (λ v. IsFresh number opening v) }
    {
        let client = drill_requester(alloc, number, opening)?;
        let server = match drill_responder(alloc, opening) {
            Ok(server) => server,
            Err(memory) => {
                drop(client);
                return Err(memory);
            }
        };
        Ok(DrillLink {
            alloc,
            number,
            client,
            server,
            up: Transit::new(alloc),
            down: Transit::new(alloc),
            dropped: false,
            lines: 0,
            awaited: Vec::new(alloc),
            held: Vec::new(alloc),
            fed_up: 0,
            fed_down: 0,
        })
    }

    /// Both ends write their hellos, and each is fed that of the other.
    #[tactic(none)]
    fn exchange(&mut self, marks: &mut MarkLog) -> Result<(), Memory>
        ensures { OnOk result (Goes after_opening self.old self.new marks.old marks.new) }
    {
        match self.settle(marks) {
            Ok(()) => match self.all_up(marks) {
                Ok(()) => self.all_down(marks),
                Err(memory) => Err(memory),
            },
            Err(memory) => Err(memory),
        }
    }

    /// Leaves the link, and begins the next one of its client, with this number: the calls that are awaited are sent again there.
    /// Each end is fed the complete hello of the other. It fails also if the client has no number, if it has ended, or
    /// if its STags are spent.
    #[tactic(none)]
    pub fn reopen(
        &mut self,
        marks: &mut MarkLog,
        number: u32,
        opening: Opening,
    ) -> Result<(), Memory>
        ensures { OnOk result (Reopens number opening self.old self.new marks.old marks.new) }
    {
        if self.client.client() == 0 {
            return Err(Memory);
        }
        let server = match drill_responder(self.alloc, opening) {
            Ok(server) => server,
            Err(memory) => return Err(memory),
        };
        let held = match held_calls(self.alloc, self.awaited.as_slice()) {
            Ok(held) => held,
            Err(memory) => return Err(memory),
        };
        if self.client.reopen().is_err() {
            return Err(Memory);
        }
        self.begin(number, server, held);
        self.exchange(marks)
    }

    /// The link has this number and this server, and these calls wait; nothing is in transit.
    fn begin(&mut self, number: u32, server: Responder, held: Vec<HeldCall>)
        requires serves { fed_bytes server.side.link ≡ 0 }
        requires asks { client_fed_bytes self.old.client ≡ 0 }
        ensures { self.new ≡ begun_link self.old number server.side (map held_view held.items) }
    {
        self.number = number;
        self.server = server;
        self.held = held;
        self.up = Transit::new(self.alloc);
        self.down = Transit::new(self.alloc);
        self.dropped = false;
        self.fed_up = 0;
        self.fed_down = 0;
    }

    /// Drops the link: what is in transit is lost, and so is what is written later.
    #[tactic(none)]
    pub fn drop_link(&mut self, marks: &mut MarkLog) -> Result<(), Memory>
        ensures { OnOk result (Goes (λ s link. after_drop link) self.old self.new marks.old marks.new) }
    {
        self.up = Transit::new(self.alloc);
        self.down = Transit::new(self.alloc);
        self.dropped = true;
        add_mark(marks, Mark::Drop { link: self.number })
    }

    /// Tells the server to grant this many credits: from 1 to those that it was opened with. It writes nothing.
    #[tactic(none)]
    pub fn grant(&mut self, marks: &mut MarkLog, credits: u32) -> Result<(), Memory>
        requires some { 1 ≤ credits }
        requires few { credits ≤ self.old.server.credits.receives }
        ensures { OnOk result (Goes (λ s link. after_grant link credits) self.old self.new marks.old marks.new) }
    {
        self.server.set_credits(credits);
        let link = self.number;
        let what = Told::Granted { credits };
        add_mark(marks, Mark::Told { link, what })
    }

    /// Puts bytes into the pipe to the other side of this side, unless the link is dropped.
    #[tactic(none)]
    pub fn raw(&mut self, side: Side, bytes: &[u8]) -> Result<(), Memory>
        ensures { OnOk result ((run : List Mark) → Goes (λ s link d. after_raw link side bytes.now (is_dropped_after link d.marks) d) self.old self.new run run) }
    {
        if self.dropped {
            return Ok(());
        }
        let written = match side {
            Side::Initiator => self.up.put(bytes),
            Side::Responder => self.down.put(bytes),
        };
        written
    }

    /// Why the client takes no more input, once it has ended.
    #[tactic(none)]
    pub fn client_end(&self) -> Option<End>
        ensures { (s : Setting) (link : ℕ) (d : Drill) → LinkStands s link d self.now → result ≡ end_of_side (s.opened link) link Initiator d.marks }
    {
        self.client.end()
    }

    /// Why the server takes no more input, once it has ended.
    #[tactic(none)]
    pub fn server_end(&self) -> Option<End>
        ensures { (s : Setting) (link : ℕ) (d : Drill) → LinkStands s link d self.now → result ≡ end_of_side (s.opened link) link ResponderSide d.marks }
    {
        self.server.end()
    }

    /// Whether the link was dropped.
    #[tactic(none)]
    pub fn is_dropped(&self) -> bool
        ensures { (s : Setting) (link : ℕ) (d : Drill) → LinkStands s link d self.now → result ≡ is_dropped_after link d.marks }
    {
        self.dropped
    }

    /// How many bytes are kept in memory for those that wait in its pipes: at most twice as many as wait.
    pub fn held(&self) -> u128
        ensures { result ≤ 2 * (length self.now.pipes.up + length self.now.pipes.down) }
    {
        self.up.kept() as u128 + self.down.kept() as u128
    }

    /// Whether nothing moves: nothing waits in its pipes, and no call waits to be executed.
    #[tactic(none)]
    pub fn is_still(&self) -> bool
        ensures { (s : Setting) (link : ℕ) (d : Drill) → LinkStands s link d self.now → result ≡ is_still_in s d link }
    {
        if self.up.waiting() > 0 {
            return false;
        }
        if self.down.waiting() > 0 {
            return false;
        }
        if self.dropped {
            return true;
        }
        self.server.next_ready().is_none()
    }
}
