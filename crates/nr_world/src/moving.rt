//! Bytes that move from one end to the other.

ghost use Rattle.std.specs.Prelude.{◌≡◌, ◌≢◌, false, Err, OnOk};
ghost use Rattle.nr_link.specs.declared.end.End.TheVariants as ends;
ghost use Rattle.nr_drill.specs.Drill.{after_feeding_up, after_up, after_feeding_down, after_resends, after_outcomes, after_down, after_all_up, after_all_down};
ghost use Rattle.nr_world.specs.Steps.{Goes};

use crate::draining::add_mark;
use crate::link::{DrillLink, FED_MAX};
use nr_link::End;
use nr_marks::MarkLog;
use nr_reduce::Mark;
use nr_wire::Side;
use nr_xdr::{Memory, Octets};

/// Whether memory ran out for what an end was fed.
fn ran_out(fed: Result<(), End>) -> bool
    ensures { result ≡ false → fed ≢ Err ends.Memory }
{
    match fed {
        Ok(()) => false,
        Err(End::Bad { .. }) => false,
        Err(End::Denied { .. }) => false,
        Err(End::NoBuffer { .. }) => false,
        Err(End::Terminated { .. }) => false,
        Err(End::Memory) => true,
    }
}

impl DrillLink {
    /// Feeds the server the next bytes that wait for it, at most `most`, if there are any.
    #[tactic(none)]
    fn feed_up(&mut self, marks: &mut MarkLog, most: usize) -> Result<(), Memory>
        ensures { OnOk result (Goes (λ s link. after_feeding_up link most) self.old self.new marks.old marks.new) }
    {
        let piece = self.up.peek(most);
        if piece.is_empty() {
            return Ok(());
        }
        if piece.len() as u64 > FED_MAX - self.fed_up {
            return Err(Memory);
        }
        let bytes = match Octets::from_slice(self.alloc, piece) {
            Ok(bytes) => bytes,
            Err(memory) => return Err(memory),
        };
        self.fed_up += bytes.len() as u64;
        if ran_out(self.server.feed(bytes.as_slice())) {
            return Err(Memory);
        }
        self.up.skip(self.alloc, most);
        let fed = Mark::Fed {
            link: self.number,
            side: Side::Responder,
            bytes,
        };
        add_mark(marks, fed)
    }

    /// Feeds the server the next bytes that wait for it, at most `most`; then what is due is written.
    #[tactic(none)]
    pub fn up(&mut self, marks: &mut MarkLog, most: usize) -> Result<(), Memory>
        ensures { OnOk result (Goes (λ s link. after_up s link most) self.old self.new marks.old marks.new) }
    {
        match self.feed_up(marks, most) {
            Ok(()) => self.settle(marks),
            Err(memory) => Err(memory),
        }
    }

    /// Feeds the client the next bytes that wait for it, at most `most`, if there are any. It sends calls again, as the grant
    /// allows.
    #[tactic(none)]
    fn feed_down(&mut self, marks: &mut MarkLog, most: usize) -> Result<(), Memory>
        ensures { OnOk result (Goes (λ s link d. after_resends s link (after_feeding_down link most d)) self.old self.new marks.old marks.new) }
    {
        let piece = self.down.peek(most);
        if piece.is_empty() {
            return Ok(());
        }
        if piece.len() as u64 > FED_MAX - self.fed_down {
            return Err(Memory);
        }
        let bytes = match Octets::from_slice(self.alloc, piece) {
            Ok(bytes) => bytes,
            Err(memory) => return Err(memory),
        };
        self.fed_down += bytes.len() as u64;
        if ran_out(self.client.feed(bytes.as_slice())) {
            return Err(Memory);
        }
        self.down.skip(self.alloc, most);
        let fed = Mark::Fed {
            link: self.number,
            side: Side::Initiator,
            bytes,
        };
        match add_mark(marks, fed) {
            Ok(()) => self.note_resends(marks),
            Err(memory) => Err(memory),
        }
    }

    /// Feeds the client the next bytes that wait for it, at most `most`, and hands over the outcomes that are due.
    #[tactic(none)]
    fn feed_and_hand_over(&mut self, marks: &mut MarkLog, most: usize) -> Result<(), Memory>
        ensures { OnOk result (Goes (λ s link d. after_outcomes s link (after_resends s link (after_feeding_down link most d))) self.old self.new marks.old marks.new) }
    {
        match self.feed_down(marks, most) {
            Ok(()) => self.hand_over(marks),
            Err(memory) => Err(memory),
        }
    }

    /// Feeds the client the next bytes that wait for it, at most `most`, and hands over the outcomes that are due; then what is due is
    /// written.
    #[tactic(none)]
    pub fn down(&mut self, marks: &mut MarkLog, most: usize) -> Result<(), Memory>
        ensures { OnOk result (Goes (λ s link. after_down s link most) self.old self.new marks.old marks.new) }
    {
        match self.feed_and_hand_over(marks, most) {
            Ok(()) => self.settle(marks),
            Err(memory) => Err(memory),
        }
    }

    /// Feeds the server all bytes that wait for it; then what is due is written.
    #[tactic(none)]
    pub(crate) fn all_up(&mut self, marks: &mut MarkLog) -> Result<(), Memory>
        ensures { OnOk result (Goes after_all_up self.old self.new marks.old marks.new) }
    {
        let most = self.up.waiting();
        self.up(marks, most)
    }

    /// Feeds the client all bytes that wait for it, hands over the outcomes that are due, and writes what is due.
    #[tactic(none)]
    pub(crate) fn all_down(&mut self, marks: &mut MarkLog) -> Result<(), Memory>
        ensures { OnOk result (Goes after_all_down self.old self.new marks.old marks.new) }
    {
        let most = self.down.waiting();
        self.down(marks, most)
    }
}
