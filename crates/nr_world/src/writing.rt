//! What is due is written.

ghost use Rattle.std.specs.Prelude.{OnOk};
ghost use Rattle.nr_wire.specs.declared.hello.Side.TheVariants.{Initiator, Responder as ResponderSide};
ghost use Rattle.nr_drill.specs.Drill.{after_all_output, settled};
ghost use Rattle.nr_world.specs.Steps.{Goes};

use crate::draining::{client_output, put_output, server_output};
use crate::link::DrillLink;
use nr_marks::MarkLog;
use nr_reduce::Mark;
use nr_wire::Side;
use nr_xdr::Memory;

impl DrillLink {
    /// The client writes what it has to write, if anything.
    #[tactic(none)]
    fn write_up(&mut self, marks: &mut MarkLog) -> Result<(), Memory>
        ensures { OnOk result (Goes (λ s link. after_all_output s link Initiator) self.old self.new marks.old marks.new) }
    {
        let bytes = match client_output(self.alloc, &mut self.client) {
            Ok(bytes) => bytes,
            Err(memory) => return Err(memory),
        };
        if bytes.is_empty() {
            return Ok(());
        }
        put_output(&mut self.up, marks, self.number, Side::Initiator, bytes)
    }

    /// The server writes what it has to write, if anything.
    #[tactic(none)]
    fn write_down(&mut self, marks: &mut MarkLog) -> Result<(), Memory>
        ensures { OnOk result (Goes (λ s link. after_all_output s link ResponderSide) self.old self.new marks.old marks.new) }
    {
        let bytes = match server_output(self.alloc, &mut self.server) {
            Ok(bytes) => bytes,
            Err(memory) => return Err(memory),
        };
        if bytes.is_empty() {
            return Ok(());
        }
        put_output(&mut self.down, marks, self.number, Side::Responder, bytes)
    }

    /// Both ends write what they have to write, the client first.
    #[tactic(none)]
    pub(crate) fn settle(&mut self, marks: &mut MarkLog) -> Result<(), Memory>
        ensures { OnOk result (Goes settled self.old self.new marks.old marks.new) }
    {
        match self.write_up(marks) {
            Ok(()) => self.write_down(marks),
            Err(memory) => Err(memory),
        }
    }
}
