//! A script is run.

ghost use Rattle.std.specs.Prelude.{◌≡◌, ◌≤◌, [], IfOk, OnOk, length};
ghost use Rattle.nr_texts.specs.Limits.{clients_max};
ghost use Rattle.nr_drill.specs.DrillSetup.{GivesReport};
ghost use Rattle.nr_world.specs.private.Results.{AreEndsOf, ReportsWorld};

use crate::world::World;
use nr_drill::{LinkEnds, Report, report_of};
use nr_script::Script;
use nr_xdr::Memory;
use std::alloc::Global;

impl World {
    /// What the link that each client has now came to, in order.
    fn push_ends(&self, ends: &mut Vec<LinkEnds>) -> Result<(), Memory>
        requires { ends.old.items ≡ [] }
        ensures ends { OnOk result (AreEndsOf self.now ends.new.items) }
        ensures len { OnOk result (length ends.new.items ≡ length self.now.links.items) }
    {
        for at in 0..self.links.len() {
            let link = &self.links[at];
            ends.push(LinkEnds {
                client: link.client_end(),
                server: link.server_end(),
                dropped: link.is_dropped(),
            })?;
        }
        Ok(())
    }

    /// The report of the drill.
    fn report(self, alloc: Global) -> Result<Report, Memory>
        requires { length self.links.items ≤ clients_max }
        ensures { IfOk result (ReportsWorld self) }
    {
        let mut ends = Vec::new(alloc);
        match self.push_ends(&mut ends) {
            Ok(()) => report_of(alloc, self.marks, self.owners.as_slice(), ends.as_slice()),
            Err(memory) => Err(memory),
        }
    }
}

/// Runs a script, and reports the drill. It fails if memory runs out, or if a mark would have 2^32 bytes or more.
pub fn run_world(alloc: Global, script: &Script) -> Result<Report, Memory>
    ensures { IfOk result (λ report. GivesReport script.now report) }
{
    let opening = script.opening();
    let mut world = World::open(alloc, opening)?;
    match world.all_lines(alloc, script.lines()) {
        Ok(()) => world.report(alloc),
        Err(memory) => {
            drop(world);
            Err(memory)
        }
    }
}
