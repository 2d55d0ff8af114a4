//! Calls that are executed, and a round of a link.

ghost use Rattle.std.specs.Prelude.{◌≡◌, ◌≤◌, length, None, false, OnOk};
ghost use Rattle.nr_plain.specs.ReplySizes.{any_reply_max};
ghost use Rattle.nr_responder.specs.ResponderState.{end_of};
ghost use Rattle.nr_responder.specs.Sound.{IsNext};
ghost use Rattle.nr_drill.specs.Drill.{after_work, after_all_work, after_moves};
ghost use Rattle.nr_world.specs.Steps.{Executes, Works};
ghost use Rattle.nr_world.specs.private.Working.{AnswersWith, TellsOld};

use crate::draining::add_mark;
use crate::link::DrillLink;
use crate::server::{DrillServer, Execution};
use nr_link::End;
use nr_link::constants::REASON_OLD;
use nr_marks::MarkLog;
use nr_outside::Moment;
use nr_reduce::{Mark, Told};
use nr_responder::CallId;
use nr_xdr::{Memory, Octets};

impl DrillLink {
    /// Queues the answer to the next call, which was executed.
    #[tactic(none)]
    fn give_answer(
        &mut self,
        marks: &mut MarkLog,
        call: CallId,
        payload: Octets,
        execution: Execution,
    ) -> Result<(), Memory>
        requires standing { self.old.is_dropped ≡ false }
        requires live { end_of self.old.server ≡ None }
        requires next { IsNext self.old.server call }
        requires short { length execution.reply ≤ any_reply_max }
        ensures { OnOk result (AnswersWith call payload execution self.old self.new marks.old marks.new) }
    {
        let xid = call.xid();
        let Execution {
            second,
            place,
            reply,
        } = execution;
        if self.server.answer(call, reply.as_slice()).is_err() {
            return Err(Memory);
        }
        let executed = Mark::Execute {
            link: self.number,
            xid,
            moment: Moment {
                seconds: second,
                nanos: 0,
            },
            payload,
            place,
            reply,
        };
        add_mark(marks, executed)
    }

    /// The next call is old: the server ends for that.
    #[tactic(none)]
    fn tell_old(&mut self, marks: &mut MarkLog, call: CallId) -> Result<(), Memory>
        requires live { end_of self.old.server ≡ None }
        requires next { IsNext self.old.server call }
        ensures { OnOk result (TellsOld call self.old self.new marks.old marks.new) }
    {
        let xid = call.xid();
        let at = match self.server.stop(REASON_OLD) {
            End::Bad { at, .. } => at,
            _ => return Err(Memory),
        };
        let link = self.number;
        let what = Told::Old { xid, at };
        add_mark(marks, Mark::Told { link, what })
    }

    /// Executes the next call at this second, and queues its answer, unless it is old.
    #[tactic(none)]
    fn execute(
        &mut self,
        marks: &mut MarkLog,
        server: &mut DrillServer,
        seconds: u32,
        call: CallId,
    ) -> Result<(), Memory>
        requires standing { self.old.is_dropped ≡ false }
        requires live { end_of self.old.server ≡ None }
        requires next { IsNext self.old.server call }
        ensures { OnOk result (Executes seconds self.old self.new marks.old marks.new server.old server.new) }
    {
        let Ok(payload) = Octets::from_slice(self.alloc, self.server.payload(&call)) else {
            return Err(Memory);
        };
        let client = self.server.client();
        let executed = match server.execute(self.alloc, client, seconds, payload.as_slice()) {
            Ok(executed) => executed,
            Err(memory) => return Err(memory),
        };
        match executed {
            Some(execution) => self.give_answer(marks, call, payload, execution),
            None => self.tell_old(marks, call),
        }
    }

    /// Executes the next complete call at this second, if there is one and the link isn't dropped, and writes the answer.
    #[tactic(none)]
    pub fn work(
        &mut self,
        marks: &mut MarkLog,
        server: &mut DrillServer,
        seconds: u32,
    ) -> Result<(), Memory>
        ensures { OnOk result (Works after_work seconds self.old self.new marks.old marks.new server.old server.new) }
    {
        if self.dropped {
            return Ok(());
        }
        let Some(call) = self.server.next_ready() else {
            return Ok(());
        };
        match self.execute(marks, server, seconds, call) {
            Ok(()) => self.settle(marks),
            Err(memory) => Err(memory),
        }
    }

    /// Executes all calls that are complete. Each of them is unanswered, and executing one completes no other.
    #[tactic(none)]
    fn all_work(
        &mut self,
        marks: &mut MarkLog,
        server: &mut DrillServer,
        seconds: u32,
    ) -> Result<(), Memory>
        ensures { OnOk result (Works after_all_work seconds self.old self.new marks.old marks.new server.old server.new) }
    {
        let unanswered = self.server.unanswered();
        for _at in 0..unanswered {
            match self.work(marks, server, seconds) {
                Ok(()) => {}
                Err(memory) => return Err(memory),
            }
        }
        Ok(())
    }

    /// All bytes go up, all complete calls are executed, and all bytes go down.
    #[tactic(none)]
    pub fn moves(
        &mut self,
        marks: &mut MarkLog,
        server: &mut DrillServer,
        seconds: u32,
    ) -> Result<(), Memory>
        ensures { OnOk result (Works after_moves seconds self.old self.new marks.old marks.new server.old server.new) }
    {
        match self.all_up(marks) {
            Ok(()) => {}
            Err(memory) => return Err(memory),
        }
        match self.all_work(marks, server, seconds) {
            Ok(()) => self.all_down(marks),
            Err(memory) => Err(memory),
        }
    }
}
