//! Calls are sent again on the next connection, as its grant allows.

ghost use Rattle.std.specs.Prelude.{◌≡◌, ◌<◌, ◌&&◌, nat_lt, length, None};
ghost use Rattle.nr_requester.specs.Resends.{after_resend, may_resend, with_resends};
ghost use Rattle.nr_requester.specs.private.Resuming.{first_message};

use crate::requester::{Requester, marks_if};

impl Requester {
    /// Whether a call can be sent again now: one waits, the server's hello was accepted, and a credit is left beside the calls that don't wait.
    fn may_resend(&self) -> bool
        ensures { result ≡ (nat_lt 0 (length self.now.state.side.send_queue.held) && may_resend self.now.state) }
    {
        let held = self.endpoint.sends_held();
        held > 0
            && self.endpoint.has_hello()
            && (self.outstanding.len().saturating_sub(held) as u32) < self.grant
    }

    /// Queues the first Send that is held back.
    fn resend_one(&mut self)
        requires live { self.old.state.side.ended ≡ None }
        requires some { 0 < length self.old.state.side.send_queue.held }
        ensures { self.new ≡ after_resend self.old (first_message self.old.state.side.send_queue.held) }
    {
        self.endpoint.send_held();
        self.sends += 1;
        self.marks = marks_if(true, self.marks);
    }

    /// Sends all calls again that can be, in their order. Takes no memory.
    pub(crate) fn resend(&mut self)
        requires { self.old.state.side.ended ≡ None }
        ensures { self.new ≡ with_resends self.old }
    {
        'resends: while self.may_resend() {
            self.resend_one();
        }
    }
}
