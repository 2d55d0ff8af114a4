//! Whether a new call may be submitted.

ghost use Rattle.std.specs.Prelude.{◌≡◌, ◌<◌, false, not, ◌&&◌, ◌==◌, length};
ghost use Rattle.nr_requester.specs.MaySubmit.{is_far, may_submit};
ghost use Rattle.nr_requester.specs.Sending.{least_stored};

use crate::requester::Requester;

impl Requester {
    /// Whether the next xid isn't too far above the least one of an outstanding call, and no Send is held back.
    fn is_free(&self) -> bool
        ensures { result ≡ ((length self.now.state.side.send_queue.held == 0) && not (is_far self.now.state.side.terms.number self.now.state.next_xid (least_stored self.now.state.outstanding))) }
    {
        self.endpoint.sends_held() == 0 && self.beyond_window().is_none()
    }

    fn may_submit_now(&self) -> bool
        ensures { result ≡ may_submit self.now.state }
    {
        self.outstanding.len() < self.grant as usize && (self.end().is_some() || self.is_free())
    }

    /// Whether a new call would be refused neither with `NoCredit` nor with `Window`: a credit is left, and, if the client has a number, the
    /// next xid is less than 64 above the least one of an outstanding call. One that has ended tells only whether a credit is left. If not,
    /// a call is outstanding. Takes no memory.
    pub fn may_submit(&self) -> bool
        ensures says { result ≡ may_submit self.now.state }
        ensures waits { result ≡ false → 0 < length self.now.state.outstanding }
    {
        self.facts();
        self.list_facts();
        self.may_submit_now()
    }
}
