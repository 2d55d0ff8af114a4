//! The number of a link's client, and a call that is refused since it is old.

ghost use Rattle.std.specs.Prelude.{◌≡◌, ◌≢◌, ℕ, ◌≤◌, List, [], ◌∷◌, ◌++◌, None, Some};
ghost use Rattle.nr_endpoint.specs.FedBytes.{fed_bytes};
ghost use Rattle.nr_link.specs.Frames.{frames_of};
ghost use Rattle.nr_link.specs.Reasons.{REASON_OLD};
ghost use Rattle.nr_link.specs.declared.end.End.TheVariants as ends;
ghost use Rattle.nr_reduce.specs.History.{bytes_received};
ghost use Rattle.nr_reduce.specs.NumberedJournal.{number_heard};
ghost use Rattle.nr_reduce.specs.Served.{last_frame_at};
ghost use Rattle.nr_reduce.specs.declared.mark.LinkParameters.{LinkParameters};
ghost use Rattle.nr_reduce.specs.declared.mark.Mark.{Mark};
ghost use Rattle.nr_reduce.specs.declared.mark.Mark.TheVariants as marks;
ghost use Rattle.nr_reduce.specs.declared.mark.Told.TheVariants.{Old};
ghost use Rattle.nr_responder.specs.HeldBytes.{KeptFits};
ghost use Rattle.nr_responder.specs.ResponderState.{end_of};
ghost use Rattle.nr_responder.specs.Sound.{state_of, ServerEndInvariant, WindowsInvariant};
ghost use Rattle.nr_responder.specs.Standing.{RepresentsSome, ResponderRepresents};
ghost use Rattle.nr_wire.specs.declared.hello.Side.TheVariants.{Initiator, Responder as ResponderSide};

use crate::server_end::ServerEnd;
use nr_link::End;

impl ServerEnd {
    /// The number of the link's client.
    pub fn client(&self) -> u64
        ensures exact { result ≡ self.now.endpoint.link.state.client }
        ensures of_run { end_of (state_of self.now) ≡ None → (opened : LinkParameters) (link : ℕ) (run : List Mark) → ResponderRepresents opened link run (state_of self.now) → result ≡ number_heard run link }
        ensures heard { end_of (state_of self.now) ≡ None → (state_of self.now).ready ≢ [] → (opened : LinkParameters) (link : ℕ) (run : List Mark) → ResponderRepresents opened link run (state_of self.now) →
            frames_of Initiator (bytes_received link ResponderSide run) ≢ [] }
    {
        self.endpoint.client()
    }

    /// The next call is old: the side ends for that, or because memory ran out for its Terminate; answers which.
    pub fn stop(&mut self, reason: u32) -> End
        requires sound { ServerEndInvariant self.old }
        requires live { end_of (state_of self.old) ≡ None }
        requires next { (state_of self.old).ready ≢ [] }
        requires reason { reason ≡ REASON_OLD }
        requires stands { RepresentsSome (state_of self.old) }
        ensures ended { end_of (state_of self.new) ≡ Some result }
        ensures end { result ≢ ends.Memory → result ≡ ends.Bad self.old.endpoint.link.state.last reason }
        ensures last { (opened : LinkParameters) (link : ℕ) (run : List Mark) → ResponderRepresents opened link run (state_of self.old) → self.old.endpoint.link.state.last ≡ last_frame_at link run }
        ensures stands { (opened : LinkParameters) (link : ℕ) (run : List Mark) (xid : ℕ) → ResponderRepresents opened link run (state_of self.old) →
            ResponderRepresents opened link (run ++ marks.Told link (Old xid (last_frame_at link run)) ∷ []) (state_of self.new) }
        ensures bounded { KeptFits (state_of self.old) → KeptFits (state_of self.new) }
        ensures fed { fed_bytes self.new.endpoint.link ≤ fed_bytes self.old.endpoint.link }
        ensures staging { self.new.endpoint.staging ≡ self.old.endpoint.staging }
        ensures windows { WindowsInvariant self.new }
        ensures sound { ServerEndInvariant self.new }
    {
        self.end_for(reason);
        match self.endpoint.end() {
            Some(end) => end,
            // It has just ended.
            None => unreachable!(),
        }
    }
}
