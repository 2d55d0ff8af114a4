//! The server as a value in a turnstile.

ghost use Rattle.std.specs.Prelude.{◌≡◌, ◌<◌, ◌≤◌, ◌^◌, [], List, length, IfOk, IfErr, IsOk, MatchBool};
ghost use Rattle.nr_reduce.specs.declared.mark.TaggedEntry.{TaggedEntry};
ghost use Rattle.nr_rpc.specs.Reading.{call_of};
ghost use Rattle.nr_xdr.specs.Item.{IsBytes};
ghost use Rattle.nr_plain.specs.Setup.{Setup};
ghost use Rattle.nr_plain.specs.Numbered.{AnswersFor, IsNumberedCause, LeavesServer, RepresentsTagged, added_for};
ghost use Rattle.nr_plain.specs.ReplySizes.{any_reply_max};
ghost use Rattle.nr_plain.specs.private.Executing.{IsOne};

use crate::fault::Fault;
use crate::history_entry::HistoryEntry;
use crate::server::{Reply, Server};
use nr_outside::Moment;
use nr_turnstile::Machine;
use std::alloc::Global;

impl Machine for Server {
    ghost use Rattle.nr_plain.specs.History.{closes_none};
    ghost use Rattle.nr_plain.specs.Turns.{StandsFor};

    type Entry = HistoryEntry;

    ghost stands = { StandsFor };

    ghost closes = { closes_none };

    fn entries(&self) -> u64 {
        self.journal_len() + 1
    }
}

impl Server {
    /// Answers a call of the client with this number, 0 if it has none, and tells whether the call added an entry to the
    /// journal.
    pub(crate) fn execute_once(
        &mut self,
        alloc: Global,
        client: u64,
        now: Moment,
        payload: &[u8],
    ) -> Result<(Reply, bool), Fault>
        ensures answered { IfOk result (λ r. (s : Setup) (T : List TaggedEntry) → RepresentsTagged s T self.old → AnswersFor s T client now payload.now r.0.payload r.0.place self.old self.new) }
        ensures adds { IfOk result (λ r. (s : Setup) (T : List TaggedEntry) → RepresentsTagged s T self.old →
            MatchBool r.1 (IsOne (added_for s T (record { client = client; moment = now; payload = payload.now; reply = r.0.payload })))
            (added_for s T (record { client = client; moment = now; payload = payload.now; reply = r.0.payload }) ≡ [])) }
        ensures call { IfOk result (λ _. IsOk (call_of payload.now)) }
        ensures cause { IfErr result (λ e. (s : Setup) (T : List TaggedEntry) → RepresentsTagged s T self.old → IsNumberedCause s T client payload.now e) }
        ensures limit { IfOk result (λ r. length r.0.payload ≤ any_reply_max) }
        ensures room { IfOk result (λ _. (s : Setup) (T : List TaggedEntry) → RepresentsTagged s T self.old → length T < 2 ^ 60) }
        ensures bytes { IsBytes payload.now }
        ensures err { IfErr result (λ e. LeavesServer e self.old self.new) }
    {
        let before = self.journal_len();
        let reply = match self.execute_for(alloc, client, now, payload) {
            Ok(reply) => reply,
            Err(fault) => return Err(fault),
        };
        let grew = self.journal_len() > before;
        Ok((reply, grew))
    }
}
