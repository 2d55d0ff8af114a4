//! The plain server of a drill.

ghost use Rattle.std.specs.Prelude.{◌≡◌, List, [], ◌++◌, nat_lt, length, get_or, IfOk, OnOk, MatchOption};
ghost use Rattle.nr_xdr.specs.Item.{IsBytes};
ghost use Rattle.nr_reduce.specs.declared.mark.Entry.{Entry};
ghost use Rattle.nr_plain.specs.Setup.{Setup};
ghost use Rattle.nr_plain.specs.Stands.{RepresentsJournal};
ghost use Rattle.nr_world.specs.DrillServers.{ExecutesCall, FindsOld, seconds_if};

use nr_outside::Moment;
use nr_plain::{Fault, Reply, Server};
use nr_xdr::{Memory, Octets};
use std::alloc::Global;
use std::marker::Model;

/// A plain server, and the second of the clock at which each entry of its journal was made: a call that is kept is executed at
/// the moment of its entry.
#[derive(Drop)]
pub struct DrillServer {
    server: Server,
    // In the order of the journal.
    seconds: Vec<u32>,
}

impl Model for DrillServer {
    ghost use Rattle.nr_world.specs.DrillServers.{DrillServerState, drill_server_code};

    ghost Value = { DrillServerState };

    ghost coded = { drill_server_code };

    ghost view = { λ s. record { server = s.server; seconds = s.seconds.items } };
}

/// A call that was executed.
#[derive(Drop)]
pub struct Execution {
    /// What the clock showed: now, or when the entry of a kept call was made.
    pub second: u32,
    /// How many entries the journal had before the call.
    pub place: u64,
    /// The RPC reply.
    pub reply: Octets,
}

/// That a slice is bytes, for the proofs. It does nothing.
fn is_bytes(bytes: &[u8])
    ensures { IsBytes bytes.now }
{
    let _ = bytes;
}

impl DrillServer {
    /// The server of a drill in which nothing happened.
    pub fn new(alloc: Global, server: Server) -> DrillServer
        ensures { result ≡ record { server = server; seconds = [] } }
    {
        DrillServer {
            server,
            seconds: Vec::new(alloc),
        }
    }

    /// The second at which the entry at a place was made, or `now` if there is none.
    fn second_at(&self, place: u64, now: u32) -> u32
        ensures { result ≡ get_or self.now.seconds place now }
    {
        match self.seconds.as_slice().get(place as usize) {
            Some(second) => *second,
            None => now,
        }
    }

    /// Adds the second of an entry, if the journal has more of them than `before`.
    fn note_entry(&mut self, before: u64, now: u32) -> Result<(), Memory>
        ensures { OnOk result ((self.new.server ≡ self.old.server) × ((s : Setup) (J : List Entry) → RepresentsJournal s J self.old.server → self.new.seconds ≡ self.old.seconds ++ seconds_if (nat_lt before (length J)) now)) }
    {
        if self.server.journal_len() <= before {
            return Ok(());
        }
        match self.seconds.push(now) {
            Ok(()) => Ok(()),
            Err(_) => Err(Memory),
        }
    }

    /// Executes a call of the client with this number, 0 if it has none, at this second. `None` if the call is old: then it
    /// isn't executed. Of a call that is kept the reply is given again, and nothing changes.
    ///
    /// # Errors
    ///
    /// [`Memory`] if memory ran out, or if the payload has no call head; each call that is complete has one.
    pub fn execute(
        &mut self,
        alloc: Global,
        client: u64,
        now: u32,
        payload: &[u8],
    ) -> Result<Option<Execution>, Memory>
        ensures { IfOk result (λ r. MatchOption r (FindsOld client payload.now self.old self.new) (λ e. ExecutesCall client now payload.now e self.old self.new)) }
    {
        is_bytes(payload);
        let before = self.server.journal_len();
        let moment = Moment {
            seconds: now,
            nanos: 0,
        };
        let Reply {
            payload: reply,
            place,
        } = match self.server.execute_for(alloc, client, moment, payload) {
            Ok(reply) => reply,
            Err(Fault::Old { .. }) => return Ok(None),
            Err(_) => return Err(Memory),
        };
        is_bytes(reply.as_slice());
        let second = self.second_at(place, now);
        self.note_entry(before, now)?;
        Ok(Some(Execution {
            second,
            place,
            reply,
        }))
    }
}
