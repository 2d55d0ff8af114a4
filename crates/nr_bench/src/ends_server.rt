//! The server's end of a link, as a sink of what the client's end writes.

ghost use Rattle.std.specs.Prelude.{◌≡◌, ◌≤◌, length, None, IfOk, OnOk, OnErr};
ghost use Rattle.nr_outside.specs.Faults.{next_count};

use crate::ends_link::fed_after;
use nr_outside::{Failed, Moment, Sink};
use nr_responder::Responder;
use std::alloc::Global;
use std::marker::Model;

/// The moment of each call.
const NOW: Moment = Moment {
    seconds: 1,
    nanos: 0,
};

/// An end; at least as many bytes as it was fed, until it refuses some; how many pieces of the client's stream it refused.
#[derive(Drop)]
pub struct Server {
    end: Responder,
    fed: Option<u64>,
    faults: u64,
}

impl Model for Server {
    ghost use Rattle.std.specs.Prelude.{◌≤◌, ℕ, IfSome};
    ghost use Rattle.nr_endpoint.specs.FedBytes.{fed_bytes};

    ghost Value = { ℕ };

    ghost view = { λ s. s.faults };

    ghost invariant = { λ s. IfSome s.fed (λ n. fed_bytes s.end.side.link ≤ n) };
}

impl Sink for Server {
    ghost faults = { λ s. s };

    ghost taken = { λ _. None };

    /// Feeds the end a piece of the client's stream.
    fn write(&mut self, piece: &[u8]) -> Result<usize, Failed>
        ensures count { IfOk result (λ n. n ≡ length piece.now) }
        ensures ok { OnOk result (self.new ≡ self.old) }
        ensures err { OnErr result (self.new ≡ next_count self.old) }
        ensures never_falls { self.old ≤ self.new }
    {
        if let Some(fed) = fed_after(self.fed, piece.len() as u64) {
            if let Ok(()) = self.end.feed(piece) {
                self.fed = Some(fed);
                return Ok(piece.len());
            }
        }
        self.fed = None;
        self.faults = self.faults.saturating_add(1);
        Err(Failed)
    }
}

impl Server {
    /// An end to which no call has come.
    pub fn open(alloc: Global, credits: u32) -> Option<Server> {
        match Responder::open(alloc, credits) {
            Ok(end) => Some(Server {
                end,
                fed: Some(0),
                faults: 0,
            }),
            Err(_) => None,
        }
    }

    /// Hands what may be written to a sink.
    pub fn drain<K: Sink>(&mut self, sink: &mut K) {
        let _ = self.end.drain_into(sink);
    }

    /// Whether a call is ready.
    pub fn is_ready(&self) -> bool {
        self.end.next_ready().is_some()
    }

    /// Executes and answers the next call, if one is ready.
    pub fn work(&mut self, alloc: Global, plain: &mut nr_plain::Server) -> Option<()> {
        let call = self.end.next_ready()?;
        let Ok(reply) = plain.execute(alloc, NOW, self.end.payload(&call)) else {
            return None;
        };
        match self.end.answer(call, reply.payload.as_slice()) {
            Ok(_) => Some(()),
            Err(_) => None,
        }
    }
}
