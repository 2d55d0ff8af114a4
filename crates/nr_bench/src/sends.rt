//! Two endpoints alone, and two Sends over them, which are as long as those of a NULL call and of its reply.

ghost use Rattle.std.specs.Prelude.{◌≡◌, ◌+◌, ◌≤◌, ◌<◌, ◌^◌, length, None, IfOk, IfSome, OnOk, OnErr};
ghost use Rattle.std.specs.Bool.{OnTrue};
ghost use Rattle.nr_outside.specs.Faults.{next_count};
ghost use Rattle.nr_endpoint.specs.FedBytes.{fed_bytes};

use crate::ends_link::fed_after;
use nr_endpoint::{Endpoint, Event};
use nr_link::SideTerms;
use nr_outside::{Failed, Sink};
use nr_wire::Side;
use std::alloc::Global;
use std::marker::Model;

/// As many bytes as the message of a NULL call has, and as that of its reply has.
static CALL: [u8; 68] = [1; 68];

static REPLY: [u8; 52] = [2; 52];

/// An endpoint; a bound on the bytes that it was fed, `None` once it refused some; how many pieces of the peer's stream it refused.
#[derive(Drop)]
struct Peer {
    endpoint: Endpoint,
    fed: Option<u64>,
    faults: u64,
}

impl Model for Peer {
    ghost use Rattle.std.specs.Prelude.{◌≤◌, ℕ, IfSome};
    ghost use Rattle.nr_endpoint.specs.FedBytes.{fed_bytes};

    ghost Value = { ℕ };

    ghost view = { λ p. p.faults };

    ghost invariant = { λ p. IfSome p.fed (λ n. fed_bytes p.endpoint.link ≤ n) };
}

/// Feeds an endpoint, and answers whether it goes on.
#[tactic(auto, using(nr_endpoint::proofs::FedBytes::fed_stands))]
fn feed(endpoint: &mut Endpoint, piece: &[u8]) -> bool
    requires { fed_bytes endpoint.old.link + length piece.now ≤ 2 ^ 62 }
    ensures { OnTrue result (fed_bytes endpoint.new.link ≤ fed_bytes endpoint.old.link + length piece.now) }
{
    endpoint.feed(piece).is_ok()
}

impl Sink for Peer {
    ghost faults = { λ p. p };

    ghost taken = { λ _. None };

    /// Feeds the endpoint a piece of the peer's stream.
    fn write(&mut self, piece: &[u8]) -> Result<usize, Failed>
        ensures count { IfOk result (λ n. n ≡ length piece.now) }
        ensures ok { OnOk result (self.new ≡ self.old) }
        ensures err { OnErr result (self.new ≡ next_count self.old) }
        ensures never_falls { self.old ≤ self.new }
    {
        if let Some(fed) = fed_after(self.fed, piece.len() as u64) {
            if feed(&mut self.endpoint, piece) {
                self.fed = Some(fed);
                return Ok(piece.len());
            }
        }
        self.fed = None;
        self.faults = self.faults.saturating_add(1);
        Err(Failed)
    }
}

/// Takes a message, and posts its receive again.
#[tactic(auto, using(nr_endpoint::proofs::FedBytes::message_lent, nr_endpoint::proofs::FedBytes::event_stands, nr_endpoint::proofs::FedBytes::post_stands))]
fn take_message(endpoint: &mut Endpoint) -> bool
    ensures { fed_bytes endpoint.new.link ≡ fed_bytes endpoint.old.link }
{
    match endpoint.next_event() {
        Some(Event::Message { buf, .. }) => {
            endpoint.post(buf);
            true
        }
        Some(Event::ReadDone) => false,
        None => false,
    }
}

/// Queues a Send.
#[tactic(auto, using(nr_endpoint::proofs::FedBytes::send_fed))]
fn send(endpoint: &mut Endpoint, message: &[u8]) -> bool
    requires { length message.now < 2 ^ 32 }
    ensures { fed_bytes endpoint.new.link ≡ fed_bytes endpoint.old.link }
{
    endpoint.send(message).is_ok()
}

/// Hands what is due to a sink.
#[tactic(auto, using(nr_endpoint::proofs::FedBytes::drain_fed))]
fn drain<K: Sink>(endpoint: &mut Endpoint, sink: &mut K)
    ensures { fed_bytes endpoint.new.link ≡ fed_bytes endpoint.old.link }
{
    let _ = endpoint.drain_into(sink);
}

impl Peer {
    fn open(alloc: Global, side: Side, receives: u32) -> Option<Peer> {
        let endpoint = opened(alloc, side, receives)?;
        Some(Peer {
            endpoint,
            fed: Some(0),
            faults: 0,
        })
    }

    /// Queues a Send.
    fn send(&mut self, message: &[u8]) -> bool
        requires { length message.now < 2 ^ 32 }
    {
        send(&mut self.endpoint, message)
    }

    /// Hands what is due to a sink.
    fn drain<K: Sink>(&mut self, sink: &mut K) {
        drain(&mut self.endpoint, sink);
    }

    /// Takes a message.
    fn take(&mut self) -> bool {
        take_message(&mut self.endpoint)
    }
}

/// An endpoint that was fed nothing.
#[tactic(auto, using(nr_endpoint::proofs::FedBytes::open_fed))]
fn opened(alloc: Global, side: Side, receives: u32) -> Option<Endpoint>
    ensures { IfSome result (λ e. fed_bytes e.link ≡ 0) }
{
    Endpoint::open(alloc, side, receives, 1, SideTerms::default_terms()).ok()
}

/// A Send from one peer to the other, which takes it.
fn pass(from: &mut Peer, to: &mut Peer, message: &[u8]) -> Option<()>
    requires { length message.now < 2 ^ 32 }
{
    if !from.send(message) {
        return None;
    }
    from.drain(to);
    if to.take() { Some(()) } else { None }
}

/// Pairs of Sends, one each way. Gives how many pairs were taken, if all were.
fn pass_all(client: &mut Peer, server: &mut Peer, rounds: u32) -> Option<u64> {
    client.drain(server);
    server.drain(client);
    let mut total: u64 = 0;
    for _ in 0..rounds {
        pass(client, server, &CALL)?;
        pass(server, client, &REPLY)?;
        total = total.saturating_add(1);
    }
    Some(total)
}

/// This number of pairs of Sends over two endpoints with this number of receives each. Gives how many pairs were taken.
pub fn sends(alloc: Global, rounds: u32, receives: u32) -> Option<u64> {
    let mut client = Peer::open(alloc, Side::Initiator, receives)?;
    let Some(mut server) = Peer::open(alloc, Side::Responder, receives) else {
        drop(client);
        return None;
    };
    pass_all(&mut client, &mut server, rounds)
}
