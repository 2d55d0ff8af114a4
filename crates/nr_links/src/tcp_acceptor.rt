ghost use Rattle.std.specs.Prelude.{◌≡◌, ◌≤◌, ◌<◌, true, false, None, IfOk, IfSome, OnOk, OnErr, IsErr, is_some};
ghost use Rattle.nr_outside.specs.Faults.{next_count};
ghost use Rattle.nr_links.specs.Links.{CountsLost};

use crate::accept_errors::{AfterError, after_error};
use crate::limits::IDLE_SECONDS;
use crate::links::Acceptor;
use crate::tcp::{TcpSink, TcpSource, closed, halves};
use nr_outside::Failed;
use std::io::ErrorKind;
use std::marker::Model;
use std::net::{Net, TcpListener, TcpStream};
use std::time::{Clock, Duration};
use std::{io, thread};

/// How long an acceptor waits for descriptors or memory before it tries again.
const PAUSE_MILLISECONDS: u64 = 100;

/// How often it waits so for one link, for about an hour.
const PAUSES_MAX: u64 = 36000;

/// An acceptor of TCP. Each error is a fault. What the links carry is unknown, so it is trusted for the content.
#[derive(Drop)]
pub struct TcpAcceptor<N> {
    net: N,
    listener: Option<TcpListener>,
    faults: u64,
    lost: u64,
    next: u64,
    idle_seconds: u64,
}

impl<N> Model for TcpAcceptor<N> {
    ghost use Rattle.std.specs.Prelude.{is_some};
    ghost use Rattle.nr_links.specs.NetState.{AcceptorState};

    ghost Value = { AcceptorState };

    ghost view = { λ a. record { faults = a.faults; lost = a.lost; next = a.next; listens = is_some a.listener } };
}

impl<N> TcpAcceptor<N> {
    /// An acceptor over this network, with no faults so far, which doesn't listen yet.
    pub fn new(net: N) -> TcpAcceptor<N>
        ensures { result ≡ record { faults = 0; lost = 0; next = 0; listens = false } }
    {
        TcpAcceptor::with_idle_limit(net, IDLE_SECONDS)
    }

    /// The same, with another limit of what a read or a write of its links waits, in seconds.
    pub fn with_idle_limit(net: N, idle_seconds: u64) -> TcpAcceptor<N>
        requires { 0 < idle_seconds }
        ensures { result ≡ record { faults = 0; lost = 0; next = 0; listens = false } }
    {
        TcpAcceptor {
            net,
            listener: None,
            faults: 0,
            lost: 0,
            next: 0,
            idle_seconds,
        }
    }

    /// The port at which it listens, if the system says it. With port 0 in the address the system picks one.
    pub fn port(&self) -> Option<u16> {
        let Some(listener) = &self.listener else {
            return None;
        };
        match listener.local_addr() {
            Ok(addr) => Some(addr.port()),
            Err(_) => None,
        }
    }

    /// Counts a call that fails.
    fn fail(&mut self) -> Failed
        ensures fault { self.new ≡ record self.old { faults = next_count self.old.faults } }
        ensures never_falls { self.old.faults ≤ self.new.faults }
    {
        self.faults = self.faults.saturating_add(1);
        Failed
    }
}

/// The next stream, as the link of this number. `None` if it can't be set up: an error of one peer's stream is none of the listener.
fn accept_one(
    listener: &TcpListener,
    number: u64,
    idle_seconds: u64,
) -> io::Result<Option<(TcpSource, TcpSink)>>
    ensures source { IfOk result (λ found. IfSome found (λ link. (link.0.faults ≡ 0) × (link.0.link ≡ number))) }
    ensures sink { IfOk result (λ found. IfSome found (λ link. (link.1.faults ≡ 0) × (link.1.link ≡ number))) }
{
    // A link takes two descriptors. The second one is had before a peer is accepted, who would else be turned away without it.
    let spare = listener.try_clone()?;
    let (stream, _) = listener.accept()?;
    drop(spare);
    Ok(halves(stream, number, idle_seconds).ok())
}

/// The next stream, as the link of this number. Passes over a peer that went away before it was taken, and tries again after errors of
/// the network. Without descriptors or memory it waits for some.
fn take<C: Clock>(
    clock: &C,
    listener: &TcpListener,
    number: u64,
    idle_seconds: u64,
) -> io::Result<(TcpSource, TcpSink)>
    ensures source { IfOk result (λ link. (link.0.faults ≡ 0) × (link.0.link ≡ number)) }
    ensures sink { IfOk result (λ link. (link.1.faults ≡ 0) × (link.1.link ≡ number)) }
{
    let mut pauses = 0u64;
    for _ in 0..u64::MAX {
        let error = match accept_one(listener, number, idle_seconds) {
            Ok(Some(link)) => return Ok(link),
            Ok(None) => continue,
            Err(error) => error,
        };
        match after_error(&error) {
            AfterError::Again => {}
            AfterError::Later if pauses < PAUSES_MAX => {
                pauses += 1;
                thread::sleep(clock, Duration::from_millis(PAUSE_MILLISECONDS));
            }
            _ => return Err(error),
        }
    }
    Err(io::Error::from(ErrorKind::ConnectionAborted))
}

impl<N: Net<Stream = TcpStream, Listener = TcpListener> + Clock> Acceptor for TcpAcceptor<N> {
    type Source = TcpSource;

    type Sink = TcpSink;

    ghost faults = { λ s. s.faults };

    ghost lost = { λ s. s.lost };

    ghost asked = { λ _. None };

    ghost ended = { λ _. None };

    ghost next = { λ s. s.next };

    ghost listens = { λ s. s.listens };

    fn listen(&mut self, addr: &str) -> Result<(), Failed>
        ensures listens { OnOk result (self.new ≡ record self.old { listens = true }) }
        ensures err { OnErr result (self.new ≡ record self.old { faults = next_count self.old.faults }) }
        ensures never_falls { self.old.faults ≤ self.new.faults }
    {
        match TcpListener::bind(&self.net, addr) {
            Ok(listener) => {
                self.listener = Some(listener);
                Ok(())
            }
            Err(_) => Err(self.fail()),
        }
    }

    fn accept(&mut self) -> Result<(TcpSource, TcpSink), Failed>
        ensures before { self.old.listens ≡ false → IsErr result }
        ensures source { IfOk result (λ link. (link.0.faults ≡ 0) × (link.0.link ≡ self.old.next)) }
        ensures sink { IfOk result (λ link. (link.1.faults ≡ 0) × (link.1.link ≡ self.old.next)) }
        ensures ok { OnOk result (self.new ≡ record self.old { next = next_count self.old.next }) }
        ensures err { OnErr result (self.new ≡ record self.old { faults = next_count self.old.faults }) }
        ensures never_falls { self.old.faults ≤ self.new.faults }
    {
        let Some(listener) = &self.listener else {
            return Err(self.fail());
        };
        match take(&self.net, listener, self.next, self.idle_seconds) {
            Ok(link) => {
                self.next = self.next.saturating_add(1);
                Ok(link)
            }
            Err(_) => Err(self.fail()),
        }
    }

    fn hang_up(&mut self, source: TcpSource, sink: TcpSink)
        requires same { source.link ≡ sink.link }
        ensures listens { self.new.listens ≡ self.old.listens }
        ensures lost { CountsLost source.faults sink.faults self.old.lost self.new.lost }
        ensures faults { self.new.faults ≡ self.old.faults }
        ensures next { self.new.next ≡ self.old.next }
    {
        self.lost = closed(self.lost, source, sink);
    }
}
