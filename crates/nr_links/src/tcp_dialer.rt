ghost use Rattle.std.specs.Prelude.{◌≡◌, ◌≤◌, None, IfOk, OnOk, OnErr};
ghost use Rattle.nr_outside.specs.Faults.{next_count};
ghost use Rattle.nr_links.specs.Links.{CountsLost};

use crate::limits::IDLE_SECONDS;
use crate::links::Dialer;
use crate::tcp::{TcpSink, TcpSource, closed, halves};
use nr_outside::Failed;
use std::io;
use std::marker::Model;
use std::net::{Net, TcpListener, TcpStream};

/// A dialer of TCP. Each error is a fault. What the links carry is unknown, so it is trusted for the content.
#[derive(Drop)]
pub struct TcpDialer<N> {
    net: N,
    faults: u64,
    lost: u64,
    next: u64,
}

impl<N> Model for TcpDialer<N> {
    ghost use Rattle.nr_links.specs.NetState.{DialerState};

    ghost Value = { DialerState };

    ghost view = { λ d. record { faults = d.faults; lost = d.lost; next = d.next } };
}

impl<N> TcpDialer<N> {
    /// A dialer over this network, with no faults so far.
    pub fn new(net: N) -> TcpDialer<N>
        ensures { result ≡ record { faults = 0; lost = 0; next = 0 } }
    {
        TcpDialer {
            net,
            faults: 0,
            lost: 0,
            next: 0,
        }
    }
}

/// A link to this address, of this number.
fn connect<N: Net<Stream = TcpStream, Listener = TcpListener>>(
    net: &N,
    addr: &str,
    number: u64,
) -> io::Result<(TcpSource, TcpSink)>
    ensures source { IfOk result (λ link. (link.0.faults ≡ 0) × (link.0.link ≡ number)) }
    ensures sink { IfOk result (λ link. (link.1.faults ≡ 0) × (link.1.link ≡ number)) }
{
    halves(TcpStream::connect(net, addr)?, number, IDLE_SECONDS)
}

impl<N: Net<Stream = TcpStream, Listener = TcpListener>> Dialer for TcpDialer<N> {
    type Source = TcpSource;

    type Sink = TcpSink;

    ghost faults = { λ s. s.faults };

    ghost lost = { λ s. s.lost };

    ghost asked = { λ _. None };

    ghost ended = { λ _. None };

    ghost next = { λ s. s.next };

    fn dial(&mut self, addr: &str) -> Result<(TcpSource, TcpSink), Failed>
        ensures source { IfOk result (λ link. (link.0.faults ≡ 0) × (link.0.link ≡ self.old.next)) }
        ensures sink { IfOk result (λ link. (link.1.faults ≡ 0) × (link.1.link ≡ self.old.next)) }
        ensures ok { OnOk result (self.new ≡ record self.old { next = next_count self.old.next }) }
        ensures err { OnErr result (self.new ≡ record self.old { faults = next_count self.old.faults }) }
        ensures never_falls { self.old.faults ≤ self.new.faults }
    {
        match connect(&self.net, addr, self.next) {
            Ok(link) => {
                self.next = self.next.saturating_add(1);
                Ok(link)
            }
            Err(_) => {
                self.faults = self.faults.saturating_add(1);
                Err(Failed)
            }
        }
    }

    fn hang_up(&mut self, source: TcpSource, sink: TcpSink)
        requires same { source.link ≡ sink.link }
        ensures lost { CountsLost source.faults sink.faults self.old.lost self.new.lost }
        ensures faults { self.new.faults ≡ self.old.faults }
        ensures next { self.new.next ≡ self.old.next }
    {
        self.lost = closed(self.lost, source, sink);
    }
}
