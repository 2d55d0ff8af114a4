//! Links over TCP. One thread suffices: a connection waits in the backlog until it is accepted.

ghost use Rattle.std.specs.Prelude.{◌≡◌};

use crate::compare::same;
use nr_links::{Acceptor, Dialer, TcpAcceptor, TcpDialer, TcpSink, TcpSource};
use nr_outside::{Sink, Source};
use std::process::Abort;

/// Ends the test if the next read is not these bytes.
fn reads(rt: &impl Abort, source: &mut TcpSource, want: &[u8])
    ensures { source.new.link ≡ source.old.link }
{
    let mut buf = [0u8; 8];
    let Ok(n) = source.read(&mut buf) else {
        panic!(rt; "no read")
    };
    same(rt, n, &buf[..n] == want, true);
}

/// Ends the test if one write doesn't take these bytes.
fn sends(rt: &impl Abort, sink: &mut TcpSink, bytes: &[u8])
    ensures { sink.new.link ≡ sink.old.link }
{
    let Ok(n) = sink.write(bytes) else {
        panic!(rt; "no write")
    };
    same(rt, n, n == bytes.len(), true);
}

/// Ends the test if one write doesn't take both pieces.
fn sends_both(rt: &impl Abort, sink: &mut TcpSink, head: &[u8], body: &[u8])
    ensures { sink.new.link ≡ sink.old.link }
{
    let Ok(n) = sink.write_vectored(head, body) else {
        panic!(rt; "no write")
    };
    same(rt, n, n == head.len() + body.len(), true);
}

/// Both directions carry bytes. The side that hangs up without reading leaves what it sent, and then the end.
#[test]
fn bytes_in_both_directions(rt: HostRuntime) {
    let mut acceptor = TcpAcceptor::new(rt);
    same(&rt, 0, acceptor.accept().is_err(), true);
    same(&rt, 1, acceptor.listen("127.0.0.1:0").is_ok(), true);
    let Some(port) = acceptor.port() else {
        panic!(rt; "no port")
    };
    let addr = format!(in rt.alloc(); "127.0.0.1:{port}").expect(&rt, "memory");
    let mut dialer = TcpDialer::new(rt);
    let Ok((mut ours, mut to_them)) = dialer.dial(addr.as_str()) else {
        panic!(rt; "no dial")
    };
    let Ok((mut theirs, mut to_us)) = acceptor.accept() else {
        panic!(rt; "no link")
    };
    sends_both(&rt, &mut to_them, b"hel", b"lo");
    reads(&rt, &mut theirs, b"hello");
    sends(&rt, &mut to_them, b"unread");
    sends(&rt, &mut to_us, b"ok");
    acceptor.hang_up(theirs, to_us);
    reads(&rt, &mut ours, b"ok");
    reads(&rt, &mut ours, b"");
    dialer.hang_up(ours, to_them);
}

/// A client that goes away before it is accepted ends no acceptor: its link gives the end at once, and the next one is served.
#[test]
fn client_goes_away_before_it_is_accepted(rt: HostRuntime) {
    let mut acceptor = TcpAcceptor::new(rt);
    same(&rt, 0, acceptor.listen("127.0.0.1:0").is_ok(), true);
    let Some(port) = acceptor.port() else {
        panic!(rt; "no port")
    };
    let addr = format!(in rt.alloc(); "127.0.0.1:{port}").expect(&rt, "memory");
    let mut dialer = TcpDialer::new(rt);
    let Ok((gone, to_gone)) = dialer.dial(addr.as_str()) else {
        panic!(rt; "no dial")
    };
    dialer.hang_up(gone, to_gone);
    let Ok((ours, mut to_them)) = dialer.dial(addr.as_str()) else {
        panic!(rt; "no second dial")
    };
    let Ok((mut first, to_first)) = acceptor.accept() else {
        panic!(rt; "no link")
    };
    reads(&rt, &mut first, b"");
    acceptor.hang_up(first, to_first);
    let Ok((mut second, to_second)) = acceptor.accept() else {
        panic!(rt; "no second link")
    };
    sends(&rt, &mut to_them, b"hello");
    reads(&rt, &mut second, b"hello");
    acceptor.hang_up(second, to_second);
    dialer.hang_up(ours, to_them);
}

/// A read that waits longer than the limit, here a second, fails. What comes later can still be read.
#[test]
fn peer_that_sends_nothing(rt: HostRuntime) {
    let mut acceptor = TcpAcceptor::with_idle_limit(rt, 1);
    same(&rt, 0, acceptor.listen("127.0.0.1:0").is_ok(), true);
    let Some(port) = acceptor.port() else {
        panic!(rt; "no port")
    };
    let addr = format!(in rt.alloc(); "127.0.0.1:{port}").expect(&rt, "memory");
    let mut dialer = TcpDialer::new(rt);
    let Ok((ours, mut to_them)) = dialer.dial(addr.as_str()) else {
        panic!(rt; "no dial")
    };
    let Ok((mut theirs, to_us)) = acceptor.accept() else {
        panic!(rt; "no link")
    };
    let mut buf = [0u8; 8];
    same(&rt, 1, theirs.read(&mut buf).is_err(), true);
    same(&rt, 2, theirs.faults(), 1);
    sends(&rt, &mut to_them, b"late");
    reads(&rt, &mut theirs, b"late");
    acceptor.hang_up(theirs, to_us);
    dialer.hang_up(ours, to_them);
}

#[test]
fn nobody_listens(rt: HostRuntime) {
    let mut dialer = TcpDialer::new(rt);
    same(&rt, 0, dialer.dial("127.0.0.1:1").is_err(), true);
    same(&rt, 1, dialer.dial("no address").is_err(), true);
    let mut acceptor = TcpAcceptor::new(rt);
    same(&rt, 2, acceptor.listen("127.0.0.1:65536").is_err(), true);
    same(&rt, 3, acceptor.port(), None);
}
