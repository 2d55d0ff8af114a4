//! Clients and their server over TCP, the server in a thread of its own.

ghost use Rattle.std.specs.Prelude.{None, true};

use crate::commands::COMMANDS;
use crate::compare::same;
use crate::host::Host;
use crate::reading::push_bytes;
use crate::runs::{INPUT, read_case, run_client, same_run, same_text, source, words};
use crate::servers::{config, run_server};
use nr_jobs::ThreadSpawner;
use nr_links::{Acceptor, TcpAcceptor, TcpDialer, TcpSink, TcpSource};
use nr_outside::{Failed, MemSink, MemSource};
use std::alloc::Global;
use std::net::{Net, TcpListener, TcpStream};
use std::process::Abort;
use std::thread;
use std::time::Clock;

/// An acceptor that listens already, at a port that the system chose: `listen` leaves that as it is.
#[derive(Drop)]
struct Listening<N> {
    inner: TcpAcceptor<N>,
}

impl<N: Net<Stream = TcpStream, Listener = TcpListener> + Clock> Acceptor for Listening<N> {
    type Source = TcpSource;

    type Sink = TcpSink;

    ghost faults = { λ s. s.inner.faults };

    ghost lost = { λ s. s.inner.lost };

    ghost asked = { λ _. None };

    ghost ended = { λ _. None };

    ghost next = { λ s. s.inner.next };

    ghost listens = { λ _. true };

    fn listen(&mut self, _addr: &str) -> Result<(), Failed> {
        Ok(())
    }

    fn accept(&mut self) -> Result<(TcpSource, TcpSink), Failed> {
        self.inner.accept()
    }

    fn hang_up(&mut self, source: TcpSource, sink: TcpSink) {
        self.inner.hang_up(source, sink)
    }
}

/// A server, before it is run.
#[derive(Drop)]
pub(crate) struct Server<N> {
    words: Vec<String>,
    config: Vec<u8>,
    accept: Listening<N>,
}

impl<N: Net<Stream = TcpStream, Listener = TcpListener> + Clock + Drop> Server<N> {
    /// Its status, and what it prints and reports. Each connection is served in a thread of its own.
    pub(crate) fn run(self, rt: impl Host, alloc: Global) -> (u8, MemSink, MemSink) {
        let Server {
            words,
            config,
            mut accept,
        } = self;
        let mut input = MemSource::new(config, Vec::new(alloc), Vec::new(alloc));
        let mut out = MemSink::new(alloc, Vec::new(alloc));
        let mut err = MemSink::new(alloc, Vec::new(alloc));
        let mut spawn = ThreadSpawner::new(alloc, 500).expect(&rt, "memory");
        let status = run_server(
            &rt,
            alloc,
            words.as_slice(),
            &mut input,
            &mut out,
            &mut err,
            &mut accept,
            &mut spawn,
        );
        (status, out, err)
    }
}

/// A server of this many connections, and the address at which it listens.
pub(crate) fn new_server<N: Net<Stream = TcpStream, Listener = TcpListener> + Clock + Drop>(
    rt: &impl Abort,
    alloc: Global,
    net: N,
    connections: usize,
) -> (Server<N>, String) {
    let mut inner = TcpAcceptor::new(net);
    same(rt, 0, inner.listen("127.0.0.1:0").is_ok(), true);
    let Some(port) = inner.port() else {
        panic!(rt; "no port")
    };
    let config = config(rt, alloc, connections);
    let server = Server {
        words: words(rt, alloc, "serve config", "here"),
        config: config.as_bytes().to_vec(alloc).expect(rt, "memory"),
        accept: Listening { inner },
    };
    let addr = format!(in alloc; "127.0.0.1:{port}").expect(rt, "memory");
    (server, addr)
}

/// Runs the first clients of a text, one after another, and compares their statuses and what they print and report.
fn same_clients<N: Net<Stream = TcpStream, Listener = TcpListener>>(
    rt: &impl Host,
    alloc: Global,
    count: usize,
    addr: &str,
    dial: &mut TcpDialer<N>,
) {
    let mut at = 0;
    for text in COMMANDS.lines() {
        if !text.starts_with('#') && at < count {
            same_run(rt, alloc, at, read_case(rt, text), INPUT, addr, dial);
            at += 1;
        }
    }
}

/// How many of the clients are served, and what the server prints.
static ROWS: [(usize, &str); 2] = [(3, "served 3 journal 2;"), (10, "served 10 journal 5;")];

#[test]
fn clients_while_their_server_runs(rt: HostRuntime) {
    let alloc = rt.alloc();
    for (count, printed) in ROWS.iter() {
        let (server, addr) = new_server(&rt, alloc, rt, *count);
        let Ok(server) = thread::spawn(&rt, move || server.run(rt, alloc)) else {
            panic!(rt; "no thread")
        };
        same_clients(&rt, alloc, *count, addr.as_str(), &mut TcpDialer::new(rt));
        let (status, out, err) = server.join(&rt);
        same(&rt, *count, u32::from(status), 0);
        same_text(&rt, alloc, *count, out.bytes(), *printed);
        same_text(&rt, alloc, *count, err.bytes(), "");
    }
}

/// The longest file, of 16,777,216 bytes: 256 times the same 65,521 bytes, a prime number of them, and 3,840 more. So
/// bytes that are written or read at another offset, or twice, show.
fn longest_file(rt: &impl Abort, alloc: Global) -> Vec<u8> {
    let mut piece = Vec::new(alloc);
    push_bytes(rt, &mut piece, 0, 65_521);
    let mut file = Vec::new(alloc);
    for _ in 0..256 {
        file.extend_from_slice(piece.as_slice())
            .expect(rt, "memory");
    }
    push_bytes(rt, &mut file, 0, 3_840);
    file
}

/// Runs a client with this input, and gives what it prints; compares its status, and that it reports nothing.
fn printed<N: Net<Stream = TcpStream, Listener = TcpListener>>(
    rt: &impl Host,
    alloc: Global,
    words: &[String],
    input: &[u8],
    dial: &mut TcpDialer<N>,
) -> MemSink {
    let mut input = source(rt, alloc, input, Vec::new(alloc));
    let mut out = MemSink::new(alloc, Vec::new(alloc));
    let mut err = MemSink::new(alloc, Vec::new(alloc));
    let status = run_client(rt, alloc, words, &mut input, &mut out, &mut err, dial);
    same(rt, 0, u32::from(status), 0);
    same_text(rt, alloc, 0, err.bytes(), "");
    out
}

/// Puts the longest file, gets it, also by several jobs, and compares its bytes.
fn same_file<N: Net<Stream = TcpStream, Listener = TcpListener>>(
    rt: &impl Host,
    alloc: Global,
    addr: &str,
    dial: &mut TcpDialer<N>,
) {
    let file = longest_file(rt, alloc);
    let put = words(rt, alloc, "put here / /longest", addr);
    let put = printed(rt, alloc, put.as_slice(), file.as_slice(), dial);
    same(rt, 0, put.bytes().is_empty(), true);
    let get = words(rt, alloc, "get here / /longest", addr);
    let got = printed(rt, alloc, get.as_slice(), b"", dial);
    same(rt, 1, got.bytes() == file.as_slice(), true);
    let get = words(rt, alloc, "get here / /longest --jobs 4", addr);
    let got = printed(rt, alloc, get.as_slice(), b"", dial);
    same(rt, 2, got.bytes() == file.as_slice(), true);
}

#[test]
fn put_and_get_of_the_longest_file(rt: HostRuntime) {
    let alloc = rt.alloc();
    let (server, addr) = new_server(&rt, alloc, rt, 3);
    let Ok(server) = thread::spawn(&rt, move || server.run(rt, alloc)) else {
        panic!(rt; "no thread")
    };
    same_file(&rt, alloc, addr.as_str(), &mut TcpDialer::new(rt));
    let (status, out, _) = server.join(&rt);
    same(&rt, 0, u32::from(status), 0);
    same(&rt, 1, out.bytes().starts_with(b"served 3 journal "), true);
}
