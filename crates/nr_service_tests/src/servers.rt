//! Runs of a server over what clients send.

ghost use Rattle.std.specs.Prelude.{◌<◌, ◌^◌};

use crate::compare::same;
use crate::host::Host;
use crate::runs::{MOMENTS, plan, read_case, same_sent, same_text, source, words};
use nr_host::ServeJob;
use nr_jobs::{HandBack, Spawner};
use nr_links::{Acceptor, MemAcceptor, MemClock, MemDialer, MemLink};
use nr_outside::{MemSink, MemSource};
use nr_top::run;
use std::alloc::Global;
use std::process::Abort;

/// Runs a server, and gives its status.
pub(crate) fn run_server<
    H: Host,
    A: Acceptor,
    P: Spawner<ServeJob<A::Source, A::Sink, MemClock<'static>, H>>,
>(
    rt: &H,
    alloc: Global,
    words: &[String],
    input: &mut MemSource,
    out: &mut MemSink,
    err: &mut MemSink,
    accept: &mut A,
    spawn: &mut P,
) -> u8
where
    A::Source: Drop + Send + 'static,
    A::Sink: Drop + Send + 'static,
    requires { P.started spawn.old < 2 ^ 63 }
{
    let mut dial = MemDialer::new(alloc, Vec::new(alloc), Vec::new(alloc));
    let mut clock = MemClock::new(&MOMENTS);
    let mut gates = HandBack::new();
    run(
        *rt, alloc, words, input, out, err, &mut dial, accept, &mut clock, spawn, &mut gates,
    )
}

/// Runs a server, and compares what it prints.
fn same_report(
    rt: &impl Host,
    alloc: Global,
    config: &str,
    accept: &mut MemAcceptor,
    printed: &str,
) {
    let words = words(rt, alloc, "serve config", "here");
    let mut input = source(rt, alloc, config.as_bytes(), Vec::new(alloc));
    let mut out = MemSink::new(alloc, Vec::new(alloc));
    let mut err = MemSink::new(alloc, Vec::new(alloc));
    let mut spawn = HandBack::new();
    let status = run_server(
        rt,
        alloc,
        words.as_slice(),
        &mut input,
        &mut out,
        &mut err,
        accept,
        &mut spawn,
    );
    drop(input);
    drop(words);
    same(rt, 0, u32::from(status), 0);
    same_text(rt, alloc, 0, out.bytes(), printed);
    same_text(rt, alloc, 0, err.bytes(), "");
}

/// The links of the first clients of a text.
fn acceptor(rt: &impl Abort, alloc: Global, text: &str, count: usize) -> MemAcceptor {
    let mut plans = Vec::new(alloc);
    for text in text.lines() {
        if !text.starts_with('#') && plans.len() < count {
            let sent = read_case(rt, text).sent;
            plans.push(plan(rt, alloc, sent, "")).expect(rt, "memory");
        }
    }
    MemAcceptor::new(alloc, plans, Vec::new(alloc))
}

/// Compares what a server sent over each link with what the clients of a text receive.
fn same_links(rt: &impl Abort, alloc: Global, text: &str, links: &[MemLink]) {
    let mut at = 0;
    for text in text.lines() {
        if !text.starts_with('#') && at < links.len() {
            same_sent(rt, alloc, at, links.get(at), read_case(rt, text).received);
            at += 1;
        }
    }
}

pub(crate) fn config(rt: &impl Abort, alloc: Global, connections: usize) -> String {
    format!(in alloc;
        "listen = \"here\"\nexport = \"/\"\ncredits = 16\ncapacity = 20000000\nwrite_verifier = \"0000000000000001\"\nconnections = {connections}\nrecord = true\n"
    ).expect(rt, "memory")
}

/// Runs a server over what the first clients of a text send, and compares what it sends to each, and what it prints.
pub(crate) fn same_server(rt: &impl Host, alloc: Global, text: &str, count: usize, printed: &str) {
    let config = config(rt, alloc, count);
    let mut accept = acceptor(rt, alloc, text, count);
    same_report(rt, alloc, config.as_str(), &mut accept, printed);
    same(rt, count, accept.ended().len(), count);
    same_links(rt, alloc, text, accept.ended());
}
