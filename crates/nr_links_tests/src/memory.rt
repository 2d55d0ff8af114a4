//! Links in memory.

use crate::compare::same;
use nr_links::{Acceptor, Dialer, LinkPlan, MemAcceptor, MemDialer, MemLink};
use nr_outside::{Sink, Source};
use std::alloc::Global;
use std::process::Abort;

/// A link that hands out these bytes, whose second write fails.
fn plan(rt: &impl Abort, alloc: Global, bytes: &[u8]) -> LinkPlan {
    LinkPlan {
        bytes: bytes.to_vec(alloc).expect(rt, "memory"),
        sizes: Vec::new(alloc),
        failing_reads: Vec::new(alloc),
        failing_writes: [1].to_vec(alloc).expect(rt, "memory"),
    }
}

fn plans(rt: &impl Abort, alloc: Global) -> Vec<LinkPlan> {
    let mut plans = Vec::new(alloc);
    plans.push(plan(rt, alloc, b"abc")).expect(rt, "memory");
    plans.push(plan(rt, alloc, b"de")).expect(rt, "memory");
    plans
}

/// Ends the test unless one link was hung up, whose sink had taken these bytes.
fn took(rt: &impl Abort, ended: &[MemLink], want: &[u8]) {
    same(rt, 0, ended.len(), 1);
    match ended.first() {
        Some(link) => same(rt, 1, link.sink.inner().bytes() == want, true),
        None => panic!(rt; "no link"),
    }
}

/// The second dial fails, since it is listed.
#[test]
fn dialled_links(rt: HostRuntime) {
    let alloc = rt.alloc();
    let failing = [1].to_vec(alloc).expect(&rt, "memory");
    let mut dialer = MemDialer::new(alloc, plans(&rt, alloc), failing);
    let Ok((mut source, mut sink)) = dialer.dial("first") else {
        panic!(rt; "no dial")
    };
    let mut buf = [0u8; 2];
    same(&rt, 0, source.read(&mut buf).is_ok(), true);
    same(&rt, 1, buf, *b"ab");
    same(&rt, 2, sink.write(b"xy").is_ok(), true);
    same(&rt, 3, sink.write(b"z").is_err(), true);
    same(&rt, 4, sink.faults(), 1);
    dialer.hang_up(source, sink);
    same(&rt, 5, dialer.dial("second").is_err(), true);
    took(&rt, dialer.ended(), b"xy");
    same(&rt, 6, dialer.asked().len(), 1);
}

#[test]
fn accepted_links(rt: HostRuntime) {
    let alloc = rt.alloc();
    let mut acceptor = MemAcceptor::new(alloc, plans(&rt, alloc), Vec::new(alloc));
    same(&rt, 0, acceptor.accept().is_err(), true);
    same(&rt, 1, acceptor.listen("here").is_ok(), true);
    let Ok((source, mut sink)) = acceptor.accept() else {
        panic!(rt; "no link")
    };
    same(&rt, 2, sink.write(b"xy").is_ok(), true);
    acceptor.hang_up(source, sink);
    took(&rt, acceptor.ended(), b"xy");
    match acceptor.asked().first() {
        Some(addr) => same(&rt, 3, addr.as_slice() == b"here".as_slice(), true),
        None => panic!(rt; "no address"),
    }
}
