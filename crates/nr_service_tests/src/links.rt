//! Two links that are open at a time, and three with room for two threads.

use crate::connections::{MOMENTS, ONE_CALL, plans, shared};
use crate::gates::{Gate, GateAcceptor, Waits};
use nr_host::serve;
use nr_jobs::{HandBack, ThreadSpawner};
use nr_links::{Acceptor, MemAcceptor, MemClock};
use std::alloc::Global;
use std::process::Abort;
use std::sync::Arc;

/// How many bytes a link is answered with: the server's hello, and the FPDU of the reply.
const ANSWERED_LEN: u64 = 96;

/// How often the first link looks whether the second was answered.
const TURNS: u32 = 20_000_000;

/// An acceptor of this many links with a gate, which listens.
fn acceptor(
    rt: &impl Abort,
    alloc: Global,
    count: usize,
    gate: &Arc<Gate, Global>,
) -> GateAcceptor<MemAcceptor> {
    let theirs = Arc::try_clone(gate).expect(rt, "memory");
    let mut acceptor = MemAcceptor::new(alloc, plans(rt, alloc, count), Vec::new(alloc));
    acceptor.listen("here").expect(rt, "memory");
    GateAcceptor::new(acceptor, theirs)
}

/// Until when the first link waits.
const FIRST: Waits = Waits::First { len: ANSWERED_LEN };

/// Each link is served in a thread: the first stays open until the second was answered.
#[test]
fn two_links(rt: HostRuntime) {
    let alloc = rt.alloc();
    let gate = Arc::new(alloc, Gate::new(FIRST, TURNS)).expect(&rt, "memory");
    let mut acceptor = acceptor(&rt, alloc, 2, &gate);
    let (shared, mut pass) = shared(&rt, alloc);
    let mut spawner = ThreadSpawner::new(alloc, 2).expect(&rt, "memory");
    let clock = MemClock::new(&MOMENTS);
    let Ok(ran) = serve(
        rt,
        alloc,
        &mut acceptor,
        &mut spawner,
        &shared,
        &mut pass,
        &clock,
        ONE_CALL,
        false,
        2,
    ) else {
        panic!(rt; "not served")
    };
    assert_eq!(rt; ran.started, 2);
    assert!(rt; gate.in_time());
}

/// The same, with each job handed back: the first link gives up, and the second is answered after it.
#[test]
fn one_link_after_the_other(rt: HostRuntime) {
    let alloc = rt.alloc();
    let gate = Arc::new(alloc, Gate::new(FIRST, 3)).expect(&rt, "memory");
    let mut acceptor = acceptor(&rt, alloc, 2, &gate);
    let (shared, mut pass) = shared(&rt, alloc);
    let mut spawner = HandBack::new();
    let clock = MemClock::new(&MOMENTS);
    let Ok(ran) = serve(
        rt,
        alloc,
        &mut acceptor,
        &mut spawner,
        &shared,
        &mut pass,
        &clock,
        ONE_CALL,
        false,
        2,
    ) else {
        panic!(rt; "not served")
    };
    assert_eq!(rt; ran.started, 0);
    assert_eq!(rt; ran.ends.len(), 2);
    assert!(rt; !gate.in_time());
}

/// Three links that wait, at a spawner of two threads: the job of the third is handed back, and no fourth link is accepted while it waits.
#[test]
fn three_links_and_two_threads(rt: HostRuntime) {
    let alloc = rt.alloc();
    let gate = Arc::new(alloc, Gate::new(Waits::Three, 1000)).expect(&rt, "memory");
    let mut acceptor = acceptor(&rt, alloc, 4, &gate);
    let (shared, mut pass) = shared(&rt, alloc);
    let mut spawner = ThreadSpawner::new(alloc, 2).expect(&rt, "memory");
    let clock = MemClock::new(&MOMENTS);
    let Ok(ran) = serve(
        rt,
        alloc,
        &mut acceptor,
        &mut spawner,
        &shared,
        &mut pass,
        &clock,
        ONE_CALL,
        false,
        4,
    ) else {
        panic!(rt; "not served")
    };
    assert!(rt; !gate.in_time());
    assert!(rt; ran.started == 2 || ran.started == 3);
    assert!(rt; ran.ends.len() > 0);
}
