//! Links are accepted, and each has a job.

ghost use Rattle.std.specs.Prelude.{◌≡◌, ℕ, ◌+◌, ◌-◌, ◌<◌, ◌≤◌, ◌^◌, [], length, IfOk, OnErr, OnOk, MatchResult};
ghost use Rattle.nr_accept.specs.Accepting.{AcceptorCount, BackCount, HandsBack, Serves, TakesLink, TakesOne, between};

use crate::fault::ServeFault;
use crate::link_jobs::LinkJobs;
use nr_jobs::{Job, Spawner};
use nr_links::Acceptor;
use std::alloc::Global;
use std::sync::Wait;
use std::thread::Threads;

/// Accepts a link and starts its job. If the job is handed back, runs it, and hangs the link up.
fn take_next<
    A: Acceptor,
    J: Job + Send + 'static,
    L: LinkJobs<A::Source, A::Sink, J>,
    P: Spawner<J>,
    R: Threads + Wait + Copy + Send + 'static,
>(
    rt: R,
    alloc: Global,
    acceptor: &mut A,
    spawner: &mut P,
    jobs: &mut L,
) -> Result<Option<L::End>, ServeFault>
    requires rests { L.rests jobs.old }
    requires room { P.started spawner.old < 2 ^ 64 - 1 }
    ensures rests { L.rests jobs.new }
    ensures same { (first : L) → L.same first jobs.old → L.same first jobs.new }
    ensures served { IfOk result (λ link. TakesLink L.makes L.serves (between (A.ended acceptor.old) (A.lost acceptor.old) (P.started spawner.old) jobs.old) link
        (between (A.ended acceptor.new) (A.lost acceptor.new) (P.started spawner.new) jobs.new)) }
    ensures err { OnErr result (between (A.ended acceptor.new) (A.lost acceptor.new) (P.started spawner.new) jobs.new
        ≡ between (A.ended acceptor.old) (A.lost acceptor.old) (P.started spawner.old) jobs.old) }
    ensures back { IfOk result (λ link. HandsBack link (P.faults spawner.old) (P.faults spawner.new)) }
    ensures back_err { OnErr result (P.faults spawner.new ≡ P.faults spawner.old) }
    ensures never_falls { P.faults spawner.old ≤ P.faults spawner.new }
    ensures counted { MatchResult result
        (λ _. A.faults acceptor.new ≡ A.faults acceptor.old) (λ fault. AcceptorCount fault (A.faults acceptor.old) (A.faults acceptor.new)) }
    ensures asked { A.asked acceptor.new ≡ A.asked acceptor.old }
    ensures listens { A.listens acceptor.new ≡ A.listens acceptor.old }
{
    let Ok(part) = jobs.part() else {
        return Err(ServeFault::Memory);
    };
    let Ok((source, sink)) = acceptor.accept() else {
        drop(part);
        return Err(ServeFault::AcceptFault);
    };
    let job = jobs.make(part, source, sink);
    let Err(back) = spawner.start(rt, alloc, job) else {
        return Ok(None);
    };
    let (source, sink, end) = jobs.run_here(back);
    acceptor.hang_up(source, sink);
    Ok(Some(end))
}

/// Takes one link more, and counts its job, or notes its end if it was served here. There is room for that first, so
/// that no link is accepted in vain.
fn take_one<
    A: Acceptor,
    J: Job + Send + 'static,
    L: LinkJobs<A::Source, A::Sink, J>,
    P: Spawner<J>,
    R: Threads + Wait + Copy + Send + 'static,
>(
    rt: R,
    alloc: Global,
    acceptor: &mut A,
    spawner: &mut P,
    jobs: &mut L,
    started: &mut u64,
    ends: &mut Vec<L::End>,
) -> Result<(), ServeFault>
    requires rests { L.rests jobs.old }
    requires room { P.started spawner.old < 2 ^ 64 - 1 }
    requires count { started.old < 2 ^ 64 - 1 }
    ensures rests { L.rests jobs.new }
    ensures same { (first : L) → L.same first jobs.old → L.same first jobs.new }
    ensures served { OnOk result (TakesOne L.makes L.serves (between (A.ended acceptor.old) (A.lost acceptor.old) (P.started spawner.old) jobs.old) ends.old.items ends.new.items
        (between (A.ended acceptor.new) (A.lost acceptor.new) (P.started spawner.new) jobs.new)) }
    ensures one { OnOk result (started.new + length ends.new.items ≡ started.old + length ends.old.items + 1) }
    ensures started { OnOk result (P.started spawner.new + started.old ≡ P.started spawner.old + started.new) }
    ensures err { OnErr result (between (A.ended acceptor.new) (A.lost acceptor.new) (P.started spawner.new) jobs.new
        ≡ between (A.ended acceptor.old) (A.lost acceptor.old) (P.started spawner.old) jobs.old) }
    ensures same_count { OnErr result (started.new ≡ started.old) }
    ensures kept { OnErr result (ends.new.items ≡ ends.old.items) }
    ensures back { OnOk result ((first : ℕ) → first ≤ P.faults spawner.old → BackCount ends.old.items first (P.faults spawner.old) → BackCount ends.new.items first (P.faults spawner.new)) }
    ensures back_err { OnErr result (P.faults spawner.new ≡ P.faults spawner.old) }
    ensures never_falls { P.faults spawner.old ≤ P.faults spawner.new }
    ensures counted { MatchResult result
        (λ _. A.faults acceptor.new ≡ A.faults acceptor.old) (λ fault. AcceptorCount fault (A.faults acceptor.old) (A.faults acceptor.new)) }
    ensures asked { A.asked acceptor.new ≡ A.asked acceptor.old }
    ensures listens { A.listens acceptor.new ≡ A.listens acceptor.old }
{
    if ends.reserve(1).is_err() {
        return Err(ServeFault::Memory);
    }
    let link = match take_next::<A, J, L, P, R>(rt, alloc, acceptor, spawner, jobs) {
        Ok(link) => link,
        Err(fault) => return Err(fault),
    };
    match link {
        None => {
            *started += 1;
            Ok(())
        }
        Some(end) => {
            ends.push_reserved(end);
            Ok(())
        }
    }
}

/// Accepts `connections` links, and has the job of each started by the spawner, or, if the spawner hands it back, runs it here,
/// hangs its link up and notes its end in `ends`, which is empty at first. Answers how many jobs were started.
///
/// # Errors
///
/// [`ServeFault::AcceptFault`] if the acceptor failed, as it does before it listens; [`ServeFault::Memory`] if there is no
/// memory for another link or its end. What was taken until then stays.
pub fn take_links<
    A: Acceptor,
    J: Job + Send + 'static,
    L: LinkJobs<A::Source, A::Sink, J>,
    P: Spawner<J>,
    R: Threads + Wait + Copy + Send + 'static,
>(
    rt: R,
    alloc: Global,
    acceptor: &mut A,
    spawner: &mut P,
    jobs: &mut L,
    connections: u32,
    ends: &mut Vec<L::End>,
) -> Result<u64, ServeFault>
    requires rests { L.rests jobs.old }
    requires room { P.started spawner.old < 2 ^ 63 }
    requires none { ends.old.items ≡ [] }
    ensures rests { L.rests jobs.new }
    ensures same { (first : L) → L.same first jobs.old → L.same first jobs.new }
    ensures served { Serves L.makes L.serves (between (A.ended acceptor.old) (A.lost acceptor.old) (P.started spawner.old) jobs.old) ends.new.items
        (between (A.ended acceptor.new) (A.lost acceptor.new) (P.started spawner.new) jobs.new) }
    ensures all { IfOk result (λ started. (started + length ends.new.items ≡ connections) × (P.started spawner.new ≡ P.started spawner.old + started)) }
    ensures fewer { OnErr result (P.started spawner.new + length ends.new.items < P.started spawner.old + connections) }
    ensures back { BackCount ends.new.items (P.faults spawner.old) (P.faults spawner.new) }
    ensures counted { MatchResult result
        (λ _. A.faults acceptor.new ≡ A.faults acceptor.old) (λ fault. AcceptorCount fault (A.faults acceptor.old) (A.faults acceptor.new)) }
    ensures asked { A.asked acceptor.new ≡ A.asked acceptor.old }
    ensures listens { A.listens acceptor.new ≡ A.listens acceptor.old }
{
    let mut started = 0u64;
    'links: while started + (ends.len() as u64) < u64::from(connections) {
        match take_one::<A, J, L, P, R>(rt, alloc, acceptor, spawner, jobs, &mut started, ends) {
            Ok(()) => {}
            Err(fault) => return Err(fault),
        }
    }
    Ok(started)
}
