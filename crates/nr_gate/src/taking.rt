//! Links are accepted, and the connection of each has a job.

ghost use Rattle.std.specs.Prelude.{◌≡◌, ℕ, ◌+◌, ◌-◌, ◌<◌, ◌≤◌, ◌^◌, [], length, IfOk, OnErr, OnOk, MatchResult};
ghost use Rattle.std.specs.Arc.{arc_value};
ghost use Rattle.nr_turnstile.specs.Passes.{seen_by};
ghost use Rattle.nr_shared.specs.Sharing.{SharedRests};
ghost use Rattle.nr_accept.specs.Accepting.{AcceptorCount, BackCount, HandsBack, TakesLink, TakesOne, between};
ghost use Rattle.nr_gate.specs.GateLinks.{GatesByPass, GatesLinks, KeepsKnown};

use crate::gate_end::GateEnd;
use crate::gated_links::GatedLinks;
use crate::job::GateJob;
use nr_accept::ServeFault;
use nr_jobs::Spawner;
use nr_links::{Acceptor, LinkSink, LinkSource};
use nr_outside::{Sink, Source};
use std::alloc::Global;
use std::sync::Wait;
use std::thread::Threads;

// This is `take_links` of nr_accept for the jobs of a gateway alone. `GatedLinks` has no `impl LinkJobs` by which it could call that: the
// prover compares its type with the type of the impl through all that a `SharedRequester` holds, and meets its step limit.

/// Accepts a link and starts its job. If the job is handed back, runs it, and hangs the link up.
fn take_next<
    A: Acceptor,
    J: LinkSource + Drop + Send + 'static,
    K: LinkSink + Drop + Send + 'static,
    P: Spawner<GateJob<A::Source, A::Sink, J, K, R>>,
    R: Threads + Wait + Copy + Drop + Send + 'static,
>(
    rt: R,
    alloc: Global,
    acceptor: &mut A,
    spawner: &mut P,
    jobs: &mut GatedLinks<'_, '_, J, K, R>,
) -> Result<Option<GateEnd>, ServeFault>
where
    A::Source: Drop + Send + 'static,
    A::Sink: Drop + Send + 'static,
    requires rests { SharedRests (arc_value jobs.old.remote.now) jobs.old.pass.now }
    requires room { P.started spawner.old < 2 ^ 64 - 1 }
    ensures rests { SharedRests (arc_value jobs.new.remote.now) jobs.new.pass.now }
    ensures remote { jobs.new.remote.now ≡ jobs.old.remote.now }
    ensures pass { jobs.new.pass.ghost_name ≡ jobs.old.pass.ghost_name }
    ensures remote_source { seen_by jobs.new.pass.now.source ≡ seen_by jobs.old.pass.now.source }
    ensures served { IfOk result (λ link. TakesLink KeepsKnown GatesByPass (between (A.ended acceptor.old) (A.lost acceptor.old) (P.started spawner.old) jobs.old.pass.now.main) link
        (between (A.ended acceptor.new) (A.lost acceptor.new) (P.started spawner.new) jobs.new.pass.now.main)) }
    ensures err { OnErr result (between (A.ended acceptor.new) (A.lost acceptor.new) (P.started spawner.new) jobs.new.pass.now.main
        ≡ between (A.ended acceptor.old) (A.lost acceptor.old) (P.started spawner.old) jobs.old.pass.now.main) }
    ensures back { IfOk result (λ link. HandsBack link (P.faults spawner.old) (P.faults spawner.new)) }
    ensures back_err { OnErr result (P.faults spawner.new ≡ P.faults spawner.old) }
    ensures never_falls { P.faults spawner.old ≤ P.faults spawner.new }
    ensures counted { MatchResult result
        (λ _. A.faults acceptor.new ≡ A.faults acceptor.old) (λ fault. AcceptorCount fault (A.faults acceptor.old) (A.faults acceptor.new)) }
    ensures asked { A.asked acceptor.new ≡ A.asked acceptor.old }
    ensures listens { A.listens acceptor.new ≡ A.listens acceptor.old }
{
    let Ok(share) = jobs.share() else {
        return Err(ServeFault::Memory);
    };
    let Ok((source, sink)) = acceptor.accept() else {
        drop(share);
        return Err(ServeFault::AcceptFault);
    };
    let job = jobs.make_job(share, source, sink);
    let Err(back) = spawner.start(rt, alloc, job) else {
        return Ok(None);
    };
    let (source, sink, end) = jobs.run_here(back);
    acceptor.hang_up(source, sink);
    Ok(Some(end))
}

/// Takes one link more, and counts its job, or notes its end if it was served here. There is room for that first, so
/// that no link is accepted in vain.
fn take_one<
    A: Acceptor,
    J: LinkSource + Drop + Send + 'static,
    K: LinkSink + Drop + Send + 'static,
    P: Spawner<GateJob<A::Source, A::Sink, J, K, R>>,
    R: Threads + Wait + Copy + Drop + Send + 'static,
>(
    rt: R,
    alloc: Global,
    acceptor: &mut A,
    spawner: &mut P,
    jobs: &mut GatedLinks<'_, '_, J, K, R>,
    started: &mut u64,
    ends: &mut Vec<GateEnd>,
) -> Result<(), ServeFault>
where
    A::Source: Drop + Send + 'static,
    A::Sink: Drop + Send + 'static,
    requires rests { SharedRests (arc_value jobs.old.remote.now) jobs.old.pass.now }
    requires room { P.started spawner.old < 2 ^ 64 - 1 }
    requires count { started.old < 2 ^ 64 - 1 }
    ensures rests { SharedRests (arc_value jobs.new.remote.now) jobs.new.pass.now }
    ensures remote { jobs.new.remote.now ≡ jobs.old.remote.now }
    ensures pass { jobs.new.pass.ghost_name ≡ jobs.old.pass.ghost_name }
    ensures remote_source { seen_by jobs.new.pass.now.source ≡ seen_by jobs.old.pass.now.source }
    ensures served { OnOk result (TakesOne KeepsKnown GatesByPass (between (A.ended acceptor.old) (A.lost acceptor.old) (P.started spawner.old) jobs.old.pass.now.main) ends.old.items ends.new.items
        (between (A.ended acceptor.new) (A.lost acceptor.new) (P.started spawner.new) jobs.new.pass.now.main)) }
    ensures one { OnOk result (started.new + length ends.new.items ≡ started.old + length ends.old.items + 1) }
    ensures started { OnOk result (P.started spawner.new + started.old ≡ P.started spawner.old + started.new) }
    ensures err { OnErr result (between (A.ended acceptor.new) (A.lost acceptor.new) (P.started spawner.new) jobs.new.pass.now.main
        ≡ between (A.ended acceptor.old) (A.lost acceptor.old) (P.started spawner.old) jobs.old.pass.now.main) }
    ensures same_count { OnErr result (started.new ≡ started.old) }
    ensures kept { OnErr result (ends.new.items ≡ ends.old.items) }
    ensures back { OnOk result ((first : ℕ) → first ≤ P.faults spawner.old → BackCount ends.old.items first (P.faults spawner.old) → BackCount ends.new.items first (P.faults spawner.new)) }
    ensures back_err { OnErr result (P.faults spawner.new ≡ P.faults spawner.old) }
    ensures never_falls { P.faults spawner.old ≤ P.faults spawner.new }
    ensures counted { MatchResult result
        (λ _. A.faults acceptor.new ≡ A.faults acceptor.old) (λ fault. AcceptorCount fault (A.faults acceptor.old) (A.faults acceptor.new)) }
    ensures asked { A.asked acceptor.new ≡ A.asked acceptor.old }
    ensures listens { A.listens acceptor.new ≡ A.listens acceptor.old }
{
    if ends.reserve(1).is_err() {
        return Err(ServeFault::Memory);
    }
    let link = match take_next::<A, J, K, P, R>(rt, alloc, acceptor, spawner, jobs) {
        Ok(link) => link,
        Err(fault) => return Err(fault),
    };
    match link {
        None => {
            *started += 1;
            Ok(())
        }
        Some(end) => {
            ends.push_reserved(end);
            Ok(())
        }
    }
}

/// Accepts `connections` links, and has the job of each started by the spawner, or, if the spawner hands it back, runs it here,
/// hangs its link up and notes its end in `ends`, which is empty at first. Answers how many jobs were started.
///
/// # Errors
///
/// [`ServeFault::AcceptFault`] if the acceptor failed, as it does before it listens; [`ServeFault::Memory`] if there is no
/// memory for another link or its end. What was taken until then stays.
pub(crate) fn take_gated<
    A: Acceptor,
    J: LinkSource + Drop + Send + 'static,
    K: LinkSink + Drop + Send + 'static,
    P: Spawner<GateJob<A::Source, A::Sink, J, K, R>>,
    R: Threads + Wait + Copy + Drop + Send + 'static,
>(
    rt: R,
    alloc: Global,
    acceptor: &mut A,
    spawner: &mut P,
    jobs: &mut GatedLinks<'_, '_, J, K, R>,
    connections: u32,
    ends: &mut Vec<GateEnd>,
) -> Result<u64, ServeFault>
where
    A::Source: Drop + Send + 'static,
    A::Sink: Drop + Send + 'static,
    requires rests { SharedRests (arc_value jobs.old.remote.now) jobs.old.pass.now }
    requires room { P.started spawner.old < 2 ^ 63 }
    requires none { ends.old.items ≡ [] }
    ensures rests { SharedRests (arc_value jobs.new.remote.now) jobs.new.pass.now }
    ensures remote { jobs.new.remote.now ≡ jobs.old.remote.now }
    ensures pass { jobs.new.pass.ghost_name ≡ jobs.old.pass.ghost_name }
    ensures remote_source { seen_by jobs.new.pass.now.source ≡ seen_by jobs.old.pass.now.source }
    ensures gated { GatesLinks (between (A.ended acceptor.old) (A.lost acceptor.old) (P.started spawner.old) jobs.old.pass.now.main) ends.new.items
        (between (A.ended acceptor.new) (A.lost acceptor.new) (P.started spawner.new) jobs.new.pass.now.main) }
    ensures all { IfOk result (λ started. (started + length ends.new.items ≡ connections) × (P.started spawner.new ≡ P.started spawner.old + started)) }
    ensures fewer { OnErr result (P.started spawner.new + length ends.new.items < P.started spawner.old + connections) }
    ensures back { BackCount ends.new.items (P.faults spawner.old) (P.faults spawner.new) }
    ensures counted { MatchResult result
        (λ _. A.faults acceptor.new ≡ A.faults acceptor.old) (λ fault. AcceptorCount fault (A.faults acceptor.old) (A.faults acceptor.new)) }
    ensures asked { A.asked acceptor.new ≡ A.asked acceptor.old }
    ensures listens { A.listens acceptor.new ≡ A.listens acceptor.old }
{
    let mut started = 0u64;
    'links: while started + (ends.len() as u64) < u64::from(connections) {
        match take_one::<A, J, K, P, R>(rt, alloc, acceptor, spawner, jobs, &mut started, ends) {
            Ok(()) => {}
            Err(fault) => return Err(fault),
        }
    }
    Ok(started)
}
