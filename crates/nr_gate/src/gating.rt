//! A gateway of several connections.

ghost use Rattle.std.specs.Prelude.{◌≡◌, ◌+◌, ◌<◌, ◌^◌, List, length, IfOk, OnErr, MatchResult};
ghost use Rattle.std.specs.Arc.{arc_value};
ghost use Rattle.nr_turnstile.specs.Passes.{seen_by};
ghost use Rattle.nr_shared.specs.Sharing.{SharedRests};
ghost use Rattle.nr_accept.specs.Accepting.{AcceptorCount, BackCount, between};
ghost use Rattle.nr_gate.specs.declared.gate_end.GateEnd.{GateEnd};
ghost use Rattle.nr_gate.specs.GateLinks.{GatesLinks};

use crate::gate_end::GateEnd;
use crate::gated_links::GatedLinks;
use crate::job::GateJob;
use crate::taking::take_gated;
use nr_accept::ServeFault;
use nr_jobs::Spawner;
use nr_links::{Acceptor, LinkSink, LinkSource};
use nr_outside::{Sink, Source};
use nr_reduce::Sequence;
use nr_shared::{AnyCall, Pass, SharedRequester};
use std::alloc::Global;
use std::sync::{Arc, Wait};
use std::thread::Threads;

/// The ends of connections of a gateway, in order.
pub type GateEnds = Sequence<GateEnd>;

/// What a gateway served.
#[derive(Drop)]
pub struct Gated {
    /// How many jobs of connections the spawner counted as started.
    pub started: u64,
    /// How each other connection ended, in the order in which they were accepted.
    pub ends: GateEnds,
}

/// Serves links by these jobs, and waits until all have ended.
fn gate_links<
    A: Acceptor,
    J: LinkSource + Drop + Send + 'static,
    K: LinkSink + Drop + Send + 'static,
    P: Spawner<GateJob<A::Source, A::Sink, J, K, R>>,
    R: Threads + Wait + Copy + Drop + Send + 'static,
>(
    rt: R,
    alloc: Global,
    acceptor: &mut A,
    spawner: &mut P,
    jobs: &mut GatedLinks<'_, '_, J, K, R>,
    connections: u32,
) -> Result<Gated, ServeFault>
where
    A::Source: Drop + Send + 'static,
    A::Sink: Drop + Send + 'static,
    requires rests { SharedRests (arc_value jobs.old.remote.now) jobs.old.pass.now }
    requires room { P.started spawner.old < 2 ^ 63 }
    ensures rests { SharedRests (arc_value jobs.new.remote.now) jobs.new.pass.now }
    ensures remote { jobs.new.remote.now ≡ jobs.old.remote.now }
    ensures pass { jobs.new.pass.ghost_name ≡ jobs.old.pass.ghost_name }
    ensures remote_source { seen_by jobs.new.pass.now.source ≡ seen_by jobs.old.pass.now.source }
    ensures gated { IfOk result (λ gated. GatesLinks (between (A.ended acceptor.old) (A.lost acceptor.old) (P.started spawner.old) jobs.old.pass.now.main) gated.ends
        (between (A.ended acceptor.new) (A.lost acceptor.new) (P.started spawner.new) jobs.new.pass.now.main)) }
    ensures all { IfOk result (λ gated. (gated.started + length gated.ends ≡ connections) × (P.started spawner.new ≡ P.started spawner.old + gated.started)) }
    ensures back { IfOk result (λ gated. BackCount gated.ends (P.faults spawner.old) (P.faults spawner.new)) }
    ensures ended { P.ended spawner.new ≡ P.started spawner.new }
    ensures err { OnErr result ((ends : List GateEnd) × ((P.started spawner.new + length ends < P.started spawner.old + connections)
        × (GatesLinks (between (A.ended acceptor.old) (A.lost acceptor.old) (P.started spawner.old) jobs.old.pass.now.main) ends
        (between (A.ended acceptor.new) (A.lost acceptor.new) (P.started spawner.new) jobs.new.pass.now.main)
        × BackCount ends (P.faults spawner.old) (P.faults spawner.new)))) }
    ensures counted { MatchResult result
        (λ _. A.faults acceptor.new ≡ A.faults acceptor.old) (λ fault. AcceptorCount fault (A.faults acceptor.old) (A.faults acceptor.new)) }
    ensures asked { A.asked acceptor.new ≡ A.asked acceptor.old }
    ensures listens { A.listens acceptor.new ≡ A.listens acceptor.old }
{
    let mut ends = Vec::new(alloc);
    let taken = take_gated::<A, J, K, P, R>(
        rt,
        alloc,
        acceptor,
        spawner,
        jobs,
        connections,
        &mut ends,
    );
    spawner.finish(&rt);
    match taken {
        Ok(started) => Ok(Gated {
            started,
            ends: GateEnds::from_vec(ends),
        }),
        Err(fault) => {
            drop(ends);
            Err(fault)
        }
    }
}

/// Accepts `connections` links. The connection of each is served to its end, whatever its end is, over the shared requester: in
/// a job that the spawner starts, or, if the spawner hands it back, here. Waits until all jobs have ended.
///
/// # Errors
///
/// [`ServeFault::AcceptFault`] if the acceptor failed, as it does before it listens; [`ServeFault::Memory`] if there is
/// no memory for another link or its end. What was served until then stays.
pub fn gate<
    A: Acceptor,
    J: LinkSource + Drop + Send + 'static,
    K: LinkSink + Drop + Send + 'static,
    P: Spawner<GateJob<A::Source, A::Sink, J, K, R>>,
    R: Threads + Wait + Copy + Drop + Send + 'static,
>(
    rt: R,
    alloc: Global,
    acceptor: &mut A,
    spawner: &mut P,
    remote: &Arc<SharedRequester<J, K, AnyCall>, Global>,
    pass: &mut Pass<J, K, AnyCall>,
    connections: u32,
) -> Result<Gated, ServeFault>
where
    A::Source: Drop + Send + 'static,
    A::Sink: Drop + Send + 'static,
    requires rests { SharedRests (arc_value remote.now) pass.old }
    requires room { P.started spawner.old < 2 ^ 63 }
    ensures rests { SharedRests (arc_value remote.now) pass.new }
    ensures remote_source { seen_by pass.new.source ≡ seen_by pass.old.source }
    ensures gated { IfOk result (λ gated. GatesLinks (between (A.ended acceptor.old) (A.lost acceptor.old) (P.started spawner.old) pass.old.main) gated.ends
        (between (A.ended acceptor.new) (A.lost acceptor.new) (P.started spawner.new) pass.new.main)) }
    ensures all { IfOk result (λ gated. (gated.started + length gated.ends ≡ connections) × (P.started spawner.new ≡ P.started spawner.old + gated.started)) }
    ensures back { IfOk result (λ gated. BackCount gated.ends (P.faults spawner.old) (P.faults spawner.new)) }
    ensures ended { P.ended spawner.new ≡ P.started spawner.new }
    ensures err { OnErr result ((ends : List GateEnd) × ((P.started spawner.new + length ends < P.started spawner.old + connections)
        × (GatesLinks (between (A.ended acceptor.old) (A.lost acceptor.old) (P.started spawner.old) pass.old.main) ends
        (between (A.ended acceptor.new) (A.lost acceptor.new) (P.started spawner.new) pass.new.main)
        × BackCount ends (P.faults spawner.old) (P.faults spawner.new)))) }
    ensures counted { MatchResult result
        (λ _. A.faults acceptor.new ≡ A.faults acceptor.old) (λ fault. AcceptorCount fault (A.faults acceptor.old) (A.faults acceptor.new)) }
    ensures asked { A.asked acceptor.new ≡ A.asked acceptor.old }
    ensures listens { A.listens acceptor.new ≡ A.listens acceptor.old }
{
    // The struct only borrows what it has, so the borrow of the pass ends without a drop.
    let handle = rt;
    let mut jobs = GatedLinks {
        rt: &handle,
        alloc,
        remote,
        pass,
    };
    gate_links::<A, J, K, P, R>(rt, alloc, acceptor, spawner, &mut jobs, connections)
}
