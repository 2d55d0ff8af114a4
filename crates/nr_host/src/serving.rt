//! A server of several connections.

ghost use Rattle.std.specs.Prelude.{◌≡◌, ◌+◌, ◌<◌, ◌^◌, List, [], length, IfOk, OnErr, MatchResult};
ghost use Rattle.std.specs.Arc.{arc_value};
ghost use Rattle.nr_turnstile.specs.Passes.{Rests};
ghost use Rattle.nr_plain.specs.History.{pass_view};
ghost use Rattle.nr_host.specs.declared.link_end.LinkEnd.{LinkEnd};
ghost use Rattle.nr_host.specs.Serving.{AcceptorCount, BackCount, Serves, between};

use crate::connection_limits::ConnectionLimits;
use crate::job::ServeJob;
use crate::link_end::LinkEnd;
use crate::served_links::ServedLinks;
use nr_accept::{ServeFault, take_links};
use nr_jobs::Spawner;
use nr_links::{Acceptor, Clock};
use nr_outside::raise_trim_threshold;
use nr_plain::Server;
use nr_reduce::Sequence;
use nr_turnstile::{Machine, Pass, Turnstile};
use std::alloc::Global;
use std::sync::{Arc, Wait};
use std::thread::Threads;

/// The ends of connections, in order.
pub type Ends = Sequence<LinkEnd>;

/// What a server served.
#[derive(Drop)]
pub struct Ran {
    /// How many jobs of connections the spawner counted as started.
    pub started: u64,
    /// How each other connection ended, in the order in which they were accepted.
    pub ends: Ends,
}

/// The size of the block by which the allocator is made to keep free memory from one call to the next, in bytes.
const TRIM_BLOCK_LEN: usize = 1 << 21;

/// Accepts `connections` links, and starts the job of each or serves it here. Answers how many jobs were started.
fn take_served<
    A: Acceptor,
    C: Clock,
    P: Spawner<ServeJob<A::Source, A::Sink, C, R>>,
    R: Threads + Wait + Copy + Drop + Send + 'static,
>(
    rt: R,
    alloc: Global,
    acceptor: &mut A,
    spawner: &mut P,
    jobs: &mut ServedLinks<'_, '_, C, R>,
    connections: u32,
    ends: &mut Vec<LinkEnd>,
) -> Result<u64, ServeFault>
where
    A::Source: Drop + Send + 'static,
    A::Sink: Drop + Send + 'static,
    C: Drop + Send + 'static,
    requires rests { Rests (arc_value jobs.old.shared.now) jobs.old.pass.now }
    requires room { P.started spawner.old < 2 ^ 63 }
    requires none { ends.old.items ≡ [] }
    ensures rests { Rests (arc_value jobs.new.shared.now) jobs.new.pass.now }
    ensures shared { jobs.new.shared.now ≡ jobs.old.shared.now }
    ensures pass { jobs.new.pass.ghost_name ≡ jobs.old.pass.ghost_name }
    ensures served { Serves jobs.old.limits jobs.old.records
        (between (A.ended acceptor.old) (A.lost acceptor.old) (P.started spawner.old) (pass_view jobs.old.pass.now)) ends.new.items
        (between (A.ended acceptor.new) (A.lost acceptor.new) (P.started spawner.new) (pass_view jobs.new.pass.now)) }
    ensures all { IfOk result (λ started. (started + length ends.new.items ≡ connections) × (P.started spawner.new ≡ P.started spawner.old + started)) }
    ensures fewer { OnErr result (P.started spawner.new + length ends.new.items < P.started spawner.old + connections) }
    ensures back { BackCount ends.new.items (P.faults spawner.old) (P.faults spawner.new) }
    ensures counted { MatchResult result
        (λ _. A.faults acceptor.new ≡ A.faults acceptor.old) (λ fault. AcceptorCount fault (A.faults acceptor.old) (A.faults acceptor.new)) }
    ensures asked { A.asked acceptor.new ≡ A.asked acceptor.old }
    ensures listens { A.listens acceptor.new ≡ A.listens acceptor.old }
{
    take_links::<A, ServeJob<A::Source, A::Sink, C, R>, _, P, R>(
        rt,
        alloc,
        acceptor,
        spawner,
        jobs,
        connections,
        ends,
    )
}

/// Serves links by these jobs, and waits until all have ended.
fn serve_links<
    A: Acceptor,
    C: Clock,
    P: Spawner<ServeJob<A::Source, A::Sink, C, R>>,
    R: Threads + Wait + Copy + Drop + Send + 'static,
>(
    rt: R,
    alloc: Global,
    acceptor: &mut A,
    spawner: &mut P,
    jobs: &mut ServedLinks<'_, '_, C, R>,
    connections: u32,
) -> Result<Ran, ServeFault>
where
    A::Source: Drop + Send + 'static,
    A::Sink: Drop + Send + 'static,
    C: Drop + Send + 'static,
    requires rests { Rests (arc_value jobs.old.shared.now) jobs.old.pass.now }
    requires room { P.started spawner.old < 2 ^ 63 }
    ensures rests { Rests (arc_value jobs.new.shared.now) jobs.new.pass.now }
    ensures shared { jobs.new.shared.now ≡ jobs.old.shared.now }
    ensures pass { jobs.new.pass.ghost_name ≡ jobs.old.pass.ghost_name }
    ensures served { IfOk result (λ ran. Serves jobs.old.limits jobs.old.records
        (between (A.ended acceptor.old) (A.lost acceptor.old) (P.started spawner.old) (pass_view jobs.old.pass.now)) ran.ends
        (between (A.ended acceptor.new) (A.lost acceptor.new) (P.started spawner.new) (pass_view jobs.new.pass.now))) }
    ensures all { IfOk result (λ ran. (ran.started + length ran.ends ≡ connections) × (P.started spawner.new ≡ P.started spawner.old + ran.started)) }
    ensures back { IfOk result (λ ran. BackCount ran.ends (P.faults spawner.old) (P.faults spawner.new)) }
    ensures ended { P.ended spawner.new ≡ P.started spawner.new }
    ensures err { OnErr result ((ends : List LinkEnd) × ((P.started spawner.new + length ends < P.started spawner.old + connections) × (Serves jobs.old.limits jobs.old.records
        (between (A.ended acceptor.old) (A.lost acceptor.old) (P.started spawner.old) (pass_view jobs.old.pass.now)) ends
        (between (A.ended acceptor.new) (A.lost acceptor.new) (P.started spawner.new) (pass_view jobs.new.pass.now))
        × BackCount ends (P.faults spawner.old) (P.faults spawner.new)))) }
    ensures counted { MatchResult result
        (λ _. A.faults acceptor.new ≡ A.faults acceptor.old) (λ fault. AcceptorCount fault (A.faults acceptor.old) (A.faults acceptor.new)) }
    ensures asked { A.asked acceptor.new ≡ A.asked acceptor.old }
    ensures listens { A.listens acceptor.new ≡ A.listens acceptor.old }
{
    let mut ends = Vec::new(alloc);
    let taken = take_served::<A, C, P, R>(
        rt,
        alloc,
        acceptor,
        spawner,
        jobs,
        connections,
        &mut ends,
    );
    spawner.finish(&rt);
    match taken {
        Ok(started) => Ok(Ran {
            started,
            ends: Ends::from_vec(ends),
        }),
        Err(fault) => {
            drop(ends);
            Err(fault)
        }
    }
}

/// Accepts `connections` links. Each is served to its end, whatever its end is: in a job that the spawner starts, or,
/// if the spawner hands it back, here. Each has these limits, and with `records` it may carry RPC over TCP with record
/// marks, as its first byte says. Waits until all jobs have ended.
///
/// # Errors
///
/// [`ServeFault::AcceptFault`] if the acceptor failed, as it does before it listens; [`ServeFault::Memory`] if there is
/// no memory for another link or its end. What was served until then stays.
pub fn serve<
    A: Acceptor,
    C: Clock,
    P: Spawner<ServeJob<A::Source, A::Sink, C, R>>,
    R: Threads + Wait + Copy + Drop + Send + 'static,
>(
    rt: R,
    alloc: Global,
    acceptor: &mut A,
    spawner: &mut P,
    shared: &Arc<Turnstile<Server>, Global>,
    pass: &mut Pass<Server>,
    clock: &C,
    limits: ConnectionLimits,
    records: bool,
    connections: u32,
) -> Result<Ran, ServeFault>
where
    A::Source: Drop + Send + 'static,
    A::Sink: Drop + Send + 'static,
    C: Drop + Send + 'static,
    requires rests { Rests (arc_value shared.now) pass.old }
    requires room { P.started spawner.old < 2 ^ 63 }
    ensures rests { Rests (arc_value shared.now) pass.new }
    ensures served { IfOk result (λ ran. Serves limits records
        (between (A.ended acceptor.old) (A.lost acceptor.old) (P.started spawner.old) (pass_view pass.old)) ran.ends
        (between (A.ended acceptor.new) (A.lost acceptor.new) (P.started spawner.new) (pass_view pass.new))) }
    ensures all { IfOk result (λ ran. (ran.started + length ran.ends ≡ connections) × (P.started spawner.new ≡ P.started spawner.old + ran.started)) }
    ensures back { IfOk result (λ ran. BackCount ran.ends (P.faults spawner.old) (P.faults spawner.new)) }
    ensures ended { P.ended spawner.new ≡ P.started spawner.new }
    ensures err { OnErr result ((ends : List LinkEnd) × ((P.started spawner.new + length ends < P.started spawner.old + connections) × (Serves limits records
        (between (A.ended acceptor.old) (A.lost acceptor.old) (P.started spawner.old) (pass_view pass.old)) ends
        (between (A.ended acceptor.new) (A.lost acceptor.new) (P.started spawner.new) (pass_view pass.new))
        × BackCount ends (P.faults spawner.old) (P.faults spawner.new)))) }
    ensures counted { MatchResult result
        (λ _. A.faults acceptor.new ≡ A.faults acceptor.old) (λ fault. AcceptorCount fault (A.faults acceptor.old) (A.faults acceptor.new)) }
    ensures asked { A.asked acceptor.new ≡ A.asked acceptor.old }
    ensures listens { A.listens acceptor.new ≡ A.listens acceptor.old }
{
    raise_trim_threshold(alloc, TRIM_BLOCK_LEN);
    let handle = rt;
    let mut jobs = ServedLinks {
        rt: &handle,
        alloc,
        shared,
        pass,
        clock,
        limits,
        records,
    };
    serve_links::<A, C, P, R>(rt, alloc, acceptor, spawner, &mut jobs, connections)
}
