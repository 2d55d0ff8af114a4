//! A server, from its configuration to what is printed at its end.

ghost use Rattle.std.specs.Prelude.{◌+◌, ◌<◌, ◌^◌, IfOk, MatchResult};
ghost use Rattle.std.specs.Arc.{arc_value};
ghost use Rattle.nr_words.specs.Settings.{config_settings};
ghost use Rattle.nr_outside.specs.Streams.{Writes, source_at, sink_at};
ghost use Rattle.nr_turnstile.specs.Passes.{Rests};
ghost use Rattle.nr_plain.specs.History.{pass_view};
ghost use Rattle.nr_serve.specs.Serving.{acceptor_at, spawner_at, served_text};
ghost use Rattle.nr_serve.specs.Stops.{Done, GivesOne, InRanges, LinksStopped, OpensServer, OpensShared, ReadsConfig, ServesAndPrints, ServesLinksOf, Stopped, StoppedPrinting, StoppedReading, StopsServing};

use crate::stop::{ServeStop, stop_of_config, stop_of_read, stop_of_serve};
use nr_host::{ConnectionLimits, ServeJob, serve};
use nr_jobs::Spawner;
use nr_links::{Acceptor, Clock};
use nr_nfs_base::{Time, Verifier};
use nr_outside::{INPUT_MAX, Sink, Source, read_whole, write_whole};
use nr_plain::{Server, journal_len, share};
use nr_tree::Tree;
use nr_turnstile::{Machine, Pass, Turnstile};
use nr_words::{Config, read_config};
use nr_xdr::{Memory, Octets};
use std::alloc::Global;
use std::sync::{Arc, Wait};
use std::thread::Threads;

/// The server that many connections share.
type Shared = Arc<Turnstile<Server>, Global>;

/// Reads a configuration.
fn read_settings<I: Source>(alloc: Global, input: &mut I) -> Result<Config, ServeStop>
    ensures ranges { IfOk result (λ config. InRanges (config_settings config)) }
    ensures read { MatchResult result
        (λ config. ReadsConfig (source_at (I.left input.old) (I.given input.old) (I.faults input.old))
        (source_at (I.left input.new) (I.given input.new) (I.faults input.new)) (config_settings config))
        (λ stop. StoppedReading stop (source_at (I.left input.old) (I.given input.old) (I.faults input.old))
        (source_at (I.left input.new) (I.given input.new) (I.faults input.new))) }
{
    let text = match read_whole(alloc, input, INPUT_MAX) {
        Ok(text) => text,
        Err(end) => return Err(stop_of_read(end)),
    };
    match read_config(alloc, text.as_slice()) {
        Ok(config) => Ok(config),
        Err(fault) => Err(stop_of_config(fault)),
    }
}

/// Opens a server over a root alone, which is made at the clock's moment.
fn open_server<C: Clock>(alloc: Global, clock: &mut C, config: &Config) -> Result<Server, Memory>
    requires { InRanges (config_settings config.now) }
    ensures opens { IfOk result (λ server. OpensServer (config_settings config.now) (C.gave clock.old) (C.gave clock.new) server) }
    ensures gave { GivesOne (C.gave clock.old) (C.gave clock.new) }
{
    let moment = clock.now();
    let made = Time {
        seconds: moment.seconds,
        nanoseconds: moment.nanos,
    };
    let Ok(export) = Octets::from_slice(alloc, config.export.as_bytes()) else {
        return Err(Memory);
    };
    let Ok(tree) = Tree::root_only(alloc, made) else {
        return Err(Memory);
    };
    let verifier = Verifier {
        number: u64::from_be_bytes(config.write_verifier),
    };
    Ok(Server::open(tree, config.capacity, verifier, export))
}

/// Opens a server, and puts it behind a turnstile. The pass is the server's own.
fn open_shared<C: Clock>(
    alloc: Global,
    clock: &mut C,
    config: &Config,
) -> Result<(Shared, Pass<Server>), Memory>
    requires { InRanges (config_settings config.now) }
    ensures rests { IfOk result (λ t. Rests (arc_value t.0) t.1) }
    ensures opens { IfOk result (λ t. OpensShared (config_settings config.now) (C.gave clock.old) (C.gave clock.new) (pass_view t.1)) }
    ensures gave { GivesOne (C.gave clock.old) (C.gave clock.new) }
{
    let Ok(server) = open_server(alloc, clock, config) else {
        return Err(Memory);
    };
    let Ok((shared, pass)) = share(alloc, server) else {
        return Err(Memory);
    };
    let Ok(shared) = Arc::new(alloc, shared) else {
        return Err(Memory);
    };
    Ok((shared, pass))
}

/// Listens, and serves the connections of the configuration.
fn serve_links<
    A: Acceptor,
    C: Clock,
    P: Spawner<ServeJob<A::Source, A::Sink, C, R>>,
    R: Threads + Wait + Copy + Drop + Send + 'static,
>(
    rt: R,
    alloc: Global,
    accept: &mut A,
    clock: &C,
    spawn: &mut P,
    shared: &Shared,
    pass: &mut Pass<Server>,
    config: &Config,
) -> Result<(), ServeStop>
where
    A::Source: Drop + Send + 'static,
    A::Sink: Drop + Send + 'static,
    C: Drop + Send + 'static,
    requires ranges { InRanges (config_settings config.now) }
    requires rests { Rests (arc_value shared.now) pass.old }
    requires room { P.started spawn.old < 2 ^ 63 }
    ensures rests { Rests (arc_value shared.now) pass.new }
    ensures served { MatchResult result
        (λ _. ServesLinksOf (config_settings config.now) (acceptor_at (A.asked accept.old) (A.ended accept.old) (A.lost accept.old) (A.faults accept.old)) (acceptor_at (A.asked accept.new) (A.ended accept.new) (A.lost accept.new) (A.faults accept.new)) (spawner_at (P.started spawn.old) (P.ended spawn.old) (P.faults spawn.old)) (spawner_at (P.started spawn.new) (P.ended spawn.new) (P.faults spawn.new)) (pass_view pass.old) (pass_view pass.new))
        (λ stop. LinksStopped stop (config_settings config.now) (acceptor_at (A.asked accept.old) (A.ended accept.old) (A.lost accept.old) (A.faults accept.old)) (acceptor_at (A.asked accept.new) (A.ended accept.new) (A.lost accept.new) (A.faults accept.new)) (spawner_at (P.started spawn.old) (P.ended spawn.old) (P.faults spawn.old)) (spawner_at (P.started spawn.new) (P.ended spawn.new) (P.faults spawn.new)) (pass_view pass.old) (pass_view pass.new)) }
{
    match accept.listen(config.listen.as_str()) {
        Ok(()) => {}
        Err(_) => return Err(ServeStop::Link),
    }
    match serve(
        rt,
        alloc,
        accept,
        spawn,
        shared,
        pass,
        clock,
        ConnectionLimits {
            credits: config.credits as u32,
            low: config.low_credits as u32,
            units: config.units,
            invalidates: config.invalidates,
        },
        config.records,
        config.connections as u32,
    ) {
        Ok(ran) => {
            drop(ran);
            Ok(())
        }
        Err(fault) => Err(stop_of_serve(fault)),
    }
}

/// Prints how many connections were served, and the length of the journal.
#[tactic(auto, unfolding(crate::specs::Serving::served_text))]
fn print_served<O: Sink>(
    alloc: Global,
    out: &mut O,
    connections: u64,
    journal: u64,
) -> Result<(), ServeStop>
    ensures { MatchResult result
        (λ _. Writes (sink_at (O.taken out.old) (O.faults out.old)) (sink_at (O.taken out.new) (O.faults out.new)) (served_text connections journal))
        (λ stop. StoppedPrinting stop (sink_at (O.taken out.old) (O.faults out.old)) (sink_at (O.taken out.new) (O.faults out.new)) (served_text connections journal)) }
{
    let Ok(text) = format!(in alloc; "served {connections} journal {journal}\n") else {
        return Err(ServeStop::Memory);
    };
    match write_whole(out, text.as_bytes()) {
        Ok(()) => Ok(()),
        Err(_) => Err(ServeStop::Output),
    }
}

/// Opens a server, serves the connections of the configuration, and prints that.
fn serve_by<
    O: Sink,
    A: Acceptor,
    C: Clock,
    P: Spawner<ServeJob<A::Source, A::Sink, C, R>>,
    R: Threads + Wait + Copy + Drop + Send + 'static,
>(
    rt: R,
    alloc: Global,
    out: &mut O,
    accept: &mut A,
    clock: &mut C,
    spawn: &mut P,
    config: &Config,
) -> Result<(), ServeStop>
where
    A::Source: Drop + Send + 'static,
    A::Sink: Drop + Send + 'static,
    C: Drop + Send + 'static,
    requires { InRanges (config_settings config.now) × (P.started spawn.old < 2 ^ 63) }
    ensures { MatchResult result
        (λ _. ServesAndPrints (config_settings config.now) (sink_at (O.taken out.old) (O.faults out.old)) (sink_at (O.taken out.new) (O.faults out.new)) (acceptor_at (A.asked accept.old) (A.ended accept.old) (A.lost accept.old) (A.faults accept.old)) (acceptor_at (A.asked accept.new) (A.ended accept.new) (A.lost accept.new) (A.faults accept.new)) (spawner_at (P.started spawn.old) (P.ended spawn.old) (P.faults spawn.old)) (spawner_at (P.started spawn.new) (P.ended spawn.new) (P.faults spawn.new)) (C.gave clock.old) (C.gave clock.new))
        (λ stop. StopsServing stop (config_settings config.now) (sink_at (O.taken out.old) (O.faults out.old)) (sink_at (O.taken out.new) (O.faults out.new)) (acceptor_at (A.asked accept.old) (A.ended accept.old) (A.lost accept.old) (A.faults accept.old)) (acceptor_at (A.asked accept.new) (A.ended accept.new) (A.lost accept.new) (A.faults accept.new)) (spawner_at (P.started spawn.old) (P.ended spawn.old) (P.faults spawn.old)) (spawner_at (P.started spawn.new) (P.ended spawn.new) (P.faults spawn.new)) (C.gave clock.old) (C.gave clock.new)) }
{
    let (shared, pass) = match open_shared(alloc, clock, config) {
        Ok(opened) => opened,
        Err(_) => return Err(ServeStop::Memory),
    };
    let mut pass = pass;
    match serve_links(rt, alloc, accept, clock, spawn, &shared, &mut pass, config) {
        Ok(()) => {}
        Err(stop) => return Err(stop),
    }
    let journal = journal_len(&rt, &shared, &mut pass);
    print_served(alloc, out, config.connections, journal)
}

/// Reads a configuration from `input`, and serves as many connections as it says at its address, each in a job that `spawn` starts,
/// or here, if `spawn` hands it back. After the last one it prints on `out` how many there were, and the length of the journal. The tree
/// is a root alone, made at the first moment of the clock.
///
/// # Errors
///
/// [`ServeStop`] says why it stopped. Nothing is printed then, but for [`ServeStop::Output`], at which a proper prefix of the
/// line may be. What was served until then stays.
pub fn serve_config<
    I: Source,
    O: Sink,
    A: Acceptor,
    C: Clock,
    P: Spawner<ServeJob<A::Source, A::Sink, C, R>>,
    R: Threads + Wait + Copy + Drop + Send + 'static,
>(
    rt: R,
    alloc: Global,
    input: &mut I,
    out: &mut O,
    accept: &mut A,
    clock: &mut C,
    spawn: &mut P,
) -> Result<(), ServeStop>
where
    A::Source: Drop + Send + 'static,
    A::Sink: Drop + Send + 'static,
    C: Drop + Send + 'static,
    requires { P.started spawn.old < 2 ^ 63 }
    ensures { MatchResult result
        (λ _. Done (source_at (I.left input.old) (I.given input.old) (I.faults input.old)) (source_at (I.left input.new) (I.given input.new) (I.faults input.new))
        (sink_at (O.taken out.old) (O.faults out.old)) (sink_at (O.taken out.new) (O.faults out.new))
        (acceptor_at (A.asked accept.old) (A.ended accept.old) (A.lost accept.old) (A.faults accept.old)) (acceptor_at (A.asked accept.new) (A.ended accept.new) (A.lost accept.new) (A.faults accept.new)) (spawner_at (P.started spawn.old) (P.ended spawn.old) (P.faults spawn.old)) (spawner_at (P.started spawn.new) (P.ended spawn.new) (P.faults spawn.new)) (C.gave clock.old) (C.gave clock.new))
        (λ stop. Stopped stop (source_at (I.left input.old) (I.given input.old) (I.faults input.old)) (source_at (I.left input.new) (I.given input.new) (I.faults input.new))
        (sink_at (O.taken out.old) (O.faults out.old)) (sink_at (O.taken out.new) (O.faults out.new))
        (acceptor_at (A.asked accept.old) (A.ended accept.old) (A.lost accept.old) (A.faults accept.old)) (acceptor_at (A.asked accept.new) (A.ended accept.new) (A.lost accept.new) (A.faults accept.new)) (spawner_at (P.started spawn.old) (P.ended spawn.old) (P.faults spawn.old)) (spawner_at (P.started spawn.new) (P.ended spawn.new) (P.faults spawn.new)) (C.gave clock.old) (C.gave clock.new)) }
{
    let config = match read_settings(alloc, input) {
        Ok(config) => config,
        Err(stop) => return Err(stop),
    };
    match serve_by(rt, alloc, out, accept, clock, spawn, &config) {
        Ok(()) => Ok(()),
        Err(stop) => Err(stop),
    }
}
