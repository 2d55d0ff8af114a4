//! A run of the program: from the words to what is printed, and the status.

ghost use Rattle.std.specs.Prelude.{◌≡◌, ◌<◌, ◌^◌, map, true};
ghost use Rattle.std.specs.String.{string_bytes};
ghost use Rattle.nr_outside.specs.Streams.{source_at, sink_at};
ghost use Rattle.nr_words.specs.Lines.{plain_command};
ghost use Rattle.nr_words.specs.Reads.{is_command};
ghost use Rattle.nr_client.specs.Dialing.{dialer_at};
ghost use Rattle.nr_serve.specs.Serving.{acceptor_at, spawner_at};
ghost use Rattle.nr_shared.specs.declared.call_rule.AnyCall.{AnyCall};
ghost use Rattle.nr_top.specs.RunEnds.{CommandEnds, RunEnds, outside};

use crate::client::{run_client, run_get, run_numbered_client};
use crate::drill::{ScriptSource, run_drill};
use crate::gating::run_gateway;
use crate::report::answer_words;
use crate::serving::run_server;
use nr_gate::GateJob;
use nr_host::ServeJob;
use nr_jobs::Spawner;
use nr_links::{Acceptor, Clock, Dialer, LinkSink, LinkSource};
use nr_outside::{Sink, Source};
use nr_shared::AnyCall;
use nr_words::{Command, read_words};
use std::alloc::Global;
use std::sync::Wait;
use std::thread::Threads;

/// Runs a command, and gives the status.
fn dispatch<
    I: Source,
    O: Sink,
    E: Sink,
    P: LinkSource,
    Q: LinkSink,
    D: Dialer<Source = P, Sink = Q>,
    A: Acceptor,
    C: Clock,
    S: Spawner<ServeJob<A::Source, A::Sink, C, R>>,
    G: Spawner<GateJob<A::Source, A::Sink, P, Q, R>>,
    R: Threads + Wait + Copy + Drop + Send + Sync + 'static,
>(
    rt: R,
    alloc: Global,
    command: &Command<&str>,
    input: &mut I,
    out: &mut O,
    err: &mut E,
    dial: &mut D,
    accept: &mut A,
    clock: &mut C,
    spawn: &mut S,
    gates: &mut G,
) -> u8
where
    P: Drop + Send + 'static,
    Q: Drop + Send + 'static,
    A::Source: Drop + Send + 'static,
    A::Sink: Drop + Send + 'static,
    C: Drop + Send + 'static,
    requires line { is_command (plain_command command.now) ≡ true }
    requires room { S.started spawn.old < 2 ^ 63 }
    requires gates_room { G.started gates.old < 2 ^ 63 }
    ensures { CommandEnds Q AnyCall (plain_command command.now) result
        (outside (source_at (I.left input.old) (I.given input.old) (I.faults input.old)) (sink_at (O.taken out.old) (O.faults out.old)) (sink_at (E.taken err.old) (E.faults err.old))
        (dialer_at (D.asked dial.old) (D.ended dial.old) (D.lost dial.old) (D.faults dial.old)) (acceptor_at (A.asked accept.old) (A.ended accept.old) (A.lost accept.old) (A.faults accept.old)) (spawner_at (S.started spawn.old) (S.ended spawn.old) (S.faults spawn.old)) (spawner_at (G.started gates.old) (G.ended gates.old) (G.faults gates.old)) (C.gave clock.old))
        (outside (source_at (I.left input.new) (I.given input.new) (I.faults input.new)) (sink_at (O.taken out.new) (O.faults out.new)) (sink_at (E.taken err.new) (E.faults err.new))
        (dialer_at (D.asked dial.new) (D.ended dial.new) (D.lost dial.new) (D.faults dial.new)) (acceptor_at (A.asked accept.new) (A.ended accept.new) (A.lost accept.new) (A.faults accept.new)) (spawner_at (S.started spawn.new) (S.ended spawn.new) (S.faults spawn.new)) (spawner_at (G.started gates.new) (G.ended gates.new) (G.faults gates.new)) (C.gave clock.new)) }
{
    match command {
        Command::Client { client } => run_client(alloc, client, dial, input, out, err),
        Command::NumberedClient { client } => {
            run_numbered_client(&rt, alloc, client, dial, input, out, err)
        },
        Command::GetByJobs { get } => run_get(&rt, alloc, get, dial, out, err),
        Command::Serve { config: _config } => {
            run_server(rt, alloc, input, out, err, accept, clock, spawn)
        },
        Command::Gate { config: _config } => {
            run_gateway(rt, alloc, input, out, err, accept, dial, gates)
        },
        Command::Drill { log } => run_drill(alloc, ScriptSource::Input, *log, input, out, err),
        Command::GeneratedDrill {
            seed,
            clients,
            calls,
            log,
        } => {
            let calls = *calls as u64;
            run_drill(
                alloc,
                ScriptSource::Seed {
                    seed: *seed,
                    clients: *clients,
                    calls,
                },
                *log,
                input,
                out,
                err,
            )
        }
    }
}

/// Runs the program, and gives the status. The words are the name under which it was started, and a command with its
/// options; `--help` and `--version` are answered on `out`. A command of a client dials its address by `dial`, and `put` reads
/// the bytes of its file from `input`; `serve` reads its configuration from `input`, listens by `accept`, takes the time from
/// `clock`, and has `spawn` start a job for each connection; `gate` reads its configuration from `input`, listens by `accept`,
/// dials its remote server by `dial`, and has `gates` start a job for each connection; a drill reads its script from `input`.
/// What is printed goes to `out`; `err` takes the reason if the command isn't done.
///
/// `RunEnds` of the specs says what each status means. 0: the command was done. 1: the words are refused.
/// 2: memory ran out. 3: a fault count of `dial` or `accept` rose, or the count of lost links. 4: the server ended its
/// stream, or the link of a client with a number was lost once more after all tries. 5: the protocol of the link was broken, or a reply had no results. 6: a call or a mount was refused. 7: an NFS
/// procedure failed. 8: the server answered ERR_CHUNK or ERR_VERS. 9: a fault count of `input`, `out` or `err` rose. 10: the
/// script, the configuration or a path is bad. 11: a limit was passed.
pub fn run<
    I: Source,
    O: Sink,
    E: Sink,
    P: LinkSource,
    Q: LinkSink,
    D: Dialer<Source = P, Sink = Q>,
    A: Acceptor,
    C: Clock,
    S: Spawner<ServeJob<A::Source, A::Sink, C, R>>,
    G: Spawner<GateJob<A::Source, A::Sink, P, Q, R>>,
    R: Threads + Wait + Copy + Drop + Send + Sync + 'static,
>(
    rt: R,
    alloc: Global,
    words: &[String],
    input: &mut I,
    out: &mut O,
    err: &mut E,
    dial: &mut D,
    accept: &mut A,
    clock: &mut C,
    spawn: &mut S,
    gates: &mut G,
) -> u8
where
    P: Drop + Send + 'static,
    Q: Drop + Send + 'static,
    A::Source: Drop + Send + 'static,
    A::Sink: Drop + Send + 'static,
    C: Drop + Send + 'static,
    requires { (S.started spawn.old < 2 ^ 63) × (G.started gates.old < 2 ^ 63) }
    ensures { RunEnds Q AnyCall (map string_bytes words.now) result
        (outside (source_at (I.left input.old) (I.given input.old) (I.faults input.old)) (sink_at (O.taken out.old) (O.faults out.old)) (sink_at (E.taken err.old) (E.faults err.old))
        (dialer_at (D.asked dial.old) (D.ended dial.old) (D.lost dial.old) (D.faults dial.old)) (acceptor_at (A.asked accept.old) (A.ended accept.old) (A.lost accept.old) (A.faults accept.old)) (spawner_at (S.started spawn.old) (S.ended spawn.old) (S.faults spawn.old)) (spawner_at (G.started gates.old) (G.ended gates.old) (G.faults gates.old)) (C.gave clock.old))
        (outside (source_at (I.left input.new) (I.given input.new) (I.faults input.new)) (sink_at (O.taken out.new) (O.faults out.new)) (sink_at (E.taken err.new) (E.faults err.new))
        (dialer_at (D.asked dial.new) (D.ended dial.new) (D.lost dial.new) (D.faults dial.new)) (acceptor_at (A.asked accept.new) (A.ended accept.new) (A.lost accept.new) (A.faults accept.new)) (spawner_at (S.started spawn.new) (S.ended spawn.new) (S.faults spawn.new)) (spawner_at (G.started gates.new) (G.ended gates.new) (G.faults gates.new)) (C.gave clock.new)) }
{
    match read_words(alloc, words) {
        Ok(command) => dispatch(
            rt, alloc, &command, input, out, err, dial, accept, clock, spawn, gates,
        ),
        Err(fault) => answer_words(fault, out, err),
    }
}
