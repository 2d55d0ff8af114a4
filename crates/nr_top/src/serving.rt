//! A server that a configuration asks for: its status, and what is reported.

ghost use Rattle.std.specs.Prelude.{◌<◌, ◌^◌};
ghost use Rattle.nr_outside.specs.Streams.{source_at, sink_at};
ghost use Rattle.nr_serve.specs.Serving.{acceptor_at, spawner_at};
ghost use Rattle.nr_top.specs.Serving.{ReportsStop, ServeEnds};

use crate::report::write_error;
use crate::status::{BAD_INPUT, DONE, FAULT, LINK_FAULT, NO_MEMORY, OVER_BUDGET};
use nr_host::ServeJob;
use nr_jobs::Spawner;
use nr_links::{Acceptor, Clock};
use nr_outside::{Sink, Source};
use nr_serve::{ServeStop, serve_config};
use std::alloc::Global;
use std::sync::Wait;
use std::thread::Threads;

/// Reports on `err` why a server or a gateway stopped, and gives the status.
pub(crate) fn report_stop<E: Sink>(stop: ServeStop, err: &mut E) -> u8
    ensures { ReportsStop stop result (sink_at (E.taken err.old) (E.faults err.old)) (sink_at (E.taken err.new) (E.faults err.new)) }
{
    match stop {
        ServeStop::Memory => write_error(err, b"memory\n", NO_MEMORY),
        ServeStop::Link => write_error(err, b"link fault\n", LINK_FAULT),
        ServeStop::Input => write_error(err, b"input fault\n", FAULT),
        ServeStop::Output => write_error(err, b"output fault\n", FAULT),
        ServeStop::Configuration => write_error(err, b"bad configuration\n", BAD_INPUT),
        ServeStop::Budget => write_error(err, b"budget 16777216\n", OVER_BUDGET),
    }
}

/// Serves as a configuration asks for, and gives the status: 0 if [`serve_config`] gave `Ok`. Else `err` takes the reason. 2: memory
/// ran out. 3: the acceptor's fault count rose. 9: that of `input`, `out` or `err` rose. 10: the input is no configuration. 11: the
/// input is too long.
pub fn run_server<
    I: Source,
    O: Sink,
    E: Sink,
    A: Acceptor,
    C: Clock,
    P: Spawner<ServeJob<A::Source, A::Sink, C, R>>,
    R: Threads + Wait + Copy + Drop + Send + 'static,
>(
    rt: R,
    alloc: Global,
    input: &mut I,
    out: &mut O,
    err: &mut E,
    accept: &mut A,
    clock: &mut C,
    spawn: &mut P,
) -> u8
where
    A::Source: Drop + Send + 'static,
    A::Sink: Drop + Send + 'static,
    C: Drop + Send + 'static,
    requires { P.started spawn.old < 2 ^ 63 }
    ensures { ServeEnds result (source_at (I.left input.old) (I.given input.old) (I.faults input.old)) (source_at (I.left input.new) (I.given input.new) (I.faults input.new))
        (sink_at (O.taken out.old) (O.faults out.old)) (sink_at (O.taken out.new) (O.faults out.new))
        (sink_at (E.taken err.old) (E.faults err.old)) (sink_at (E.taken err.new) (E.faults err.new))
        (acceptor_at (A.asked accept.old) (A.ended accept.old) (A.lost accept.old) (A.faults accept.old)) (acceptor_at (A.asked accept.new) (A.ended accept.new) (A.lost accept.new) (A.faults accept.new))
        (spawner_at (P.started spawn.old) (P.ended spawn.old) (P.faults spawn.old)) (spawner_at (P.started spawn.new) (P.ended spawn.new) (P.faults spawn.new)) (C.gave clock.old) (C.gave clock.new) }
{
    match serve_config(rt, alloc, input, out, accept, clock, spawn) {
        Ok(()) => DONE,
        Err(stop) => report_stop(stop, err),
    }
}
