//! A gateway that a configuration asks for: its status, and what is reported.

ghost use Rattle.std.specs.Prelude.{◌<◌, ◌^◌};
ghost use Rattle.nr_outside.specs.Streams.{source_at, sink_at};
ghost use Rattle.nr_client.specs.Dialing.{dialer_at};
ghost use Rattle.nr_serve.specs.Serving.{acceptor_at, spawner_at};
ghost use Rattle.nr_shared.specs.declared.call_rule.AnyCall.{AnyCall};
ghost use Rattle.nr_gateway.specs.Gateways.{around};
ghost use Rattle.nr_top.specs.Gating.{GatewayEnds};

use crate::serving::report_stop;
use crate::status::DONE;
use nr_gate::GateJob;
use nr_gateway::gate_config;
use nr_jobs::Spawner;
use nr_links::{Acceptor, Dialer, LinkSink, LinkSource};
use nr_outside::{Sink, Source};
use nr_shared::AnyCall;
use std::alloc::Global;
use std::sync::Wait;
use std::thread::Threads;

/// Serves as the configuration of a gateway asks for, and gives the status: 0 if [`gate_config`] gave `Ok`, whatever the ends of
/// its connections are. Else `err` takes the reason. 2: memory ran out. 3: the fault count of the acceptor or of the dialer rose. 9:
/// that of `input`, `out` or `err` rose. 10: the input is no configuration of a gateway. 11: the input is too long.
pub(crate) fn run_gateway<
    I: Source,
    O: Sink,
    E: Sink,
    A: Acceptor,
    P: LinkSource + Drop + Send + 'static,
    Q: LinkSink + Drop + Send + 'static,
    D: Dialer<Source = P, Sink = Q>,
    G: Spawner<GateJob<A::Source, A::Sink, P, Q, R>>,
    R: Threads + Wait + Copy + Drop + Send + 'static,
>(
    rt: R,
    alloc: Global,
    input: &mut I,
    out: &mut O,
    err: &mut E,
    accept: &mut A,
    dial: &mut D,
    gates: &mut G,
) -> u8
where
    A::Source: Drop + Send + 'static,
    A::Sink: Drop + Send + 'static,
    requires { G.started gates.old < 2 ^ 63 }
    ensures { GatewayEnds Q AnyCall result (source_at (I.left input.old) (I.given input.old) (I.faults input.old)) (source_at (I.left input.new) (I.given input.new) (I.faults input.new))
        (sink_at (O.taken out.old) (O.faults out.old)) (sink_at (O.taken out.new) (O.faults out.new))
        (sink_at (E.taken err.old) (E.faults err.old)) (sink_at (E.taken err.new) (E.faults err.new))
        (around (acceptor_at (A.asked accept.old) (A.ended accept.old) (A.lost accept.old) (A.faults accept.old)) (dialer_at (D.asked dial.old) (D.ended dial.old) (D.lost dial.old) (D.faults dial.old)) (spawner_at (G.started gates.old) (G.ended gates.old) (G.faults gates.old)))
        (around (acceptor_at (A.asked accept.new) (A.ended accept.new) (A.lost accept.new) (A.faults accept.new)) (dialer_at (D.asked dial.new) (D.ended dial.new) (D.lost dial.new) (D.faults dial.new)) (spawner_at (G.started gates.new) (G.ended gates.new) (G.faults gates.new))) }
{
    match gate_config::<I, O, A, P, Q, D, G, R>(rt, alloc, input, out, accept, dial, gates) {
        Ok(()) => DONE,
        Err(stop) => report_stop(stop, err),
    }
}
