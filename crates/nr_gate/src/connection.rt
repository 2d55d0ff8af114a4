//! A connection, from its first byte to its end.

ghost use Rattle.std.specs.Prelude.{◌≡◌};
ghost use Rattle.nr_turnstile.specs.Passes.{seen_by};
ghost use Rattle.nr_shared.specs.Sharing.{SharedRests};
ghost use Rattle.nr_record_loop.specs.Connections.{SinkCount, SourceCount, loop_at};
ghost use Rattle.nr_gate.specs.Gating.{IsGated, loop_end};
ghost use Rattle.nr_gate.specs.private.Forwarded.{gate_end};

use crate::forwarding::ForwardedCalls;
use crate::gate_end::GateEnd;
use nr_links::{LinkSink, LinkSource};
use nr_outside::{Sink, Source};
use nr_record_loop::{LoopEnd, serve_calls};
use nr_shared::{AnyCall, Pass, SharedRequester};
use std::alloc::Global;
use std::sync::Wait;

/// The end of a connection, by that of the loop over its records and by the end that a remote call made.
fn end_of(end: LoopEnd, ended: Option<GateEnd>) -> GateEnd
    ensures { result ≡ gate_end end ended }
{
    match end {
        LoopEnd::Closed => GateEnd::Closed,
        LoopEnd::Cut { at } => GateEnd::Cut { at },
        LoopEnd::LinkRead => GateEnd::LinkRead,
        LoopEnd::LinkWrite => GateEnd::LinkWrite,
        LoopEnd::Bad { at, reason } => GateEnd::Bad { at, reason },
        LoopEnd::Budget { read } => GateEnd::Budget { read },
        LoopEnd::Memory => GateEnd::Memory,
        LoopEnd::Unanswered => match ended {
            Some(end) => end,
            None => GateEnd::Closed,
        },
    }
}

/// Serves one connection to its end, whose calls are forwarded.
fn serve_forwarded<R: Wait, I: Source, O: Sink, J: LinkSource + Drop, K: LinkSink + Drop>(
    answers: &mut ForwardedCalls<'_, J, K, R>,
    alloc: Global,
    source: &mut I,
    sink: &mut O,
) -> GateEnd
    requires { SharedRests answers.old.remote.now answers.old.pass.now }
    ensures rests { SharedRests answers.new.remote.now answers.new.pass.now }
    ensures remote { answers.new.remote.now ≡ answers.old.remote.now }
    ensures pass { answers.new.pass.ghost_name ≡ answers.old.pass.ghost_name }
    ensures remote_source { seen_by answers.new.pass.now.source ≡ seen_by answers.old.pass.now.source }
    ensures gated { IsGated (loop_at (I.left source.old) (I.given source.old) (O.taken sink.old) answers.old.pass.now.main)
        (loop_at (I.left source.new) (I.given source.new) (O.taken sink.new) answers.new.pass.now.main) result }
    ensures source_count { SourceCount (loop_end result) (I.faults source.old) (I.faults source.new) }
    ensures sink_count { SinkCount (loop_end result) (O.faults sink.old) (O.faults sink.new) }
{
    let end = serve_calls(answers, alloc, source, sink);
    end_of(end, answers.ended)
}

/// Serves one connection of a client to its end: reads the client's stream, forwards the call of each record over the
/// shared requester, and writes the reply as a record, with the xid of the client's call, before the next one is forwarded.
/// A call of a version of RPC other than 2 is answered at once. It reads no more after a failed write, nor after a call
/// that has no reply.
pub fn gate_connection<R: Wait, I: Source, O: Sink, J: LinkSource + Drop, K: LinkSink + Drop>(
    rt: &R,
    alloc: Global,
    source: &mut I,
    sink: &mut O,
    remote: &SharedRequester<J, K, AnyCall>,
    pass: &mut Pass<J, K, AnyCall>,
) -> GateEnd
    requires { SharedRests remote.now pass.old }
    ensures rests { SharedRests remote.now pass.new }
    ensures remote_source { seen_by pass.new.source ≡ seen_by pass.old.source }
    ensures gated { IsGated (loop_at (I.left source.old) (I.given source.old) (O.taken sink.old) pass.old.main)
        (loop_at (I.left source.new) (I.given source.new) (O.taken sink.new) pass.new.main) result }
    ensures source_count { SourceCount (loop_end result) (I.faults source.old) (I.faults source.new) }
    ensures sink_count { SinkCount (loop_end result) (O.faults sink.old) (O.faults sink.new) }
{
    let mut answers = ForwardedCalls {
        rt,
        remote,
        pass,
        ended: None,
    };
    serve_forwarded(&mut answers, alloc, source, sink)
}
