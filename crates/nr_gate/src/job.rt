//! The work of one connection of a gateway, for a thread of its own.

ghost use Rattle.std.specs.Prelude.{◌≡◌};
ghost use Rattle.nr_turnstile.specs.Passes.{seen_by};
ghost use Rattle.nr_shared.specs.Sharing.{SharedRests};
ghost use Rattle.nr_record_loop.specs.Connections.{SinkCount, SourceCount, loop_at};
ghost use Rattle.nr_gate.specs.Gating.{IsGated, loop_end};

use crate::connection::gate_connection;
use crate::gate_end::GateEnd;
use crate::remote_caller::RemoteCaller;
use nr_jobs::Job;
use nr_links::{LinkNumber, LinkSink, LinkSource, NumberedSink, NumberedSource};
use nr_shared::{AnyCall, Pass, SharedRequester};
use std::alloc::Global;
use std::marker::Brand;
use std::sync::Wait;

/// One connection of a gateway, with all that it uses. The source and the sink are those of one link.
#[derive(Drop)]
pub struct GateJob<I: LinkSource, O: LinkSink, J: LinkSource + Drop, K: LinkSink + Drop, R> {
    pub rt: R,
    pub alloc: Global,
    pub source: I,
    pub sink: O,
    pub caller: RemoteCaller<J, K>,
    ghost same: { I.link source ≡ O.link sink },
}

/// What is left of a connection of a gateway.
#[derive(Drop)]
pub struct GateCarried<I, O, J: LinkSource + Drop, K: LinkSink + Drop> {
    pub source: I,
    pub sink: O,
    pub pass: Pass<J, K, AnyCall>,
    pub end: GateEnd,
}

/// Serves the connection of a link. The types keep the number of the link.
fn gate_numbered<
    N: LinkNumber,
    I: LinkSource,
    O: LinkSink,
    J: LinkSource + Drop,
    K: LinkSink + Drop,
    R: Wait,
>(
    rt: &R,
    alloc: Global,
    source: I,
    sink: O,
    remote: &SharedRequester<J, K, AnyCall>,
    pass: &mut Pass<J, K, AnyCall>,
) -> (I, O, GateEnd)
    requires rests { SharedRests remote.now pass.old }
    requires source { I.link source ≡ N.number }
    requires sink { O.link sink ≡ N.number }
    ensures rests { SharedRests remote.now pass.new }
    ensures remote_source { seen_by pass.new.source ≡ seen_by pass.old.source }
    ensures gated { IsGated (loop_at (I.left source) (I.given source) (O.taken sink) pass.old.main)
        (loop_at (I.left result.0) (I.given result.0) (O.taken result.1) pass.new.main) result.2 }
    ensures source_count { SourceCount (loop_end result.2) (I.faults source) (I.faults result.0) }
    ensures sink_count { SinkCount (loop_end result.2) (O.faults sink) (O.faults result.1) }
    ensures source_link { I.link result.0 ≡ I.link source }
    ensures sink_link { O.link result.1 ≡ O.link sink }
{
    let mut source: NumberedSource<I, N> = NumberedSource::new(source);
    let mut sink: NumberedSink<O, N> = NumberedSink::new(sink);
    let end = gate_connection(rt, alloc, &mut source, &mut sink, remote, pass);
    (source.into_inner(), sink.into_inner(), end)
}

impl<
    I: LinkSource + Drop + Send + 'static,
    O: LinkSink + Drop + Send + 'static,
    J: LinkSource + Drop + Send + 'static,
    K: LinkSink + Drop + Send + 'static,
    R: Wait + Copy + Drop + Send + 'static,
> Job for GateJob<I, O, J, K, R> {
    type Out = GateCarried<I, O, J, K>;

    fn run(self) -> GateCarried<I, O, J, K>
        ensures rests { SharedRests self.caller.remote result.pass }
        ensures remote_source { seen_by result.pass.source ≡ seen_by self.caller.pass.source }
        ensures gated { IsGated (loop_at (I.left self.source) (I.given self.source) (O.taken self.sink) self.caller.pass.main)
            (loop_at (I.left result.source) (I.given result.source) (O.taken result.sink) result.pass.main) result.end }
        ensures source_count { SourceCount (loop_end result.end) (I.faults self.source) (I.faults result.source) }
        ensures sink_count { SinkCount (loop_end result.end) (O.faults self.sink) (O.faults result.sink) }
        ensures source_link { I.link result.source ≡ I.link self.source }
        ensures sink_link { O.link result.sink ≡ O.link self.sink }
    {
        let GateJob {
            rt,
            alloc,
            source,
            sink,
            caller,
        } = self;
        let (remote, mut pass) = caller.into_parts();
        let (source, sink, end) = gate_numbered::<Brand, I, O, J, K, R>(
            &rt, alloc, source, sink, &remote, &mut pass,
        );
        drop(remote);
        GateCarried {
            source,
            sink,
            pass,
            end,
        }
    }
}
