//! The work of one connection, for a thread of its own.

ghost use Rattle.std.specs.Prelude.{◌≡◌, false};
ghost use Rattle.std.specs.Arc.{arc_value};
ghost use Rattle.nr_turnstile.specs.Passes.{Rests};
ghost use Rattle.nr_plain.specs.History.{pass_view};
ghost use Rattle.nr_host.specs.LinkServing.{IsLinkServed, LinkSinkCount, LinkSourceCount};
ghost use Rattle.nr_host.specs.Steps.{outside, sink_state};

use crate::connection_limits::ConnectionLimits;
use crate::link::serve_link;
use crate::link_end::LinkEnd;
use nr_jobs::Job;
use nr_links::{Clock, LinkNumber, LinkSink, LinkSource, NumberedSink, NumberedSource};
use nr_plain::Server;
use nr_turnstile::{Machine, Pass, Turnstile};
use std::alloc::Global;
use std::marker::Brand;
use std::sync::{Arc, Wait};

/// One connection, with all that it uses. The source and the sink are those of one link, and the pass is of the
/// turnstile.
#[derive(Drop)]
pub struct ServeJob<I: LinkSource, O: LinkSink, C, R> {
    pub rt: R,
    pub alloc: Global,
    pub source: I,
    pub sink: O,
    pub shared: Arc<Turnstile<Server>, Global>,
    pub pass: Pass<Server>,
    pub clock: C,
    pub limits: ConnectionLimits,
    pub records: bool,
    ghost fits: { Rests (arc_value shared) pass },
    ghost same: { I.link source ≡ O.link sink },
}

/// What is left of a connection that was served.
#[derive(Drop)]
pub struct Carried<I, O, C> {
    pub source: I,
    pub sink: O,
    pub pass: Pass<Server>,
    pub clock: C,
    pub end: LinkEnd,
}

/// Serves the connection of a link. The types keep the number of the link.
fn serve_numbered<N: LinkNumber, I: LinkSource, O: LinkSink, C: Clock, R: Wait>(
    rt: &R,
    alloc: Global,
    source: I,
    sink: O,
    shared: &Turnstile<Server>,
    pass: &mut Pass<Server>,
    clock: &mut C,
    limits: ConnectionLimits,
    records: bool,
) -> (I, O, LinkEnd)
    requires rests { Rests shared.now pass.old }
    requires source { I.link source ≡ N.number }
    requires sink { O.link sink ≡ N.number }
    ensures rests { Rests shared.now pass.new }
    ensures served { IsLinkServed limits records (outside (I.left source) (I.given source) (sink_state (O.taken sink) (O.faults sink) false) (C.gave clock.old) (pass_view pass.old))
        (outside (I.left result.0) (I.given result.0) (sink_state (O.taken result.1) (O.faults result.1) false) (C.gave clock.new) (pass_view pass.new)) result.2 }
    ensures source_count { LinkSourceCount result.2 (I.faults source) (I.faults result.0) }
    ensures sink_count { LinkSinkCount result.2 (O.faults sink) (O.faults result.1) }
    ensures source_link { I.link result.0 ≡ I.link source }
    ensures sink_link { O.link result.1 ≡ O.link sink }
{
    let source: NumberedSource<I, N> = NumberedSource::new(source);
    let mut sink: NumberedSink<O, N> = NumberedSink::new(sink);
    let (source, end) = serve_link(
        rt, alloc, source, &mut sink, shared, pass, clock, limits, records,
    );
    (source.into_inner(), sink.into_inner(), end)
}

impl<
    I: LinkSource + Drop + Send + 'static,
    O: LinkSink + Drop + Send + 'static,
    C: Clock + Drop + Send + 'static,
    R: Wait + Copy + Drop + Send + 'static,
> Job for ServeJob<I, O, C, R> {
    type Out = Carried<I, O, C>;

    fn run(self) -> Carried<I, O, C>
        ensures rests { Rests (arc_value self.shared) result.pass }
        ensures served { IsLinkServed self.limits self.records (outside (I.left self.source) (I.given self.source) (sink_state (O.taken self.sink) (O.faults self.sink) false) (C.gave self.clock) (pass_view self.pass))
            (outside (I.left result.source) (I.given result.source) (sink_state (O.taken result.sink) (O.faults result.sink) false) (C.gave result.clock) (pass_view result.pass)) result.end }
        ensures source_count { LinkSourceCount result.end (I.faults self.source) (I.faults result.source) }
        ensures sink_count { LinkSinkCount result.end (O.faults self.sink) (O.faults result.sink) }
        ensures source_link { I.link result.source ≡ I.link self.source }
        ensures sink_link { O.link result.sink ≡ O.link self.sink }
    {
        let ServeJob {
            rt,
            alloc,
            source,
            sink,
            shared,
            pass,
            clock,
            limits,
            records,
        } = self;
        let mut pass = pass;
        let mut clock = clock;
        let (source, sink, end) = serve_numbered::<Brand, I, O, C, R>(
            &rt, alloc, source, sink, &shared, &mut pass, &mut clock, limits, records,
        );
        drop(shared);
        Carried {
            source,
            sink,
            pass,
            clock,
            end,
        }
    }
}
