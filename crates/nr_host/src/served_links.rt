//! What a server makes the jobs of its links with.

ghost use Rattle.std.specs.Prelude.{◌≡◌, [], IfSome};
ghost use Rattle.std.specs.Arc.{arc_value};
ghost use Rattle.nr_turnstile.specs.Passes.{Rests};
ghost use Rattle.nr_plain.specs.History.{pass_view};
ghost use Rattle.nr_host.specs.Serving.{KeepsView, ServesByPass, split_off};

use crate::connection_limits::ConnectionLimits;
use crate::job::{Carried, ServeJob};
use crate::link_end::LinkEnd;
use nr_accept::LinkJobs;
use nr_jobs::Job;
use nr_links::{Clock, LinkSink, LinkSource};
use nr_plain::Server;
use nr_turnstile::{Machine, Pass, Turnstile};
use std::alloc::{AllocError, Global};
use std::sync::{Arc, Wait};

/// The shared server, with the pass and the clock of a caller, and what it allows each connection. All that has a type parameter is
/// borrowed, so that the borrow of the pass ends without a drop.
#[derive(Drop)]
pub(crate) struct ServedLinks<'r, 'a, C, R> {
    pub(crate) rt: &'r R,
    pub(crate) alloc: Global,
    pub(crate) shared: &'a Arc<Turnstile<Server>, Global>,
    pub(crate) pass: &'a mut Pass<Server>,
    pub(crate) clock: &'a C,
    pub(crate) limits: ConnectionLimits,
    pub(crate) records: bool,
}

impl<
    'r,
    'a,
    I: LinkSource + Drop + Send + 'static,
    O: LinkSink + Drop + Send + 'static,
    C: Clock + Drop + Send + 'static,
    R: Wait + Copy + Drop + Send + 'static,
> LinkJobs<I, O, ServeJob<I, O, C, R>> for ServedLinks<'r, 'a, C, R> {
    type Part = Arc<Turnstile<Server>, Global>;

    type End = LinkEnd;

    ghost rests = { λ p. Rests (arc_value p.shared.now) p.pass.now };

    ghost same = { λ p q. (q.shared.now ≡ p.shared.now) × ((q.pass.ghost_name ≡ p.pass.ghost_name) × ((q.limits ≡ p.limits) × (q.records ≡ p.records))) };

    ghost fits = { λ p part. arc_value part ≡ arc_value p.shared.now };

    ghost makes = { λ p q. KeepsView (pass_view p.pass.now) (pass_view q.pass.now) × ((q.limits ≡ p.limits) × (q.records ≡ p.records)) };

    ghost made = { λ p q source sink job. (job.source ≡ source) × ((job.sink ≡ sink) × ((arc_value job.shared ≡ arc_value q.shared.now)
        × ((job.limits ≡ p.limits) × ((job.records ≡ p.records) × ((pass_view job.pass ≡ split_off (pass_view p.pass.now))
        × (IfSome (C.gave job.clock) (λ given. given ≡ []) × (KeepsView (pass_view p.pass.now) (pass_view q.pass.now) × ((q.limits ≡ p.limits) × (q.records ≡ p.records))))))))) };

    ghost serves = { λ p opened closed source_faults sink_faults end q. ServesByPass p.limits p.records (pass_view p.pass.now) opened closed source_faults sink_faults end (pass_view q.pass.now)
        × ((q.limits ≡ p.limits) × (q.records ≡ p.records)) };

    fn part(&self) -> Result<Arc<Turnstile<Server>, Global>, AllocError> {
        Arc::try_clone(self.shared)
    }

    /// The job of a link, with a pass and a clock of its own.
    fn make(
        &mut self,
        part: Arc<Turnstile<Server>, Global>,
        source: I,
        sink: O,
    ) -> ServeJob<I, O, C, R> {
        ServeJob {
            rt: *self.rt,
            alloc: self.alloc,
            source,
            sink,
            shared: part,
            pass: self.shared.split(self.pass),
            clock: self.clock.another(),
            limits: self.limits,
            records: self.records,
        }
    }

    /// Runs the job, and takes in its pass.
    fn run_here(&mut self, job: ServeJob<I, O, C, R>) -> (I, O, LinkEnd) {
        let Carried {
            source,
            sink,
            pass: other,
            clock: used,
            end,
        } = job.run();
        self.shared.join(self.pass, other);
        drop(used);
        (source, sink, end)
    }
}
