//! What a gateway makes the jobs of its links with.

ghost use Rattle.std.specs.Prelude.{◌≡◌, IfOk};
ghost use Rattle.std.specs.Arc.{arc_value};
ghost use Rattle.nr_links.specs.Links.{ended_link};
ghost use Rattle.nr_turnstile.specs.Passes.{seen_by};
ghost use Rattle.nr_shared.specs.Sharing.{SharedRests};
ghost use Rattle.nr_gate.specs.GateLinks.{GatesByPass, KeepsKnown, SplitsOff};

use crate::gate_end::GateEnd;
use crate::job::{GateCarried, GateJob};
use crate::remote_caller::RemoteCaller;
use nr_jobs::Job;
use nr_links::{LinkSink, LinkSource};
use nr_shared::{AnyCall, Pass, SharedRequester};
use std::alloc::{AllocError, Global};
use std::sync::{Arc, Wait};

/// The shared requester, with the pass of a caller.
#[derive(Drop)]
pub(crate) struct GatedLinks<'a, 'b, J: LinkSource + Drop, K: LinkSink + Drop, R> {
    pub(crate) rt: &'a R,
    pub(crate) alloc: Global,
    pub(crate) remote: &'a Arc<SharedRequester<J, K, AnyCall>, Global>,
    pub(crate) pass: &'b mut Pass<J, K, AnyCall>,
}

impl<
    'a,
    'b,
    J: LinkSource + Drop + Send + 'static,
    K: LinkSink + Drop + Send + 'static,
    R: Wait + Copy + Drop + Send + 'static,
> GatedLinks<'a, 'b, J, K, R> {
    /// The share of the shared requester that the next job takes, or out of memory.
    pub(crate) fn share(&self) -> Result<Arc<SharedRequester<J, K, AnyCall>, Global>, AllocError>
        ensures { IfOk result (λ share. arc_value share ≡ arc_value self.now.remote.now) }
    {
        Arc::try_clone(self.remote)
    }

    /// The job of a link, with this share and a pass of its own.
    pub(crate) fn make_job<
        I: LinkSource + Drop + Send + 'static,
        O: LinkSink + Drop + Send + 'static,
    >(
        &mut self,
        share: Arc<SharedRequester<J, K, AnyCall>, Global>,
        source: I,
        sink: O,
    ) -> GateJob<I, O, J, K, R>
        requires rests { SharedRests (arc_value self.old.remote.now) self.old.pass.now }
        requires share { arc_value share ≡ arc_value self.old.remote.now }
        requires link { I.link source ≡ O.link sink }
        ensures rests { SharedRests (arc_value self.new.remote.now) self.new.pass.now }
        ensures remote { self.new.remote.now ≡ self.old.remote.now }
        ensures pass { self.new.pass.ghost_name ≡ self.old.pass.ghost_name }
        ensures remote_source { seen_by self.new.pass.now.source ≡ seen_by self.old.pass.now.source }
        ensures known { KeepsKnown self.old.pass.now.main self.new.pass.now.main }
        ensures split { SplitsOff self.new.pass.now.main result.caller.pass.main }
        ensures share { result.caller.remote ≡ arc_value self.new.remote.now }
        ensures source { result.source ≡ source }
        ensures sink { result.sink ≡ sink }
    {
        let pass = self.remote.split(self.pass);
        let caller = RemoteCaller::new(share, pass);
        GateJob {
            rt: *self.rt,
            alloc: self.alloc,
            source,
            sink,
            caller,
        }
    }

    /// Runs the job that was made last, and takes in its pass. Gives its link back, and how that ended.
    pub(crate) fn run_here<
        I: LinkSource + Drop + Send + 'static,
        O: LinkSink + Drop + Send + 'static,
    >(&mut self, job: GateJob<I, O, J, K, R>) -> (I, O, GateEnd)
        requires rests { SharedRests (arc_value self.old.remote.now) self.old.pass.now }
        requires share { job.caller.remote ≡ arc_value self.old.remote.now }
        requires split { SplitsOff self.old.pass.now.main job.caller.pass.main }
        ensures rests { SharedRests (arc_value self.new.remote.now) self.new.pass.now }
        ensures remote { self.new.remote.now ≡ self.old.remote.now }
        ensures pass { self.new.pass.ghost_name ≡ self.old.pass.ghost_name }
        ensures remote_source { seen_by self.new.pass.now.source ≡ seen_by self.old.pass.now.source }
        ensures source_link { I.link result.0 ≡ I.link job.source }
        ensures sink_link { O.link result.1 ≡ O.link job.sink }
        ensures served { I.faults job.source ≡ 0 → O.faults job.sink ≡ 0 → GatesByPass self.old.pass.now.main
            (ended_link (I.link job.source) (I.given job.source) (I.left job.source) (O.taken job.sink))
            (ended_link (I.link result.0) (I.given result.0) (I.left result.0) (O.taken result.1))
            (I.faults result.0) (O.faults result.1) result.2 self.new.pass.now.main }
    {
        let GateCarried {
            source,
            sink,
            pass: other,
            end,
        } = job.run();
        self.remote.join(self.pass, other);
        (source, sink, end)
    }
}
