//! What makes the jobs of links.

ghost use Rattle.std.specs.Prelude.{◌≡◌, ℕ, IfOk};
ghost use Rattle.nr_links.specs.Links.{EndedLink, ended_link};

use nr_jobs::Job;
use nr_links::{LinkSink, LinkSource};
use std::alloc::AllocError;

/// What makes the jobs of links, and runs those that are handed back. A job owns the source and the sink of one link.
pub trait LinkJobs<I: LinkSource, O: LinkSink, J: Job + Send + 'static> {
    /// What a job takes that is had before its link is accepted.
    type Part: Drop;

    /// How a link ended.
    type End;

    // It can make jobs.
    ghost rests: { Self → Type 0 };

    // It refers to the same values.
    ghost same: { Self → Self → Type 0 };

    // Its jobs can take this part.
    ghost fits: { Self → Self.Part → Type 0 };

    // From the first state to the second, a job was made.
    ghost makes: { Self → Self → Type 0 };

    // From the first state to the second, this job was made for the link of this source and this sink.
    ghost made: { Self → Self → I → O → J → Type 0 };

    // From the first state to the second, a link was served to its end: the link as it was accepted and as it is hung up, the fault counts
    // of its source and of its sink then, and how it ended.
    ghost serves: { Self → EndedLink → EndedLink → ℕ → ℕ → Self.End → Self → Type 0 };

    /// What the next job takes, or out of memory.
    fn part(&self) -> Result<Self::Part, AllocError>
        ensures { IfOk result (fits self.now) };

    /// The job of a link: its source, and the sink that has the same number.
    fn make(&mut self, part: Self::Part, source: I, sink: O) -> J
        requires rests { rests self.old }
        requires fits { fits self.old part }
        requires link { I.link source ≡ O.link sink }
        ensures rests { rests self.new }
        ensures same { (first : Self) → same first self.old → same first self.new }
        ensures makes { makes self.old self.new }
        ensures made { made self.old self.new source sink result };

    /// Runs the job that was made last, and gives its link back, and how that ended.
    fn run_here(&mut self, job: J) -> (I, O, Self::End)
        requires rests { rests self.old }
        requires made { (first : Self) × ((source : I) × ((sink : O) × made first self.old source sink job)) }
        ensures rests { rests self.new }
        ensures same { (first : Self) → same first self.old → same first self.new }
        ensures links { (first : Self) (source : I) (sink : O) → made first self.old source sink job → (I.link result.0 ≡ I.link source) × (O.link result.1 ≡ O.link sink) }
        ensures served { (first : Self) (source : I) (sink : O) → made first self.old source sink job → I.faults source ≡ 0 → O.faults sink ≡ 0 →
            serves first (ended_link (I.link source) (I.given source) (I.left source) (O.taken sink))
            (ended_link (I.link result.0) (I.given result.0) (I.left result.0) (O.taken result.1)) (I.faults result.0) (O.faults result.1) result.2 self.new };
}
