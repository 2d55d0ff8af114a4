ghost use Rattle.std.specs.Prelude.{◌≡◌, ◌+◌, ◌<◌, ◌≤◌, ◌⊎◌, ◌^◌, [], Some, IfOk, OnOk, OnErr, IsErr, Contains, slice_get, option_map, length, drop, vec_len, vec_capacity};
ghost use Rattle.nr_links.specs.MemLinks.{planned, new_link, after_failed, after_made, after_ended};

use crate::counted::Counted;
use nr_outside::{Failed, MemSink, MemSource};
use nr_xdr::{Memory, Octets};
use std::alloc::Global;
use std::marker::Model;

/// What a link in memory will be.
#[derive(Drop)]
pub struct LinkPlan {
    /// The bytes that its source hands out.
    pub bytes: Vec<u8>,
    /// The sizes of the pieces in which it hands them out, in bytes.
    pub sizes: Vec<usize>,
    /// The calls of its source that fail, by their number from 0.
    pub failing_reads: Vec<usize>,
    /// The calls of its sink that fail, by their number from 0.
    pub failing_writes: Vec<usize>,
}

/// A link in memory.
#[derive(Drop)]
pub struct MemLink {
    /// What its owner reads from.
    pub source: Counted<MemSource>,
    /// What its owner writes into.
    pub sink: Counted<MemSink>,
}

/// Links in memory: those to come, in order, and those that were hung up.
#[derive(Drop)]
pub(crate) struct MemLinks {
    plans: Vec<LinkPlan>,
    ended: Vec<MemLink>,
    made: usize,
    failing: Vec<usize>,
    calls: usize,
    faults: u64,
    lost: u64,
    alloc: Global,
}

impl Model for MemLinks {
    ghost use Rattle.std.specs.Prelude.{◌+◌, ◌≤◌, ◌<◌, ◌^◌, vec_len, vec_capacity};
    ghost use Rattle.nr_links.specs.MemLinks.{MemLinksState};

    ghost Value = { MemLinksState };

    ghost view = { λ s. record {
      plans = s.plans.items;
      ended = s.ended.items;
      made = s.made;
      failing = s.failing.items;
      calls = s.calls;
      faults = s.faults;
      lost = s.lost;
    } };

    ghost invariant = { λ s. (vec_len s.ended ≤ s.made) × (s.made ≤ vec_capacity s.ended) × (s.made + vec_len s.plans < 2 ^ 63) };
}

impl MemLinks {
    /// Links of these plans. Calls whose numbers are in `failing` fail, the first being number 0.
    pub(crate) fn new(alloc: Global, plans: Vec<LinkPlan>, failing: Vec<usize>) -> MemLinks
        ensures { result ≡ planned plans.items failing.items }
    {
        MemLinks {
            plans,
            ended: Vec::new(alloc),
            made: 0,
            failing,
            calls: 0,
            faults: 0,
            lost: 0,
            alloc,
        }
    }

    /// Makes the first of the planned links, and room for its end.
    pub(crate) fn make(&mut self) -> Result<MemLink, Failed>
        ensures fails { Contains self.old.failing self.old.calls ⊎ (self.old.plans ≡ []) → IsErr result }
        ensures link { IfOk result (λ link. option_map (new_link self.old.made) (slice_get self.old.plans 0) ≡ Some link) }
        ensures ok { OnOk result (self.new ≡ after_made self.old) }
        ensures few { OnOk result (self.new.made < 2 ^ 63) }
        ensures room { OnOk result (length self.new.ended < self.new.made) }
        ensures err { OnErr result (self.new ≡ after_failed self.old) }
        ensures never_falls { self.old.faults ≤ self.new.faults }
    {
        let fails = self.failing.contains(&self.calls) || self.plans.is_empty();
        self.calls = self.calls.saturating_add(1);
        if fails
            || self
                .ended
                .reserve(self.made + 1 - self.ended.len())
                .is_err()
        {
            self.faults = self.faults.saturating_add(1);
            return Err(Failed);
        }
        let number = self.made as u64;
        self.made += 1;
        let plan = first_plan(&mut self.plans);
        Ok(link(self.alloc, plan, number))
    }

    /// Counts a call that fails.
    pub(crate) fn fail(&mut self) -> Failed
        ensures failed { self.new ≡ after_failed self.old }
        ensures never_falls { self.old.faults ≤ self.new.faults }
    {
        self.calls = self.calls.saturating_add(1);
        self.faults = self.faults.saturating_add(1);
        Failed
    }

    /// Keeps a link that is hung up.
    pub(crate) fn end(&mut self, link: MemLink)
        requires { length self.old.ended < self.old.made }
        ensures ended { self.new ≡ after_ended self.old link }
        ensures never_falls { self.old.lost ≤ self.new.lost }
    {
        if link.source.faults() > 0 || link.sink.faults() > 0 {
            self.lost = self.lost.saturating_add(1);
        }
        self.ended.push_reserved(link);
    }

    /// The links that were hung up, in order.
    pub(crate) fn ended(&self) -> &[MemLink]
        ensures { result.now ≡ self.now.ended }
    {
        self.ended.as_slice()
    }
}

/// Takes the first of the plans.
#[tactic(auto, using(std::proofs::lemmas::Option::slice_get_read))]
fn first_plan(plans: &mut Vec<LinkPlan>) -> LinkPlan
    requires { 0 < vec_len plans.old }
    ensures first { slice_get plans.old.items 0 ≡ Some result }
    ensures rest { plans.new.items ≡ drop 1 plans.old.items }
    ensures len { vec_len plans.new + 1 ≡ vec_len plans.old }
{
    plans.remove(0)
}

/// The link of a plan, with its number.
fn link(alloc: Global, plan: LinkPlan, number: u64) -> MemLink
    ensures { result ≡ new_link number plan }
{
    let LinkPlan {
        bytes,
        sizes,
        failing_reads,
        failing_writes,
    } = plan;
    MemLink {
        source: Counted::new(MemSource::new(bytes, sizes, failing_reads), number),
        sink: Counted::new(MemSink::new(alloc, failing_writes), number),
    }
}

/// A copy of an address, with room for it in the list of those asked for.
pub(crate) fn noted(alloc: Global, asked: &mut Vec<Octets>, addr: &str) -> Result<Octets, Memory>
    ensures copy { IfOk result (λ address. address ≡ addr.now) }
    ensures room { OnOk result (vec_len asked.new < vec_capacity asked.new) }
    ensures same { asked.new.items ≡ asked.old.items }
{
    asked.reserve(1)?;
    Octets::from_slice(alloc, addr.as_bytes())
}
