ghost use Rattle.std.specs.Prelude.{◌≡◌, ◌⊎◌, [], ◌++◌, ◌∷◌, Some, IfOk, OnOk, OnErr, IsErr, Contains, slice_get, option_map, length, ◌<◌, ◌≤◌, ◌^◌};
ghost use Rattle.nr_links.specs.MemLinks.{planned, new_link, after_failed, after_made, after_ended, link_log};
ghost use Rattle.nr_links.specs.declared.mem_links.MemLink.{MemLink};

use crate::counted::Counted;
use crate::links::Dialer;
use crate::mem_links::{LinkPlan, MemLink, MemLinks, noted};
use nr_outside::{Failed, MemSink, MemSource};
use nr_xdr::Octets;
use std::alloc::Global;
use std::marker::Model;

/// A dialer in memory. Whatever the address, it makes the links that it was given, in order. It fails at the calls whose
/// numbers it was given, the first `dial` being number 0, if no link is left, and if memory runs out.
#[derive(Drop)]
pub struct MemDialer {
    links: MemLinks,
    asked: Vec<Octets>,
    alloc: Global,
}

impl Model for MemDialer {
    ghost use Rattle.nr_links.specs.MemLinks.{MemState};

    ghost Value = { MemState };

    ghost view = { λ d. record { links = d.links; asked = d.asked.items } };
}

impl MemDialer {
    /// A dialer of these links. Takes no memory.
    pub fn new(alloc: Global, links: Vec<LinkPlan>, failing: Vec<usize>) -> MemDialer
        ensures { result ≡ record { links = planned links.items failing.items; asked = [] } }
    {
        MemDialer {
            links: MemLinks::new(alloc, links, failing),
            asked: Vec::new(alloc),
            alloc,
        }
    }

    /// The addresses of the links made, in order.
    pub fn asked(&self) -> &[Octets]
        ensures { result.now ≡ self.now.asked }
    {
        self.asked.as_slice()
    }

    /// The links that were hung up, in order.
    pub fn ended(&self) -> &[MemLink]
        ensures { result.now ≡ self.now.links.ended }
    {
        self.links.ended()
    }
}

impl Dialer for MemDialer {
    type Source = Counted<MemSource>;

    type Sink = Counted<MemSink>;

    ghost faults = { λ s. s.links.faults };

    ghost lost = { λ s. s.links.lost };

    ghost asked = { λ s. Some s.asked };

    ghost ended = { λ s. Some (link_log s.links) };

    ghost next = { λ s. s.links.made };

    /// The next link, or `Failed` if the call is listed, no link is left or memory runs out.
    fn dial(&mut self, addr: &str) -> Result<(Counted<MemSource>, Counted<MemSink>), Failed>
        ensures fails { Contains self.old.links.failing self.old.links.calls ⊎ (self.old.links.plans ≡ []) → IsErr result }
        ensures link { IfOk result (λ link. option_map (new_link self.old.links.made) (slice_get self.old.links.plans 0) ≡ Some (record { source = link.0; sink = link.1 })) }
        ensures ok { OnOk result (self.new ≡ record { links = after_made self.old.links; asked = self.old.asked ++ addr.now ∷ [] }) }
        ensures few { OnOk result (self.new.links.made < 2 ^ 63) }
        ensures room { OnOk result (length self.new.links.ended < self.new.links.made) }
        ensures err { OnErr result (self.new ≡ record self.old { links = after_failed self.old.links }) }
        ensures never_falls { self.old.links.faults ≤ self.new.links.faults }
    {
        let Ok(address) = noted(self.alloc, &mut self.asked, addr) else {
            return Err(self.links.fail());
        };
        let MemLink { source, sink } = self.links.make()?;
        self.asked.push_reserved(address);
        Ok((source, sink))
    }

    fn hang_up(&mut self, source: Counted<MemSource>, sink: Counted<MemSink>)
        requires made { length self.old.links.ended < self.old.links.made }
        requires same { source.link ≡ sink.link }
        ensures ended { self.new ≡ record self.old { links = after_ended self.old.links (record { source = source; sink = sink }) } }
        ensures never_falls { self.old.links.lost ≤ self.new.links.lost }
    {
        self.links.end(MemLink { source, sink })
    }
}
