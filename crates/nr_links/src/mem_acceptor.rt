ghost use Rattle.std.specs.Prelude.{◌≡◌, ◌⊎◌, [], ◌++◌, ◌∷◌, Some, false, IfOk, OnOk, OnErr, IsErr, Contains, slice_get, option_map, length, ◌<◌, ◌≤◌, ◌^◌};
ghost use Rattle.nr_links.specs.MemLinks.{planned, has_some, new_link, after_failed, after_made, after_ended, link_log};
ghost use Rattle.nr_links.specs.declared.mem_links.MemLink.{MemLink};

use crate::counted::Counted;
use crate::links::Acceptor;
use crate::mem_links::{LinkPlan, MemLink, MemLinks, noted};
use nr_outside::{Failed, MemSink, MemSource};
use nr_xdr::Octets;
use std::alloc::Global;
use std::marker::Model;

/// An acceptor in memory. After a `listen` it makes the links that it was given, in order. A `listen` fails if memory runs
/// out. An `accept` fails before a `listen`, at the calls whose numbers it was given, if no link is left, and if memory
/// runs out; the first call that may fail so, or the first failed one before, is number 0.
#[derive(Drop)]
pub struct MemAcceptor {
    links: MemLinks,
    asked: Vec<Octets>,
    alloc: Global,
}

impl Model for MemAcceptor {
    ghost use Rattle.nr_links.specs.MemLinks.{MemState};

    ghost Value = { MemState };

    ghost view = { λ a. record { links = a.links; asked = a.asked.items } };
}

impl MemAcceptor {
    /// An acceptor of these links, which doesn't listen yet. Takes no memory.
    pub fn new(alloc: Global, links: Vec<LinkPlan>, failing: Vec<usize>) -> MemAcceptor
        ensures { result ≡ record { links = planned links.items failing.items; asked = [] } }
    {
        MemAcceptor {
            links: MemLinks::new(alloc, links, failing),
            asked: Vec::new(alloc),
            alloc,
        }
    }

    /// The addresses at which it listened, in order.
    pub fn asked(&self) -> &[Octets]
        ensures { result.now ≡ self.now.asked }
    {
        self.asked.as_slice()
    }

    /// The links that were hung up, in order.
    pub fn ended(&self) -> &[MemLink]
        ensures { result.now ≡ self.now.links.ended }
    {
        self.links.ended()
    }
}

impl Acceptor for MemAcceptor {
    type Source = Counted<MemSource>;

    type Sink = Counted<MemSink>;

    ghost faults = { λ s. s.links.faults };

    ghost lost = { λ s. s.links.lost };

    ghost asked = { λ s. Some s.asked };

    ghost ended = { λ s. Some (link_log s.links) };

    ghost next = { λ s. s.links.made };

    ghost listens = { λ s. has_some s.asked };

    /// Listens, or fails if memory runs out.
    fn listen(&mut self, addr: &str) -> Result<(), Failed>
        ensures ok { OnOk result (self.new ≡ record self.old { asked = self.old.asked ++ addr.now ∷ [] }) }
        ensures err { OnErr result (self.new ≡ record self.old { links = after_failed self.old.links }) }
        ensures never_falls { self.old.links.faults ≤ self.new.links.faults }
    {
        match noted(self.alloc, &mut self.asked, addr) {
            Ok(address) => {
                self.asked.push_reserved(address);
                Ok(())
            }
            Err(_) => Err(self.links.fail()),
        }
    }

    /// The next link, or `Failed` if it doesn't listen, the call is listed, no link is left or memory runs out.
    fn accept(&mut self) -> Result<(Counted<MemSource>, Counted<MemSink>), Failed>
        ensures fails { Contains self.old.links.failing self.old.links.calls ⊎ (self.old.links.plans ≡ []) ⊎ (has_some self.old.asked ≡ false) → IsErr result }
        ensures link { IfOk result (λ link. option_map (new_link self.old.links.made) (slice_get self.old.links.plans 0) ≡ Some (record { source = link.0; sink = link.1 })) }
        ensures ok { OnOk result (self.new ≡ record self.old { links = after_made self.old.links }) }
        ensures few { OnOk result (self.new.links.made < 2 ^ 63) }
        ensures room { OnOk result (length self.new.links.ended < self.new.links.made) }
        ensures err { OnErr result (self.new ≡ record self.old { links = after_failed self.old.links }) }
        ensures never_falls { self.old.links.faults ≤ self.new.links.faults }
    {
        if self.asked.is_empty() {
            return Err(self.links.fail());
        }
        let MemLink { source, sink } = self.links.make()?;
        Ok((source, sink))
    }

    fn hang_up(&mut self, source: Counted<MemSource>, sink: Counted<MemSink>)
        requires made { length self.old.links.ended < self.old.links.made }
        requires same { source.link ≡ sink.link }
        ensures ended { self.new ≡ record self.old { links = after_ended self.old.links (record { source = source; sink = sink }) } }
        ensures never_falls { self.old.links.lost ≤ self.new.links.lost }
    {
        self.links.end(MemLink { source, sink })
    }
}
