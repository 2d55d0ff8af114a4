ghost use Rattle.std.specs.Prelude.{◌≡◌, ℕ, List, ◌≤◌, Bool, true, false, Option, IfOk, OnOk, OnErr, IsErr, MatchResult};
ghost use Rattle.nr_outside.specs.Faults.{Rises};
ghost use Rattle.nr_links.specs.Asked.{Asks};
ghost use Rattle.nr_links.specs.Links.{LinkLog, ended_link, MakesLink, EndsLink, HasOpenLink, IsNewLink, IsNumbered, IsTold, CountsLost, CountsNumber};

use crate::link_halves::{LinkSink, LinkSource};
use nr_outside::Failed;

/// What makes links to an address. A link is a source and a sink, which have one number.
pub trait Dialer {
    type Source: LinkSource;

    type Sink: LinkSink;

    // The fault count: how many dials failed, up to the last value of a counter.
    ghost faults: { Self → ℕ };

    // The count of lost links: how many links that were hung up had a fault, up to the last value of a counter.
    ghost lost: { Self → ℕ };

    // The addresses of the links made, in order, if they are known.
    ghost asked: { Self → Option (List (List ℕ)) };

    // The links made and those hung up, if they are known.
    ghost ended: { Self → Option LinkLog };

    // The number of the next link: how many links were made, up to the last value of a counter.
    ghost next: { Self → ℕ };

    /// A new link to this address. May wait.
    fn dial(&mut self, addr: &str) -> Result<(Self::Source, Self::Sink), Failed>
        ensures asked { OnOk result (Asks (asked self.old) (asked self.new) addr.now) }
        ensures fresh { IfOk result (λ link. IsNewLink (Self.Source.given link.0) (Self.Sink.taken link.1)
            (Self.Source.faults link.0) (Self.Sink.faults link.1)) }
        ensures told { IfOk result (λ link. IsTold (ended self.new) (Self.Source.given link.0) (Self.Source.left link.0) (Self.Sink.taken link.1)) }
        ensures numbered { IfOk result (λ link. IsNumbered (ended self.old) (next self.old) (Self.Source.link link.0) (Self.Sink.link link.1)) }
        ensures made { OnOk result (MakesLink (ended self.old) (ended self.new)) }
        ensures next { CountsNumber result (next self.old) (next self.new) }
        ensures lost { lost self.new ≡ lost self.old }

        // A dial that fails makes no link.
        ensures err_asked { OnErr result (asked self.new ≡ asked self.old) }
        ensures err { OnErr result (ended self.new ≡ ended self.old) }

        // The count stays at `Ok`, and rises if the call fails.
        ensures counted { MatchResult result
            (λ _. faults self.new ≡ faults self.old) (λ _. Rises (faults self.old) (faults self.new)) }
        ensures never_falls { faults self.old ≤ faults self.new };

    /// Ends a link that this dialer made: the source and the sink of one link. It can't fail, and takes no memory.
    fn hang_up(&mut self, source: Self::Source, sink: Self::Sink)
        requires made { HasOpenLink (ended self.old) }
        requires same { Self.Source.link source ≡ Self.Sink.link sink }
        ensures ended { EndsLink (ended self.old) (ended self.new)
            (ended_link (Self.Source.link source) (Self.Source.given source) (Self.Source.left source) (Self.Sink.taken sink)) }
        ensures next { next self.new ≡ next self.old }
        ensures lost { CountsLost (Self.Source.faults source) (Self.Sink.faults sink) (lost self.old) (lost self.new) }
        ensures asked { asked self.new ≡ asked self.old }
        ensures faults { faults self.new ≡ faults self.old };
}

/// What takes the links that come to an address at which it listens.
pub trait Acceptor {
    type Source: LinkSource;

    type Sink: LinkSink;

    // The fault count: how many calls of `listen` and `accept` failed, up to the last value of a counter.
    ghost faults: { Self → ℕ };

    // The count of lost links: how many links that were hung up had a fault, up to the last value of a counter.
    ghost lost: { Self → ℕ };

    // The addresses at which it listened, in order, if they are known. It listens at the last one.
    ghost asked: { Self → Option (List (List ℕ)) };

    // The links made and those hung up, if they are known.
    ghost ended: { Self → Option LinkLog };

    // The number of the next link: how many links were made, up to the last value of a counter.
    ghost next: { Self → ℕ };

    // Whether a `listen` succeeded.
    ghost listens: { Self → Bool };

    /// Listens at this address, and no longer at one before.
    fn listen(&mut self, addr: &str) -> Result<(), Failed>
        ensures asked { OnOk result (Asks (asked self.old) (asked self.new) addr.now) }
        ensures listens { OnOk result (listens self.new ≡ true) }
        ensures ended { ended self.new ≡ ended self.old }
        ensures next { next self.new ≡ next self.old }
        ensures lost { lost self.new ≡ lost self.old }

        // A call that fails leaves the address as it was.
        ensures err_asked { OnErr result (asked self.new ≡ asked self.old) }
        ensures err { OnErr result (listens self.new ≡ listens self.old) }
        ensures counted { MatchResult result
            (λ _. faults self.new ≡ faults self.old) (λ _. Rises (faults self.old) (faults self.new)) }
        ensures never_falls { faults self.old ≤ faults self.new };

    /// The next link. May wait. Before a `listen` it fails.
    fn accept(&mut self) -> Result<(Self::Source, Self::Sink), Failed>
        ensures before { listens self.old ≡ false → IsErr result }
        ensures listens { listens self.new ≡ listens self.old }
        ensures asked { asked self.new ≡ asked self.old }
        ensures fresh { IfOk result (λ link. IsNewLink (Self.Source.given link.0) (Self.Sink.taken link.1)
            (Self.Source.faults link.0) (Self.Sink.faults link.1)) }
        ensures told { IfOk result (λ link. IsTold (ended self.new) (Self.Source.given link.0) (Self.Source.left link.0) (Self.Sink.taken link.1)) }
        ensures numbered { IfOk result (λ link. IsNumbered (ended self.old) (next self.old) (Self.Source.link link.0) (Self.Sink.link link.1)) }
        ensures made { OnOk result (MakesLink (ended self.old) (ended self.new)) }
        ensures next { CountsNumber result (next self.old) (next self.new) }
        ensures lost { lost self.new ≡ lost self.old }

        // A call that fails makes no link.
        ensures err { OnErr result (ended self.new ≡ ended self.old) }
        ensures counted { MatchResult result
            (λ _. faults self.new ≡ faults self.old) (λ _. Rises (faults self.old) (faults self.new)) }
        ensures never_falls { faults self.old ≤ faults self.new };

    /// Ends a link that this acceptor made: the source and the sink of one link. It can't fail, and takes no memory.
    fn hang_up(&mut self, source: Self::Source, sink: Self::Sink)
        requires made { HasOpenLink (ended self.old) }
        requires same { Self.Source.link source ≡ Self.Sink.link sink }
        ensures listens { listens self.new ≡ listens self.old }
        ensures ended { EndsLink (ended self.old) (ended self.new)
            (ended_link (Self.Source.link source) (Self.Source.given source) (Self.Source.left source) (Self.Sink.taken sink)) }
        ensures next { next self.new ≡ next self.old }
        ensures lost { CountsLost (Self.Source.faults source) (Self.Sink.faults sink) (lost self.old) (lost self.new) }
        ensures asked { asked self.new ≡ asked self.old }
        ensures faults { faults self.new ≡ faults self.old };
}
