//! A dialer for a link that is never dialled again.

ghost use Rattle.std.specs.Prelude.{None};
ghost use Rattle.nr_outside.specs.Faults.{last_count};

use nr_links::{Dialer, LinkSink, LinkSource};
use nr_outside::Failed;
use std::marker::PhantomData;

/// A dialer whose `dial` always fails. A requester that is shared over a link at hand has it, and never asks it.
#[derive(Drop)]
pub struct NoDialer<I, O> {
    of: PhantomData<(I, O)>,
}

impl<I, O> NoDialer<I, O> {
    /// It has no bytes.
    pub(crate) fn new() -> NoDialer<I, O> {
        NoDialer { of: PhantomData }
    }
}

impl<I: LinkSource + Drop, O: LinkSink + Drop> Dialer for NoDialer<I, O> {
    type Source = I;

    type Sink = O;

    // Its counts stand at their last value, so each call raises them.
    ghost faults = { λ d. last_count };

    ghost lost = { λ d. last_count };

    ghost asked = { λ d. None };

    ghost ended = { λ d. None };

    ghost next = { λ d. 0 };

    fn dial(&mut self, _addr: &str) -> Result<(I, O), Failed> {
        Err(Failed)
    }

    fn hang_up(&mut self, source: I, sink: O) {
        drop(source);
        drop(sink);
    }
}
