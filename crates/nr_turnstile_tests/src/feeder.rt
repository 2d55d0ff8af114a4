//! A value with a pass of another turnstile.

ghost use Rattle.std.specs.Prelude.{◌≡◌, length, List, []};

use crate::counter::Counter;
use nr_turnstile::{Machine, OpeningHistory, Pass, Turnstile};
use std::alloc::{AllocError, Global};
use std::marker::{Brand, PhantomData};
use std::snapshot::Snapshot;

/// The one pass that feeds, and the number of entries of its history.
#[derive(Drop)]
pub struct Feeder {
    pub pass: Pass<Counter>,
    pub entries: u64,
}

impl Machine for Feeder {
    ghost use Rattle.nr_turnstile_tests.specs.Feeds.{RepresentsNotes, closes_none};

    type Entry = Snapshot<Pass<Counter>>;

    ghost stands = { λ f h. RepresentsNotes f.pass h × (f.entries ≡ length h) };

    ghost closes = { closes_none };

    fn entries(&self) -> u64 {
        self.entries
    }
}

/// The history of the first entry, for the proof.
pub trait First {
    ghost use Rattle.nr_turnstile_tests.specs.Feeds.{Noted};
    ghost use Rattle.nr_turnstile_tests.specs.declared.counter.Counter.{Counter};

    ghost noted: { List (Noted Counter) };
}

impl First for Brand {
    ghost noted = { [] };
}

pub struct Opened<K> {
    of: PhantomData<K>,
}

impl<K: First> OpeningHistory<Snapshot<Pass<Counter>>> for Opened<K> {
    ghost history = { K.noted };
}
