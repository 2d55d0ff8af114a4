//! A value that doesn't keep its history: the count and the sum of the numbers that were added.

ghost use Rattle.std.specs.Prelude.{◌≡◌, ℕ, ◌+◌, ◌<◌, ◌^◌, List, [], ◌∷◌, ◌++◌, false};
ghost use Rattle.nr_turnstile_tests.specs.Counters.{IsCounted, closes_none};

use nr_turnstile::{EntryName, Machine, OpeningHistory};
use std::marker::{Brand, PhantomData};

/// The count and the sum.
#[derive(Clone, Copy)]
pub struct Counter {
    pub count: u64,
    pub sum: u64,
}

impl Machine for Counter {
    type Entry = u64;

    ghost stands = { λ t h. IsCounted t.count t.sum h };

    ghost closes = { closes_none };

    fn entries(&self) -> u64 {
        self.count
    }
}

/// The number that is added, for the proof.
pub trait Added {
    ghost number: { ℕ };
}

impl Added for Brand {
    ghost number = { 0 };
}

pub struct Number<K> {
    of: PhantomData<K>,
}

impl<K: Added> EntryName<u64> for Number<K> {
    ghost entry = { K.number };
}

/// The empty history.
pub struct Nothing;

impl OpeningHistory<u64> for Nothing {
    ghost history = { [] };
}

impl Counter {
    pub fn new() -> Counter
        ensures { IsCounted result.count result.sum [] }
    {
        Counter { count: 0, sum: 0 }
    }

    pub fn is_full(&self) -> bool
        ensures { result ≡ false → (self.now.count + 1 < 2 ^ 62) × (self.now.sum < 2 ^ 62) }
    {
        self.count >= 1 << 40 || self.sum >= 1 << 62
    }

    pub fn add(&mut self, x: u32)
        requires { (self.old.count + 1 < 2 ^ 62) × (self.old.sum < 2 ^ 62) }
        // Whatever the counter stood for, it then stands for that and x.
        ensures { (h : List ℕ) → IsCounted self.old.count self.old.sum h → IsCounted self.new.count self.new.sum (h ++ x ∷ []) }
    {
        self.count += 1;
        self.sum += x as u64;
    }
}
