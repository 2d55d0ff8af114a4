//! A value that is its history: a list of numbers.

ghost use Rattle.std.specs.Prelude.{◌≡◌, ◌+◌, ◌<◌, ◌^◌, ◌∷◌, [], ◌++◌, length, MatchBool, true, false};
ghost use Rattle.nr_turnstile.specs.Passes.{Rests, MayStep, Steps};
ghost use Rattle.nr_turnstile.specs.Turns.{pass_of, Has, IsSameTurn};
ghost use Rattle.nr_turnstile_tests.specs.Counters.{closes_none};

use crate::counter::{Added, Number};
use nr_turnstile::{Machine, Pass, Turn, Turnstile};
use std::alloc::Global;
use std::marker::Brand;
use std::sync::Wait;

#[derive(Drop)]
pub struct Log {
    pub items: Vec<u32>,
}

impl Machine for Log {
    type Entry = u64;

    ghost stands = { λ l h. l.items.items ≡ h };

    ghost closes = { closes_none };

    fn entries(&self) -> u64 {
        self.items.len() as u64
    }
}

impl Log {
    pub fn new(alloc: Global) -> Log
        ensures { result.items.items ≡ [] }
    {
        Log {
            items: Vec::new(alloc),
        }
    }

    fn add(&mut self, x: u32) -> bool
        ensures { MatchBool result ((self.new.items.items ≡ self.old.items.items ++ x ∷ []) × (length self.old.items.items + 1 < 2 ^ 62)) (self.new.items.items ≡ self.old.items.items) }
    {
        if self.items.len() >= 1 << 40 {
            return false;
        }
        self.items.push(x).is_ok()
    }
}

/// Adds a number at the end of the list. Answers whether it did.
pub fn write<R: Wait>(rt: &R, log: &Turnstile<Log>, pass: &mut Pass<Log>, x: u32) -> bool
    requires { Rests log.now pass.old }
    ensures { Rests log.now pass.new }
{
    let mut turn = log.take_turn(rt, pass);
    let value = turn.value();
    let added = value.add(x);
    if !added {
        turn.put_back();
        return false;
    }
    note::<Brand>(&mut turn, x);
    turn.put_back();
    true
}

/// How often a number stands in the list, and how long the list is.
pub fn counted<R: Wait>(
    rt: &R,
    log: &Turnstile<Log>,
    pass: &mut Pass<Log>,
    x: u32,
) -> (usize, usize)
    requires { Rests log.now pass.old }
    ensures { Rests log.now pass.new }
{
    let mut turn = log.take_turn(rt, pass);
    let found = found(turn.value().items.as_slice(), x);
    turn.put_back();
    found
}

fn found(items: &[u32], x: u32) -> (usize, usize) {
    let mut found = 0usize;
    for item in items {
        if *item == x {
            found = found.wrapping_add(1);
        }
    }
    (found, items.len())
}

// The step, with the number that was added.
fn note<K: Added>(turn: &mut Turn<'_, Log>, _x: u32)
    requires number { _x ≡ K.number }
    requires value { (y : Log) × Has turn.old y }
    requires may { MayStep closes_none (pass_of turn.old) _x }
    ensures same { IsSameTurn turn.old turn.new }
    ensures held { (y : Log) → Has turn.old y → Has turn.new y }
    ensures step { Steps (pass_of turn.old) (pass_of turn.new) _x }
{
    turn.step::<Number<K>>();
}
