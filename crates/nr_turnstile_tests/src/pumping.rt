//! Holds one turn while it takes another.

ghost use Rattle.nr_turnstile.specs.Passes.{Rests, seen_by};
ghost use Rattle.nr_turnstile.specs.Rule.{Begins};
ghost use Rattle.nr_turnstile_tests.specs.Feeds.{IsOver};

use crate::additions::{append, sees};
use crate::counter::{Counter, Nothing};
use crate::feeder::Feeder;
use crate::open::open_feeder;
use nr_turnstile::{Pass, Turnstile};
use std::alloc::{AllocError, Global};
use std::sync::Wait;

/// Takes the feeder's turn, and under it adds a number by the pass that lies there. Answers whether it was added.
pub fn pump<R: Wait>(
    rt: &R,
    feeder: &Turnstile<Feeder>,
    pass: &mut Pass<Feeder>,
    counter: &Turnstile<Counter>,
    x: u32,
) -> bool
    requires rests { Rests feeder.now pass.old }
    requires over { IsOver counter.now pass.old }
    ensures rests { Rests feeder.now pass.new }
    ensures seen { Begins (seen_by pass.old) (seen_by pass.new) }
{
    let mut turn = feeder.take_turn(rt, pass);
    let value = turn.value();
    let added = append(rt, counter, &mut value.pass, x).is_some();
    turn.put_back();
    added
}

/// A counter, to which a pass that lies in the value of another turnstile adds two numbers.
pub fn pump_twice<R: Wait>(rt: &R, alloc: Global, x: u32, y: u32) -> Result<Counter, AllocError> {
    let (counter, mut pass) = Turnstile::new::<Nothing>(alloc, Counter::new())?;
    let inner = counter.split(&mut pass);
    let (feeder, mut outer) = open_feeder(alloc, inner)?;
    pump(rt, &feeder, &mut outer, &counter, x);
    pump(rt, &feeder, &mut outer, &counter, y);
    Ok(sees(rt, &counter, &mut pass))
}
