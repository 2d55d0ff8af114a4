//! Calls of many threads on one counter.

ghost use Rattle.std.specs.Prelude.{◌≡◌, MatchOption};
ghost use Rattle.nr_turnstile.specs.Passes.{Rests, MayStep, Steps};
ghost use Rattle.nr_turnstile.specs.Turns.{pass_of, Has, IsSameTurn};
ghost use Rattle.nr_turnstile_tests.specs.Calls.{Adds, Looks};
ghost use Rattle.nr_turnstile_tests.specs.Counters.{closes_none};

use crate::counter::{Added, Counter, Number};
use nr_turnstile::{Machine, Pass, Turn, Turnstile};
use std::marker::Brand;
use std::sync::Wait;

/// Adds a number at the end of the one history, and answers its place.
pub fn append<R: Wait>(
    rt: &R,
    counter: &Turnstile<Counter>,
    pass: &mut Pass<Counter>,
    x: u32,
) -> Option<u64>
    requires { Rests counter.now pass.old }
    ensures rests { Rests counter.now pass.new }
    ensures added { MatchOption result (Looks pass.old pass.new) (λ n. Adds pass.old pass.new x n) }
{
    let mut turn = counter.take_turn(rt, pass);
    let value = turn.value();
    if value.is_full() {
        turn.put_back();
        return None;
    }
    let place = value.entries();
    value.add(x);
    note::<Brand>(&mut turn, x);
    turn.put_back();
    Some(place)
}

/// The counter, as it is under a turn.
pub fn sees<R: Wait>(rt: &R, counter: &Turnstile<Counter>, pass: &mut Pass<Counter>) -> Counter
    requires { Rests counter.now pass.old }
    ensures rests { Rests counter.now pass.new }
    ensures seen { Looks pass.old pass.new }
{
    let mut turn = counter.take_turn(rt, pass);
    let seen = *turn.value();
    turn.put_back();
    seen
}

// The step, with the number that was added.
fn note<K: Added>(turn: &mut Turn<'_, Counter>, _x: u32)
    requires number { _x ≡ K.number }
    requires value { (y : Counter) × Has turn.old y }
    requires may { MayStep closes_none (pass_of turn.old) _x }
    ensures same { IsSameTurn turn.old turn.new }
    ensures held { (y : Counter) → Has turn.old y → Has turn.new y }
    ensures step { Steps (pass_of turn.old) (pass_of turn.new) _x }
{
    turn.step::<Number<K>>();
}
