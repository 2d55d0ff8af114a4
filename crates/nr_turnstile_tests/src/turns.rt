//! Turns of one thread and of two.

use crate::additions::{append, sees};
use crate::asks::Desk;
use crate::compare::same;
use crate::counter::{Counter, Nothing};
use crate::jobs::Job;
use crate::log::{Log, counted};
use crate::pumping::pump_twice;
use nr_turnstile::Turnstile;
use std::sync::Arc;
use std::test::Fail;
use std::thread;

/// How many turns each thread takes.
const TURNS: u32 = 10_000;

#[test]
fn split_and_join(rt: HostRuntime) -> Result<(), Fail> {
    let (counter, mut first) = Turnstile::new::<Nothing>(rt.alloc(), Counter::new())?;
    let mut second = counter.split(&mut first);
    same(&rt, 0, append(&rt, &counter, &mut second, 40), Some(0));
    same(&rt, 1, append(&rt, &counter, &mut first, 2), Some(1));
    counter.join(&mut first, second);
    let seen = sees(&rt, &counter, &mut first);
    same(&rt, 2, (seen.count, seen.sum), (2, 42));
    let last = counter.close(&rt, first);
    same(&rt, 3, (last.count, last.sum), (2, 42));
    Ok(())
}

#[test]
fn busy_while_a_turn_is_out(rt: HostRuntime) -> Result<(), Fail> {
    let (counter, mut first) = Turnstile::new::<Nothing>(rt.alloc(), Counter::new())?;
    let mut second = counter.split(&mut first);
    let turn = counter.take_turn(&rt, &mut first);
    match second.try_turn(&counter) {
        Ok(other) => {
            other.put_back();
            panic!(rt; "not busy")
        }
        Err(_) => (),
    }
    turn.put_back();
    match second.try_turn(&counter) {
        Ok(other) => other.put_back(),
        Err(_) => panic!(rt; "busy"),
    }
    Ok(())
}

#[test]
fn two_threads(rt: HostRuntime) -> Result<(), Fail> {
    let (log, mut pass) = Turnstile::new::<Nothing>(rt.alloc(), Log::new(rt.alloc()))?;
    let one = log.split(&mut pass);
    let two = log.split(&mut pass);
    let log = Arc::new(rt.alloc(), log)?;
    let one = Job::new(rt, Arc::try_clone(&log)?, one);
    let two = Job::new(rt, Arc::try_clone(&log)?, two);
    let Ok(one) = thread::spawn(&rt, move || one.run(1, TURNS)) else {
        panic!(rt; "no thread")
    };
    let Ok(two) = thread::spawn(&rt, move || two.run(2, TURNS)) else {
        panic!(rt; "no thread")
    };
    same(&rt, 0, (one.join(&rt), two.join(&rt)), (TURNS, TURNS));
    same(&rt, 1, counted(&rt, &log, &mut pass, 1), (10_000, 20_000));
    same(&rt, 2, counted(&rt, &log, &mut pass, 2), (10_000, 20_000));
    Ok(())
}

#[test]
fn a_pass_in_a_value(rt: HostRuntime) -> Result<(), Fail> {
    let counter = pump_twice(&rt, rt.alloc(), 40, 2)?;
    same(&rt, 0, (counter.count, counter.sum), (2, 42));
    Ok(())
}

#[test]
fn a_question_and_its_answer(rt: HostRuntime) -> Result<(), Fail> {
    let (desk, mut first) = Turnstile::new::<Nothing>(rt.alloc(), Desk::new())?;
    let mut second = desk.split(&mut first);
    let Some(place) = Desk::ask(&rt, &desk, &mut first) else {
        panic!(rt; "full")
    };
    let other = Desk::ask(&rt, &desk, &mut second);
    same(&rt, 0, (place, other), (0, Some(1)));
    same(&rt, 1, Desk::answer(&rt, &desk, &mut first, place), true);
    Ok(())
}
