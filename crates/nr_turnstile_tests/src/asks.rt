//! A value whose entries are questions and answers. An answer closes the place of its question.

ghost use Rattle.std.specs.Prelude.{◌≡◌, suc, ◌+◌, ◌<◌, ◌^◌, length, MatchOption, MatchBool, false};
ghost use Rattle.nr_turnstile.specs.Passes.{Rests, MayStep, Steps};
ghost use Rattle.nr_turnstile.specs.Turns.{pass_of, Has, IsSameTurn};

use crate::counter::{Added, Number};
use nr_turnstile::{EntryName, Machine, Pass, Turn, Turnstile};
use std::marker::{Brand, PhantomData};
use std::sync::Wait;

/// How many questions and answers there are.
#[derive(Clone, Copy)]
pub struct Desk {
    pub entries: u64,
}

impl Machine for Desk {
    ghost use Rattle.nr_turnstile_tests.specs.Asks.{closing};

    type Entry = u64;

    ghost stands = { λ d h. d.entries ≡ length h };

    ghost closes = { closing };

    fn entries(&self) -> u64 {
        self.entries
    }
}

impl Desk {
    pub fn new() -> Desk
        ensures { result.entries ≡ 0 }
    {
        Desk { entries: 0 }
    }

    fn is_full(&self) -> bool
        ensures { result ≡ false → self.now.entries + 1 < 2 ^ 62 }
    {
        self.entries >= 1 << 40
    }

    fn add(&mut self)
        requires { self.old.entries + 1 < 2 ^ 62 }
        ensures { self.new.entries ≡ self.old.entries + 1 }
    {
        self.entries += 1;
    }
}

impl Desk {
    ghost use Rattle.nr_turnstile_tests.specs.Asks.{closing, IsAsked, IsAnswered};

    /// Asks, and answers the place of the question.
    pub fn ask<R: Wait>(rt: &R, desk: &Turnstile<Desk>, pass: &mut Pass<Desk>) -> Option<u64>
        requires { Rests desk.now pass.old }
        ensures rests { Rests desk.now pass.new }
        ensures asked { MatchOption result (Unit {0}) (λ n. IsAsked pass.new n) }
    {
        let mut turn = desk.take_turn(rt, pass);
        let value = turn.value();
        if value.is_full() {
            turn.put_back();
            return None;
        }
        let place = value.entries();
        value.add();
        note_question::<Brand>(&mut turn, 0);
        turn.put_back();
        Some(place)
    }

    /// Answers the question at place `n`, under a turn after the one that asked it. Nobody else has answered it between.
    pub fn answer<R: Wait>(rt: &R, desk: &Turnstile<Desk>, pass: &mut Pass<Desk>, n: u64) -> bool
        requires rests { Rests desk.now pass.old }
        requires asked { IsAsked pass.old n }
        ensures rests { Rests desk.now pass.new }
        ensures answered { MatchBool result (IsAnswered pass.new n) (Unit {0}) }
    {
        let mut turn = desk.take_turn(rt, pass);
        let value = turn.value();
        if value.is_full() {
            turn.put_back();
            return false;
        }
        value.add();
        note_answer::<Brand>(&mut turn, n);
        turn.put_back();
        true
    }
}

ghost use Rattle.nr_turnstile_tests.specs.Asks.{closing};

pub struct AnswerTo<K> {
    of: PhantomData<K>,
}

impl<K: Added> EntryName<u64> for AnswerTo<K> {
    ghost entry = { suc K.number };
}

// The step of a question.
fn note_question<K: Added>(turn: &mut Turn<'_, Desk>, _x: u32)
    requires number { _x ≡ K.number }
    requires value { (y : Desk) × Has turn.old y }
    requires may { MayStep closing (pass_of turn.old) _x }
    ensures same { IsSameTurn turn.old turn.new }
    ensures held { (y : Desk) → Has turn.old y → Has turn.new y }
    ensures step { Steps (pass_of turn.old) (pass_of turn.new) _x }
{
    turn.step::<Number<K>>();
}

// The step of an answer.
fn note_answer<K: Added>(turn: &mut Turn<'_, Desk>, _n: u64)
    requires number { _n ≡ K.number }
    requires value { (y : Desk) × Has turn.old y }
    requires may { MayStep closing (pass_of turn.old) (suc _n) }
    ensures same { IsSameTurn turn.old turn.new }
    ensures held { (y : Desk) → Has turn.old y → Has turn.new y }
    ensures step { Steps (pass_of turn.old) (pass_of turn.new) (suc _n) }
{
    turn.step::<AnswerTo<K>>();
}
