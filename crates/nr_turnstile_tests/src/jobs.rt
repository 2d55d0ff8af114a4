//! Work that owns what it uses, for a thread of its own.

ghost use Rattle.std.specs.Arc.{arc_value};
ghost use Rattle.nr_turnstile.specs.Passes.{Rests};

use crate::log::{Log, write};
use nr_turnstile::{Pass, Turnstile};
use std::alloc::Global;
use std::sync::{Arc, Wait};

/// Adds a number again and again. The pass is of the turnstile.
#[derive(Drop)]
pub struct Job<R: Wait + Copy> {
    rt: R,
    log: Arc<Turnstile<Log>, Global>,
    pass: Pass<Log>,
    ghost fits: { Rests (arc_value log) pass },
}

impl<R: Wait + Copy> Job<R> {
    pub fn new(rt: R, log: Arc<Turnstile<Log>, Global>, pass: Pass<Log>) -> Job<R>
        requires { Rests (arc_value log) pass }
    {
        Job { rt, log, pass }
    }

    /// Answers how often the number was added.
    pub fn run(self, x: u32, times: u32) -> u32 {
        let Job { rt, log, mut pass } = self;
        let mut done = 0u32;
        for _ in 0..times {
            if write(&rt, &log, &mut pass, x) {
                done = done.wrapping_add(1);
            }
        }
        done
    }
}
