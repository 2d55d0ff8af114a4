//! Tests of `nr_turnstile`, over three values that stand for a history: a counter, a list, and a desk of questions and
//! answers; and over a value with a pass of another turnstile. Tests of `nr_cache`, of `nr_shared` and of `nr_gate`.
//!
//! All of it is compiled for tests alone, so that each function is proved once.
#![tactic(auto)]

#[cfg(test)]
mod additions;
#[cfg(test)]
mod asks;
#[cfg(test)]
mod broken;
#[cfg(test)]
mod cache;
#[cfg(test)]
mod callers;
#[cfg(test)]
mod compare;
#[cfg(test)]
mod counter;
#[cfg(test)]
mod feeder;
#[cfg(test)]
mod gate;
#[cfg(test)]
mod held;
#[cfg(test)]
mod jobs;
#[cfg(test)]
mod log;
#[cfg(test)]
mod open;
#[cfg(test)]
mod pumping;
#[cfg(test)]
mod redials;
#[cfg(test)]
mod shared;
#[cfg(test)]
mod sharing;
#[cfg(test)]
mod turns;
