//! Tests of links and clocks (`nr_links`) and of jobs (`nr_jobs`).
//!
//! They stand in a crate of their own, above the crates that they test, since a crate with tests is proved twice.
#![tactic(auto)]

#[cfg(test)]
mod clocks;
#[cfg(test)]
mod compare;
#[cfg(test)]
mod looking;
#[cfg(test)]
mod memory;
#[cfg(test)]
mod sockets;
#[cfg(test)]
mod spawning;
