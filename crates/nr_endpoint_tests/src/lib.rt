//! Tests of nr_endpoint: scripts of calls, with bytes in words, and what an endpoint makes of them (`script.rt`).
//!
//! They stand in a crate of their own, above the crate that they test, since a crate with tests is proved twice.
#![tactic(auto)]

#[cfg(test)]
mod agreed;
#[cfg(test)]
mod answers;
#[cfg(test)]
mod compare;
#[cfg(test)]
mod endpoint;
#[cfg(test)]
mod feeding;
#[cfg(test)]
mod frames;
#[cfg(test)]
mod hellos;
#[cfg(test)]
mod invalidates;
#[cfg(test)]
mod line;
#[cfg(test)]
mod looking;
#[cfg(test)]
mod messages;
#[cfg(test)]
mod next_links;
#[cfg(test)]
mod offers;
#[cfg(test)]
mod output;
#[cfg(test)]
mod owner;
#[cfg(test)]
mod queueing;
#[cfg(test)]
mod reasons;
#[cfg(test)]
mod script;
#[cfg(test)]
mod segments;
#[cfg(test)]
mod short_sink;
#[cfg(test)]
mod terms;
#[cfg(test)]
mod vectors;
#[cfg(test)]
mod words;
