//! Tests of the base crates: a module for each crate, with tables of rows whose bytes come from the RFCs.
//!
//! They stand in a crate of their own, above the crates that they test, since a crate with tests is proved twice.
#![tactic(auto)]

#[cfg(test)]
mod args;
#[cfg(test)]
mod base;
#[cfg(test)]
mod borrowed;
#[cfg(test)]
mod compare;
#[cfg(test)]
mod header;
#[cfg(test)]
mod numbers;
#[cfg(test)]
mod outside;
#[cfg(test)]
mod regions;
#[cfg(test)]
mod replies;
#[cfg(test)]
mod res;
#[cfg(test)]
mod rpc;
#[cfg(test)]
mod wire;
#[cfg(test)]
mod xdr;
