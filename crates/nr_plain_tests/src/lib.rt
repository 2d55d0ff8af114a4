//! Tests of the plain server in what no short list of calls shows (`nr_plain`, `nr_ops_dir`, `nr_ops_list`), and of the pages of its files
//! (`nr_tree`).
//!
//! They stand in a crate of their own, above the crates that they test, since a crate with tests is proved twice.
#![tactic(auto)]

#[cfg(test)]
mod calls;
#[cfg(test)]
mod compare;
#[cfg(test)]
mod directory_orders;
#[cfg(test)]
mod files;
#[cfg(test)]
mod links_max;
#[cfg(test)]
mod numbered;
