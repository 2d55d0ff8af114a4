//! That what runs hold are bytes: what the sides of a link have to write, and the replies of the plain server.
//!
//! It stands on the definitions of runs (`nr_reduce`) and of the plain server (`nr_plain`). Nothing of it runs: each public function has a
//! law as its contract.
#![tactic(auto)]

mod laws;

pub use laws::{due_output_is_bytes, plain_replies_are_bytes};
