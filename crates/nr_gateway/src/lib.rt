//! The gateway that a configuration asks for.
//!
//! It stands on `nr_words`, which reads the configuration, on `nr_shared`, whose requester its connections share, and on `nr_gate`,
//! which serves them. `nr_top` gives it a status.
//!
//! [`gate_config`] reads its input to the end, listens, dials the remote server once, shares a requester over that link, serves as
//! many connections as the configuration says, and prints how many there were. Or it stops for a cause, a
//! [`ServeStop`](nr_serve::ServeStop), each of which says what was done before.
#![tactic(auto)]

mod gateway;
mod remote;

pub use gateway::gate_config;
