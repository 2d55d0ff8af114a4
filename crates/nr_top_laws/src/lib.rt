//! What holds of the statuses of the program, proved from the definitions of its runs and the laws of commands and of servers.
//!
//! Nothing of it runs: each public function has a law as its contract.
#![tactic(auto)]

mod laws;

pub use laws::{
    gateways_have_statuses, logs_are_read_back, numbered_statuses_have_causes,
    served_commands_have_statuses, servers_have_statuses, statuses_have_causes,
};
