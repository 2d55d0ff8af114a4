//! What holds of a command and of the connection of a server that served it, as the two sides of one link.
//!
//! It is proved from the laws of commands and those of connections. Nothing of it runs: each public function has a law as its contract.
#![tactic(auto)]

mod laws;

pub use laws::{
    answered_in_longer_journals, commands_get_the_file, commands_put_their_input,
    connections_have_a_run, files_refuse_for_rights, gets_end_for_a_cause, jobs_are_served,
    jobs_get_the_file, jobs_have_a_run, numbers_fit_in_handles, pairs_are_served, put_then_get,
    record_reads_give_the_file, results_are_read, roots_are_sane, sides_are_interleaved,
};
