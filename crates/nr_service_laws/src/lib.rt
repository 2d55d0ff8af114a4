//! What holds of a command of a client as one run of its link, proved from the contracts of its calls.
//!
//! It stands on `nr_commands` and `nr_client`, whose definitions say what each call and each command does. Nothing of it runs: each public
//! function has a law as its contract.
#![tactic(auto)]

mod laws;

pub use laws::{
    commands_are_typed, commands_have_a_run, commands_keep_the_law, ends_have_causes,
    files_have_marks, replies_exclude_ends, requests_have_marks, served_commands_complete,
    served_commands_end_for_memory, served_commands_have_replies, served_commands_stay_open,
    sessions_begin,
};
