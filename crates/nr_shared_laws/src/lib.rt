//! Laws of the links of a shared requester with a client number: links of one client, which goes on from each to the next.
//!
//! Nothing of it runs: its public functions have the laws as their contracts.
#![tactic(auto)]

mod laws;

pub use laws::{
    both_sides_go_on, outcomes_come_once, represented_links_go_on,
    session_changes_take_effect_once, session_links_go_on, session_stags_are_dead,
};
