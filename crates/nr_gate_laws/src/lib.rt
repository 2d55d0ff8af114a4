//! Laws of a gateway: of calls that are forwarded with another xid, and of its connections.
//!
//! Nothing of it runs: its public functions have the laws as their contracts.
#![tactic(auto)]

mod laws;

pub use laws::{
    forwarded_calls_are_answered_alike, forwarded_calls_are_no_longer, gated_links_are_plain,
    gated_replies_are_plain, plain_in_longer_journals, remote_calls_are_never_too_large,
};
