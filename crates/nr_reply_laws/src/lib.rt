//! What a client reads of the replies of a plain server, proved from the definitions of both.
//!
//! It stands on `nr_client` and `nr_plain`, whose definitions say how a reply is read and what the server replies. Nothing of it runs: its public
//! function has the laws as its contract.
#![tactic(auto)]

mod laws;

pub use laws::plain_replies_are_read;
