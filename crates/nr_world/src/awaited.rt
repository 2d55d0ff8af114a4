//! What a link keeps of the calls of its client.

use nr_reduce::{Call, Form};
use nr_requester::Ticket;

/// A call that is awaited: its ticket, how many call lines its client had before its own, and what is sent again if the client
/// begins another link.
#[derive(Drop)]
pub struct AwaitedCall {
    /// The ticket by which its answer is taken.
    pub ticket: Ticket,
    /// How many call lines of its client came before its own.
    pub index: usize,
    /// The call.
    pub call: Call,
    /// How it was to be sent.
    pub form: Form,
}

/// A call that waits to be sent again.
#[derive(Drop)]
pub struct HeldCall {
    /// Its transaction ID (XID).
    pub xid: u32,
    /// The call.
    pub call: Call,
    /// How it was to be sent.
    pub form: Form,
}
