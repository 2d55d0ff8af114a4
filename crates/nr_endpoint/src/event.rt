//! What an endpoint delivers to its owner.

use nr_xdr::Octets;

/// What an endpoint delivers to its owner. An event is delivered after all tagged segments before it were placed.
#[derive(Drop)]
pub enum Event {
    /// The peer's Send with this number, from 1 on, is complete. Its bytes are the first `len` of the receive buffer, at least 16. The
    /// buffer goes back by `post`. `invalidated` is the STag that it names, if it is a Send with Invalidate (RFC 5040 section 4.7); the
    /// owner of the region invalidates it.
    Message {
        number: u64,
        invalidated: Option<u32>,
        buf: Octets,
        len: usize,
    },
    /// The Read Request that was open longest has its complete response.
    ReadDone,
}
