//! What a peer may do with a region.

/// What a region is offered for (RFC 5040 section 5).
#[derive(Clone, Copy, Debug, PartialEq, Eq)]
pub enum Right {
    /// The peer reads it by Read Requests.
    Fetch,
    /// The peer writes it by RDMA Writes.
    Fill,
    /// The peer's Read Responses go into it.
    Sink,
}

/// The two kinds of tagged segments: a Write needs a Fill region, a Response a Sink region.
#[derive(Clone, Copy, Debug, PartialEq, Eq)]
pub enum Kind {
    /// An RDMA Write (RFC 5040 section 4.3).
    Write,
    /// An RDMA Read Response (RFC 5040 section 4.5).
    Response,
}
