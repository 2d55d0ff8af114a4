//! A gateway: record-marked TCP (RFC 5531 section 11) on one side, a shared requester of RPC-over-RDMA on the other.
//!
//! [`gate_connection`] reads a client's stream, forwards the call of each record over the shared requester, and writes the
//! server's reply as a record, with the xid of the client's own call. [`gate`] accepts links, and has one `gate_connection`
//! for each, in a [`GateJob`].
#![tactic(auto)]

mod asking;
mod connection;
mod forwarding;
mod gate_end;
mod gated_links;
mod gating;
mod job;
mod remote_caller;
mod taking;

pub use connection::gate_connection;
pub use gate_end::GateEnd;
pub use gating::{GateEnds, Gated, gate};
pub use job::{GateCarried, GateJob};
pub use remote_caller::RemoteCaller;
