//! The endpoint of a link: one side of it, with its registered memory and its output queue (RFC 5040, RFC 5041, RFC 5044).
//!
//! It stands on `nr_wire`, which frames the stream, on `nr_regions`, which keeps registered memory, and on `nr_link`, which says why
//! a segment ends a link. The ends above it give it what the peer sent ([`Endpoint::feed`]), take what came
//! ([`Endpoint::next_event`]), queue messages and accesses, and hand its output to a sink ([`Endpoint::drain_into`]). It knows
//! nothing of RPC-over-RDMA headers.
//!
//! Any bytes may come. Each frame is judged once it is complete, in the order of the stream, and either ends the side or has its
//! effect. A frame that lies completely in a piece is judged in it, without a copy; only one that a piece splits goes through the
//! staging buffer. So the state of an endpoint after some pieces does not depend on how the stream was split.
//!
//! An endpoint keeps neither the bytes that it was fed nor its calls. Contracts see its side of the link, and each call says
//! which list of calls it stands for.
#![tactic(auto)]

mod calls;
mod constants;
mod effects;
mod ending;
mod endpoint;
mod event;
mod fault;
mod faults;
mod frames;
mod framing;
mod hellos;
mod holding;
mod laws;
mod link;
mod offering;
mod operations;
mod output;
mod reading;
mod reads;
mod receive_queue;
mod requests;
mod send_queue;
mod sharing;
mod staging;

pub use constants::OPEN_READS_MAX;
pub use endpoint::Endpoint;
pub use event::Event;
pub use fault::{DrainFault, ReadRefused};
pub use framing::RemoteWrite;
pub use laws::{
    accesses_follow_bytes, agrees_by_hellos, claims_stay, ends_by_grants, events_follow_accesses,
    however_cut, lists_stay_bounded, memory_follows_accesses, no_fpdu_before_hello,
    output_in_items, reasons_of_frames, sides_stay_bounded, stream_is_kept,
};
pub use offering::{Claims, Offered};
pub use requests::RemoteRead;
pub use sharing::SharedWrite;
