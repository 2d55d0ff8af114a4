//! The server end of a link: it takes the client's stream, tells which calls are ready to be executed, and queues their answers
//! (RFC 8166 sections 3.3 to 3.5, 4.2 to 4.5).
//!
//! It stands on `nr_endpoint`, one side of the link, on `nr_header` and `nr_rpc`, which read a message and a call head, and on `nr_reduce`,
//! which says how a reply is sent back and what a server of a run owes.
//!
//! A message comes as a receive buffer. It is judged once ([`Responder::feed`]): it ends the link, is refused by an error message, or
//! makes a call pending, which keeps that buffer until its answer has left the queue. So the payload of an inline call is read in the
//! buffer in which its Send was placed ([`Responder::payload`]). [`Responder::answer`] queues RDMA Writes and one Send, or ERR_CHUNK, or
//! changes nothing; and [`Responder::drain_into`] posts the receive of each answer that has left.
//!
//! The chunks of a call with a read list are read into regions of the responder (sinks), at most eight Read Requests at a time, before
//! the call is ready (RFC 8166 section 3.4.5). If its stream stands in its message and it has one chunk, its payload is completed in the
//! buffer of that chunk's sink.
//!
//! A responder keeps neither marks nor bytes of the past. Each call says, for every list of marks that the value stood for, what it
//! answers, and that the value stands for that list with the marks of the call.
#![tactic(auto)]

mod answering;
mod call;
mod counting;
mod fetching;
mod granting;
mod heads;
mod judging;
mod laws;
mod messages;
mod old_calls;
mod opening;
mod payloads;
mod placing;
mod read_done;
mod read_lists;
mod registering;
mod responder;
mod room;
mod server_end;
mod sink_regions;
mod starting;

pub use call::{CallId, Sent};
pub use laws::{responders_keep_it_in_full, responders_keep_their_law};
pub use responder::Responder;
