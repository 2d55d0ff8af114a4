//! The frames of a link: the hello of MPA (RFC 5044), and DDP segments (RFC 5041, RFC 5040) in their FPDUs.
//!
//! The crate stands on `nr_xdr`, whose words it reads and writes. The endpoint above decides what a segment does. Bytes come
//! from the front of a stream: [`read_hello`] and [`next_segment`] find a complete frame there, less than one, or one that
//! is refused. Each frame is judged by its own bytes alone. What depends on earlier frames (message numbers, offsets,
//! memory) is judged above. [`whole_frame`] and [`bytes_needed`] split a stream into frames: an FPDU by its length field,
//! whatever else it holds; a hello by its private length, or after its first 20 bytes if these are refused.
//!
//! A stream is a hello, FPDUs, and a rest that is less than a frame. It splits in one way ([`one_split`]). A layer that
//! processes its frames reaches the same state however the stream is split ([`however_cut`]).
//!
//! Markers and CRCs aren't supported: the CRC field is sent as zeros and ignored, as are the pad and the reserved bits.
#![tactic(auto)]

pub mod constants;
mod hello;
mod laws;
mod segment;
mod stream;
mod terms;
mod words;
mod write;

pub use hello::{Hello, NextHello, Side, read_hello};
pub use laws::{
    frame_in_parts, however_cut, judged_alone, longest_fpdu, one_segment, one_split, round_trip,
    terms_are_read,
};
pub use segment::{NextSegment, Segment, next_segment};
pub use stream::{Awaited, bytes_needed, whole_frame};
pub use terms::{Terms, read_terms, write_terms};
pub use words::hyper_at;
pub use write::{
    payload_in, segment_header, segment_tail, tagged_header, ulpdu_size, untagged_header,
    write_hello, write_segment,
};
