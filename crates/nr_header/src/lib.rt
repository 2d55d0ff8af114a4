//! The transport header of RPC-over-RDMA version 1 (RFC 8166 section 4), read and written exactly.
//!
//! The crate stands on `nr_xdr`. A header begins each message. It carries the XID, the credit value and the procedure
//! (RDMA_MSG, RDMA_NOMSG or RDMA_ERROR), then the chunk lists (memory that the requester offers, or that the responder filled)
//! or an error. [`read_header`] judges a complete message: its lists are within fixed limits, or it says why not and at which
//! offset. [`write_header`] encodes any header, within the limits or not; [`write_plain`], [`write_with_lists`],
//! [`write_with_slices`] and [`write_error`] do so without a [`Header`]. The crates above decide which chunks a call offers and what they carry.
#![tactic(auto)]

mod constants;
mod fault;
mod header;
mod inline_vec;
mod item;
mod laws;
mod length;
mod lists;
mod reading;
mod short_list;
mod writing;

pub use constants::{
    CHUNK_ROOM, CHUNK_SEGMENTS_MAX, DONE, ERROR, FIXED_LEN, HEADER_LEN_MIN, MSG, NOMSG,
    PAYLOAD_MAX, READ_SEGMENT_LEN, READ_SEGMENTS_MAX, REPLY_SEGMENTS_MAX, SEGMENT_LEN, VERSION,
    WRITE_CHUNKS_MAX, WRITE_SEGMENTS_MAX,
};
pub use fault::HeaderFault;
pub use header::{
    Body, Chunk, ChunkLists, Header, HeaderFields, ListSlices, MessageKind, RdmaSegment, ReadList,
    ReadSegment, TransportError, WriteList,
};
pub use inline_vec::InlineVec;
pub use laws::{bad_messages, header_round_trip, kinds_of_messages, lengths_of_headers};
pub use length::{header_len, read_list_len, reply_chunk_len, write_chunk_len};
pub use lists::ListsRoom;
pub use reading::{credit_of, read_header, read_header_into, xid_of};
pub use writing::{write_error, write_header, write_plain, write_with_lists, write_with_slices};
