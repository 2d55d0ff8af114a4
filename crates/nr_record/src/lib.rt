//! Record marking (RFC 5531 section 11), by which RPC messages are sent over TCP.
//!
//! A [`Records`] is fed the bytes of a stream, in pieces of any length, and gives the records that are complete. [`write_record`]
//! writes a record as one fragment, and [`record_header`] gives the header of that fragment alone.
#![tactic(auto)]

pub mod constants;
mod fault;
mod feed;
mod laws;
mod records;
mod write;

pub use fault::RecordFault;
pub use laws::{however_cut, one_reading, records_of_the_stream, written_again};
pub use records::Records;
pub use write::{record_header, write_record};
