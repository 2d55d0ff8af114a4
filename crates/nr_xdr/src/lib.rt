//! XDR items (RFC 4506): unsigned integers, hyper integers, booleans and opaque data, read and written exactly.
//!
//! This is the lowest layer. A [`Reader`] takes items from the front of some bytes and knows its offset; a [`Writer`]
//! appends items. [`Octets`] is the byte string of the crates above. Pad bytes are written as zeros, and their values are
//! ignored when they are read. The crates above say what items mean together: heads, headers and values.
#![tactic(auto)]

mod decode;
mod fault;
mod laws;
mod octets;
mod reader;
mod room_writer;
mod words;
mod writer;

pub use decode::{DecodeError, number, word_at};
pub use fault::{ItemFault, Memory};
pub use laws::one_reading;
pub use octets::Octets;
pub use reader::Reader;
pub use room_writer::RoomWriter;
pub use words::pad_len;
pub use writer::Writer;
