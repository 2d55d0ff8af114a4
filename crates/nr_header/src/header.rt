//! The transport header as a value.

ghost use Rattle.std.specs.Prelude.{◌≡◌, option_map};

use crate::constants::{CHUNK_ROOM, READ_SEGMENTS_MAX, WRITE_CHUNKS_MAX};
use crate::inline_vec::InlineVec;

/// Memory that a peer offers (RFC 8166 section 3.4): `length` bytes from `offset` on in the region that `handle` names.
#[derive(Clone, Copy, Debug, PartialEq, Eq, Default)]
pub struct RdmaSegment {
    /// The STag of the region.
    pub handle: u32,
    /// In bytes.
    pub length: u32,
    /// The offset of the first byte in the region.
    pub offset: u64,
}

/// An entry of a read list (RFC 8166 section 3.4.5): memory whose bytes belong at `position` of the payload.
#[derive(Clone, Copy, Debug, PartialEq, Eq, Default)]
pub struct ReadSegment {
    /// The offset in the payload at which the bytes belong, in bytes.
    pub position: u32,
    /// The STag of the region.
    pub handle: u32,
    /// In bytes.
    pub length: u32,
    /// The offset of the first byte in the region.
    pub offset: u64,
}

/// A read list. Contracts see the list of its entries.
pub type ReadList = InlineVec<ReadSegment, READ_SEGMENTS_MAX>;

/// A write chunk or a reply chunk (RFC 8166 section 3.4.6). Contracts see the list of its segments.
pub type Chunk = InlineVec<RdmaSegment, CHUNK_ROOM>;

/// A write list. Contracts see the list of its chunks.
pub type WriteList = InlineVec<Chunk, WRITE_CHUNKS_MAX>;

impl Default for Chunk {
    ghost use Rattle.std.specs.Prelude.{◌≡◌, []};

    ghost is_default = { λ chunk. chunk ≡ [] };

    /// No segments.
    fn default() -> Chunk {
        InlineVec::new()
    }
}

/// The lists of chunks (RFC 8166 section 3.4).
#[derive(Drop)]
pub struct ChunkLists {
    /// The memory from which the call is read (RFC 8166 section 3.4.5).
    pub read: ReadList,
    /// The memory into which items of the reply are written (RFC 8166 section 3.4.6).
    pub write: WriteList,
    /// The memory into which the rest of the reply is written, if it is long (RFC 8166 section 3.5).
    pub reply: Option<Chunk>,
}

/// The lists of chunks (RFC 8166 section 3.4), borrowed.
#[derive(Clone, Copy)]
pub struct ListSlices<'a> {
    /// The entries of the read list.
    pub read: &'a [ReadSegment],
    /// The chunks of the write list.
    pub write: &'a [Chunk],
    /// The segments of the reply chunk, if there is one.
    pub reply: Option<&'a [RdmaSegment]>,
}

/// The segments of a reply chunk, if there is one.
fn segments_of(reply: &Option<Chunk>) -> Option<&[RdmaSegment]>
    ensures { option_map (λ segments. segments.now) result ≡ reply.now }
{
    match reply {
        Some(chunk) => Some(chunk.as_slice()),
        None => None,
    }
}

impl<'a> ListSlices<'a> {
    ghost use Rattle.nr_header.specs.Slices.{lists_of_slices};

    /// These lists.
    pub fn new(
        read: &'a [ReadSegment],
        write: &'a [Chunk],
        reply: &'a Option<Chunk>,
    ) -> ListSlices<'a>
        ensures { lists_of_slices result ≡ record { read = read.now; write = write.now; reply = reply.now } }
    {
        ListSlices {
            read,
            write,
            reply: segments_of(reply),
        }
    }
}

impl ChunkLists {
    ghost use Rattle.nr_header.specs.Slices.{lists_of_slices};

    /// The lists, borrowed.
    pub fn as_slices(&self) -> ListSlices<'_>
        ensures { lists_of_slices result ≡ self.now }
    {
        ListSlices::new(self.read.as_slice(), self.write.as_slice(), &self.reply)
    }
}

/// What follows the fixed words of a header (RFC 8166 section 4.2).
#[derive(Drop)]
pub enum Body {
    /// RDMA_MSG: the stream follows the header, from the offset `stream_at` of the message on. A header that is written needs no
    /// `stream_at`.
    Msg { lists: ChunkLists, stream_at: usize },
    /// RDMA_NOMSG: the stream is in a chunk.
    Nomsg { lists: ChunkLists },
    /// RDMA_ERROR with ERR_VERS: the sender supports the versions from `low` to `high`. `version` is the version word.
    ErrVers { version: u32, low: u32, high: u32 },
    /// RDMA_ERROR with ERR_CHUNK: the chunks of the call can't be used. `version` is the version word.
    ErrChunk { version: u32 },
}

/// The error that an RDMA_ERROR message reports (RFC 8166 section 4.5).
#[derive(Clone, Copy, Debug, PartialEq, Eq)]
pub enum TransportError {
    /// ERR_VERS: the sender supports the versions from `low` to `high`.
    Vers { low: u32, high: u32 },
    /// ERR_CHUNK: the chunks of the call can't be used.
    Chunk,
}

/// What a message has after its fixed words (RFC 8166 section 4.2), but for its lists, which were read into a room.
#[derive(Clone, Copy, Debug, PartialEq, Eq)]
pub enum MessageKind {
    /// RDMA_MSG: the stream follows the header, from the offset `stream_at` of the message on.
    Msg { stream_at: usize },
    /// RDMA_NOMSG: the stream is in a chunk.
    Nomsg,
    /// RDMA_ERROR. `version` is the version word.
    Error { version: u32, error: TransportError },
}

/// A transport header that was read, but for its lists (RFC 8166 section 4.2).
#[derive(Clone, Copy, Debug, PartialEq, Eq)]
pub struct HeaderFields {
    /// The transaction ID, that of the RPC message.
    pub xid: u32,
    /// The number of credits that a requester asks for or a responder grants.
    pub credit: u32,
    /// What the message is, and the offset of its stream.
    pub kind: MessageKind,
}

/// A transport header (RFC 8166 section 4.2).
#[derive(Drop)]
pub struct Header {
    /// The transaction ID, that of the RPC message.
    pub xid: u32,
    /// The number of credits that a requester asks for or a responder grants.
    pub credit: u32,
    /// The chunks of a message, or an error.
    pub body: Body,
}
