//! The numbers of the link's formats (RFC 5040, 5041, 5044), and the reasons for which its frames are refused.

/// The length of a hello before its private data, in bytes (RFC 5044 section 7.1).
pub const HELLO_LEN: usize = 20;
/// The revision of MPA that a hello names.
pub const HELLO_REVISION: u8 = 1;
/// The maximum length of private data in a hello, in bytes.
pub const PRIVATE_MAX: u16 = 512;
/// The flag by which a hello asks for markers.
pub const FLAG_MARKERS: u8 = 0x80;
/// The flag by which a hello asks for a CRC.
pub const FLAG_CRC: u8 = 0x40;
/// The flag by which a reply refuses the connection.
pub const FLAG_REJECT: u8 = 0x20;

/// The length of the private data that says terms, in bytes, without the number of a client.
pub const TERMS_LEN: usize = 8;
/// The length of the private data that says terms and the number of a client, in bytes.
pub const NUMBERED_TERMS_LEN: usize = 16;
/// The version that private data with terms names.
pub const TERMS_VERSION: u8 = 1;
/// The flag of terms that says that the number of a client follows.
pub const TERMS_NUMBER: u8 = 0x01;
/// The flag of terms that says that the side makes or takes Sends with Invalidate.
pub const TERMS_INVALIDATE: u8 = 0x02;
/// The maximum of units that a side says.
pub const UNITS_MAX: u8 = 16;

/// The length of the length field that opens an FPDU, in bytes (RFC 5044 section 4).
pub const LENGTH_LEN: usize = 2;
/// The length of the CRC field that ends an FPDU, in bytes.
pub const CRC_LEN: usize = 4;
/// The maximum length of an ULPDU in bytes: its length field has 16 bits.
pub const ULPDU_MAX: usize = 65535;
/// The maximum length of an FPDU in bytes.
pub const FPDU_MAX: usize = LENGTH_LEN + ULPDU_MAX + 3 + CRC_LEN;
/// The length of the header of a tagged segment in bytes (RFC 5041 section 4.2).
pub const TAGGED_LEN: usize = 14;
/// The length of the header of an untagged segment in bytes (RFC 5041 section 4.3).
pub const UNTAGGED_LEN: usize = 18;
/// The most bytes of an FPDU before its segment's payload.
pub const HEADER_MAX: usize = LENGTH_LEN + UNTAGGED_LEN;
/// The most bytes of an FPDU after its ULPDU: the pad and the CRC.
pub const TAIL_MAX: usize = 3 + CRC_LEN;
/// The bit of an ULPDU's first byte that says that the segment is tagged.
pub const BIT_TAGGED: u8 = 0x80;
/// The bit of an ULPDU's first byte that says that the segment is the last of its message.
pub const BIT_LAST: u8 = 0x40;

/// The version of DDP that a segment names (RFC 5041 section 4.1).
pub const DDP_VERSION: u8 = 1;
/// The version of RDMAP that a segment names (RFC 5040 section 4.1).
pub const RDMAP_VERSION: u8 = 1;

/// RDMA Write (the opcodes are those of RFC 5040 section 4).
pub const OPCODE_WRITE: u8 = 0;
/// RDMA Read Request.
pub const OPCODE_READ_REQUEST: u8 = 1;
/// RDMA Read Response.
pub const OPCODE_READ_RESPONSE: u8 = 2;
/// Send.
pub const OPCODE_SEND: u8 = 3;
/// Send with Invalidate.
pub const OPCODE_SEND_INVALIDATE: u8 = 4;
/// Terminate.
pub const OPCODE_TERMINATE: u8 = 7;

/// The queue of Sends (RFC 5040 section 4).
pub const QUEUE_SEND: u32 = 0;
/// The queue of Read Requests.
pub const QUEUE_READ_REQUEST: u32 = 1;
/// The queue of Terminates.
pub const QUEUE_TERMINATE: u32 = 2;

/// A hello has another key.
pub const REASON_KEY: u32 = 1;
/// A hello asks for markers or a CRC, or a reply refuses the connection.
pub const REASON_FLAGS: u32 = 2;
/// A hello is of another revision.
pub const REASON_REVISION: u32 = 3;
/// A hello has more than 512 bytes of private data.
pub const REASON_PRIVATE: u32 = 4;
/// An ULPDU is shorter than its header.
pub const REASON_LENGTH: u32 = 5;
/// A segment is of another version of DDP.
pub const REASON_DDP_VERSION: u32 = 6;
/// A segment is of another version of RDMAP.
pub const REASON_RDMAP_VERSION: u32 = 7;
/// A segment's opcode isn't supported.
pub const REASON_OPCODE: u32 = 8;
/// The T bit isn't the one that the opcode requires.
pub const REASON_TAGGED: u32 = 9;
/// An untagged segment is in a queue that isn't its opcode's.
pub const REASON_QUEUE: u32 = 10;
