//! The numbers of record marking.

/// The maximum length of a record in bytes.
pub const RECORD_MAX: usize = 1056768;
/// The most room in bytes that is taken for a fragment when its header is read. A peer that sends a header and no payload makes a
/// reader hold no more.
pub const ROOM_MAX: usize = 65536;
/// Bytes of a fragment's header (RFC 5531 section 11).
pub const HEADER_LEN: usize = 4;
/// The bit of a header that marks the last fragment of a record.
pub const BIT_LAST: u32 = 1 << 31;
/// The reason for which a fragment is refused: its record has more than 1056768 bytes.
pub const REASON_RECORD: u32 = 26;
