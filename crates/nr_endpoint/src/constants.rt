//! Limits and lengths of a link beyond those of its frames. The limits are this implementation's own; the numbers of reasons and the
//! words of a Terminate are in `nr_link`.

use nr_wire::constants::{HEADER_MAX, TAIL_MAX};

/// The maximum payload of a segment that is written, in bytes.
pub const SEGMENT_MAX: usize = 4096;

/// The payload of an RDMA Write from which on it is shared and not copied, in bytes.
pub const SHARED_MIN: usize = 1024;

/// The maximum number of bytes of an FPDU besides its segment's payload: of the header, the pad and the CRC.
pub const FRAMING_MAX: usize = HEADER_MAX + TAIL_MAX;

/// The unit of the length of a Send, in bytes.
pub const SEND_UNIT: usize = nr_link::constants::SEND_UNIT as usize;

/// The minimum length of a Send in bytes: the fixed words of a transport header (RFC 8166 section 4.1).
pub const SEND_MIN: u64 = 16;

/// The maximum number of open Read Requests, and of Read Responses that are owed.
pub const OPEN_READS_MAX: usize = 8;

/// The length of the payload of a Read Request in bytes (RFC 5040 section 4.4).
pub const READ_REQUEST_LEN: usize = 28;

/// The minimum payload of a Terminate in bytes (RFC 5040 section 4.8).
pub const TERMINATE_MIN: usize = 4;
