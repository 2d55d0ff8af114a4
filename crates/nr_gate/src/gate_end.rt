//! How a connection of a gateway ended.

use nr_shared::CallEnd;

/// How a connection of a gateway ended.
#[derive(Clone, Copy)]
pub enum GateEnd {
    /// The client ended its stream at no byte, or after complete records.
    Closed,
    /// The client ended its stream within a record. `at` is the number of bytes read.
    Cut { at: u64 },
    /// A read of the client's link failed.
    LinkRead,
    /// A write to the client's link failed.
    LinkWrite,
    /// A record has more than 1056768 bytes (reason 26; `at` is the offset of the header of the first fragment that
    /// takes it above that), or no call head (reason 27; `at` is the offset of its first byte).
    Bad { at: u64, reason: u32 },
    /// This many bytes were read of the client's link, which is the maximum.
    Budget { read: u64 },
    /// Memory ran out.
    Memory,
    /// The remote call of a record ended so.
    Remote(CallEnd),
    /// The remote server answered a record's call by ERR_CHUNK (RFC 8166 section 4.5).
    Chunk,
    /// The remote server answered a record's call by ERR_VERS: it supports the versions from `low` to `high`.
    Version { low: u32, high: u32 },
}
