/// How a connection ended.
#[derive(Clone, Copy, Debug)]
pub enum LoopEnd {
    /// The client ended its stream at no byte, or after complete records.
    Closed,
    /// The client ended its stream within a record. `at` is the number of bytes read.
    Cut { at: u64 },
    /// A read of the link failed.
    LinkRead,
    /// A write to the link failed.
    LinkWrite,
    /// A record has more than 1056768 bytes (reason 26; `at` is the offset of the header of the first fragment that
    /// takes it above that), or no call head (reason 27; `at` is the offset of its first byte).
    Bad { at: u64, reason: u32 },
    /// This many bytes were read, which is the maximum.
    Budget { read: u64 },
    /// Memory ran out.
    Memory,
    /// A call has no reply, for a cause of its own that what answers calls knows.
    Unanswered,
}
