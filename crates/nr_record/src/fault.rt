//! Why no more records are read.

/// Why a stream is read no further. It stays: each later call answers it again.
#[derive(Clone, Copy, Debug, PartialEq, Eq)]
pub enum RecordFault {
    /// The length of a fragment takes its record above 1056768 bytes. `at` counts the bytes of the stream before its header, and
    /// `reason` is always 26.
    Bad { at: u64, reason: u32 },
    /// Memory ran out.
    Memory,
}
