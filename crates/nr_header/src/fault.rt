//! Why a message has no usable header.

/// Why a message has no usable header. Each fault is the sender's error.
#[derive(Clone, Copy, Debug, PartialEq, Eq)]
pub enum HeaderFault {
    /// The message has fewer than 16 bytes.
    Short,
    /// The message has a version word other than 1, and is no complete error message.
    Version { version: u32 },
    /// The message is of a kind that isn't read, or is an incomplete error message.
    Kind { kind: u32 },
    /// The lists of chunks don't parse or pass a limit. `at` is the offset of the word or entry at fault, for sums the
    /// end of the lists, in bytes from the front.
    BadChunks { at: usize },
}
