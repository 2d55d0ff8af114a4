//! The limits of what is read of a link, and of how long a read waits.

/// The maximum number of bytes that are read of a link.
pub const READ_MAX: u64 = 1 << 40;

/// The maximum number of bytes of one read of a link.
pub const PIECE_MAX: usize = 65536;

/// The maximum number of seconds that one read or write of a socket waits, two hours. A peer that vanished is given up then.
pub const IDLE_SECONDS: u64 = 7200;
