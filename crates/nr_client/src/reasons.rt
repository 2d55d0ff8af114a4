//! The reasons of a reply that can't be used (`ClientEnd::BadReply`).

/// A reply that can't be read.
pub(crate) const NOT_READ: u32 = 24;

/// A reply that is well formed, and with which a request can't go on.
pub(crate) const NO_PROGRESS: u32 = 25;
