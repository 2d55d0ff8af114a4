//! The statuses that a run ends with.

/// The command was done.
pub const DONE: u8 = 0;

/// The arguments are not those of a command.
pub const BAD_ARGUMENTS: u8 = 1;

/// Memory ran out.
pub const NO_MEMORY: u8 = 2;

/// The link failed: the fault count of a dialer or of an acceptor rose, or a dialer's count of lost links.
pub const LINK_FAULT: u8 = 3;

/// The server ended its stream before the answer to a call came, or the link of a client with a number was lost once more after all tries.
pub const LINK_CLOSED: u8 = 4;

/// The protocol of the link was broken, or a reply had no results.
pub const PROTOCOL_FAULT: u8 = 5;

/// The server refused a call, or to mount an export.
pub const REFUSED: u8 = 6;

/// An NFS procedure failed.
pub const NFS_FAILED: u8 = 7;

/// The server answered ERR_CHUNK or ERR_VERS (RFC 8166 section 4.5).
pub const TRANSPORT_ERROR: u8 = 8;

/// A read of the input failed, or a write to standard output or standard error.
pub const FAULT: u8 = 9;

/// The input is no script, or no configuration, or a path is bad.
pub const BAD_INPUT: u8 = 10;

/// A limit was passed: the input is longer than a script or a configuration may be, or one of a client.
pub const OVER_BUDGET: u8 = 11;
