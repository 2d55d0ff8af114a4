//! The limits and the numbers of RPC heads (RFC 5531).

/// The maximum length of the body of a credential or a verifier in bytes (RFC 5531 section 8.2).
pub const AUTH_BODY_MAX: u32 = 400;

/// The maximum length of the machine name of AUTH_SYS in bytes (RFC 5531 appendix A).
pub const MACHINE_MAX: u32 = 255;

/// The maximum number of further groups of AUTH_SYS (RFC 5531 appendix A).
pub const GIDS_MAX: usize = 16;

/// The version of RPC (RFC 5531 section 9).
pub const RPC_VERSION: u32 = 2;

/// The message type of a call (RFC 5531 section 9).
pub const CALL: u32 = 0;

/// The message type of a reply (RFC 5531 section 9).
pub const REPLY: u32 = 1;

/// The reply status of a call that was accepted (RFC 5531 section 9).
pub const MSG_ACCEPTED: u32 = 0;

/// The reply status of a call that was denied (RFC 5531 section 9).
pub const MSG_DENIED: u32 = 1;

/// The accept status that the lowest and the highest version follow (RFC 5531 section 9).
pub const PROG_MISMATCH: u32 = 2;

/// The reject status for another version of RPC (RFC 5531 section 9).
pub const RPC_MISMATCH: u32 = 0;

/// The reject status for a credential that was refused (RFC 5531 section 9).
pub const AUTH_ERROR: u32 = 1;

/// The flavor without a body (RFC 5531 section 8.2).
pub const AUTH_NONE: u32 = 0;

/// The flavor with a user's and its groups' numbers (RFC 5531 section 8.2).
pub const AUTH_SYS: u32 = 1;
