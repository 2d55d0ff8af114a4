//! Limits of what words and configurations may say.

/// The maximum of a user or a group ID.
pub const ID_MAX: u64 = 4_294_967_295;

/// The maximum of a seed.
pub const SEED_MAX: u64 = 18_446_744_073_709_551_615;

/// The maximum number of clients of a script that is generated.
pub const CLIENTS_MAX: u64 = 16;

/// The maximum number of calls of a script that is generated.
pub const CALLS_MAX: u64 = 1_000_000;

/// The maximum number of a client.
pub const CLIENT_NUMBER_MAX: u64 = 18_446_744_073_709_551_615;

/// How often the link of a client with a number is dialled again at most.
pub const TRIES_MAX: u64 = 16;

/// The maximum number of jobs of a `get`.
pub const JOBS_MAX: u64 = 16;

/// How many jobs a `get` has if nothing is said.
pub const DEFAULT_JOBS: u8 = 1;

/// The maximum length of the path of an export in bytes (RFC 1813 section 5.1.4, `MNTPATHLEN`).
pub const MOUNT_PATH_MAX: usize = 1024;

/// The maximum number of credits of a server.
pub const CREDITS_MAX: u64 = 64;

/// The maximum of what the journal of a server may cost, in bytes.
pub const CAPACITY_MAX: u64 = 9_223_372_036_854_775_807;

/// The maximum number of connections of a server.
pub const CONNECTIONS_MAX: u64 = 4_294_967_295;

/// The maximum of the units that a client or a server has for its Sends in each direction. One unit is 1,024 bytes.
pub const UNITS_MAX: u64 = 16;

/// How many units a client or a server has if nothing is said.
pub const DEFAULT_UNITS: u8 = 1;
