//! Sizes and numbers. The limits are this implementation's own.

use nr_nfs_base::{MountProcedure, NfsProcedure};

/// The maximum of credits that a side asks for or grants, and that a credit word counts for (RFC 8166 section 3.3).
pub const CREDITS_MAX: u32 = 64;

/// The maximum of an offer that is given, all its chunks together, in bytes.
pub const GIVEN_MAX: u32 = 1_056_768;

/// The maximum length of a segment of a chunk whose offer is not given, in bytes.
pub(crate) const CHUNK_SEGMENT_MAX: u32 = 66_048;

/// The procedure of MOUNT that gives a handle (RFC 1813 section 5.2.1).
pub(crate) const MNT: u32 = MountProcedure::Mnt as u32;

// The procedures of NFS (RFC 1813 section 3.3).

pub(crate) const GETATTR: u32 = NfsProcedure::Getattr as u32;

pub(crate) const SETATTR: u32 = NfsProcedure::Setattr as u32;

pub(crate) const LOOKUP: u32 = NfsProcedure::Lookup as u32;

pub(crate) const ACCESS: u32 = NfsProcedure::Access as u32;

pub(crate) const READLINK: u32 = NfsProcedure::Readlink as u32;

pub(crate) const READ: u32 = NfsProcedure::Read as u32;

pub(crate) const WRITE: u32 = NfsProcedure::Write as u32;

pub(crate) const CREATE: u32 = NfsProcedure::Create as u32;

pub(crate) const MKDIR: u32 = NfsProcedure::Mkdir as u32;

pub(crate) const SYMLINK: u32 = NfsProcedure::Symlink as u32;

pub(crate) const MKNOD: u32 = NfsProcedure::Mknod as u32;

pub(crate) const REMOVE: u32 = NfsProcedure::Remove as u32;

pub(crate) const RMDIR: u32 = NfsProcedure::Rmdir as u32;

pub(crate) const RENAME: u32 = NfsProcedure::Rename as u32;

pub(crate) const LINK: u32 = NfsProcedure::Link as u32;

pub(crate) const READDIR: u32 = NfsProcedure::Readdir as u32;

pub(crate) const READDIRPLUS: u32 = NfsProcedure::Readdirplus as u32;

pub(crate) const FSSTAT: u32 = NfsProcedure::Fsstat as u32;

pub(crate) const FSINFO: u32 = NfsProcedure::Fsinfo as u32;

pub(crate) const PATHCONF: u32 = NfsProcedure::Pathconf as u32;

pub(crate) const COMMIT: u32 = NfsProcedure::Commit as u32;
