//! Handles, names, paths and data: opaque data, each with its limit.

use crate::limits::{HANDLE_MAX, MOUNT_PATH_MAX};
use crate::opaque::Opaque;

/// The maximum length of any opaque data in bytes, since its length is a word (RFC 4506 section 4.10). Names, paths and
/// data have no other limit.
pub const UNLIMITED: u32 = u32::MAX;

/// A file handle: it names a file, and only the server knows what its bytes mean (RFC 1813 section 2.5, `nfs_fh3`; section
/// 5.1.5, `fhandle3`).
pub type Handle = Opaque<HANDLE_MAX>;

/// The name of an entry of a directory (RFC 1813 section 2.5, `filename3`).
pub type Name = Opaque<UNLIMITED>;

/// The path in a symbolic link (RFC 1813 section 2.5, `nfspath3`).
pub type Path = Opaque<UNLIMITED>;

/// Bytes of a file (RFC 1813 sections 3.3.6 and 3.3.7).
pub type Data = Opaque<UNLIMITED>;

/// The path of an export (RFC 1813 section 5.1.5, `dirpath`).
pub type MountPath = Opaque<MOUNT_PATH_MAX>;
