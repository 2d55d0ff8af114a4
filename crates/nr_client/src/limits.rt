//! The limits of requests.

use nr_nfs_base::NAME_LENGTH_MAX;

/// The maximum length of a component of a path in bytes: that of a name.
pub(crate) const COMPONENT_MAX: usize = NAME_LENGTH_MAX as usize;

/// The number of credits that a session wishes for.
pub(crate) const CREDITS: u32 = 16;

/// The maximum number of READs of a file that are outstanding: with more, their data don't stay in a processor's caches
/// until they are written.
pub(crate) const READS_MAX: usize = 2;

/// The maximum number of entries of a list.
pub(crate) const ENTRIES_MAX: usize = 1_048_576;
