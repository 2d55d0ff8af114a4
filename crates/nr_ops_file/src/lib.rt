//! The procedures of NFS version 3 that are asked of one file, of its bytes or of the file system (RFC 1813 section 3.3).
//!
//! Each is a function over the tree of `nr_tree`, a crate below, from the arguments of `nr_nfs_args` to the results of
//! `nr_nfs_res`. Its definition is in `specs/`: the refusals in their order, of which the first that holds is the answer;
//! the tree after, if the procedure changes it; and the reply. GETATTR, SETATTR and ACCESS are in `attributes.rt`, READ,
//! WRITE and COMMIT in `bytes.rt`, READLINK in `links.rt`, and FSSTAT, FSINFO and PATHCONF in `file_system.rt`.
//!
//! A call that is refused changes nothing. A function that answers `Err` ran out of memory, and nothing has changed
//! either. The procedures of directories are in another crate, and the table of all procedures above both.
#![tactic(auto)]

mod attributes;
mod bytes;
mod data;
mod file_system;
mod links;
mod preferred;

pub use attributes::{access, getattr, setattr};
pub use bytes::{commit, read, write};
pub use data::{ReadOkPart, ReadResPart, finish_read};
pub use file_system::{fsinfo, fsstat, pathconf};
pub use links::readlink;
pub use preferred::preferred_sizes;
