//! The arguments of the 22 procedures of NFS version 3, and of those of MOUNT version 3 (RFC 1813).
//!
//! There is a type for each procedure, with the fields of the RFC. All are read and written by the trait `Xdr` of
//! `nr_nfs_base`, the crate below. The codecs are in `specs/`, each with its section of the RFC. `specs/Arguments.antt` is
//! the table of the procedures and the codecs of their arguments, and [`arguments`] says that the types here have these
//! codecs.
//!
//! The crates above plan calls and execute them. They decide whether an argument makes sense: here a name may have any
//! bytes, and a time any nanoseconds.
#![tactic(auto)]

mod attributes;
mod bytes;
mod create;
mod create_mode;
mod file_system;
mod laws;
mod lookup;
mod mount;
mod null;
mod readdir;
mod remove;
mod special;
mod write_args_ref;

pub use attributes::{AccessArgs, GetattrArgs, SetattrArgs};
pub use bytes::{CommitArgs, ReadArgs, WriteArgs};
pub use create::{CreateArgs, CreateHow, MkdirArgs};
pub use create_mode::CreateMode;
pub use file_system::{FsinfoArgs, FsstatArgs, PathconfArgs};
pub use laws::arguments;
pub use lookup::{LookupArgs, ReadlinkArgs};
pub use mount::{MntArgs, UmntArgs, UmntallArgs};
pub use null::NullArgs;
pub use readdir::{ReaddirArgs, ReaddirplusArgs};
pub use remove::{LinkArgs, RemoveArgs, RenameArgs, RmdirArgs};
pub use special::{DeviceData, MknodArgs, MknodData, SymlinkArgs};
pub use write_args_ref::WriteArgsRef;
