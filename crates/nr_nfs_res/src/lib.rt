//! The results of the 22 procedures of NFS version 3, and of those of MOUNT version 3 (RFC 1813).
//!
//! There is a type for each procedure. Most are a `StatusUnion`: the results on success, or the status of a failure with its
//! own part. All are read and written by the trait `Xdr` of `nr_nfs_base`, the crate below. The codecs are in `specs/`, each
//! with its section of the RFC. `specs/Results.antt` is the table of the procedures and the codecs of their results, and
//! [`results`] says that the types here have these codecs.
//!
//! The crates above execute calls and read replies. They decide whether results make sense: here the count of a READ need
//! not be the length of its data.
#![tactic(auto)]

mod attributes;
mod bytes;
mod create;
mod file_system;
mod laws;
mod lookup;
mod mount;
mod null;
mod readdir;
mod remove;

pub use attributes::{AccessOk, AccessRes, GetattrRes, SetattrRes};
pub use bytes::{
    CommitOk, CommitRes, ReadOk, ReadOkRef, ReadRes, ReadResRef, WriteOk, WriteRes, read_read_res,
    read_read_res_from, write_read_res,
};
pub use create::{CreateOk, CreateRes, MkdirRes, MknodRes, SymlinkRes};
pub use file_system::{FsinfoOk, FsinfoRes, FsstatOk, FsstatRes, PathconfOk, PathconfRes};
pub use laws::{fronts_of_results, results};
pub use lookup::{LookupOk, LookupRes, ReadlinkOk, ReadlinkRes};
pub use mount::{MntRes, MountOk, UmntRes, UmntallRes};
pub use null::NullRes;
pub use readdir::{
    Entry, EntryPlus, Listing, ReaddirOk, ReaddirRes, ReaddirplusOk, ReaddirplusRes,
};
pub use remove::{LinkRes, LinkWcc, RemoveRes, RenameRes, RenameWcc, RmdirRes};
