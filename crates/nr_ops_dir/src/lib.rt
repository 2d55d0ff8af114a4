//! The procedures of NFS version 3 that change a directory (RFC 1813 section 3.3), over the tree of files of `nr_tree`: CREATE
//! ([`create`]), MKDIR ([`mkdir`]), SYMLINK ([`symlink`]), MKNOD ([`mknod`]); REMOVE ([`remove`]), RMDIR ([`rmdir`]); RENAME
//! ([`rename`]), LINK ([`link`]). Those that read one are in `nr_ops_list`.
//!
//! Each takes a tree, the time, the caller, the space of the journal and the arguments. `specs/` has for each a list of rules in the
//! order in which they are asked: the first that holds refuses the call, and a refused call changes nothing. The tree after a call and
//! its reply are defined there too, and each clause is an equation with these definitions. After an `Err` of memory the tree is as
//! before.
//!
//! `entries.rt` has what they share: the node of a name, and the test of the handle, the name and the directory. `creation.rt` has new
//! nodes with their entries and replies. The values of arguments and results are those of `nr_nfs_args` and `nr_nfs_res`. The server,
//! which decides on the order of calls and keeps the journal, is above.
#![tactic(auto)]

mod creation;
mod entries;
mod files;
mod links;
mod removal;
mod renaming;

pub use creation::{mkdir, mknod, symlink};
pub use files::create;
pub use links::link;
pub use removal::{remove, rmdir};
pub use renaming::rename;
