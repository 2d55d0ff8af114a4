//! The procedures of NFS version 3 that read a directory (RFC 1813 section 3.3), over the tree of files of `nr_tree`: LOOKUP
//! ([`lookup`]), READDIR ([`readdir`]) and READDIRPLUS ([`readdirplus`]).
//!
//! Each takes a tree, the caller and the arguments, and changes nothing. `specs/` has for each a list of rules in the order in which
//! they are asked: the first that holds refuses the call. The reply is defined there too, and each clause is an equation with these
//! definitions.
//!
//! `listings.rt` has which entries fit into a listing, `listed.rt` the entries as they are written. The values of arguments and results
//! are those of `nr_nfs_args` and `nr_nfs_res`. The procedures that change a directory are in `nr_ops_dir`.
#![tactic(auto)]

mod counts;
mod find;
mod listed;
mod listings;
mod readdirs;

pub use counts::listing_limit;
pub use find::lookup;
pub use readdirs::{readdir, readdirplus};
