//! The tree of files that the plain server keeps (RFC 1813 section 2.6): nodes by number, and directories that name them.
//!
//! [`Tree`] has a node under each number and the next number to be given. Contracts see it as a finite map; `specs/Sane.antt` says what
//! holds of every tree: it is the invariant of the type. Its steps are a node or a link added, an entry removed, a node renamed, bytes
//! written or cut, attributes set. What a step makes of a tree is in `specs/Changes.antt`, when it may be taken in `specs/Steps.antt`.
//! After a step that ran out of memory the tree is as before.
//!
//! [`File`] and [`Directory`] hide how bytes and entries are kept: contracts see a list of bytes, and a list of entries with the next
//! cookie. `rules.rt` has the tests of handles, names, rights, attributes and of the journal's space that the procedures share, and
//! `replies.rt` what their replies say of nodes. The procedures themselves, with the order of their rules and their replies, are above.
//! docs/crates/nr_tree.md has the idea of the proof.
#![tactic(auto)]

mod ancestry;
mod directory;
mod drill;
mod entry_table;
mod file;
mod kept_node;
mod node;
mod nodes;
mod order;
mod pages;
mod replies;
mod rules;
mod steps;
mod table;
mod tree;

pub use ancestry::walks_find_ancestors;
pub use directory::{Directory, EntryCursor};
pub use entry_table::Slot;
pub use file::File;
pub use node::{Content, Metadata, Node};
pub use replies::{
    attributes_at, attributes_of_number, handle_of, refused, wcc_attributes_at, wcc_data,
};
pub use rules::{
    ENTRY_COST, FILE_SIZE_MAX, LINKS_MAX, MODE_COUNT, Right, Space, check_changeable, check_name,
    check_size, check_space, check_times, differs_if_given, handle_number, is_dot, is_dot_dot,
    is_dot_name, live_node, may, time_after,
};
pub use steps::Steps;
pub use tree::Tree;
