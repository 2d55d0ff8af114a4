//! What replies say of nodes (RFC 1813 section 2.5, `post_op_attr`, `post_op_fh3` and `wcc_data`). A handle alone takes memory.

ghost use Rattle.std.specs.Prelude.{◌≡◌, IfOk};
ghost use Rattle.nr_nfs_base.specs.declared.status_union.StatusUnion.TheVariants.{Failed};
ghost use Rattle.nr_tree.specs.Rules.{handle_of as handle_of_number};
ghost use Rattle.nr_tree.specs.Replies.{attributes_of_number as attributes_by_number, attributes_at as attributes_of_handle, wcc_attributes_of, wcc_attributes_at as wcc_attributes_of_handle, wcc_data as wcc_of};

use crate::node::Node;
use crate::rules::handle_number;
use crate::tree::Tree;
use nr_nfs_base::{Attributes, Handle, Status, StatusUnion, WccAttributes, WccData};
use nr_xdr::Memory;
use std::alloc::Global;

/// The handle of a number: its eight bytes, the highest first.
pub fn handle_of(alloc: Global, number: u64) -> Result<Handle, Memory>
    ensures { IfOk result (λ h. h ≡ handle_of_number number) }
{
    Handle::from_slice(alloc, &number.to_be_bytes())
}

/// The attributes of the node under a number, if it is live.
pub fn attributes_of_number(tree: &Tree, number: u64) -> Option<Attributes>
    ensures { result ≡ attributes_by_number tree.now number }
{
    match tree.get(number) {
        Some(node) => Some(node.attributes(number)),
        None => None,
    }
}

/// The attributes of the node that a handle names, if it is live.
pub fn attributes_at(tree: &Tree, handle: &[u8]) -> Option<Attributes>
    ensures { result ≡ attributes_of_handle tree.now handle.now }
{
    match handle_number(handle) {
        Some(number) => attributes_of_number(tree, number),
        None => None,
    }
}

fn wcc_attributes(node: &Node) -> WccAttributes
    ensures { result ≡ wcc_attributes_of node.now }
{
    WccAttributes {
        size: node.size(),
        mtime: node.metadata.mtime,
        ctime: node.metadata.ctime,
    }
}

/// The same before a change, as far as a cache needs it.
pub fn wcc_attributes_at(tree: &Tree, handle: &[u8]) -> Option<WccAttributes>
    ensures { result ≡ wcc_attributes_of_handle tree.now handle.now }
{
    match handle_number(handle) {
        Some(number) => match tree.get(number) {
            Some(node) => Some(wcc_attributes(node)),
            None => None,
        },
        None => None,
    }
}

/// What a node was before a change, and what it is now.
pub fn wcc_data(before: Option<WccAttributes>, tree: &Tree, handle: &[u8]) -> WccData
    ensures { result ≡ record { before = before; after = attributes_of_handle tree.now handle.now } }
{
    WccData {
        before,
        after: attributes_at(tree, handle),
    }
}

/// The results of a call that was refused, and that would have changed the node that the handle names.
pub fn refused<D>(status: Status, tree: &Tree, handle: &[u8]) -> StatusUnion<D, WccData>
    ensures { result ≡ Failed status (wcc_of tree.now tree.now handle.now) }
{
    let before = wcc_attributes_at(tree, handle);
    StatusUnion::Failed {
        status,
        part: wcc_data(before, tree, handle),
    }
}
