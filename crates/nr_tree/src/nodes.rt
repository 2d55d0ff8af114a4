//! Nodes by number: changes of one node, and of a node with its entry.

ghost use Rattle.std.specs.Prelude.{◌≡◌, ◌≢◌, ◌+◌, ◌^◌, ◌<◌, ◌≤◌, IsTrue, IfSome, length, OnOk, OnErr, None, Some};
ghost use Rattle.std.specs.Option.{option_copied};
ghost use Rattle.std.specs.FinMap as map;
ghost use Rattle.nr_tree.specs.Tree.{nodes_of, nodes_with_change, value_at, is_dir as is_directory_node, is_regular as is_regular_node};
ghost use Rattle.std.specs.Prelude.{false};
ghost use Rattle.nr_tree.specs.Changes.{nodes_with_entry_moved, nodes_without_entry, node_with_entry, node_without_entry, node_without_link, nodes_with_name_dropped, node_with_bytes, node_with_size, node_with_link, node_with_metadata, node_with_new_name};
ghost use Rattle.nr_tree.specs.private.Room.{HasRoomFor, HasEntryFor, HasEntryAfterRemoval, IsSource};
ghost use Rattle.nr_tree.specs.Entries.{entry_of_name};
ghost use Rattle.nr_tree.specs.Tree.{entries_in};
ghost use Rattle.std.specs.Prelude.{[]};
ghost use Rattle.std.specs.Option.{option_map};

use crate::kept_node::KeptNode;
use crate::node::{Metadata, Node};
use nr_nfs_base::Time;
use nr_xdr::Memory;
use std::alloc::{AllocError, Global};
use std::collections::BTreeMap;

/// The nodes by number.
pub(crate) type Nodes = BTreeMap<u64, KeptNode>;

#[tactic(auto, using(crate::proofs::NodeMaps::get_node))]
pub(crate) fn find(nodes: &Nodes, number: u64) -> Option<&Node>
    ensures { option_copied result ≡ map.get (nodes_of nodes.now.entries) number }
{
    match nodes.get(&number) {
        Some(kept) => Some(kept.get()),
        None => None,
    }
}

pub(crate) fn insert(
    alloc: Global,
    nodes: &mut Nodes,
    number: u64,
    node: Node,
) -> Result<(), AllocError>
    ensures ok { OnOk result (nodes_of nodes.new.entries ≡ map.insert (nodes_of nodes.old.entries) number node) }
    ensures err { OnErr result (nodes_of nodes.new.entries ≡ nodes_of nodes.old.entries) }
{
    let kept = KeptNode::new(alloc, node)?;
    nodes.insert(number, kept)?;
    Ok(())
}

pub(crate) fn remove(nodes: &mut Nodes, number: u64)
    ensures { nodes_of nodes.new.entries ≡ map.remove (nodes_of nodes.old.entries) number }
{
    nodes.remove(&number);
}

pub(crate) fn add_entry_to(
    nodes: &mut Nodes,
    dir: u64,
    name: Vec<u8>,
    number: u64,
    is_subdirectory: bool,
    now: Time,
) -> Result<(), Memory>
    requires { IfSome (map.get (nodes_of nodes.old.entries) dir) (λ n. HasRoomFor name.items n) }
    ensures ok { OnOk result (nodes_of nodes.new.entries ≡ nodes_with_change (nodes_of nodes.old.entries) dir (node_with_entry now name.items number is_subdirectory)) }
    ensures err { OnErr result (nodes_of nodes.new.entries ≡ nodes_of nodes.old.entries) }
{
    match nodes.get_mut(&dir) {
        Some(node) => node.add_entry(name, number, is_subdirectory, now),
        None => Ok(()),
    }
}

/// The node and its entry, or neither.
pub(crate) fn insert_with_entry(
    alloc: Global,
    nodes: &mut Nodes,
    number: u64,
    node: Node,
    dir: u64,
    name: Vec<u8>,
    now: Time,
) -> Result<(), Memory>
    requires fresh { map.get (nodes_of nodes.old.entries) number ≡ None }
    requires other { dir ≢ number }
    requires free { IfSome (map.get (nodes_of nodes.old.entries) dir) (λ n. HasRoomFor name.items n) }
    ensures ok { OnOk result (nodes_of nodes.new.entries ≡ nodes_with_change (map.insert (nodes_of nodes.old.entries) number node) dir (node_with_entry now name.items number (is_directory_node node))) }
    ensures err { OnErr result (nodes_of nodes.new.entries ≡ nodes_of nodes.old.entries) }
{
    let is_subdirectory = node.is_dir();
    insert(alloc, nodes, number, node)?;
    match add_entry_to(nodes, dir, name, number, is_subdirectory, now) {
        Ok(()) => Ok(()),
        Err(e) => {
            remove(nodes, number);
            Err(e)
        }
    }
}

#[tactic(auto, using(crate::proofs::NodeMaps::get_node))]
pub(crate) fn is_dir_at(nodes: &Nodes, number: u64) -> bool
    ensures { result ≡ value_at is_directory_node false (nodes_of nodes.now.entries) number }
{
    match find(nodes, number) {
        Some(node) => node.is_dir(),
        None => false,
    }
}

pub(crate) fn remove_entry_from(
    nodes: &mut Nodes,
    dir: u64,
    name: &[u8],
    is_subdirectory: bool,
    now: Time,
)
    requires { IfSome (map.get (nodes_of nodes.old.entries) dir) (λ n. IsTrue (is_directory_node n) × (1 ≤ n.metadata.links)) }
    ensures { nodes_of nodes.new.entries ≡ nodes_with_change (nodes_of nodes.old.entries) dir (node_without_entry now name.now is_subdirectory) }
{
    match nodes.get_mut(&dir) {
        Some(node) => node.remove_entry(name, is_subdirectory, now),
        None => {}
    }
}

/// A file with one link less.
pub(crate) fn drop_link_of(nodes: &mut Nodes, number: u64, now: Time)
    requires { IfSome (map.get (nodes_of nodes.old.entries) number) (λ n. 0 < n.metadata.links) }
    ensures { nodes_of nodes.new.entries ≡ nodes_with_change (nodes_of nodes.old.entries) number (node_without_link now) }
{
    match nodes.get_mut(&number) {
        Some(node) => node.remove_link(now),
        None => {}
    }
}

/// A node whose entry is gone: a directory goes, a file with its last link.
pub(crate) fn drop_name_of(nodes: &mut Nodes, number: u64, now: Time)
    requires { IfSome (map.get (nodes_of nodes.old.entries) number) (λ n. 0 < n.metadata.links) }
    ensures { nodes_of nodes.new.entries ≡ nodes_with_name_dropped (nodes_of nodes.old.entries) now number }
{
    let goes = match find(nodes, number) {
        Some(node) => node.is_dir() || node.metadata.links <= 1,
        None => return,
    };
    if goes {
        remove(nodes, number);
    } else {
        drop_link_of(nodes, number, now);
    }
}

pub(crate) fn write_node(
    nodes: &mut Nodes,
    number: u64,
    offset: u64,
    bytes: &[u8],
    now: Time,
) -> Result<(), Memory>
    requires regular { IfSome (map.get (nodes_of nodes.old.entries) number) (λ n. IsTrue (is_regular_node n)) }
    requires room { offset + length bytes.now < 2 ^ 62 }
    ensures ok { OnOk result (nodes_of nodes.new.entries ≡ nodes_with_change (nodes_of nodes.old.entries) number (node_with_bytes now offset bytes.now)) }
    ensures err { OnErr result (nodes_of nodes.new.entries ≡ nodes_of nodes.old.entries) }
{
    match nodes.get_mut(&number) {
        Some(node) => node.write(offset, bytes, now),
        None => Ok(()),
    }
}

pub(crate) fn size_node(nodes: &mut Nodes, number: u64, size: u64, now: Time)
    requires regular { IfSome (map.get (nodes_of nodes.old.entries) number) (λ n. IsTrue (is_regular_node n)) }
    requires room { size < 2 ^ 62 }
    ensures { nodes_of nodes.new.entries ≡ nodes_with_change (nodes_of nodes.old.entries) number (node_with_size now size) }
{
    match nodes.get_mut(&number) {
        Some(node) => node.set_size(size, now),
        None => {}
    }
}

/// A file with one link more, from this directory.
pub(crate) fn add_link_to(nodes: &mut Nodes, number: u64, dir: u64, now: Time)
    requires { IfSome (map.get (nodes_of nodes.old.entries) number) (λ n. n.metadata.links < 2 ^ 31) }
    ensures { nodes_of nodes.new.entries ≡ nodes_with_change (nodes_of nodes.old.entries) number (node_with_link now dir) }
{
    match nodes.get_mut(&number) {
        Some(node) => node.add_link(dir, now),
        None => {}
    }
}

pub(crate) fn set_metadata_of(nodes: &mut Nodes, number: u64, metadata: Metadata)
    ensures { nodes_of nodes.new.entries ≡ nodes_with_change (nodes_of nodes.old.entries) number (node_with_metadata metadata) }
{
    match nodes.get_mut(&number) {
        Some(node) => node.set_metadata(metadata),
        None => {}
    }
}

pub(crate) fn replace_entry_in(
    nodes: &mut Nodes,
    dir: u64,
    name: Vec<u8>,
    number: u64,
    was_subdirectory: bool,
    is_subdirectory: bool,
    now: Time,
)
    requires { IfSome (map.get (nodes_of nodes.old.entries) dir) (λ n. HasEntryFor name.items was_subdirectory n) }
    ensures { nodes_of nodes.new.entries ≡ nodes_with_change (nodes_of nodes.old.entries) dir (λ n. node_with_entry now name.items number is_subdirectory (node_without_entry now name.items was_subdirectory n)) }
{
    match nodes.get_mut(&dir) {
        Some(node) => node.replace_entry(name, number, was_subdirectory, is_subdirectory, now),
        None => {}
    }
}

pub(crate) fn set_parent_of(nodes: &mut Nodes, number: u64, dir: u64, now: Time)
    ensures { nodes_of nodes.new.entries ≡ nodes_with_change (nodes_of nodes.old.entries) number (node_with_new_name now dir) }
{
    match nodes.get_mut(&number) {
        Some(node) => node.set_parent(dir, now),
        None => {}
    }
}

/// The number that a directory has under a name.
#[tactic(auto, using(crate::proofs::NodeMaps::get_node))]
pub(crate) fn number_in(nodes: &Nodes, dir: u64, name: &[u8]) -> Option<u64>
    ensures { result ≡ option_map (λ e. e.number) (entry_of_name name.now (value_at entries_in [] (nodes_of nodes.now.entries) dir)) }
{
    match find(nodes, dir) {
        Some(node) => node.lookup(name),
        None => None,
    }
}

/// A node that gets another name: its directory before and after, its number, whether it is a directory, and the moment.
#[derive(Clone, Copy)]
pub(crate) struct Renaming {
    pub(crate) from: u64,
    pub(crate) to: u64,
    pub(crate) number: u64,
    pub(crate) is_subdirectory: bool,
    pub(crate) now: Time,
}

/// A new name that is free. The new entry is put first, since only that takes memory.
pub(crate) fn rename_to_free(
    nodes: &mut Nodes,
    step: Renaming,
    name: &[u8],
    name_to: Vec<u8>,
) -> Result<(), Memory>
    requires free { IfSome (map.get (nodes_of nodes.old.entries) step.to) (λ n. HasRoomFor name_to.items n) }
    requires source { IfSome (map.get (nodes_of nodes.old.entries) step.from) (IsSource name.now) }
    ensures ok { OnOk result (nodes_of nodes.new.entries ≡ nodes_with_entry_moved (nodes_of nodes.old.entries) step.now step.from name.now step.to name_to.items step.number step.is_subdirectory) }
    ensures err { OnErr result (nodes_of nodes.new.entries ≡ nodes_of nodes.old.entries) }
{
    add_entry_to(
        nodes,
        step.to,
        name_to,
        step.number,
        step.is_subdirectory,
        step.now,
    )?;
    remove_entry_from(nodes, step.from, name, step.is_subdirectory, step.now);
    set_parent_of(nodes, step.number, step.to, step.now);
    Ok(())
}

/// A new name that another node has: its entry goes, and its link or itself. It cannot fail.
pub(crate) fn rename_over(
    nodes: &mut Nodes,
    step: Renaming,
    name: &[u8],
    name_to: Vec<u8>,
    target: u64,
)
    requires to { step.to ≢ target }
    requires from { step.from ≢ target }
    requires counted { IfSome (map.get (nodes_of nodes.old.entries) target) (λ n. 0 < n.metadata.links) }
    requires source { IfSome (map.get (nodes_of nodes.old.entries) step.from) (IsSource name.now) }
    requires entry { IfSome (map.get (nodes_of nodes.old.entries) step.to) (HasEntryFor name_to.items (value_at is_directory_node false (nodes_of nodes.old.entries) target)) }
    requires rest { step.to ≡ step.from → IfSome (map.get (nodes_of nodes.old.entries) step.to) (HasEntryAfterRemoval step.now name.now step.is_subdirectory name_to.items (value_at is_directory_node false (nodes_of nodes.old.entries) target)) }
    ensures { nodes_of nodes.new.entries ≡ nodes_with_entry_moved
        (nodes_without_entry (nodes_of nodes.old.entries) step.now step.to name_to.items target (value_at is_directory_node false (nodes_of nodes.old.entries) target))
        step.now step.from name.now step.to name_to.items step.number step.is_subdirectory }
{
    let was_subdirectory = is_dir_at(nodes, target);
    drop_name_of(nodes, target, step.now);
    remove_entry_from(nodes, step.from, name, step.is_subdirectory, step.now);
    replace_entry_in(
        nodes,
        step.to,
        name_to,
        step.number,
        was_subdirectory,
        step.is_subdirectory,
        step.now,
    );
    set_parent_of(nodes, step.number, step.to, step.now);
}
