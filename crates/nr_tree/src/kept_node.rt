//! A node on the heap, as the table of nodes keeps it: what the table has room for and does not use is then small.

ghost use Rattle.std.specs.Prelude.{◌≡◌, ◌+◌, ◌<◌, ◌≤◌, ◌^◌, IsTrue, IfOk, length, OnOk, OnErr};
ghost use Rattle.nr_tree.specs.DirectoryGraph.{one_if};
ghost use Rattle.nr_tree.specs.Tree.{is_dir as is_directory_node, is_regular as is_regular_node};
ghost use Rattle.nr_tree.specs.Changes.{node_with_entry, node_without_entry, node_with_link, node_without_link, node_with_bytes, node_with_size, node_with_metadata, node_with_new_name};
ghost use Rattle.nr_tree.specs.private.Room.{HasRoomFor, HasEntryFor};

use crate::node::{Content, Metadata, Node};
use nr_nfs_base::Time;
use nr_xdr::Memory;
use std::alloc::{AllocError, Global};
use std::marker::Model;

/// A node on the heap. Contracts see the node.
#[derive(Drop)]
pub(crate) struct KeptNode {
    node: Box<Node>,
}

impl Model for KeptNode {
    ghost use Rattle.nr_tree.specs.declared.node.Node.{Node};
    ghost use Rattle.nr_tree.specs.contracts.node.Node as contracts;

    ghost Value = { Node };

    ghost coded = { contracts.the_row.coded };

    ghost view = { λ k. k.node.value };
}

impl KeptNode {
    pub(crate) fn new(alloc: Global, node: Node) -> Result<KeptNode, AllocError>
        ensures { IfOk result (λ k. k ≡ node) }
    {
        Ok(KeptNode {
            node: Box::new(alloc, node)?,
        })
    }

    pub(crate) fn get(&self) -> &Node
        ensures { result.now ≡ self.now }
    {
        &self.node
    }

    /// One more entry, put last, in a directory that is changed now. After an `Err` the node is as before.
    pub(crate) fn add_entry(
        &mut self,
        name: Vec<u8>,
        number: u64,
        is_subdirectory: bool,
        now: Time,
    ) -> Result<(), Memory>
        requires { HasRoomFor name.items self.old }
        ensures ok { OnOk result (self.new ≡ node_with_entry now name.items number is_subdirectory self.old) }
        ensures err { OnErr result (self.new ≡ self.old) }
    {
        let node: &mut Node = &mut self.node;
        match &mut node.content {
            Content::Directory(entries) => entries.add(name, number)?,
            _ => unreachable!(),
        }
        node.metadata.links += is_subdirectory as u32;
        node.metadata.mtime = now;
        node.metadata.ctime = now;
        Ok(())
    }

    /// One entry less in a directory that is changed now. Takes no memory.
    pub(crate) fn remove_entry(&mut self, name: &[u8], is_subdirectory: bool, now: Time)
        requires is { IsTrue (is_directory_node self.old) }
        requires counted { one_if is_subdirectory ≤ self.old.metadata.links }
        ensures { self.new ≡ node_without_entry now name.now is_subdirectory self.old }
    {
        let node: &mut Node = &mut self.node;
        match &mut node.content {
            Content::Directory(entries) => entries.remove(name),
            _ => unreachable!(),
        }
        node.metadata.links -= is_subdirectory as u32;
        node.metadata.mtime = now;
        node.metadata.ctime = now;
    }

    /// The entry of a name taken out and one for another node put last, in a directory that is changed now. It cannot fail.
    pub(crate) fn replace_entry(
        &mut self,
        name: Vec<u8>,
        number: u64,
        was_subdirectory: bool,
        is_subdirectory: bool,
        now: Time,
    )
        requires { HasEntryFor name.items was_subdirectory self.old }
        ensures { self.new ≡ node_with_entry now name.items number is_subdirectory (node_without_entry now name.items was_subdirectory self.old) }
    {
        let node: &mut Node = &mut self.node;
        match &mut node.content {
            Content::Directory(entries) => entries.replace(name, number),
            _ => unreachable!(),
        }
        node.metadata.links = node.metadata.links - was_subdirectory as u32
            + is_subdirectory as u32;
        node.metadata.mtime = now;
        node.metadata.ctime = now;
    }

    /// A node under another name, in this directory. Takes no memory.
    pub(crate) fn set_parent(&mut self, dir: u64, now: Time)
        ensures { self.new ≡ node_with_new_name now dir self.old }
    {
        let node: &mut Node = &mut self.node;
        node.parent = dir;
        node.metadata.ctime = now;
    }

    /// A file with one link less. Takes no memory.
    pub(crate) fn remove_link(&mut self, now: Time)
        requires { 0 < self.old.metadata.links }
        ensures { self.new ≡ node_without_link now self.old }
    {
        let node: &mut Node = &mut self.node;
        node.metadata.links -= 1;
        node.metadata.ctime = now;
    }

    /// A file with one link more, from this directory.
    pub(crate) fn add_link(&mut self, dir: u64, now: Time)
        requires { self.old.metadata.links < 2 ^ 31 }
        ensures { self.new ≡ node_with_link now dir self.old }
    {
        let node: &mut Node = &mut self.node;
        node.parent = dir;
        node.metadata.links += 1;
        node.metadata.ctime = now;
    }

    /// The same node with other attributes. Takes no memory.
    pub(crate) fn set_metadata(&mut self, metadata: Metadata)
        ensures { self.new ≡ node_with_metadata metadata self.old }
    {
        let node: &mut Node = &mut self.node;
        node.metadata = metadata;
    }

    /// Writes over the bytes of a regular file from an offset on. After an `Err` the node is as before.
    pub(crate) fn write(&mut self, offset: u64, bytes: &[u8], now: Time) -> Result<(), Memory>
        requires regular { IsTrue (is_regular_node self.old) }
        requires room { offset + length bytes.now < 2 ^ 62 }
        ensures ok { OnOk result (self.new ≡ node_with_bytes now offset bytes.now self.old) }
        ensures err { OnErr result (self.new ≡ self.old) }
    {
        let node: &mut Node = &mut self.node;
        match &mut node.content {
            Content::Regular(file) => file.write(offset, bytes)?,
            _ => unreachable!(),
        }
        node.metadata.mtime = now;
        node.metadata.ctime = now;
        Ok(())
    }

    /// Cuts a regular file, or adds zeros. Takes no memory.
    pub(crate) fn set_size(&mut self, size: u64, now: Time)
        requires regular { IsTrue (is_regular_node self.old) }
        requires room { size < 2 ^ 62 }
        ensures { self.new ≡ node_with_size now size self.old }
    {
        let node: &mut Node = &mut self.node;
        match &mut node.content {
            Content::Regular(file) => file.set_len(size),
            _ => unreachable!(),
        }
        node.metadata.mtime = now;
        node.metadata.ctime = now;
    }
}
