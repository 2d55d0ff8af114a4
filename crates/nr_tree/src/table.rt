//! The nodes of a tree by number, and the steps of one. Each step requires what its changes need, and nothing more.

ghost use Rattle.std.specs.Prelude.{◌≡◌, ◌≢◌, ◌+◌, ◌^◌, ◌<◌, ◌≤◌, IsTrue, IfSome, length, IfOk, OnOk, OnErr, None, Some};
ghost use Rattle.std.specs.Option.{option_copied};
ghost use Rattle.std.specs.FinMap as map;

use crate::directory::Directory;
use crate::node::{Content, Metadata, Node};
use crate::nodes::{
    Nodes, Renaming, add_entry_to, add_link_to, drop_name_of, find, insert, insert_with_entry,
    is_dir_at, number_in, remove_entry_from, rename_over, rename_to_free, set_metadata_of,
    size_node, write_node,
};
use nr_nfs_base::Time;
use nr_xdr::Memory;
use std::alloc::{AllocError, Global};
use std::collections::BTreeMap;
use std::marker::Model;

/// The nodes by number, and the next number.
#[derive(Drop)]
pub(crate) struct NodeTable {
    alloc: Global,
    next: u64,
    nodes: Nodes,
}

impl Model for NodeTable {
    ghost use Rattle.std.specs.FinMap as map;
    ghost use Rattle.nr_tree.specs.Tree.{Tree, nodes_of};
    ghost use Rattle.nr_tree.specs.Code.{tree_code};

    ghost Value = { Tree };

    ghost coded = { tree_code };

    ghost view = { λ t. record { next = t.next; nodes = nodes_of t.nodes.entries } };
}

impl NodeTable {
    ghost use Rattle.nr_tree.specs.Tree.{Tree, is_dir as is_directory_node, is_regular as is_regular_node};
    ghost use Rattle.nr_tree.specs.Changes.{tree_with_node, tree_without_entry, tree_with_link, tree_with_bytes, tree_with_size, tree_with_metadata, tree_with_new_name};
    ghost use Rattle.nr_tree.specs.private.Room.{HasRoomFor};
    ghost use Rattle.nr_tree.specs.Roots.{root_only as root_alone};
    ghost use Rattle.nr_tree.specs.Sane.{IsSane};
    ghost use Rattle.nr_tree.specs.Steps.{IsBounded, CanRename};

    /// The tree with a root alone, which is made now: number 1, mode 0777, uid 0, gid 0. The next number is 2.
    pub(crate) fn root_only(alloc: Global, now: Time) -> Result<NodeTable, Memory>
        ensures { IfOk result (λ t. t ≡ root_alone now) }
    {
        let mut nodes = BTreeMap::new(alloc);
        insert(alloc, &mut nodes, 1, root_node(alloc, now))?;
        Ok(NodeTable {
            alloc,
            next: 2,
            nodes,
        })
    }

    /// The node under a number.
    pub(crate) fn get(&self, number: u64) -> Option<&Node>
        ensures { option_copied result ≡ map.get self.now.nodes number }
    {
        find(&self.nodes, number)
    }

    /// The next number to be given.
    pub(crate) fn next(&self) -> u64
        ensures { result ≡ self.now.next }
    {
        self.next
    }

    /// A new node under the next number, and its entry in a directory. After an `Err` the tree is as before.
    pub(crate) fn add_node(
        &mut self,
        dir: u64,
        name: Vec<u8>,
        node: Node,
        now: Time,
    ) -> Result<u64, Memory>
        requires fresh { map.get self.old.nodes self.old.next ≡ None }
        requires number { self.old.next < 2 ^ 63 }
        requires other { dir ≢ self.old.next }
        requires free { IfSome (map.get self.old.nodes dir) (λ n. HasRoomFor name.items n) }
        ensures number { IfOk result (λ n. n ≡ self.old.next) }
        ensures ok { OnOk result (self.new ≡ tree_with_node self.old now dir name.items node) }
        ensures err { OnErr result (self.new ≡ self.old) }
    {
        let number = self.next;
        insert_with_entry(self.alloc, &mut self.nodes, number, node, dir, name, now)?;
        self.next += 1;
        Ok(number)
    }

    /// Takes an entry out of a directory, and its node away with its last link. Takes no memory.
    pub(crate) fn remove_entry(&mut self, dir: u64, name: &[u8], number: u64, now: Time)
        requires is { IfSome (map.get self.old.nodes dir) (λ n. IsTrue (is_directory_node n) × (1 ≤ n.metadata.links)) }
        requires counted { number ≢ dir }
        requires linked { IfSome (map.get self.old.nodes number) (λ n. 0 < n.metadata.links) }
        ensures { self.new ≡ tree_without_entry self.old now dir name.now number }
    {
        let is_subdirectory = is_dir_at(&self.nodes, number);
        remove_entry_from(&mut self.nodes, dir, name, is_subdirectory, now);
        drop_name_of(&mut self.nodes, number, now);
    }

    /// Writes over the bytes of a regular file from an offset on; no bytes change nothing. After an `Err` the tree is as
    /// before.
    pub(crate) fn write(
        &mut self,
        number: u64,
        offset: u64,
        bytes: &[u8],
        now: Time,
    ) -> Result<(), Memory>
        requires regular { IfSome (map.get self.old.nodes number) (λ n. IsTrue (is_regular_node n)) }
        requires room { offset + length bytes.now < 2 ^ 62 }
        ensures ok { OnOk result (self.new ≡ tree_with_bytes self.old now number offset bytes.now) }
        ensures err { OnErr result (self.new ≡ self.old) }
    {
        if bytes.is_empty() {
            return Ok(());
        }
        write_node(&mut self.nodes, number, offset, bytes, now)
    }

    /// Cuts a regular file, or adds zeros. Takes no memory.
    pub(crate) fn set_size(&mut self, number: u64, size: u64, now: Time)
        requires regular { IfSome (map.get self.old.nodes number) (λ n. IsTrue (is_regular_node n)) }
        requires room { size < 2 ^ 62 }
        ensures { self.new ≡ tree_with_size self.old now number size }
    {
        size_node(&mut self.nodes, number, size, now);
    }

    /// One more entry of a file, and its link. After an `Err` the tree is as before.
    pub(crate) fn add_link(
        &mut self,
        dir: u64,
        name: Vec<u8>,
        number: u64,
        now: Time,
    ) -> Result<(), Memory>
        requires other { dir ≢ number }
        requires free { IfSome (map.get self.old.nodes dir) (λ n. HasRoomFor name.items n) }
        requires links { IfSome (map.get self.old.nodes number) (λ n. n.metadata.links < 2 ^ 31) }
        ensures ok { OnOk result (self.new ≡ tree_with_link self.old now dir name.items number) }
        ensures err { OnErr result (self.new ≡ self.old) }
    {
        add_entry_to(&mut self.nodes, dir, name, number, false, now)?;
        add_link_to(&mut self.nodes, number, dir, now);
        Ok(())
    }

    /// A node under another name. After an `Err` the tree is as before.
    pub(crate) fn rename(
        &mut self,
        from: u64,
        name: &[u8],
        to: u64,
        name_to: Vec<u8>,
        number: u64,
        now: Time,
    ) -> Result<(), Memory>
        requires sane { IsSane self.old }
        requires bounded { IsBounded self.old }
        requires allowed { CanRename self.old from name.now to name_to.items number }
        ensures ok { OnOk result (self.new ≡ tree_with_new_name self.old now from name.now to name_to.items number) }
        ensures err { OnErr result (self.new ≡ self.old) }
    {
        let is_subdirectory = is_dir_at(&self.nodes, number);
        let step = Renaming {
            from,
            to,
            number,
            is_subdirectory,
            now,
        };
        match number_in(&self.nodes, to, name_to.as_slice()) {
            None => rename_to_free(&mut self.nodes, step, name, name_to),
            Some(target) => {
                rename_over(&mut self.nodes, step, name, name_to, target);
                Ok(())
            }
        }
    }

    /// The node under a number with other attributes. Takes no memory.
    pub(crate) fn set_metadata(&mut self, number: u64, metadata: Metadata)
        ensures { self.new ≡ tree_with_metadata self.old number metadata }
    {
        set_metadata_of(&mut self.nodes, number, metadata);
    }
}

/// The root of a tree that is made now.
fn root_node(alloc: Global, now: Time) -> Node
    ensures { result ≡ new_root now }
{
    let metadata = Metadata {
        mode: 0o777,
        links: 2,
        uid: 0,
        gid: 0,
        atime: now,
        mtime: now,
        ctime: now,
    };
    Node {
        metadata,
        parent: 1,
        verifier: None,
        content: Content::Directory(Directory::new(alloc)),
    }
}

ghost use Rattle.nr_tree.specs.Roots.{root_node as new_root};
