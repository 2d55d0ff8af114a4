//! The tree: nodes by number that are consistent, and the steps of the procedures.

ghost use Rattle.std.specs.Prelude.{◌≡◌, ◌+◌, ◌-◌, ◌*◌, ◌^◌, ◌≤◌, true, length, IfOk, IfSome, is_some, OnOk, OnErr};
ghost use Rattle.nr_tree.specs.Listing.{count_until};
ghost use Rattle.std.specs.Option.{option_copied};
ghost use Rattle.std.specs.FinMap as map;

use crate::node::{Metadata, Node};
use crate::steps::Steps;
use crate::table::NodeTable;
use nr_nfs_base::Time;
use nr_xdr::Memory;
use std::alloc::Global;
use std::marker::Model;
use std::sync::ledger::Ledger;

/// The files of a server: nodes by number, and the next number. What holds of every tree is its invariant.
#[derive(Drop)]
pub struct Tree {
    table: NodeTable,
}

impl Model for Tree {
    ghost use Rattle.nr_tree.specs.Tree.{Tree};
    ghost use Rattle.nr_tree.specs.Code.{tree_code};
    ghost use Rattle.nr_tree.specs.Sane.{IsSane};

    ghost Value = { Tree };

    ghost coded = { tree_code };

    ghost view = { λ t. t.table };

    ghost invariant = { λ t. IsSane t.table };
}

impl Tree {
    ghost use Rattle.nr_tree.specs.Sane.{IsSane, file_size_max};
    ghost use Rattle.nr_tree.specs.Roots.{root_only as root_alone};
    ghost use Rattle.nr_tree.specs.Steps.{IsBelow, IsBounded, CanAddNode, CanAddLink, CanRemoveEntry, CanRename, entries_at, is_dir_at, is_regular_at, links_at, pages_at};
    ghost use Rattle.nr_tree.specs.Changes.{tree_with_node, tree_without_entry, tree_with_link, tree_with_bytes, tree_with_size, tree_with_metadata, tree_with_new_name};

    /// The tree with a root alone, which is made now: number 1, mode 0777, uid 0, gid 0. The next number is 2.
    pub fn root_only(alloc: Global, now: Time) -> Result<Tree, Memory>
        ensures ok { IfOk result (λ t. t ≡ root_alone now) }
        // The next number and each next cookie, as a server needs it that opens with the tree.
        ensures below { IfOk result (IsBelow 3) }
    {
        let table = NodeTable::root_only(alloc, now)?;
        Ok(Tree { table })
    }

    /// What holds of every tree, for the proofs of its users. It does nothing.
    pub fn facts(&self)
        ensures { IsSane self.now }
    {
        let _ = &self.table;
    }

    /// The node under a number.
    pub fn get(&self, number: u64) -> Option<&Node>
        ensures { option_copied result ≡ map.get self.now.nodes number }
    {
        self.table.get(number)
    }

    /// The next number to be given.
    pub fn next(&self) -> u64
        ensures { result ≡ self.now.next }
    {
        self.table.next()
    }

    /// How many entries of a directory have a cookie that is at most the given one; none if the number is no directory. A
    /// step is the comparison of one cookie. Takes no memory.
    pub fn place_after<L: Ledger>(
        &self,
        number: u64,
        cookie: u64,
        steps: &mut Steps<L>,
    ) -> Option<usize>
        ensures directory { is_some result ≡ is_dir_at self.now number }
        ensures place { IfSome result (λ place. place ≡ count_until cookie (entries_at self.now number)) }
        ensures rises { steps.old ≤ steps.new }
        ensures cost { 2 ^ (steps.new - steps.old) ≤ 2 * length (entries_at self.now number) + 1 }
        ensures counted { length (entries_at self.now number) + 2 ≤ 2 * 2 ^ (steps.new - steps.old) }
    {
        match self.get(number) {
            Some(node) => node.place_after(cookie, steps),
            None => None,
        }
    }

    /// How many pages of a regular file are kept: of 4096 bytes each, those that hold a byte that isn't 0. None if and only if the
    /// number is no regular file. Takes no memory.
    pub fn pages(&self, number: u64) -> Option<u32>
        ensures { result ≡ pages_at self.now number }
    {
        self.facts();
        let pages = self.get(number)?.pages()?;
        Some(pages as u32)
    }

    /// Puts a new node under the next number, and an entry for it last into a directory, which is changed now (CREATE,
    /// MKDIR, SYMLINK and MKNOD, RFC 1813 sections 3.3.8 to 3.3.11). Gives the number. After an `Err` the tree is as before.
    pub fn add_node(
        &mut self,
        dir: u64,
        name: Vec<u8>,
        node: Node,
        now: Time,
    ) -> Result<u64, Memory>
        requires bounded { IsBounded self.old }
        requires allowed { CanAddNode self.old dir name.items node }
        ensures number { IfOk result (λ n. n ≡ self.old.next) }
        ensures ok { OnOk result (self.new ≡ tree_with_node self.old now dir name.items node) }
        ensures err { OnErr result (self.new ≡ self.old) }
    {
        self.table.add_node(dir, name, node, now)
    }

    /// Puts one more entry for a file last into a directory (LINK, section 3.3.15). The file has a link more. After an
    /// `Err` the tree is as before.
    pub fn add_link(
        &mut self,
        dir: u64,
        name: Vec<u8>,
        number: u64,
        now: Time,
    ) -> Result<(), Memory>
        requires bounded { IsBounded self.old }
        requires allowed { CanAddLink self.old dir name.items number }
        ensures ok { OnOk result (self.new ≡ tree_with_link self.old now dir name.items number) }
        ensures err { OnErr result (self.new ≡ self.old) }
    {
        self.table.add_link(dir, name, number, now)
    }

    /// Takes an entry out of a directory (REMOVE and RMDIR, sections 3.3.12 and 3.3.13). The node that it named has a link
    /// less, and is removed if that was its last one or if it is a directory. Takes no memory.
    pub fn remove_entry(&mut self, dir: u64, name: &[u8], number: u64, now: Time)
        requires allowed { CanRemoveEntry self.old dir name.now number }
        ensures tree { self.new ≡ tree_without_entry self.old now dir name.now number }
    {
        self.table.remove_entry(dir, name, number, now);
    }

    /// Gives a node another name (RENAME, section 3.3.14). An old node under the new name loses its entry; the entry of the old
    /// name goes, and one of the new name is put last. After an `Err` the tree is as before.
    pub fn rename(
        &mut self,
        from: u64,
        name: &[u8],
        to: u64,
        name_to: Vec<u8>,
        number: u64,
        now: Time,
    ) -> Result<(), Memory>
        requires bounded { IsBounded self.old }
        requires allowed { CanRename self.old from name.now to name_to.items number }
        ensures ok { OnOk result (self.new ≡ tree_with_new_name self.old now from name.now to name_to.items number) }
        ensures err { OnErr result (self.new ≡ self.old) }
    {
        self.table.rename(from, name, to, name_to, number, now)
    }

    /// Writes over the bytes of a regular file from an offset on; a gap before it becomes zeros (WRITE, section 3.3.7).
    /// No bytes leave the file as it is, its size and its times too. After an `Err` the tree is as before.
    pub fn write(&mut self, number: u64, offset: u64, bytes: &[u8], now: Time) -> Result<(), Memory>
        requires regular { is_regular_at self.old number ≡ true }
        requires limit { offset + length bytes.now ≤ file_size_max }
        ensures ok { OnOk result (self.new ≡ tree_with_bytes self.old now number offset bytes.now) }
        ensures err { OnErr result (self.new ≡ self.old) }
    {
        self.table.write(number, offset, bytes, now)
    }

    /// Cuts a regular file, or adds zeros (SETATTR, section 3.3.2). Takes no memory.
    pub fn set_size(&mut self, number: u64, size: u64, now: Time)
        requires regular { is_regular_at self.old number ≡ true }
        requires limit { size ≤ file_size_max }
        ensures tree { self.new ≡ tree_with_size self.old now number size }
    {
        self.table.set_size(number, size, now);
    }

    /// Gives a node other attributes, with as many links as before (SETATTR, section 3.3.2). Takes no memory.
    pub fn set_metadata(&mut self, number: u64, metadata: Metadata)
        requires links { metadata.links ≡ links_at self.old number }
        ensures tree { self.new ≡ tree_with_metadata self.old number metadata }
    {
        self.table.set_metadata(number, metadata);
    }
}
