//! The tree that a drill begins with.

ghost use Rattle.std.specs.Prelude.{length, ◌^◌, ◌<◌, ◌≡◌, ◌+◌, ◌/◌, ◌%◌, ◌<◌, ◌^◌, [], IfOk, OnOk};
ghost use Rattle.nr_tree.specs.Drill.{drill_node, mode_666, mode_777, with_root, with_hello, with_link, with_many, IsDrill, IsDrillWith};
ghost use Rattle.nr_tree.specs.Steps.{IsBelow};
ghost use Rattle.nr_tree.specs.declared.node.Content.TheVariants.{Regular as RegularNode, Directory as DirectoryNode, Link as LinkNode};

use crate::directory::Directory;
use crate::file::File;
use crate::node::{Content, Metadata, Node};
use crate::tree::Tree;
use nr_nfs_base::Time;
use nr_xdr::{Memory, Octets};
use std::alloc::{AllocError, Global};

const START: Time = Time {
    seconds: 0,
    nanoseconds: 0,
};

impl Tree {
    /// The tree of the drill: below a root the file `hello`, the symbolic link `link` and the directory `many` with the empty
    /// files `f00` to `f99`; numbers 1 to 104, the next one 105. Everything is of uid 0 and gid 0, with all times zero.
    pub fn drill(alloc: Global) -> Result<Tree, Memory>
        ensures ok { IfOk result IsDrill }
        // The next number and each next cookie, as a server needs it that opens with the tree.
        ensures below { IfOk result (IsBelow 106) }
    {
        let mut tree = Tree::root_only(alloc, START)?;
        add_root_entries(&mut tree, alloc)?;
        add_files(&mut tree, alloc)?;
        Ok(tree)
    }
}

fn node(mode: u32, links: u32, parent: u64, content: Content) -> Node
    ensures { result ≡ drill_node mode links parent content }
{
    let metadata = Metadata {
        mode,
        links,
        uid: 0,
        gid: 0,
        atime: START,
        mtime: START,
        ctime: START,
    };
    Node {
        metadata,
        parent,
        verifier: None,
        content,
    }
}

fn file(alloc: Global, parent: u64, bytes: &[u8]) -> Result<Node, Memory>
    requires { length bytes.now < 2 ^ 62 }
    ensures { IfOk result (λ n. n ≡ drill_node mode_666 1 parent (RegularNode bytes.now)) }
{
    let content = Content::Regular(File::from_slice(alloc, bytes)?);
    Ok(node(0o666, 1, parent, content))
}

fn symbolic_link(alloc: Global, parent: u64, path: &[u8]) -> Result<Node, Memory>
    ensures { IfOk result (λ n. n ≡ drill_node mode_777 1 parent (LinkNode path.now)) }
{
    let content = Content::Link(Octets::from_slice(alloc, path)?);
    Ok(node(0o777, 1, parent, content))
}

fn directory(alloc: Global, parent: u64) -> Node
    ensures { result ≡ drill_node mode_777 2 parent (DirectoryNode (record { next_cookie = 1; list = [] })) }
{
    node(0o777, 2, parent, Content::Directory(Directory::new(alloc)))
}

/// The file `hello`.
fn add_hello(tree: &mut Tree, alloc: Global) -> Result<(), Memory>
    requires before { tree.old ≡ with_root }
    ensures { OnOk result (tree.new ≡ with_hello) }
{
    let name = Vec::from_slice(alloc, b"hello")?;
    let hello = file(alloc, 1, b"hello")?;
    tree.add_node(1, name, hello, START)?;
    Ok(())
}

/// The symbolic link `link`.
fn add_link(tree: &mut Tree, alloc: Global) -> Result<(), Memory>
    requires before { tree.old ≡ with_hello }
    ensures { OnOk result (tree.new ≡ with_link) }
{
    let name = Vec::from_slice(alloc, b"link")?;
    let link = symbolic_link(alloc, 1, b"hello")?;
    tree.add_node(1, name, link, START)?;
    Ok(())
}

/// The directory `many`.
fn add_many(tree: &mut Tree, alloc: Global) -> Result<(), Memory>
    requires before { tree.old ≡ with_link }
    ensures { OnOk result (tree.new ≡ with_many) }
{
    let name = Vec::from_slice(alloc, b"many")?;
    tree.add_node(1, name, directory(alloc, 1), START)?;
    Ok(())
}

fn add_root_entries(tree: &mut Tree, alloc: Global) -> Result<(), Memory>
    requires before { tree.old ≡ with_root }
    ensures drill { OnOk result (IsDrillWith 0 tree.new) }
    ensures below { OnOk result (IsBelow 6 tree.new) }
{
    add_hello(tree, alloc)?;
    add_link(tree, alloc)?;
    add_many(tree, alloc)
}

/// The file of this number in `many`.
fn add_file(tree: &mut Tree, alloc: Global, count: u8) -> Result<(), Memory>
    requires drill { IsDrillWith count tree.old }
    requires below { IsBelow (count + 6) tree.old }
    requires few { count < 100 }
    ensures drill { OnOk result (IsDrillWith (count + 1) tree.new) }
    ensures below { OnOk result (IsBelow (count + 7) tree.new) }
{
    let name = [b'f', b'0' + count / 10, b'0' + count % 10];
    let name = Vec::from_slice(alloc, &name)?;
    let file = file(alloc, 4, b"")?;
    tree.add_node(4, name, file, START)?;
    Ok(())
}

/// A hundred files in `many`.
fn add_files(tree: &mut Tree, alloc: Global) -> Result<(), Memory>
    requires drill { IsDrillWith 0 tree.old }
    requires below { IsBelow 6 tree.old }
    ensures drill { OnOk result (IsDrill tree.new) }
    ensures below { OnOk result (IsBelow 106 tree.new) }
{
    for count in 0..100 {
        add_file(tree, alloc, count)?;
    }
    Ok(())
}
