//! The procedures of NFS by their numbers.

ghost use Rattle.std.specs.Prelude.{◌≡◌, true, false, IfOk, OnOk, OnErr};
ghost use Rattle.nr_tree.specs.Rules.{IsWithinCapacity};
ghost use Rattle.nr_tree.specs.Steps.{IsBounded};
ghost use Rattle.nr_plain.specs.private.Code.{IsChange, reply_of, tree_of};
ghost use Rattle.nr_plain.specs.Programs.{only_reads as is_read_only};

use crate::call::{Call, Change};
use crate::changing::{change, write_file};
use crate::encoding::constant_reply;
use crate::reading::{read, read_directory, read_file};
use nr_nfs_args::{
    AccessArgs, CommitArgs, CreateArgs, FsinfoArgs, FsstatArgs, GetattrArgs, LinkArgs, LookupArgs,
    MkdirArgs, MknodArgs, NullArgs, PathconfArgs, ReaddirArgs, ReaddirplusArgs, ReadlinkArgs,
    RemoveArgs, RenameArgs, RmdirArgs, SetattrArgs, SymlinkArgs,
};
use nr_nfs_base::NfsProcedure;
use nr_nfs_res::NullRes;
use nr_tree::Tree;
use nr_xdr::{Memory, Octets};
use std::alloc::Global;

/// Whether the procedure changes no tree.
pub(crate) fn only_reads(p: NfsProcedure) -> bool
    ensures { result ≡ is_read_only p }
{
    match p {
        NfsProcedure::Setattr => false,
        NfsProcedure::Write => false,
        NfsProcedure::Create => false,
        NfsProcedure::Mkdir => false,
        NfsProcedure::Symlink => false,
        NfsProcedure::Mknod => false,
        NfsProcedure::Remove => false,
        NfsProcedure::Rmdir => false,
        NfsProcedure::Rename => false,
        NfsProcedure::Link => false,
        _ => true,
    }
}

fn reading(alloc: Global, tree: &Tree, p: NfsProcedure, call: &Call) -> Result<Octets, Memory>
    requires reads { is_read_only p ≡ true }
    ensures { IfOk result (λ o. o ≡ reply_of tree.now call.now p) }
{
    match p {
        NfsProcedure::Null => constant_reply::<NullArgs, NullRes>(
            alloc,
            call.xid,
            call.arguments,
            &NullRes,
        ),
        NfsProcedure::Getattr => read::<GetattrArgs>(alloc, tree, call),
        NfsProcedure::Lookup => read::<LookupArgs>(alloc, tree, call),
        NfsProcedure::Access => read::<AccessArgs>(alloc, tree, call),
        NfsProcedure::Readlink => read::<ReadlinkArgs>(alloc, tree, call),
        NfsProcedure::Read => read_file(alloc, tree, call),
        NfsProcedure::Readdir => read_directory::<ReaddirArgs>(alloc, tree, call),
        NfsProcedure::Readdirplus => read_directory::<ReaddirplusArgs>(alloc, tree, call),
        NfsProcedure::Fsstat => read::<FsstatArgs>(alloc, tree, call),
        NfsProcedure::Fsinfo => read::<FsinfoArgs>(alloc, tree, call),
        NfsProcedure::Pathconf => read::<PathconfArgs>(alloc, tree, call),
        NfsProcedure::Commit => read::<CommitArgs>(alloc, tree, call),
        _ => unreachable!(),
    }
}

fn changing(alloc: Global, tree: &mut Tree, p: NfsProcedure, call: &Call) -> Result<Change, Memory>
    requires bounded { IsBounded tree.old }
    requires space { IsWithinCapacity call.now.space }
    requires changes { is_read_only p ≡ false }
    ensures result { IfOk result (IsChange tree.old call.now p) }
    ensures tree { OnOk result (tree.new ≡ tree_of tree.old call.now p) }
    ensures err { OnErr result (tree.new ≡ tree.old) }
{
    match p {
        NfsProcedure::Setattr => change::<SetattrArgs>(alloc, tree, call),
        NfsProcedure::Write => write_file(alloc, tree, call),
        NfsProcedure::Create => change::<CreateArgs>(alloc, tree, call),
        NfsProcedure::Mkdir => change::<MkdirArgs>(alloc, tree, call),
        NfsProcedure::Symlink => change::<SymlinkArgs>(alloc, tree, call),
        NfsProcedure::Mknod => change::<MknodArgs>(alloc, tree, call),
        NfsProcedure::Remove => change::<RemoveArgs>(alloc, tree, call),
        NfsProcedure::Rmdir => change::<RmdirArgs>(alloc, tree, call),
        NfsProcedure::Rename => change::<RenameArgs>(alloc, tree, call),
        NfsProcedure::Link => change::<LinkArgs>(alloc, tree, call),
        _ => unreachable!(),
    }
}

/// Executes a procedure. After an `Err` the tree is as before.
pub(crate) fn run(
    alloc: Global,
    tree: &mut Tree,
    p: NfsProcedure,
    call: &Call,
) -> Result<Change, Memory>
    requires bounded { IsBounded tree.old }
    requires space { IsWithinCapacity call.now.space }
    ensures result { IfOk result (IsChange tree.old call.now p) }
    ensures tree { OnOk result (tree.new ≡ tree_of tree.old call.now p) }
    ensures err { OnErr result (tree.new ≡ tree.old) }
{
    if only_reads(p) {
        return Ok(Change {
            reply: reading(alloc, tree, p, call)?,
            is_entry: false,
        });
    }
    changing(alloc, tree, p, call)
}
