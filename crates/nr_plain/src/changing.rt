//! The procedures of NFS that change the tree. The room of the reply is taken before the change, so that running out of
//! memory leaves the tree as before.

ghost use Rattle.std.specs.Prelude.{◌≡◌, [], false, Ok, IfOk, OnOk, OnErr};
ghost use Rattle.nr_xdr.specs.Room.{HasRoom};
ghost use Rattle.nr_nfs_base.specs.Codec.{read_all, read_or_none};
ghost use Rattle.nr_nfs_args.specs.Bytes.{write_args_codec};
ghost use Rattle.nr_nfs_res.specs.Results.{nfs_result, write_res_codec};
ghost use Rattle.nr_tree.specs.Rules.{IsWithinCapacity};
ghost use Rattle.nr_tree.specs.Steps.{IsBounded};
ghost use Rattle.nr_ops_file.specs.Attributes.{setattr_tree, setattr_reply};
ghost use Rattle.nr_ops_file.specs.Bytes.{write_tree, write_reply};
ghost use Rattle.nr_ops_dir.specs.Create.{create_tree, create_reply};
ghost use Rattle.nr_ops_dir.specs.Creation.{mkdir_tree, mkdir_reply, symlink_tree, symlink_reply, mknod_tree, mknod_reply};
ghost use Rattle.nr_ops_dir.specs.Removal.{remove_tree, remove_reply, rmdir_tree, rmdir_reply};
ghost use Rattle.nr_ops_dir.specs.Renaming.{rename_tree, rename_reply};
ghost use Rattle.nr_ops_dir.specs.Links.{link_tree, link_reply};
ghost use Rattle.nr_plain.specs.private.Code.{IsChangeWith, tree_with};
ghost use Rattle.nr_plain.specs.Replies.{refusal, accepted, results_reply, GARBAGE_ARGS};
ghost use Rattle.nr_plain.specs.Programs.{is_done as is_status_ok};

use crate::call::{Call, Change};
use crate::encoding::{garbage, read_arguments, room_of_reply, write_accepted};
use crate::procedure::Changing;
use nr_nfs_args::{
    CreateArgs, LinkArgs, MkdirArgs, MknodArgs, RemoveArgs, RenameArgs, RmdirArgs, SetattrArgs,
    SymlinkArgs, WriteArgsRef,
};
use nr_nfs_base::{StatusUnion, ValueFault, WccData, Xdr};
use nr_nfs_res::{
    CreateOk, CreateRes, LinkRes, LinkWcc, MkdirRes, MknodRes, RemoveRes, RenameRes, RenameWcc,
    RmdirRes, SetattrRes, SymlinkRes,
};
use nr_tree::Tree;
use nr_xdr::{Memory, RoomWriter};
use std::alloc::Global;

/// The arguments of a WRITE that all of the bytes are read as; none if they are no encoding of them.
fn write_arguments<'a>(
    alloc: Global,
    arguments: &'a [u8],
) -> Result<Option<WriteArgsRef<'a>>, Memory>
    ensures { IfOk result (λ o. o ≡ read_or_none (read_all write_args_codec arguments.now)) }
{
    match WriteArgsRef::read(alloc, arguments) {
        Ok(value) => Ok(Some(value)),
        Err(ValueFault::Bad { .. }) => Ok(None),
        Err(ValueFault::Memory) => Err(Memory),
    }
}

/// Whether the results have status 0.
fn is_done<D, F>(results: &StatusUnion<D, F>) -> bool
    ensures { result ≡ is_status_ok results.now }
{
    matches!(results, StatusUnion::Done(_))
}

/// The reply with these results, which is an entry if their status is 0. Takes no memory.
fn reply<D: Xdr, F: Xdr>(room: RoomWriter, xid: u32, results: StatusUnion<D, F>) -> Change
    requires empty { room.bytes ≡ [] }
    requires room { HasRoom room (results_reply xid (nfs_result D.codec F.codec) results) }
    ensures { (result.reply ≡ results_reply xid (nfs_result D.codec F.codec) results) × (result.is_entry ≡ is_status_ok results) }
{
    let is_entry = is_done(&results);
    match write_accepted(room, xid, &results) {
        Ok(reply) => Change { reply, is_entry },
        Err(_) => unreachable!(),
    }
}

/// The reply to a call whose arguments are no encoding of their type.
fn no_change(alloc: Global, xid: u32) -> Result<Change, Memory>
    ensures { IfOk result (λ r. (r.reply ≡ (refusal (accepted xid GARBAGE_ARGS)).reply) × (r.is_entry ≡ false)) }
{
    Ok(Change {
        reply: garbage(alloc, xid)?,
        is_entry: false,
    })
}

/// Executes the procedure with these arguments. After an `Err` the tree is as before.
pub(crate) fn change<A: Changing>(
    alloc: Global,
    tree: &mut Tree,
    call: &Call,
) -> Result<Change, Memory>
    requires bounded { IsBounded tree.old }
    requires space { IsWithinCapacity call.now.space }
    ensures result { IfOk result (IsChangeWith call.now.xid (nfs_result A.Done.codec A.Failed.codec) is_status_ok (A.results tree.old call.now.caller.now call.now.space call.now.time) (read_all A.codec call.now.arguments.now)) }
    ensures tree { OnOk result (tree.new ≡ tree_with tree.old (A.changed tree.old call.now.caller.now call.now.space call.now.time) (read_all A.codec call.now.arguments.now)) }
    ensures err { OnErr result (tree.new ≡ tree.old) }
{
    match read_arguments::<A>(alloc, call.arguments)? {
        Some(arguments) => change_in(alloc, tree, call, arguments),
        None => no_change(alloc, call.xid),
    }
}

/// Takes the room of the reply, executes the procedure with these arguments, and writes its results into the room.
fn change_in<A: Changing>(
    alloc: Global,
    tree: &mut Tree,
    call: &Call,
    arguments: A,
) -> Result<Change, Memory>
    requires bounded { IsBounded tree.old }
    requires space { IsWithinCapacity call.now.space }
    ensures result { IfOk result (IsChangeWith call.now.xid (nfs_result A.Done.codec A.Failed.codec) is_status_ok (A.results tree.old call.now.caller.now call.now.space call.now.time) (Ok arguments)) }
    ensures tree { OnOk result (tree.new ≡ A.changed tree.old call.now.caller.now call.now.space call.now.time arguments) }
    ensures err { OnErr result (tree.new ≡ tree.old) }
{
    let room = room_of_reply(alloc)?;
    let results = arguments.execute(alloc, tree, call)?;
    Ok(reply(room, call.xid, results))
}

/// Executes a WRITE. Its data are copied once, from the arguments into the tree. After an `Err` the tree is as before.
pub(crate) fn write_file(alloc: Global, tree: &mut Tree, call: &Call) -> Result<Change, Memory>
    requires space { IsWithinCapacity call.now.space }
    ensures result { IfOk result (IsChangeWith call.now.xid write_res_codec is_status_ok (write_reply tree.old call.now.caller.now call.now.space call.now.time) (read_all write_args_codec call.now.arguments.now)) }
    ensures tree { OnOk result (tree.new ≡ tree_with tree.old (write_tree tree.old call.now.caller.now call.now.space call.now.time) (read_all write_args_codec call.now.arguments.now)) }
    ensures err { OnErr result (tree.new ≡ tree.old) }
{
    match write_arguments(alloc, call.arguments)? {
        Some(arguments) => write_of(alloc, tree, call, &arguments),
        None => no_change(alloc, call.xid),
    }
}

/// Executes a WRITE with these arguments.
fn write_of(
    alloc: Global,
    tree: &mut Tree,
    call: &Call,
    arguments: &WriteArgsRef<'_>,
) -> Result<Change, Memory>
    requires space { IsWithinCapacity call.now.space }
    ensures result { IfOk result (IsChangeWith call.now.xid write_res_codec is_status_ok (write_reply tree.old call.now.caller.now call.now.space call.now.time) (Ok arguments.now)) }
    ensures tree { OnOk result (tree.new ≡ write_tree tree.old call.now.caller.now call.now.space call.now.time arguments.now) }
    ensures err { OnErr result (tree.new ≡ tree.old) }
{
    let room = room_of_reply(alloc)?;
    let results = nr_ops_file::write(tree, call.time, call.caller, &call.space, arguments)?;
    Ok(reply(room, call.xid, results))
}

#[tactic(auto, using(crate::proofs::Fits::wcc_results_fit))]
impl Changing for SetattrArgs {
    type Done = WccData;

    type Failed = WccData;

    ghost results = { setattr_reply };

    ghost changed = { setattr_tree };

    fn execute(self, _alloc: Global, tree: &mut Tree, call: &Call) -> Result<SetattrRes, Memory> {
        Ok(nr_ops_file::setattr(tree, call.time, call.caller, &call.space, &self))
    }
}

impl Changing for CreateArgs {
    type Done = CreateOk;

    type Failed = WccData;

    ghost results = { create_reply };

    ghost changed = { create_tree };

    fn execute(self, alloc: Global, tree: &mut Tree, call: &Call) -> Result<CreateRes, Memory> {
        nr_ops_dir::create(alloc, tree, call.time, call.caller, &call.space, self)
    }
}

impl Changing for MkdirArgs {
    type Done = CreateOk;

    type Failed = WccData;

    ghost results = { mkdir_reply };

    ghost changed = { mkdir_tree };

    fn execute(self, alloc: Global, tree: &mut Tree, call: &Call) -> Result<MkdirRes, Memory> {
        nr_ops_dir::mkdir(alloc, tree, call.time, call.caller, &call.space, self)
    }
}

impl Changing for SymlinkArgs {
    type Done = CreateOk;

    type Failed = WccData;

    ghost results = { symlink_reply };

    ghost changed = { symlink_tree };

    fn execute(self, alloc: Global, tree: &mut Tree, call: &Call) -> Result<SymlinkRes, Memory> {
        nr_ops_dir::symlink(alloc, tree, call.time, call.caller, &call.space, self)
    }
}

impl Changing for MknodArgs {
    type Done = CreateOk;

    type Failed = WccData;

    ghost results = { mknod_reply };

    ghost changed = { mknod_tree };

    fn execute(self, alloc: Global, tree: &mut Tree, call: &Call) -> Result<MknodRes, Memory> {
        nr_ops_dir::mknod(alloc, tree, call.time, call.caller, &call.space, self)
    }
}

#[tactic(auto, using(crate::proofs::Fits::wcc_results_fit))]
impl Changing for RemoveArgs {
    type Done = WccData;

    type Failed = WccData;

    ghost results = { remove_reply };

    ghost changed = { remove_tree };

    fn execute(self, _alloc: Global, tree: &mut Tree, call: &Call) -> Result<RemoveRes, Memory> {
        Ok(nr_ops_dir::remove(tree, call.time, call.caller, &call.space, &self))
    }
}

#[tactic(auto, using(crate::proofs::Fits::wcc_results_fit))]
impl Changing for RmdirArgs {
    type Done = WccData;

    type Failed = WccData;

    ghost results = { rmdir_reply };

    ghost changed = { rmdir_tree };

    fn execute(self, _alloc: Global, tree: &mut Tree, call: &Call) -> Result<RmdirRes, Memory> {
        Ok(nr_ops_dir::rmdir(tree, call.time, call.caller, &call.space, &self))
    }
}

impl Changing for RenameArgs {
    type Done = RenameWcc;

    type Failed = RenameWcc;

    ghost results = { rename_reply };

    ghost changed = { rename_tree };

    fn execute(self, _alloc: Global, tree: &mut Tree, call: &Call) -> Result<RenameRes, Memory> {
        nr_ops_dir::rename(tree, call.time, call.caller, &call.space, self)
    }
}

impl Changing for LinkArgs {
    type Done = LinkWcc;

    type Failed = LinkWcc;

    ghost results = { link_reply };

    ghost changed = { link_tree };

    fn execute(self, _alloc: Global, tree: &mut Tree, call: &Call) -> Result<LinkRes, Memory> {
        nr_ops_dir::link(tree, call.time, call.caller, &call.space, self)
    }
}
