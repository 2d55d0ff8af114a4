//! GETATTR, SETATTR and ACCESS.

ghost use Rattle.std.specs.Prelude.{◌≡◌, ◌≤◌, None, Some, IsSome, IfSome, MatchResult};
ghost use Rattle.nr_ops_file.specs.Attributes.{getattr_rules, getattr_reply, same_time as same_times, guard_differs, changes_owner as changes_owner_of, needs_owner as needs_owner_for, sets_server_time as sets_the_server_time, is_owner as is_owner_of, permission_rules, value_rules, setattr_of, setattr_rules, MayHaveSize, IsNodeToSet, mode_after as mode_set, mtime_of_size as mtime_of, metadata_after as metadata_set, tree_with_size_given, tree_with_attributes, setattr_tree, setattr_reply, bit_if as bit_where, access_granted, access_reply};
ghost use Rattle.nr_tree.specs.Replies.{attributes_at as attributes_of_handle};
ghost use Rattle.nr_tree.specs.Rules.{first, IsWithinCapacity};
ghost use Rattle.nr_tree.specs.Steps.{is_regular_at, links_at};
ghost use Rattle.nr_tree.specs.Tree.{is_regular};

use nr_nfs_args::{AccessArgs, GetattrArgs, SetattrArgs};
use nr_nfs_base::{Caller, SetAttributes, SetTime, Status, StatusUnion, Time};
use nr_nfs_res::{AccessOk, AccessRes, GetattrRes, SetattrRes};
use nr_tree::{
    MODE_COUNT, Metadata, Node, Right, Space, Tree, attributes_at, check_size, check_space,
    check_times, differs_if_given, live_node, may, refused, time_after, wcc_attributes_at,
    wcc_data,
};

/// The attributes of the node that the handle names (RFC 1813 section 3.3.1). Takes no memory.
pub fn getattr(tree: &Tree, args: &GetattrArgs) -> GetattrRes
    ensures result { result ≡ getattr_reply tree.now args.now }
    // If no rule refuses there are attributes, so SERVERFAULT is never answered.
    ensures live { first (getattr_rules tree.now args.now) ≡ None → IsSome (attributes_of_handle tree.now args.now.object) }
{
    match live_node(tree, args.object.as_slice()) {
        Ok((number, node)) => StatusUnion::Done(node.attributes(number)),
        Err(status) => StatusUnion::Failed { status, part: () },
    }
}

const ACCESS_READ: u32 = 1;

const ACCESS_LOOKUP: u32 = 2;

const ACCESS_MODIFY: u32 = 4;

const ACCESS_EXTEND: u32 = 8;

const ACCESS_DELETE: u32 = 16;

const ACCESS_EXECUTE: u32 = 32;

/// Which of the rights that are asked for the caller has (RFC 1813 section 3.3.4). Takes no memory.
pub fn access(tree: &Tree, caller: &Caller, args: &AccessArgs) -> AccessRes
    ensures { result ≡ access_reply tree.now caller.now args.now }
{
    let handle = args.object.as_slice();
    let attributes = attributes_at(tree, handle);
    match live_node(tree, handle) {
        Ok((_, node)) => StatusUnion::Done(AccessOk {
            attributes,
            access: args.access & granted_access(caller, node),
        }),
        Err(status) => StatusUnion::Failed {
            status,
            part: attributes,
        },
    }
}

fn bit_if(granted: bool, bit: u32) -> u32
    ensures value { result ≡ bit_where granted bit }
    ensures bounded { result ≤ bit }
{
    if granted { bit } else { 0 }
}

/// A bit for each right of the caller on the node.
fn granted_access(caller: &Caller, node: &Node) -> u32
    ensures { result ≡ access_granted caller.now node.now }
{
    let is_dir = node.is_dir();
    let read = may(caller, Right::Read, node);
    let write = may(caller, Right::Write, node);
    let execute = may(caller, Right::Execute, node);
    bit_if(read, ACCESS_READ)
        + bit_if(is_dir && execute, ACCESS_LOOKUP)
        + bit_if(write, ACCESS_MODIFY)
        + bit_if(write, ACCESS_EXTEND)
        + bit_if(is_dir && write, ACCESS_DELETE)
        + bit_if(!is_dir && execute, ACCESS_EXECUTE)
}

/// Sets attributes, and cuts a regular file or adds zeros to it (RFC 1813 section 3.3.2). Takes no memory.
pub fn setattr(
    tree: &mut Tree,
    now: Time,
    caller: &Caller,
    space: &Space,
    args: &SetattrArgs,
) -> SetattrRes
    requires space { IsWithinCapacity space.now }
    ensures result { result ≡ setattr_reply tree.old caller.now space.now now args.now }
    ensures tree { tree.new ≡ setattr_tree tree.old caller.now space.now now args.now }
{
    let handle = args.object.as_slice();
    match node_to_set(tree, caller, space, args) {
        Ok((number, metadata)) => {
            let before = wcc_attributes_at(tree, handle);
            set_attributes(tree, now, number, args.attributes, metadata);
            StatusUnion::Done(wcc_data(before, tree, handle))
        }
        Err(status) => refused(status, tree, handle),
    }
}

/// The number of the node whose attributes the call may set, and what they are.
fn node_to_set(
    tree: &Tree,
    caller: &Caller,
    space: &Space,
    args: &SetattrArgs,
) -> Result<(u64, Metadata), Status>
    requires { IsWithinCapacity space.now }
    ensures { MatchResult result (λ x. (first (setattr_rules tree.now caller.now space.now args.now) ≡ None) × IsNodeToSet tree.now args.now x.0 x.1)
        (λ s. first (setattr_rules tree.now caller.now space.now args.now) ≡ Some s) }
{
    let (number, node) = live_node(tree, args.object.as_slice())?;
    check_attributes(caller, args, node)?;
    check_space(space)?;
    Ok((number, node.metadata))
}

/// Whether the call may set its attributes of this node.
fn check_attributes(caller: &Caller, args: &SetattrArgs, node: &Node) -> Result<(), Status>
    ensures { MatchResult result (λ _. (first (setattr_of caller.now args.now node.now) ≡ None) × IfSome args.now.attributes.size (MayHaveSize (is_regular node.now)))
        (λ s. first (setattr_of caller.now args.now node.now) ≡ Some s) }
{
    if differs(args.guard, node) {
        return Err(Status::NotSync);
    }
    check_permission(caller, args.attributes, node)?;
    check_values(args.attributes, node)
}

fn same_time(a: Time, b: Time) -> bool
    ensures { result ≡ same_times a b }
{
    a.seconds == b.seconds && a.nanoseconds == b.nanoseconds
}

/// Whether a guard is given and is unlike the change time.
fn differs(guard: Option<Time>, node: &Node) -> bool
    ensures { result ≡ guard_differs guard node.now }
{
    match guard {
        Some(time) => !same_time(time, node.metadata.ctime),
        None => false,
    }
}

fn changes_owner(attributes: SetAttributes, node: &Node) -> bool
    ensures { result ≡ changes_owner_of attributes node.now }
{
    differs_if_given(attributes.uid, node.metadata.uid)
        || differs_if_given(attributes.gid, node.metadata.gid)
}

/// Whether the owner alone may set this: the mode, or a time of the client's.
fn needs_owner(attributes: SetAttributes) -> bool
    ensures { result ≡ needs_owner_for attributes }
{
    attributes.mode.is_some()
        || matches!(attributes.atime, SetTime::ClientTime(_))
        || matches!(attributes.mtime, SetTime::ClientTime(_))
}

fn sets_server_time(attributes: SetAttributes) -> bool
    ensures { result ≡ sets_the_server_time attributes }
{
    matches!(attributes.atime, SetTime::ServerTime)
        || matches!(attributes.mtime, SetTime::ServerTime)
}

/// The owner, or uid 0.
fn is_owner(caller: &Caller, node: &Node) -> bool
    ensures { result ≡ is_owner_of caller.now node.now }
{
    caller.uid == 0 || caller.uid == node.metadata.uid
}

/// Whether the caller may set these attributes.
fn check_permission(caller: &Caller, attributes: SetAttributes, node: &Node) -> Result<(), Status>
    ensures { MatchResult result (λ _. first (permission_rules caller.now attributes node.now) ≡ None) (λ s. first (permission_rules caller.now attributes node.now) ≡ Some s) }
{
    if changes_owner(attributes, node) && caller.uid != 0 {
        return Err(Status::Perm);
    }
    if needs_owner(attributes) && !is_owner(caller, node) {
        return Err(Status::Perm);
    }
    let write = may(caller, Right::Write, node);
    if attributes.size.is_some() && !write {
        return Err(Status::Acces);
    }
    if sets_server_time(attributes) && !(is_owner(caller, node) || write) {
        return Err(Status::Acces);
    }
    Ok(())
}

/// Whether the node can have these attributes.
fn check_values(attributes: SetAttributes, node: &Node) -> Result<(), Status>
    ensures { MatchResult result (λ _. (first (value_rules attributes node.now) ≡ None) × IfSome attributes.size (MayHaveSize (is_regular node.now)))
        (λ s. first (value_rules attributes node.now) ≡ Some s) }
{
    if attributes.size.is_some() && node.is_dir() {
        return Err(Status::Isdir);
    }
    if attributes.size.is_some() && !node.is_regular() {
        return Err(Status::Inval);
    }
    check_times(&attributes)?;
    check_size(attributes.size)
}

/// Gives the node these attributes. Takes no memory.
fn set_attributes(
    tree: &mut Tree,
    now: Time,
    number: u64,
    attributes: SetAttributes,
    metadata: Metadata,
)
    requires links { metadata.links ≡ links_at tree.old number }
    requires size { IfSome attributes.size (MayHaveSize (is_regular_at tree.old number)) }
    ensures { tree.new ≡ tree_with_attributes tree.old now number attributes metadata }
{
    set_size(tree, now, number, attributes.size);
    tree.set_metadata(number, metadata_after(now, attributes, metadata));
}

/// Cuts a regular file or adds zeros, if a size is given. Takes no memory.
fn set_size(tree: &mut Tree, now: Time, number: u64, size: Option<u64>)
    requires size { IfSome size (MayHaveSize (is_regular_at tree.old number)) }
    ensures tree { tree.new ≡ tree_with_size_given tree.old now number size }
    ensures links { links_at tree.new number ≡ links_at tree.old number }
{
    match size {
        Some(size) => tree.set_size(number, size, now),
        None => {}
    }
}

fn mode_after(asked: Option<u32>, present: u32) -> u32
    ensures { result ≡ mode_set asked present }
{
    match asked {
        Some(mode) => mode % MODE_COUNT,
        None => present,
    }
}

/// The time of the last change of bytes, before it is set.
fn mtime_of_size(now: Time, size: Option<u64>, mtime: Time) -> Time
    ensures { result ≡ mtime_of now size mtime }
{
    if size.is_some() { now } else { mtime }
}

fn metadata_after(now: Time, attributes: SetAttributes, metadata: Metadata) -> Metadata
    ensures { result ≡ metadata_set now attributes metadata }
{
    let mtime = mtime_of_size(now, attributes.size, metadata.mtime);
    Metadata {
        mode: mode_after(attributes.mode, metadata.mode),
        links: metadata.links,
        uid: attributes.uid.unwrap_or(metadata.uid),
        gid: attributes.gid.unwrap_or(metadata.gid),
        atime: time_after(now, metadata.atime, attributes.atime),
        mtime: time_after(now, mtime, attributes.mtime),
        ctime: now,
    }
}
