//! MKDIR, SYMLINK and MKNOD, and what CREATE shares with them: a new node, its entry and the reply.

ghost use Rattle.std.specs.Prelude.{◌≡◌, None, Some, Ok, Err, MatchResult, IfOk, OnOk, OnErr};
ghost use Rattle.nr_nfs_base.specs.declared.status_union.StatusUnion.TheVariants.{Done};
ghost use Rattle.nr_tree.specs.declared.node.Content.TheVariants.{Link};
ghost use Rattle.nr_tree.specs.Steps.{IsBounded, CanAddNode};
ghost use Rattle.nr_tree.specs.Changes.{tree_with_node};
ghost use Rattle.nr_tree.specs.Rules.{first, number_of_handle, handle_of as handle_of_number, IsWithinCapacity};
ghost use Rattle.nr_tree.specs.Replies.{attributes_at as attributes_of_handle, attributes_of_number as attributes_by_number};
ghost use Rattle.nr_ops_dir.specs.private.Added.{tree_after_addition, results_of_addition, special_rules, IsSpecial};
ghost use Rattle.nr_ops_dir.specs.Creation.{nothing_given as no_attributes, owner_rule, new_node as node_of, create_ok as ok_of, new_name_rules, new_directory as directory_of, mkdir_rules, mkdir_tree, mkdir_reply, link_mode, path_rules, symlink_rules, symlink_tree, symlink_reply, special_content as content_of_data, special_attributes as attributes_of_data, is_device as is_device_data, mknod_rules, mknod_tree, mknod_reply};

use crate::entries::{check_entry, check_links, is_taken, live_number};
use nr_nfs_args::{MkdirArgs, MknodArgs, MknodData, SymlinkArgs};
use nr_nfs_base::{
    Caller, Handle, LINK_TARGET_MAX, Name, Path, SetAttributes, SetTime, Status, StatusUnion, Time,
    WccAttributes, WccData,
};
use nr_nfs_res::{CreateOk, MkdirRes, MknodRes, SymlinkRes};
use nr_tree::{
    Content, Directory, MODE_COUNT, Metadata, Node, Space, Tree, attributes_of_number, check_space,
    check_times, differs_if_given, handle_of, refused, time_after, wcc_attributes_at, wcc_data,
};
use nr_xdr::Memory;
use std::alloc::Global;

/// Whether the caller may make a node of the owner and the group that are given.
pub(crate) fn check_owner(caller: &Caller, attributes: &SetAttributes) -> Result<(), Status>
    ensures { MatchResult result (λ _. owner_rule caller.now attributes.now ≡ None) (λ s. owner_rule caller.now attributes.now ≡ Some s) }
{
    let is_given_away = differs_if_given(attributes.uid, caller.uid)
        || differs_if_given(attributes.gid, caller.gid);
    if caller.uid != 0 && is_given_away {
        return Err(Status::Perm);
    }
    Ok(())
}

/// The number of the directory that a handle names, if a new entry of the name may be put in for a node of these
/// attributes.
#[tactic(auto, unfolding(crate::specs::Creation::new_name_rules))]
pub(crate) fn check_new_name(
    tree: &Tree,
    caller: &Caller,
    handle: &[u8],
    name: &[u8],
    attributes: &SetAttributes,
) -> Result<u64, Status>
    ensures { MatchResult result
        (λ d. (first (new_name_rules tree.now caller.now handle.now name.now attributes.now) ≡ None) × (d ≡ number_of_handle handle.now))
        (λ s. first (new_name_rules tree.now caller.now handle.now name.now attributes.now) ≡ Some s) }
{
    let directory = check_entry(tree, caller, handle, name)?;
    if is_taken(tree, directory, name) {
        return Err(Status::Exist);
    }
    if attributes.size.is_some() {
        return Err(Status::Inval);
    }
    check_owner(caller, attributes)?;
    check_times(attributes)?;
    Ok(directory)
}

/// What is given of a node if a call gives nothing.
pub(crate) fn nothing_given() -> SetAttributes
    ensures { result ≡ no_attributes }
{
    SetAttributes {
        mode: None,
        uid: None,
        gid: None,
        size: None,
        atime: SetTime::Leave,
        mtime: SetTime::Leave,
    }
}

/// The mode of a node that is no directory and no symbolic link, if none is given.
pub(crate) const FILE_MODE: u32 = 0o644;

/// A node that is made now in a directory. What is not given is the caller's, now, and this mode.
pub(crate) fn new_node(
    caller: &Caller,
    now: Time,
    directory: u64,
    mode: u32,
    attributes: &SetAttributes,
    content: Content,
) -> Node
    ensures { result ≡ node_of caller.now now directory mode attributes.now content }
{
    let links = match &content {
        Content::Directory(_) => 2,
        _ => 1,
    };
    let metadata = Metadata {
        mode: attributes.mode.unwrap_or(mode) % MODE_COUNT,
        links,
        uid: attributes.uid.unwrap_or(caller.uid),
        gid: attributes.gid.unwrap_or(caller.gid),
        atime: time_after(now, now, attributes.atime),
        mtime: time_after(now, now, attributes.mtime),
        ctime: now,
    };
    Node {
        metadata,
        parent: directory,
        verifier: None,
        content,
    }
}

/// What a reply says of the node of a name. Takes no memory.
pub(crate) fn create_ok(
    before: Option<WccAttributes>,
    tree: &Tree,
    dir: &[u8],
    object: Handle,
    number: u64,
) -> CreateOk
    ensures { result ≡ record {
      object = Some object;
      attributes = attributes_by_number tree.now number;
      dir_wcc = record { before = before; after = attributes_of_handle tree.now dir.now };
    } }
{
    CreateOk {
        object: Some(object),
        attributes: attributes_of_number(tree, number),
        dir_wcc: wcc_data(before, tree, dir),
    }
}

/// Puts a new node and its entry into the directory that is its parent, and gives what the reply says. The handle is that of
/// the node. After an `Err` the tree is as before.
#[tactic(auto, using(crate::proofs::NamesAfter::create_ok_is, crate::proofs::NamesAfter::named_after_addition))]
fn add_with_handle(
    tree: &mut Tree,
    now: Time,
    dir: &[u8],
    name: Name,
    node: Node,
    object: Handle,
) -> Result<StatusUnion<CreateOk, WccData>, Memory>
    requires bounded { IsBounded tree.old }
    requires directory { node.parent ≡ number_of_handle dir.now }
    requires allowed { CanAddNode tree.old node.parent name node }
    requires object { object ≡ handle_of_number tree.old.next }
    ensures result { IfOk result (λ r. r ≡ Done (ok_of tree.old (tree_with_node tree.old now node.parent name node) dir.now name)) }
    ensures tree { OnOk result (tree.new ≡ tree_with_node tree.old now node.parent name node) }
    ensures err { OnErr result (tree.new ≡ tree.old) }
{
    tree.facts();
    let before = wcc_attributes_at(tree, dir);
    let number = tree.add_node(node.parent, name.into_octets().into_vec(), node, now)?;
    Ok(StatusUnion::Done(create_ok(before, tree, dir, object, number)))
}

/// Puts a node that is made now and its entry into a directory, unless it is refused, and gives the results of the call. After
/// an `Err` the tree is as before.
pub(crate) fn add_made(
    alloc: Global,
    tree: &mut Tree,
    now: Time,
    dir: &[u8],
    name: Name,
    made: Result<Node, Status>,
) -> Result<StatusUnion<CreateOk, WccData>, Memory>
    requires bounded { IsBounded tree.old }
    requires allowed { IfOk made (λ node. CanAddNode tree.old (number_of_handle dir.now) name node) }
    ensures result { IfOk result (λ r. r ≡ results_of_addition tree.old (tree_after_addition tree.old now dir.now name made) dir.now name made) }
    ensures tree { OnOk result (tree.new ≡ tree_after_addition tree.old now dir.now name made) }
    ensures err { OnErr result (tree.new ≡ tree.old) }
{
    match made {
        Ok(node) => match handle_of(alloc, tree.next()) {
            Ok(object) => add_with_handle(tree, now, dir, name, node, object),
            Err(e) => Err(e),
        },
        Err(status) => Ok(refused(status, tree, dir)),
    }
}

/// The mode of a directory whose mode is not given.
const DIRECTORY_MODE: u32 = 0o755;

/// A directory without entries that is made now, or the first refusal. Takes no memory.
#[tactic(auto, unfolding(crate::specs::Creation::mkdir_rules))]
fn new_directory(
    alloc: Global,
    tree: &Tree,
    now: Time,
    caller: &Caller,
    space: &Space,
    args: &MkdirArgs,
) -> Result<Node, Status>
    requires space { IsWithinCapacity space.now }
    ensures { MatchResult result
        (λ n. (first (mkdir_rules tree.now caller.now space.now args.now) ≡ None) × (n ≡ directory_of caller.now now args.now))
        (λ s. first (mkdir_rules tree.now caller.now space.now args.now) ≡ Some s) }
{
    let (dir, name) = (args.dir.as_slice(), args.name.as_slice());
    let directory = check_new_name(tree, caller, dir, name, &args.attributes)?;
    check_links(tree, directory)?;
    check_space(space)?;
    let content = Content::Directory(Directory::new(alloc));
    Ok(new_node(
        caller,
        now,
        directory,
        DIRECTORY_MODE,
        &args.attributes,
        content,
    ))
}

/// Makes a directory (RFC 1813 section 3.3.9). After an `Err` the tree is as before.
pub fn mkdir(
    alloc: Global,
    tree: &mut Tree,
    now: Time,
    caller: &Caller,
    space: &Space,
    args: MkdirArgs,
) -> Result<MkdirRes, Memory>
    requires bounded { IsBounded tree.old }
    requires space { IsWithinCapacity space.now }
    ensures result { IfOk result (λ r. r ≡ mkdir_reply tree.old caller.now space.now now args) }
    ensures tree { OnOk result (tree.new ≡ mkdir_tree tree.old caller.now space.now now args) }
    ensures err { OnErr result (tree.new ≡ tree.old) }
{
    let made = new_directory(alloc, tree, now, caller, space, &args);
    let name = args.name;
    add_made(alloc, tree, now, args.dir.as_slice(), name, made)
}

/// Whether a symbolic link may have the path.
fn check_path(path: &[u8]) -> Result<(), Status>
    ensures { MatchResult result (λ _. first (path_rules path.now) ≡ None) (λ s. first (path_rules path.now) ≡ Some s) }
{
    if path.is_empty() {
        return Err(Status::Inval);
    }
    if path.len() > LINK_TARGET_MAX as usize {
        return Err(Status::Nametoolong);
    }
    Ok(())
}

/// The number of the directory that gets a symbolic link, or the first refusal.
#[tactic(auto, unfolding(crate::specs::Creation::symlink_rules))]
fn place_of_link(
    tree: &Tree,
    caller: &Caller,
    space: &Space,
    args: &SymlinkArgs,
) -> Result<u64, Status>
    requires space { IsWithinCapacity space.now }
    ensures { MatchResult result
        (λ d. (first (symlink_rules tree.now caller.now space.now args.now) ≡ None) × (d ≡ number_of_handle args.now.dir))
        (λ s. first (symlink_rules tree.now caller.now space.now args.now) ≡ Some s) }
{
    let (dir, name) = (args.dir.as_slice(), args.name.as_slice());
    let directory = check_new_name(tree, caller, dir, name, &args.attributes)?;
    check_path(args.path.as_slice())?;
    check_space(space)?;
    Ok(directory)
}

/// The mode of a symbolic link whose mode is not given.
const LINK_MODE: u32 = 0o777;

/// A symbolic link that is made now, unless its directory is refused. Takes no memory.
fn new_link(
    caller: &Caller,
    now: Time,
    directory: Result<u64, Status>,
    attributes: SetAttributes,
    path: Path,
) -> Result<Node, Status>
    ensures { MatchResult directory (λ d. result ≡ Ok (node_of caller.now now d link_mode attributes (Link path))) (λ s. result ≡ Err s) }
{
    match directory {
        Ok(directory) => {
            let content = Content::Link(path.into_octets());
            Ok(new_node(caller, now, directory, LINK_MODE, &attributes, content))
        }
        Err(status) => Err(status),
    }
}

/// Makes a symbolic link (RFC 1813 section 3.3.10). After an `Err` the tree is as before.
pub fn symlink(
    alloc: Global,
    tree: &mut Tree,
    now: Time,
    caller: &Caller,
    space: &Space,
    args: SymlinkArgs,
) -> Result<SymlinkRes, Memory>
    requires bounded { IsBounded tree.old }
    requires space { IsWithinCapacity space.now }
    ensures result { IfOk result (λ r. r ≡ symlink_reply tree.old caller.now space.now now args) }
    ensures tree { OnOk result (tree.new ≡ symlink_tree tree.old caller.now space.now now args) }
    ensures err { OnErr result (tree.new ≡ tree.old) }
{
    let directory = place_of_link(tree, caller, space, &args);
    let made = new_link(caller, now, directory, args.attributes, args.path);
    let name = args.name;
    add_made(alloc, tree, now, args.dir.as_slice(), name, made)
}

fn is_device(what: MknodData) -> bool
    ensures { result ≡ is_device_data what }
{
    matches!(what, MknodData::Blk(_) | MknodData::Chr(_))
}

fn special_attributes(what: MknodData) -> SetAttributes
    ensures { result ≡ attributes_of_data what }
{
    match what {
        MknodData::Reg | MknodData::Dir | MknodData::Lnk => nothing_given(),
        MknodData::Blk(data) | MknodData::Chr(data) => data.attributes,
        MknodData::Sock(attributes) | MknodData::Fifo(attributes) => attributes,
    }
}

/// The device, the socket or the pipe; none for a type that MKNOD doesn't make.
fn special_content(what: MknodData) -> Option<Content>
    ensures { result ≡ content_of_data what }
{
    match what {
        MknodData::Blk(data) => Some(Content::Block(data.device)),
        MknodData::Chr(data) => Some(Content::Character(data.device)),
        MknodData::Sock(_) => Some(Content::Socket),
        MknodData::Fifo(_) => Some(Content::Fifo),
        MknodData::Reg | MknodData::Dir | MknodData::Lnk => None,
    }
}

/// What is asked of a device, a socket or a pipe.
#[tactic(auto, unfolding(crate::specs::private::Added::special_rules))]
fn check_special(
    tree: &Tree,
    caller: &Caller,
    space: &Space,
    args: &MknodArgs,
) -> Result<u64, Status>
    requires space { IsWithinCapacity space.now }
    ensures { MatchResult result
        (λ d. (first (special_rules tree.now caller.now space.now args.now) ≡ None) × (d ≡ number_of_handle args.now.dir))
        (λ s. first (special_rules tree.now caller.now space.now args.now) ≡ Some s) }
{
    let (dir, name) = (args.dir.as_slice(), args.name.as_slice());
    let attributes = special_attributes(args.what);
    let directory = check_new_name(tree, caller, dir, name, &attributes)?;
    if is_device(args.what) && caller.uid != 0 {
        return Err(Status::Perm);
    }
    check_space(space)?;
    Ok(directory)
}

/// A device, a socket or a pipe that is made now, or the first refusal. Takes no memory.
fn new_special(
    tree: &Tree,
    now: Time,
    caller: &Caller,
    space: &Space,
    args: &MknodArgs,
) -> Result<Node, Status>
    requires space { IsWithinCapacity space.now }
    ensures { MatchResult result
        (λ n. (first (mknod_rules tree.now caller.now space.now args.now) ≡ None) × IsSpecial caller.now now args.now n)
        (λ s. first (mknod_rules tree.now caller.now space.now args.now) ≡ Some s) }
{
    live_number(tree, args.dir.as_slice())?;
    let Some(content) = special_content(args.what) else {
        return Err(Status::Badtype);
    };
    let directory = check_special(tree, caller, space, args)?;
    let attributes = special_attributes(args.what);
    Ok(new_node(caller, now, directory, FILE_MODE, &attributes, content))
}

/// Makes a device, a socket or a pipe (RFC 1813 section 3.3.11). After an `Err` the tree is as before.
pub fn mknod(
    alloc: Global,
    tree: &mut Tree,
    now: Time,
    caller: &Caller,
    space: &Space,
    args: MknodArgs,
) -> Result<MknodRes, Memory>
    requires bounded { IsBounded tree.old }
    requires space { IsWithinCapacity space.now }
    ensures result { IfOk result (λ r. r ≡ mknod_reply tree.old caller.now space.now now args) }
    ensures tree { OnOk result (tree.new ≡ mknod_tree tree.old caller.now space.now now args) }
    ensures err { OnErr result (tree.new ≡ tree.old) }
{
    let made = new_special(tree, now, caller, space, &args);
    let name = args.name;
    add_made(alloc, tree, now, args.dir.as_slice(), name, made)
}
