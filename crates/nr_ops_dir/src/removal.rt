//! REMOVE and RMDIR.

ghost use Rattle.std.specs.Prelude.{◌≡◌, None, Some, IfOk, MatchResult};
ghost use Rattle.nr_tree.specs.Steps.{CanRemoveEntry};
ghost use Rattle.nr_tree.specs.Rules.{first, number_of_handle, IsWithinCapacity};
ghost use Rattle.nr_ops_dir.specs.Entries.{number_of_entry as number_under};
ghost use Rattle.nr_ops_dir.specs.private.Removed.{tree_after_removal, results_of_removal, dot_rules, removable_rules, removal_rules, removal_tree, removal_reply};
ghost use Rattle.nr_ops_dir.specs.Removal.{remove_tree, remove_reply, rmdir_tree, rmdir_reply};

use crate::entries::{check_entry, has_entries, is_dir_at, number_of_entry};
use nr_nfs_args::{RemoveArgs, RmdirArgs};
use nr_nfs_base::{Caller, Status, StatusUnion, Time, WccData};
use nr_nfs_res::{RemoveRes, RmdirRes};
use nr_tree::{
    Space, Tree, check_space, is_dot, is_dot_dot, is_dot_name, refused, wcc_attributes_at, wcc_data,
};

/// What a call takes out.
#[derive(Clone, Copy)]
enum Target {
    /// A node that is no directory (REMOVE).
    File,
    /// An empty directory (RMDIR).
    Directory,
}

/// Whether the name may be that of an entry.
fn check_dots(target: Target, name: &[u8]) -> Result<(), Status>
    ensures { MatchResult result (λ _. first (dot_rules target name.now) ≡ None) (λ s. first (dot_rules target name.now) ≡ Some s) }
{
    match target {
        Target::File if is_dot_name(name) => Err(Status::Inval),
        Target::Directory if is_dot(name) => Err(Status::Inval),
        Target::Directory if is_dot_dot(name) => Err(Status::Exist),
        _ => Ok(()),
    }
}

/// Whether the node may be taken out.
fn check_removable(tree: &Tree, target: Target, number: u64) -> Result<(), Status>
    ensures { MatchResult result (λ _. first (removable_rules tree.now target number) ≡ None) (λ s. first (removable_rules tree.now target number) ≡ Some s) }
{
    match target {
        Target::File if is_dir_at(tree, number) => Err(Status::Isdir),
        Target::Directory if !is_dir_at(tree, number) => Err(Status::Notdir),
        Target::Directory if has_entries(tree, number) => Err(Status::Notempty),
        _ => Ok(()),
    }
}

/// The numbers of the directory and of the node that is taken out of it, or the first refusal.
#[tactic(auto, unfolding(crate::specs::private::Removed::removal_rules))]
fn entry_to_remove(
    tree: &Tree,
    caller: &Caller,
    space: &Space,
    target: Target,
    dir: &[u8],
    name: &[u8],
) -> Result<(u64, u64), Status>
    requires space { IsWithinCapacity space.now }
    ensures { MatchResult result
        (λ n. (first (removal_rules tree.now caller.now space.now target dir.now name.now) ≡ None) × (n.0 ≡ number_of_handle dir.now)
        × (number_under tree.now (number_of_handle dir.now) name.now ≡ Some n.1))
        (λ s. first (removal_rules tree.now caller.now space.now target dir.now name.now) ≡ Some s) }
{
    let directory = check_entry(tree, caller, dir, name)?;
    check_dots(target, name)?;
    let Some(number) = number_of_entry(tree, directory, name) else {
        return Err(Status::Noent);
    };
    check_removable(tree, target, number)?;
    check_space(space)?;
    Ok((directory, number))
}

/// Takes an entry out if it was found, and gives the results of the call. Takes no memory.
fn remove_found(
    tree: &mut Tree,
    now: Time,
    dir: &[u8],
    name: &[u8],
    found: Result<(u64, u64), Status>,
) -> StatusUnion<WccData, WccData>
    requires { IfOk found (λ n. CanRemoveEntry tree.old n.0 name.now n.1) }
    ensures tree { tree.new ≡ tree_after_removal tree.old now name.now found }
    ensures result { result ≡ results_of_removal tree.old (tree_after_removal tree.old now name.now found) dir.now found }
{
    match found {
        Ok((directory, number)) => {
            let before = wcc_attributes_at(tree, dir);
            tree.remove_entry(directory, name, number, now);
            StatusUnion::Done(wcc_data(before, tree, dir))
        }
        Err(status) => refused(status, tree, dir),
    }
}

/// Takes an entry out of a directory, if no rule refuses it. Takes no memory.
fn remove_target(
    tree: &mut Tree,
    now: Time,
    caller: &Caller,
    space: &Space,
    target: Target,
    dir: &[u8],
    name: &[u8],
) -> StatusUnion<WccData, WccData>
    requires space { IsWithinCapacity space.now }
    ensures result { result ≡ removal_reply tree.old caller.now space.now now target dir.now name.now }
    ensures tree { tree.new ≡ removal_tree tree.old caller.now space.now now target dir.now name.now }
{
    let found = entry_to_remove(tree, caller, space, target, dir, name);
    remove_found(tree, now, dir, name, found)
}

/// Takes the entry of a file, or of another node that is no directory, out of a directory (RFC 1813 section 3.3.12).
pub fn remove(
    tree: &mut Tree,
    now: Time,
    caller: &Caller,
    space: &Space,
    args: &RemoveArgs,
) -> RemoveRes
    requires space { IsWithinCapacity space.now }
    ensures result { result ≡ remove_reply tree.old caller.now space.now now args.now }
    ensures tree { tree.new ≡ remove_tree tree.old caller.now space.now now args.now }
{
    let (dir, name) = (args.dir.as_slice(), args.name.as_slice());
    remove_target(tree, now, caller, space, Target::File, dir, name)
}

/// Takes the entry of an empty directory out of a directory (RFC 1813 section 3.3.13).
pub fn rmdir(
    tree: &mut Tree,
    now: Time,
    caller: &Caller,
    space: &Space,
    args: &RmdirArgs,
) -> RmdirRes
    requires space { IsWithinCapacity space.now }
    ensures result { result ≡ rmdir_reply tree.old caller.now space.now now args.now }
    ensures tree { tree.new ≡ rmdir_tree tree.old caller.now space.now now args.now }
{
    let (dir, name) = (args.dir.as_slice(), args.name.as_slice());
    remove_target(tree, now, caller, space, Target::Directory, dir, name)
}
