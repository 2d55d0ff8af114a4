//! RENAME.

ghost use Rattle.std.specs.Prelude.{◌≡◌, ◌&&◌, if◌then◌else◌, true, false, None, Some, MatchResult, IfOk, OnOk, OnErr};
ghost use Rattle.nr_nfs_base.specs.declared.status_union.StatusUnion.TheVariants.{Done};
ghost use Rattle.nr_tree.specs.Sane.{skeleton};
ghost use Rattle.nr_tree.specs.Within.{is_within};
ghost use Rattle.nr_tree.specs.Steps.{IsBounded, CanRename, is_dir_at as is_directory_at};
ghost use Rattle.nr_tree.specs.Changes.{tree_with_new_name};
ghost use Rattle.nr_tree.specs.Rules.{first, or_else, name_rules, number_of_handle, IsWithinCapacity};
ghost use Rattle.nr_tree.specs.Replies.{attributes_at as attributes_of_handle, wcc_attributes_at as wcc_attributes_of_handle};
ghost use Rattle.nr_ops_dir.specs.Entries.{number_of_entry as number_under, directory_rule};
ghost use Rattle.nr_ops_dir.specs.Renaming.{IsMoveOf, is_same_node as leads_to, target_rule, move_rule, replacement_rule, rename_of, both_rules, rename_rules, tree_with_move, rename_tree, rename_reply, rename_wcc as wcc_of_rename};

use crate::entries::{
    check_directory, check_links, has_entries, is_dir_at, live_number, number_of_entry,
};
use nr_nfs_args::RenameArgs;
use nr_nfs_base::{Caller, Name, Status, StatusUnion, Time, WccAttributes};
use nr_nfs_res::{RenameRes, RenameWcc};
use nr_tree::{Space, Tree, check_name, check_space, is_dot_name, wcc_attributes_at, wcc_data};
use nr_xdr::Memory;

/// Whether the target is there, and is the same node.
fn is_same_node(target: Option<u64>, number: u64) -> bool
    ensures { result ≡ leads_to target number }
{
    match target {
        Some(target) => target == number,
        None => false,
    }
}

/// Whether the target may be replaced by the node.
fn check_target(tree: &Tree, number: u64, target: Option<u64>) -> Result<(), Status>
    ensures { MatchResult result (λ _. target_rule tree.now number target ≡ None) (λ s. target_rule tree.now number target ≡ Some s) }
{
    match target {
        Some(target) => {
            if is_dir_at(tree, number) != is_dir_at(tree, target) || has_entries(tree, target) {
                return Err(Status::Exist);
            }
            Ok(())
        }
        None => Ok(()),
    }
}

/// Whether a directory that moves into another one may be a link more there.
fn check_move(tree: &Tree, from: u64, to: u64, number: u64) -> Result<(), Status>
    ensures { MatchResult result (λ _. move_rule tree.now from to number ≡ None) (λ s. move_rule tree.now from to number ≡ Some s) }
{
    if is_dir_at(tree, number) && from != to {
        return check_links(tree, to);
    }
    Ok(())
}

/// What is asked if the target is another node, or none.
#[tactic(auto, unfolding(crate::specs::Renaming::replacement_rule))]
fn check_replacement(
    tree: &Tree,
    from: u64,
    to: u64,
    number: u64,
    target: Option<u64>,
) -> Result<(), Status>
    ensures { MatchResult result (λ _. replacement_rule tree.now from to number target ≡ None) (λ s. replacement_rule tree.now from to number target ≡ Some s) }
{
    if is_same_node(target, number) {
        return Ok(());
    }
    check_target(tree, number, target)?;
    check_move(tree, from, to, number)
}

/// Whether a node is a directory that would move into itself or below.
fn is_moved_below_itself(tree: &Tree, to: u64, number: u64) -> bool
    requires directory { is_directory_at tree.now to ≡ true }
    ensures { result ≡ is_directory_at tree.now number && is_within (skeleton tree.now) to number }
{
    is_dir_at(tree, number) && tree.is_within(to, number)
}

/// Whether the target is the node already, or the refusal of the node or of the target.
#[tactic(auto, unfolding(crate::specs::Renaming::rename_of))]
fn check_node(
    tree: &Tree,
    space: &Space,
    args: &RenameArgs,
    from: u64,
    to: u64,
    number: u64,
) -> Result<bool, Status>
    requires space { IsWithinCapacity space.now }
    requires from { from ≡ number_of_handle args.now.from_dir }
    requires to { to ≡ number_of_handle args.now.to_dir }
    requires directory { is_directory_at tree.now to ≡ true }
    ensures { MatchResult result
        (λ same. (first (rename_of tree.now space.now args.now number) ≡ None) × (same ≡ leads_to (number_under tree.now (number_of_handle args.now.to_dir) args.now.to_name) number))
        (λ s. first (rename_of tree.now space.now args.now number) ≡ Some s) }
{
    if is_moved_below_itself(tree, to, number) {
        return Err(Status::Inval);
    }
    let target = number_of_entry(tree, to, args.to_name.as_slice());
    check_replacement(tree, from, to, number, target)?;
    check_space(space)?;
    Ok(is_same_node(target, number))
}

/// Whether entries may have both names.
fn check_names(from: &[u8], to: &[u8]) -> Result<(), Status>
    ensures { MatchResult result
        (λ _. (first (name_rules from.now) ≡ None) × (first (name_rules to.now) ≡ None))
        (λ s. or_else (first (name_rules from.now)) (first (name_rules to.now)) ≡ Some s) }
{
    check_name(from)?;
    check_name(to)
}

/// Whether the caller may change both directories.
fn check_directories(tree: &Tree, caller: &Caller, from: u64, to: u64) -> Result<(), Status>
    ensures { MatchResult result
        (λ _. (directory_rule tree.now caller.now from ≡ None) × (directory_rule tree.now caller.now to ≡ None))
        (λ s. or_else (directory_rule tree.now caller.now from) (directory_rule tree.now caller.now to) ≡ Some s) }
{
    check_directory(tree, caller, from)?;
    check_directory(tree, caller, to)
}

/// The numbers of both directories.
#[tactic(auto, unfolding(crate::specs::Renaming::both_rules))]
fn both_directories(tree: &Tree, caller: &Caller, args: &RenameArgs) -> Result<(u64, u64), Status>
    ensures { MatchResult result
        (λ d. (first (both_rules tree.now caller.now args.now) ≡ None) × (d.0 ≡ number_of_handle args.now.from_dir) × (d.1 ≡ number_of_handle args.now.to_dir))
        (λ s. first (both_rules tree.now caller.now args.now) ≡ Some s) }
{
    let from = live_number(tree, args.from_dir.as_slice())?;
    let to = live_number(tree, args.to_dir.as_slice())?;
    check_names(args.from_name.as_slice(), args.to_name.as_slice())?;
    check_directories(tree, caller, from, to)?;
    Ok((from, to))
}

/// The directories of a RENAME, the node, and whether the target is that node already.
#[derive(Clone, Copy)]
struct Move {
    from: u64,
    to: u64,
    number: u64,
    is_done: bool,
}

/// What RENAME moves, or the first refusal.
#[tactic(auto, unfolding(crate::specs::Renaming::rename_rules), using(crate::proofs::CanRename::both_passed))]
fn node_to_move(
    tree: &Tree,
    caller: &Caller,
    space: &Space,
    args: &RenameArgs,
) -> Result<Move, Status>
    requires space { IsWithinCapacity space.now }
    ensures { MatchResult result
        (λ m. (first (rename_rules tree.now caller.now space.now args.now) ≡ None) × IsMoveOf tree.now args.now m)
        (λ s. first (rename_rules tree.now caller.now space.now args.now) ≡ Some s) }
{
    let (from, to) = both_directories(tree, caller, args)?;
    let name = args.from_name.as_slice();
    if is_dot_name(name) || is_dot_name(args.to_name.as_slice()) {
        return Err(Status::Inval);
    }
    let number = match number_of_entry(tree, from, name) {
        Some(number) => number,
        None => return Err(Status::Noent),
    };
    let is_done = check_node(tree, space, args, from, to, number)?;
    Ok(Move {
        from,
        to,
        number,
        is_done,
    })
}

/// Both directories before.
fn wcc_before(tree: &Tree, args: &RenameArgs) -> (Option<WccAttributes>, Option<WccAttributes>)
    ensures { result ≡ (wcc_attributes_of_handle tree.now args.now.from_dir, wcc_attributes_of_handle tree.now args.now.to_dir) }
{
    (
        wcc_attributes_at(tree, args.from_dir.as_slice()),
        wcc_attributes_at(tree, args.to_dir.as_slice()),
    )
}

/// Both directories before and after.
fn rename_wcc(
    before: (Option<WccAttributes>, Option<WccAttributes>),
    tree: &Tree,
    from: &[u8],
    to: &[u8],
) -> RenameWcc
    ensures { result ≡ record {
      from_dir = record { before = before.0; after = attributes_of_handle tree.now from.now };
      to_dir = record { before = before.1; after = attributes_of_handle tree.now to.now };
    } }
{
    RenameWcc {
        from_dir: wcc_data(before.0, tree, from),
        to_dir: wcc_data(before.1, tree, to),
    }
}

/// Gives the node its new name, if it hasn't it already. After an `Err` the tree is as before.
fn move_node(
    tree: &mut Tree,
    now: Time,
    step: Move,
    name: Name,
    name_to: Name,
) -> Result<(), Memory>
    requires bounded { IsBounded tree.old }
    requires allowed { step.is_done ≡ false → CanRename tree.old step.from name step.to name_to step.number }
    ensures tree { OnOk result (tree.new ≡ (if step.is_done then tree.old else tree_with_new_name tree.old now step.from name step.to name_to step.number)) }
    ensures err { OnErr result (tree.new ≡ tree.old) }
{
    if step.is_done {
        return Ok(());
    }
    let name_to = name_to.into_octets().into_vec();
    tree.rename(
        step.from,
        name.as_slice(),
        step.to,
        name_to,
        step.number,
        now,
    )
}

/// Moves the node, and gives what the reply says. After an `Err` the tree is as before.
fn renamed(tree: &mut Tree, now: Time, args: RenameArgs, step: Move) -> Result<RenameRes, Memory>
    requires bounded { IsBounded tree.old }
    requires allowed { step.is_done ≡ false → CanRename tree.old step.from args.from_name step.to args.to_name step.number }
    requires step { IsMoveOf tree.old args step }
    ensures result { IfOk result (λ r. r ≡ Done (wcc_of_rename tree.old (tree_with_move tree.old now args step.number) args)) }
    ensures tree { OnOk result (tree.new ≡ tree_with_move tree.old now args step.number) }
    ensures err { OnErr result (tree.new ≡ tree.old) }
{
    let before = wcc_before(tree, &args);
    move_node(tree, now, step, args.from_name, args.to_name)?;
    Ok(StatusUnion::Done(rename_wcc(
        before,
        tree,
        args.from_dir.as_slice(),
        args.to_dir.as_slice(),
    )))
}

/// Gives a node another name, in the same directory or in another one (RFC 1813 section 3.3.14). A target that may be
/// replaced is taken out. A directory that would move into itself or below is refused: the rules find that by a walk, which
/// finds a directory if and only if a path leads up to it ([`nr_tree::walks_find_ancestors`]). After an `Err` the tree is as
/// before.
pub fn rename(
    tree: &mut Tree,
    now: Time,
    caller: &Caller,
    space: &Space,
    args: RenameArgs,
) -> Result<RenameRes, Memory>
    requires bounded { IsBounded tree.old }
    requires space { IsWithinCapacity space.now }
    ensures result { IfOk result (λ r. r ≡ rename_reply tree.old caller.now space.now now args) }
    ensures tree { OnOk result (tree.new ≡ rename_tree tree.old caller.now space.now now args) }
    ensures err { OnErr result (tree.new ≡ tree.old) }
{
    tree.facts();
    match node_to_move(tree, caller, space, &args) {
        Ok(step) => renamed(tree, now, args, step),
        Err(status) => {
            let before = wcc_before(tree, &args);
            let part = rename_wcc(
                before,
                tree,
                args.from_dir.as_slice(),
                args.to_dir.as_slice(),
            );
            Ok(StatusUnion::Failed { status, part })
        }
    }
}
