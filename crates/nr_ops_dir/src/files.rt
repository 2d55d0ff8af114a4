//! CREATE.

ghost use Rattle.std.specs.Prelude.{◌≡◌, ℕ, ◌≤◌, true, None, Some, unwrap_or, MatchResult, IfOk, OnOk, OnErr};
ghost use Rattle.nr_nfs_base.specs.declared.status_union.StatusUnion.TheVariants.{Done};
ghost use Rattle.nr_nfs_args.specs.declared.create.CreateHow.TheVariants.{Unchecked};
ghost use Rattle.nr_tree.specs.Sane.{file_size_max};
ghost use Rattle.nr_tree.specs.Steps.{IsBounded, is_regular_at};
ghost use Rattle.nr_tree.specs.Rules.{first, number_of_handle, handle_of as handle_of_number, IsWithinCapacity};
ghost use Rattle.nr_tree.specs.Replies.{wcc_data as wcc_of, attributes_of_number};
ghost use Rattle.nr_ops_dir.specs.Entries.{number_of_entry as number_under};
ghost use Rattle.nr_ops_dir.specs.Create.{given_attributes as attributes_given, given_verifier as verifier_given, new_file_rules, new_file as file_of, is_made_by as is_made_with, existing_file_rules, size_to_set as size_given, tree_with_existing_file, file_rules, create_rules, create_tree, create_reply};

use crate::creation::{FILE_MODE, add_made, check_owner, create_ok, new_node, nothing_given};
use crate::entries::{check_entry, number_of_entry};
use nr_nfs_args::{CreateArgs, CreateHow};
use nr_nfs_base::{Caller, SetAttributes, Status, StatusUnion, Time, Verifier};
use nr_nfs_res::CreateRes;
use nr_tree::{
    Content, File, Node, Right, Space, Tree, check_size, check_space, check_times, handle_of,
    is_dot_name, may, refused, wcc_attributes_at,
};
use nr_xdr::Memory;
use std::alloc::Global;

fn given_attributes(how: CreateHow) -> SetAttributes
    ensures { result ≡ attributes_given how }
{
    match how {
        CreateHow::Unchecked(attributes) | CreateHow::Guarded(attributes) => attributes,
        CreateHow::Exclusive(_) => nothing_given(),
    }
}

fn given_verifier(how: CreateHow) -> Option<Verifier>
    ensures { result ≡ verifier_given how }
{
    match how {
        CreateHow::Unchecked(_) | CreateHow::Guarded(_) => None,
        CreateHow::Exclusive(verifier) => Some(verifier),
    }
}

/// The size that a file gets that is there already.
fn size_to_set(how: CreateHow) -> Option<u64>
    ensures { result ≡ size_given how }
{
    match how {
        CreateHow::Unchecked(attributes) => attributes.size,
        CreateHow::Guarded(_) | CreateHow::Exclusive(_) => None,
    }
}

/// What is asked of a new file.
#[tactic(auto, unfolding(crate::specs::Create::new_file_rules))]
fn check_new_file(caller: &Caller, attributes: &SetAttributes) -> Result<(), Status>
    ensures { MatchResult result (λ _. first (new_file_rules caller.now attributes.now) ≡ None) (λ s. first (new_file_rules caller.now attributes.now) ≡ Some s) }
{
    check_owner(caller, attributes)?;
    check_times(attributes)?;
    check_size(attributes.size)
}

/// Whether an exclusive CREATE with this verifier made the file.
fn is_made_by(verifier: Verifier, stored: Option<Verifier>) -> bool
    ensures { result ≡ is_made_with verifier stored }
{
    match stored {
        Some(stored) => stored.number == verifier.number,
        None => false,
    }
}

/// What an unchecked CREATE asks of what is there.
fn check_unchecked(caller: &Caller, attributes: SetAttributes, node: &Node) -> Result<(), Status>
    ensures { MatchResult result
        (λ _. first (existing_file_rules caller.now (Unchecked attributes) node.now) ≡ None)
        (λ s. first (existing_file_rules caller.now (Unchecked attributes) node.now) ≡ Some s) }
{
    if !node.is_regular() {
        return Err(Status::Exist);
    }
    if attributes.size.is_some() && !may(caller, Right::Write, node) {
        return Err(Status::Acces);
    }
    check_size(attributes.size)
}

/// What is asked of what is there.
fn check_existing_file(caller: &Caller, how: CreateHow, node: &Node) -> Result<(), Status>
    ensures { MatchResult result
        (λ _. first (existing_file_rules caller.now how node.now) ≡ None)
        (λ s. first (existing_file_rules caller.now how node.now) ≡ Some s) }
{
    match how {
        CreateHow::Unchecked(attributes) => check_unchecked(caller, attributes, node),
        CreateHow::Guarded(_) => Err(Status::Exist),
        CreateHow::Exclusive(verifier) => {
            if node.is_regular() && is_made_by(verifier, node.verifier) {
                Ok(())
            } else {
                Err(Status::Exist)
            }
        }
    }
}

/// What is asked of a new file, or of what is there under the name.
fn check_file(
    tree: &Tree,
    caller: &Caller,
    how: CreateHow,
    existing: Option<u64>,
) -> Result<(), Status>
    ensures { MatchResult result
        (λ _. first (file_rules tree.now caller.now how existing) ≡ None)
        (λ s. first (file_rules tree.now caller.now how existing) ≡ Some s) }
{
    match existing {
        Some(number) => match tree.get(number) {
            Some(node) => check_existing_file(caller, how, node),
            None => Ok(()),
        },
        None => check_new_file(caller, &given_attributes(how)),
    }
}

/// The number of the directory, and that of what is there under the name, or the first refusal.
#[tactic(auto, unfolding(crate::specs::Create::create_rules))]
fn place_of_file(
    tree: &Tree,
    caller: &Caller,
    space: &Space,
    args: &CreateArgs,
) -> Result<(u64, Option<u64>), Status>
    requires space { IsWithinCapacity space.now }
    ensures { MatchResult result
        (λ p. (first (create_rules tree.now caller.now space.now args.now) ≡ None) × (p.0 ≡ number_of_handle args.now.dir)
        × (p.1 ≡ number_under tree.now (number_of_handle args.now.dir) args.now.name))
        (λ s. first (create_rules tree.now caller.now space.now args.now) ≡ Some s) }
{
    let (dir, name) = (args.dir.as_slice(), args.name.as_slice());
    let directory = check_entry(tree, caller, dir, name)?;
    if is_dot_name(name) {
        return Err(Status::Exist);
    }
    let existing = number_of_entry(tree, directory, name);
    check_file(tree, caller, args.how, existing)?;
    check_space(space)?;
    Ok((directory, existing))
}

/// A regular file that is made now. Takes no memory.
fn new_file(alloc: Global, caller: &Caller, now: Time, directory: u64, how: CreateHow) -> Node
    ensures { result ≡ file_of caller.now now directory how }
{
    let attributes = given_attributes(how);
    let content = Content::Regular(File::zeros(alloc, attributes.size.unwrap_or(0)));
    let mut node = new_node(caller, now, directory, FILE_MODE, &attributes, content);
    node.verifier = given_verifier(how);
    node
}

/// Gives a file that is there the size that is given, if any. Takes no memory.
fn set_given_size(tree: &mut Tree, now: Time, number: u64, how: CreateHow)
    requires regular { (size : ℕ) → size_given how ≡ Some size → is_regular_at tree.old number ≡ true }
    requires limit { (size : ℕ) → size_given how ≡ Some size → size ≤ file_size_max }
    ensures { tree.new ≡ tree_with_existing_file tree.old now how number }
{
    match size_to_set(how) {
        Some(size) => tree.set_size(number, size, now),
        None => {}
    }
}

/// Answers with a file that is there. After an `Err` the tree is as before.
fn use_existing_file(
    alloc: Global,
    tree: &mut Tree,
    now: Time,
    dir: &[u8],
    number: u64,
    how: CreateHow,
) -> Result<CreateRes, Memory>
    requires regular { (size : ℕ) → size_given how ≡ Some size → is_regular_at tree.old number ≡ true }
    requires limit { (size : ℕ) → size_given how ≡ Some size → size ≤ file_size_max }
    ensures result { IfOk result (λ r. r ≡ Done (record {
      object = Some (handle_of_number number);
      attributes = attributes_of_number (tree_with_existing_file tree.old now how number) number;
      dir_wcc = wcc_of tree.old (tree_with_existing_file tree.old now how number) dir.now;
    })) }
    ensures tree { OnOk result (tree.new ≡ tree_with_existing_file tree.old now how number) }
    ensures err { OnErr result (tree.new ≡ tree.old) }
{
    let before = wcc_attributes_at(tree, dir);
    let object = handle_of(alloc, number)?;
    set_given_size(tree, now, number, how);
    Ok(StatusUnion::Done(create_ok(before, tree, dir, object, number)))
}

/// Makes a regular file, or answers with the one that is there (RFC 1813 section 3.3.8). After an `Err` the tree is as
/// before.
pub fn create(
    alloc: Global,
    tree: &mut Tree,
    now: Time,
    caller: &Caller,
    space: &Space,
    args: CreateArgs,
) -> Result<CreateRes, Memory>
    requires bounded { IsBounded tree.old }
    requires space { IsWithinCapacity space.now }
    ensures result { IfOk result (λ r. r ≡ create_reply tree.old caller.now space.now now args) }
    ensures tree { OnOk result (tree.new ≡ create_tree tree.old caller.now space.now now args) }
    ensures err { OnErr result (tree.new ≡ tree.old) }
{
    tree.facts();
    match place_of_file(tree, caller, space, &args) {
        Ok((directory, None)) => {
            let node = new_file(alloc, caller, now, directory, args.how);
            let name = args.name;
            add_made(alloc, tree, now, args.dir.as_slice(), name, Ok(node))
        }
        Ok((_, Some(number))) => {
            use_existing_file(alloc, tree, now, args.dir.as_slice(), number, args.how)
        }
        Err(status) => Ok(refused(status, tree, args.dir.as_slice())),
    }
}
